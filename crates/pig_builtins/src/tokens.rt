ghost use Rattle.std.specs.Prelude.{◌≡◌, ◌++◌, ◌<◌, [], ◌∷◌, IfOk, IfSome, OnOk, MatchOption, length};
ghost use Rattle.std.specs.List.{slice_split};
ghost use Rattle.std.specs.Str.{IsUtf8};
ghost use Rattle.pig_value.specs.Functions.{is_separator, tokenize_tree};
ghost use Rattle.pig_value.specs.Trees.{rows_tree, tree, v_chars};
ghost use Rattle.pig_builtins.specs.Parts.{piece_rows};

use bstr::ByteSlice;
use pig_value::{Rows, Seq, Text, Value, bag};
use std::alloc::{AllocError, Global};

// The bytes that TOKENIZE cuts at.
const SEPARATORS: &[u8] = b" \",()*";

// TOKENIZE.
#[tactic(auto, using(crate::proofs::Trees::bag_made))]
pub fn tokenize(alloc: Global, text: &Text) -> Result<Value, AllocError>
    ensures { IfOk result (λ v. tree v ≡ tokenize_tree (v_chars text.now ∷ [])) }
{
    let rows = pieces(alloc, text.as_str())?;
    Ok(Value::Bag(bag(rows)))
}

// A row for each piece that is not empty, in order.
fn pieces(alloc: Global, text: &str) -> Result<Rows, AllocError>
    ensures { IfOk result (λ rows. rows_tree rows
        ≡ piece_rows (slice_split is_separator text.now)) }
{
    let mut rows = Seq::new(alloc);
    let mut rest = text;
    while let Some((piece, behind)) = cut(rest) {
        push_piece(alloc, &mut rows, piece)?;
        rest = behind;
    }
    push_piece(alloc, &mut rows, rest)?;
    Ok(rows)
}

// The piece before the first separator, and what stands behind that.
fn cut(text: &str) -> Option<(&str, &str)>
    ensures split { MatchOption result (slice_split is_separator text.now ≡ text.now ∷ [])
        (λ p. slice_split is_separator text.now ≡ p.0.now ∷ slice_split is_separator p.1.now) }
    ensures shorter { IfSome result (λ p. length p.1.now < length text.now) }
    ensures utf8 { IfSome result (λ p. IsUtf8 p.1.now) }
{
    match text.as_bytes().find_byteset(SEPARATORS) {
        Some(at) => Some((&text[..at], &text[at + 1..])),
        None => None,
    }
}

// A row for the piece, where that is not empty.
fn push_piece(alloc: Global, rows: &mut Rows, piece: &str) -> Result<(), AllocError>
    ensures { OnOk result (rows_tree rows.new ≡ rows_tree rows.old ++ piece_rows (piece.now ∷ [])) }
{
    if piece.is_empty() {
        return Ok(());
    }
    let mut row = Seq::new(alloc);
    row.push(Value::Chars(Text::from_str(alloc, piece)?))?;
    rows.push(row)
}
