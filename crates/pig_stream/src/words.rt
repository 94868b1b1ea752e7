//! What FLATTEN(TOKENIZE(field)) makes of rows: the words of a text, cut and put in the order of their bag as slices, before any of
//! them is copied.
ghost use Rattle.std.specs.Prelude.{◌≡◌, ◌++◌, ◌<◌, ◌≤◌, [], ◌∷◌, length, map, IfSome, List, MatchOption, OnOk};
ghost use Rattle.std.specs.List.{position_or_len};
ghost use Rattle.std.specs.Option.{option_copied};
ghost use Rattle.std.specs.Str.{IsUtf8};
ghost use Rattle.pig_value.specs.Functions.{is_separator, text_in};
ghost use Rattle.pig_value.specs.declared.functions.Function.TheVariants as f;
ghost use Rattle.pig_value.specs.Orders.{bag_of, row_cmp};
ghost use Rattle.pig_value.specs.Trees.{at, row_tree, tree, Tree};
ghost use Rattle.pig_typed.specs.Blocks.{item_lists};
ghost use Rattle.pig_typed.specs.Typed.{args_of, block_typed, item_typed, more_args, no_args, typed, x_call, x_field};
ghost use Rattle.pig_builtins.specs.Parts.{piece_rows};
ghost use Rattle.pig_stream.specs.WordRows.{MakesWords, pieces, text_words, texts_rows, word_row, word_rows};

use pig_typed::{Block, BlockItem, TExpr};
use pig_value::{Function, Text, Tuple, Value};
use std::alloc::AllocError;
use std::cmp::Ordering;

// The field of which a block makes the words, where it makes nothing else.
pub fn words_field(block: &Block) -> Option<u32>
    ensures { IfSome result (MakesWords (block_typed block.now)) }
{
    if !block.steps.is_empty() {
        return None;
    }
    match block.items.as_slice() {
        [item] => {
            let field = flattened_words(item)?;
            Some(field)
        }
        _ => None,
    }
}

fn flattened_words(item: &BlockItem) -> Option<u32>
    ensures { IfSome result (λ n. (row : List Tree) → item_lists (item_typed item.now) row []
        ≡ word_rows (at n row)) }
{
    if !item.flatten || item.width != 1 {
        return None;
    }
    let field = tokenized_field(&item.value)?;
    Some(field)
}

fn tokenized_field(e: &TExpr) -> Option<u32>
    ensures { IfSome result (λ n. typed e.now ≡ x_call f.Tokenize (more_args (x_field n) no_args)) }
{
    match e {
        TExpr::Call { function, args } => {
            let field = field_of_call(function, args.as_slice())?;
            Some(field)
        }
        _ => None,
    }
}

fn field_of_call(function: &Function, args: &[TExpr]) -> Option<u32>
    ensures { IfSome result (λ n. x_call function.now (args_of (map typed args.now))
        ≡ x_call f.Tokenize (more_args (x_field n) no_args)) }
{
    match (function, args) {
        (Function::Tokenize, [arg]) => {
            let field = field_of(arg)?;
            Some(field)
        }
        _ => None,
    }
}

fn field_of(e: &TExpr) -> Option<u32>
    ensures { IfSome result (λ n. typed e.now ≡ x_field n) }
{
    match e {
        TExpr::Field(n) => Some(*n),
        _ => None,
    }
}

// The text in a field of a row, where there is one.
pub fn text_at(row: &Tuple, field: u32) -> Option<&Text>
    ensures { text_words (option_copied result) ≡ word_rows (at field (row_tree row.now)) }
{
    match row.get(field as usize) {
        Some(value) => text_of(value),
        None => None,
    }
}

fn text_of(value: &Value) -> Option<&Text>
    ensures { option_copied result ≡ text_in (tree value.now) }
{
    match value {
        Value::Chars(text) => Some(text),
        _ => None,
    }
}

// Puts the words of a text in the place of others, in the order of their bag.
pub fn put_words<'r>(text: &'r Text, words: &mut Vec<&'r str>) -> Result<(), AllocError>
    ensures { OnOk result (texts_rows words.new.items ≡ bag_of (piece_rows (pieces text.now))) }
{
    words.clear();
    cut_words(text.as_str(), words)?;
    sort_words(words);
    Ok(())
}

fn sort_words(words: &mut Vec<&str>)
    ensures { texts_rows words.new.items ≡ bag_of (texts_rows words.old.items) }
{
    words.sort_unstable_by(|a, b| order_words(a, b));
}

#[tactic(auto, using(crate::proofs::WordLaws::order_of_words))]
fn order_words(a: &str, b: &str) -> Ordering
    ensures { result ≡ row_cmp (word_row a.now) (word_row b.now) }
{
    a.cmp(b)
}

// Adds the words of a text as they stand in it.
fn cut_words<'r>(text: &'r str, words: &mut Vec<&'r str>) -> Result<(), AllocError>
    ensures { OnOk result (texts_rows words.new.items
        ≡ texts_rows words.old.items ++ piece_rows (pieces text.now)) }
{
    let mut rest = text;
    while let Some((word, behind)) = cut(rest) {
        add_word(word, words)?;
        rest = behind;
    }
    add_word(rest, words)
}

// The piece before the first separator, and what stands behind that.
fn cut(text: &str) -> Option<(&str, &str)>
    ensures split { MatchOption result (pieces text.now ≡ text.now ∷ [])
        (λ p. pieces text.now ≡ p.0.now ∷ pieces p.1.now) }
    ensures shorter { IfSome result (λ p. length p.1.now < length text.now) }
    ensures utf8 { IfSome result (λ p. IsUtf8 p.1.now) }
{
    let end = piece_end(text.as_bytes());
    if end == text.len() {
        return None;
    }
    Some((&text[..end], &text[end + 1..]))
}

// The place of the first separator, or the end where there is none.
fn piece_end(bytes: &[u8]) -> usize
    ensures is { result ≡ position_or_len is_separator bytes.now }
    ensures within { result ≤ length bytes.now }
{
    bytes.iter().take_while(|b| !is_separator(**b)).count()
}

fn is_separator(byte: u8) -> bool
    ensures { result ≡ is_separator byte }
{
    matches!(byte, b' ' | b'"' | b',' | b'(' | b')' | b'*')
}

fn add_word<'r>(piece: &'r str, words: &mut Vec<&'r str>) -> Result<(), AllocError>
    ensures { OnOk result (texts_rows words.new.items
        ≡ texts_rows words.old.items ++ piece_rows (piece.now ∷ [])) }
{
    if piece.is_empty() {
        return Ok(());
    }
    words.push(piece)?;
    Ok(())
}
