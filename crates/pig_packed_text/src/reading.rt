//! The fields of a row's code, one after the other.
ghost use Rattle.std.specs.Prelude.{◌≡◌, ◌<◌, ◌≤◌, ◌+◌, ℕ, List, ◌∷◌, ◌++◌, length, map, take, drop, IfOk, IfSome, OnOk, MatchOption};
ghost use Rattle.pig_value.specs.Texts.{text_of};
ghost use Rattle.pig_value.specs.Trees.{Tree};
ghost use Rattle.pig_value.specs.Valid.{IsValue};
ghost use Rattle.pig_keycode.specs.Codable.{IsCodeOfRow};
ghost use Rattle.pig_keycode.specs.Codes.{code as code_of, text_code};
ghost use Rattle.pig_keycode.specs.Reading.{HasNoZero};
ghost use Rattle.pig_packed_text.specs.SeenTexts.{BeginsNone, BeginsWithText, seen_text};

use bstr::ByteSlice;
use pig_keycode::read_code;
use pig_value::Value;
use std::alloc::{AllocError, Global};

// The tags of texts and of bytes, and what stands before each field of a row.
const CHARS: u8 = 4;

const BYTES: u8 = 5;

const ITEM: u8 = 1;

// A field of a row: the bytes of a text, which are lent, or another value.
#[derive(Drop)]
pub enum Seen<'c> {
    Text(&'c [u8]),
    Other(Value),
}

// The place of the first zero byte.
fn zero_at(bytes: &[u8]) -> Option<usize>
    ensures within { IfSome result (λ at. at < length bytes.now) }
    ensures before { IfSome result (λ at. HasNoZero (take at bytes.now)) }
    ensures here { IfSome result (λ at. drop at bytes.now ≡ 0 ∷ drop (at + 1) bytes.now) }
{
    bytes.find_byte(0)
}

// The bytes before the first zero byte, and those behind it.
fn cut_at_zero(bytes: &[u8]) -> Option<(&[u8], &[u8])>
    ensures is { IfSome result (λ cut. bytes.now ≡ cut.0.now ++ 0 ∷ cut.1.now) }
    ensures plain { IfSome result (λ cut. HasNoZero cut.0.now) }
{
    match zero_at(bytes) {
        Some(at) => {
            let (plain, here) = bytes.split_at(at);
            let (_, rest) = here.split_at(1);
            Some((plain, rest))
        }
        None => None,
    }
}

// What stands behind a zero byte that comes first.
fn behind_zero(marked: &[u8]) -> Option<&[u8]>
    ensures { IfSome result (λ rest. marked.now ≡ 0 ∷ rest.now) }
{
    match marked {
        [0, rest @ ..] => Some(rest),
        _ => None,
    }
}

// The bytes of a text without a zero byte, up to the mark of its end, and those behind it.
fn plain_text(content: &[u8]) -> Option<(&[u8], &[u8])>
    ensures { IfSome result (λ cut. content.now ≡ text_code cut.0.now ++ cut.1.now) }
{
    let (text, marked) = cut_at_zero(content)?;
    let rest = behind_zero(marked)?;
    Some((text, rest))
}

// The text or the bytes that a code begins with, where none of them is zero.
fn lent_text(code: &[u8]) -> Option<(&[u8], &[u8])>
    ensures { IfSome result (λ cut. BeginsWithText code.now cut.0.now cut.1.now) }
{
    match code {
        [CHARS, content @ ..] => plain_text(content),
        [BYTES, content @ ..] => plain_text(content),
        _ => None,
    }
}

// The value that a code begins with.
fn read_value<'c>(alloc: Global, code: &'c [u8]) -> Result<(Seen<'c>, &'c [u8]), AllocError>
    ensures text { (v : Tree) (rest : List ℕ) → IsValue v → code.now ≡ code_of v ++ rest
        → IfOk result (λ read. (seen_text read.0 ≡ text_of v) × (read.1.now ≡ rest)) }
    ensures left { IfOk result (λ read. length read.1.now ≤ length code.now) }
{
    match read_code(alloc, code)? {
        Some((value, rest)) => Ok((Seen::Other(value), rest)),
        None => Ok((Seen::Other(Value::Null), code)),
    }
}

// The field that a code begins with, and what stands behind it.
fn read_field<'c>(alloc: Global, code: &'c [u8]) -> Result<(Seen<'c>, &'c [u8]), AllocError>
    ensures text { (v : Tree) (rest : List ℕ) → IsValue v → code.now ≡ code_of v ++ rest
        → IfOk result (λ read. (seen_text read.0 ≡ text_of v) × (read.1.now ≡ rest)) }
    ensures left { IfOk result (λ read. length read.1.now ≤ length code.now) }
{
    match lent_text(code) {
        Some((text, rest)) => Ok((Seen::Text(text), rest)),
        None => read_value(alloc, code),
    }
}

// What stands behind the tag of a row.
fn behind_tag(code: &[u8]) -> &[u8]
    ensures { result.now ≡ drop 1 code.now }
{
    match code {
        [_, rest @ ..] => rest,
        [] => code,
    }
}

// The field that is marked next, if there is one.
fn next_field(rest: &[u8]) -> Option<&[u8]>
    ensures { MatchOption result (BeginsNone rest.now) (λ item. rest.now ≡ 1 ∷ item.now) }
{
    match rest {
        [ITEM, item @ ..] => Some(item),
        _ => None,
    }
}

// The fields of a row, in the place of others.
pub fn read_fields<'c>(
    alloc: Global,
    code: &'c [u8],
    fields: &mut Vec<Seen<'c>>,
) -> Result<(), AllocError>
    ensures { (row : List Tree) → IsCodeOfRow code.now row
        → OnOk result (map seen_text fields.new.items ≡ map text_of row) }
{
    fields.clear();
    let mut rest = behind_tag(code);
    loop {
        match next_field(rest) {
            None => return Ok(()),
            Some(item) => {
                let (field, left) = read_field(alloc, item)?;
                fields.push(field)?;
                rest = left;
            }
        }
    }
}
