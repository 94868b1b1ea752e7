ghost use Rattle.std.specs.Prelude.{◌≡◌, ◌==◌, ◌&&◌, ◌-◌, ◌≤◌, map, length, Some, None, [], slice_index_or, nat_le, slice_index, IfOk, if◌then◌else◌};
ghost use Rattle.std.specs.Option.{option_copied, option_map};
ghost use Rattle.pig_value.specs.Brackets.{is_opening, is_closing, is_separator, is_balanced, items as items_of, items_or_none as items_if_any, inside as inside_of, body_of};
ghost use Rattle.pig_value.specs.FieldReader.{cut_at};

use crate::open_brackets::OpenBrackets;
use bstr::ByteSlice;
use std::alloc::{AllocError, Global};

fn opens(byte: u8) -> bool
    ensures { result ≡ is_opening byte }
{
    byte == b'(' || byte == b'[' || byte == b'{'
}

fn closes(byte: u8) -> bool
    ensures { result ≡ is_closing byte }
{
    byte == b')' || byte == b']' || byte == b'}'
}

// A comma outside all brackets.
fn separates(byte: u8, unclosed: &OpenBrackets) -> bool
    ensures { result ≡ is_separator (length unclosed.now) byte }
{
    byte == b',' && unclosed.is_empty()
}

// The items of a body, what lies between the commas outside all brackets, where its brackets match and nest: one
// pass over the bytes.
fn items<'a>(alloc: Global, body: &'a [u8]) -> Result<Option<Vec<&'a [u8]>>, AllocError>
    ensures { IfOk result (λ found. option_map (λ v. map (λ item. item.now) v.items) found
        ≡ (if is_balanced body.now then Some (items_of body.now) else None)) }
{
    let mut found: Vec<&'a [u8]> = Vec::new(alloc);
    let mut unclosed = OpenBrackets::new(alloc);
    let mut from = 0;
    for i in 0..body.len() {
        let byte = body[i];
        if opens(byte) {
            unclosed.open(byte)?;
            continue;
        }
        if closes(byte) {
            if !unclosed.close(byte) {
                return Ok(None);
            }
            continue;
        }
        if separates(byte, &unclosed) {
            found.push(&body[from..i])?;
            from = i + 1;
            continue;
        }
    }
    if !unclosed.is_empty() {
        return Ok(None);
    }
    found.push(&body[from..])?;
    Ok(Some(found))
}

// What stands between two brackets, whatever it is.
fn between(bytes: &[u8], opening: u8, closing: u8) -> Option<&[u8]>
    ensures { option_copied result ≡ (if nat_le 2 (length bytes.now)
        && slice_index bytes.now 0 == opening
        && slice_index bytes.now (length bytes.now - 1) == closing then Some
        (inside_of bytes.now) else None) }
{
    if bytes.len() < 2 {
        return None;
    }
    if bytes[0] != opening {
        return None;
    }
    if bytes[bytes.len() - 1] != closing {
        return None;
    }
    Some(&bytes[1..bytes.len() - 1])
}

/// The items of the body between two brackets, where the bytes are these brackets with a balanced body between them.
pub(crate) fn items_between<'a>(
    alloc: Global,
    bytes: &'a [u8],
    opening: u8,
    closing: u8,
) -> Result<Option<Vec<&'a [u8]>>, AllocError>
    ensures { IfOk result (λ found. option_map (λ v. map (λ item. item.now) v.items) found
        ≡ option_map items_of (body_of opening closing bytes.now)) }
{
    match between(bytes, opening, closing) {
        Some(body) => {
            let found = items(alloc, body)?;
            Ok(found)
        }
        None => Ok(None),
    }
}

/// The same where a body may have no item.
pub(crate) fn any_items_between<'a>(
    alloc: Global,
    bytes: &'a [u8],
    opening: u8,
    closing: u8,
) -> Result<Option<Vec<&'a [u8]>>, AllocError>
    ensures { IfOk result (λ found. option_map (λ v. map (λ item. item.now) v.items) found
        ≡ option_map items_if_any (body_of opening closing bytes.now)) }
{
    match between(bytes, opening, closing) {
        Some(body) => {
            if body.is_empty() {
                return Ok(Some(Vec::new(alloc)));
            }
            let found = items(alloc, body)?;
            Ok(found)
        }
        None => Ok(None),
    }
}

/// The item at a place, which is empty where there is none.
pub(crate) fn item_at<'a>(items: &[&'a [u8]], at: usize) -> &'a [u8]
    ensures { result.now ≡ slice_index_or (map (λ item. item.now) items.now) at [] }
{
    match items.get(at) {
        Some(item) => *item,
        None => &[],
    }
}

/// What is before the first `#` and what is behind it.
pub(crate) fn key_and_value(item: &[u8]) -> Option<(&[u8], &[u8])>
    ensures { option_map (λ p. (p.0.now, p.1.now)) result ≡ cut_at 35 item.now }
{
    match item.find_byte(b'#') {
        Some(at) => Some((&item[..at], &item[at + 1..])),
        None => None,
    }
}
