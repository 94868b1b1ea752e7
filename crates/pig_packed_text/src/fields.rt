//! The fields of a row as a line of text.
ghost use Rattle.std.specs.Prelude.{◌≡◌, ◌++◌, [], ◌∷◌, map, true, false, OnOk};
ghost use Rattle.std.specs.List.{flat_map, join_with_byte};
ghost use Rattle.pig_value.specs.Texts.{text_of};
ghost use Rattle.pig_value.specs.Trees.{tree};
ghost use Rattle.pig_text.specs.Buffers.{HasTaken, takes_nothing, takes_on};
ghost use Rattle.pig_packed_text.specs.SeenTexts.{seen_text, text_at};

use crate::reading::Seen;
use pig_text::{TextSink, tell_value};
use pig_value::Value;
use std::alloc::AllocError;
use std::mem;

// Bytes that grow by what they are told, until memory is wanting.
struct TextBuffer {
    bytes: Vec<u8>,
    wants: bool,
}

impl TextSink for TextBuffer {
    ghost after = { λ a bytes b. HasTaken a.bytes.items a.wants bytes b.bytes.items b.wants };

    ghost nothing = { λ a. takes_nothing a.bytes.items a.wants };

    ghost onwards = { λ a b c xs ys h k. takes_on a.bytes.items b.bytes.items c.bytes.items xs ys a.wants b.wants c.wants h k };

    fn put(&mut self, bytes: &[u8]) {
        if !self.wants {
            self.wants = self.bytes.extend_from_slice(bytes).is_err();
        }
    }
}

// The bytes with the text of a value behind them.
fn with_value(value: &Value, bytes: Vec<u8>) -> TextBuffer
    ensures { HasTaken bytes.items false (text_of (tree value.now))
        result.bytes.items result.wants }
{
    let mut told = TextBuffer {
        bytes,
        wants: false,
    };
    tell_value(value, &mut told);
    told
}

fn write_value(value: &Value, out: &mut Vec<u8>) -> Result<(), AllocError>
    ensures { OnOk result (out.new.items ≡ out.old.items ++ text_of (tree value.now)) }
{
    let alloc = *out.allocator();
    let bytes = mem::replace(out, Vec::new(alloc));
    let told = with_value(value, bytes);
    let TextBuffer { bytes, wants } = told;
    *out = bytes;
    if wants {
        return Err(AllocError);
    }
    Ok(())
}

fn write_field(field: &Seen, out: &mut Vec<u8>) -> Result<(), AllocError>
    ensures { OnOk result (out.new.items ≡ out.old.items ++ seen_text field.now) }
{
    match field {
        Seen::Text(text) => out.extend_from_slice(text)?,
        Seen::Other(value) => write_value(value, out)?,
    }
    Ok(())
}

// The field at a place, nothing behind the last.
fn write_place(fields: &[Seen], place: u32, out: &mut Vec<u8>) -> Result<(), AllocError>
    ensures { OnOk result (out.new.items ≡ out.old.items
        ++ text_at (map seen_text fields.now) place) }
{
    match fields.get(place as usize) {
        Some(field) => write_field(field, out),
        None => Ok(()),
    }
}

// Further fields, the delimiter before each.
fn write_more(fields: &[Seen], delim: u8, out: &mut Vec<u8>) -> Result<(), AllocError>
    ensures { OnOk result (out.new.items ≡ out.old.items
        ++ flat_map (λ text. delim ∷ text) (map seen_text fields.now)) }
{
    let mut left = fields;
    while let [field, rest @ ..] = left {
        out.push(delim)?;
        write_field(field, out)?;
        left = rest;
    }
    Ok(())
}

fn write_more_places(
    fields: &[Seen],
    places: &[u32],
    delim: u8,
    out: &mut Vec<u8>,
) -> Result<(), AllocError>
    ensures { OnOk result (out.new.items ≡ out.old.items
        ++ flat_map (λ text. delim ∷ text) (map (text_at (map seen_text fields.now)) places.now)) }
{
    let mut left = places;
    while let [place, rest @ ..] = left {
        out.push(delim)?;
        write_place(fields, *place, out)?;
        left = rest;
    }
    Ok(())
}

// Appends all fields, with the delimiter between each two.
pub fn write_fields(fields: &[Seen], delim: u8, out: &mut Vec<u8>) -> Result<(), AllocError>
    ensures { OnOk result (out.new.items ≡ out.old.items
        ++ join_with_byte delim (map seen_text fields.now)) }
{
    let Some((first, more)) = fields.split_first() else {
        return Ok(());
    };
    write_field(first, out)?;
    write_more(more, delim, out)?;
    Ok(())
}

// Appends the fields at places, with the delimiter between each two.
pub fn write_places(
    fields: &[Seen],
    places: &[u32],
    delim: u8,
    out: &mut Vec<u8>,
) -> Result<(), AllocError>
    ensures { OnOk result (out.new.items ≡ out.old.items
        ++ join_with_byte delim (map (text_at (map seen_text fields.now)) places.now)) }
{
    let Some((first, more)) = places.split_first() else {
        return Ok(());
    };
    write_place(fields, *first, out)?;
    write_more_places(fields, more, delim, out)?;
    Ok(())
}
