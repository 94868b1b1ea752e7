ghost use Rattle.std.specs.Prelude.{◌≡◌, ◌<◌, ◌++◌, List, Some, length, map, slice_get, IfOk, OnOk};
ghost use Rattle.pig_value.specs.Texts.{rows_text};
ghost use Rattle.pig_value.specs.Trees.{Tree};
ghost use Rattle.pig_packed_text.specs.SeenTexts.{line_of, line_text, placed, seen_text};

use crate::fields::{write_fields, write_places};
use crate::reading::{Seen, read_fields};
use pig_packed::Packed;
use pig_value::Delim;
use std::alloc::{AllocError, Global};

// A row's line: all fields, or those at places.
fn write_line(
    fields: &[Seen],
    places: Option<&[u32]>,
    delim: u8,
    out: &mut Vec<u8>,
) -> Result<(), AllocError>
    ensures { OnOk result (out.new.items ≡ out.old.items
        ++ line_of delim places.entry (map seen_text fields.now)) }
{
    match places {
        None => write_fields(fields, delim, out)?,
        Some(places) => write_places(fields, places, delim, out)?,
    }
    out.push(b'\n')?;
    Ok(())
}

// Appends the line of the row at a place.
fn write_row<'p>(
    alloc: Global,
    rows: &'p Packed,
    at: usize,
    places: Option<&[u32]>,
    delim: u8,
    fields: &mut Vec<Seen<'p>>,
    out: &mut Vec<u8>,
) -> Result<(), AllocError>
    requires { at < length rows.now }
    ensures { (row : List Tree) → slice_get rows.now at ≡ Some row
        → OnOk result (out.new.items ≡ out.old.items ++ line_text delim places.entry row) }
{
    read_fields(alloc, rows.code(at), fields)?;
    write_line(fields.as_slice(), places, delim, out)?;
    Ok(())
}

/// The text of packed rows, or of their fields at places, in the order of these: each row's fields with the delimiter between
/// each two, and an LF. A place behind a row's last field gives an empty text, as a null does.
pub fn packed_text(
    alloc: Global,
    rows: &Packed,
    places: Option<&[u32]>,
    delim: Delim,
) -> Result<Vec<u8>, AllocError>
    ensures { IfOk result (λ text. text.items ≡ rows_text delim (placed places.entry rows.now)) }
{
    let mut text = Vec::new(alloc);
    let mut fields = Vec::new(alloc);
    for at in 0..rows.len() {
        write_row(
            alloc,
            rows,
            at,
            places,
            delim.byte(),
            &mut fields,
            &mut text,
        )?;
    }
    Ok(text)
}
