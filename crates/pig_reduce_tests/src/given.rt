//! What map tasks hand on, of lines, and the lines of rows.
// Trees end by `drop`: one call is cheap to prove.
ghost use Rattle.std.specs.Prelude.{◌≡◌, [], IfOk};
ghost use Rattle.pig_value.specs.Trees.{row_tree, tree};
ghost use Rattle.pig_value.specs.Valid.{IsRow, IsValue};
ghost use Rattle.pig_reduce.specs.Made.{AreOfFirst};

use pig_keycode::{decode, decode_row, encode, encode_row};
use pig_packed::{Packed, PackedBuilder};
use pig_runs::{Run, RunBuilder};
use pig_storage::{line_row, next_line, write_row};
use pig_value::{
    Column, Columns, Delim, Dir, Dirs, Kind, Seq, Tuple, Value, copy, copy_row, field_at,
};
use std::alloc::{AllocError, Global};

// The columns k:chararray, and longs up to so many columns.
fn columns(alloc: Global, width: u32) -> Result<Columns, AllocError> {
    let mut columns = Seq::new(alloc);
    columns.push(Column {
        position: 0,
        kind: Kind::Chararray,
    })?;
    for position in 1..width {
        columns.push(Column {
            position,
            kind: Kind::Long,
        })?;
    }
    Ok(columns)
}

// A row, read back from its code.
fn sound_row(alloc: Global, row: &Tuple) -> Result<Tuple, AllocError>
    ensures { IfOk result (λ row. IsRow (row_tree row)) }
{
    let mut bytes = Vec::new(alloc);
    encode_row(row, &mut bytes)?;
    match decode_row(alloc, bytes.as_slice())? {
        Some(row) => Ok(row),
        None => Ok(Seq::new(alloc)),
    }
}

// A value, read back from its code.
fn sound(alloc: Global, value: &Value) -> Result<Value, AllocError>
    ensures { IfOk result (λ key. IsValue (tree key)) }
{
    let mut bytes = Vec::new(alloc);
    encode(value, Dir::Asc, &mut bytes)?;
    match decode(alloc, bytes.as_slice())? {
        Some(key) => Ok(key),
        None => Ok(Value::Null),
    }
}

fn line(alloc: Global, text: &[u8], width: u32) -> Result<Tuple, AllocError>
    ensures { IfOk result (λ row. IsRow (row_tree row)) }
{
    let row = line_row(alloc, text, Delim::tab(), &columns(alloc, width)?)?;
    let sound = sound_row(alloc, &row);
    drop(row);
    sound
}

// The key of a row: its first field, or of a DISTINCT (`d`) the row itself.
fn key_of(alloc: Global, letter: u8, row: &Tuple) -> Result<Value, AllocError> {
    if letter == b'd' {
        return Ok(Value::Tuple(copy_row(alloc, row)?));
    }
    match field_at(row, 0) {
        Some(field) => copy(alloc, field),
        None => Ok(Value::Null),
    }
}

// What an entry holds of a row: all of it, of a DISTINCT the key, of a GROUP that folds (`p`) what is
// behind the key.
fn held_of(alloc: Global, letter: u8, row: &Tuple) -> Result<Tuple, AllocError> {
    let mut held = Tuple::new(alloc);
    if letter == b'd' {
        held.push(Value::Tuple(copy_row(alloc, row)?))?;
        return Ok(held);
    }
    let from = if letter == b'p' { 1 } else { 0 };
    for place in from..5 {
        if let Some(field) = field_at(row, place) {
            held.push(copy(alloc, field)?)?;
        }
    }
    Ok(held)
}

fn add_entry(
    alloc: Global,
    builder: &mut RunBuilder,
    letter: u8,
    input: u32,
    row: &Tuple,
) -> Result<(), AllocError>
    requires dirs { builder.old.dirs ≡ [] }
    requires row { IsRow (row_tree row.now) }
    requires first { input ≡ 0 → AreOfFirst builder.old.entries }
    ensures dirs { builder.new.dirs ≡ [] }
    ensures first { input ≡ 0 → AreOfFirst builder.new.entries }
{
    let made = key_of(alloc, letter, row)?;
    let key = sound(alloc, &made)?;
    let held = held_of(alloc, letter, row)?;
    let sound = sound_row(alloc, &held)?;
    let added = builder.add(&key, input, &sound);
    drop((made, key));
    drop((held, sound));
    added
}

// How many columns lines have: those of parts have four behind the key.
fn width_of(letter: u8) -> u32 {
    if letter == b'p' { 5 } else { 2 }
}

// Adds the entries of lines.
fn add_lines(
    alloc: Global,
    builder: &mut RunBuilder,
    letter: u8,
    input: u32,
    text: &[u8],
) -> Result<(), AllocError>
    requires dirs { builder.old.dirs ≡ [] }
    requires first { input ≡ 0 → AreOfFirst builder.old.entries }
    ensures dirs { builder.new.dirs ≡ [] }
    ensures first { input ≡ 0 → AreOfFirst builder.new.entries }
{
    let mut from = 0;
    while let Some(span) = next_line(text, from) {
        let row = line(alloc, &text[from..span.to], width_of(letter))?;
        add_entry(alloc, builder, letter, input, &row)?;
        drop(row);
        from = span.next;
    }
    Ok(())
}

/// The run of the rows of an input's lines, as a map task hands them on: a letter says what their
/// entries are.
pub fn run_of(alloc: Global, letter: u8, input: u32, text: &[u8]) -> Result<Run, AllocError>
    ensures dirs { IfOk result (λ run. run.dirs ≡ []) }
    ensures first { input ≡ 0 → IfOk result (λ run. AreOfFirst run.entries) }
{
    let mut builder = RunBuilder::new(alloc, Dirs::new(alloc));
    add_lines(alloc, &mut builder, letter, input, text)?;
    Ok(builder.finish())
}

// Adds the rows of lines.
fn add_rows(alloc: Global, built: &mut PackedBuilder, text: &[u8]) -> Result<(), AllocError>
    requires { built.old.begun ≡ [] }
{
    let mut from = 0;
    while let Some(span) = next_line(text, from) {
        add_row(built, &line(alloc, &text[from..span.to], 2)?)?;
        from = span.next;
    }
    Ok(())
}

fn add_row(built: &mut PackedBuilder, row: &Tuple) -> Result<(), AllocError>
    requires none_begun { built.old.begun ≡ [] }
    requires row { IsRow (row_tree row.now) }
    ensures { built.new.begun ≡ [] }
{
    built.push_row(row)
}

/// The rows of lines, packed.
pub fn rows_of(alloc: Global, text: &[u8]) -> Result<Packed, AllocError> {
    let mut built = PackedBuilder::new(alloc);
    add_rows(alloc, &mut built, text)?;
    Ok(built.finish())
}

/// The lines of rows.
pub fn lines_of(alloc: Global, packed: &Packed) -> Result<Vec<u8>, AllocError> {
    let mut out = Vec::new(alloc);
    let rows = packed.between(alloc, 0, packed.len())?;
    for row in rows.as_slice() {
        write_row(row, Delim::tab(), &mut out)?;
    }
    drop(rows);
    Ok(out)
}
