//! Runs of the rows of lines, and the lines of rows.
// Trees end by `drop`: one call is cheap to prove, and a tree that dies by name is taken apart variant by variant.
ghost use Rattle.std.specs.Prelude.{◌≡◌, [], ◌∷◌, IfOk};
ghost use Rattle.pig_value.specs.declared.operators.Dir.TheVariants.{Desc};
ghost use Rattle.pig_value.specs.Trees.{fields_of, row_tree, tree, v_tuple};
ghost use Rattle.pig_value.specs.Valid.{IsRow, IsValue};
ghost use Rattle.pig_keycode.specs.Keys.{IsKey};
ghost use Rattle.pig_operators.specs.Given.{AreKeyedByRow};

use pig_keycode::{decode, decode_row, encode, encode_row};
use pig_runs::{Run, RunBuilder};
use pig_storage::{line_row, next_line, write_row};
use pig_value::{
    Column, Columns, Delim, Dir, Dirs, Kind, Rows, Seq, Tuple, Value, copy, copy_row, field_at,
};
use std::alloc::{AllocError, Global};

// The columns k:int and v:chararray.
fn columns(alloc: Global) -> Result<Columns, AllocError> {
    let mut columns = Seq::new(alloc);
    columns.push(Column {
        position: 0,
        kind: Kind::Int,
    })?;
    columns.push(Column {
        position: 1,
        kind: Kind::Chararray,
    })?;
    Ok(columns)
}

// A row, read back from its code.
fn sound_row(alloc: Global, row: &Tuple) -> Result<Tuple, AllocError>
    ensures { IfOk result (λ row. IsRow (row_tree row)) }
{
    let mut bytes = Vec::new(alloc);
    encode_row(row, &mut bytes)?;
    match decode_row(alloc, bytes.as_slice())? {
        Some(row) => Ok(row),
        None => Ok(Seq::new(alloc)),
    }
}

// A field of a row, read back from its code.
fn field(alloc: Global, row: &Tuple, position: u32) -> Result<Value, AllocError>
    ensures { IfOk result (λ key. IsValue (tree key)) }
{
    let Some(field) = field_at(row, position) else {
        return Ok(Value::Null);
    };
    let mut bytes = Vec::new(alloc);
    encode(field, Dir::Asc, &mut bytes)?;
    match decode(alloc, bytes.as_slice())? {
        Some(key) => Ok(key),
        None => Ok(Value::Null),
    }
}

fn line(alloc: Global, text: &[u8]) -> Result<Tuple, AllocError>
    ensures { IfOk result (λ row. IsRow (row_tree row)) }
{
    let row = line_row(alloc, text, Delim::tab(), &columns(alloc)?)?;
    sound_row(alloc, &row)
}

fn add_first(
    alloc: Global,
    builder: &mut RunBuilder,
    input: u32,
    row: &Tuple,
) -> Result<(), AllocError>
    requires none { builder.old.dirs ≡ [] }
    requires row { IsRow (row_tree row.now) }
    ensures { builder.new.dirs ≡ [] }
{
    let key = field(alloc, row, 0)?;
    let added = builder.add(&key, input, row);
    drop(key);
    added
}

// Adds the rows of an input's lines, each under its first field.
fn add_input(
    alloc: Global,
    builder: &mut RunBuilder,
    input: u32,
    text: &[u8],
) -> Result<(), AllocError>
    requires { builder.old.dirs ≡ [] }
    ensures { builder.new.dirs ≡ [] }
{
    let mut from = 0;
    while let Some(span) = next_line(text, from) {
        add_first(alloc, builder, input, &line(alloc, &text[from..span.to])?)?;
        from = span.next;
    }
    Ok(())
}

/// The run of the lines of inputs, by their first fields.
pub fn by_field(alloc: Global, inputs: &[&[u8]]) -> Result<Run, AllocError>
    ensures { IfOk result (λ run. run.dirs ≡ []) }
{
    let mut builder = RunBuilder::new(alloc, Dirs::new(alloc));
    let mut input = 0;
    for text in inputs {
        add_input(alloc, &mut builder, input, text)?;
        input = input.saturating_add(1);
    }
    Ok(builder.finish())
}

fn add_whole(
    alloc: Global,
    builder: &mut RunBuilder,
    input: u32,
    row: &Tuple,
) -> Result<(), AllocError>
    requires none { builder.old.dirs ≡ [] }
    requires row { IsRow (row_tree row.now) }
    requires keys { AreKeyedByRow builder.old.entries }
    ensures none { builder.new.dirs ≡ [] }
    ensures keys { AreKeyedByRow builder.new.entries }
{
    let key = Value::Tuple(copy_row(alloc, row)?);
    let added = builder.add(&key, input, row);
    drop(key);
    added
}

// Adds the rows of an input's lines, each under all of its fields.
fn add_rows(
    alloc: Global,
    builder: &mut RunBuilder,
    input: u32,
    text: &[u8],
) -> Result<(), AllocError>
    requires none { builder.old.dirs ≡ [] }
    requires keys { AreKeyedByRow builder.old.entries }
    ensures none { builder.new.dirs ≡ [] }
    ensures keys { AreKeyedByRow builder.new.entries }
{
    let mut from = 0;
    while let Some(span) = next_line(text, from) {
        add_whole(alloc, builder, input, &line(alloc, &text[from..span.to])?)?;
        from = span.next;
    }
    Ok(())
}

/// The run of the lines of inputs, by all of their fields.
pub fn by_row(alloc: Global, inputs: &[&[u8]]) -> Result<Run, AllocError>
    ensures none { IfOk result (λ run. run.dirs ≡ []) }
    ensures keys { IfOk result (λ run. AreKeyedByRow run.entries) }
{
    let mut builder = RunBuilder::new(alloc, Dirs::new(alloc));
    let mut input = 0;
    for text in inputs {
        add_rows(alloc, &mut builder, input, text)?;
        input = input.saturating_add(1);
    }
    Ok(builder.finish())
}

/// The direction of such a run.
pub fn second_down(alloc: Global) -> Result<Dirs, AllocError>
    ensures { IfOk result (λ dirs. dirs ≡ Desc ∷ []) }
{
    let mut dirs = Seq::new(alloc);
    dirs.push(Dir::Desc)?;
    Ok(dirs)
}

// The second field of a row alone, as the key of one direction.
fn second_field(alloc: Global, row: &Tuple) -> Result<Value, AllocError>
    ensures { IfOk result (λ key. IsKey (Desc ∷ []) (tree key)) }
{
    let mut fields = Seq::new(alloc);
    fields.push(field(alloc, row, 1)?)?;
    Ok(Value::Tuple(fields))
}

fn add_second(alloc: Global, builder: &mut RunBuilder, row: &Tuple) -> Result<(), AllocError>
    requires down { builder.old.dirs ≡ Desc ∷ [] }
    requires row { IsRow (row_tree row.now) }
    ensures { builder.new.dirs ≡ Desc ∷ [] }
{
    let key = second_field(alloc, row)?;
    let added = builder.add(&key, 0, row);
    drop(key);
    added
}

/// The run of lines by their second fields, downwards.
pub fn by_second(alloc: Global, text: &[u8]) -> Result<Run, AllocError>
    ensures { IfOk result (λ run. run.dirs ≡ Desc ∷ []) }
{
    let mut builder = RunBuilder::new(alloc, second_down(alloc)?);
    let mut from = 0;
    while let Some(span) = next_line(text, from) {
        add_second(alloc, &mut builder, &line(alloc, &text[from..span.to])?)?;
        from = span.next;
    }
    Ok(builder.finish())
}

/// The lines of rows.
pub fn lines_of(alloc: Global, rows: &Rows) -> Result<Vec<u8>, AllocError> {
    let mut out = Vec::new(alloc);
    for row in rows.as_slice() {
        write_row(row, Delim::tab(), &mut out)?;
    }
    Ok(out)
}
