ghost use Rattle.std.specs.Prelude.{◌≡◌, ◌<◌, ◌≤◌, length, drop, slice_get, IfOk, OnOk};
ghost use Rattle.std.specs.Option.{option_copied, option_map_or};
ghost use Rattle.pig_value.specs.FieldReader.{field_value};
ghost use Rattle.pig_value.specs.FieldRows.{pieces, row_of};
ghost use Rattle.pig_value.specs.Trees.{tree, row_tree, kind_tree, v_null};
ghost use Rattle.pig_storage.specs.Pieces.{IsPiece};

use crate::places::place_of;
use pig_cast::{read_field, read_field_over};
use pig_value::{Column, Columns, Delim, Kind, Seq, Tuple, Value};
use std::alloc::{AllocError, Global};

/// The row of a line at these columns: the line is cut at every delimiter, also in nested text, and each
/// column is what its kind reads from the piece at its position, or null where the line has no such
/// piece. Columns may repeat, leave positions out and stand in any order.
pub fn line_row(
    alloc: Global,
    line: &[u8],
    delim: Delim,
    columns: &Columns,
) -> Result<Tuple, AllocError>
    ensures { IfOk result (λ row. row_tree row ≡ row_of columns.now delim line.now) }
{
    let row = read_columns(alloc, line, delim.byte(), columns.as_slice())?;
    Ok(Seq::from_vec(row))
}

/// The row of a line, as [`line_row`] has it, in the place of another row. Texts take the memory of those that stood at
/// their column, so that rows of many lines want memory for the first ones alone. Where memory is wanting, the row is
/// left with other fields.
pub fn line_row_over(
    alloc: Global,
    line: &[u8],
    delim: Delim,
    columns: &Columns,
    row: &mut Tuple,
) -> Result<(), AllocError>
    ensures { OnOk result (row_tree row.new ≡ row_of columns.now delim line.now) }
{
    if row.len() != columns.len() {
        *row = line_row(alloc, line, delim, columns)?;
        return Ok(());
    }
    read_over(alloc, line, delim.byte(), columns.as_slice(), row)
}

// The values of the columns, each in the place of the one that stood there.
fn read_over(
    alloc: Global,
    line: &[u8],
    byte: u8,
    columns: &[Column],
    row: &mut Tuple,
) -> Result<(), AllocError>
    requires { length row.now ≡ length columns.now }
    ensures { OnOk result (row_tree row.new ≡ row_of columns.now byte line.now) }
{
    let mut piece = piece_from(line, byte, 0, 0);
    for at in 0..columns.len() {
        let column = &columns[at];
        piece = piece_towards(line, byte, piece, column.position);
        let bytes = bytes_at(line, byte, piece, column.position);
        let old = row.replace(at, Value::Null);
        let value = field_over(alloc, bytes, &column.kind, old)?;
        drop(row.replace(at, value));
    }
    Ok(())
}

// The values of the columns, in one pass over the line where their positions ascend.
fn read_columns(
    alloc: Global,
    line: &[u8],
    byte: u8,
    columns: &[Column],
) -> Result<Vec<Value>, AllocError>
    ensures { IfOk result (λ row. row_tree row.items ≡ row_of columns.now byte line.now) }
{
    let mut row = Vec::with_capacity(alloc, columns.len())?;
    let mut piece = piece_from(line, byte, 0, 0);
    for column in columns {
        piece = piece_towards(line, byte, piece, column.position);
        let bytes = bytes_at(line, byte, piece, column.position);
        row.push(field_or_null(alloc, bytes, &column.kind)?)?;
    }
    Ok(row)
}

// A piece of a line: its position among the pieces, from 0, and where it stands.
#[derive(Clone, Copy)]
struct Piece {
    position: u32,
    from: usize,
    to: usize,
}

// The piece at a position, or the last piece before it where the line has no such piece. Goes on from a
// piece that is known, and begins anew only where that stands behind the position.
fn piece_towards(line: &[u8], byte: u8, known: Piece, position: u32) -> Piece
    requires { IsPiece byte line.now known }
    ensures piece { IsPiece byte line.now result }
    ensures ordered { result.position ≤ position }
    ensures last { result.position < position → result.to ≡ length line.now }
{
    if position < known.position {
        piece_onwards(line, byte, piece_from(line, byte, 0, 0), position)
    } else {
        piece_onwards(line, byte, known, position)
    }
}

// The same, going on from a piece that does not stand behind the position.
fn piece_onwards(line: &[u8], byte: u8, known: Piece, position: u32) -> Piece
    requires known { IsPiece byte line.now known }
    requires ahead { known.position ≤ position }
    ensures piece { IsPiece byte line.now result }
    ensures ordered { result.position ≤ position }
    ensures last { result.position < position → result.to ≡ length line.now }
{
    let mut piece = known;
    for next in known.position..position {
        if piece.to == line.len() {
            return piece;
        }
        piece = piece_from(line, byte, piece.to + 1, next + 1);
    }
    piece
}

// The piece that starts at a place.
fn piece_from(line: &[u8], byte: u8, from: usize, position: u32) -> Piece
    requires within { from ≤ length line.now }
    requires starts { drop position (pieces byte line.now) ≡ pieces byte (drop from line.now) }
    ensures piece { IsPiece byte line.now result }
    ensures position { result.position ≡ position }
{
    let to = from + place_of(byte, &line[from..]);
    Piece { position, from, to }
}

// The bytes of the piece at a position, by the piece that is nearest to it.
fn bytes_at(line: &[u8], byte: u8, piece: Piece, position: u32) -> Option<&[u8]>
    requires piece { IsPiece byte line.now piece }
    requires ordered { piece.position ≤ position }
    requires last { piece.position < position → piece.to ≡ length line.now }
    ensures { option_copied result ≡ slice_get (pieces byte line.now) position }
{
    if piece.position < position {
        return None;
    }
    Some(&line[piece.from..piece.to])
}

// The value of a field, or null where the line has no such field.
fn field_or_null(alloc: Global, bytes: Option<&[u8]>, kind: &Kind) -> Result<Value, AllocError>
    ensures { IfOk result (λ v. tree v ≡ option_map_or (field_value (kind_tree kind.now))
        (option_copied bytes.entry) v_null) }
{
    match bytes {
        Some(bytes) => {
            let value = read_field(alloc, bytes, kind)?;
            Ok(value)
        }
        None => Ok(Value::Null),
    }
}

// The same, in the place of another value.
fn field_over(
    alloc: Global,
    bytes: Option<&[u8]>,
    kind: &Kind,
    old: Value,
) -> Result<Value, AllocError>
    ensures { IfOk result (λ v. tree v ≡ option_map_or (field_value (kind_tree kind.now))
        (option_copied bytes.entry) v_null) }
{
    let Some(bytes) = bytes else {
        return Ok(Value::Null);
    };
    let value = read_field_over(alloc, bytes, kind, old)?;
    Ok(value)
}
