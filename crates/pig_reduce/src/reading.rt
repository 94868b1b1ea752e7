//! Keys and rows of entries that are lent, as values.
ghost use Rattle.std.specs.Prelude.{◌≡◌, ◌<◌, ◌≤◌, [], List, length, option_map, slice_get, Some, IfOk};
ghost use Rattle.pig_value.specs.Trees.{Tree, row_tree, rows_tree, tree};
ghost use Rattle.pig_value.specs.Valid.{AreRows, IsRow, IsValue};
ghost use Rattle.pig_keycode.specs.Codable.{IsCodeOf, IsCodeOfRow};
ghost use Rattle.pig_operators.specs.Groups.{first_key, rows_at};

use pig_keycode::{decode, decode_row};
use pig_runs::Merged;
use pig_value::{Rows, Tuple, Value};
use std::alloc::{AllocError, Global};

// The key of an entry.
pub(crate) fn key_of(alloc: Global, entries: &Merged, at: usize) -> Result<Value, AllocError>
    requires within { at < length entries.now.entries }
    requires ascending { entries.now.dirs ≡ [] }
    ensures is { IfOk result (λ key. tree key ≡ first_key entries.now at) }
    ensures value { IfOk result (λ key. IsValue (tree key)) }
{
    read_key(alloc, entries.lend(at).key)
}

// The value of a code.
fn read_key(alloc: Global, code: &[u8]) -> Result<Value, AllocError>
    ensures is { (key : Tree) → IsCodeOf code.now key
        → IfOk result (λ found. tree found ≡ key) }
    ensures value { IfOk result (λ found. IsValue (tree found)) }
{
    match decode(alloc, code) {
        Ok(Some(key)) => Ok(key),
        Ok(None) => Ok(Value::Null),
        Err(fault) => Err(fault),
    }
}

// The rows of the entries from a place up to another.
pub(crate) fn rows_of(
    alloc: Global,
    entries: &Merged,
    from: usize,
    end: usize,
) -> Result<Rows, AllocError>
    requires order { from ≤ end }
    requires within { end ≤ length entries.now.entries }
    ensures is { IfOk result (λ rows. rows_tree rows ≡ rows_at entries.now from end) }
    ensures values { IfOk result (λ rows. AreRows (rows_tree rows)) }
{
    let mut rows = Rows::with_capacity(alloc, end - from)?;
    for at in from..end {
        rows.push(row_of(alloc, entries, at)?)?;
    }
    Ok(rows)
}

// The row of an entry.
fn row_of(alloc: Global, entries: &Merged, at: usize) -> Result<Tuple, AllocError>
    requires { at < length entries.now.entries }
    ensures is { IfOk result (λ row. option_map (λ e. e.row) (slice_get entries.now.entries at)
        ≡ Some (row_tree row)) }
    ensures values { IfOk result (λ row. IsRow (row_tree row)) }
{
    read_row(alloc, entries.lend(at).row)
}

// The row of a code.
pub(crate) fn read_row(alloc: Global, code: &[u8]) -> Result<Tuple, AllocError>
    ensures is { (row : List Tree) → IsCodeOfRow code.now row
        → IfOk result (λ found. row_tree found ≡ row) }
    ensures values { IfOk result (λ found. IsRow (row_tree found)) }
{
    match decode_row(alloc, code) {
        Ok(Some(row)) => Ok(row),
        Ok(None) => Ok(Tuple::new(alloc)),
        Err(fault) => Err(fault),
    }
}
