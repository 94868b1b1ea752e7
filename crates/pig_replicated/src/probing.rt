ghost use Rattle.std.specs.Prelude.{◌≡◌, [], ◌∷◌, ◌++◌, length, map, IfOk, IsSome, OnOk};
ghost use Rattle.std.specs.List.{list_any};
ghost use Rattle.pig_value.specs.Trees.{row_tree, rows_tree, tree};
ghost use Rattle.pig_plan.specs.ByKey.{is_empty, nulls};
ghost use Rattle.pig_replicated.specs.Holding.{matches_in};
ghost use Rattle.pig_replicated.specs.Joining.{partners, probe_rows};

use crate::lookup::{Lookup, Lookups};
use pig_value::{Rows, Seq, Tuple, Value, copy, copy_row};
use std::alloc::{AllocError, Global};

/// The joinings of a row with one match of each side, in the order of the sides' rows, the first side slowest.
///
/// Where there is none and `fill` is so many fields, the row followed by that many nulls, as a LEFT JOIN has it.
pub fn probe(
    alloc: Global,
    row: &Tuple,
    key: &Value,
    sides: &Lookups,
    fill: Option<u32>,
) -> Result<Rows, AllocError>
    requires one_side { IsSome fill → length sides.now ≡ 1 }
    ensures { IfOk result (λ rows. rows_tree rows
        ≡ probe_rows sides.now fill (tree key.now) (row_tree row.now)) }
{
    let joined = partners_of(alloc, row, key, sides.as_slice())?;
    match fill {
        Some(width) if joined.is_empty() => alone(alloc, row, width),
        _ => Ok(joined),
    }
}

// The row with so many nulls behind it.
fn alone(alloc: Global, row: &Tuple, width: u32) -> Result<Rows, AllocError>
    ensures { IfOk result (λ rows. rows_tree rows ≡ (row_tree row.now ++ nulls width) ∷ []) }
{
    let mut made = copy_row(alloc, row)?;
    add_nulls(&mut made, width)?;
    let mut rows = Rows::new(alloc);
    rows.push(made)?;
    Ok(rows)
}

fn add_nulls(row: &mut Tuple, count: u32) -> Result<(), AllocError>
    ensures { OnOk result (row_tree row.new ≡ row_tree row.old ++ nulls count) }
{
    for _i in 0..count {
        row.push(Value::Null)?;
    }
    Ok(())
}

// The joinings of a row with one match of each side.
fn partners_of(
    alloc: Global,
    row: &Tuple,
    key: &Value,
    sides: &[Lookup],
) -> Result<Rows, AllocError>
    ensures { IfOk result (λ rows. rows_tree rows
        ≡ partners sides.now (tree key.now) (row_tree row.now)) }
{
    let mut rows = Rows::new(alloc);
    if one_lacks(key, sides) {
        return Ok(rows);
    }
    add_joined(alloc, copy_row(alloc, row)?, key, sides, &mut rows)?;
    Ok(rows)
}

// Whether a side has no match, so that nothing is joined.
fn one_lacks(key: &Value, sides: &[Lookup]) -> bool
    ensures { result ≡ list_any (λ s. is_empty (matches_in s (tree key.now))) sides.now }
{
    sides.iter().any(|side| lacks(key, side))
}

fn lacks(key: &Value, side: &Lookup) -> bool
    ensures { result ≡ is_empty (matches_in side.now (tree key.now)) }
{
    side.matches(key).is_empty()
}

// Adds the joinings of these fields with one match of each side, the first side slowest.
fn add_joined(
    alloc: Global,
    front: Tuple,
    key: &Value,
    sides: &[Lookup],
    rows: &mut Rows,
) -> Result<(), AllocError>
    ensures { OnOk result (rows_tree rows.new
        ≡ rows_tree rows.old ++ partners sides.now (tree key.now) (row_tree front)) }
{
    let Some((side, rest)) = sides.split_first() else {
        return rows.push(front);
    };
    for row in side.matches(key).as_slice() {
        add_joined(alloc, behind(alloc, &front, row)?, key, rest, rows)?;
    }
    Ok(())
}

// The fields of two rows, copied.
fn behind(alloc: Global, front: &Tuple, row: &Tuple) -> Result<Tuple, AllocError>
    ensures { IfOk result (λ made. made ≡ front.now ++ row.now) }
{
    let mut made = Seq::with_capacity(alloc, front.len().saturating_add(row.len()))?;
    for value in front.as_slice() {
        made.push(copy(alloc, value)?)?;
    }
    for more in row.as_slice() {
        made.push(copy(alloc, more)?)?;
    }
    Ok(made)
}
