ghost use Rattle.std.specs.Prelude.{◌≡◌, ◌≤◌, ◌++◌, ◌==◌, ◌&&◌, not, [], length, IfOk, OnOk, if◌then◌else◌};
ghost use Rattle.pig_value.specs.Trees.{row_tree, rows_tree, tree};
ghost use Rattle.pig_plan.specs.ByKey.{all_there, bags_of, cogroup_of, kept_where};
ghost use Rattle.pig_operators.specs.Groups.{apart_rows, lone_rows, no_other, rows_alone, perhaps};
ghost use Rattle.pig_operators.specs.Lent.{bags_in, rows_in};

use crate::groups::{input_end, rows_of};
use crate::nulls::has_null;
use crate::places::{Group, Stretch};
use pig_value::{Rows, Seq, Tuple, Value, copy};
use std::alloc::{AllocError, Global};

// Adds the rows of COGROUP of a group: a key that holds a null groups apart for each input.
pub fn add_cogrouped(
    alloc: Global,
    key: Value,
    group: &Group<'_>,
    inner: &[bool],
    rows: &mut Rows,
) -> Result<(), AllocError>
    ensures { OnOk result (rows_tree rows.new
        ≡ rows_tree rows.old
        ++ cogroup_of inner.now (length inner.now) (tree key) (bags_in group.now)) }
{
    if has_null(&key) {
        return add_apart(alloc, &key, group, inner, rows);
    }
    match together(alloc, key, group, inner)? {
        Some(row) => rows.push(row),
        None => Ok(()),
    }
}

// The key and the bag of each input, where none of an INNER input is empty.
fn together(
    alloc: Global,
    key: Value,
    group: &Group<'_>,
    inner: &[bool],
) -> Result<Option<Tuple>, AllocError>
    ensures { IfOk result (λ row. perhaps row
        ≡ kept_where (all_there inner.now 0 (bags_in group.now))
        (bags_of (length inner.now) (tree key) (bags_in group.now))) }
{
    let run = group.run;
    let mut row = Seq::with_capacity(alloc, inner.len().saturating_add(1))?;
    row.push(key)?;
    let mut at = group.from;
    for input in 0..inner.len() {
        let end = input_end(run, at, group.end, input);
        if is_missing(inner[input], at, end) {
            return Ok(None);
        }
        let own = Stretch { run, from: at, end };
        row.push(Value::Bag(rows_of(alloc, &own)?))?;
        at = end;
    }
    Ok(Some(row))
}

/// Whether an INNER input has no row, whose rows would stand from a place up to another.
pub fn is_missing(inner: bool, from: usize, end: usize) -> bool
    ensures { result ≡ (inner && (from == end)) }
{
    inner && from == end
}

// Adds a row for each input that has rows, with empty bags for the others.
fn add_apart(
    alloc: Global,
    key: &Value,
    group: &Group<'_>,
    inner: &[bool],
    rows: &mut Rows,
) -> Result<(), AllocError>
    ensures { OnOk result (rows_tree rows.new
        ≡ rows_tree rows.old
        ++ apart_rows inner.now (tree key.now) (bags_in group.now) (length inner.now)) }
{
    let run = group.run;
    let mut at = group.from;
    for input in 0..inner.len() {
        let end = input_end(run, at, group.end, input);
        let own = Stretch { run, from: at, end };
        add_lone(alloc, key, &own, input, inner, rows)?;
        at = end;
    }
    Ok(())
}

// Adds the row of one input alone, where it has rows and no other input is INNER.
fn add_lone(
    alloc: Global,
    key: &Value,
    own: &Stretch<'_>,
    input: usize,
    inner: &[bool],
    rows: &mut Rows,
) -> Result<(), AllocError>
    ensures { OnOk result (rows_tree rows.new
        ≡ rows_tree rows.old ++ lone_rows inner.now (tree key.now) input (rows_in own.now)) }
{
    if has_own_row(inner, input, own.from, own.end) {
        return rows.push(lone_row(alloc, key, own, input, inner.len())?);
    }
    Ok(())
}

/// Whether an input has rows, from a place up to another, and no other one is INNER.
pub fn has_own_row(inner: &[bool], input: usize, from: usize, end: usize) -> bool
    ensures { result ≡ (not (from == end) && no_other inner.now 0 input) }
{
    from != end && stands_alone(inner, input)
}

// Whether no input but this one is INNER.
fn stands_alone(inner: &[bool], input: usize) -> bool
    ensures { result ≡ no_other inner.now 0 input }
{
    for i in 0..inner.len() {
        if inner[i] && i != input {
            return false;
        }
    }
    true
}

// The key, the bag of an input, and empty bags for the others.
fn lone_row(
    alloc: Global,
    key: &Value,
    own: &Stretch<'_>,
    input: usize,
    inputs: usize,
) -> Result<Tuple, AllocError>
    ensures { IfOk result (λ row. row_tree row
        ≡ bags_of inputs (tree key.now) (rows_alone input (rows_in own.now))) }
{
    let mut row = Seq::with_capacity(alloc, inputs.saturating_add(1))?;
    row.push(copy(alloc, key)?)?;
    for i in 0..inputs {
        row.push(Value::Bag(rows_where(alloc, i == input, own)?))?;
    }
    Ok(row)
}

// The rows of these entries, or none.
fn rows_where(alloc: Global, here: bool, own: &Stretch<'_>) -> Result<Rows, AllocError>
    ensures { IfOk result (λ rows. rows_tree rows ≡ (if here then rows_in own.now else [])) }
{
    if !here {
        return Ok(Rows::new(alloc));
    }
    rows_of(alloc, own)
}
