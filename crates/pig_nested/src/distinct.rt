ghost use Rattle.std.specs.Prelude.{◌≡◌, ◌<◌, ◌≤◌, ◌+◌, ◌++◌, [], ◌∷◌, drop, length, map, take, IfOk, OnOk};
ghost use Rattle.pig_value.specs.Orders.{bag_of, row_cmp};
ghost use Rattle.pig_value.specs.Sorts.{distinct};
ghost use Rattle.pig_value.specs.Trees.{row_tree, rows_tree};
ghost use Rattle.pig_nested.specs.Apart.{apart, repeats};

use pig_value::{Rows, Seq, Tuple, bag, copy_row, order_rows};
use std::alloc::{AllocError, Global};
use std::cmp::Ordering;

/// Each row once, sorted.
///
/// The rows are sorted and moved in place.
pub fn distinct_rows(rows: Rows) -> Rows
    ensures { rows_tree result ≡ distinct row_cmp (rows_tree rows) }
{
    let sorted = bag(rows);
    let kept = last_of_each(sorted.into_vec());
    Seq::from_vec(kept)
}

// The rows but for those that are the same as the next.
fn last_of_each(rows: Vec<Tuple>) -> Vec<Tuple>
    ensures { rows_tree result.items ≡ apart row_cmp (rows_tree rows.items) }
{
    let mut rows = rows;
    let mut kept = 0;
    let mut next = 0;
    while next < rows.len() {
        kept = keep(&mut rows, kept, next);
        next += 1;
    }
    rows.truncate(kept);
    rows
}

// Moves a row behind those that are kept, if it isn't the same as the next.
fn keep(rows: &mut Vec<Tuple>, kept: usize, next: usize) -> usize
    requires before { kept ≤ next }
    requires within { next < length rows.old.items }
    ensures same { rows_tree (take result rows.new.items)
        ++ apart row_cmp (rows_tree (drop (next + 1) rows.new.items))
        ≡ rows_tree (take kept rows.old.items)
        ++ apart row_cmp (rows_tree (drop next rows.old.items)) }
    ensures before { result ≤ next + 1 }
    ensures length { length rows.new.items ≡ length rows.old.items }
{
    if is_same_as_next(&rows[next..]) {
        return kept;
    }
    rows.swap(kept, next);
    kept + 1
}

fn is_same_as_next(rows: &[Tuple]) -> bool
    ensures { result ≡ repeats row_cmp (rows_tree rows.now) }
{
    match rows {
        [row, next, ..] => order_rows(row, next) == Ordering::Equal,
        _ => false,
    }
}

// A copy of each row once, sorted. Only the rows that are kept are copied.
pub fn copied_once(alloc: Global, rows: &Rows) -> Result<Rows, AllocError>
    ensures { IfOk result (λ made. rows_tree made ≡ distinct row_cmp (rows_tree rows.now)) }
{
    let sorted = sorted_refs(refs(alloc, rows.as_slice())?);
    copied_last(alloc, sorted.as_slice())
}

fn refs<'a>(alloc: Global, rows: &'a [Tuple]) -> Result<Vec<&'a Tuple>, AllocError>
    ensures { IfOk result (λ made. map (λ row. row.now) made.items ≡ rows.now) }
{
    let mut made = Vec::with_capacity(alloc, rows.len())?;
    for row in rows {
        made.push(row)?;
    }
    Ok(made)
}

fn sorted_refs<'a>(rows: Vec<&'a Tuple>) -> Vec<&'a Tuple>
    ensures { map (λ row. row_tree row.now) result.items
        ≡ bag_of (map (λ row. row_tree row.now) rows.entry.items) }
{
    let mut rows = rows;
    rows.sort_unstable_by(|a, b| order_rows(*a, *b));
    rows
}

// Copies of the rows but for those that are the same as the next.
fn copied_last(alloc: Global, rows: &[&Tuple]) -> Result<Rows, AllocError>
    ensures { IfOk result (λ made. rows_tree made
        ≡ apart row_cmp (map (λ row. row_tree row.now) rows.now)) }
{
    let mut made = Seq::new(alloc);
    let mut left = rows;
    while let [first, rest @ ..] = left {
        keep_copy(alloc, &mut made, *first, rest)?;
        left = rest;
    }
    Ok(made)
}

fn keep_copy(
    alloc: Global,
    made: &mut Rows,
    first: &Tuple,
    rest: &[&Tuple],
) -> Result<(), AllocError>
    ensures { OnOk result (rows_tree made.new
        ++ apart row_cmp (map (λ row. row_tree row.now) rest.now)
        ≡ rows_tree made.old
        ++ apart row_cmp (row_tree first.now ∷ map (λ row. row_tree row.now) rest.now)) }
{
    if is_first(first, rest) {
        return Ok(());
    }
    made.push(copy_row(alloc, first)?)
}

// Whether a row is the same as the first of others.
fn is_first(row: &Tuple, others: &[&Tuple]) -> bool
    ensures { result
        ≡ repeats row_cmp (row_tree row.now ∷ map (λ other. row_tree other.now) others.now) }
{
    match others {
        [next, ..] => order_rows(row, *next) == Ordering::Equal,
        [] => false,
    }
}
