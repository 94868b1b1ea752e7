ghost use Rattle.std.specs.Prelude.{◌≡◌, ◌≤◌, drop, length, map, take, IfOk};
ghost use Rattle.std.specs.List.{prefix_len};
ghost use Rattle.std.specs.Ordering.{is_eq};
ghost use Rattle.pig_value.specs.Orders.{tree_cmp};
ghost use Rattle.pig_value.specs.Sorts.{Ascends, sort};
ghost use Rattle.pig_value.specs.Trees.{rows_tree, tree};
ghost use Rattle.pig_typed.specs.Typed.{typed};
ghost use Rattle.pig_replicated.specs.Grouped.{AreGrouped, held_in};
ghost use Rattle.pig_replicated.specs.Held.{keyed_of};
ghost use Rattle.pig_replicated.specs.Holding.{keyed_cmp, keyed_row, lookup_of};

use crate::groups::Group;
use crate::keys::key_value;
use pig_typed::TExpr;
use pig_value::{Rows, Tuple, Value, copy, copy_row, order, order_rows};
use std::alloc::{AllocError, Global};
use std::cmp::Ordering;

// A row of the input where it stands, with its key.
#[derive(Drop)]
pub struct Held<'r> {
    pub key: Value,
    pub row: &'r Tuple,
}

// The groups of rows, one for each key, in ascending order of the keys.
pub fn grouped(alloc: Global, keys: &[TExpr], rows: &[Tuple]) -> Result<Vec<Group>, AllocError>
    ensures rows { IfOk result (λ groups. held_in groups.items
        ≡ lookup_of (map typed keys.now) (rows_tree rows.now)) }
    ensures order { IfOk result (λ groups. AreGrouped groups.items) }
{
    let held = sorted(held_rows(alloc, keys, rows)?);
    groups_of(alloc, &held)
}

// The rows with their keys, in their order.
fn held_rows<'r>(
    alloc: Global,
    keys: &[TExpr],
    rows: &'r [Tuple],
) -> Result<Vec<Held<'r>>, AllocError>
    ensures { IfOk result (λ held. map keyed_of held.items
        ≡ map (keyed_row (map typed keys.now)) (rows_tree rows.now)) }
{
    let mut held = Vec::with_capacity(alloc, rows.len())?;
    for row in rows {
        let key = key_value(alloc, keys, row)?;
        held.push(Held { key, row })?;
    }
    Ok(held)
}

fn sorted<'r>(held: Vec<Held<'r>>) -> Vec<Held<'r>>
    ensures { map keyed_of result.items ≡ sort keyed_cmp (map keyed_of held.entry.items) }
{
    let mut held = held;
    held.sort_unstable_by(|a, b| held_order(a, b));
    held
}

fn held_order(a: &Held, b: &Held) -> Ordering
    ensures { result ≡ keyed_cmp (keyed_of a.now) (keyed_of b.now) }
{
    match order(&a.key, &b.key) {
        Ordering::Equal => order_rows(a.row, b.row),
        found => found,
    }
}

// The groups of sorted rows.
fn groups_of(alloc: Global, held: &[Held]) -> Result<Vec<Group>, AllocError>
    requires sorted { Ascends keyed_cmp (map keyed_of held.now) }
    ensures rows { IfOk result (λ groups. held_in groups.items ≡ map keyed_of held.now) }
    ensures order { IfOk result (λ groups. AreGrouped groups.items) }
{
    let mut groups = Vec::new(alloc);
    let mut left = held;
    'groups: while let [first, ..] = left {
        let count = run_len(&first.key, left);
        groups.push(group_of(alloc, &first.key, front(left, count))?)?;
        left = rest(left, count);
    }
    Ok(groups)
}

// How many rows from the front on have the key.
fn run_len(key: &Value, held: &[Held]) -> usize
    ensures count { result
        ≡ prefix_len (λ h. is_eq (tree_cmp (tree h.key) (tree key.now))) held.now }
    ensures within { result ≤ length held.now }
{
    held.iter()
        .take_while(|h| order(&h.key, key).is_eq())
        .count()
}

// The first so many rows, and those behind them.
fn front<'h, 'r>(held: &'h [Held<'r>], count: usize) -> &'h [Held<'r>]
    requires { count ≤ length held.now }
    ensures { result.now ≡ take count held.now }
{
    &held[..count]
}

fn rest<'h, 'r>(held: &'h [Held<'r>], count: usize) -> &'h [Held<'r>]
    requires { count ≤ length held.now }
    ensures { result.now ≡ drop count held.now }
{
    &held[count..]
}

// The group of a key with these rows, copied.
fn group_of(alloc: Global, key: &Value, held: &[Held]) -> Result<Group, AllocError>
    ensures key { IfOk result (λ group. group.key ≡ key.now) }
    ensures rows { IfOk result (λ group. group.rows ≡ map (λ h. h.row.now) held.now) }
{
    let rows = copied(alloc, held)?;
    let key = copy(alloc, key)?;
    Ok(Group { key, rows })
}

fn copied(alloc: Global, held: &[Held]) -> Result<Rows, AllocError>
    ensures { IfOk result (λ rows. rows ≡ map (λ h. h.row.now) held.now) }
{
    let mut rows = Rows::with_capacity(alloc, held.len())?;
    for one in held {
        rows.push(copy_row(alloc, one.row)?)?;
    }
    Ok(rows)
}
