ghost use Rattle.std.specs.Prelude.{◌≡◌, ◌++◌, [], ◌∷◌, List, length, map, IfOk, OnOk, OnErr};
ghost use Rattle.std.specs.List.{AllByRecursion, flat_map};
ghost use Rattle.pig_value.specs.Trees.{Tree, row_tree, tree};
ghost use Rattle.pig_value.specs.Valid.{IsRow, IsValue};
ghost use Rattle.pig_algebra.specs.Cuts.{cut_typed};
ghost use Rattle.pig_combine.specs.Holdings.{IsHeldGroup, entry_of, entry_told, group_told};
ghost use Rattle.pig_combine.specs.Tallies.{IsHeld, found_by, part_told, told};

use crate::tally::{Group, Tallies, Tally};
use pig_algebra::Cut;
use pig_value::{Seq, Tuple, Value, copy};
use std::alloc::{AllocError, Global};

// The group of a key with one row.
pub fn group_with(
    alloc: Global,
    cuts: &[Cut],
    key: &Value,
    row: &Tuple,
) -> Result<Group, AllocError>
    ensures key { IfOk result (λ g. tree g.key ≡ tree key.now) }
    ensures told { IfOk result (λ g. map told g.tallies.items
        ≡ map (found_by (row_tree row.now ∷ [])) (map cut_typed cuts.now)) }
    ensures held { IsRow (row_tree row.now)
        → IfOk result (λ g. AllByRecursion IsHeld g.tallies.items) }
{
    let key = copy(alloc, key)?;
    let mut tallies = start_all(alloc, cuts)?;
    add_row(alloc, cuts, tallies.as_mut_slice(), row)?;
    Ok(Group { key, tallies })
}

fn start_all(alloc: Global, cuts: &[Cut]) -> Result<Tallies, AllocError>
    ensures told { IfOk result (λ ts. map told ts.items
        ≡ map (found_by []) (map cut_typed cuts.now)) }
    ensures held { IfOk result (λ ts. AllByRecursion IsHeld ts.items) }
{
    let mut tallies = Tallies::new(alloc);
    for cut in cuts {
        tallies.push(Tally::start(cut))?;
    }
    Ok(tallies)
}

// Adds a row to the tallies of a key. Each change is made once those behind it can be, so that where memory is wanting
// no tally has changed.
pub fn add_row(
    alloc: Global,
    cuts: &[Cut],
    tallies: &mut [Tally],
    row: &Tuple,
) -> Result<(), AllocError>
    ensures told { (rows : List (List Tree))
        → map told tallies.old ≡ map (found_by rows) (map cut_typed cuts.now)
        → OnOk result (map told tallies.new
        ≡ map (found_by (rows ++ row_tree row.now ∷ [])) (map cut_typed cuts.now)) }
    ensures held { IsRow (row_tree row.now) → AllByRecursion IsHeld tallies.old
        → OnOk result (AllByRecursion IsHeld tallies.new) }
    ensures err { OnErr result (tallies.new ≡ tallies.old) }
    ensures length { length tallies.new ≡ length tallies.old }
{
    let Some((cut, more)) = cuts.split_first() else {
        return Ok(());
    };
    let Some((tally, rest)) = tallies.split_first_mut() else {
        return Ok(());
    };
    let change = tally.next(alloc, cut, row)?;
    add_row(alloc, more, rest, row)?;
    tally.settle(change);
    Ok(())
}

// Adds a row to a group.
pub fn add_to(alloc: Global, cuts: &[Cut], group: &mut Group, row: &Tuple) -> Result<(), AllocError>
    ensures key { group.new.key ≡ group.old.key }
    ensures told { (rows : List (List Tree))
        → map told group.old.tallies.items ≡ map (found_by rows) (map cut_typed cuts.now)
        → OnOk result (map told group.new.tallies.items
        ≡ map (found_by (rows ++ row_tree row.now ∷ [])) (map cut_typed cuts.now)) }
    ensures held { IsRow (row_tree row.now) → AllByRecursion IsHeld group.old.tallies.items
        → AllByRecursion IsHeld group.new.tallies.items }
    ensures err { OnErr result (group.new.tallies.items ≡ group.old.tallies.items) }
{
    add_row(alloc, cuts, group.tallies.as_mut_slice(), row)
}

// The row of a group's parts.
pub fn parts_of(alloc: Global, group: &Group) -> Result<Tuple, AllocError>
    ensures entry { IfOk result (λ row. entry_of (tree group.now.key) (row_tree row)
        ≡ entry_told (group_told group.now)) }
    ensures row { IsHeldGroup group.now → IfOk result (λ row. IsRow (row_tree row)) }
{
    let tallies = group.tallies.as_slice();
    let mut row = Seq::with_capacity(alloc, tallies.len())?;
    push_parts(alloc, &group.key, tallies, &mut row)?;
    Ok(row)
}

// Adds the parts of tallies to a row.
fn push_parts(
    alloc: Global,
    key: &Value,
    tallies: &[Tally],
    row: &mut Tuple,
) -> Result<(), AllocError>
    ensures parts { OnOk result (row_tree row.new
        ≡ row_tree row.old ++ flat_map (part_told (tree key.now)) (map told tallies.now)) }
    ensures values { IsValue (tree key.now) → AllByRecursion IsHeld tallies.now
        → IsRow (row_tree row.old) → OnOk result (IsRow (row_tree row.new)) }
{
    let Some((tally, more)) = tallies.split_first() else {
        return Ok(());
    };
    tally.push_part(alloc, key, row)?;
    push_parts(alloc, key, more, row)
}
