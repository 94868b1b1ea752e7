ghost use Rattle.std.specs.Prelude.{◌≡◌, ◌∷◌, [], map, OnOk};
ghost use Rattle.pig_value.specs.Trees.{row_tree, rows_tree};
ghost use Rattle.pig_value.specs.Valid.{AreRows, IsRow};
ghost use Rattle.pig_plan.specs.Entries.{dirs_of, sort_entry};
ghost use Rattle.pig_runs.specs.Entries.{and_entries};
ghost use Rattle.pig_plain.specs.Coming.{coming, seen_rows};
ghost use Rattle.pig_plain.specs.Entered.{IsReady, entry_under};
ghost use Rattle.pig_plain.specs.Tables.{IsLeft, rows_of};

use crate::ranking::key_values;
use crate::relation::Seen;
use crate::table::Table;
use crate::walking::Walk;
use pig_operators::{add_all_rows, add_rows};
use pig_runs::RunBuilder;
use pig_typed::{SortKeys, TExpr};
use pig_value::{Tuple, Value};
use std::alloc::{AllocError, Global};

// Under which keys rows enter a run.
#[derive(Drop)]
pub enum Entering<'k> {
    /// All under one.
    Together,
    /// Those of an operator by key, of the input of this number.
    Keyed(&'k [TExpr], u32),
    /// Their fields to sort by, in the directions of these.
    Sorting(&'k SortKeys),
}

// Adds the rows of a node to a run, which are taken where this is their last use.
pub fn enter(
    alloc: Global,
    how: &Entering,
    table: &mut Table,
    node: u32,
    last: bool,
    builder: &mut RunBuilder,
) -> Result<(), AllocError>
    requires { IsReady how.now builder.old.dirs }
    ensures entries { OnOk result (builder.new
        ≡ and_entries (map (entry_under how.now) (rows_of table.old node)) builder.old) }
    ensures left { OnOk result (IsLeft last node table.old table.new) }
{
    table.are_values();
    let taken = table.take_coming(alloc, node, last)?;
    let seen = table.seen_at(node, taken);
    add_seen(alloc, how, seen, builder)
}

fn add_seen(
    alloc: Global,
    how: &Entering,
    seen: Seen,
    builder: &mut RunBuilder,
) -> Result<(), AllocError>
    requires ready { IsReady how.now builder.old.dirs }
    requires rows { AreRows (seen_rows seen) }
    ensures { OnOk result (builder.new
        ≡ and_entries (map (entry_under how.now) (seen_rows seen.entry)) builder.old) }
{
    match seen {
        Seen::Whole(rows) => add_each(alloc, how, rows, builder),
        Seen::Walked(mut walk) => {
            let added = add_coming(alloc, how, &mut walk, builder);
            drop(walk);
            added
        }
    }
}

// Rows that come go batch by batch into the run, and are let go.
fn add_coming(
    alloc: Global,
    how: &Entering,
    walk: &mut Walk,
    builder: &mut RunBuilder,
) -> Result<(), AllocError>
    requires ready { IsReady how.now builder.old.dirs }
    requires rows { AreRows (coming walk.old) }
    ensures { OnOk result (builder.new
        ≡ and_entries (map (entry_under how.now) (coming walk.old)) builder.old) }
{
    'batches: loop {
        let rows = walk.next_batch(alloc)?;
        if rows.is_empty() {
            return Ok(());
        }
        add_each(alloc, how, rows.as_slice(), builder)?;
    }
}

fn add_each(
    alloc: Global,
    how: &Entering,
    rows: &[Tuple],
    builder: &mut RunBuilder,
) -> Result<(), AllocError>
    requires ready { IsReady how.now builder.old.dirs }
    requires rows { AreRows (rows_tree rows.now) }
    ensures { OnOk result (builder.new
        ≡ and_entries (map (entry_under how.now) (rows_tree rows.now)) builder.old) }
{
    match how {
        Entering::Together => add_all_rows(alloc, rows, builder),
        Entering::Keyed(keys, number) => add_rows(alloc, keys, *number, rows, builder),
        Entering::Sorting(keys) => add_sorting(alloc, keys, rows, builder),
    }
}

fn add_sorting(
    alloc: Global,
    keys: &SortKeys,
    rows: &[Tuple],
    builder: &mut RunBuilder,
) -> Result<(), AllocError>
    requires dirs { builder.old.dirs ≡ dirs_of keys.now }
    requires rows { AreRows (rows_tree rows.now) }
    ensures { OnOk result (builder.new
        ≡ and_entries (map (sort_entry keys.now) (rows_tree rows.now)) builder.old) }
{
    let mut left = rows;
    'rows: while let [row, rest @ ..] = left {
        add_sorting_row(alloc, keys, row, builder)?;
        left = rest;
    }
    Ok(())
}

fn add_sorting_row(
    alloc: Global,
    keys: &SortKeys,
    row: &Tuple,
    builder: &mut RunBuilder,
) -> Result<(), AllocError>
    requires dirs { builder.old.dirs ≡ dirs_of keys.now }
    requires row { IsRow (row_tree row.now) }
    ensures { OnOk result (builder.new
        ≡ and_entries (sort_entry keys.now (row_tree row.now) ∷ []) builder.old) }
{
    let key = Value::Tuple(key_values(alloc, keys, row)?);
    builder.add(&key, 0, row)
}
