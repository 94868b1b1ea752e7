ghost use Rattle.std.specs.Prelude.{◌≡◌, [], ◌∷◌, map, IfOk, OnOk};
ghost use Rattle.pig_value.specs.Orders.{row_cmp};
ghost use Rattle.pig_value.specs.Sorts.{distinct};
ghost use Rattle.pig_value.specs.Trees.{row_tree, rows_tree};
ghost use Rattle.pig_value.specs.Valid.{AreRows, IsRow};
ghost use Rattle.pig_plan.specs.Operators.{order_rows};
ghost use Rattle.pig_runs.specs.Entries.{and_entries, no_entries_in};
ghost use Rattle.pig_plan.specs.Entries.{dirs_of};
ghost use Rattle.pig_operators.specs.Keying.{row_entry};
ghost use Rattle.pig_plain.specs.Coming.{coming, relation_rows};
ghost use Rattle.pig_plain.specs.Tables.{HasFound, rows_of};

use crate::entering::{Entering, enter};
use crate::relation::Relation;
use crate::table::Table;
use crate::walking::Walk;
use pig_operators::{Orderer, distinct_keys};
use pig_runs::RunBuilder;
use pig_typed::SortKeys;
use pig_value::{Dirs, Rows, Seq, Tuple, Value};
use std::alloc::{AllocError, Global};

// ORDER: rows by their keys, each in its direction, and then by the order of rows.
//
// They are sorted as bytes. The rows themselves are let go before, where this is their last use, and
// made anew where they are used.
pub fn in_order<'p>(
    alloc: Global,
    keys: &SortKeys,
    table: &mut Table<'p>,
    input: u32,
) -> Result<Relation<'p>, AllocError>
    ensures { IfOk result (HasFound (order_rows keys.now (rows_of table.old input))
        table.old table.new) }
{
    let dirs = directions(alloc, keys)?;
    let how = Entering::Sorting(keys);
    let mut builder = RunBuilder::new(alloc, dirs);
    let last = table.is_last(input);
    enter(alloc, &how, table, input, last, &mut builder)?;
    table.release(alloc, input);
    let rows = Orderer::new(builder.finish());
    Ok(Relation::Coming(Walk::of_ordered(alloc, rows)))
}

fn directions(alloc: Global, keys: &SortKeys) -> Result<Dirs, AllocError>
    ensures { IfOk result (λ dirs. dirs ≡ dirs_of keys.now) }
{
    let mut dirs = Seq::with_capacity(alloc, keys.len())?;
    for key in keys.as_slice() {
        dirs.push(key.dir)?;
    }
    Ok(dirs)
}

// DISTINCT: each row once, in ascending order.
pub fn each_once<'p>(
    alloc: Global,
    table: &mut Table<'p>,
    input: u32,
) -> Result<Relation<'p>, AllocError>
    ensures { IfOk result (HasFound (distinct row_cmp (rows_of table.old input))
        table.old table.new) }
{
    table.are_values();
    let rows = once(alloc, table.own_input(alloc, input)?)?;
    Ok(Relation::Standing(rows))
}

// The rows of a relation once each. A row is let go as soon as a run holds it.
fn once(alloc: Global, relation: Relation) -> Result<Rows, AllocError>
    requires { AreRows (relation_rows relation) }
    ensures { IfOk result (λ made. rows_tree made
        ≡ distinct row_cmp (relation_rows relation.entry)) }
{
    let builder = row_entries(alloc, relation)?;
    distinct_keys(alloc, builder.finish())
}

// Rows under themselves.
fn row_entries(alloc: Global, relation: Relation) -> Result<RunBuilder, AllocError>
    requires { AreRows (relation_rows relation) }
    ensures { IfOk result (λ builder. builder
        ≡ and_entries (map row_entry (relation_rows relation.entry)) (no_entries_in [])) }
{
    let mut builder = RunBuilder::new(alloc, Dirs::new(alloc));
    add_whole_relation(alloc, relation, &mut builder)?;
    Ok(builder)
}

fn add_whole_relation(
    alloc: Global,
    relation: Relation,
    builder: &mut RunBuilder,
) -> Result<(), AllocError>
    requires ascending { builder.old.dirs ≡ [] }
    requires rows { AreRows (relation_rows relation) }
    ensures { OnOk result (builder.new
        ≡ and_entries (map row_entry (relation_rows relation.entry)) builder.old) }
{
    match relation {
        Relation::Standing(rows) => add_whole_rows(rows, builder),
        Relation::Coming(mut walk) => {
            let added = add_whole_coming(alloc, &mut walk, builder);
            drop(walk);
            added
        }
    }
}

fn add_whole_coming(
    alloc: Global,
    walk: &mut Walk,
    builder: &mut RunBuilder,
) -> Result<(), AllocError>
    requires ascending { builder.old.dirs ≡ [] }
    requires rows { AreRows (coming walk.old) }
    ensures { OnOk result (builder.new
        ≡ and_entries (map row_entry (coming walk.old)) builder.old) }
{
    'batches: loop {
        let rows = walk.next_batch(alloc)?;
        if rows.is_empty() {
            return Ok(());
        }
        add_whole_rows(rows, builder)?;
    }
}

fn add_whole_rows(rows: Rows, builder: &mut RunBuilder) -> Result<(), AllocError>
    requires ascending { builder.old.dirs ≡ [] }
    requires rows { AreRows (rows_tree rows) }
    ensures { OnOk result (builder.new
        ≡ and_entries (map row_entry (rows_tree rows)) builder.old) }
{
    for row in rows.into_vec() {
        add_whole(row, builder)?;
    }
    Ok(())
}

fn add_whole(row: Tuple, builder: &mut RunBuilder) -> Result<(), AllocError>
    requires ascending { builder.old.dirs ≡ [] }
    requires row { IsRow (row_tree row) }
    ensures { OnOk result (builder.new ≡ and_entries (row_entry (row_tree row) ∷ []) builder.old) }
{
    let key = Value::Tuple(row);
    match &key {
        Value::Tuple(row) => builder.add(&key, 0, row),
        _ => Ok(()),
    }
}
