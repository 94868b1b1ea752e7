ghost use Rattle.std.specs.Prelude.{◌≡◌, ◌+◌, ◌==◌, [], true, false, get_or, length, map, IfOk, OnOk};
ghost use Rattle.std.specs.List.{list_any};
ghost use Rattle.pig_value.specs.Valid.{IsValue};
ghost use Rattle.pig_typed.specs.Typed.{typed};
ghost use Rattle.pig_plan.specs.ByKey.{gathered};
ghost use Rattle.pig_plan.specs.Laws.{KeyLiteralsAre};
ghost use Rattle.pig_plan.specs.Meaning.{width_at};
ghost use Rattle.pig_plan.specs.Operators.{group_all, group_rows, join_rows, keyed_entries};
ghost use Rattle.pig_plan.specs.Plans.{keyed_of, plan_of};
ghost use Rattle.pig_runs.specs.Entries.{and_entries, no_entries_in, run_of};
ghost use Rattle.pig_operators.specs.Given.{made};
ghost use Rattle.pig_operators.specs.Keying.{keyed_rows};
ghost use Rattle.pig_plain.specs.Coming.{relation_rows};
ghost use Rattle.pig_plain.specs.Entered.{IsByKey};
ghost use Rattle.pig_plain.specs.Tables.{HasFound, IsLeft, IsUsed, rows_of};

use crate::entering::{Entering, enter};
use crate::relation::Relation;
use crate::table::Table;
use crate::walking::Walk;
use pig_operators::{Gatherer, Gathering, gathering_of_group, gathering_of_join};
use pig_plan::{KeyedInput, Plan};
use pig_runs::RunBuilder;
use pig_value::{Dirs, Rows, Side};
use std::alloc::{AllocError, Global};

// GROUP ALL: one row with the bag of all rows, or none.
//
// Here and below, rows whose last use this is are let go when the run holds them, before it is sorted.
pub fn group_all<'p>(
    alloc: Global,
    table: &mut Table<'p>,
    input: u32,
) -> Result<Relation<'p>, AllocError>
    ensures { IfOk result (HasFound (group_all (rows_of table.old input))
        table.old table.new) }
{
    let how = Entering::Together;
    let mut builder = RunBuilder::new(alloc, Dirs::new(alloc));
    let last = table.is_last(input);
    enter(alloc, &how, table, input, last, &mut builder)?;
    table.release(alloc, input);
    Ok(groups(alloc, Gathering::Group, builder))
}

// The rows of an operator by key over the entries of a builder are made where they are used.
fn groups<'p>(alloc: Global, how: Gathering, builder: RunBuilder) -> Relation<'p>
    requires { builder.dirs ≡ [] }
    ensures { relation_rows result
        ≡ gathered (made how) (run_of builder.dirs builder.entries).entries }
{
    let groups = Gatherer::new(how, builder.finish());
    Relation::Coming(Walk::of_groups(alloc, groups))
}

// GROUP and COGROUP.
pub fn grouped<'p>(
    alloc: Global,
    inputs: &[KeyedInput],
    table: &mut Table<'p>,
) -> Result<Relation<'p>, AllocError>
    requires literals { KeyLiteralsAre IsValue (map keyed_of inputs.now) }
    ensures { IfOk result (HasFound (group_rows (map keyed_of inputs.now) (rows_of table.old))
        table.old table.new) }
{
    let how = gathering_of_group(alloc, inputs)?;
    rows_by_key(alloc, how, inputs, table)
}

// JOIN.
pub fn joined<'p>(
    alloc: Global,
    plan: &Plan,
    inputs: &[KeyedInput],
    side: Side,
    table: &mut Table<'p>,
) -> Result<Relation<'p>, AllocError>
    requires literals { KeyLiteralsAre IsValue (map keyed_of inputs.now) }
    ensures { IfOk result (HasFound (join_rows side (width_at (plan_of plan.now))
        (map keyed_of inputs.now) (rows_of table.old)) table.old table.new) }
{
    match gathering_of_join(plan, inputs, side) {
        Some(how) => rows_by_key(alloc, how, inputs, table),
        None => Ok(Relation::Standing(Rows::new(alloc))),
    }
}

// The rows of the inputs' entries, brought together.
fn rows_by_key<'p>(
    alloc: Global,
    how: Gathering,
    inputs: &[KeyedInput],
    table: &mut Table<'p>,
) -> Result<Relation<'p>, AllocError>
    requires literals { KeyLiteralsAre IsValue (map keyed_of inputs.now) }
    ensures { IfOk result (HasFound (gathered (made how) (keyed_entries 0 (map keyed_of inputs.now)
        (rows_of table.old)))
        table.old table.new) }
{
    let builder = entries(alloc, inputs, table)?;
    table.release_keyed(alloc, inputs);
    Ok(groups(alloc, how, builder))
}

// The entries of all inputs, each row under its key.
fn entries(
    alloc: Global,
    inputs: &[KeyedInput],
    table: &mut Table,
) -> Result<RunBuilder, AllocError>
    requires literals { KeyLiteralsAre IsValue (map keyed_of inputs.now) }
    ensures entries { IfOk result (λ builder. builder
        ≡ and_entries (keyed_entries 0 (map keyed_of inputs.now) (rows_of table.old))
        (no_entries_in [])) }
    ensures used { OnOk result (IsUsed table.old table.new) }
{
    let mut builder = RunBuilder::new(alloc, Dirs::new(alloc));
    let mut place = 0;
    let mut left = inputs;
    'inputs: while let [input, rest @ ..] = left {
        let last = is_last_of(table, input.input, rest);
        add_input(alloc, input, place, table, last, &mut builder)?;
        place = next_number(place)?;
        left = rest;
    }
    Ok(builder)
}

// Whether this is a node's last use, and none of the inputs that are still to be used here is the node.
fn is_last_of(table: &Table, input: u32, rest: &[KeyedInput]) -> bool
    ensures last { result ≡ true → get_or table.now.ends input 0
        ≡ length table.now.relations + 1 }
    ensures named { result ≡ true → list_any (λ i. i == input)
        (map (λ i. i.input) (map keyed_of rest.now)) ≡ false }
{
    table.is_last(input) && !is_named(rest, input)
}

fn is_named(inputs: &[KeyedInput], node: u32) -> bool
    ensures { result ≡ list_any (λ i. i == node)
        (map (λ i. i.input) (map keyed_of inputs.now)) }
{
    let mut left = inputs;
    while let [input, rest @ ..] = left {
        if input.input == node {
            return true;
        }
        left = rest;
    }
    false
}

// The number of the next input, which an entry has room for.
fn next_number(number: u32) -> Result<u32, AllocError>
    ensures { IfOk result (λ next. next ≡ number + 1) }
{
    number.checked_add(1).ok_or(AllocError)
}

// Adds the entries of one input.
fn add_input(
    alloc: Global,
    input: &KeyedInput,
    place: u32,
    table: &mut Table,
    last: bool,
    builder: &mut RunBuilder,
) -> Result<(), AllocError>
    requires { IsByKey (map typed input.now.keys) builder.old.dirs }
    ensures entries { OnOk result (builder.new
        ≡ and_entries (keyed_rows (map typed input.now.keys) place
        (rows_of table.old input.now.input)) builder.old) }
    ensures left { OnOk result (IsLeft last input.now.input table.old table.new) }
{
    let how = Entering::Keyed(input.keys.as_slice(), place);
    enter(alloc, &how, table, input.input, last, builder)
}
