ghost use Rattle.std.specs.Prelude.{◌≡◌, ◌+◌, ◌==◌, ◌++◌, true, false, get_or, length, take, IfOk, OnOk};
ghost use Rattle.std.specs.List.{flat_map, list_any};
ghost use Rattle.pig_value.specs.Trees.{rows_tree};
ghost use Rattle.pig_typed.specs.Blocks.{foreach_all};
ghost use Rattle.pig_typed.specs.Typed.{block_typed, typed};
ghost use Rattle.pig_plan.specs.Operators.{filter_rows};
ghost use Rattle.pig_plain.specs.Coming.{coming, relation_rows, seen_rows};
ghost use Rattle.pig_plain.specs.Tables.{HasFound, IsLeft, rows_of};

use crate::copies::copied;
use crate::each_row::{generated, passing, passing_copies};
use crate::relation::{Relation, Seen, add_seen};
use crate::table::Table;
use crate::walking::{RowStep, Walk};
use pig_typed::{Block, TExpr};
use pig_value::{Rows, Tuple};
use std::alloc::{AllocError, Global};

// FILTER: the rows themselves where this is their last use, and else copies.
//
// Here and in FOREACH a step is added to rows that are still to come.
pub fn filtered<'p>(
    alloc: Global,
    cond: &'p TExpr,
    table: &mut Table<'p>,
    input: u32,
) -> Result<Relation<'p>, AllocError>
    ensures { IfOk result (HasFound (filter_rows (typed cond.now) (rows_of table.old input))
        table.old table.new) }
{
    if table.is_last(input) {
        return passing_own(alloc, cond, table.take(alloc, input));
    }
    table.settle(alloc, input)?;
    let rows = passing_copies(alloc, cond, table.rows_at(input))?;
    Ok(Relation::Standing(rows))
}

fn passing_own<'p>(
    alloc: Global,
    cond: &'p TExpr,
    relation: Relation<'p>,
) -> Result<Relation<'p>, AllocError>
    ensures { IfOk result (λ made. relation_rows made
        ≡ filter_rows (typed cond.now) (relation_rows relation.entry)) }
{
    match relation {
        Relation::Standing(rows) => Ok(Relation::Standing(passing(alloc, cond, rows)?)),
        Relation::Coming(walk) => Ok(Relation::Coming(walk.then(RowStep::Filter(cond))?)),
    }
}

// FOREACH: what the block generates of each row, of rows that come as they come.
pub fn foreached<'p>(
    alloc: Global,
    block: &'p Block,
    table: &mut Table<'p>,
    input: u32,
) -> Result<Relation<'p>, AllocError>
    ensures { IfOk result (HasFound (foreach_all (block_typed block.now) (rows_of table.old input))
        table.old table.new) }
{
    let taken = table.take_input(alloc, input)?;
    let seen = table.seen_at(input, taken);
    generated_seen(alloc, block, seen)
}

fn generated_seen<'p>(
    alloc: Global,
    block: &'p Block,
    seen: Seen<'_, 'p>,
) -> Result<Relation<'p>, AllocError>
    ensures { IfOk result (λ made. relation_rows made
        ≡ foreach_all (block_typed block.now) (seen_rows seen.entry)) }
{
    match seen {
        Seen::Whole(rows) => Ok(Relation::Standing(generated(alloc, block, rows)?)),
        Seen::Walked(walk) => Ok(Relation::Coming(walk.then(RowStep::Foreach(block))?)),
    }
}

// UNION: the rows of all inputs.
pub fn united<'p>(
    alloc: Global,
    table: &mut Table<'p>,
    inputs: &[u32],
) -> Result<Relation<'p>, AllocError>
    ensures { IfOk result (HasFound (flat_map (rows_of table.old) inputs.now)
        table.old table.new) }
{
    let mut made = Rows::new(alloc);
    let mut left = inputs;
    'inputs: while let [input, rest @ ..] = left {
        let last = is_last_of(table, *input, rest);
        add_input(alloc, table, *input, last, &mut made)?;
        left = rest;
    }
    Ok(Relation::Standing(made))
}

// Whether this is a node's last use, and it is not among those that are still to be used here.
fn is_last_of(table: &Table, input: u32, rest: &[u32]) -> bool
    ensures last { result ≡ true → get_or table.now.ends input 0
        ≡ length table.now.relations + 1 }
    ensures named { result ≡ true → list_any (λ i. i == input) rest.now ≡ false }
{
    table.is_last(input) && !is_named(rest, input)
}

fn is_named(inputs: &[u32], node: u32) -> bool
    ensures { result ≡ list_any (λ i. i == node) inputs.now }
{
    let mut left = inputs;
    while let [input, rest @ ..] = left {
        if *input == node {
            return true;
        }
        left = rest;
    }
    false
}

fn add_input(
    alloc: Global,
    table: &mut Table,
    input: u32,
    last: bool,
    made: &mut Rows,
) -> Result<(), AllocError>
    ensures rows { OnOk result (rows_tree made.new
        ≡ rows_tree made.old ++ rows_of table.old input) }
    ensures left { OnOk result (IsLeft last input table.old table.new) }
{
    let taken = table.take_coming(alloc, input, last)?;
    let seen = table.seen_at(input, taken);
    add_seen(alloc, seen, made)
}

// LIMIT: the first rows.
pub fn limited<'p>(
    alloc: Global,
    table: &mut Table<'p>,
    input: u32,
    count: u64,
) -> Result<Relation<'p>, AllocError>
    ensures { IfOk result (HasFound (take count (rows_of table.old input))
        table.old table.new) }
{
    let taken = table.take_input(alloc, input)?;
    let seen = table.seen_at(input, taken);
    let rows = first_rows(alloc, seen, count)?;
    Ok(Relation::Standing(rows))
}

fn first_rows(alloc: Global, seen: Seen, count: u64) -> Result<Rows, AllocError>
    ensures { IfOk result (λ made. rows_tree made ≡ take count (seen_rows seen.entry)) }
{
    match seen {
        Seen::Whole(rows) => first_copies(alloc, rows, count),
        Seen::Walked(mut walk) => {
            let rows = first_coming(alloc, &mut walk, count);
            drop(walk);
            rows
        }
    }
}

fn first_coming(alloc: Global, walk: &mut Walk, count: u64) -> Result<Rows, AllocError>
    ensures { IfOk result (λ made. rows_tree made ≡ take count (coming walk.old)) }
{
    let mut rows = begun(alloc, walk, count as usize)?.into_vec();
    rows.truncate(count as usize);
    Ok(Rows::from_vec(rows))
}

// The rows of the first batches: at least so many, or all.
fn begun(alloc: Global, walk: &mut Walk, count: usize) -> Result<Rows, AllocError>
    ensures { IfOk result (λ made. take count (rows_tree made)
        ≡ take count (coming walk.old)) }
{
    let mut made = Rows::new(alloc);
    'batches: while made.len() < count {
        let rows = walk.next_batch(alloc)?;
        if rows.is_empty() {
            return Ok(made);
        }
        made.extend(rows)?;
    }
    Ok(made)
}

// Copies of the first rows.
fn first_copies(alloc: Global, rows: &[Tuple], count: u64) -> Result<Rows, AllocError>
    ensures { IfOk result (λ made. rows_tree made ≡ take count (rows_tree rows.now)) }
{
    let end = rows.len().min(count as usize);
    copied(alloc, &rows[..end])
}
