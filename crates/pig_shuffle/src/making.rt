ghost use Rattle.std.specs.Prelude.{◌≡◌, [], ◌∷◌, None, length, map, IfOk};
ghost use Rattle.std.specs.List.{AllByRecursion};
ghost use Rattle.std.specs.Option.{option_map};
ghost use Rattle.pig_typed.specs.Typed.{block_typed};
ghost use Rattle.pig_algebra.specs.Cuts.{c_row, cut_typed, cuts_in};
ghost use Rattle.pig_plan.specs.Entries.{dirs_of, sort_keys};
ghost use Rattle.pig_plan.specs.Plans.{op_of};
ghost use Rattle.pig_runs.specs.Entries.{no_entries_in};
ghost use Rattle.pig_combine.specs.Holdings.{HasAdded, cuts_held};
ghost use Rattle.pig_shuffle.specs.Held.{Hold, HoldKeys, HoldRuns, HoldTables, HoldsNothing, cuts_from, dirs_by, dirs_in, held_in};
ghost use Rattle.pig_shuffle.specs.Shuffling.{cuts_by};

use crate::parts::Parts;
use pig_algebra::{Cuts, combinable};
use pig_combine::Table;
use pig_plan::NodeOp;
use pig_runs::{KeysBuilder, RunBuilder};
use pig_typed::{Block, SortKeys};
use pig_value::Dirs;
use std::alloc::{AllocError, Global};

// Where the parts of a key come from, of rows that are combined.
#[derive(Drop)]
pub enum Combining<'b> {
    // The row of a DISTINCT.
    Row,
    // The block that a GROUP folds into.
    Block(&'b Block),
}

// What is held of no rows of an operator's input, for so many partitions.
pub fn parts_for(
    alloc: Global,
    op: &NodeOp,
    fold: Option<&Block>,
    count: u32,
) -> Result<Parts, AllocError>
    ensures held { IfOk result (λ parts. Hold
        (cuts_by (option_map (λ block. block_typed block.now) fold.entry) (op_of op.now))
        (sort_keys (op_of op.now)) count [] (held_in parts)) }
    ensures dirs { IfOk result (λ parts. AllByRecursion (λ ds. ds ≡ dirs_by (op_of op.now))
        (dirs_in parts.runs.items)) }
{
    match combining_of(op, fold) {
        Some(Combining::Row) => keys_for(alloc, count),
        Some(Combining::Block(block)) => tables_for(alloc, block, count),
        None => runs_for(alloc, op, count),
    }
}

// Each operator stands here, so that a new one is thought of.
fn combining_of<'b>(op: &NodeOp, fold: Option<&'b Block>) -> Option<Combining<'b>>
    ensures { option_map cuts_from result
        ≡ cuts_by (option_map (λ block. block_typed block.now) fold.entry) (op_of op.now) }
{
    match op {
        NodeOp::Distinct { .. } => Some(Combining::Row),
        NodeOp::GroupAll { .. } => folding(fold),
        NodeOp::Group { .. } => folding(fold),
        NodeOp::Join { .. } => None,
        NodeOp::Order { .. } => None,
        NodeOp::Rank { .. } => None,
        NodeOp::Load { .. } => None,
        NodeOp::Filter { .. } => None,
        NodeOp::Foreach { .. } => None,
        NodeOp::Union { .. } => None,
        NodeOp::Limit { .. } => None,
        NodeOp::Store { .. } => None,
        NodeOp::Assert { .. } => None,
    }
}

fn folding<'b>(fold: Option<&'b Block>) -> Option<Combining<'b>>
    ensures { option_map cuts_from result
        ≡ option_map cuts_in (option_map (λ block. block_typed block.now) fold.entry) }
{
    match fold {
        Some(block) => Some(Combining::Block(block)),
        None => None,
    }
}

// ---- tables

fn tables_for(alloc: Global, block: &Block, count: u32) -> Result<Parts, AllocError>
    ensures held { IfOk result (λ parts. HoldTables (cuts_in (block_typed block.now)) count []
        (held_in parts)) }
    ensures runs { IfOk result (λ parts. parts.runs.items ≡ []) }
{
    let tables = new_tables(alloc, block, count)?;
    Ok(Parts {
        count,
        runs: Vec::new(alloc),
        tables,
        keys: Vec::new(alloc),
    })
}

fn new_tables(alloc: Global, block: &Block, count: u32) -> Result<Vec<Table>, AllocError>
    ensures count { IfOk result (λ tables. length tables.items ≡ count) }
    ensures empty { IfOk result (λ tables. AllByRecursion
        (HoldsNothing (cuts_in (block_typed block.now))) tables.items) }
{
    let mut tables = Vec::new(alloc);
    'tables: for _ in 0..count {
        tables.push(table_for(alloc, block)?)?;
    }
    Ok(tables)
}

fn table_for(alloc: Global, block: &Block) -> Result<Table, AllocError>
    ensures { IfOk result (HoldsNothing (cuts_in (block_typed block.now))) }
{
    let cuts = block_cuts(alloc, block)?;
    Table::new(alloc, cuts)
}

fn block_cuts(alloc: Global, block: &Block) -> Result<Cuts, AllocError>
    ensures { IfOk result (λ cuts. map cut_typed cuts ≡ cuts_in (block_typed block.now)) }
{
    match combinable(alloc, block)? {
        Some(cuts) => Ok(cuts),
        None => Ok(Cuts::new(alloc)),
    }
}

// ---- keys

fn keys_for(alloc: Global, count: u32) -> Result<Parts, AllocError>
    ensures held { IfOk result (λ parts. HoldKeys (c_row ∷ []) count [] (held_in parts)) }
    ensures runs { IfOk result (λ parts. parts.runs.items ≡ []) }
{
    let keys = new_keys(alloc, count)?;
    Ok(Parts {
        count,
        runs: Vec::new(alloc),
        tables: Vec::new(alloc),
        keys,
    })
}

fn new_keys(alloc: Global, count: u32) -> Result<Vec<KeysBuilder>, AllocError>
    ensures count { IfOk result (λ keys. length keys.items ≡ count) }
    ensures empty { IfOk result (λ keys. AllByRecursion (λ k. k ≡ []) keys.items) }
{
    let mut keys = Vec::new(alloc);
    'keys: for _ in 0..count {
        keys.push(KeysBuilder::new(alloc)?)?;
    }
    Ok(keys)
}

// ---- runs

fn runs_for(alloc: Global, op: &NodeOp, count: u32) -> Result<Parts, AllocError>
    ensures held { IfOk result (λ parts. Hold None (sort_keys (op_of op.now)) count []
        (held_in parts)) }
    ensures dirs { IfOk result (λ parts. AllByRecursion (λ ds. ds ≡ dirs_by (op_of op.now))
        (dirs_in parts.runs.items)) }
{
    match sorting(op) {
        Some(keys) => one_run(alloc, keys),
        None => partitioned_runs(alloc, count),
    }
}

// The keys by which an operator sorts.
fn sorting(op: &NodeOp) -> Option<&SortKeys>
    ensures { option_map (λ keys. keys.now) result ≡ sort_keys (op_of op.now) }
{
    match op {
        NodeOp::Order { keys, .. } => Some(keys),
        NodeOp::Rank { keys, .. } => Some(keys),
        NodeOp::Load { .. } => None,
        NodeOp::Filter { .. } => None,
        NodeOp::Foreach { .. } => None,
        NodeOp::GroupAll { .. } => None,
        NodeOp::Group { .. } => None,
        NodeOp::Join { .. } => None,
        NodeOp::Union { .. } => None,
        NodeOp::Distinct { .. } => None,
        NodeOp::Limit { .. } => None,
        NodeOp::Store { .. } => None,
        NodeOp::Assert { .. } => None,
    }
}

fn one_run(alloc: Global, keys: &SortKeys) -> Result<Parts, AllocError>
    ensures held { IfOk result (λ parts. HoldRuns (dirs_of keys.now) 1 [] (held_in parts)) }
    ensures dirs { IfOk result (λ parts. AllByRecursion (λ ds. ds ≡ dirs_of keys.now)
        (dirs_in parts.runs.items)) }
{
    let dirs = directions(alloc, keys)?;
    let mut runs = Vec::with_capacity(alloc, 1)?;
    runs.push(RunBuilder::new(alloc, dirs))?;
    Ok(Parts {
        count: 1,
        runs,
        tables: Vec::new(alloc),
        keys: Vec::new(alloc),
    })
}

fn directions(alloc: Global, keys: &SortKeys) -> Result<Dirs, AllocError>
    ensures { IfOk result (λ dirs. dirs ≡ dirs_of keys.now) }
{
    let mut dirs = Dirs::with_capacity(alloc, keys.len())?;
    for key in keys.as_slice() {
        dirs.push(key.dir)?;
    }
    Ok(dirs)
}

fn partitioned_runs(alloc: Global, count: u32) -> Result<Parts, AllocError>
    ensures held { IfOk result (λ parts. HoldRuns [] count [] (held_in parts)) }
    ensures dirs { IfOk result (λ parts. AllByRecursion (λ ds. ds ≡ [])
        (dirs_in parts.runs.items)) }
{
    let runs = new_runs(alloc, count)?;
    Ok(Parts {
        count,
        runs,
        tables: Vec::new(alloc),
        keys: Vec::new(alloc),
    })
}

fn new_runs(alloc: Global, count: u32) -> Result<Vec<RunBuilder>, AllocError>
    ensures count { IfOk result (λ runs. length runs.items ≡ count) }
    ensures empty { IfOk result (λ runs. AllByRecursion (λ run. run ≡ no_entries_in [])
        runs.items) }
{
    let mut runs = Vec::new(alloc);
    'runs: for _ in 0..count {
        runs.push(RunBuilder::new(alloc, Dirs::new(alloc)))?;
    }
    Ok(runs)
}
