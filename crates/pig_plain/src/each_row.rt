ghost use Rattle.std.specs.Prelude.{◌≡◌, ◌++◌, [], ◌∷◌, IfOk, OnOk};
ghost use Rattle.pig_value.specs.Trees.{row_tree, rows_tree};
ghost use Rattle.pig_typed.specs.Blocks.{foreach_all};
ghost use Rattle.pig_typed.specs.Typed.{block_typed, typed};
ghost use Rattle.pig_plan.specs.Operators.{filter_rows};

use pig_eval::holds;
use pig_nested::foreach;
use pig_typed::{Block, TExpr};
use pig_value::{Rows, Tuple, copy_row};
use std::alloc::{AllocError, Global};

// FILTER of rows that others use too: copies of those of which the condition is true.
pub fn passing_copies(alloc: Global, cond: &TExpr, rows: &[Tuple]) -> Result<Rows, AllocError>
    ensures { IfOk result (λ kept. rows_tree kept
        ≡ filter_rows (typed cond.now) (rows_tree rows.now)) }
{
    let mut kept = Rows::new(alloc);
    for row in rows {
        copy_passing(alloc, cond, row, &mut kept)?;
    }
    Ok(kept)
}

fn copy_passing(alloc: Global, cond: &TExpr, row: &Tuple, kept: &mut Rows) -> Result<(), AllocError>
    ensures { OnOk result (rows_tree kept.new
        ≡ rows_tree kept.old ++ filter_rows (typed cond.now) (row_tree row.now ∷ [])) }
{
    if !holds(alloc, cond, row)? {
        return Ok(());
    }
    kept.push(copy_row(alloc, row)?)
}

// FILTER of rows that no other uses: those of which the condition is true.
pub fn passing(alloc: Global, cond: &TExpr, rows: Rows) -> Result<Rows, AllocError>
    ensures { IfOk result (λ kept. rows_tree kept
        ≡ filter_rows (typed cond.now) (rows_tree rows)) }
{
    let mut kept = Rows::new(alloc);
    for row in rows.into_vec() {
        keep_passing(alloc, cond, row, &mut kept)?;
    }
    Ok(kept)
}

fn keep_passing(alloc: Global, cond: &TExpr, row: Tuple, kept: &mut Rows) -> Result<(), AllocError>
    ensures { OnOk result (rows_tree kept.new
        ≡ rows_tree kept.old ++ filter_rows (typed cond.now) (row_tree row ∷ [])) }
{
    if !holds(alloc, cond, &row)? {
        return Ok(());
    }
    kept.push(row)
}

// FOREACH: what the block generates of each row.
pub fn generated(alloc: Global, block: &Block, rows: &[Tuple]) -> Result<Rows, AllocError>
    ensures { IfOk result (λ made. rows_tree made
        ≡ foreach_all (block_typed block.now) (rows_tree rows.now)) }
{
    let mut made = Rows::new(alloc);
    for row in rows {
        made.extend(foreach(alloc, block, row)?)?;
    }
    Ok(made)
}
