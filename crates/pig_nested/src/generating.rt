ghost use Rattle.std.specs.Prelude.{◌≡◌, List, Some, IfOk};
ghost use Rattle.pig_value.specs.Kinds.{AreRowsOf, IsRowOf};
ghost use Rattle.pig_value.specs.Texts.{AreLineFreeRows, IsLineFreeRow};
ghost use Rattle.pig_value.specs.Trees.{KindTree, row_tree, rows_tree};
ghost use Rattle.pig_value.specs.Valid.{AreRows, IsRow, IsValue};
ghost use Rattle.pig_typed.specs.BlockKinds.{row_kinds};
ghost use Rattle.pig_typed.specs.Blocks.{foreach_rows};
ghost use Rattle.pig_typed.specs.Literals.{BlockLiteralsAre};
ghost use Rattle.pig_typed.specs.Premises.{IsLineFreeValue};
ghost use Rattle.pig_typed.specs.Typed.{block_typed};

use crate::items::rows_of_items;
use crate::steps::values_of_steps;
use pig_eval::{evaluation_keeps_kinds, evaluation_keeps_lines, evaluation_keeps_values};
use pig_typed::Block;
use pig_value::{Rows, Tuple};
use std::alloc::{AllocError, Global};

/// The rows that a block makes of a row: all joinings of what its items give, the first item varying slowest.
///
/// On a row of the kinds that the block was typed for, the rows are of its kinds. Out of values they are values, and
/// where no text in the row and the literals has an LF, they are free of them too.
pub fn foreach(alloc: Global, block: &Block, row: &Tuple) -> Result<Rows, AllocError>
    ensures rows { IfOk result (λ rows. rows_tree rows
        ≡ foreach_rows (block_typed block.now) (row_tree row.now)) }
    ensures kinds { (kinds made : List KindTree)
        → IsRowOf (row_tree row.now) kinds → row_kinds (block_typed block.now) kinds ≡ Some made
        → IfOk result (λ rows. AreRowsOf (rows_tree rows) made) }
    ensures valid { BlockLiteralsAre IsValue (block_typed block.now) → IsRow (row_tree row.now)
        → IfOk result (λ rows. AreRows (rows_tree rows)) }
    ensures line_free { BlockLiteralsAre IsLineFreeValue (block_typed block.now)
        → IsRow (row_tree row.now) → IsLineFreeRow (row_tree row.now)
        → IfOk result (λ rows. AreLineFreeRows (rows_tree rows)) }
{
    evaluation_keeps_kinds();
    evaluation_keeps_values();
    evaluation_keeps_lines();
    made(alloc, block, row)
}

fn made(alloc: Global, block: &Block, row: &Tuple) -> Result<Rows, AllocError>
    ensures { IfOk result (λ rows. rows_tree rows
        ≡ foreach_rows (block_typed block.now) (row_tree row.now)) }
{
    let locals = values_of_steps(alloc, &block.steps, row)?;
    rows_of_items(alloc, &block.items, row, locals)
}
