ghost use Rattle.std.specs.Prelude.{◌≡◌, ◌++◌, IfOk, OnOk};
ghost use Rattle.pig_value.specs.Trees.{rows_tree};

use pig_value::{Rows, Tuple, copy_row};
use std::alloc::{AllocError, Global};

// Copies of rows, in order.
pub fn copied(alloc: Global, rows: &[Tuple]) -> Result<Rows, AllocError>
    ensures { IfOk result (λ made. rows_tree made ≡ rows_tree rows.now) }
{
    let mut made = Rows::with_capacity(alloc, rows.len())?;
    add_copies(alloc, rows, &mut made)?;
    Ok(made)
}

// Adds copies of rows behind others.
pub fn add_copies(alloc: Global, rows: &[Tuple], made: &mut Rows) -> Result<(), AllocError>
    ensures { OnOk result (rows_tree made.new ≡ rows_tree made.old ++ rows_tree rows.now) }
{
    for row in rows {
        made.push(copy_row(alloc, row)?)?;
    }
    Ok(())
}
