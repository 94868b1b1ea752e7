ghost use Rattle.std.specs.Prelude.{◌≡◌, ◌++◌, [], OnOk};
ghost use Rattle.pig_value.specs.Trees.{rows_tree};
ghost use Rattle.pig_stream.specs.Taking.{list_nothing, list_onwards};

use crate::sink::Sink;
use pig_value::{Rows, Tuple, copy_row};
use std::alloc::{AllocError, Global};

/// A list that takes copies of rows.
#[derive(Drop)]
pub struct RowList {
    pub rows: Rows,
}

impl RowList {
    /// No rows, which takes no memory.
    pub fn new(alloc: Global) -> RowList
        ensures { result.rows ≡ [] }
    {
        RowList {
            rows: Rows::new(alloc),
        }
    }
}

impl Sink for RowList {
    ghost after = { λ a rows b. rows_tree b.rows ≡ rows_tree a.rows ++ rows };

    ghost nothing = { λ a. list_nothing (rows_tree a.rows) };

    ghost onwards = { λ a b c xs ys h k. list_onwards (rows_tree a.rows) (rows_tree b.rows) (rows_tree c.rows) xs ys h k };

    fn take(&mut self, alloc: Global, rows: &[Tuple]) -> Result<(), AllocError> {
        for row in rows {
            self.rows.push(copy_row(alloc, row)?)?;
        }
        Ok(())
    }

    fn has_enough(&self) -> bool {
        false
    }
}
