ghost use Rattle.std.specs.Prelude.{◌≡◌, ◌≤◌, [], ◌∷◌, length, IsTrue, OnOk};
ghost use Rattle.pig_value.specs.Trees.{row_tree, rows_tree};
ghost use Rattle.pig_stream.specs.Taking.{HasFirst, first_nothing, first_onwards};

use crate::sink::Sink;
use pig_value::{Rows, Tuple, copy_row};
use std::alloc::{AllocError, Global};

/// A list that takes copies of the first rows, up to a limit.
#[derive(Drop)]
pub struct FirstRows {
    pub rows: Rows,
    pub limit: u64,
}

impl FirstRows {
    /// No rows, which takes no memory.
    pub fn new(alloc: Global, limit: u64) -> FirstRows
        ensures rows { result.rows ≡ [] }
        ensures limit { result.limit ≡ limit }
    {
        FirstRows {
            rows: Rows::new(alloc),
            limit,
        }
    }

    fn is_full(&self) -> bool
        ensures { IsTrue result → self.now.limit ≤ length self.now.rows }
    {
        self.rows.len() as u64 >= self.limit
    }

    fn add(&mut self, alloc: Global, row: &Tuple) -> Result<(), AllocError>
        ensures { OnOk result (HasFirst (rows_tree self.old.rows) self.old.limit
            (row_tree row.now ∷ []) (rows_tree self.new.rows) self.new.limit) }
    {
        if self.rows.len() as u64 >= self.limit {
            return Ok(());
        }
        self.rows.push(copy_row(alloc, row)?)
    }
}

impl Sink for FirstRows {
    ghost after = { λ a rows b. HasFirst (rows_tree a.rows) a.limit rows (rows_tree b.rows) b.limit };

    ghost nothing = { λ a. first_nothing (rows_tree a.rows) a.limit };

    ghost onwards = { λ a b c xs ys h k. first_onwards (rows_tree a.rows) (rows_tree b.rows) (rows_tree c.rows)
        a.limit b.limit c.limit xs ys h k };

    fn take(&mut self, alloc: Global, rows: &[Tuple]) -> Result<(), AllocError> {
        for at in 0..rows.len() {
            self.add(alloc, &rows[at])?;
        }
        Ok(())
    }

    fn has_enough(&self) -> bool {
        self.is_full()
    }
}
