//! The first rows, packed.
ghost use Rattle.std.specs.Prelude.{◌≡◌, ◌≤◌, [], length, take, IsTrue, OnOk};
ghost use Rattle.pig_value.specs.Trees.{rows_tree};
ghost use Rattle.pig_value.specs.Valid.{AreRows};
ghost use Rattle.pig_map.specs.First.{HasKept, kept_nothing, kept_onwards};

use pig_packed::Packed;
use pig_stream::{PackedRows, Sink};
use pig_value::Tuple;
use std::alloc::{AllocError, Global};

// Packed rows that take the first rows, up to a limit.
#[derive(Drop)]
pub struct FirstPacked {
    pub rows: PackedRows,
    // So many more may come.
    pub left: u64,
}

impl FirstPacked {
    // No rows, which takes no memory.
    pub fn new(alloc: Global, limit: u64) -> FirstPacked
        ensures rows { result.rows ≡ [] }
        ensures left { result.left ≡ limit }
    {
        FirstPacked {
            rows: PackedRows::new(alloc),
            left: limit,
        }
    }

    // The rows.
    pub fn finish(self) -> Packed
        ensures { result ≡ self.rows }
    {
        let FirstPacked { rows, .. } = self;
        rows.finish()
    }

    fn is_full(&self) -> bool
        ensures { IsTrue result → self.now.left ≡ 0 }
    {
        self.left == 0
    }
}

impl Sink for FirstPacked {
    ghost after = { λ a rows b. HasKept a.rows a.left rows b.rows b.left };

    ghost nothing = { λ a. kept_nothing a.rows a.left };

    ghost onwards = { λ a b c xs ys h k. kept_onwards a.rows b.rows c.rows a.left b.left c.left xs ys h k };

    fn take(&mut self, alloc: Global, rows: &[Tuple]) -> Result<(), AllocError> {
        let count = room(self.left).min(rows.len());
        self.rows.take(alloc, &rows[..count])?;
        self.left = self.left.saturating_sub(count as u64);
        Ok(())
    }

    fn has_enough(&self) -> bool {
        self.is_full()
    }
}

// As many rows as a list can have.
fn room(left: u64) -> usize
    ensures { result ≡ left }
{
    left as usize
}
