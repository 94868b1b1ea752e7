ghost use Rattle.std.specs.Prelude.{◌≡◌, ◌<◌, ◌++◌, ◌+◌, [], ◌∷◌, true, false, List, drop, length, slice_get, Some, IfOk, OnOk};
ghost use Rattle.pig_value.specs.Trees.{Tree, row_tree};
ghost use Rattle.pig_value.specs.Valid.{AreRows, IsRow};
ghost use Rattle.pig_keycode.specs.Codable.{IsCodeOfRow};
ghost use Rattle.pig_stream.specs.Taking.{rows_left};

use crate::batch::Batch;
use crate::source::Source;
use pig_keycode::decode_row;
use pig_packed::Packed;
use pig_value::Tuple;
use std::alloc::{AllocError, Global};

// So many rows stand in a batch.
const BATCH_ROWS: usize = 256;

/// The rows of packed rows, from the first on.
#[derive(Drop)]
pub struct Unpacked<'p> {
    rows: &'p Packed,
    next: usize,
}

impl<'p> Unpacked<'p> {
    /// The rows, from the first on.
    pub fn of(rows: &'p Packed) -> Unpacked<'p>
        ensures { rows_left result ≡ rows.now }
    {
        Unpacked { rows, next: 0 }
    }

    // Adds the next row to a batch, if there is one.
    fn add_next(&mut self, alloc: Global, batch: &mut Batch) -> Result<bool, AllocError>
        ensures rows { OnOk result (batch.old ++ rows_left self.old
            ≡ batch.new ++ rows_left self.new) }
        ensures values { AreRows batch.old → OnOk result (AreRows batch.new) }
        ensures same { self.new.rows ≡ self.old.rows }
        ensures one { IfOk result (λ b. b ≡ true → length batch.new ≡ length batch.old + 1) }
        ensures none { IfOk result (λ b. b ≡ false → rows_left self.new ≡ []) }
    {
        if self.next >= self.rows.len() {
            return Ok(false);
        }
        batch.push(row_at(alloc, self.rows, self.next)?)?;
        self.next += 1;
        Ok(true)
    }
}

impl Source for Unpacked<'_> {
    ghost coming = { λ s later. rows_left s };

    ghost Kept = { List (List Tree) };

    ghost kept = { λ s. s.rows.now };

    ghost dry = { λ s. rows_left s ≡ [] };

    fn fill(&mut self, alloc: Global, batch: &mut Batch) -> Result<(), AllocError> {
        batch.clear();
        'rows: while batch.as_slice().len() < BATCH_ROWS {
            if !self.add_next(alloc, batch)? {
                return Ok(());
            }
        }
        Ok(())
    }
}

fn row_at(alloc: Global, rows: &Packed, at: usize) -> Result<Tuple, AllocError>
    requires { at < length rows.now }
    ensures is { IfOk result (λ row. slice_get rows.now at ≡ Some (row_tree row)) }
    ensures value { IfOk result (λ row. IsRow (row_tree row)) }
{
    read_row(alloc, rows.code(at))
}

// The row of a code.
fn read_row(alloc: Global, code: &[u8]) -> Result<Tuple, AllocError>
    ensures is { (row : List Tree) → IsCodeOfRow code.now row
        → IfOk result (λ found. row_tree found ≡ row) }
    ensures value { IfOk result (λ found. IsRow (row_tree found)) }
{
    match decode_row(alloc, code) {
        Ok(Some(row)) => Ok(row),
        Ok(None) => Ok(Tuple::new(alloc)),
        Err(fault) => Err(fault),
    }
}
