ghost use Rattle.std.specs.Prelude.{◌≡◌, ◌++◌, [], map, OnOk};
ghost use Rattle.pig_value.specs.Trees.{row_tree, rows_tree};
ghost use Rattle.pig_value.specs.Valid.{IsRow};
ghost use Rattle.pig_typed.specs.Typed.{typed};
ghost use Rattle.pig_probe.specs.Probing.{HasProbed, probed_nothing, probed_onwards, probed_row};

use crate::joined::JoinedRows;
use crate::sides::Sides;
use pig_packed::Packed;
use pig_stream::Sink;
use pig_typed::TExprs;
use pig_value::Tuple;
use std::alloc::{AllocError, Global};

/// Packed rows that take the rows of a first input, which has these keys, as they are joined with the sides.
#[derive(Drop)]
pub struct ProbedRows<'s> {
    pub keys: &'s TExprs,
    pub sides: &'s Sides,
    pub rows: JoinedRows,
}

impl<'s> ProbedRows<'s> {
    /// No rows, which takes no memory.
    pub fn new(alloc: Global, keys: &'s TExprs, sides: &'s Sides) -> ProbedRows<'s>
        ensures keys { result.keys.now ≡ keys.now }
        ensures sides { result.sides.now ≡ sides.now }
        ensures rows { result.rows ≡ [] }
    {
        ProbedRows {
            keys,
            sides,
            rows: JoinedRows::new(alloc),
        }
    }

    /// The joined rows.
    pub fn finish(self) -> Packed
        ensures { result ≡ self.entry.rows }
    {
        let ProbedRows { rows, .. } = self;
        rows.finish()
    }

    // Adds what a row gives.
    fn add(&mut self, alloc: Global, row: &Tuple) -> Result<(), AllocError>
        requires { IsRow (row_tree row.now) }
        ensures keys { OnOk result (self.new.keys.now ≡ self.old.keys.now) }
        ensures sides { OnOk result (self.new.sides.now ≡ self.old.sides.now) }
        ensures rows { OnOk result (self.new.rows ≡ self.old.rows
            ++ probed_row self.old.sides.now (map typed self.old.keys.now) (row_tree row.now)) }
    {
        self.rows.add(alloc, self.keys, self.sides, row)
    }
}

impl<'s> Sink for ProbedRows<'s> {
    ghost after = { λ a rows b. HasProbed a.keys.now a.sides.now a.rows rows b.keys.now b.sides.now b.rows };

    ghost nothing = { λ a. probed_nothing a.keys.now a.sides.now a.rows };

    ghost onwards = { λ a b c xs ys h k. probed_onwards a.keys.now b.keys.now c.keys.now a.sides.now b.sides.now c.sides.now a.rows b.rows c.rows xs ys h k };

    fn take(&mut self, alloc: Global, rows: &[Tuple]) -> Result<(), AllocError> {
        for row in rows {
            self.add(alloc, row)?;
        }
        Ok(())
    }

    fn has_enough(&self) -> bool {
        false
    }
}
