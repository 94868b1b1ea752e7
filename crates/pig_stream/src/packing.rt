ghost use Rattle.std.specs.Prelude.{◌≡◌, ◌++◌, [], ◌∷◌, OnOk};
ghost use Rattle.pig_value.specs.Trees.{row_tree, rows_tree};
ghost use Rattle.pig_value.specs.Valid.{IsRow};
ghost use Rattle.pig_stream.specs.Taking.{list_nothing, list_onwards};

use crate::sink::Sink;
use pig_packed::{Packed, PackedBuilder};
use pig_value::Tuple;
use std::alloc::{AllocError, Global};
use std::marker::Model;

/// Packed rows that take rows.
///
/// Contracts see the rows that it has.
#[derive(Drop)]
pub struct PackedRows {
    built: PackedBuilder,
}

impl Model for PackedRows {
    ghost use Rattle.std.specs.Prelude.{◌≡◌, [], List};
    ghost use Rattle.std.specs.Coded.{coded_list};
    ghost use Rattle.pig_value.specs.Trees.{Tree};
    ghost use Rattle.pig_value.specs.TreeCode.{coded_tree};

    ghost Value = { List (List Tree) };

    ghost coded = { coded_list (coded_list coded_tree) };

    ghost view = { λ p. p.built.rows };

    ghost invariant = { λ p. p.built.begun ≡ [] };
}

impl PackedRows {
    /// No rows, which takes no memory.
    pub fn new(alloc: Global) -> PackedRows
        ensures { result ≡ [] }
    {
        PackedRows {
            built: PackedBuilder::new(alloc),
        }
    }

    fn add(&mut self, row: &Tuple) -> Result<(), AllocError>
        requires { IsRow (row_tree row.now) }
        ensures { OnOk result (self.new ≡ self.old ++ row_tree row.now ∷ []) }
    {
        self.built.push_row(row)
    }

    /// The rows.
    pub fn finish(self) -> Packed
        ensures { result ≡ self }
    {
        let PackedRows { built } = self;
        built.finish()
    }
}

impl Sink for PackedRows {
    ghost after = { λ a rows b. b ≡ a ++ rows };

    ghost nothing = { λ a. list_nothing a };

    ghost onwards = { λ a b c xs ys h k. list_onwards a b c xs ys h k };

    fn take(&mut self, _alloc: Global, rows: &[Tuple]) -> Result<(), AllocError> {
        for row in rows {
            self.add(row)?;
        }
        Ok(())
    }

    fn has_enough(&self) -> bool {
        false
    }
}
