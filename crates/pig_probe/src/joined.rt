ghost use Rattle.std.specs.Prelude.{◌≡◌, ◌++◌, [], map, OnOk};
ghost use Rattle.pig_value.specs.Trees.{row_tree};
ghost use Rattle.pig_value.specs.Valid.{IsRow};
ghost use Rattle.pig_typed.specs.Typed.{typed};
ghost use Rattle.pig_probe.specs.Probing.{probed_row};

use crate::sides::{Room, Sides};
use pig_packed::{Packed, PackedBuilder};
use pig_typed::TExprs;
use pig_value::Tuple;
use std::alloc::{AllocError, Global};
use std::marker::Model;

/// Packed rows, to which joined rows are added as codes.
///
/// Contracts see the rows that it has.
#[derive(Drop)]
pub struct JoinedRows {
    built: PackedBuilder,
    room: Room,
}

impl Model for JoinedRows {
    ghost use Rattle.std.specs.Prelude.{◌≡◌, [], List};
    ghost use Rattle.std.specs.Coded.{coded_list};
    ghost use Rattle.pig_value.specs.Trees.{Tree};
    ghost use Rattle.pig_value.specs.TreeCode.{coded_tree};

    ghost Value = { List (List Tree) };

    ghost coded = { coded_list (coded_list coded_tree) };

    ghost view = { λ j. j.built.rows };

    ghost invariant = { λ j. j.built.begun ≡ [] };
}

impl JoinedRows {
    /// No rows, which takes no memory.
    pub fn new(alloc: Global) -> JoinedRows
        ensures { result ≡ [] }
    {
        JoinedRows {
            built: PackedBuilder::new(alloc),
            room: Room {
                key: Vec::new(alloc),
                front: Vec::new(alloc),
            },
        }
    }

    /// Adds what a row of the first input, which has these keys, gives with the sides.
    pub fn add(
        &mut self,
        alloc: Global,
        keys: &TExprs,
        sides: &Sides,
        row: &Tuple,
    ) -> Result<(), AllocError>
        requires { IsRow (row_tree row.now) }
        ensures { OnOk result (self.new ≡ self.old
            ++ probed_row sides.now (map typed keys.now) (row_tree row.now)) }
    {
        sides.add_joined(alloc, keys, row, &mut self.room, &mut self.built)
    }

    /// The rows.
    pub fn finish(self) -> Packed
        ensures { result ≡ self }
    {
        let JoinedRows { built, .. } = self;
        built.finish()
    }
}
