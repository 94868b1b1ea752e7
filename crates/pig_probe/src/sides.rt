ghost use Rattle.std.specs.Prelude.{◌≡◌, OnOk};
ghost use Rattle.pig_value.specs.Trees.{tree};
ghost use Rattle.pig_keycode.specs.Codes.{code};

use crate::joining::add_probed;
use crate::keys::standing_key;
use crate::pieces::begin_row;
use pig_keycode::encode;
use pig_packed::PackedBuilder;
use pig_replicated::{Lookups, key_value};
use pig_typed::TExprs;
use pig_value::{Dir, Tuple, Value};
use std::alloc::{AllocError, Global};
use std::marker::Model;

/// The rows of the inputs behind the first, each by its keys, and whether a row of the first one that has no match is kept.
///
/// Contracts see the lookups, and the number of nulls that then stand behind such a row.
#[derive(Drop)]
pub struct Sides {
    lookups: Lookups,
    fill: Option<u32>,
}

// Where the code of a key and the row that is begun are written.
#[derive(Drop)]
pub(crate) struct Room {
    pub(crate) key: Vec<u8>,
    pub(crate) front: Vec<u8>,
}

impl Model for Sides {
    ghost use Rattle.std.specs.Prelude.{◌≡◌, IsSome, ℕ, List, Option, length};
    ghost use Rattle.std.specs.Coded.{coded×, coded_list, coded_option, coded_ℕ};
    ghost use Rattle.std.specs.List.{AllByRecursion};
    ghost use Rattle.pig_replicated.specs.Holding.{KeyedRow, coded_keyed_row};
    ghost use Rattle.pig_probe.specs.Probing.{HoldsRows};

    ghost Value = { List (List KeyedRow) × Option ℕ };

    ghost coded = { coded× (coded_list (coded_list coded_keyed_row)) (coded_option coded_ℕ) };

    ghost view = { λ s. (s.lookups, s.fill) };

    ghost invariant = { λ s. (IsSome s.fill → length s.lookups ≡ 1)
        × AllByRecursion HoldsRows s.lookups };
}

impl Sides {
    ghost use Rattle.std.specs.Prelude.{◌≡◌, [], length, map, IsSome, OnOk};
    ghost use Rattle.std.specs.List.{AllByRecursion};
    ghost use Rattle.pig_value.specs.Trees.{row_tree, tree};
    ghost use Rattle.pig_value.specs.Valid.{IsRow};
    ghost use Rattle.pig_packed.specs.Growth.{and_rows};
    ghost use Rattle.pig_typed.specs.Typed.{typed};
    ghost use Rattle.pig_replicated.specs.Joining.{probe_rows};
    ghost use Rattle.pig_probe.specs.Probing.{HoldsRows, probed_row};

    /// These lookups. Only the rows of a LEFT JOIN, which has one of them, are kept without a match: with so many nulls.
    pub fn new(lookups: Lookups, fill: Option<u32>) -> Sides
        requires one { IsSome fill → length lookups ≡ 1 }
        requires rows { AllByRecursion HoldsRows lookups }
        ensures { result ≡ (lookups, fill) }
    {
        Sides { lookups, fill }
    }

    // Adds what a row of the first input, which has these keys, gives.
    pub(crate) fn add_joined(
        &self,
        alloc: Global,
        keys: &TExprs,
        row: &Tuple,
        room: &mut Room,
        built: &mut PackedBuilder,
    ) -> Result<(), AllocError>
        requires row { IsRow (row_tree row.now) }
        requires none_begun { built.old.begun ≡ [] }
        ensures rows { OnOk result (built.new ≡ and_rows
            (probed_row self.now (map typed keys.now) (row_tree row.now)) built.old) }
        ensures none_begun { built.new.begun ≡ [] }
    {
        if let Some(key) = standing_key(keys.as_slice(), row) {
            return self.add_by_key(key, row, room, built);
        }
        let key = key_value(alloc, keys.as_slice(), row)?;
        self.add_by_key(&key, row, room, built)
    }

    // Adds what a row with this key gives.
    fn add_by_key(
        &self,
        key: &Value,
        row: &Tuple,
        room: &mut Room,
        built: &mut PackedBuilder,
    ) -> Result<(), AllocError>
        requires row { IsRow (row_tree row.now) }
        requires none_begun { built.old.begun ≡ [] }
        ensures rows { OnOk result (built.new ≡ and_rows
            (probe_rows self.now.0 self.now.1 (tree key.now) (row_tree row.now)) built.old) }
        ensures none_begun { built.new.begun ≡ [] }
    {
        begin_row(row.as_slice(), &mut room.front)?;
        write_key(key, &mut room.key)?;
        add_probed(
            self.lookups.as_slice(),
            self.fill,
            key,
            room.key.as_slice(),
            &mut room.front,
            built,
        )
    }
}

// Writes the code of a key in place of what was written.
fn write_key(key: &Value, bytes: &mut Vec<u8>) -> Result<(), AllocError>
    ensures { OnOk result (bytes.new.items ≡ code (tree key.now)) }
{
    bytes.clear();
    encode(key, Dir::Asc, bytes)
}
