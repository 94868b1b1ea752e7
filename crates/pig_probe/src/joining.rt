ghost use Rattle.std.specs.Prelude.{◌≡◌, ◌++◌, ◌∷◌, [], List, IsSome, MatchOption, OnOk};
ghost use Rattle.std.specs.List.{AllByRecursion, list_any};
ghost use Rattle.pig_value.specs.Trees.{Tree, tree};
ghost use Rattle.pig_keycode.specs.Codes.{code};
ghost use Rattle.pig_packed.specs.Growth.{and_row, and_rows};
ghost use Rattle.pig_plan.specs.ByKey.{is_empty, nulls};
ghost use Rattle.pig_replicated.specs.Holding.{matches_in};
ghost use Rattle.pig_replicated.specs.Joining.{partners, probe_rows};
ghost use Rattle.pig_probe.specs.Begun.{Begins, IsBegun};
ghost use Rattle.pig_probe.specs.Probing.{HoldsRows};

use crate::pieces::{add_bytes, add_nulls, add_row};
use pig_packed::PackedBuilder;
use pig_replicated::Lookup;
use pig_value::Value;
use std::alloc::AllocError;

// Adds the joinings of the row that is begun with one match of each side, the first side slowest.
//
// Where there is none and `fill` is so many fields, the row followed by that many nulls.
pub fn add_probed(
    sides: &[Lookup],
    fill: Option<u32>,
    key: &Value,
    bytes: &[u8],
    front: &mut Vec<u8>,
    built: &mut PackedBuilder,
) -> Result<(), AllocError>
    requires bytes { bytes.now ≡ code (tree key.now) }
    requires rows { AllByRecursion HoldsRows sides.now }
    requires front { IsBegun front.old.items }
    requires none_begun { built.old.begun ≡ [] }
    ensures rows { (row : List Tree) → Begins front.old.items row → OnOk result (built.new
        ≡ and_rows (probe_rows sides.now fill (tree key.now) row) built.old) }
    ensures none_begun { built.new.begun ≡ [] }
{
    let before = built.len();
    add_partners(sides, key, bytes, front, built)?;
    let Some(width) = fill else {
        return Ok(());
    };
    if built.len() == before {
        return add_alone(width, front, built);
    }
    Ok(())
}

// Adds the row that is begun with so many nulls behind it.
fn add_alone(width: u32, front: &mut Vec<u8>, built: &mut PackedBuilder) -> Result<(), AllocError>
    requires front { IsBegun front.old.items }
    requires none_begun { built.old.begun ≡ [] }
    ensures rows { (row : List Tree) → Begins front.old.items row
        → OnOk result (built.new ≡ and_row (row ++ nulls width) built.old) }
    ensures none_begun { built.new.begun ≡ [] }
{
    add_nulls(front, width)?;
    add_row(front, built)
}

// Adds the joinings of the row that is begun with one match of each side.
fn add_partners(
    sides: &[Lookup],
    key: &Value,
    bytes: &[u8],
    front: &mut Vec<u8>,
    built: &mut PackedBuilder,
) -> Result<(), AllocError>
    requires bytes { bytes.now ≡ code (tree key.now) }
    requires rows { AllByRecursion HoldsRows sides.now }
    requires front { IsBegun front.old.items }
    requires none_begun { built.old.begun ≡ [] }
    ensures rows { (row : List Tree) → Begins front.old.items row
        → OnOk result (built.new ≡ and_rows (partners sides.now (tree key.now) row) built.old) }
    ensures front { OnOk result (front.new.items ≡ front.old.items) }
    ensures none_begun { built.new.begun ≡ [] }
{
    let Some((side, rest)) = sides.split_first() else {
        return add_row(front, built);
    };
    if one_lacks(rest, key, bytes) {
        return Ok(());
    }
    let size = front.as_slice().len();
    for part in side.coded_matches(key, bytes) {
        add_bytes(front, part.as_slice())?;
        add_partners(rest, key, bytes, front, built)?;
        front.truncate(size);
    }
    Ok(())
}

// Whether a side has no match, so that nothing is joined.
fn one_lacks(sides: &[Lookup], key: &Value, bytes: &[u8]) -> bool
    requires { bytes.now ≡ code (tree key.now) }
    ensures { result ≡ list_any (λ s. is_empty (matches_in s (tree key.now))) sides.now }
{
    for side in sides {
        if lacks(side, key, bytes) {
            return true;
        }
    }
    false
}

fn lacks(side: &Lookup, key: &Value, bytes: &[u8]) -> bool
    requires { bytes.now ≡ code (tree key.now) }
    ensures { result ≡ is_empty (matches_in side.now (tree key.now)) }
{
    side.coded_matches(key, bytes).is_empty()
}
