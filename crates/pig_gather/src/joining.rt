ghost use Rattle.std.specs.Prelude.{◌≡◌, ◌<◌, ◌∷◌, ◌++◌, [], List, length, map, slice_get, Some, MatchOption, OnOk};
ghost use Rattle.std.specs.List.{AllByRecursion, range_with_len};
ghost use Rattle.pig_value.specs.Gathering.{Entry};
ghost use Rattle.pig_value.specs.Trees.{Tree};
ghost use Rattle.pig_keycode.specs.Reading.{row_code};
ghost use Rattle.pig_typed.specs.Products.{product};
ghost use Rattle.pig_packed.specs.Growth.{and_rows};
ghost use Rattle.pig_gather.specs.Fields.{Begins, IsBegun, inner_code};
ghost use Rattle.pig_gather.specs.Lent.{bags_in};
ghost use Rattle.pig_gather.specs.Spans.{IsSpan, rows_in};

use crate::groups::spans;
use crate::lent::{Group, Span};
use crate::pieces::end_fields;
use pig_packed::PackedBuilder;
use pig_runs::Merged;
use std::alloc::{AllocError, Global};

// Adds the rows of a group's inputs, joined.
pub(crate) fn add_partners(
    alloc: Global,
    group: &Group<'_, '_>,
    inputs: usize,
    built: &mut PackedBuilder,
) -> Result<(), AllocError>
    requires none_begun { built.old.begun ≡ [] }
    ensures { OnOk result (built.new ≡ and_rows
        (product (map (bags_in group.now) (range_with_len 0 inputs))) built.old) }
{
    let parts = spans(alloc, group, inputs)?;
    let mut front = Vec::new(alloc);
    front.push(6)?;
    add_products(group.entries, &mut front, parts.as_slice(), built)
}

// Adds a row for each joining of the parts' rows behind the fields that begin the front, the first part slowest.
fn add_products(
    entries: &Merged,
    front: &mut Vec<u8>,
    parts: &[Span],
    built: &mut PackedBuilder,
) -> Result<(), AllocError>
    requires parts { AllByRecursion (IsSpan entries.now) parts.now }
    requires front { IsBegun front.old.items }
    requires none_begun { built.old.begun ≡ [] }
    ensures rows { (fields : List Tree) → Begins front.old.items fields → OnOk result (built.new
        ≡ and_rows (map (λ more. fields ++ more)
        (product (map (rows_in entries.now) parts.now))) built.old) }
    ensures front { OnOk result (front.new.items ≡ front.old.items) }
{
    entries.len();
    let Some((part, rest)) = slowest(parts) else {
        return add_front(front.as_slice(), built);
    };
    let size = front.as_slice().len();
    for at in part.from..part.end {
        add_inner(entries, at, front)?;
        add_products(entries, front, rest, built)?;
        front.truncate(size);
    }
    Ok(())
}

// The part that varies slowest, and the others.
fn slowest<'p>(parts: &'p [Span]) -> Option<(&'p Span, &'p [Span])>
    ensures { MatchOption result (parts.now ≡ []) (λ found.
        parts.now ≡ found.0.now ∷ found.1.now) }
{
    parts.split_first()
}

// Adds the row of these fields.
fn add_front(front: &[u8], built: &mut PackedBuilder) -> Result<(), AllocError>
    requires front { IsBegun front.now }
    requires none_begun { built.old.begun ≡ [] }
    ensures { (fields : List Tree) → Begins front.now fields
        → OnOk result (built.new ≡ and_rows (fields ∷ []) built.old) }
{
    built.write(front)?;
    end_fields(built)
}

// Adds the fields of an entry's row to those of the front.
fn add_inner(entries: &Merged, at: usize, front: &mut Vec<u8>) -> Result<(), AllocError>
    requires { at < length entries.now.entries }
    ensures { (e : Entry) → slice_get entries.now.entries at ≡ Some e
        → OnOk result (front.new.items ≡ front.old.items ++ inner_code e.row) }
{
    front.extend_from_slice(inner(entries.lend(at).row))?;
    Ok(())
}

// The fields within the code of a row.
pub(crate) fn inner(code: &[u8]) -> &[u8]
    ensures { (row : List Tree) → code.now ≡ row_code row → result.now ≡ inner_code row }
{
    match code {
        [_, fields @ .., _] => fields,
        _ => &[],
    }
}
