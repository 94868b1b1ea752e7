ghost use Rattle.std.specs.Prelude.{◌≡◌, ◌<◌, ◌≤◌, ◌++◌, ◌==◌, ◌||◌, not, [], length, map, slice_get, Some, OnOk, if◌then◌else◌};
ghost use Rattle.pig_value.specs.Gathering.{Entry};
ghost use Rattle.pig_packed.specs.Growth.{and_bytes, and_row, and_rows};
ghost use Rattle.pig_plan.specs.ByKey.{keeps_left, keeps_right, nulls, outer_of};
ghost use Rattle.pig_operators.specs.Groups.{AreSides};
ghost use Rattle.pig_gather.specs.Fields.{inner_code};
ghost use Rattle.pig_gather.specs.Lent.{bags_in, key_of, rows_of};

use crate::groups::input_end;
use crate::joining::{add_partners, inner};
use crate::key_nulls::key_has_null;
use crate::lent::{Group, Stretch};
use crate::pieces::end_fields;
use pig_operators::{left_stays, right_stays};
use pig_packed::PackedBuilder;
use pig_runs::Merged;
use pig_value::Side;
use std::alloc::{AllocError, Global};

// Adds the rows of an outer JOIN of a group.
pub(crate) fn add_outer(
    alloc: Global,
    group: &Group<'_, '_>,
    side: Side,
    left: usize,
    right: usize,
    built: &mut PackedBuilder,
) -> Result<(), AllocError>
    requires none_begun { built.old.begun ≡ [] }
    ensures { OnOk result (built.new ≡ and_rows
        (outer_of side left right (key_of group.now) (bags_in group.now)) built.old) }
{
    let (middle, last) = sides(group);
    let null = key_has_null(alloc, group.entries, group.from)?;
    if have_partners(null, group.from, middle, last) {
        return add_partners(alloc, group, 2, built);
    }
    let left_rows = Stretch {
        entries: group.entries,
        from: group.from,
        end: middle,
    };
    let right_rows = Stretch {
        entries: group.entries,
        from: middle,
        end: last,
    };
    add_left(left_stays(side), &left_rows, right, built)?;
    add_right(right_stays(side), &right_rows, left, built)
}

// Where the left side's entries of a group end, and where the right side's do.
fn sides(group: &Group<'_, '_>) -> (usize, usize)
    ensures { AreSides group.now.entries.now group.now.from group.now.end result.0 result.1 }
{
    group.entries.len();
    let middle = input_end(group.entries, group.from, group.end, 0);
    (middle, input_end(group.entries, middle, group.end, 1))
}

// Whether the rows of a group have partners.
fn have_partners(null: bool, from: usize, middle: usize, last: usize) -> bool
    ensures { result ≡ not (null || (from == middle) || (middle == last)) }
{
    !null && from != middle && middle != last
}

// Adds the rows of the left side with nulls for the right one, where they are kept.
fn add_left(
    kept: bool,
    own: &Stretch<'_, '_>,
    width: usize,
    built: &mut PackedBuilder,
) -> Result<(), AllocError>
    requires none_begun { built.old.begun ≡ [] }
    ensures { OnOk result (built.new ≡ and_rows (if kept
        then map (λ row. row ++ nulls width) (rows_of own.now) else []) built.old) }
{
    if !kept {
        return Ok(());
    }
    for at in own.from..own.end {
        add_before_nulls(own.entries, at, width, built)?;
    }
    Ok(())
}

// Adds the rows of the right side with nulls for the left one, where they are kept.
fn add_right(
    kept: bool,
    own: &Stretch<'_, '_>,
    width: usize,
    built: &mut PackedBuilder,
) -> Result<(), AllocError>
    requires none_begun { built.old.begun ≡ [] }
    ensures { OnOk result (built.new ≡ and_rows (if kept
        then map (λ row. nulls width ++ row) (rows_of own.now) else []) built.old) }
{
    if !kept {
        return Ok(());
    }
    for at in own.from..own.end {
        add_behind_nulls(own.entries, at, width, built)?;
    }
    Ok(())
}

// Adds the row of an entry with nulls behind it.
fn add_before_nulls(
    entries: &Merged,
    at: usize,
    width: usize,
    built: &mut PackedBuilder,
) -> Result<(), AllocError>
    requires within { at < length entries.now.entries }
    requires none_begun { built.old.begun ≡ [] }
    ensures { (e : Entry) → slice_get entries.now.entries at ≡ Some e
        → OnOk result (built.new ≡ and_row (e.row ++ nulls width) built.old) }
{
    entries.len();
    built.write(&[6])?;
    add_fields(entries, at, built)?;
    add_nulls(width, built)?;
    end_fields(built)
}

// Adds the row of an entry with nulls before it.
fn add_behind_nulls(
    entries: &Merged,
    at: usize,
    width: usize,
    built: &mut PackedBuilder,
) -> Result<(), AllocError>
    requires within { at < length entries.now.entries }
    requires none_begun { built.old.begun ≡ [] }
    ensures { (e : Entry) → slice_get entries.now.entries at ≡ Some e
        → OnOk result (built.new ≡ and_row (nulls width ++ e.row) built.old) }
{
    entries.len();
    built.write(&[6])?;
    add_nulls(width, built)?;
    add_fields(entries, at, built)?;
    end_fields(built)
}

// Adds the fields of an entry's row to the row that is begun.
fn add_fields(entries: &Merged, at: usize, built: &mut PackedBuilder) -> Result<(), AllocError>
    requires { at < length entries.now.entries }
    ensures { (e : Entry) → slice_get entries.now.entries at ≡ Some e
        → OnOk result (built.new ≡ and_bytes (inner_code e.row) built.old) }
{
    built.write(inner(entries.lend(at).row))
}

fn add_nulls(count: usize, built: &mut PackedBuilder) -> Result<(), AllocError>
    ensures { OnOk result (built.new ≡ and_bytes (inner_code (nulls count)) built.old) }
{
    for _i in 0..count {
        built.write(&[1, 0])?;
    }
    Ok(())
}
