ghost use Rattle.std.specs.Prelude.{◌≡◌, ◌≤◌, ◌++◌, ◌==◌, ◌||◌, not, [], length, map, OnOk, if◌then◌else◌};
ghost use Rattle.pig_value.specs.Trees.{row_tree, rows_tree, tree};
ghost use Rattle.pig_plan.specs.ByKey.{holds_null, keeps_left, keeps_right, nulls, outer_of};
ghost use Rattle.pig_operators.specs.Groups.{AreSides};
ghost use Rattle.pig_operators.specs.Lent.{bags_in, rows_in};

use crate::groups::input_end;
use crate::joining::add_partners;
use crate::nulls::has_null;
use crate::places::{Group, Stretch};
use pig_value::{Rows, Side, Tuple, Value};
use std::alloc::{AllocError, Global};

// Adds the rows of an outer JOIN of a group.
pub fn add_outer(
    alloc: Global,
    key: &Value,
    group: &Group<'_>,
    side: Side,
    left: usize,
    right: usize,
    rows: &mut Rows,
) -> Result<(), AllocError>
    ensures { OnOk result (rows_tree rows.new
        ≡ rows_tree rows.old
        ++ outer_of side left right (tree key.now) (bags_in group.now)) }
{
    let (middle, last) = sides(group);
    if have_partners(key, group.from, middle, last) {
        return add_partners(alloc, group, 2, rows);
    }
    let left_rows = Stretch {
        run: group.run,
        from: group.from,
        end: middle,
    };
    let right_rows = Stretch {
        run: group.run,
        from: middle,
        end: last,
    };
    add_left(alloc, left_stays(side), &left_rows, right, rows)?;
    add_right(alloc, right_stays(side), &right_rows, left, rows)
}

// Where the left side's entries of a group end, and where the right side's do.
fn sides(group: &Group<'_>) -> (usize, usize)
    ensures { AreSides group.now.run.now group.now.from group.now.end result.0 result.1 }
{
    let middle = input_end(group.run, group.from, group.end, 0);
    (middle, input_end(group.run, middle, group.end, 1))
}

// Whether the rows of a group have partners.
fn have_partners(key: &Value, from: usize, middle: usize, last: usize) -> bool
    ensures { result ≡ not (holds_null (tree key.now) || (from == middle) || (middle == last)) }
{
    !has_null(key) && from != middle && middle != last
}

/// Whether rows of the left side stand without a partner.
pub fn left_stays(side: Side) -> bool
    ensures { result ≡ keeps_left side }
{
    match side {
        Side::Left | Side::Full => true,
        Side::Inner | Side::Right => false,
    }
}

/// Whether rows of the right side stand without a partner.
pub fn right_stays(side: Side) -> bool
    ensures { result ≡ keeps_right side }
{
    match side {
        Side::Right | Side::Full => true,
        Side::Inner | Side::Left => false,
    }
}

// Adds the rows of the left side with nulls for the right one, where they are kept.
fn add_left(
    alloc: Global,
    kept: bool,
    own: &Stretch<'_>,
    width: usize,
    rows: &mut Rows,
) -> Result<(), AllocError>
    ensures { OnOk result (rows_tree rows.new
        ≡ rows_tree rows.old
        ++ (if kept then map (λ row. row ++ nulls width) (rows_in own.now) else [])) }
{
    if !kept {
        return Ok(());
    }
    for at in own.from..own.end {
        let mut row = own.run.row(alloc, at)?;
        add_nulls(&mut row, width)?;
        rows.push(row)?;
    }
    Ok(())
}

// Adds the rows of the right side with nulls for the left one, where they are kept.
fn add_right(
    alloc: Global,
    kept: bool,
    own: &Stretch<'_>,
    width: usize,
    rows: &mut Rows,
) -> Result<(), AllocError>
    ensures { OnOk result (rows_tree rows.new
        ≡ rows_tree rows.old
        ++ (if kept then map (λ row. nulls width ++ row) (rows_in own.now) else [])) }
{
    if !kept {
        return Ok(());
    }
    for at in own.from..own.end {
        let mut row = Tuple::new(alloc);
        add_nulls(&mut row, width)?;
        row.extend(own.run.row(alloc, at)?)?;
        rows.push(row)?;
    }
    Ok(())
}

fn add_nulls(row: &mut Tuple, count: usize) -> Result<(), AllocError>
    ensures { OnOk result (row_tree row.new ≡ row_tree row.old ++ nulls count) }
{
    for _i in 0..count {
        row.push(Value::Null)?;
    }
    Ok(())
}
