ghost use Rattle.std.specs.Prelude.{◌≡◌, [], ◌∷◌, ◌++◌, map, MatchOption, OnOk, IfOk};
ghost use Rattle.std.specs.List.{range_with_len};
ghost use Rattle.pig_value.specs.Trees.{row_tree, rows_tree};
ghost use Rattle.pig_typed.specs.Products.{product};
ghost use Rattle.pig_operators.specs.Lent.{bags_in};

use crate::groups::{bags, has_one_each, one_row};
use crate::places::Group;
use pig_value::{Rows, Seq, Tuple, copy};
use std::alloc::{AllocError, Global};

// Adds the rows of a group's inputs, joined. One row of each is joined without a copy.
pub fn add_partners(
    alloc: Global,
    group: &Group<'_>,
    inputs: usize,
    rows: &mut Rows,
) -> Result<(), AllocError>
    ensures { OnOk result (rows_tree rows.new
        ≡ rows_tree rows.old ++ product (map (bags_in group.now) (range_with_len 0 inputs))) }
{
    if has_one_each(group, inputs) {
        return rows.push(one_row(alloc, group)?);
    }
    let parts = bags(alloc, group, inputs)?;
    add_products(alloc, Tuple::new(alloc), parts.as_slice(), rows)
}

// Adds a row for each joining of the parts' rows behind these fields, the first part slowest.
fn add_products(
    alloc: Global,
    front: Tuple,
    parts: &[Rows],
    rows: &mut Rows,
) -> Result<(), AllocError>
    ensures { OnOk result (rows_tree rows.new
        ≡ rows_tree rows.old ++ map (λ more. row_tree front ++ more)
        (product (map rows_tree parts.now))) }
{
    let Some((part, rest)) = slowest(parts) else {
        return rows.push(front);
    };
    for row in part.as_slice() {
        add_products(alloc, joined(alloc, &front, row)?, rest, rows)?;
    }
    Ok(())
}

// The part that varies slowest, and the others.
fn slowest<'p>(parts: &'p [Rows]) -> Option<(&'p Rows, &'p [Rows])>
    ensures { MatchOption result (parts.now ≡ []) (λ found.
        parts.now ≡ found.0.now ∷ found.1.now) }
{
    parts.split_first()
}

// The fields of two rows, copied.
fn joined(alloc: Global, front: &Tuple, row: &Tuple) -> Result<Tuple, AllocError>
    ensures { IfOk result (λ made. made ≡ front.now ++ row.now) }
{
    let mut made = Seq::with_capacity(alloc, front.len().saturating_add(row.len()))?;
    for value in front.as_slice() {
        made.push(copy(alloc, value)?)?;
    }
    for more in row.as_slice() {
        made.push(copy(alloc, more)?)?;
    }
    Ok(made)
}
