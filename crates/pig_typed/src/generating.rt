ghost use Rattle.std.specs.Prelude.{◌≡◌, [], ◌∷◌, map, IfOk};
ghost use Rattle.std.specs.Option.{option_map};
ghost use Rattle.pig_value.specs.Trees.{k_bag, kind_tree, kinds_of, bag_kinds};
ghost use Rattle.pig_typed.specs.BlockKinds.{are_keys, bag_rows, filtered_kind, flattened_kinds, given_kinds, is_key, item_kinds, items_kinds, of_width, row_kinds, sorted_kind, step_kind, steps_kinds};
ghost use Rattle.pig_typed.specs.Typed.{block_typed, item_typed, step_typed, typed};

use crate::kinds::kind_of;
use crate::{Block, BlockItem, BlockItems, BlockStep, BlockSteps, SortKeys, TExpr};
use pig_value::{Kind, Kinds, Seq, holds_bag_or_map};
use std::alloc::{AllocError, Global};

/// The kinds of the rows that a block makes of rows of these kinds: none exactly where a step or an item has no
/// kind on such rows, a sort key is no field of its bag or holds a bag or a map, FLATTEN stands on a map, or an
/// item gives another number of fields than its `width`.
pub fn block_kinds(alloc: Global, block: &Block, row: &Kinds) -> Result<Option<Kinds>, AllocError>
    ensures { IfOk result (λ found. option_map (map kind_tree) found
        ≡ row_kinds (block_typed block.now) (map kind_tree row.now)) }
{
    let Some(locals) = of_steps(alloc, &block.steps, row)? else {
        return Ok(None);
    };
    of_items(alloc, &block.items, row, &locals)
}

// The kinds of the steps' values.
fn of_steps(alloc: Global, steps: &BlockSteps, row: &Kinds) -> Result<Option<Kinds>, AllocError>
    ensures { IfOk result (λ found. option_map (map kind_tree) found
        ≡ steps_kinds (map step_typed steps.now) (map kind_tree row.now) []) }
{
    let mut locals = Seq::new(alloc);
    for step in steps.as_slice() {
        let Some(kind) = of_step(alloc, step, row, &locals)? else {
            return Ok(None);
        };
        locals.push(kind)?;
    }
    Ok(Some(locals))
}

fn of_step(
    alloc: Global,
    step: &BlockStep,
    row: &Kinds,
    locals: &Kinds,
) -> Result<Option<Kind>, AllocError>
    ensures { IfOk result (λ found. option_map kind_tree found
        ≡ step_kind (step_typed step.now) (map kind_tree row.now) (map kind_tree locals.now)) }
{
    match step {
        BlockStep::Filter { from, cond } => match bag(alloc, from, row, locals)? {
            Some(rows) => filtered(alloc, rows, cond),
            None => Ok(None),
        },
        BlockStep::Order { from, keys } => match bag(alloc, from, row, locals)? {
            Some(rows) => Ok(sorted(rows, keys)),
            None => Ok(None),
        },
        BlockStep::Limit { from, .. } => bag_kind(alloc, from, row, locals),
        BlockStep::Distinct { from } => bag_kind(alloc, from, row, locals),
        BlockStep::Take { from } => bag_kind(alloc, from, row, locals),
    }
}

// The kinds of the rows of a bag.
fn bag(
    alloc: Global,
    from: &TExpr,
    row: &Kinds,
    locals: &Kinds,
) -> Result<Option<Kinds>, AllocError>
    ensures { IfOk result (λ found. option_map (map kind_tree) found
        ≡ bag_rows (typed from.now) (map kind_tree row.now) (map kind_tree locals.now)) }
{
    match kind_of(alloc, from, row, locals)? {
        Some(kind) => Ok(rows_of(kind)),
        None => Ok(None),
    }
}

fn rows_of(kind: Kind) -> Option<Kinds>
    ensures { option_map (map kind_tree) result ≡ bag_kinds (kind_tree kind) }
{
    kind.into_bag()
}

fn bag_kind(
    alloc: Global,
    from: &TExpr,
    row: &Kinds,
    locals: &Kinds,
) -> Result<Option<Kind>, AllocError>
    ensures { IfOk result (λ found. option_map kind_tree found
        ≡ option_map (λ rows. k_bag (kinds_of rows))
        (bag_rows (typed from.now) (map kind_tree row.now) (map kind_tree locals.now))) }
{
    match bag(alloc, from, row, locals)? {
        Some(rows) => Ok(Some(Kind::Bag(rows))),
        None => Ok(None),
    }
}

// A bag of such rows, where the condition is boolean on them.
fn filtered(alloc: Global, rows: Kinds, cond: &TExpr) -> Result<Option<Kind>, AllocError>
    ensures { IfOk result (λ found. option_map kind_tree found
        ≡ filtered_kind (typed cond.now) (map kind_tree rows)) }
{
    let kind = kind_of(alloc, cond, &rows, &Seq::new(alloc))?;
    if matches!(&kind, Some(Kind::Boolean)) {
        Ok(Some(Kind::Bag(rows)))
    } else {
        Ok(None)
    }
}

fn sorted(rows: Kinds, keys: &SortKeys) -> Option<Kind>
    ensures { option_map kind_tree result ≡ sorted_kind keys.now (map kind_tree rows) }
{
    if are_sort_keys(&rows, keys) {
        Some(Kind::Bag(rows))
    } else {
        None
    }
}

/// Whether rows of these kinds may be sorted by the keys.
pub fn are_sort_keys(kinds: &Kinds, keys: &SortKeys) -> bool
    ensures { result ≡ are_keys (map kind_tree kinds.now) keys.now }
{
    for key in keys.as_slice() {
        if !is_sort_key(kinds, key.position) {
            return false;
        }
    }
    true
}

fn is_sort_key(kinds: &Kinds, position: u32) -> bool
    ensures { result ≡ is_key (map kind_tree kinds.now) position }
{
    match kinds.get(position as usize) {
        Some(kind) => !holds_bag_or_map(kind),
        None => false,
    }
}

// The kinds of the fields that the items give.
fn of_items(
    alloc: Global,
    items: &BlockItems,
    row: &Kinds,
    locals: &Kinds,
) -> Result<Option<Kinds>, AllocError>
    ensures { IfOk result (λ found. option_map (map kind_tree) found
        ≡ items_kinds (map item_typed items.now) (map kind_tree row.now)
        (map kind_tree locals.now)) }
{
    let mut made = Seq::new(alloc);
    for item in items.as_slice() {
        let Some(kinds) = of_item(alloc, item, row, locals)? else {
            return Ok(None);
        };
        made.extend(kinds)?;
    }
    Ok(Some(made))
}

fn of_item(
    alloc: Global,
    item: &BlockItem,
    row: &Kinds,
    locals: &Kinds,
) -> Result<Option<Kinds>, AllocError>
    ensures { IfOk result (λ found. option_map (map kind_tree) found
        ≡ item_kinds (item_typed item.now) (map kind_tree row.now) (map kind_tree locals.now)) }
{
    match kind_of(alloc, &item.value, row, locals)? {
        Some(kind) => match given(alloc, kind, item.flatten)? {
            Some(kinds) => Ok(with_width(kinds, item.width)),
            None => Ok(None),
        },
        None => Ok(None),
    }
}

// The kinds of the fields that a value gives.
fn given(alloc: Global, kind: Kind, flatten: bool) -> Result<Option<Kinds>, AllocError>
    ensures { IfOk result (λ found. option_map (map kind_tree) found
        ≡ given_kinds flatten (kind_tree kind)) }
{
    if flatten {
        flattened(alloc, kind)
    } else {
        Ok(Some(single(alloc, kind)?))
    }
}

fn flattened(alloc: Global, kind: Kind) -> Result<Option<Kinds>, AllocError>
    ensures { IfOk result (λ found. option_map (map kind_tree) found
        ≡ flattened_kinds (kind_tree kind)) }
{
    match kind.into_kinds() {
        Ok(kinds) => Ok(Some(kinds)),
        Err(Kind::Map(..)) => Ok(None),
        Err(scalar) => Ok(Some(single(alloc, scalar)?)),
    }
}

fn single(alloc: Global, kind: Kind) -> Result<Kinds, AllocError>
    ensures { IfOk result (λ kinds. kinds ≡ kind ∷ []) }
{
    let mut kinds = Seq::new(alloc);
    kinds.push(kind)?;
    Ok(kinds)
}

fn with_width(kinds: Kinds, width: u32) -> Option<Kinds>
    ensures { option_map (map kind_tree) result ≡ of_width width (map kind_tree kinds) }
{
    if kinds.len() == width as usize {
        Some(kinds)
    } else {
        None
    }
}
