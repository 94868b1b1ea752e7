ghost use Rattle.std.specs.Prelude.{◌≡◌, map};
ghost use Rattle.pig_typed.specs.Typed.{block_typed, item_typed, step_typed, typed};
ghost use Rattle.pig_share.specs.Same.{same_all, same_block, same_dir, same_expr, same_item, same_key, same_step};

use crate::exprs::{is_same_bool, is_same_expr};
use pig_typed::{Block, BlockItem, BlockStep, SortKey, TExpr};
use pig_value::Dir;

// Whether two blocks are the same.
pub fn is_same_block(a: &Block, b: &Block) -> bool
    ensures { result ≡ same_block (block_typed a.now) (block_typed b.now) }
{
    are_same_steps(a.steps.as_slice(), b.steps.as_slice())
        && are_same_items(a.items.as_slice(), b.items.as_slice())
}

fn are_same_steps(a: &[BlockStep], b: &[BlockStep]) -> bool
    ensures { result ≡ same_all same_step (map step_typed a.now) (map step_typed b.now) }
{
    let mut left = a;
    let mut other = b;
    while let [x, xs @ ..] = left {
        let [y, ys @ ..] = other else {
            return false;
        };
        if !is_same_step(x, y) {
            return false;
        }
        left = xs;
        other = ys;
    }
    other.is_empty()
}

fn is_same_step(a: &BlockStep, b: &BlockStep) -> bool
    ensures { result ≡ same_step (step_typed a.now) (step_typed b.now) }
{
    match (a, b) {
        (BlockStep::Filter { from: a, cond: c }, BlockStep::Filter { from: b, cond: d }) => {
            is_same_expr(a, b) && is_same_expr(c, d)
        }
        (BlockStep::Order { from: a, keys: k }, BlockStep::Order { from: b, keys: l }) => {
            is_same_expr(a, b) && are_same_sort_keys(k.as_slice(), l.as_slice())
        }
        (BlockStep::Limit { from: a, count: m }, BlockStep::Limit { from: b, count: n }) => {
            is_same_expr(a, b) && *m == *n
        }
        (BlockStep::Distinct { from: a }, BlockStep::Distinct { from: b }) => is_same_expr(a, b),
        (BlockStep::Take { from: a }, BlockStep::Take { from: b }) => is_same_expr(a, b),
        _ => false,
    }
}

fn are_same_items(a: &[BlockItem], b: &[BlockItem]) -> bool
    ensures { result ≡ same_all same_item (map item_typed a.now) (map item_typed b.now) }
{
    let mut left = a;
    let mut other = b;
    while let [x, xs @ ..] = left {
        let [y, ys @ ..] = other else {
            return false;
        };
        if !is_same_item(x, y) {
            return false;
        }
        left = xs;
        other = ys;
    }
    other.is_empty()
}

fn is_same_item(a: &BlockItem, b: &BlockItem) -> bool
    ensures { result ≡ same_item (item_typed a.now) (item_typed b.now) }
{
    is_same_expr(&a.value, &b.value) && (is_same_bool(a.flatten, b.flatten) && a.width == b.width)
}

// Whether two lists of keys are the same.
pub fn are_same_keys(a: &[TExpr], b: &[TExpr]) -> bool
    ensures { result ≡ same_all same_expr (map typed a.now) (map typed b.now) }
{
    let mut left = a;
    let mut other = b;
    while let [x, xs @ ..] = left {
        let [y, ys @ ..] = other else {
            return false;
        };
        if !is_same_expr(x, y) {
            return false;
        }
        left = xs;
        other = ys;
    }
    other.is_empty()
}

// Whether two lists of sort keys are the same.
pub fn are_same_sort_keys(a: &[SortKey], b: &[SortKey]) -> bool
    ensures { result ≡ same_all same_key a.now b.now }
{
    let mut left = a;
    let mut other = b;
    while let [x, xs @ ..] = left {
        let [y, ys @ ..] = other else {
            return false;
        };
        if !is_same_key(*x, *y) {
            return false;
        }
        left = xs;
        other = ys;
    }
    other.is_empty()
}

fn is_same_key(a: SortKey, b: SortKey) -> bool
    ensures { result ≡ same_key a b }
{
    a.position == b.position && is_same_dir(a.dir, b.dir)
}

fn is_same_dir(a: Dir, b: Dir) -> bool
    ensures { result ≡ same_dir a b }
{
    match (a, b) {
        (Dir::Asc, Dir::Asc) => true,
        (Dir::Desc, Dir::Desc) => true,
        _ => false,
    }
}
