ghost use Rattle.std.specs.Prelude.{◌≡◌, ◌≤◌, ◌++◌, [], ◌∷◌, length, map, take, IfOk, OnOk};
ghost use Rattle.std.specs.List.{filter};
ghost use Rattle.pig_value.specs.Sorts.{distinct, sort};
ghost use Rattle.pig_value.specs.Orders.{row_cmp};
ghost use Rattle.pig_value.specs.Trees.{row_tree, rows_tree, tree, tuples_of, v_bag, v_listed};
ghost use Rattle.pig_typed.specs.Blocks.{from_rows, keys_cmp, on_rows, step_value, steps_values};
ghost use Rattle.pig_typed.specs.Evaluation.{passes};
ghost use Rattle.pig_typed.specs.Typed.{step_typed, typed};
ghost use Rattle.pig_eval.specs.SeenValues.{seen_tree};

use crate::distinct::{copied_once, distinct_rows};
use crate::sorting::sort_by_keys;
use pig_eval::{Seen, eval, holds, look, value};
use pig_typed::{BlockStep, BlockSteps, SortKeys, TExpr};
use pig_value::{Rows, Seq, Tuple, Value, copy_row};
use std::alloc::{AllocError, Global};

// The values of a block's steps on a row, each on the values of the steps before it.
pub fn values_of_steps(alloc: Global, steps: &BlockSteps, row: &Tuple) -> Result<Tuple, AllocError>
    ensures { IfOk result (λ made. row_tree made
        ≡ steps_values (map step_typed steps.now) (row_tree row.now) []) }
{
    let mut locals = Seq::new(alloc);
    for step in steps.as_slice() {
        let made = value_of_step(alloc, step, row, &locals)?;
        locals.push(made)?;
    }
    Ok(locals)
}

fn value_of_step(
    alloc: Global,
    step: &BlockStep,
    row: &Tuple,
    locals: &Tuple,
) -> Result<Value, AllocError>
    ensures { IfOk result (λ v. tree v
        ≡ step_value (step_typed step.now) (row_tree row.now) (row_tree locals.now)) }
{
    match step {
        BlockStep::Filter { from, cond } => {
            let from = look(alloc, from, row, locals)?;
            filtered(alloc, value(&from), cond)
        }
        BlockStep::Order { from, keys } => {
            let from = eval(alloc, from, row, locals)?;
            Ok(ordered(from, keys))
        }
        BlockStep::Limit { from, count } => {
            let from = look(alloc, from, row, locals)?;
            limited(alloc, value(&from), *count)
        }
        BlockStep::Distinct { from } => {
            let from = look(alloc, from, row, locals)?;
            reduced(alloc, from)
        }
        BlockStep::Take { from } => eval(alloc, from, row, locals),
    }
}

// FILTER, which keeps the form of its bag.
fn filtered(alloc: Global, from: &Value, cond: &TExpr) -> Result<Value, AllocError>
    ensures { IfOk result (λ v. tree v
        ≡ on_rows (filter (passes (typed cond.now))) (tree from.now)) }
{
    match from {
        Value::Bag(rows) => filtered_bag(alloc, rows, cond),
        Value::Listed(rows) => filtered_listed(alloc, rows, cond),
        _ => Ok(Value::Null),
    }
}

fn filtered_bag(alloc: Global, rows: &Rows, cond: &TExpr) -> Result<Value, AllocError>
    ensures { IfOk result (λ v. tree v
        ≡ v_bag (tuples_of (filter (passes (typed cond.now)) (rows_tree rows.now)))) }
{
    let kept = passing(alloc, rows, cond)?;
    Ok(sorted_bag(kept))
}

fn filtered_listed(alloc: Global, rows: &Rows, cond: &TExpr) -> Result<Value, AllocError>
    ensures { IfOk result (λ v. tree v
        ≡ v_listed (tuples_of (filter (passes (typed cond.now)) (rows_tree rows.now)))) }
{
    let kept = passing(alloc, rows, cond)?;
    Ok(listed_bag(kept))
}

// The rows as they are, as a bag.
#[tactic(auto, using(crate::proofs::Forms::bag_is))]
fn sorted_bag(rows: Rows) -> Value
    ensures { tree result ≡ v_bag (tuples_of (rows_tree rows)) }
{
    Value::Bag(rows)
}

// The rows in their order, which the bag keeps.
#[tactic(auto, using(crate::proofs::Forms::listed_is))]
fn listed_bag(rows: Rows) -> Value
    ensures { tree result ≡ v_listed (tuples_of (rows_tree rows)) }
{
    Value::Listed(rows)
}

fn passing(alloc: Global, rows: &Rows, cond: &TExpr) -> Result<Rows, AllocError>
    ensures { IfOk result (λ kept. rows_tree kept
        ≡ filter (passes (typed cond.now)) (rows_tree rows.now)) }
{
    let mut kept = Seq::new(alloc);
    for row in rows.as_slice() {
        keep_row(alloc, &mut kept, row, cond)?;
    }
    Ok(kept)
}

// Adds a copy of the row, where it meets the condition.
fn keep_row(alloc: Global, kept: &mut Rows, row: &Tuple, cond: &TExpr) -> Result<(), AllocError>
    ensures { OnOk result (rows_tree kept.new
        ≡ rows_tree kept.old ++ filter (passes (typed cond.now)) (row_tree row.now ∷ [])) }
{
    if !holds(alloc, cond, row)? {
        return Ok(());
    }
    kept.push(copy_row(alloc, row)?)
}

// ORDER, which gives a listed bag.
fn ordered(from: Value, keys: &SortKeys) -> Value
    ensures { tree result
        ≡ from_rows (λ rows. v_listed (tuples_of (sort (keys_cmp keys.now) rows))) (tree from) }
{
    match from.into_rows() {
        Ok(rows) => ordered_rows(rows, keys),
        Err(_) => Value::Null,
    }
}

fn ordered_rows(rows: Rows, keys: &SortKeys) -> Value
    ensures { tree result ≡ v_listed (tuples_of (sort (keys_cmp keys.now) (rows_tree rows))) }
{
    let sorted = sort_by_keys(rows, keys);
    listed_bag(sorted)
}

// LIMIT, which keeps the form of its bag.
fn limited(alloc: Global, from: &Value, count: u64) -> Result<Value, AllocError>
    ensures { IfOk result (λ v. tree v ≡ on_rows (take count) (tree from.now)) }
{
    match from {
        Value::Bag(rows) => Ok(Value::Bag(first(alloc, rows, count)?)),
        Value::Listed(rows) => Ok(Value::Listed(first(alloc, rows, count)?)),
        _ => Ok(Value::Null),
    }
}

fn first(alloc: Global, rows: &Rows, count: u64) -> Result<Rows, AllocError>
    ensures { IfOk result (λ kept. rows_tree kept ≡ take count (rows_tree rows.now)) }
{
    let rows = rows.as_slice();
    let end = rows.len().min(count as usize);
    copied(alloc, front(rows, end))
}

fn front(rows: &[Tuple], end: usize) -> &[Tuple]
    requires { end ≤ length rows.now }
    ensures { result.now ≡ take end rows.now }
{
    &rows[..end]
}

// DISTINCT, which gives a bag.
fn reduced(alloc: Global, from: Seen) -> Result<Value, AllocError>
    ensures { IfOk result (λ v. tree v
        ≡ from_rows (λ rows. v_bag (tuples_of (distinct row_cmp rows))) (seen_tree from.entry)) }
{
    match from.into_made() {
        Ok(v) => Ok(reduced_made(v)),
        Err(v) => reduced_lent(alloc, v),
    }
}

fn reduced_lent(alloc: Global, from: &Value) -> Result<Value, AllocError>
    ensures { IfOk result (λ v. tree v
        ≡ from_rows (λ rows. v_bag (tuples_of (distinct row_cmp rows))) (tree from.now)) }
{
    match from {
        Value::Bag(rows) => Ok(Value::Bag(copied_once(alloc, rows)?)),
        Value::Listed(rows) => Ok(Value::Bag(copied_once(alloc, rows)?)),
        _ => Ok(Value::Null),
    }
}

fn reduced_made(from: Value) -> Value
    ensures { tree result
        ≡ from_rows (λ rows. v_bag (tuples_of (distinct row_cmp rows))) (tree from) }
{
    match from.into_rows() {
        Ok(rows) => Value::Bag(distinct_rows(rows)),
        Err(_) => Value::Null,
    }
}

// Copies of rows, in order.
fn copied(alloc: Global, rows: &[Tuple]) -> Result<Rows, AllocError>
    ensures { IfOk result (λ made. made ≡ rows.now) }
{
    let mut made = Vec::with_capacity(alloc, rows.len())?;
    for row in rows {
        made.push(copy_row(alloc, row)?)?;
    }
    Ok(Seq::from_vec(made))
}
