ghost use Rattle.std.specs.Prelude.{◌≡◌, map, not, IfOk};
ghost use Rattle.std.specs.Option.{option_map};
ghost use Rattle.std.specs.List.{list_all};
ghost use Rattle.pig_value.specs.Trees.{kind_tree};
ghost use Rattle.pig_typed.specs.Typed.{block_typed, typed};
ghost use Rattle.pig_plan.specs.Given.{before_of, kinds_of_given};
ghost use Rattle.pig_plan.specs.NodeKinds.{are_all_alike, foreach_gives, group_all_gives, group_gives, is_join, join_gives, load_gives};
ghost use Rattle.pig_plan.specs.NodeKinds.{node_gives, order_gives, rank_gives, store_gives, tested_gives, union_gives};
ghost use Rattle.pig_plan.specs.Plans.{keyed_of, op_of};

use crate::given::{
    Given, column_kinds, columns_ascend, is_condition, rows_before, rows_of, same_rows, sorts_by,
};
use crate::keyed::{group_row, joined_row, keyed_rows};
use crate::{KeyedInput, KeyedInputs, NodeOp};
use pig_typed::{Block, SortKeys, TExpr, block_kinds};
use pig_value::{Columns, Kind, Kinds, Numbers, Side, copy_kind, copy_kinds, same_kinds};
use std::alloc::{AllocError, Global};

// What a node gives behind these, or None where it is not valid there as to its inputs and kinds.
pub fn given(alloc: Global, before: &[Given], op: &NodeOp) -> Result<Option<Given>, AllocError>
    ensures { IfOk result (λ g. option_map kinds_of_given g
        ≡ node_gives (before_of before.now) (op_of op.now)) }
{
    match op {
        NodeOp::Load { columns, .. } => load(alloc, columns),
        NodeOp::Filter { input, cond } => tested(alloc, before, *input, cond),
        NodeOp::Foreach { input, block } => foreach(alloc, before, *input, block),
        NodeOp::GroupAll { input } => group_all(alloc, before, *input),
        NodeOp::Group { inputs } => group(alloc, before, inputs),
        NodeOp::Join {
            inputs,
            side,
            replicated,
        } => join(alloc, before, inputs, *side, *replicated),
        NodeOp::Union { inputs } => union(before, inputs),
        NodeOp::Distinct { input } => same_rows(before, *input),
        NodeOp::Order { input, keys } => order(before, *input, keys),
        NodeOp::Limit { input, .. } => same_rows(before, *input),
        NodeOp::Store { input, .. } => Ok(store(before, *input)),
        NodeOp::Assert { input, cond, .. } => tested(alloc, before, *input, cond),
        NodeOp::Rank { input, keys, .. } => rank(alloc, before, *input, keys),
    }
}

fn load(alloc: Global, columns: &Columns) -> Result<Option<Given>, AllocError>
    ensures { IfOk result (λ g. option_map kinds_of_given g ≡ load_gives columns.now) }
{
    if !columns_ascend(columns.as_slice()) {
        return Ok(None);
    }
    let kinds = column_kinds(alloc, columns.as_slice())?;
    rows_of(alloc, kinds)
}

fn tested(
    alloc: Global,
    before: &[Given],
    input: u32,
    cond: &TExpr,
) -> Result<Option<Given>, AllocError>
    ensures { IfOk result (λ g. option_map kinds_of_given g
        ≡ tested_gives (before_of before.now) input (typed cond.now)) }
{
    let Some(row) = rows_before(before, input) else {
        return Ok(None);
    };
    if !is_condition(alloc, row, cond)? {
        return Ok(None);
    }
    same_rows(before, input)
}

fn foreach(
    alloc: Global,
    before: &[Given],
    input: u32,
    block: &Block,
) -> Result<Option<Given>, AllocError>
    ensures { IfOk result (λ g. option_map kinds_of_given g
        ≡ foreach_gives (before_of before.now) input (block_typed block.now)) }
{
    let Some(row) = rows_before(before, input) else {
        return Ok(None);
    };
    let Some(kinds) = block_kinds(alloc, block, row)? else {
        return Ok(None);
    };
    rows_of(alloc, kinds)
}

fn group_all(alloc: Global, before: &[Given], input: u32) -> Result<Option<Given>, AllocError>
    ensures { IfOk result (λ g. option_map kinds_of_given g
        ≡ group_all_gives (before_of before.now) input) }
{
    let Some(row) = rows_before(before, input) else {
        return Ok(None);
    };
    let mut kinds = Kinds::new(alloc);
    kinds.push(Kind::Chararray)?;
    kinds.push(Kind::Bag(copy_kinds(alloc, row.as_slice())?))?;
    rows_of(alloc, kinds)
}

fn group(alloc: Global, before: &[Given], inputs: &KeyedInputs) -> Result<Option<Given>, AllocError>
    ensures { IfOk result (λ g. option_map kinds_of_given g
        ≡ group_gives (before_of before.now) (map keyed_of inputs.now)) }
{
    let Some(found) = keyed_rows(alloc, before, inputs)? else {
        return Ok(None);
    };
    let row = group_row(alloc, found.as_slice())?;
    rows_of(alloc, row)
}

fn join(
    alloc: Global,
    before: &[Given],
    inputs: &KeyedInputs,
    side: Side,
    replicated: bool,
) -> Result<Option<Given>, AllocError>
    ensures { IfOk result (λ g. option_map kinds_of_given g
        ≡ join_gives (before_of before.now) (map keyed_of inputs.now) side replicated) }
{
    let Some(found) = keyed_rows(alloc, before, inputs)? else {
        return Ok(None);
    };
    let joins = is_side(side, replicated, found.len()) && none_is_inner(inputs.as_slice());
    if !joins {
        return Ok(None);
    }
    let row = joined_row(alloc, found.as_slice())?;
    rows_of(alloc, row)
}

// Whether so many inputs may be joined so: a side other than INNER has just two, and a replicated join is INNER or LEFT.
fn is_side(side: Side, replicated: bool, inputs: usize) -> bool
    ensures { result ≡ is_join side replicated inputs }
{
    match side {
        Side::Inner => 2 <= inputs,
        Side::Left => inputs == 2,
        Side::Right | Side::Full => inputs == 2 && !replicated,
    }
}

fn none_is_inner(inputs: &[KeyedInput]) -> bool
    ensures { result ≡ list_all (λ input. not input.inner) (map keyed_of inputs.now) }
{
    let mut left = inputs;
    while let [input, rest @ ..] = left {
        if input.inner {
            return false;
        }
        left = rest;
    }
    true
}

// The rows of a UNION are of the kinds of its first input's.
fn union(before: &[Given], inputs: &Numbers) -> Result<Option<Given>, AllocError>
    ensures { IfOk result (λ g. option_map kinds_of_given g
        ≡ union_gives (before_of before.now) inputs.now) }
{
    let [first, others @ ..] = inputs.as_slice() else {
        return Ok(None);
    };
    let Some(row) = rows_before(before, *first) else {
        return Ok(None);
    };
    let united = !others.is_empty() && all_alike(before, row, others);
    if !united {
        return Ok(None);
    }
    same_rows(before, *first)
}

// Whether each of these nodes is a relation, of rows of these kinds.
fn all_alike(before: &[Given], row: &Kinds, others: &[u32]) -> bool
    ensures { result ≡ are_all_alike (before_of before.now) (map kind_tree row.now) others.now }
{
    let mut left = others;
    while let [other, rest @ ..] = left {
        let Some(found) = rows_before(before, *other) else {
            return false;
        };
        if !same_kinds(row.as_slice(), found.as_slice()) {
            return false;
        }
        left = rest;
    }
    true
}

fn order(before: &[Given], input: u32, keys: &SortKeys) -> Result<Option<Given>, AllocError>
    ensures { IfOk result (λ g. option_map kinds_of_given g
        ≡ order_gives (before_of before.now) input keys.now) }
{
    let Some(row) = rows_before(before, input) else {
        return Ok(None);
    };
    if !sorts_by(row, keys) {
        return Ok(None);
    }
    same_rows(before, input)
}

fn store(before: &[Given], input: u32) -> Option<Given>
    ensures { option_map kinds_of_given result ≡ store_gives (before_of before.now) input }
{
    match rows_before(before, input) {
        Some(_) => Some(Given::Nothing),
        None => None,
    }
}

fn rank(
    alloc: Global,
    before: &[Given],
    input: u32,
    keys: &SortKeys,
) -> Result<Option<Given>, AllocError>
    ensures { IfOk result (λ g. option_map kinds_of_given g
        ≡ rank_gives (before_of before.now) input keys.now) }
{
    let Some(row) = rows_before(before, input) else {
        return Ok(None);
    };
    if !sorts_by(row, keys) {
        return Ok(None);
    }
    let mut kinds = Vec::with_capacity(alloc, row.len().saturating_add(1))?;
    kinds.push(Kind::Long)?;
    for kind in row.as_slice() {
        kinds.push(copy_kind(alloc, kind)?)?;
    }
    rows_of(alloc, Kinds::from_vec(kinds))
}
