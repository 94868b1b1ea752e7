ghost use Rattle.std.specs.Prelude.{◌≡◌, ◌==◌, IsTrue, map};
ghost use Rattle.pig_typed.specs.Typed.{block_typed, typed};
ghost use Rattle.pig_plan.specs.Plans.{keyed_of, op_of, p_assert, p_distinct, p_filter, p_foreach, p_group, p_group_all, p_join, p_limit, p_load, p_order, p_rank, p_union};
ghost use Rattle.pig_share.specs.Same.{SaysSame, columns_of, same_all, same_keyed, same_message, same_op, same_side};

use crate::blocks::{are_same_keys, are_same_sort_keys, is_same_block};
use crate::exprs::{are_same_numbers, is_same_bool, is_same_bytes, is_same_expr};
use crate::kinds::are_same_columns;
use pig_plan::{KeyedInput, KeyedInputs, NodeOp};
use pig_typed::{Block, SortKeys, TExpr};
use pig_value::{Columns, Delim, Numbers, Side, Text};

// Whether two operators are the same; a STORE is the same as none.
pub fn is_same_op(a: &NodeOp, b: &NodeOp) -> bool
    ensures test { result ≡ same_op (op_of a.now) (op_of b.now) }
    ensures columns { IsTrue result → columns_of (op_of a.now) ≡ columns_of (op_of b.now) }
{
    match a {
        NodeOp::Load {
            path,
            delim,
            columns,
        } => is_same_load(path, *delim, columns, b),
        NodeOp::Filter { input, cond } => is_same_filter(*input, cond, b),
        NodeOp::Foreach { input, block } => is_same_foreach(*input, block, b),
        NodeOp::GroupAll { input } => is_same_group_all(*input, b),
        NodeOp::Group { inputs } => is_same_group(inputs, b),
        NodeOp::Join {
            inputs,
            side,
            replicated,
        } => is_same_join(inputs, *side, *replicated, b),
        NodeOp::Union { inputs } => is_same_union(inputs, b),
        NodeOp::Distinct { input } => is_same_distinct(*input, b),
        NodeOp::Order { input, keys } => is_same_order(*input, keys, b),
        NodeOp::Limit { input, count } => is_same_limit(*input, *count, b),
        NodeOp::Store { .. } => false,
        NodeOp::Assert {
            input,
            cond,
            message,
        } => is_same_assert(*input, cond, message, b),
        NodeOp::Rank { input, keys, dense } => is_same_rank(*input, keys, *dense, b),
    }
}

// One function for each operator: what it holds, against an operator of any form.

fn is_same_load(path: &Text, delim: Delim, columns: &Columns, other: &NodeOp) -> bool
    ensures { SaysSame (p_load path.now delim columns.now) (op_of other.now) result }
{
    match other {
        NodeOp::Load {
            path: p,
            delim: d,
            columns: c,
        } => {
            is_same_bytes(path.as_bytes(), p.as_bytes())
                && (is_same_delim(delim, *d) && are_same_columns(columns.as_slice(), c.as_slice()))
        }
        _ => false,
    }
}

fn is_same_filter(input: u32, cond: &TExpr, other: &NodeOp) -> bool
    ensures { SaysSame (p_filter input (typed cond.now)) (op_of other.now) result }
{
    match other {
        NodeOp::Filter { input: i, cond: c } => input == *i && is_same_expr(cond, c),
        _ => false,
    }
}

fn is_same_foreach(input: u32, block: &Block, other: &NodeOp) -> bool
    ensures { SaysSame (p_foreach input (block_typed block.now)) (op_of other.now) result }
{
    match other {
        NodeOp::Foreach { input: i, block: c } => input == *i && is_same_block(block, c),
        _ => false,
    }
}

fn is_same_group_all(input: u32, other: &NodeOp) -> bool
    ensures { SaysSame (p_group_all input) (op_of other.now) result }
{
    match other {
        NodeOp::GroupAll { input: i } => input == *i,
        _ => false,
    }
}

fn is_same_group(inputs: &KeyedInputs, other: &NodeOp) -> bool
    ensures { SaysSame (p_group (map keyed_of inputs.now)) (op_of other.now) result }
{
    match other {
        NodeOp::Group { inputs: i } => are_same_inputs(inputs.as_slice(), i.as_slice()),
        _ => false,
    }
}

fn is_same_join(inputs: &KeyedInputs, side: Side, replicated: bool, other: &NodeOp) -> bool
    ensures { SaysSame (p_join (map keyed_of inputs.now) side replicated) (op_of other.now) result }
{
    match other {
        NodeOp::Join {
            inputs: i,
            side: s,
            replicated: r,
        } => {
            is_same_side(side, *s)
                && (is_same_bool(replicated, *r)
                    && are_same_inputs(inputs.as_slice(), i.as_slice()))
        }
        _ => false,
    }
}

fn is_same_union(inputs: &Numbers, other: &NodeOp) -> bool
    ensures { SaysSame (p_union inputs.now) (op_of other.now) result }
{
    match other {
        NodeOp::Union { inputs: i } => are_same_numbers(inputs.as_slice(), i.as_slice()),
        _ => false,
    }
}

fn is_same_distinct(input: u32, other: &NodeOp) -> bool
    ensures { SaysSame (p_distinct input) (op_of other.now) result }
{
    match other {
        NodeOp::Distinct { input: i } => input == *i,
        _ => false,
    }
}

fn is_same_order(input: u32, keys: &SortKeys, other: &NodeOp) -> bool
    ensures { SaysSame (p_order input keys.now) (op_of other.now) result }
{
    match other {
        NodeOp::Order { input: i, keys: k } => {
            input == *i && are_same_sort_keys(keys.as_slice(), k.as_slice())
        }
        _ => false,
    }
}

fn is_same_limit(input: u32, count: u64, other: &NodeOp) -> bool
    ensures { SaysSame (p_limit input count) (op_of other.now) result }
{
    match other {
        NodeOp::Limit { input: i, count: c } => input == *i && count == *c,
        _ => false,
    }
}

fn is_same_assert(input: u32, cond: &TExpr, message: &Option<Text>, other: &NodeOp) -> bool
    ensures { SaysSame (p_assert input (typed cond.now) message.now) (op_of other.now) result }
{
    match other {
        NodeOp::Assert {
            input: i,
            cond: c,
            message: m,
        } => { input == *i && (is_same_expr(cond, c) && is_same_message(message, m)) }
        _ => false,
    }
}

fn is_same_rank(input: u32, keys: &SortKeys, dense: bool, other: &NodeOp) -> bool
    ensures { SaysSame (p_rank input keys.now dense) (op_of other.now) result }
{
    match other {
        NodeOp::Rank {
            input: i,
            keys: k,
            dense: d,
        } => {
            input == *i
                && (is_same_bool(dense, *d) && are_same_sort_keys(keys.as_slice(), k.as_slice()))
        }
        _ => false,
    }
}

fn is_same_delim(a: Delim, b: Delim) -> bool
    ensures { result ≡ (a == b) }
{
    a.byte() == b.byte()
}

fn is_same_message(a: &Option<Text>, b: &Option<Text>) -> bool
    ensures { result ≡ same_message a.now b.now }
{
    match (a, b) {
        (None, None) => true,
        (Some(m), Some(n)) => is_same_bytes(m.as_bytes(), n.as_bytes()),
        _ => false,
    }
}

fn are_same_inputs(a: &[KeyedInput], b: &[KeyedInput]) -> bool
    ensures { result ≡ same_all same_keyed (map keyed_of a.now) (map keyed_of b.now) }
{
    let mut left = a;
    let mut other = b;
    while let [x, xs @ ..] = left {
        let [y, ys @ ..] = other else {
            return false;
        };
        if !is_same_input(x, y) {
            return false;
        }
        left = xs;
        other = ys;
    }
    other.is_empty()
}

fn is_same_input(a: &KeyedInput, b: &KeyedInput) -> bool
    ensures { result ≡ same_keyed (keyed_of a.now) (keyed_of b.now) }
{
    a.input == b.input
        && (is_same_bool(a.inner, b.inner) && are_same_keys(a.keys.as_slice(), b.keys.as_slice()))
}

fn is_same_side(a: Side, b: Side) -> bool
    ensures { result ≡ same_side a b }
{
    match (a, b) {
        (Side::Inner, Side::Inner) => true,
        (Side::Left, Side::Left) => true,
        (Side::Right, Side::Right) => true,
        (Side::Full, Side::Full) => true,
        _ => false,
    }
}
