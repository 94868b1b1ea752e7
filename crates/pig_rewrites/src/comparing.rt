ghost use Rattle.std.specs.Prelude.{◌≡◌, IsTrue, false, map, IfOk};
ghost use Rattle.pig_plan.specs.Nodes.{lists as lists_op};
ghost use Rattle.pig_plan.specs.Plans.{op_of, plan_of};
ghost use Rattle.pig_plan.specs.Results.{at_place};
ghost use Rattle.pig_reach.specs.Reach.{live_paths};
ghost use Rattle.pig_rewrites.specs.Ends.{end_of, ends_of, list_marks, marks_over};

use pig_plan::{Node, NodeOp, Plan, is_marked, sorted_marks};
use pig_reach::{Store, live_paths, stores};
use pig_value::{Delim, Text};
use std::alloc::{AllocError, Global};

// Whether two plans have the same STOREs in turn, but for where their relations stand, and read
// the same inputs.
pub fn show_alike(alloc: Global, plan: &Plan, other: &Plan) -> Result<bool, AllocError>
    ensures ends { IfOk result (λ same. IsTrue same
        → ends_of (plan_of other.now) ≡ ends_of (plan_of plan.now)) }
    ensures paths { IfOk result (λ same. IsTrue same
        → live_paths (plan_of other.now) ≡ live_paths (plan_of plan.now)) }
{
    if !have_same_paths(alloc, plan, other)? {
        return Ok(false);
    }
    have_same_ends(alloc, plan, other)
}

fn have_same_paths(alloc: Global, plan: &Plan, other: &Plan) -> Result<bool, AllocError>
    ensures { IfOk result (λ same. IsTrue same
        → live_paths (plan_of other.now) ≡ live_paths (plan_of plan.now)) }
{
    let paths = live_paths(alloc, plan)?;
    let others = live_paths(alloc, other)?;
    Ok(are_same_texts(paths.as_slice(), others.as_slice()))
}

fn have_same_ends(alloc: Global, plan: &Plan, other: &Plan) -> Result<bool, AllocError>
    ensures { IfOk result (λ same. IsTrue same
        → ends_of (plan_of other.now) ≡ ends_of (plan_of plan.now)) }
{
    let listed = list_marks(alloc, plan)?;
    let others_listed = list_marks(alloc, other)?;
    let stores_there = stores(alloc, plan)?;
    let others_there = stores(alloc, other)?;
    Ok(are_same_ends(
        stores_there.as_slice(),
        listed.as_slice(),
        others_there.as_slice(),
        others_listed.as_slice(),
    ))
}

fn are_same_texts(texts: &[Text], others: &[Text]) -> bool
    ensures { IsTrue result → others.now ≡ texts.now }
{
    let mut left = texts;
    let mut others_left = others;
    while let [text, rest @ ..] = left {
        let [other, others_rest @ ..] = others_left else {
            return false;
        };
        if !is_same_text(text, other) {
            return false;
        }
        left = rest;
        others_left = others_rest;
    }
    others_left.is_empty()
}

fn are_same_ends(
    stores: &[Store],
    listed: &[bool],
    others: &[Store],
    others_listed: &[bool],
) -> bool
    ensures { IsTrue result → map (end_of (at_place false others_listed.now)) others.now
        ≡ map (end_of (at_place false listed.now)) stores.now }
{
    let mut left = stores;
    let mut others_left = others;
    while let [store, rest @ ..] = left {
        let [other, others_rest @ ..] = others_left else {
            return false;
        };
        if !is_same_end(store, listed, other, others_listed) {
            return false;
        }
        left = rest;
        others_left = others_rest;
    }
    others_left.is_empty()
}

fn is_same_end(store: &Store, listed: &[bool], other: &Store, others_listed: &[bool]) -> bool
    ensures { IsTrue result → end_of (at_place false others_listed.now) other.now
        ≡ end_of (at_place false listed.now) store.now }
{
    if store.statement != other.statement {
        return false;
    }
    if !is_same_text(&store.dir, &other.dir) {
        return false;
    }
    if !is_same_delim(store.delim, other.delim) {
        return false;
    }
    is_same_bool(
        is_marked(listed, store.relation),
        is_marked(others_listed, other.relation),
    )
}

fn is_same_text(text: &Text, other: &Text) -> bool
    ensures { IsTrue result → other.now ≡ text.now }
{
    text.as_bytes() == other.as_bytes()
}

fn is_same_delim(delim: Delim, other: Delim) -> bool
    ensures { IsTrue result → other ≡ delim }
{
    delim.byte() == other.byte()
}

fn is_same_bool(mark: bool, other: bool) -> bool
    ensures { IsTrue result → other ≡ mark }
{
    mark == other
}

// Of each node whether it is a list.
fn list_marks(alloc: Global, plan: &Plan) -> Result<Vec<bool>, AllocError>
    ensures { IfOk result (λ marks. marks.items ≡ list_marks (plan_of plan.now)) }
{
    let nodes = plan.nodes().as_slice();
    let sorted = sorted_marks(alloc, nodes)?;
    marks_over(alloc, nodes, sorted.as_slice())
}

// Of each node whether it is a list, by which are sorted.
fn marks_over(alloc: Global, nodes: &[Node], sorted: &[bool]) -> Result<Vec<bool>, AllocError>
    ensures { IfOk result (λ marks. marks.items
        ≡ marks_over (at_place false sorted.now) (plan_of nodes.now)) }
{
    let mut listed = Vec::with_capacity(alloc, nodes.len())?;
    for node in nodes {
        let own = lists(&node.op, sorted, listed.as_slice());
        listed.push(own)?;
    }
    Ok(listed)
}

fn lists(op: &NodeOp, sorted: &[bool], listed: &[bool]) -> bool
    ensures { result
        ≡ lists_op (at_place false sorted.now) (op_of op.now) (at_place false listed.now) }
{
    match op {
        NodeOp::Order { .. } => true,
        NodeOp::Limit { input, .. } => is_marked(sorted, *input),
        NodeOp::Assert { input, .. } => is_marked(listed, *input),
        NodeOp::Load { .. }
        | NodeOp::Filter { .. }
        | NodeOp::Foreach { .. }
        | NodeOp::GroupAll { .. }
        | NodeOp::Group { .. }
        | NodeOp::Join { .. }
        | NodeOp::Union { .. }
        | NodeOp::Distinct { .. }
        | NodeOp::Store { .. }
        | NodeOp::Rank { .. } => false,
    }
}
