ghost use Rattle.std.specs.Prelude.{◌≡◌, false, IfOk, map};
ghost use Rattle.pig_plan.specs.Plans.{op_of, plan_of};
ghost use Rattle.pig_plan.specs.Results.{at_place};
ghost use Rattle.pig_plan.specs.Valid.{in_order};
ghost use Rattle.pig_share.specs.Shared.{is_apart};
ghost use Rattle.pig_share.specs.Table.{apart_list};

use pig_plan::{Node, NodeOp, is_marked, sorted_marks};
use std::alloc::{AllocError, Global};

// Of each node whether it stays apart.
pub fn apart_nodes(alloc: Global, nodes: &[Node]) -> Result<Vec<bool>, AllocError>
    ensures { IfOk result (λ apart. apart.items ≡ apart_list (plan_of nodes.now)) }
{
    let ordered = stand_in_order(nodes);
    let sorted = sorted_marks(alloc, nodes)?;
    let apart = apart_among(alloc, nodes, ordered, sorted.as_slice())?;
    Ok(apart)
}

fn apart_among(
    alloc: Global,
    nodes: &[Node],
    ordered: bool,
    sorted: &[bool],
) -> Result<Vec<bool>, AllocError>
    ensures { IfOk result (λ apart. apart.items
        ≡ map (λ node. is_apart ordered (at_place false sorted.now) node.op)
        (plan_of nodes.now)) }
{
    let mut apart = Vec::with_capacity(alloc, nodes.len())?;
    for node in nodes {
        apart.push(stays_apart(&node.op, ordered, sorted))?;
    }
    Ok(apart)
}

// Whether no node has an earlier statement than one before it.
fn stand_in_order(nodes: &[Node]) -> bool
    ensures { result ≡ in_order (plan_of nodes.now) }
{
    let mut latest = 0;
    for node in nodes {
        if node.statement < latest {
            return false;
        }
        latest = node.statement;
    }
    true
}

// Whether an operator stays apart: a LIMIT on no sorted node, a STORE, an ASSERT among nodes that are not in order.
fn stays_apart(op: &NodeOp, ordered: bool, sorted: &[bool]) -> bool
    ensures { result ≡ is_apart ordered (at_place false sorted.now) (op_of op.now) }
{
    match op {
        NodeOp::Limit { input, .. } => !is_marked(sorted, *input),
        NodeOp::Store { .. } => true,
        NodeOp::Assert { .. } => !ordered,
        _ => false,
    }
}
