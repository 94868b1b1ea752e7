ghost use Rattle.std.specs.Prelude.{◌≡◌, false, IfOk};
ghost use Rattle.pig_plan.specs.Nodes.{sorted_marks, sorts as sorts_op};
ghost use Rattle.pig_plan.specs.Plans.{op_of, plan_of};
ghost use Rattle.pig_plan.specs.Results.{at_place};

use crate::{Node, NodeOp};
use std::alloc::{AllocError, Global};

/// Of each node, in order, whether it is sorted: an ORDER, or an ASSERT on a sorted node.
pub fn sorted_marks(alloc: Global, nodes: &[Node]) -> Result<Vec<bool>, AllocError>
    ensures { IfOk result (λ marks. marks.items ≡ sorted_marks (plan_of nodes.now)) }
{
    let mut marks = Vec::with_capacity(alloc, nodes.len())?;
    for node in nodes {
        let own = sorts(&node.op, marks.as_slice());
        marks.push(own)?;
    }
    Ok(marks)
}

fn sorts(op: &NodeOp, marks: &[bool]) -> bool
    ensures { result ≡ sorts_op (op_of op.now) (at_place false marks.now) }
{
    match op {
        NodeOp::Order { .. } => true,
        NodeOp::Assert { input, .. } => is_marked(marks, *input),
        NodeOp::Load { .. }
        | NodeOp::Filter { .. }
        | NodeOp::Foreach { .. }
        | NodeOp::GroupAll { .. }
        | NodeOp::Group { .. }
        | NodeOp::Join { .. }
        | NodeOp::Union { .. }
        | NodeOp::Distinct { .. }
        | NodeOp::Limit { .. }
        | NodeOp::Store { .. }
        | NodeOp::Rank { .. } => false,
    }
}

/// Whether the node of this number is marked; one that is not among them is not.
pub fn is_marked(marks: &[bool], number: u32) -> bool
    ensures { result ≡ at_place false marks.now number }
{
    match marks.get(number as usize) {
        Some(mark) => *mark,
        None => false,
    }
}
