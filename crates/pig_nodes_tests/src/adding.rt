// Nodes added to a plan.
use pig_plan::{Node, NodeOp, Plan};
use std::alloc::AllocError;

/// Adds a node where it fits, and tells whether it did.
pub fn add_fitting(plan: &mut Plan, op: NodeOp, statement: u32) -> Result<bool, AllocError> {
    let node = Node { op, statement };
    let fits = plan.fits(&node)?;
    if fits {
        plan.add(node)?;
    } else {
        drop(node);
    }
    Ok(fits)
}
