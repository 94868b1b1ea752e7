ghost use Rattle.std.specs.Prelude.{◌≡◌, ◌+◌, ◌<◌, ◌++◌, ◌∷◌, [], IfOk, OnOk};
ghost use Rattle.pig_plan.specs.Nodes.{live_marks as live_list};
ghost use Rattle.pig_plan.specs.Plans.{node_of, plan_of};
ghost use Rattle.pig_plan.specs.Valid.{IsPlan};
ghost use Rattle.pig_moves.specs.Pushed.{IsCleared, IsNext};

use pig_plan::{Node, Plan, copy_node, live_marks, no_rows};
use std::alloc::{AllocError, Global};

// The plan in which each node that no STORE reaches reads nothing, so that what reads a node is
// live.
pub fn cleared(alloc: Global, plan: &Plan) -> Result<Plan, AllocError>
    ensures { IfOk result (λ q. IsCleared (plan_of plan.now) (plan_of q)) }
{
    let live = live_marks(alloc, plan)?;
    let nodes = plan.nodes().as_slice();
    let mut made = Plan::empty(alloc);
    for own in 0..nodes.len() {
        let node = next_node(alloc, nodes, live.as_slice(), own)?;
        push_node(&mut made, node)?;
    }
    Ok(made)
}

// A copy of the node at a place where it is live, and else one that reads nothing.
fn next_node(alloc: Global, nodes: &[Node], live: &[bool], own: usize) -> Result<Node, AllocError>
    requires live { live.now ≡ live_list (plan_of nodes.now) }
    ensures { IfOk result (λ c. IsNext (plan_of nodes.now) own (node_of c)) }
{
    let (Some(node), Some(lives)) = (nodes.get(own), live.get(own)) else {
        return Err(AllocError);
    };
    if *lives {
        let copied = copy_node(alloc, node)?;
        return Ok(copied);
    }
    Ok(Node {
        op: no_rows(alloc)?,
        statement: node.statement,
    })
}

// Adds a node. Each one fits, since it is of the kinds that it had; that is tested and not proved.
pub fn push_node(made: &mut Plan, node: Node) -> Result<(), AllocError>
    ensures { OnOk result (plan_of made.new ≡ plan_of made.old ++ node_of node ∷ []) }
{
    if !made.fits(&node)? {
        return Err(AllocError);
    }
    made.add(node)?;
    Ok(())
}

// A plan is valid.
pub fn known_plan(plan: &Plan)
    ensures { IsPlan (plan_of plan.now) }
{
    plan.nodes();
}
