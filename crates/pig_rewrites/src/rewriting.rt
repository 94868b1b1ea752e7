ghost use Rattle.std.specs.Prelude.{◌≡◌, ◌++◌, ◌∷◌, [], true, IfOk, OnOk};
ghost use Rattle.pig_plan.specs.Plans.{node_of, plan_of};
ghost use Rattle.pig_plan.specs.Valid.{IsPlan, in_order};
ghost use Rattle.pig_reach.specs.Reach.{stores_of};
ghost use Rattle.pig_rewrites.specs.Alike.{RunsAlike, are_apart};
ghost use Rattle.pig_rewrites.specs.Reached.{IsReached};

use crate::comparing::show_alike;
use pig_plan::{Node, Plan, copy_node};
use pig_prune::prune;
use pig_push::push;
use pig_share::share;
use std::alloc::{AllocError, Global};

/// The plan that is cut into tasks: nodes that do the same become one, conditions move towards the
/// sources, and what nothing needs goes. A run of it does what a run of the plan does. The plan is one
/// of a script: no two STOREs have one directory, and nodes stand in the order of the statements. A
/// refusal is for want of memory.
pub fn rewrite(alloc: Global, plan: &Plan) -> Result<Plan, AllocError>
    requires apart { are_apart (stores_of (plan_of plan.now)) ≡ true }
    requires ordered { in_order (plan_of plan.now) ≡ true }
    ensures reached { IfOk result (λ q. IsReached (plan_of plan.now) (plan_of q)) }
    ensures alike { IfOk result (λ q. RunsAlike (plan_of plan.now) (plan_of q)) }
{
    let checked = copied(alloc, plan)?;
    let shared = share(alloc, checked)?;
    let pushed = push(alloc, shared)?;
    let pruned = prune(alloc, pushed)?;
    // No rewrite changes a STORE or what is read, so no run ends here.
    if !show_alike(alloc, plan, &pruned)? {
        return Err(AllocError);
    }
    known_plan(plan);
    known_plan(&pruned);
    Ok(pruned)
}

fn copied(alloc: Global, plan: &Plan) -> Result<Plan, AllocError>
    ensures { IfOk result (λ copy. plan_of copy ≡ plan_of plan.now) }
{
    let mut copy = Plan::empty(alloc);
    let mut left = plan.nodes().as_slice();
    while let [node, rest @ ..] = left {
        push_node(&mut copy, copy_node(alloc, node)?)?;
        left = rest;
    }
    Ok(copy)
}

// Adds a node, which fits, since the plan is valid that it comes from.
fn push_node(copy: &mut Plan, node: Node) -> Result<(), AllocError>
    ensures { OnOk result (plan_of copy.new ≡ plan_of copy.old ++ node_of node ∷ []) }
{
    if !copy.fits(&node)? {
        return Err(AllocError);
    }
    copy.add(node)?;
    Ok(())
}

// A plan is valid.
fn known_plan(plan: &Plan)
    ensures { IsPlan (plan_of plan.now) }
{
    plan.nodes();
}
