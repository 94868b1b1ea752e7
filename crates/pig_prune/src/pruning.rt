ghost use Rattle.std.specs.Prelude.{◌≡◌, ◌+◌, ◌++◌, ◌∷◌, [], true, IfOk, OnOk, None, map, length};
ghost use Rattle.std.specs.List.{range_with_len};
ghost use Rattle.pig_plan.specs.Plans.{node_of, op_of, plan_of};
ghost use Rattle.pig_plan.specs.Valid.{IsPlan, fits};
ghost use Rattle.pig_cuts.specs.Cuts.{cut_at};
ghost use Rattle.pig_cuts.specs.Plans.{IsCutBy, fit_op};
ghost use Rattle.pig_covers.specs.Laws.{needed_marks};
ghost use Rattle.pig_needs.specs.Needed.{column_marks, need_of};
ghost use Rattle.pig_plan.specs.Results.{at_place};
ghost use Rattle.pig_plan.specs.Rewrites.{SameMeaning};
ghost use Rattle.pig_alive.specs.Alive.{EachLives};
ghost use Rattle.pig_prune.specs.Pruned.{IsCutTo, IsPruned, cut_step, cuts_of, marks_of};

use crate::cutting::{Cut, own_cut};
use crate::laws::pruned_plans_mean_the_same;
use crate::operators::fit_op;
use pig_alive::without_dead;
use pig_covers::needs_are_seen;
use pig_cuts::fitted_nodes_fit;
use pig_needs::{Marks, Need, NeedList, column_marks, item_marks, needs};
use pig_plan::{Node, NodeOp, Plan, copy_node};
use std::alloc::{AllocError, Global};

/// The plan without its dead nodes, in which each LOAD reads just the columns and each FOREACH makes
/// just the items that are needed, at their new positions. It means the same.
pub fn prune(alloc: Global, plan: Plan) -> Result<Plan, AllocError>
    ensures means { IfOk result (λ q. SameMeaning (plan_of plan) (plan_of q)) }
    ensures pruned { IfOk result (λ q. IsPruned (plan_of plan) (plan_of q)) }
    ensures lives { IfOk result (λ q. EachLives (plan_of q)) }
{
    let made = pruned(alloc, &plan)?;
    drop(plan);
    Ok(made)
}

fn pruned(alloc: Global, plan: &Plan) -> Result<Plan, AllocError>
    ensures means { IfOk result (λ q. SameMeaning (plan_of plan.now) (plan_of q)) }
    ensures pruned { IfOk result (λ q. IsPruned (plan_of plan.now) (plan_of q)) }
    ensures lives { IfOk result (λ q. EachLives (plan_of q)) }
{
    known_plan(plan);
    let live = without_dead(alloc, plan)?;
    known_plan(&live);
    let made = cut_plan(alloc, &live)?;
    known_plan(&made);
    pruned_plans_mean_the_same();
    Ok(made)
}

// The plan whose LOADs and FOREACHs keep what is needed.
fn cut_plan(alloc: Global, plan: &Plan) -> Result<Plan, AllocError>
    requires { EachLives (plan_of plan.now) }
    ensures { IfOk result (λ q. IsCutBy (marks_of (plan_of plan.now)) (cuts_of (plan_of plan.now))
        (plan_of plan.now) (plan_of q)) }
{
    let marks = marks_of(alloc, plan)?;
    let cuts = cuts_of(alloc, plan, marks.as_slice())?;
    build(alloc, plan, marks.as_slice(), cuts.as_slice())
}

// Of each node which of its columns or items stay.
fn marks_of(alloc: Global, plan: &Plan) -> Result<Vec<Marks>, AllocError>
    ensures { IfOk result (λ marks. marks.items
        ≡ map (marks_of (plan_of plan.now)) (range_with_len 0 (length plan.now))) }
{
    let needs = needs(alloc, plan)?;
    let nodes = plan.nodes().as_slice();
    let mut marks = Vec::with_capacity(alloc, nodes.len())?;
    for place in 0..nodes.len() {
        marks.push(marks_at(alloc, nodes, needs.as_slice(), place)?)?;
    }
    Ok(marks)
}

fn marks_at(
    alloc: Global,
    nodes: &[Node],
    needs: &[NeedList],
    place: usize,
) -> Result<Marks, AllocError>
    requires { needs.now ≡ map (need_of (plan_of nodes.now)) (range_with_len 0 (length nodes.now)) }
    ensures { IfOk result (λ marks. marks ≡ marks_of (plan_of nodes.now) place) }
{
    let (Some(node), Some(need)) = (nodes.get(place), needs.get(place)) else {
        return Err(AllocError);
    };
    op_marks(alloc, need.as_slice(), &node.op)
}

fn op_marks(alloc: Global, need: &[Need], op: &NodeOp) -> Result<Marks, AllocError>
    ensures { IfOk result (λ marks. marks ≡ needed_marks need.now (op_of op.now)) }
{
    match op {
        NodeOp::Load { columns, .. } => load_marks(alloc, need, columns.len()),
        NodeOp::Foreach { block, .. } => item_marks(alloc, need, block.items.as_slice()),
        NodeOp::Filter { .. } => Ok(Marks::new(alloc)),
        NodeOp::GroupAll { .. } => Ok(Marks::new(alloc)),
        NodeOp::Group { .. } => Ok(Marks::new(alloc)),
        NodeOp::Join { .. } => Ok(Marks::new(alloc)),
        NodeOp::Union { .. } => Ok(Marks::new(alloc)),
        NodeOp::Distinct { .. } => Ok(Marks::new(alloc)),
        NodeOp::Order { .. } => Ok(Marks::new(alloc)),
        NodeOp::Limit { .. } => Ok(Marks::new(alloc)),
        NodeOp::Store { .. } => Ok(Marks::new(alloc)),
        NodeOp::Assert { .. } => Ok(Marks::new(alloc)),
        NodeOp::Rank { .. } => Ok(Marks::new(alloc)),
    }
}

fn load_marks(alloc: Global, need: &[Need], width: usize) -> Result<Marks, AllocError>
    ensures { IfOk result (λ marks. marks ≡ column_marks need.now width) }
{
    let width = u32::try_from(width).map_err(|_| AllocError)?;
    column_marks(alloc, need, width)
}

// What is left of the rows of each node.
fn cuts_of(alloc: Global, plan: &Plan, marks: &[Marks]) -> Result<Vec<Cut>, AllocError>
    requires { marks.now ≡ map (marks_of (plan_of plan.now)) (range_with_len 0 (length plan.now)) }
    ensures { IfOk result (λ cuts. cuts.items ≡ cuts_of (plan_of plan.now)) }
{
    let mut cuts = Vec::new(alloc);
    let mut left = plan.nodes().as_slice();
    while let [node, rest @ ..] = left {
        let own = cut_next(alloc, plan, marks, cuts.as_slice(), node)?;
        cuts.push(own)?;
        left = rest;
    }
    Ok(cuts)
}

// What is left of the rows of the next node.
fn cut_next(
    alloc: Global,
    plan: &Plan,
    marks: &[Marks],
    cuts: &[Cut],
    node: &Node,
) -> Result<Cut, AllocError>
    requires { marks.now ≡ map (marks_of (plan_of plan.now)) (range_with_len 0 (length plan.now)) }
    ensures { IfOk result (λ cut. cut ≡ cut_step (plan_of plan.now) (length cuts.now)
        (node_of node.now) (at_place None cuts.now)) }
{
    match marks.get(cuts.len()) {
        Some(own) => own_cut(alloc, plan, cuts, own.as_slice(), &node.op),
        None => Err(AllocError),
    }
}

// The fitted nodes as a plan.
fn build(alloc: Global, plan: &Plan, marks: &[Marks], cuts: &[Cut]) -> Result<Plan, AllocError>
    requires lives { EachLives (plan_of plan.now) }
    requires marks { marks.now
        ≡ map (marks_of (plan_of plan.now)) (range_with_len 0 (length plan.now)) }
    requires cuts { cuts.now ≡ cuts_of (plan_of plan.now) }
    ensures { IfOk result (λ q. IsCutBy (marks_of (plan_of plan.now)) (cuts_of (plan_of plan.now))
        (plan_of plan.now) (plan_of q)) }
{
    let nodes = plan.nodes().as_slice();
    let mut made = Plan::empty(alloc);
    for place in 0..nodes.len() {
        add_fitted(alloc, nodes, marks, cuts, place, &mut made)?;
    }
    Ok(made)
}

// Adds the node at a place, fitted. It looks at nothing that goes, and so it is valid then.
fn add_fitted(
    alloc: Global,
    nodes: &[Node],
    marks: &[Marks],
    cuts: &[Cut],
    place: usize,
    made: &mut Plan,
) -> Result<(), AllocError>
    requires valid { IsPlan (plan_of nodes.now) }
    requires lives { EachLives (plan_of nodes.now) }
    requires marks { marks.now
        ≡ map (marks_of (plan_of nodes.now)) (range_with_len 0 (length nodes.now)) }
    requires cuts { cuts.now ≡ cuts_of (plan_of nodes.now) }
    requires so_far { IsCutTo (plan_of nodes.now) (plan_of made.old) place }
    ensures { OnOk result (IsCutTo (plan_of nodes.now) (plan_of made.new) (place + 1)) }
{
    let (Some(node), Some(own)) = (nodes.get(place), marks.get(place)) else {
        return Err(AllocError);
    };
    let fitted = fitted_node(alloc, cuts, own.as_slice(), node)?;
    needs_are_seen();
    fitted_nodes_fit();
    known_plan(made);
    add_node(made, fitted)
}

fn add_node(made: &mut Plan, node: Node) -> Result<(), AllocError>
    requires { fits (plan_of made.old) (node_of node) ≡ true }
    ensures { OnOk result (plan_of made.new ≡ plan_of made.old ++ node_of node ∷ []) }
{
    made.add(node)?;
    Ok(())
}

// A node over what is left of its inputs' rows.
fn fitted_node(alloc: Global, cuts: &[Cut], marks: &[bool], node: &Node) -> Result<Node, AllocError>
    ensures { IfOk result (λ made. node_of made ≡ record {
      op = fit_op (cut_at cuts.now) marks.now (op_of node.now.op);
      statement = node.now.statement;
    }) }
{
    let mut made = copy_node(alloc, node)?;
    fit_op(alloc, cuts, marks, &mut made.op)?;
    Ok(made)
}

// A plan is valid.
fn known_plan(plan: &Plan)
    ensures { IsPlan (plan_of plan.now) }
{
    plan.nodes();
}
