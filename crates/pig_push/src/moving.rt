ghost use Rattle.std.specs.Prelude.{◌≡◌, ◌≤◌, IfOk, List, false, map, ℕ};
ghost use Rattle.pig_plan.specs.Meaning.{width_at};
ghost use Rattle.pig_plan.specs.Plans.{Keyed, keyed_of, node_of, op_of, p_group, p_join, plan_of};
ghost use Rattle.pig_typed.specs.Typed.{Typed, typed};
ghost use Rattle.pig_moves.specs.Depths.{filter_depth, most_levels};
ghost use Rattle.pig_moves.specs.Pushed.{AreNew, CanMove, IsMove, high_of, low_of, over_spot, spot_for};

use crate::clearing::push_node;
use pig_moves::{Instead, conjoined, fields, find_spot, over_at, put, put_key};
use pig_plan::{KeyedInput, KeyedInputs, Node, NodeOp, Nodes, Plan, no_rows};
use pig_typed::{TExpr, copy_block, copy_expr, copy_exprs};
use pig_value::Side;
use std::alloc::{AllocError, Global};

// The plan in which the FILTER at a number and the operator that it stands on changed places.
pub fn moved(alloc: Global, plan: Plan, low: u32, high: u32) -> Result<Plan, AllocError>
    requires { CanMove (plan_of plan) low high }
    ensures { IfOk result (λ q. IsMove (plan_of plan) (plan_of q) low high) }
{
    let (lower, upper) = new_nodes(alloc, &plan, low, high)?;
    let mut next = plan;
    let stands = next.exchange(low, lower, high, upper)?;
    if !stands {
        return Err(AllocError);
    }
    Ok(next)
}

// The nodes as a plan.
pub fn planned(alloc: Global, nodes: Nodes) -> Result<Plan, AllocError>
    ensures { IfOk result (λ q. plan_of q ≡ plan_of nodes) }
{
    let mut made = Plan::empty(alloc);
    for node in nodes.into_vec() {
        push_node(&mut made, node)?;
    }
    Ok(made)
}

// What stands at the two numbers then. Each operator keeps its statement.
fn new_nodes(alloc: Global, plan: &Plan, low: u32, high: u32) -> Result<(Node, Node), AllocError>
    ensures { IfOk result (λ new. AreNew (plan_of plan.now) low high
        (node_of new.0) (node_of new.1)) }
{
    let nodes = plan.nodes().as_slice();
    let (Some(under), Some(above)) = (nodes.get(low as usize), nodes.get(high as usize)) else {
        return Err(AllocError);
    };
    let NodeOp::Filter { input: _, cond } = &above.op else {
        return Err(AllocError);
    };
    let lower = Node {
        op: low_op(alloc, plan, &under.op, cond)?,
        statement: above.statement,
    };
    let upper = Node {
        op: high_op(alloc, plan, low, &under.op, cond)?,
        statement: under.statement,
    };
    Ok((lower, upper))
}

// What stands at the lower number.
fn low_op(alloc: Global, plan: &Plan, op: &NodeOp, cond: &TExpr) -> Result<NodeOp, AllocError>
    ensures is { IfOk result (λ o. op_of o
        ≡ low_of (width_at (plan_of plan.now)) (op_of op.now) (typed cond.now)) }
    ensures nests { (inputs : List Keyed) → op_of op.now ≡ p_group inputs
        → IfOk result (λ o. filter_depth (op_of o) ≤ most_levels) }
{
    match op {
        NodeOp::Filter { .. } => no_rows(alloc),
        NodeOp::Distinct { input } => Ok(NodeOp::Filter {
            input: *input,
            cond: copy_expr(alloc, cond)?,
        }),
        NodeOp::Foreach { input, block } => Ok(NodeOp::Filter {
            input: *input,
            cond: put(alloc, Instead::Handed(block.items.as_slice()), cond)?,
        }),
        NodeOp::Group { inputs } => below_groups(alloc, inputs.as_slice(), cond),
        NodeOp::Join {
            inputs,
            side,
            replicated: _,
        } => below_join(alloc, plan, inputs.as_slice(), *side, cond),
        _ => Err(AllocError),
    }
}

fn below_groups(alloc: Global, inputs: &[KeyedInput], cond: &TExpr) -> Result<NodeOp, AllocError>
    ensures is { (width : ℕ → ℕ) → IfOk result (λ o. op_of o
        ≡ low_of width (p_group (map keyed_of inputs.now)) (typed cond.now)) }
    ensures nests { IfOk result (λ o. filter_depth (op_of o) ≤ most_levels) }
{
    let [input] = inputs else {
        return Err(AllocError);
    };
    let cond = put_key(alloc, input.keys.as_slice(), cond)?;
    Ok(NodeOp::Filter {
        input: input.input,
        cond,
    })
}

fn below_join(
    alloc: Global,
    plan: &Plan,
    inputs: &[KeyedInput],
    side: Side,
    cond: &TExpr,
) -> Result<NodeOp, AllocError>
    ensures { IfOk result (λ o. op_of o
        ≡ low_of (width_at (plan_of plan.now)) (p_join (map keyed_of inputs.now) side false)
        (typed cond.now)) }
{
    let fields = fields(alloc, cond)?;
    let Some(spot) = find_spot(plan, inputs, fields.as_slice())? else {
        return Err(AllocError);
    };
    Ok(NodeOp::Filter {
        input: spot.input,
        cond: put(alloc, Instead::Behind(spot.first), cond)?,
    })
}

// What stands at the upper number, over the lower one.
fn high_op(
    alloc: Global,
    plan: &Plan,
    low: u32,
    op: &NodeOp,
    cond: &TExpr,
) -> Result<NodeOp, AllocError>
    ensures { IfOk result (λ o. op_of o
        ≡ high_of (width_at (plan_of plan.now)) low (op_of op.now) (typed cond.now)) }
{
    match op {
        NodeOp::Filter { input, cond: first } => Ok(NodeOp::Filter {
            input: *input,
            cond: conjoined(alloc, first, cond)?,
        }),
        NodeOp::Distinct { input: _ } => Ok(NodeOp::Distinct { input: low }),
        NodeOp::Foreach { input: _, block } => Ok(NodeOp::Foreach {
            input: low,
            block: copy_block(alloc, block)?,
        }),
        NodeOp::Group { inputs } => groups_over(alloc, low, inputs.as_slice()),
        NodeOp::Join {
            inputs,
            side,
            replicated,
        } => {
            let inputs = inputs_over(alloc, plan, low, inputs.as_slice(), cond)?;
            Ok(NodeOp::Join {
                inputs,
                side: *side,
                replicated: *replicated,
            })
        }
        _ => Err(AllocError),
    }
}

// The groups over another input.
fn groups_over(alloc: Global, low: u32, inputs: &[KeyedInput]) -> Result<NodeOp, AllocError>
    ensures { (width : ℕ → ℕ) (cond : Typed) → IfOk result (λ o. op_of o
        ≡ high_of width low (p_group (map keyed_of inputs.now)) cond) }
{
    let [input] = inputs else {
        return Err(AllocError);
    };
    let keys = copy_exprs(alloc, &input.keys)?;
    let mut inputs = KeyedInputs::new(alloc);
    inputs.push(KeyedInput {
        input: low,
        keys,
        inner: input.inner,
    })?;
    Ok(NodeOp::Group { inputs })
}

// The inputs of a JOIN, with another node at the place whose columns the condition names.
fn inputs_over(
    alloc: Global,
    plan: &Plan,
    low: u32,
    inputs: &[KeyedInput],
    cond: &TExpr,
) -> Result<KeyedInputs, AllocError>
    ensures { IfOk result (λ made. map keyed_of made
        ≡ over_spot low
        (spot_for (width_at (plan_of plan.now)) (map keyed_of inputs.now) (typed cond.now))
        (map keyed_of inputs.now)) }
{
    let fields = fields(alloc, cond)?;
    let Some(spot) = find_spot(plan, inputs, fields.as_slice())? else {
        return Err(AllocError);
    };
    over_at(alloc, inputs, spot.place, low)
}
