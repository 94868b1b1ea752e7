ghost use Rattle.std.specs.Prelude.{◌≡◌, ℕ, IfOk, MatchOption, ⊤, false, length, map};
ghost use Rattle.std.specs.List.{list_all, list_any};
ghost use Rattle.pig_plan.specs.Conjuncts.{conjuncts, link_conjuncts};
ghost use Rattle.pig_plan.specs.Meaning.{width_at};
ghost use Rattle.pig_plan.specs.Plans.{keyed_of, op_of, p_group, p_join, plan_of};
ghost use Rattle.pig_typed.specs.Typed.{Typed, link_of, links_of, typed};
ghost use Rattle.pig_moves.specs.Pushed.{CanMove, CanPart, all_pass, is_union, may_pass, some_pass, stands_on_union};
ghost use Rattle.pig_push.specs.Lone.{AreExact, AreSound};

use crate::readers::{ReadCount, is_lone};
use pig_moves::{all_and, fields, find_spot, hands_all, hands_key, is_open};
use pig_plan::{KeyedInput, NodeOp, Plan};
use pig_typed::{TExpr, TLink};
use pig_value::Side;
use std::alloc::{AllocError, Global};

// The number of the last FILTER of which a conjunct may pass below the operator that it alone reads,
// where there is one. So FILTERs become one before they pass what they stand on.
pub fn find_part(
    alloc: Global,
    plan: &Plan,
    counts: &[ReadCount],
) -> Result<Option<u32>, AllocError>
    requires { AreExact (plan_of plan.now) counts.now }
    ensures { IfOk result (λ found. MatchOption found
        ((i k : ℕ) → CanPart (plan_of plan.now) i k → ⊥) (λ high. ⊤)) }
{
    let count = number_of_nodes(plan)?;
    for behind in 0..count {
        let high = count - 1 - behind;
        let parts = may_part(alloc, plan, counts, high)?;
        if parts {
            return Ok(Some(high));
        }
    }
    Ok(None)
}

// How many nodes there are, as a number of a node.
fn number_of_nodes(plan: &Plan) -> Result<u32, AllocError>
    ensures { IfOk result (λ n. n ≡ length plan.now) }
{
    u32::try_from(plan.nodes().len()).map_err(|_| AllocError)
}

// Whether a FILTER stands at a number of which a conjunct may pass below the operator that it alone
// reads.
pub fn may_part(
    alloc: Global,
    plan: &Plan,
    counts: &[ReadCount],
    high: u32,
) -> Result<bool, AllocError>
    ensures { IfOk result (λ b. b ≡ false → AreExact (plan_of plan.now) counts.now
        → (i : ℕ) → CanPart (plan_of plan.now) i high → ⊥) }
{
    let nodes = plan.nodes().as_slice();
    let Some(node) = nodes.get(high as usize) else {
        return Ok(false);
    };
    let NodeOp::Filter { input, cond } = &node.op else {
        return Ok(false);
    };
    let Some(under) = nodes.get(*input as usize) else {
        return Ok(false);
    };
    let passes = some_pass(alloc, plan, &under.op, cond)?;
    if !passes {
        return Ok(false);
    }
    Ok(is_lone(counts, *input))
}

// The number of the operator below which the FILTER at a number may pass as a whole, where there is
// one.
pub fn below(
    alloc: Global,
    plan: &Plan,
    counts: &[ReadCount],
    high: u32,
) -> Result<Option<u32>, AllocError>
    requires { AreSound (plan_of plan.now) counts.now }
    ensures { IfOk result (λ found. MatchOption found ⊤
        (λ low. CanMove (plan_of plan.now) low high)) }
{
    let nodes = plan.nodes().as_slice();
    let Some(node) = nodes.get(high as usize) else {
        return Ok(None);
    };
    let NodeOp::Filter { input, cond } = &node.op else {
        return Ok(None);
    };
    let Some(under) = nodes.get(*input as usize) else {
        return Ok(None);
    };
    if !is_lone(counts, *input) {
        return Ok(None);
    }
    let passes = all_pass(alloc, plan, &under.op, cond)?;
    if !passes {
        return Ok(None);
    }
    Ok(Some(*input))
}

// Whether one of the conjuncts of a condition may pass below an operator.
fn some_pass(alloc: Global, plan: &Plan, op: &NodeOp, cond: &TExpr) -> Result<bool, AllocError>
    ensures { IfOk result (λ b. b
        ≡ some_pass (width_at (plan_of plan.now)) (op_of op.now) (typed cond.now)) }
{
    if let NodeOp::Filter { .. } = op {
        return Ok(true);
    }
    if let NodeOp::Distinct { .. } = op {
        return Ok(true);
    }
    let union = is_union(op);
    if union {
        return Ok(true);
    }
    if !is_ever_passed(op) {
        return Ok(false);
    }
    one_passes(alloc, plan, op, cond)
}

fn is_union(op: &NodeOp) -> bool
    ensures { result ≡ is_union (op_of op.now) }
{
    matches!(op, NodeOp::Union { .. })
}

// Whether the FILTER at a number stands on a UNION.
pub fn stands_on_union(plan: &Plan, number: u32) -> bool
    ensures { result ≡ stands_on_union (plan_of plan.now) number }
{
    let nodes = plan.nodes().as_slice();
    let Some(node) = nodes.get(number as usize) else {
        return false;
    };
    let NodeOp::Filter { input, .. } = &node.op else {
        return false;
    };
    let Some(under) = nodes.get(*input as usize) else {
        return false;
    };
    is_union(&under.op)
}

// Whether any condition may pass below such an operator.
fn is_ever_passed(op: &NodeOp) -> bool
    ensures { result ≡ false → (width : ℕ → ℕ) (cond : Typed)
        → may_pass width (op_of op.now) cond ≡ false }
{
    match op {
        NodeOp::Filter { .. } => true,
        NodeOp::Distinct { .. } => true,
        NodeOp::Foreach { .. } => true,
        NodeOp::Group { .. } => true,
        NodeOp::Join { .. } => true,
        _ => false,
    }
}

// Whether one of the conjuncts of a condition may, by itself.
#[cycle(one_passes)]
fn one_passes(alloc: Global, plan: &Plan, op: &NodeOp, cond: &TExpr) -> Result<bool, AllocError>
    ensures { IfOk result (λ b. b
        ≡ list_any (may_pass (width_at (plan_of plan.now)) (op_of op.now))
        (conjuncts (typed cond.now))) }
{
    match cond {
        TExpr::Chain { first, rest } => {
            if !all_and(rest.as_slice()) {
                return may_pass(alloc, plan, op, cond);
            }
            let passes = one_passes(alloc, plan, op, first.get())?;
            if passes {
                return Ok(true);
            }
            one_link_passes(alloc, plan, op, rest.as_slice())
        }
        _ => may_pass(alloc, plan, op, cond),
    }
}

#[cycle(one_passes)]
fn one_link_passes(
    alloc: Global,
    plan: &Plan,
    op: &NodeOp,
    links: &[TLink],
) -> Result<bool, AllocError>
    ensures { IfOk result (λ b. b
        ≡ list_any (may_pass (width_at (plan_of plan.now)) (op_of op.now))
        (link_conjuncts (links_of (map link_of links.now)))) }
{
    for link in links {
        let passes = one_passes(alloc, plan, op, &link.a)?;
        if passes {
            return Ok(true);
        }
    }
    Ok(false)
}

// Whether a condition may pass below an operator, and each of its conjuncts.
fn all_pass(alloc: Global, plan: &Plan, op: &NodeOp, cond: &TExpr) -> Result<bool, AllocError>
    ensures { IfOk result (λ b. b
        ≡ all_pass (width_at (plan_of plan.now)) (op_of op.now) (typed cond.now)) }
{
    if let NodeOp::Filter { .. } = op {
        return Ok(true);
    }
    if let NodeOp::Distinct { .. } = op {
        return Ok(true);
    }
    let whole = may_pass(alloc, plan, op, cond)?;
    if !whole {
        return Ok(false);
    }
    each_passes(alloc, plan, op, cond)
}

// Whether each of the conjuncts of a condition may, by itself.
#[cycle(each_passes)]
fn each_passes(alloc: Global, plan: &Plan, op: &NodeOp, cond: &TExpr) -> Result<bool, AllocError>
    ensures { IfOk result (λ b. b
        ≡ list_all (may_pass (width_at (plan_of plan.now)) (op_of op.now))
        (conjuncts (typed cond.now))) }
{
    match cond {
        TExpr::Chain { first, rest } => {
            if !all_and(rest.as_slice()) {
                return may_pass(alloc, plan, op, cond);
            }
            let passes = each_passes(alloc, plan, op, first.get())?;
            if !passes {
                return Ok(false);
            }
            each_link_passes(alloc, plan, op, rest.as_slice())
        }
        _ => may_pass(alloc, plan, op, cond),
    }
}

#[cycle(each_passes)]
fn each_link_passes(
    alloc: Global,
    plan: &Plan,
    op: &NodeOp,
    links: &[TLink],
) -> Result<bool, AllocError>
    ensures { IfOk result (λ b. b
        ≡ list_all (may_pass (width_at (plan_of plan.now)) (op_of op.now))
        (link_conjuncts (links_of (map link_of links.now)))) }
{
    for link in links {
        let passes = each_passes(alloc, plan, op, &link.a)?;
        if !passes {
            return Ok(false);
        }
    }
    Ok(true)
}

// Whether a condition may pass below an operator, by the operator alone.
pub fn may_pass(alloc: Global, plan: &Plan, op: &NodeOp, cond: &TExpr) -> Result<bool, AllocError>
    ensures { IfOk result (λ b. b
        ≡ may_pass (width_at (plan_of plan.now)) (op_of op.now) (typed cond.now)) }
{
    match op {
        NodeOp::Filter { .. } => Ok(true),
        NodeOp::Distinct { .. } => Ok(true),
        NodeOp::Foreach { input: _, block } => Ok(hands_all(block.items.as_slice(), cond)),
        NodeOp::Group { inputs } => passes_groups(alloc, plan, inputs.as_slice(), cond),
        NodeOp::Join {
            inputs,
            side,
            replicated: _,
        } => passes_join(alloc, plan, inputs.as_slice(), *side, cond),
        _ => Ok(false),
    }
}

fn passes_groups(
    alloc: Global,
    plan: &Plan,
    inputs: &[KeyedInput],
    cond: &TExpr,
) -> Result<bool, AllocError>
    ensures { IfOk result (λ b. b
        ≡ may_pass (width_at (plan_of plan.now)) (p_group (map keyed_of inputs.now))
        (typed cond.now)) }
{
    let [input] = inputs else {
        return Ok(false);
    };
    hands_key(alloc, input.keys.as_slice(), cond)
}

fn passes_join(
    alloc: Global,
    plan: &Plan,
    inputs: &[KeyedInput],
    side: Side,
    cond: &TExpr,
) -> Result<bool, AllocError>
    ensures { IfOk result (λ b. b
        ≡ may_pass (width_at (plan_of plan.now))
        (p_join (map keyed_of inputs.now) side false) (typed cond.now)) }
{
    let fields = fields(alloc, cond)?;
    if fields.as_slice().is_empty() {
        return Ok(false);
    }
    let spot = find_spot(plan, inputs, fields.as_slice())?;
    Ok(is_open(side, &spot))
}
