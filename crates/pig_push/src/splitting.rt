ghost use Rattle.std.specs.Prelude.{◌≡◌, ◌++◌, ◌∷◌, [], IfOk, OnOk, map, not};
ghost use Rattle.std.specs.List.{filter};
ghost use Rattle.pig_plan.specs.Meaning.{width_at};
ghost use Rattle.pig_plan.specs.Plans.{op_of, plan_of};
ghost use Rattle.pig_typed.specs.Typed.{typed};
ghost use Rattle.pig_moves.specs.Pushed.{ArePartsOf, IsParted, passes_at, stands_at};

use crate::clearing::known_plan;
use crate::finding::may_pass;
use crate::rooming::roomy;
use pig_moves::{Spot, chained, conjuncts, fields, find_spot};
use pig_plan::{Node, NodeOp, Plan};
use pig_typed::{TExpr, TExprs};
use std::alloc::{AllocError, Global};

// The two parts of a FILTER: the conjuncts that may pass below its input together, and the others.
struct FilterParts {
    input: u32,
    statement: u32,
    low: TExpr,
    high: TExpr,
}

// The plan in which the FILTER at a number is two, one on the other: at the number stand the
// conjuncts that may pass below its input together, and behind it the others. There are some of both;
// that is tested and not proved.
pub fn split(alloc: Global, plan: Plan, number: u32) -> Result<Plan, AllocError>
    ensures { IfOk result (λ q. IsParted (plan_of plan) (plan_of q) number) }
{
    let FilterParts {
        input,
        statement,
        low,
        high,
    } = parts(alloc, &plan, number)?;
    let mut next = roomy(plan, number)?;
    known_plan(&next);
    let upper = number.checked_add(1).ok_or(AllocError)?;
    let op = NodeOp::Filter { input, cond: low };
    let lower = Node { op, statement };
    let op = NodeOp::Filter {
        input: number,
        cond: high,
    };
    let above = Node { op, statement };
    let stands = next.exchange(number, lower, upper, above)?;
    if !stands {
        return Err(AllocError);
    }
    Ok(next)
}

fn parts(alloc: Global, plan: &Plan, number: u32) -> Result<FilterParts, AllocError>
    ensures { IfOk result (λ made. ArePartsOf (plan_of plan.now) number made.input made.statement
        (typed made.low) (typed made.high)) }
{
    let nodes = plan.nodes().as_slice();
    let Some(node) = nodes.get(number as usize) else {
        return Err(AllocError);
    };
    let NodeOp::Filter { input, cond } = &node.op else {
        return Err(AllocError);
    };
    let Some(under) = nodes.get(*input as usize) else {
        return Err(AllocError);
    };
    let all = conjuncts(alloc, cond)?;
    let place = first_place(alloc, plan, &under.op, all.as_slice())?;
    let (low, high) = parted(alloc, plan, &under.op, place, all)?;
    let ([_, ..], [_, ..]) = (low.as_slice(), high.as_slice()) else {
        return Err(AllocError);
    };
    Ok(FilterParts {
        input: *input,
        statement: node.statement,
        low: chained(alloc, low)?,
        high: chained(alloc, high)?,
    })
}

// The place to which the first of the conditions goes that may pass.
fn first_place(
    alloc: Global,
    plan: &Plan,
    op: &NodeOp,
    conditions: &[TExpr],
) -> Result<u32, AllocError> {
    for cond in conditions {
        let passes = may_pass(alloc, plan, op, cond)?;
        if passes {
            let place = place(alloc, plan, op, cond)?;
            return Ok(place.unwrap_or(0));
        }
    }
    Ok(0)
}

// The place among a JOIN's inputs to which a condition goes.
fn place(alloc: Global, plan: &Plan, op: &NodeOp, cond: &TExpr) -> Result<Option<u32>, AllocError> {
    let NodeOp::Join { inputs, .. } = op else {
        return Ok(None);
    };
    let fields = fields(alloc, cond)?;
    let spot = find_spot(plan, inputs.as_slice(), fields.as_slice())?;
    Ok(spot.map(|found| found.place))
}

// The conditions that may pass to a place, and the others, both in their order.
fn parted(
    alloc: Global,
    plan: &Plan,
    op: &NodeOp,
    place: u32,
    conditions: TExprs,
) -> Result<(TExprs, TExprs), AllocError>
    ensures low { IfOk result (λ made. map typed made.0
        ≡ filter (passes_at (width_at (plan_of plan.now)) (op_of op.now) place)
        (map typed conditions)) }
    ensures high { IfOk result (λ made. map typed made.1
        ≡ filter (λ c. not (passes_at (width_at (plan_of plan.now)) (op_of op.now) place c))
        (map typed conditions)) }
{
    let mut low = TExprs::new(alloc);
    let mut high = TExprs::new(alloc);
    for cond in conditions.into_vec() {
        let passes = passes_at(alloc, plan, op, place, &cond)?;
        push_where(passes, cond, &mut low, &mut high)?;
    }
    Ok((low, high))
}

// Adds a condition to one of two lists.
fn push_where(
    passes: bool,
    cond: TExpr,
    low: &mut TExprs,
    high: &mut TExprs,
) -> Result<(), AllocError>
    ensures low { OnOk result (map typed low.new
        ≡ map typed low.old ++ filter (λ c. passes) (typed cond ∷ [])) }
    ensures high { OnOk result (map typed high.new
        ≡ map typed high.old ++ filter (λ c. not passes) (typed cond ∷ [])) }
{
    if passes {
        return low.push(cond);
    }
    high.push(cond)
}

// Whether a condition may pass below an operator, and below a JOIN to one place.
fn passes_at(
    alloc: Global,
    plan: &Plan,
    op: &NodeOp,
    place: u32,
    cond: &TExpr,
) -> Result<bool, AllocError>
    ensures { IfOk result (λ b. b
        ≡ passes_at (width_at (plan_of plan.now)) (op_of op.now) place (typed cond.now)) }
{
    let passes = may_pass(alloc, plan, op, cond)?;
    if !passes {
        return Ok(false);
    }
    let NodeOp::Join { inputs, .. } = op else {
        return Ok(true);
    };
    let fields = fields(alloc, cond)?;
    let spot = find_spot(plan, inputs.as_slice(), fields.as_slice())?;
    Ok(stands_at(place, &spot))
}

fn stands_at(place: u32, spot: &Option<Spot>) -> bool
    ensures { result ≡ stands_at place spot.now }
{
    match spot {
        Some(spot) => spot.place == place,
        None => false,
    }
}
