//! How an operator by key brings rows together, whatever entries it has.
ghost use Rattle.std.specs.Prelude.{◌≡◌, ◌≢◌, Bool, ℕ, length, map, IfOk};
ghost use Rattle.pig_plan.specs.Entries.{made_by};
ghost use Rattle.pig_plan.specs.Meaning.{width_at};
ghost use Rattle.pig_plan.specs.Plans.{keyed_of, op_of, p_group, p_join, plan_of};
ghost use Rattle.pig_operators.specs.Given.{made};
ghost use Rattle.pig_reduce.specs.Made.{made_or_none, sides_made};

use pig_operators::Gathering;
use pig_plan::{KeyedInput, NodeOp, Plan};
use pig_value::{Seq, Side};
use std::alloc::{AllocError, Global};

// How an operator brings its inputs together by key, where it does. Each operator stands here, so that
// a new one is thought of.
pub(crate) fn gathering_of(
    alloc: Global,
    plan: &Plan,
    op: &NodeOp,
) -> Result<Option<Gathering>, AllocError>
    ensures { IfOk result (λ how. made_or_none how
        ≡ made_by (width_at (plan_of plan.now)) (op_of op.now)) }
{
    match op {
        NodeOp::GroupAll { .. } => Ok(Some(Gathering::Group)),
        NodeOp::Group { inputs } => Ok(Some(of_group(alloc, inputs.as_slice())?)),
        NodeOp::Join { inputs, side, .. } => Ok(of_join(plan, inputs.as_slice(), *side)),
        NodeOp::Load { .. } => Ok(None),
        NodeOp::Filter { .. } => Ok(None),
        NodeOp::Foreach { .. } => Ok(None),
        NodeOp::Union { .. } => Ok(None),
        NodeOp::Distinct { .. } => Ok(None),
        NodeOp::Order { .. } => Ok(None),
        NodeOp::Limit { .. } => Ok(None),
        NodeOp::Store { .. } => Ok(None),
        NodeOp::Assert { .. } => Ok(None),
        NodeOp::Rank { .. } => Ok(None),
    }
}

// How GROUP or COGROUP does.
fn of_group(alloc: Global, inputs: &[KeyedInput]) -> Result<Gathering, AllocError>
    ensures { (width : ℕ → ℕ) → IfOk result (λ how. made how
        ≡ made_by width (p_group (map keyed_of inputs.now))) }
{
    if let [_one] = inputs {
        return Ok(Gathering::Group);
    }
    of_several(alloc, inputs)
}

fn of_several(alloc: Global, inputs: &[KeyedInput]) -> Result<Gathering, AllocError>
    requires { length inputs.now ≢ 1 }
    ensures { (width : ℕ → ℕ) → IfOk result (λ how. made how
        ≡ made_by width (p_group (map keyed_of inputs.now))) }
{
    let inner = flags(alloc, inputs)?;
    Ok(Gathering::Cogroup { inner })
}

// Of each input whether keys that it has no row of are left out.
fn flags(alloc: Global, inputs: &[KeyedInput]) -> Result<Seq<bool>, AllocError>
    ensures { IfOk result (λ inner. inner ≡ map (λ i. i.inner) (map keyed_of inputs.now)) }
{
    let mut inner = Seq::with_capacity(alloc, inputs.len())?;
    for input in inputs {
        inner.push(input.inner)?;
    }
    Ok(inner)
}

// How a JOIN does; one that keeps a side has two inputs, or else no rows.
fn of_join(plan: &Plan, inputs: &[KeyedInput], side: Side) -> Option<Gathering>
    ensures { (replicated : Bool) → made_or_none result
        ≡ made_by (width_at (plan_of plan.now)) (p_join (map keyed_of inputs.now) side replicated) }
{
    match side {
        Side::Inner => Some(Gathering::Join {
            inputs: inputs.len(),
        }),
        Side::Left => of_sides(plan, inputs, Side::Left),
        Side::Right => of_sides(plan, inputs, Side::Right),
        Side::Full => of_sides(plan, inputs, Side::Full),
    }
}

fn of_sides(plan: &Plan, inputs: &[KeyedInput], side: Side) -> Option<Gathering>
    ensures { made_or_none result
        ≡ sides_made side (width_at (plan_of plan.now)) (map keyed_of inputs.now) }
{
    match inputs {
        [left, right, ..] => Some(Gathering::Outer {
            side,
            left: width(plan, left.input),
            right: width(plan, right.input),
        }),
        _ => None,
    }
}

fn width(plan: &Plan, node: u32) -> usize
    ensures { result ≡ width_at (plan_of plan.now) node }
{
    match plan.kinds(node) {
        Some(kinds) => kinds.len(),
        None => 0,
    }
}
