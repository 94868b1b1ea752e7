ghost use Rattle.std.specs.Prelude.{◌≡◌, ◌≢◌, ℕ, List, length, map, IfOk};
ghost use Rattle.pig_value.specs.Trees.{Tree};
ghost use Rattle.pig_plan.specs.ByKey.{gathered};
ghost use Rattle.pig_plan.specs.Meaning.{width_at};
ghost use Rattle.pig_plan.specs.Operators.{group_rows, join_rows, keyed_entries};
ghost use Rattle.pig_plan.specs.Plans.{keyed_of, plan_of};
ghost use Rattle.pig_operators.specs.Given.{made};
ghost use Rattle.pig_operators.specs.Keying.{brought_together, outer_rows};

use crate::by_key::Gathering;
use pig_plan::{KeyedInput, Plan};
use pig_value::{Seq, Side};
use std::alloc::{AllocError, Global};

/// How the inputs of GROUP or COGROUP are brought together.
pub fn gathering_of_group(alloc: Global, inputs: &[KeyedInput]) -> Result<Gathering, AllocError>
    ensures { IfOk result (λ how. (rows : ℕ → List (List Tree))
        → gathered (made how) (keyed_entries 0 (map keyed_of inputs.now) rows)
        ≡ group_rows (map keyed_of inputs.now) rows) }
{
    if let [_one] = inputs {
        return Ok(Gathering::Group);
    }
    gathering_of_several(alloc, inputs)
}

fn gathering_of_several(alloc: Global, inputs: &[KeyedInput]) -> Result<Gathering, AllocError>
    requires { length inputs.now ≢ 1 }
    ensures { IfOk result (λ how. (rows : ℕ → List (List Tree))
        → gathered (made how) (keyed_entries 0 (map keyed_of inputs.now) rows)
        ≡ group_rows (map keyed_of inputs.now) rows) }
{
    let inner = flags(alloc, inputs)?;
    Ok(Gathering::Cogroup { inner })
}

fn flags(alloc: Global, inputs: &[KeyedInput]) -> Result<Seq<bool>, AllocError>
    ensures { IfOk result (λ inner. inner ≡ map (λ i. i.inner) (map keyed_of inputs.now)) }
{
    let mut inner = Seq::with_capacity(alloc, inputs.len())?;
    for input in inputs {
        inner.push(input.inner)?;
    }
    Ok(inner)
}

/// How the inputs of a JOIN are brought together; one that keeps a side has two inputs, or else no rows.
pub fn gathering_of_join(plan: &Plan, inputs: &[KeyedInput], side: Side) -> Option<Gathering>
    ensures { (rows : ℕ → List (List Tree))
        → brought_together result (map keyed_of inputs.now) rows
        ≡ join_rows side (width_at (plan_of plan.now)) (map keyed_of inputs.now) rows }
{
    match side {
        Side::Inner => Some(Gathering::Join {
            inputs: inputs.len(),
        }),
        Side::Left => gathering_of_sides(plan, inputs, Side::Left),
        Side::Right => gathering_of_sides(plan, inputs, Side::Right),
        Side::Full => gathering_of_sides(plan, inputs, Side::Full),
    }
}

fn gathering_of_sides(plan: &Plan, inputs: &[KeyedInput], side: Side) -> Option<Gathering>
    ensures { (rows : ℕ → List (List Tree))
        → brought_together result (map keyed_of inputs.now) rows
        ≡ outer_rows side (width_at (plan_of plan.now)) (map keyed_of inputs.now) rows }
{
    match inputs {
        [left, right, ..] => Some(Gathering::Outer {
            side,
            left: width(plan, left.input),
            right: width(plan, right.input),
        }),
        _ => None,
    }
}

fn width(plan: &Plan, node: u32) -> usize
    ensures { result ≡ width_at (plan_of plan.now) node }
{
    match plan.kinds(node) {
        Some(kinds) => kinds.len(),
        None => 0,
    }
}
