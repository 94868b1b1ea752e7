//! A pass over the nodes from one on to the first, in which each FILTER goes as far as it may.
ghost use Rattle.std.specs.Prelude.{◌≡◌, ◌==◌, ℕ, IfOk, MatchOption, get_or, if◌then◌else◌};
ghost use Rattle.pig_plan.specs.Plans.{op_of, plan_of};
ghost use Rattle.pig_moves.specs.Pushed.{CanMove, GoesOn, IsMove};
ghost use Rattle.pig_push.specs.Lone.{AreSound, CountedOn, NotBoth, NotBothBut, StepsOn, where_read};
ghost use Rattle.pig_push.specs.declared.readers.ReadCount.TheVariants as Read;

use crate::clearing::known_plan;
use crate::finding::{below, may_part, stands_on_union};
use crate::moving::moved;
use crate::readers::{ReadCount, readers};
use crate::reading::reads;
use crate::splitting::split;
use crate::uniting::united;
use pig_plan::{NodeOp, Plan};
use std::alloc::{AllocError, Global};

// More steps than any sweep has.
const MOST_STEPS: u64 = 1 << 40;
// What a FILTER is made into.
const PARTS: u32 = 2;

// A plan while FILTERs move, and how many nodes read each of its own.
#[derive(Drop)]
pub struct Sweep {
    plan: Plan,
    counts: Vec<ReadCount>,
    /// The number that is looked at next, and how many are to be looked at then.
    at: Option<u32>,
    left: u32,
}

// The plan in which the FILTERs up to a number went as far as they may, one after another.
pub fn swept(
    alloc: Global,
    plan: Plan,
    counts: Vec<ReadCount>,
    last: u32,
) -> Result<Plan, AllocError>
    requires sound { AreSound (plan_of plan) counts.items }
    ensures { IfOk result (λ q. GoesOn (plan_of plan) (plan_of q)) }
{
    let mut sweep = Sweep {
        plan,
        counts,
        at: Some(last),
        left: last,
    };
    'steps: for _ in 0..MOST_STEPS {
        let Some(at) = sweep.at else {
            return Ok(into_plan(sweep));
        };
        sweep = stepped(alloc, sweep, at)?;
    }
    Err(AllocError)
}

fn into_plan(sweep: Sweep) -> Plan
    ensures { result ≡ sweep.plan }
{
    let Sweep { plan, .. } = sweep;
    plan
}

// The next step: the FILTER at a number goes on, or else the number before is looked at.
fn stepped(alloc: Global, sweep: Sweep, at: u32) -> Result<Sweep, AllocError>
    requires sound { AreSound (plan_of sweep.plan) sweep.counts.items }
    ensures { IfOk result (λ s. StepsOn (plan_of sweep.plan) (plan_of s.plan) s.counts.items) }
{
    let Sweep {
        plan,
        counts,
        at: _,
        left,
    } = sweep;
    let parts = may_part(alloc, &plan, counts.as_slice(), at)?;
    if !parts {
        return Ok(next_before(plan, counts, left));
    }
    advanced(alloc, plan, counts, at, left)
}

// Goes on with the number before.
fn next_before(plan: Plan, counts: Vec<ReadCount>, left: u32) -> Sweep
    ensures plan { result.plan ≡ plan }
    ensures counts { result.counts.items ≡ counts.items }
{
    Sweep {
        plan,
        counts,
        at: left.checked_sub(1),
        left: left.saturating_sub(1),
    }
}

// The FILTER at a number passes below the operator that it stands on, or as many of its conjuncts
// as go there together.
fn advanced(
    alloc: Global,
    plan: Plan,
    counts: Vec<ReadCount>,
    at: u32,
    left: u32,
) -> Result<Sweep, AllocError>
    requires sound { AreSound (plan_of plan) counts.items }
    ensures { IfOk result (λ s. StepsOn (plan_of plan) (plan_of s.plan) s.counts.items) }
{
    if let Some(low) = below(alloc, &plan, counts.as_slice(), at)? {
        return passed(alloc, plan, counts, low, at, left);
    }
    drop(counts);
    if stands_on_union(&plan, at) {
        return below_union(alloc, plan, at, left);
    }
    in_part(alloc, plan, at, left)
}

// The FILTER passes as a whole. It goes on from where it stands then.
fn passed(
    alloc: Global,
    plan: Plan,
    counts: Vec<ReadCount>,
    low: u32,
    high: u32,
    left: u32,
) -> Result<Sweep, AllocError>
    requires may { CanMove (plan_of plan) low high }
    requires sound { AreSound (plan_of plan) counts.items }
    ensures moves { IfOk result (λ s. IsMove (plan_of plan) (plan_of s.plan) low high) }
    ensures steps { IfOk result (λ s. StepsOn (plan_of plan) (plan_of s.plan) s.counts.items) }
{
    known_plan(&plan);
    let next = moved(alloc, plan, low, high)?;
    known_plan(&next);
    let counts = counted_on(counts, &next, low, high)?;
    let at = Some(filter_of(&next, low, high));
    Ok(Sweep {
        plan: next,
        counts,
        at,
        left,
    })
}

// The lower number where a FILTER stands there, and else the upper one.
fn filter_of(plan: &Plan, low: u32, high: u32) -> u32 {
    match plan.nodes().get(low as usize) {
        Some(node) if matches!(&node.op, NodeOp::Filter { .. }) => low,
        _ => high,
    }
}

// What is known of readers once the nodes at two numbers changed places: what both read then, two
// do.
fn counted_on(
    counts: Vec<ReadCount>,
    plan: &Plan,
    low: u32,
    high: u32,
) -> Result<Vec<ReadCount>, AllocError>
    ensures { IfOk result (λ new. CountedOn (plan_of plan.now) counts.items new.items low high) }
{
    let nodes = plan.nodes().as_slice();
    let (Some(lower), Some(upper)) = (nodes.get(low as usize), nodes.get(high as usize)) else {
        return Err(AllocError);
    };
    let shared = shared_input(&lower.op, &upper.op)?;
    let Some(input) = shared else {
        return Ok(counts);
    };
    let new = with_often(counts, input)?;
    Ok(new)
}

// The node that a FILTER and another operator read, where there is one.
fn shared_input(lower: &NodeOp, upper: &NodeOp) -> Result<Option<u32>, AllocError>
    ensures { IfOk result (λ found. MatchOption found
        (NotBoth (op_of lower.now) (op_of upper.now))
        (λ i. NotBothBut i (op_of lower.now) (op_of upper.now))) }
{
    match lower {
        NodeOp::Load { .. } => Ok(None),
        NodeOp::Filter { input, .. } => Ok(where_read(*input, upper)),
        _ => Err(AllocError),
    }
}

// A number, where an operator reads the node of it.
fn where_read(input: u32, op: &NodeOp) -> Option<u32>
    ensures { result ≡ where_read input (op_of op.now) }
{
    if reads(op, input) {
        return Some(input);
    }
    None
}

fn with_often(counts: Vec<ReadCount>, input: u32) -> Result<Vec<ReadCount>, AllocError>
    ensures { IfOk result (λ new. (k : ℕ) → get_or new.items k Read.Never
        ≡ (if input == k then Read.Often else get_or counts.items k Read.Never)) }
{
    let mut new = counts;
    let place = input as usize;
    if new.len() <= place {
        return Err(AllocError);
    }
    new[place] = ReadCount::Often;
    Ok(new)
}

// The FILTER passes below a UNION. All numbers up to the FILTERs on its inputs are looked at.
fn below_union(alloc: Global, plan: Plan, at: u32, left: u32) -> Result<Sweep, AllocError>
    ensures { IfOk result (λ s. StepsOn (plan_of plan) (plan_of s.plan) s.counts.items) }
{
    let count = plan.nodes().len();
    let plan = united(alloc, plan, at)?;
    let counts = readers(alloc, &plan)?;
    let grown = plan.nodes().len().saturating_sub(count);
    let grown = u32::try_from(grown).map_err(|_| AllocError)?;
    let left = left.checked_add(grown).ok_or(AllocError)?;
    Ok(Sweep {
        plan,
        counts,
        at: Some(left),
        left,
    })
}

// The FILTER is made two, and the lower one passes. The other one is looked at again.
fn in_part(alloc: Global, plan: Plan, at: u32, left: u32) -> Result<Sweep, AllocError>
    ensures { IfOk result (λ s. StepsOn (plan_of plan) (plan_of s.plan) s.counts.items) }
{
    let parted = split(alloc, plan, at)?;
    known_plan(&parted);
    let counts = readers(alloc, &parted)?;
    let Some(low) = below(alloc, &parted, counts.as_slice(), at)? else {
        return Err(AllocError);
    };
    let left = left.checked_add(PARTS).ok_or(AllocError)?;
    let sweep = passed(alloc, parted, counts, low, at, left)?;
    known_plan(&sweep.plan);
    Ok(sweep)
}
