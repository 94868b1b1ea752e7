ghost use Rattle.std.specs.Prelude.{◌≡◌, ◌<◌, ◌+◌, ◌&&◌, ◌==◌, ℕ, false, length, get_or, IfOk, OnOk};
ghost use Rattle.std.specs.List.{AllByRecursion, list_any};
ghost use Rattle.pig_plan.specs.Nodes.{inputs_of, live_marks, names};
ghost use Rattle.pig_plan.specs.Plans.{op_of, plan_of};
ghost use Rattle.pig_plan.specs.Valid.{IsPlan};
ghost use Rattle.pig_plain.specs.Uses.{AreLate, AreUses, names_one, raised};

use pig_plan::{Node, NodeOp, Plan, live_marks};
use std::alloc::{AllocError, Global};

// Of each node whether it is live, and one more than the number of the last live node that names it, or 0.
#[derive(Drop)]
pub struct Uses {
    pub live: Vec<bool>,
    pub ends: Vec<usize>,
}

// The uses of a plan's nodes.
pub fn uses_of(alloc: Global, plan: &Plan) -> Result<Uses, AllocError>
    ensures { IfOk result (λ uses. AreUses (plan_of plan.now) uses.live.items uses.ends.items) }
{
    let live = live_marks(alloc, plan)?;
    let all = plan.nodes();
    let nodes = all.as_slice();
    let ends = last_uses(alloc, nodes, live.as_slice())?;
    Ok(Uses { live, ends })
}

// The ends of nodes' uses by live nodes.
fn last_uses(alloc: Global, nodes: &[Node], live: &[bool]) -> Result<Vec<usize>, AllocError>
    requires valid { IsPlan (plan_of nodes.now) }
    requires live { live.now ≡ live_marks (plan_of nodes.now) }
    ensures { IfOk result (λ ends. AreLate (plan_of nodes.now) (length nodes.now) ends.items) }
{
    let mut ends = no_ends(alloc, nodes.len())?;
    let mut number = 0;
    'nodes: while number < nodes.len() {
        let lives = is_live(live, number);
        raise_where(alloc, &mut ends, &nodes[number].op, lives, number)?;
        number += 1;
    }
    Ok(ends)
}

// Whether a node is live.
pub fn is_live(live: &[bool], number: usize) -> bool
    ensures { result ≡ get_or live.now number false }
{
    match live.get(number) {
        Some(live) => *live,
        None => false,
    }
}

fn no_ends(alloc: Global, count: usize) -> Result<Vec<usize>, AllocError>
    ensures { IfOk result (λ ends. length ends.items ≡ count) }
{
    Ok(vec![in alloc; 0; count]?)
}

// Raises what stands at each of a live node's inputs to one more than its number.
fn raise_where(
    alloc: Global,
    ends: &mut Vec<usize>,
    op: &NodeOp,
    live: bool,
    number: usize,
) -> Result<(), AllocError>
    requires within { number < length ends.old.items }
    requires lower { AllByRecursion (λ i. i < length ends.old.items) (inputs_of (op_of op.now)) }
    ensures size { OnOk result (length ends.new.items ≡ length ends.old.items) }
    ensures each { OnOk result ((k : ℕ) → get_or ends.new.items k 0
        ≡ raised (number + 1) (live && names (op_of op.now) k) (get_or ends.old.items k 0)) }
{
    if !live {
        return Ok(());
    }
    let inputs = op.inputs(alloc)?;
    raise_all(ends, inputs.as_slice(), number + 1);
    Ok(())
}

fn raise(ends: &mut Vec<usize>, input: u32, end: usize)
    requires { input < length ends.old.items }
    ensures size { length ends.new.items ≡ length ends.old.items }
    ensures each { (k : ℕ) → get_or ends.new.items k 0
        ≡ raised end (names_one input k) (get_or ends.old.items k 0) }
{
    let at = input as usize;
    if ends[at] < end {
        ends[at] = end;
    }
}

fn raise_all(ends: &mut Vec<usize>, inputs: &[u32], end: usize)
    requires { AllByRecursion (λ i. i < length ends.old.items) inputs.now }
    ensures size { length ends.new.items ≡ length ends.old.items }
    ensures each { (k : ℕ) → get_or ends.new.items k 0
        ≡ raised end (list_any (λ i. i == k) inputs.now) (get_or ends.old.items k 0) }
{
    let mut left = inputs;
    while let [input, rest @ ..] = left {
        raise(ends, *input, end);
        left = rest;
    }
}
