ghost use Rattle.std.specs.Prelude.{◌≡◌, ◌≤◌, ◌+◌, ◌==◌, ◌∷◌, [], ℕ, ⊤, IfOk, IsTrue, MatchOption, Some, false, length, map, slice_get, true};
ghost use Rattle.std.specs.List.{AllByRecursion, list_any};
ghost use Rattle.pig_plan.specs.Nodes.{names};
ghost use Rattle.pig_plan.specs.Plans.{PlanNode, node_of, op_of, plan_of};
ghost use Rattle.pig_typed.specs.Typed.{typed};
ghost use Rattle.pig_moves.specs.Pushed.{CanUniteAs, GoesOn, IsAbove, IsFree, filter_on, filtered, is_load, place_in, put_from};

use crate::clearing::known_plan;
use crate::reading::{holds, is_only_use, reads};
use crate::rooming::roomy;
use pig_plan::{Node, NodeOp, Plan, copy_node, no_rows};
use pig_typed::{TExpr, copy_expr};
use pig_value::Numbers;
use std::alloc::{AllocError, Global};

// A FILTER on a UNION: the UNION's number and statement, the numbers that FILTERs on its inputs
// will have, and the FILTER's condition and statement.
struct OverUnion {
    low: u32,
    own: u32,
    numbers: Numbers,
    cond: TExpr,
    statement: u32,
}

// The plan in which the FILTER at a number has passed below the UNION that it stands on, to each
// distinct input.
pub fn united(alloc: Global, plan: Plan, number: u32) -> Result<Plan, AllocError>
    ensures { IfOk result (λ q. GoesOn (plan_of plan) (plan_of q)) }
{
    let each = distinct_inputs(alloc, &plan, number)?;
    let size = u32::try_from(each.len()).map_err(|_| AllocError)?;
    let high = number.checked_add(size).ok_or(AllocError)?;
    let room = with_room_for(plan, number, size)?;
    over_each(alloc, room, number, high, each.as_slice())
}

// The inputs of the UNION that the FILTER at a number stands on, each once.
fn distinct_inputs(alloc: Global, plan: &Plan, number: u32) -> Result<Numbers, AllocError> {
    let nodes = plan.nodes().as_slice();
    let Some(above) = nodes.get(number as usize) else {
        return Err(AllocError);
    };
    let NodeOp::Filter { input, .. } = &above.op else {
        return Err(AllocError);
    };
    let Some(under) = nodes.get(*input as usize) else {
        return Err(AllocError);
    };
    let NodeOp::Union { inputs } = &under.op else {
        return Err(AllocError);
    };
    let mut each = Numbers::new(alloc);
    for n in inputs.as_slice() {
        push_new(&mut each, *n)?;
    }
    Ok(each)
}

fn push_new(numbers: &mut Numbers, n: u32) -> Result<(), AllocError> {
    if holds(numbers.as_slice(), n) {
        return Ok(());
    }
    numbers.push(n)
}

// The plan with room for so many nodes at a number.
fn with_room_for(plan: Plan, number: u32, count: u32) -> Result<Plan, AllocError>
    ensures { IfOk result (λ q. GoesOn (plan_of plan) (plan_of q)) }
{
    let mut made = plan;
    'rooms: for _ in 0..count {
        made = with_one(made, number)?;
    }
    Ok(made)
}

fn with_one(plan: Plan, number: u32) -> Result<Plan, AllocError>
    ensures { IfOk result (λ q. GoesOn (plan_of plan) (plan_of q)) }
{
    let room = roomy(plan, number)?;
    known_plan(&room);
    Ok(room)
}

// The plan in which FILTERs on the inputs stand from a number on, and the UNION goes over those.
fn over_each(
    alloc: Global,
    plan: Plan,
    first: u32,
    high: u32,
    each: &[u32],
) -> Result<Plan, AllocError>
    ensures { IfOk result (λ q. GoesOn (plan_of plan) (plan_of q)) }
{
    let OverUnion {
        low,
        own,
        numbers,
        cond,
        statement,
    } = over_union(alloc, &plan, first, high, each)?;
    let mut next = with_filters(alloc, plan, first, high, each, &cond, statement)?;
    drop(cond);
    if !is_only_use(next.nodes().as_slice(), low, high) {
        return Err(AllocError);
    }
    let op = no_rows(alloc)?;
    let lower = Node { op, statement: 0 };
    let op = NodeOp::Union { inputs: numbers };
    let upper = Node { op, statement: own };
    let stands = next.exchange(low, lower, high, upper)?;
    if !stands {
        return Err(AllocError);
    }
    known_plan(&next);
    Ok(next)
}

// The plan in which FILTERs of one condition on each of these nodes stand in the place of those
// from a number on, below the node at another number.
fn with_filters(
    alloc: Global,
    plan: Plan,
    first: u32,
    high: u32,
    each: &[u32],
    cond: &TExpr,
    statement: u32,
) -> Result<Plan, AllocError>
    ensures { IfOk result (λ q. plan_of q
        ≡ put_from first (map (filter_on (typed cond.now) statement) each.now) (plan_of plan)) }
{
    let mut left = each;
    let mut made = plan;
    let mut own = first;
    while let [input, rest @ ..] = left {
        made = with_filter(alloc, made, own, high, *input, cond, statement)?;
        own = own.checked_add(1).ok_or(AllocError)?;
        left = rest;
    }
    Ok(made)
}

// The FILTER stands where nothing is read, so it and the node above it, which stays as it is, may
// stand in the place of two others. That there is such a place is tested.
fn with_filter(
    alloc: Global,
    plan: Plan,
    number: u32,
    high: u32,
    input: u32,
    cond: &TExpr,
    statement: u32,
) -> Result<Plan, AllocError>
    ensures { IfOk result (λ q. plan_of q
        ≡ put_from number (filter_on (typed cond.now) statement input ∷ []) (plan_of plan)) }
{
    let above = node_above(alloc, &plan, number, high)?;
    let cond = copy_expr(alloc, cond)?;
    let op = NodeOp::Filter { input, cond };
    let lower = Node { op, statement };
    let mut next = plan;
    let stands = next.exchange(number, lower, high, above)?;
    if !stands {
        return Err(AllocError);
    }
    Ok(next)
}

// A copy of the node at a number above another one that no node reads.
fn node_above(alloc: Global, plan: &Plan, number: u32, high: u32) -> Result<Node, AllocError>
    ensures { IfOk result (λ node. IsAbove (plan_of plan.now) number high (node_of node)) }
{
    let nodes = plan.nodes().as_slice();
    let Some(above) = nodes.get(high as usize) else {
        return Err(AllocError);
    };
    if high <= number {
        return Err(AllocError);
    }
    if !is_unread(nodes, number) {
        return Err(AllocError);
    }
    let copied = copy_node(alloc, above)?;
    Ok(copied)
}

// The FILTER at a number and the UNION that it stands on, where there is room for FILTERs on its
// inputs from another number on. There always is, since it was made; that is tested.
fn over_union(
    alloc: Global,
    plan: &Plan,
    first: u32,
    high: u32,
    each: &[u32],
) -> Result<OverUnion, AllocError>
    ensures { IfOk result (λ made. CanUniteAs (plan_of plan.now) made.low high first each.now
        made.numbers (typed made.cond) made.own made.statement) }
{
    let nodes = plan.nodes().as_slice();
    let Some(above) = nodes.get(high as usize) else {
        return Err(AllocError);
    };
    let NodeOp::Filter { input, cond } = &above.op else {
        return Err(AllocError);
    };
    let Some(under) = nodes.get(*input as usize) else {
        return Err(AllocError);
    };
    let NodeOp::Union { inputs } = &under.op else {
        return Err(AllocError);
    };
    let only = is_only_use(nodes, *input, high);
    let room = has_room(each, first, high);
    let free = are_free(nodes, first, each);
    let once = are_once(each, inputs.as_slice());
    if !only || !room || !free || !once {
        return Err(AllocError);
    }
    let numbers = numbers(alloc, first, each, inputs.as_slice())?;
    Ok(OverUnion {
        low: *input,
        own: under.statement,
        numbers,
        cond: copy_expr(alloc, cond)?,
        statement: above.statement,
    })
}

fn has_room(each: &[u32], first: u32, high: u32) -> bool
    ensures { IsTrue result → first + length each.now ≤ high }
{
    match (high as usize).checked_sub(first as usize) {
        Some(room) => each.len() <= room,
        None => false,
    }
}

// Whether the nodes from a number on, one for each, read nothing and are read by none.
fn are_free(nodes: &[Node], first: u32, each: &[u32]) -> bool
    ensures { IsTrue result → (j n : ℕ) → slice_get each.now j ≡ Some n
        → IsFree (plan_of nodes.now) (first + j) }
{
    for offset in 0..each.len() {
        let Some(number) = number_at(first, offset) else {
            return false;
        };
        if !is_free(nodes, number) {
            return false;
        }
    }
    true
}

// The number that stands so far behind another.
fn number_at(first: u32, offset: usize) -> Option<u32>
    ensures { MatchOption result ⊤ (λ n. n ≡ first + offset) }
{
    let Ok(offset) = u32::try_from(offset) else {
        return None;
    };
    first.checked_add(offset)
}

fn is_free(nodes: &[Node], number: u32) -> bool
    ensures { IsTrue result → IsFree (plan_of nodes.now) number }
{
    let Some(node) = nodes.get(number as usize) else {
        return false;
    };
    if !is_load(&node.op) {
        return false;
    }
    is_unread(nodes, number)
}

fn is_load(op: &NodeOp) -> bool
    ensures { result ≡ is_load (op_of op.now) }
{
    matches!(op, NodeOp::Load { .. })
}

fn is_unread(nodes: &[Node], number: u32) -> bool
    ensures { IsTrue result → (m : ℕ) (v : PlanNode) → slice_get (plan_of nodes.now) m ≡ Some v
        → names v.op number ≡ false }
{
    for other in 0..nodes.len() {
        let read = reads(&nodes[other].op, number);
        if read {
            return false;
        }
    }
    true
}

// Whether each number stands once, and among the others.
fn are_once(each: &[u32], inputs: &[u32]) -> bool
    ensures { IsTrue result → (j n : ℕ) → slice_get each.now j ≡ Some n
        → (place_in each.now n ≡ j) × (list_any (λ m. m == n) inputs.now ≡ true) }
{
    for index in 0..each.len() {
        if !is_once(each, inputs, index) {
            return false;
        }
    }
    true
}

fn is_once(each: &[u32], inputs: &[u32], index: usize) -> bool
    ensures { IsTrue result → (n : ℕ) → slice_get each.now index ≡ Some n
        → (place_in each.now n ≡ index) × (list_any (λ m. m == n) inputs.now ≡ true) }
{
    let Some(n) = each.get(index) else {
        return false;
    };
    let place = place_in(each, *n);
    if place != index {
        return false;
    }
    holds(inputs, *n)
}

// The first place of a number, or how many there are.
fn place_in(numbers: &[u32], n: u32) -> usize
    ensures { result ≡ place_in numbers.now n }
{
    let mut left = numbers;
    let mut place: usize = 0;
    while let [first, rest @ ..] = left {
        if *first == n {
            return place;
        }
        place += 1;
        left = rest;
    }
    place
}

// The numbers of the FILTERs on the inputs of a UNION.
fn numbers(alloc: Global, first: u32, each: &[u32], inputs: &[u32]) -> Result<Numbers, AllocError>
    ensures numbers { IfOk result (λ made. made ≡ map (filtered first each.now) inputs.now) }
    ensures whole { IfOk result (λ made.
        AllByRecursion (λ n. slice_get each.now (place_in each.now n) ≡ Some n) inputs.now) }
{
    let mut left = inputs;
    let mut made = Numbers::new(alloc);
    while let [n, rest @ ..] = left {
        let number = number_for(first, each, *n)?;
        made.push(number)?;
        left = rest;
    }
    Ok(made)
}

fn number_for(first: u32, each: &[u32], n: u32) -> Result<u32, AllocError>
    ensures number { IfOk result (λ m. m ≡ filtered first each.now n) }
    ensures there { IfOk result (λ m. slice_get each.now (place_in each.now n) ≡ Some n) }
{
    let place = place_in(each, n);
    let Some(found) = each.get(place) else {
        return Err(AllocError);
    };
    if *found != n {
        return Err(AllocError);
    }
    let Some(number) = number_at(first, place) else {
        return Err(AllocError);
    };
    Ok(number)
}
