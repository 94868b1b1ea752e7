ghost use Rattle.std.specs.Prelude.{◌≡◌, ◌<◌, ◌||◌, ◌==◌, ◌++◌, ◌∷◌, [], ℕ, false, length, get_or, IfOk, OnOk};
ghost use Rattle.std.specs.List.{AllByRecursion, filter, list_any};
ghost use Rattle.pig_plan.specs.Nodes.{live, live_marks};
ghost use Rattle.pig_plan.specs.Plans.{plan_of};
ghost use Rattle.pig_plan.specs.Valid.{IsPlan};
ghost use Rattle.pig_plan.specs.Marks.{AreMarks, IsMarked};

use crate::{Node, Plan};
use std::alloc::{AllocError, Global};

/// Of each node, in order, whether a STORE reaches it.
pub fn live_marks(alloc: Global, plan: &Plan) -> Result<Vec<bool>, AllocError>
    ensures { IfOk result (λ marks. marks.items ≡ live_marks (plan_of plan.now)) }
{
    mark_live(alloc, plan.nodes().as_slice())
}

/// The numbers of the nodes that a STORE reaches, in order.
pub fn live_numbers(alloc: Global, plan: &Plan) -> Result<Vec<usize>, AllocError>
    ensures { IfOk result (λ numbers. numbers.items ≡ live (plan_of plan.now)) }
{
    let marks = mark_live(alloc, plan.nodes().as_slice())?;
    let mut numbers = Vec::new(alloc);
    for number in 0..marks.len() {
        keep_marked(&mut numbers, marks.as_slice(), number)?;
    }
    Ok(numbers)
}

// Adds the number of a node where it is marked.
fn keep_marked(numbers: &mut Vec<usize>, marks: &[bool], number: usize) -> Result<(), AllocError>
    requires { number < length marks.now }
    ensures { OnOk result (numbers.new.items
        ≡ numbers.old.items ++ filter (λ k. get_or marks.now k false) (number ∷ [])) }
{
    if !marks[number] {
        return Ok(());
    }
    numbers.push(number)?;
    Ok(())
}

// Of each node whether a STORE reaches it. They are gone through from the last to the first, since a node is live where a
// live node behind it names it.
fn mark_live(alloc: Global, nodes: &[Node]) -> Result<Vec<bool>, AllocError>
    requires { IsPlan (plan_of nodes.now) }
    ensures { IfOk result (λ marks. AreMarks (plan_of nodes.now) 0 marks.items) }
{
    let mut marks = vec![in alloc; false; nodes.len()]?;
    let mut number = nodes.len();
    'marks: while number > 0 {
        number -= 1;
        let op = &nodes[number].op;
        let inputs = op.inputs(alloc)?;
        mark(&mut marks, number, op.is_store(), inputs.as_slice());
    }
    Ok(marks)
}

// Marks the inputs of a node where it is live; marked it is where a live node behind it names it.
fn mark(marks: &mut Vec<bool>, number: usize, is_store: bool, inputs: &[u32])
    requires within { number < length marks.old.items }
    requires lower { AllByRecursion (λ i. i < number) inputs.now }
    ensures { IsMarked number is_store inputs.now marks.old.items marks.new.items }
{
    if !is_alive(is_store, marks.as_slice(), number) {
        return;
    }
    mark_one(marks, number);
    mark_inputs(marks, inputs);
}

// Whether a node is live, where it is marked as soon as a live node names it.
fn is_alive(is_store: bool, marks: &[bool], number: usize) -> bool
    requires { number < length marks.now }
    ensures { result ≡ (is_store || get_or marks.now number false) }
{
    is_store || marks[number]
}

// Marks each of the inputs.
fn mark_inputs(marks: &mut Vec<bool>, inputs: &[u32])
    requires { AllByRecursion (λ i. i < length marks.old.items) inputs.now }
    ensures size { length marks.new.items ≡ length marks.old.items }
    ensures each { (k : ℕ) → get_or marks.new.items k false
        ≡ (list_any (λ i. i == k) inputs.now || get_or marks.old.items k false) }
{
    let mut left = inputs;
    while let [input, rest @ ..] = left {
        mark_one(marks, *input as usize);
        left = rest;
    }
}

fn mark_one(marks: &mut Vec<bool>, number: usize)
    requires { number < length marks.old.items }
    ensures size { length marks.new.items ≡ length marks.old.items }
    ensures each { (k : ℕ) → get_or marks.new.items k false
        ≡ ((number == k) || get_or marks.old.items k false) }
{
    marks[number] = true;
}
