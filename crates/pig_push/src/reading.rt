ghost use Rattle.std.specs.Prelude.{◌≡◌, ◌==◌, ◌∷◌, ◌&&◌, [], map, not, IsTrue};
ghost use Rattle.std.specs.List.{list_any};
ghost use Rattle.pig_plan.specs.Nodes.{IsOnlyUse, names};
ghost use Rattle.pig_plan.specs.Plans.{keyed_of, node_of, op_of, plan_of};

use pig_plan::{KeyedInput, Node, NodeOp};

// Whether no node but one reads a node.
pub fn is_only_use(nodes: &[Node], number: u32, user: u32) -> bool
    ensures yes { IsTrue result → IsOnlyUse (plan_of nodes.now) number user }
    ensures no { IsOnlyUse (plan_of nodes.now) number user → IsTrue result }
{
    for other in 0..nodes.len() {
        if is_other_use(&nodes[other], other, number, user) {
            return false;
        }
    }
    true
}

fn is_other_use(node: &Node, other: usize, number: u32, user: u32) -> bool
    ensures { result ≡ (not (other == user) && names (node_of node.now).op number) }
{
    other != user as usize && reads(&node.op, number)
}

// Whether an operator reads a node.
pub fn reads(op: &NodeOp, number: u32) -> bool
    ensures { result ≡ names (op_of op.now) number }
{
    match op {
        NodeOp::Load { .. } => false,
        NodeOp::Filter { input, .. } => is_number(*input, number),
        NodeOp::Foreach { input, .. } => is_number(*input, number),
        NodeOp::GroupAll { input } => is_number(*input, number),
        NodeOp::Group { inputs } => are_read(inputs.as_slice(), number),
        NodeOp::Join { inputs, .. } => are_read(inputs.as_slice(), number),
        NodeOp::Union { inputs } => holds(inputs.as_slice(), number),
        NodeOp::Distinct { input } => is_number(*input, number),
        NodeOp::Order { input, .. } => is_number(*input, number),
        NodeOp::Limit { input, .. } => is_number(*input, number),
        NodeOp::Store { input, .. } => is_number(*input, number),
        NodeOp::Assert { input, .. } => is_number(*input, number),
        NodeOp::Rank { input, .. } => is_number(*input, number),
    }
}

fn is_number(input: u32, number: u32) -> bool
    ensures { result ≡ list_any (λ i. i == number) (input ∷ []) }
{
    input == number
}

pub fn holds(numbers: &[u32], number: u32) -> bool
    ensures { result ≡ list_any (λ i. i == number) numbers.now }
{
    let mut left = numbers;
    while let [first, rest @ ..] = left {
        if *first == number {
            return true;
        }
        left = rest;
    }
    false
}

fn are_read(inputs: &[KeyedInput], number: u32) -> bool
    ensures { result ≡ list_any (λ i. i == number)
        (map (λ k. k.input) (map keyed_of inputs.now)) }
{
    let mut left = inputs;
    while let [first, rest @ ..] = left {
        if first.input == number {
            return true;
        }
        left = rest;
    }
    false
}
