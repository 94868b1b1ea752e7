ghost use Rattle.std.specs.Prelude.{◌≡◌, ◌<◌, IfOk, OnOk, length, map};
ghost use Rattle.pig_plan.specs.Plans.{keyed_of, node_of, op_of, plan_of};
ghost use Rattle.pig_plan.specs.Renumbered.{rename, rename_keyed, renamed};
ghost use Rattle.pig_plan.specs.Room.{idle, past, roomy};

use crate::{KeyedInput, KeyedInputs, Node, NodeOp, Nodes};
use pig_typed::copy_exprs;
use pig_value::{Columns, Delim, Numbers, Seq, Text};
use std::alloc::{AllocError, Global};

// The nodes with room for one more at a place.
pub fn roomy(alloc: Global, nodes: Nodes, at: u32) -> Result<Nodes, AllocError>
    requires { at < length nodes }
    ensures { IfOk result (λ made. plan_of made ≡ roomy at (plan_of nodes)) }
{
    let mut made = all_renamed(alloc, nodes, at)?;
    let op = no_rows(alloc)?;
    made.insert(at as usize, Node { op, statement: 0 })?;
    Ok(Seq::from_vec(made))
}

/// An operator that reads nothing: it gives rows of no column.
pub fn no_rows(alloc: Global) -> Result<NodeOp, AllocError>
    ensures { IfOk result (λ op. op_of op ≡ idle.op) }
{
    Ok(NodeOp::Load {
        path: Text::from_str(alloc, "")?,
        delim: Delim::tab(),
        columns: Columns::new(alloc),
    })
}

// The nodes over inputs at the numbers that these have then.
fn all_renamed(alloc: Global, nodes: Nodes, at: u32) -> Result<Vec<Node>, AllocError>
    ensures { IfOk result (λ made. plan_of made.items
        ≡ map (renamed (past at)) (plan_of nodes)) }
{
    let mut made = Vec::with_capacity(alloc, nodes.len())?;
    for node in nodes.into_vec() {
        let node = renamed(alloc, node, at)?;
        made.push(node)?;
    }
    Ok(made)
}

fn renamed(alloc: Global, node: Node, at: u32) -> Result<Node, AllocError>
    ensures { IfOk result (λ made. node_of made ≡ renamed (past at) (node_of node)) }
{
    let Node { mut op, statement } = node;
    rename_inputs(alloc, &mut op, at)?;
    Ok(Node { op, statement })
}

fn rename_inputs(alloc: Global, op: &mut NodeOp, at: u32) -> Result<(), AllocError>
    ensures { OnOk result (op_of op.new ≡ rename (past at) (op_of op.old)) }
{
    match op {
        NodeOp::Load { .. } => {}
        NodeOp::Filter { input, .. } => *input = past(at, *input)?,
        NodeOp::Foreach { input, .. } => *input = past(at, *input)?,
        NodeOp::GroupAll { input } => *input = past(at, *input)?,
        NodeOp::Group { inputs } => *inputs = renamed_inputs(alloc, inputs.as_slice(), at)?,
        NodeOp::Join { inputs, .. } => *inputs = renamed_inputs(alloc, inputs.as_slice(), at)?,
        NodeOp::Union { inputs } => *inputs = renamed_numbers(alloc, inputs.as_slice(), at)?,
        NodeOp::Distinct { input } => *input = past(at, *input)?,
        NodeOp::Order { input, .. } => *input = past(at, *input)?,
        NodeOp::Limit { input, .. } => *input = past(at, *input)?,
        NodeOp::Store { input, .. } => *input = past(at, *input)?,
        NodeOp::Assert { input, .. } => *input = past(at, *input)?,
        NodeOp::Rank { input, .. } => *input = past(at, *input)?,
    }
    Ok(())
}

// A number, with one more from a place on.
fn past(at: u32, number: u32) -> Result<u32, AllocError>
    ensures { IfOk result (λ n. n ≡ past at number) }
{
    if number < at {
        return Ok(number);
    }
    let next = number.checked_add(1).ok_or(AllocError)?;
    Ok(next)
}

fn renamed_numbers(alloc: Global, numbers: &[u32], at: u32) -> Result<Numbers, AllocError>
    ensures { IfOk result (λ made. made ≡ map (past at) numbers.now) }
{
    let mut made = Vec::with_capacity(alloc, numbers.len())?;
    for number in numbers {
        made.push(past(at, *number)?)?;
    }
    Ok(Seq::from_vec(made))
}

fn renamed_inputs(alloc: Global, inputs: &[KeyedInput], at: u32) -> Result<KeyedInputs, AllocError>
    ensures { IfOk result (λ made. map keyed_of made
        ≡ map (rename_keyed (past at)) (map keyed_of inputs.now)) }
{
    let mut made = Vec::with_capacity(alloc, inputs.len())?;
    for input in inputs {
        let keys = copy_exprs(alloc, &input.keys)?;
        made.push(KeyedInput {
            input: past(at, input.input)?,
            keys,
            inner: input.inner,
        })?;
    }
    Ok(Seq::from_vec(made))
}
