ghost use Rattle.std.specs.Prelude.{◌≡◌, IfOk, OnOk, get_or, map};
ghost use Rattle.pig_plan.specs.Plans.{keyed_of, node_of, op_of};
ghost use Rattle.pig_plan.specs.Renumbered.{rename, rename_keyed, renamed};
ghost use Rattle.pig_share.specs.Table.{at_of};

use pig_plan::{KeyedInput, KeyedInputs, Node, NodeOp, copy_node};
use pig_typed::copy_exprs;
use pig_value::{Numbers, Seq};
use std::alloc::{AllocError, Global};

/// A copy of a node over the inputs that a table has in the place of its own.
pub fn renamed_node(alloc: Global, node: &Node, table: &[u32]) -> Result<Node, AllocError>
    ensures { IfOk result (λ c. node_of c ≡ renamed (at_of table.now) (node_of node.now)) }
{
    let mut made = copy_node(alloc, node)?;
    rename_inputs(alloc, &mut made.op, table)?;
    Ok(made)
}

fn rename_inputs(alloc: Global, op: &mut NodeOp, table: &[u32]) -> Result<(), AllocError>
    ensures { OnOk result (op_of op.new ≡ rename (at_of table.now) (op_of op.old)) }
{
    match op {
        NodeOp::Load { .. } => {}
        NodeOp::Filter { input, .. } => *input = number_at(table, *input),
        NodeOp::Foreach { input, .. } => *input = number_at(table, *input),
        NodeOp::GroupAll { input } => *input = number_at(table, *input),
        NodeOp::Group { inputs } => *inputs = renamed_inputs(alloc, inputs.as_slice(), table)?,
        NodeOp::Join { inputs, .. } => *inputs = renamed_inputs(alloc, inputs.as_slice(), table)?,
        NodeOp::Union { inputs } => *inputs = renamed_numbers(alloc, inputs.as_slice(), table)?,
        NodeOp::Distinct { input } => *input = number_at(table, *input),
        NodeOp::Order { input, .. } => *input = number_at(table, *input),
        NodeOp::Limit { input, .. } => *input = number_at(table, *input),
        NodeOp::Store { input, .. } => *input = number_at(table, *input),
        NodeOp::Assert { input, .. } => *input = number_at(table, *input),
        NodeOp::Rank { input, .. } => *input = number_at(table, *input),
    }
    Ok(())
}

// What a table has at a place.
pub fn number_at(table: &[u32], number: u32) -> u32
    ensures { result ≡ at_of table.now number }
{
    match table.get(number as usize) {
        Some(found) => *found,
        None => 0,
    }
}

fn renamed_numbers(alloc: Global, numbers: &[u32], table: &[u32]) -> Result<Numbers, AllocError>
    ensures { IfOk result (λ made. made ≡ map (at_of table.now) numbers.now) }
{
    let mut made = Vec::with_capacity(alloc, numbers.len())?;
    for number in numbers {
        made.push(number_at(table, *number))?;
    }
    Ok(Seq::from_vec(made))
}

fn renamed_inputs(
    alloc: Global,
    inputs: &[KeyedInput],
    table: &[u32],
) -> Result<KeyedInputs, AllocError>
    ensures { IfOk result (λ made. map keyed_of made
        ≡ map (rename_keyed (at_of table.now)) (map keyed_of inputs.now)) }
{
    let mut made = Vec::with_capacity(alloc, inputs.len())?;
    for input in inputs {
        let keys = copy_exprs(alloc, &input.keys)?;
        made.push(KeyedInput {
            input: number_at(table, input.input),
            keys,
            inner: input.inner,
        })?;
    }
    Ok(Seq::from_vec(made))
}
