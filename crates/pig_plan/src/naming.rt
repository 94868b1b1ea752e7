ghost use Rattle.std.specs.Prelude.{◌≡◌, ◌∷◌, ◌++◌, [], map, IfOk};
ghost use Rattle.pig_plan.specs.Nodes.{inputs_of, is_boundary, is_source, is_store};
ghost use Rattle.pig_plan.specs.Plans.{keyed_of, op_of};

use crate::copying::copy_numbers;
use crate::{KeyedInput, NodeOp};
use pig_value::Numbers;
use std::alloc::{AllocError, Global};

impl NodeOp {
    /// The numbers of the nodes that it reads, in their order.
    pub fn inputs(&self, alloc: Global) -> Result<Numbers, AllocError>
        ensures { IfOk result (λ inputs. inputs ≡ inputs_of (op_of self.now)) }
    {
        match self {
            NodeOp::Load { .. } => Ok(Numbers::new(alloc)),
            NodeOp::Filter { input, .. } => only(alloc, *input),
            NodeOp::Foreach { input, .. } => only(alloc, *input),
            NodeOp::GroupAll { input } => only(alloc, *input),
            NodeOp::Group { inputs } => keyed(alloc, inputs.as_slice()),
            NodeOp::Join { inputs, .. } => keyed(alloc, inputs.as_slice()),
            NodeOp::Union { inputs } => copy_numbers(alloc, inputs.as_slice()),
            NodeOp::Distinct { input } => only(alloc, *input),
            NodeOp::Order { input, .. } => only(alloc, *input),
            NodeOp::Limit { input, .. } => only(alloc, *input),
            NodeOp::Store { input, .. } => only(alloc, *input),
            NodeOp::Assert { input, .. } => only(alloc, *input),
            NodeOp::Rank { input, .. } => only(alloc, *input),
        }
    }

    /// Whether it is a STORE.
    pub fn is_store(&self) -> bool
        ensures { result ≡ is_store (op_of self.now) }
    {
        matches!(self, NodeOp::Store { .. })
    }

    /// Whether rows start at the node, and don't come through it row by row.
    pub fn is_source(&self) -> bool
        ensures { result ≡ is_source (op_of self.now) }
    {
        match self {
            NodeOp::Load { .. } => true,
            NodeOp::GroupAll { .. } => true,
            NodeOp::Group { .. } => true,
            NodeOp::Join { .. } => true,
            NodeOp::Distinct { .. } => true,
            NodeOp::Order { .. } => true,
            NodeOp::Limit { .. } => true,
            NodeOp::Rank { .. } => true,
            NodeOp::Filter { .. } => false,
            NodeOp::Foreach { .. } => false,
            NodeOp::Union { .. } => false,
            NodeOp::Store { .. } => false,
            NodeOp::Assert { .. } => false,
        }
    }

    /// Whether the node brings rows of all its inputs together.
    pub fn is_boundary(&self) -> bool
        ensures { result ≡ is_boundary (op_of self.now) }
    {
        match self {
            NodeOp::Load { .. } => false,
            _ => self.is_source(),
        }
    }
}

fn only(alloc: Global, input: u32) -> Result<Numbers, AllocError>
    ensures { IfOk result (λ inputs. inputs ≡ input ∷ []) }
{
    let mut inputs = Numbers::new(alloc);
    inputs.push(input)?;
    Ok(inputs)
}

fn keyed(alloc: Global, inputs: &[KeyedInput]) -> Result<Numbers, AllocError>
    ensures { IfOk result (λ numbers. numbers ≡ map (λ i. i.input) (map keyed_of inputs.now)) }
{
    let mut numbers = Numbers::new(alloc);
    let mut left = inputs;
    while let [input, rest @ ..] = left {
        numbers.push(input.input)?;
        left = rest;
    }
    Ok(numbers)
}
