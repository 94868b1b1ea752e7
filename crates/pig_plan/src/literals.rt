ghost use Rattle.std.specs.Prelude.{◌≡◌, map};
ghost use Rattle.std.specs.List.{list_any};
ghost use Rattle.pig_plan.specs.Written.{writes_lf};
ghost use Rattle.pig_typed.specs.Typed.{typed};
ghost use Rattle.pig_plan.specs.Plans.{keyed_of, op_of};
ghost use Rattle.pig_plan.specs.Valid.{keys_write_lf, op_writes_lf};

use crate::written::{block_writes_line_end, writes_line_end};
use crate::{KeyedInput, NodeOp};
use pig_typed::TExpr;

// Whether a text that is written out in the node's expressions holds a line end.
pub fn op_writes_line_end(op: &NodeOp) -> bool
    ensures { result ≡ op_writes_lf (op_of op.now) }
{
    match op {
        NodeOp::Load { .. } => false,
        NodeOp::Filter { cond, .. } => writes_line_end(cond),
        NodeOp::Foreach { block, .. } => block_writes_line_end(block),
        NodeOp::GroupAll { .. } => false,
        NodeOp::Group { inputs } => any_input_writes(inputs.as_slice()),
        NodeOp::Join { inputs, .. } => any_input_writes(inputs.as_slice()),
        NodeOp::Union { .. } => false,
        NodeOp::Distinct { .. } => false,
        NodeOp::Order { .. } => false,
        NodeOp::Limit { .. } => false,
        NodeOp::Store { .. } => false,
        NodeOp::Assert { cond, .. } => writes_line_end(cond),
        NodeOp::Rank { .. } => false,
    }
}

fn any_input_writes(inputs: &[KeyedInput]) -> bool
    ensures { result ≡ keys_write_lf (map keyed_of inputs.now) }
{
    let mut left = inputs;
    while let [input, rest @ ..] = left {
        if any_key_writes(input.keys.as_slice()) {
            return true;
        }
        left = rest;
    }
    false
}

fn any_key_writes(keys: &[TExpr]) -> bool
    ensures { result ≡ list_any writes_lf (map typed keys.now) }
{
    for key in keys {
        if writes_line_end(key) {
            return true;
        }
    }
    false
}
