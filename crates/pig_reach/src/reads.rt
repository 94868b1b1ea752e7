ghost use Rattle.std.specs.Prelude.{◌≡◌, ◌%◌, ◌^◌, length, IfOk};
ghost use Rattle.std.specs.List.{flat_map, sum_by};
ghost use Rattle.pig_value.specs.Lines.{lines};
ghost use Rattle.pig_plan.specs.Operators.{pieces_of};
ghost use Rattle.pig_plan.specs.Plans.{op_of, plan_of};
ghost use Rattle.pig_plan.specs.Results.{at_place};
ghost use Rattle.pig_reach.specs.Flows.{come_from, comes_to, flows_of, uses_at, uses_in};
ghost use Rattle.pig_reach.specs.Reach.{lines_read};

use pig_plan::{Node, NodeOp, Plan, live_numbers};
use pig_storage::next_line;
use pig_value::{Blob, Input, Inputs, Text};
use std::alloc::{AllocError, Global};

/// The lines of each LOAD's input, counted once for each task path of the plan that begins at it, modulo 2 to the 64.
pub fn lines_read(alloc: Global, plan: &Plan, inputs: &Inputs) -> Result<u64, AllocError>
    ensures { IfOk result (λ count. count
        ≡ lines_read (plan_of plan.now) inputs.now % 2 ^ 64) }
{
    let live = live_numbers(alloc, plan)?;
    let nodes = plan.nodes().as_slice();
    let flows = flows(alloc, nodes, inputs.as_slice())?;
    let mut count: u64 = 0;
    for place in 0..live.len() {
        let more = read_for(alloc, nodes, live[place], flows.as_slice())?;
        count = count.wrapping_add(more);
    }
    Ok(count)
}

// How many lines are read for the node of a number.
fn read_for(alloc: Global, nodes: &[Node], number: usize, flows: &[u64]) -> Result<u64, AllocError>
    ensures { IfOk result (λ count. count
        ≡ uses_in (plan_of nodes.now) number (at_place 0 flows.now)) }
{
    match nodes.get(number) {
        Some(node) => uses_at(alloc, &node.op, number, flows),
        None => Ok(0),
    }
}

// Of each node how many lines come to it.
fn flows(alloc: Global, nodes: &[Node], inputs: &[Input]) -> Result<Vec<u64>, AllocError>
    ensures { IfOk result (λ flows. flows.items ≡ flows_of inputs.now (plan_of nodes.now)) }
{
    let mut flows = Vec::with_capacity(alloc, nodes.len())?;
    let mut left = nodes;
    while let [node, rest @ ..] = left {
        let own = comes_to(alloc, &node.op, inputs, flows.as_slice())?;
        flows.push(own)?;
        left = rest;
    }
    Ok(flows)
}

// How many lines come to a node, by those that come to the nodes before it.
fn comes_to(alloc: Global, op: &NodeOp, inputs: &[Input], flows: &[u64]) -> Result<u64, AllocError>
    ensures { IfOk result (λ count. count
        ≡ comes_to inputs.now (op_of op.now) (at_place 0 flows.now)) }
{
    match op {
        NodeOp::Load { path, .. } => Ok(loaded_lines(inputs, path)),
        _ => {
            if op.is_source() {
                return Ok(0);
            }
            come_from(alloc, op, flows)
        }
    }
}

// How many lines are read for a node: by a boundary node those that come to its inputs, by a STORE its own.
fn uses_at(alloc: Global, op: &NodeOp, number: usize, flows: &[u64]) -> Result<u64, AllocError>
    ensures { IfOk result (λ count. count
        ≡ uses_at number (op_of op.now) (at_place 0 flows.now)) }
{
    match op {
        NodeOp::Load { .. } => Ok(0),
        NodeOp::Store { .. } => Ok(flow_at(flows, number)),
        _ => {
            if op.is_source() {
                return come_from(alloc, op, flows);
            }
            Ok(0)
        }
    }
}

fn flow_at(flows: &[u64], number: usize) -> u64
    ensures { result ≡ at_place 0 flows.now number }
{
    match flows.get(number) {
        Some(flow) => *flow,
        None => 0,
    }
}

// How many lines come to the inputs of a node together.
fn come_from(alloc: Global, op: &NodeOp, flows: &[u64]) -> Result<u64, AllocError>
    ensures { IfOk result (λ count. count ≡ come_from (op_of op.now) (at_place 0 flows.now)) }
{
    let inputs = op.inputs(alloc)?;
    Ok(flow_sum(inputs.as_slice(), flows))
}

fn flow_sum(numbers: &[u32], flows: &[u64]) -> u64
    ensures { result ≡ sum_by (at_place 0 flows.now) numbers.now % 2 ^ 64 }
{
    let mut sum: u64 = 0;
    let mut left = numbers;
    while let [number, rest @ ..] = left {
        sum = sum.wrapping_add(flow_at(flows, *number as usize));
        left = rest;
    }
    sum
}

// The number of lines of the input at a path; none where there is no such input.
fn loaded_lines(inputs: &[Input], path: &Text) -> u64
    ensures { result ≡ length (flat_map lines (pieces_of inputs.now path.now)) % 2 ^ 64 }
{
    let mut left = inputs;
    while let [input, rest @ ..] = left {
        if input.path.as_bytes() == path.as_bytes() {
            return lines_in(input.pieces.as_slice());
        }
        left = rest;
    }
    0
}

// The number of lines of pieces.
fn lines_in(pieces: &[Blob]) -> u64
    ensures { result ≡ length (flat_map lines pieces.now) % 2 ^ 64 }
{
    let mut count: u64 = 0;
    let mut left = pieces;
    while let [piece, rest @ ..] = left {
        count = count.wrapping_add(line_count(piece.as_slice()));
        left = rest;
    }
    count
}

// The number of lines of a piece.
fn line_count(bytes: &[u8]) -> u64
    ensures { result ≡ length (lines bytes.now) % 2 ^ 64 }
{
    let mut count: u64 = 0;
    let mut from = 0;
    while let Some(span) = next_line(bytes, from) {
        count = count.wrapping_add(1);
        from = span.next;
    }
    count
}
