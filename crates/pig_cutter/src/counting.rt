//! In how many parts the rows of each node come, counted up to a limit.
ghost use Rattle.std.specs.Prelude.{◌≡◌, ◌<◌, ◌+◌, min, take, length, IfOk};
ghost use Rattle.std.specs.List.{sum_by};
ghost use Rattle.pig_plan.specs.Nodes.{inputs_of};
ghost use Rattle.pig_plan.specs.Plans.{op_of, plan_of};
ghost use Rattle.pig_plan.specs.Results.{at_place};
ghost use Rattle.pig_physical.specs.Seen.{lengths_in};
ghost use Rattle.pig_storage.specs.Splits.{splits_of};
ghost use Rattle.pig_cutter.specs.Tables.{count_plainly, count_to, counts_of, sizing_of};

use crate::feeding::first_alone;
use crate::reading::reduce_count;
use pig_physical::{Size, lengths_in, split_count};
use pig_plan::{Node, NodeOp};
use pig_value::Text;
use std::alloc::{AllocError, Global};

// In how many parts the rows of each node come, in order. Each UNION may double them, so they are counted up to a limit:
// no plan is refused for a number that doesn't fit.
pub fn counts(
    alloc: Global,
    nodes: &[Node],
    sizes: &[Size],
    reducers: u32,
    split: u64,
    limit: u64,
) -> Result<Vec<u64>, AllocError>
    requires { 0 < split }
    ensures { IfOk result (λ found. found.items
        ≡ counts_of limit (sizing_of sizes.now reducers split) (plan_of nodes.now)) }
{
    let mut found = Vec::with_capacity(alloc, nodes.len())?;
    let mut left = nodes;
    while let [node, rest @ ..] = left {
        let so_far = found.as_slice();
        let count = count_of(alloc, &node.op, sizes, reducers, split, so_far, limit)?;
        found.push(count)?;
        left = rest;
    }
    Ok(found)
}

// In how many parts the rows of a node come, by what was counted of the nodes before it.
fn count_of(
    alloc: Global,
    op: &NodeOp,
    sizes: &[Size],
    reducers: u32,
    split: u64,
    counts: &[u64],
    limit: u64,
) -> Result<u64, AllocError>
    requires { 0 < split }
    ensures { IfOk result (λ count. count ≡ count_to limit (sizing_of sizes.now reducers split)
        (op_of op.now) (at_place 0 counts.now)) }
{
    match op {
        NodeOp::Load { path, .. } => Ok(count_splits(path, sizes, split, limit)),
        NodeOp::Join { replicated, .. } => {
            if *replicated {
                return count_first(alloc, op, counts, limit);
            }
            count_plainly(alloc, op, reducers, counts, limit)
        }
        _ => count_plainly(alloc, op, reducers, counts, limit),
    }
}

// The splits of a LOAD of a path.
fn count_splits(path: &Text, sizes: &[Size], split: u64, limit: u64) -> u64
    requires { 0 < split }
    ensures { result ≡ min limit (length (splits_of split (lengths_in sizes.now path.now))) }
{
    match lengths_in(sizes, path.as_str()) {
        Some(lengths) => splits_up_to(lengths.as_slice(), split, limit),
        None => 0,
    }
}

fn splits_up_to(lengths: &[u64], split: u64, limit: u64) -> u64
    requires { 0 < split }
    ensures { result ≡ min limit (length (splits_of split lengths.now)) }
{
    let mut sum: u64 = 0;
    let mut left = lengths;
    while let [size, rest @ ..] = left {
        sum = limit.min(sum.saturating_add(split_count(split, *size)));
        left = rest;
    }
    sum
}

// The parts of a node's first input.
fn count_first(alloc: Global, op: &NodeOp, counts: &[u64], limit: u64) -> Result<u64, AllocError>
    ensures { IfOk result (λ count. count
        ≡ min limit (sum_by (at_place 0 counts.now) (take 1 (inputs_of (op_of op.now))))) }
{
    let inputs = op.inputs(alloc)?;
    Ok(sum_up_to(first_alone(inputs.as_slice()), counts, limit))
}

// The partitions of a source, or the parts of all inputs of a node that works row by row.
fn count_plainly(
    alloc: Global,
    op: &NodeOp,
    reducers: u32,
    counts: &[u64],
    limit: u64,
) -> Result<u64, AllocError>
    ensures { IfOk result (λ count. count
        ≡ count_plainly limit reducers (op_of op.now) (at_place 0 counts.now)) }
{
    if op.is_source() {
        return Ok(limit.min(u64::from(reduce_count(op, reducers))));
    }
    let inputs = op.inputs(alloc)?;
    Ok(sum_up_to(inputs.as_slice(), counts, limit))
}

// What was counted of nodes, together, up to a limit.
pub fn sum_up_to(numbers: &[u32], counts: &[u64], limit: u64) -> u64
    ensures { result ≡ min limit (sum_by (at_place 0 counts.now) numbers.now) }
{
    let mut sum: u64 = 0;
    let mut left = numbers;
    while let [number, rest @ ..] = left {
        sum = limit.min(sum.saturating_add(count_at(counts, *number as usize)));
        left = rest;
    }
    sum
}

// What was counted of the node of a number.
pub fn count_at(counts: &[u64], number: usize) -> u64
    ensures { result ≡ at_place 0 counts.now number }
{
    match counts.get(number) {
        Some(count) => *count,
        None => 0,
    }
}
