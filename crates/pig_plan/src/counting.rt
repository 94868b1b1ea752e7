ghost use Rattle.std.specs.Prelude.{◌≡◌, ℕ, min, IfOk};
ghost use Rattle.std.specs.List.{sum_by};
ghost use Rattle.pig_plan.specs.Counts.{counts_of, path_counts, ways_up_to};
ghost use Rattle.pig_plan.specs.Plans.{op_of, plan_of};
ghost use Rattle.pig_plan.specs.Results.{at_place};

use crate::{Node, NodeOp, Plan};
use std::alloc::{AllocError, Global};

/// Of each node, in order, how many paths it has, counted up to a limit: each UNION may double them, so they are more
/// than a number of 64 bits holds.
pub fn path_counts(alloc: Global, plan: &Plan, limit: u64) -> Result<Vec<u64>, AllocError>
    ensures { IfOk result (λ counts. counts.items ≡ path_counts limit (plan_of plan.now)) }
{
    count_paths(alloc, plan.nodes().as_slice(), limit)
}

fn count_paths(alloc: Global, nodes: &[Node], limit: u64) -> Result<Vec<u64>, AllocError>
    ensures { IfOk result (λ counts. counts.items ≡ counts_of limit (plan_of nodes.now)) }
{
    let mut counts = Vec::with_capacity(alloc, nodes.len())?;
    let mut left = nodes;
    while let [node, rest @ ..] = left {
        let own = ways_up_to(alloc, &node.op, counts.as_slice(), limit)?;
        counts.push(own)?;
        left = rest;
    }
    Ok(counts)
}

// How many paths a node has, by those of the nodes before it.
fn ways_up_to(alloc: Global, op: &NodeOp, counts: &[u64], limit: u64) -> Result<u64, AllocError>
    ensures { IfOk result (λ count. count
        ≡ ways_up_to limit (op_of op.now) (at_place 0 counts.now)) }
{
    if op.is_source() {
        return Ok(limit.min(1));
    }
    let inputs = op.inputs(alloc)?;
    Ok(sum_up_to(inputs.as_slice(), counts, limit))
}

fn sum_up_to(numbers: &[u32], counts: &[u64], limit: u64) -> u64
    ensures { result ≡ min limit (sum_by (at_place 0 counts.now) numbers.now) }
{
    let mut sum: u64 = 0;
    let mut left = numbers;
    while let [number, rest @ ..] = left {
        sum = limit.min(sum.saturating_add(count_at(counts, *number as usize)));
        left = rest;
    }
    sum
}

fn count_at(counts: &[u64], number: usize) -> u64
    ensures { result ≡ at_place 0 counts.now number }
{
    match counts.get(number) {
        Some(count) => *count,
        None => 0,
    }
}
