//! What the parts of each node are read from.
ghost use Rattle.std.specs.Prelude.{◌≡◌, ◌<◌, ◌+◌, ◌-◌, false, length, map, IfOk};
ghost use Rattle.pig_plan.specs.Nodes.{live_marks};
ghost use Rattle.pig_plan.specs.Plans.{op_of, plan_of};
ghost use Rattle.pig_plan.specs.Results.{at_place};
ghost use Rattle.pig_physical.specs.Seen.{lengths_in};
ghost use Rattle.pig_physical.specs.Stages.{reduce_count, waves_of};
ghost use Rattle.pig_cutter.specs.Tables.{r_outputs, r_splits, reading_of, readings, reads, waves_behind};

use crate::counting::count_at;
use pig_physical::{Size, lengths_in};
use pig_plan::{Node, NodeOp};
use pig_value::{Lengths, Text};
use std::alloc::{AllocError, Global};

// What the parts of a node are read from.
#[derive(Clone, Copy, Drop)]
pub enum Source<'p> {
    // An input that has no piece.
    Nothing,
    // Pieces of these lengths, split by split.
    Splits(&'p Lengths),
    // The outputs of a wave, so many.
    Outputs { wave: u32, count: u64 },
}

// Of each node, in order, what its parts are read from. `marks` tell which nodes are live: these have waves; `counts`, how
// many parts each node has.
pub fn sources<'p>(
    alloc: Global,
    nodes: &[Node],
    marks: &[bool],
    sizes: &'p [Size],
    counts: &[u64],
) -> Result<Vec<Source<'p>>, AllocError>
    requires { marks.now ≡ live_marks (plan_of nodes.now) }
    ensures { IfOk result (λ found. map reading_of found.items
        ≡ readings (plan_of nodes.now) sizes.now counts.now) }
{
    let mut found = Vec::with_capacity(alloc, nodes.len())?;
    let mut wave: u32 = 0;
    for number in 0..nodes.len() {
        let op = &nodes[number].op;
        let source = source_of(op, wave, sizes, count_at(counts, number))?;
        found.push(source)?;
        wave = behind_waves(op, is_marked(marks, number), wave)?;
    }
    Ok(found)
}

fn is_marked(marks: &[bool], number: usize) -> bool
    ensures { result ≡ at_place false marks.now number }
{
    match marks.get(number) {
        Some(mark) => *mark,
        None => false,
    }
}

// The number of the wave behind those of a node, which has some where it is a live boundary node.
fn behind_waves(op: &NodeOp, is_live: bool, wave: u32) -> Result<u32, AllocError>
    ensures { IfOk result (λ next. next ≡ waves_behind is_live (op_of op.now) wave) }
{
    if is_live && op.is_boundary() {
        return sum(wave, wave_count(op));
    }
    Ok(wave)
}

fn sum(a: u32, b: u32) -> Result<u32, AllocError>
    ensures { IfOk result (λ sum. sum ≡ a + b) }
{
    match a.checked_add(b) {
        Some(sum) => Ok(sum),
        None => Err(AllocError),
    }
}

// How many waves a boundary node has.
fn wave_count(op: &NodeOp) -> u32
    ensures is { result ≡ length (waves_of (op_of op.now)) }
    ensures some { 0 < result }
{
    match op {
        NodeOp::Rank { .. } => 3,
        NodeOp::Join { .. } => 2,
        NodeOp::Load { .. } => 2,
        NodeOp::Filter { .. } => 2,
        NodeOp::Foreach { .. } => 2,
        NodeOp::GroupAll { .. } => 2,
        NodeOp::Group { .. } => 2,
        NodeOp::Union { .. } => 2,
        NodeOp::Distinct { .. } => 2,
        NodeOp::Order { .. } => 2,
        NodeOp::Limit { .. } => 2,
        NodeOp::Store { .. } => 2,
        NodeOp::Assert { .. } => 2,
    }
}

// What the parts of a node are read from, where `wave` is its first one and `count` tells how many there are.
fn source_of<'p>(
    op: &NodeOp,
    wave: u32,
    sizes: &'p [Size],
    count: u64,
) -> Result<Source<'p>, AllocError>
    ensures { IfOk result (λ source. reading_of source
        ≡ reads sizes.now count wave (op_of op.now)) }
{
    match op {
        NodeOp::Load { path, .. } => Ok(loaded(path, sizes)),
        _ => outputs(op, wave, count),
    }
}

// The outputs of a node's last wave.
fn outputs<'p>(op: &NodeOp, wave: u32, count: u64) -> Result<Source<'p>, AllocError>
    ensures { IfOk result (λ source. reading_of source
        ≡ r_outputs (wave + (length (waves_of (op_of op.now)) - 1)) count) }
{
    let wave = sum(wave, wave_count(op) - 1)?;
    Ok(Source::Outputs { wave, count })
}

// How many partitions a node has that brings rows together: a LIMIT one, others one for each reducer.
pub fn reduce_count(op: &NodeOp, reducers: u32) -> u32
    ensures { result ≡ reduce_count reducers (op_of op.now) }
{
    match op {
        NodeOp::Limit { .. } => 1,
        NodeOp::Load { .. } => reducers,
        NodeOp::Filter { .. } => reducers,
        NodeOp::Foreach { .. } => reducers,
        NodeOp::GroupAll { .. } => reducers,
        NodeOp::Group { .. } => reducers,
        NodeOp::Join { .. } => reducers,
        NodeOp::Union { .. } => reducers,
        NodeOp::Distinct { .. } => reducers,
        NodeOp::Order { .. } => reducers,
        NodeOp::Store { .. } => reducers,
        NodeOp::Assert { .. } => reducers,
        NodeOp::Rank { .. } => reducers,
    }
}

// What a LOAD of a path reads.
fn loaded<'p>(path: &Text, sizes: &'p [Size]) -> Source<'p>
    ensures { reading_of result ≡ r_splits (lengths_in sizes.now path.now) }
{
    match lengths_in(sizes, path.as_str()) {
        Some(lengths) => Source::Splits(lengths),
        None => Source::Nothing,
    }
}
