//! What is done to the outputs of a wave before the next one runs.
ghost use Rattle.std.specs.Prelude.{◌≡◌, ◌<◌, true, false, length, map, slice_get, IfOk};
ghost use Rattle.std.specs.Option.{is_some, option_map_or};
ghost use Rattle.pig_plan.specs.Entries.{sort_keys};
ghost use Rattle.pig_plan.specs.Nodes.{op_at};
ghost use Rattle.pig_plan.specs.Plans.{op_of, plan_of};
ghost use Rattle.pig_physical.specs.Handed.{out_of};
ghost use Rattle.pig_physical.specs.Seen.{staged, task_of};
ghost use Rattle.pig_physical.specs.Stages.{heads, tasks_in, ways_in};
ghost use Rattle.pig_driver.specs.Slicing.{AreDirected, AreSliced};
ghost use Rattle.pig_driver.specs.Sorting.{AreBetween, op_sorts, task_sorts, wave_sorts};

use crate::slicing::slice_outputs;
use pig_physical::{Out, Stages, Task};
use pig_plan::{Node, NodeOp};
use pig_value::OutList;
use std::alloc::{AllocError, Global};

// The outputs of a wave as the next one asks for them: where the wave sorts, its runs are cut into slices, one for each
// reducer.
pub fn between(
    alloc: Global,
    stages: &Stages,
    wave: u32,
    outs: OutList<Out>,
) -> Result<OutList<Out>, AllocError>
    requires wave { wave < length (heads (staged stages.now).plan) }
    requires some { 0 < (staged stages.now).sizing.reducers }
    requires directed { wave_sorts (staged stages.now) wave ≡ true → AreDirected (map out_of outs) }
    ensures { IfOk result (λ news. AreBetween (staged stages.now) wave
        (map out_of outs) (map out_of news)) }
{
    if sorts(stages, wave) {
        slice_outputs(alloc, outs, stages.reducers())
    } else {
        Ok(outs)
    }
}

// Whether a wave is that of the map tasks of a node that sorts.
fn sorts(stages: &Stages, wave: u32) -> bool
    requires { wave < length (heads (staged stages.now).plan) }
    ensures { result ≡ wave_sorts (staged stages.now) wave }
{
    if stages.tasks(wave) == 0 {
        return false;
    }
    match stages.task_at(wave, 0) {
        Task::Map(task) => node_sorts(stages.plan().nodes().as_slice(), task.node as usize),
        Task::Reduce(_) => false,
        Task::Rank(_) => false,
    }
}

fn node_sorts(nodes: &[Node], number: usize) -> bool
    ensures { result ≡ option_map_or op_sorts (op_at (plan_of nodes.now) number) false }
{
    match nodes.get(number) {
        Some(node) => op_sorts(&node.op),
        None => false,
    }
}

// Each operator stands here, so that a new one is thought of.
fn op_sorts(op: &NodeOp) -> bool
    ensures { result ≡ op_sorts (op_of op.now) }
{
    match op {
        NodeOp::Order { .. } => true,
        NodeOp::Rank { .. } => true,
        NodeOp::Load { .. } => false,
        NodeOp::Filter { .. } => false,
        NodeOp::Foreach { .. } => false,
        NodeOp::GroupAll { .. } => false,
        NodeOp::Group { .. } => false,
        NodeOp::Join { .. } => false,
        NodeOp::Union { .. } => false,
        NodeOp::Distinct { .. } => false,
        NodeOp::Limit { .. } => false,
        NodeOp::Store { .. } => false,
        NodeOp::Assert { .. } => false,
    }
}
