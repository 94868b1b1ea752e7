//! The runs for a node that sorts, cut behind its map tasks. What is refused ends the process.
ghost use Rattle.std.specs.Prelude.{◌<◌, IsTrue, List, length, map};
ghost use Rattle.pig_plan.specs.Nodes.{Entering};
ghost use Rattle.pig_physical.specs.Handed.{out_of};
ghost use Rattle.pig_physical.specs.Seen.{staged, task_of};
ghost use Rattle.pig_physical.specs.Stages.{heads, tasks_in};
ghost use Rattle.pig_tasks_tests.specs.Fits.{AllGoTo, GoesTo, IsByKeys, IsSorting, WaveFits};

use crate::standing::operator;
use pig_driver::slice_outputs;
use pig_physical::{Out, Stages, Task};
use pig_plan::NodeOp;
use pig_value::OutList;
use std::alloc::Global;
use std::process::Abort;

fn is_by_keys(stages: &Stages, node: u32) -> bool
    ensures { IsTrue result → IsByKeys (staged stages.now).plan node }
{
    let Some(op) = operator(stages, node) else {
        return false;
    };
    match op {
        NodeOp::Order { .. } => true,
        NodeOp::Rank { .. } => true,
        _ => false,
    }
}

/// Whether all tasks of a wave hand rows to a node.
fn all_go_to(stages: &Stages, wave: u32, node: u32) -> bool
    requires { wave < length (heads (staged stages.now).plan) }
    ensures { IsTrue result → AllGoTo (staged stages.now) wave node }
{
    for at in 0..stages.tasks(wave) {
        if !goes_to(stages.task_at(wave, at), node) {
            return false;
        }
    }
    true
}

fn goes_to(task: &Task, node: u32) -> bool
    ensures { (ways : List Entering) → IsTrue result → GoesTo node (task_of ways task.now) }
{
    match task {
        Task::Map(task) => task.node == node,
        Task::Reduce(_) => false,
        Task::Rank(_) => false,
    }
}

/// Whether they hand them to one node that sorts.
fn sorts(stages: &Stages, wave: u32) -> bool
    requires { wave < length (heads (staged stages.now).plan) }
    ensures { IsTrue result → IsSorting (staged stages.now) wave }
{
    if stages.tasks(wave) == 0 {
        return false;
    }
    let Task::Map(first) = stages.task_at(wave, 0) else {
        return false;
    };
    if !is_by_keys(stages, first.node) {
        return false;
    }
    all_go_to(stages, wave, first.node)
}

/// The outputs of a wave as the next one asks for them.
pub fn cut<R: Abort>(
    rt: &R,
    alloc: Global,
    stages: &Stages,
    wave: u32,
    outs: OutList<Out>,
) -> OutList<Out>
    requires wave { wave < length (heads (staged stages.now).plan) }
    requires fit { WaveFits (staged stages.now) wave (map out_of outs) }
    ensures { WaveFits (staged stages.now) wave (map out_of result) }
{
    if stages.reducers() == 0 || !sorts(stages, wave) {
        return outs;
    }
    slice_outputs(alloc, outs, stages.reducers()).expect(rt, "memory")
}
