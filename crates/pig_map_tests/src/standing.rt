//! Whether all stands that a task of the first two waves reads.
ghost use Rattle.std.specs.Prelude.{◌≡◌, ◌<◌, IsTrue, length};
ghost use Rattle.std.specs.Option.{option_map};
ghost use Rattle.pig_plan.specs.Nodes.{op_at};
ghost use Rattle.pig_plan.specs.Plans.{op_of};
ghost use Rattle.pig_physical.specs.Fitting.{HasAll, HasCopies, HasPart, HasRead};
ghost use Rattle.pig_physical.specs.Outs.{Outs as GivenOuts};
ghost use Rattle.pig_physical.specs.Seen.{IsTaskOf, map_task_of, staged};
ghost use Rattle.pig_physical.specs.Stages.{Stages as GivenStages, heads, is_replicated};
ghost use Rattle.pig_physical.specs.declared.parts.Task.TheVariants as tasks;
ghost use Rattle.pig_physical.specs.declared.waves.WaveKind.TheVariants as kinds;
ghost use Rattle.pig_map_tests.specs.First.{CopiesFirst, FirstCopies};

use pig_physical::{MapTask, Part, Stages, WaveKind};
use pig_plan::NodeOp;

/// Whether a task reads a split and probes nothing.
pub fn reads_split(stages: &Stages, task: &MapTask) -> bool
    requires { IsTaskOf (staged stages.now) task.now.wave (tasks.Map task.now) }
    ensures { IsTrue result → (outs : GivenOuts) → HasRead (staged stages.now) outs
        (map_task_of (staged stages.now) task.now) }
{
    if !is_split(&task.part) {
        return false;
    }
    probes_nothing(stages, task)
}

/// Whether a task reads a split, and the copies that it may probe are those of the first wave.
pub fn reads_copies(stages: &Stages, task: &MapTask) -> bool
    requires { IsTaskOf (staged stages.now) task.now.wave (tasks.Map task.now) }
    ensures { IsTrue result → (outs : GivenOuts) → HasAll (staged stages.now) outs 0
        → HasRead (staged stages.now) outs (map_task_of (staged stages.now) task.now) }
{
    if !is_split(&task.part) {
        return false;
    }
    first_copies(stages)
}

fn is_split(part: &Part) -> bool
    ensures { IsTrue result → (s : GivenStages) (outs : GivenOuts) → HasPart s outs part.now }
{
    match part {
        Part::Split(_) => true,
        Part::Output { .. } => false,
    }
}

/// Whether a task is none of the first input of a replicated JOIN.
fn probes_nothing(stages: &Stages, task: &MapTask) -> bool
    requires { IsTaskOf (staged stages.now) task.now.wave (tasks.Map task.now) }
    ensures { IsTrue result → (outs : GivenOuts) → HasCopies (staged stages.now) outs
        (map_task_of (staged stages.now) task.now) }
{
    let Some(op) = operator(stages, task.node) else {
        return false;
    };
    if !is_replicated(op) {
        return true;
    }
    stages.way_of(task).input != 0
}

/// The operator of a node.
fn operator<'p>(stages: &'p Stages, node: u32) -> Option<&'p NodeOp>
    ensures { option_map (λ op. op_of op.now) result ≡ op_at (staged stages.now).plan node }
{
    match stages.plan().nodes().get(node as usize) {
        Some(node) => Some(&node.op),
        None => None,
    }
}

// Each operator stands here, so that a new one is thought of.
fn is_replicated(op: &NodeOp) -> bool
    ensures { result ≡ is_replicated (op_of op.now) }
{
    match op {
        NodeOp::Join { replicated, .. } => *replicated,
        NodeOp::Load { .. } => false,
        NodeOp::Filter { .. } => false,
        NodeOp::Foreach { .. } => false,
        NodeOp::GroupAll { .. } => false,
        NodeOp::Group { .. } => false,
        NodeOp::Union { .. } => false,
        NodeOp::Distinct { .. } => false,
        NodeOp::Order { .. } => false,
        NodeOp::Limit { .. } => false,
        NodeOp::Store { .. } => false,
        NodeOp::Assert { .. } => false,
        NodeOp::Rank { .. } => false,
    }
}

/// Whether no wave copies but the first.
fn first_copies(stages: &Stages) -> bool
    ensures { IsTrue result → FirstCopies (staged stages.now) }
{
    for wave in 0..stages.waves() {
        if !copies_first(stages, wave) {
            return false;
        }
    }
    true
}

fn copies_first(stages: &Stages, wave: u32) -> bool
    requires { wave < length (heads (staged stages.now).plan) }
    ensures { IsTrue result → CopiesFirst (staged stages.now) wave }
{
    if !is_copy(stages.kind(wave)) {
        return true;
    }
    wave == 0
}

fn is_copy(kind: WaveKind) -> bool
    ensures { kind ≡ kinds.Copy → IsTrue result }
{
    match kind {
        WaveKind::Copy => true,
        WaveKind::Map => false,
        WaveKind::Reduce => false,
        WaveKind::Probe => false,
        WaveKind::Rank => false,
        WaveKind::Store => false,
    }
}
