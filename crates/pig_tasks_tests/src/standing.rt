//! Whether that stands which a task names.
ghost use Rattle.std.specs.Prelude.{◌≡◌, ◌<◌, IsTrue, length, map};
ghost use Rattle.std.specs.List.{AllByRecursion};
ghost use Rattle.std.specs.Option.{is_some, option_map};
ghost use Rattle.pig_plan.specs.Entries.{sort_keys};
ghost use Rattle.pig_plan.specs.Nodes.{op_at};
ghost use Rattle.pig_plan.specs.Plans.{op_of};
ghost use Rattle.pig_physical.specs.Fitting.{HasAll, HasCopies, HasOutput, HasPart, HasRead, HasWave};
ghost use Rattle.pig_physical.specs.Handed.{out_of, outs_of};
ghost use Rattle.pig_physical.specs.Outs.{runs_in};
ghost use Rattle.pig_physical.specs.Seen.{IsTaskOf, map_task_of, staged};
ghost use Rattle.pig_physical.specs.Stages.{heads};
ghost use Rattle.pig_physical.specs.declared.parts.Task.TheVariants as tasks;
ghost use Rattle.pig_physical.specs.declared.waves.WaveKind.TheVariants as kinds;
ghost use Rattle.pig_tasks_tests.specs.Fits.{AllCopied, AllFit, CopiedAt};

use pig_physical::{MapTask, Out, OutForm, Outs, Part, ReduceTask, Stages, WaveKind};
use pig_plan::NodeOp;

/// Whether the output of a task of an earlier wave stands.
fn output_stands(stages: &Stages, prior: &Outs, wave: u32, at: u32) -> bool
    requires { AllFit (staged stages.now) (outs_of prior.now) }
    ensures { IsTrue result → HasOutput (staged stages.now) (outs_of prior.now) wave at }
{
    let Some(outs) = prior.get(wave as usize) else {
        return false;
    };
    match outs.get(at as usize) {
        Some(_) => true,
        None => false,
    }
}

/// Whether the part stands that a task reads.
fn part_stands(stages: &Stages, prior: &Outs, part: &Part) -> bool
    requires { AllFit (staged stages.now) (outs_of prior.now) }
    ensures { IsTrue result → HasPart (staged stages.now) (outs_of prior.now) part.now }
{
    match part {
        Part::Split(_) => true,
        Part::Output { wave, at } => output_stands(stages, prior, *wave, *at),
    }
}

/// Whether all that a task reads stands: its part, and the copies that it probes.
pub fn read_stands(stages: &Stages, prior: &Outs, task: &MapTask) -> bool
    requires task { IsTaskOf (staged stages.now) task.now.wave (tasks.Map task.now) }
    requires fit { AllFit (staged stages.now) (outs_of prior.now) }
    ensures { IsTrue result → HasRead (staged stages.now) (outs_of prior.now)
        (map_task_of (staged stages.now) task.now) }
{
    if !part_stands(stages, prior, &task.part) {
        return false;
    }
    copies_stand(stages, prior, task)
}

/// Whether all copies stand that a task probes; one of a further input probes none.
fn copies_stand(stages: &Stages, prior: &Outs, task: &MapTask) -> bool
    requires task { IsTaskOf (staged stages.now) task.now.wave (tasks.Map task.now) }
    requires fit { AllFit (staged stages.now) (outs_of prior.now) }
    ensures { IsTrue result → HasCopies (staged stages.now) (outs_of prior.now)
        (map_task_of (staged stages.now) task.now) }
{
    if stages.way_of(task).input != 0 {
        return true;
    }
    all_copied(stages, prior, task.node)
}

/// Whether each wave stands that copies for a node.
fn all_copied(stages: &Stages, prior: &Outs, node: u32) -> bool
    requires { AllFit (staged stages.now) (outs_of prior.now) }
    ensures { IsTrue result → AllCopied (staged stages.now) (outs_of prior.now) node }
{
    for wave in 0..stages.waves() {
        if !copied_at(stages, prior, wave, node) {
            return false;
        }
    }
    true
}

fn copied_at(stages: &Stages, prior: &Outs, wave: u32, node: u32) -> bool
    requires wave { wave < length (heads (staged stages.now).plan) }
    requires fit { AllFit (staged stages.now) (outs_of prior.now) }
    ensures { IsTrue result → CopiedAt (staged stages.now) (outs_of prior.now) node wave }
{
    if !is_copy(stages.kind(wave)) {
        return true;
    }
    if stages.node(wave) != node {
        return true;
    }
    all_stand(stages, prior, wave)
}

fn is_copy(kind: WaveKind) -> bool
    ensures { kind ≡ kinds.Copy → IsTrue result }
{
    match kind {
        WaveKind::Copy => true,
        WaveKind::Map => false,
        WaveKind::Reduce => false,
        WaveKind::Probe => false,
        WaveKind::Rank => false,
        WaveKind::Store => false,
    }
}

/// Whether an output has so many runs.
fn has_runs(out: &Out, count: u32) -> bool
    ensures { IsTrue result → length (runs_in (out_of out.now).form) ≡ count }
{
    match &out.form {
        OutForm::Runs(runs) => runs.len() == count as usize,
        OutForm::Rows(_) => count == 0,
        OutForm::Parts(_) => count == 0,
    }
}

/// Whether each output does.
fn have_runs(outs: &[Out], count: u32) -> bool
    ensures { IsTrue result
        → AllByRecursion (λ out. length (runs_in out.form) ≡ count) (map out_of outs.now) }
{
    let mut left = outs;
    while let [out, rest @ ..] = left {
        if !has_runs(out, count) {
            return false;
        }
        left = rest;
    }
    true
}

/// The operator of a node.
pub fn operator<'p>(stages: &'p Stages, node: u32) -> Option<&'p NodeOp>
    ensures { option_map (λ op. op_of op.now) result ≡ op_at (staged stages.now).plan node }
{
    match stages.plan().nodes().get(node as usize) {
        Some(node) => Some(&node.op),
        None => None,
    }
}

fn sorts(op: &NodeOp) -> bool
    ensures { result ≡ is_some (sort_keys (op_of op.now)) }
{
    matches!(op, NodeOp::Order { .. } | NodeOp::Rank { .. })
}

/// Whether all outputs of a wave stand.
pub fn all_stand(stages: &Stages, prior: &Outs, wave: u32) -> bool
    requires wave { wave < length (heads (staged stages.now).plan) }
    requires fit { AllFit (staged stages.now) (outs_of prior.now) }
    ensures { IsTrue result → HasAll (staged stages.now) (outs_of prior.now) wave }
{
    match prior.get(wave as usize) {
        Some(outs) => outs.len() == stages.tasks(wave) as usize,
        None => false,
    }
}

/// Whether the wave stands that a reduce task reads. The runs of a node that sorts are cut.
pub fn wave_stands(stages: &Stages, prior: &Outs, task: &ReduceTask) -> bool
    requires wave { task.now.wave < length (heads (staged stages.now).plan) }
    requires fit { AllFit (staged stages.now) (outs_of prior.now) }
    ensures { IsTrue result → HasWave (staged stages.now) (outs_of prior.now) task.now }
{
    let Some(outs) = prior.get(task.wave as usize) else {
        return false;
    };
    if outs.len() != stages.tasks(task.wave) as usize {
        return false;
    }
    let Some(op) = operator(stages, task.node) else {
        return false;
    };
    if !sorts(op) {
        return true;
    }
    have_runs(outs.as_slice(), stages.reducers())
}
