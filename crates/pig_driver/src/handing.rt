//! How many entries map tasks handed on.
ghost use Rattle.std.specs.Prelude.{◌≡◌, ◌<◌, ◌%◌, ◌^◌, List, length, map, slice_get};
ghost use Rattle.std.specs.List.{sum_by};
ghost use Rattle.std.specs.Option.{option_map_or};
ghost use Rattle.pig_plan.specs.Nodes.{Entering, op_at};
ghost use Rattle.pig_plan.specs.Plans.{op_of, plan_of};
ghost use Rattle.pig_physical.specs.Handed.{form_of, out_of, runs_of_out};
ghost use Rattle.pig_physical.specs.Seen.{staged, task_of};
ghost use Rattle.pig_physical.specs.Stages.{heads, is_replicated, tasks_in};
ghost use Rattle.pig_driver.specs.Handing.{entries_in, handed_by, handed_in, handed_of};

use pig_physical::{Out, OutForm, OutRuns, Stages, Task};
use pig_plan::{Node, NodeOp};

// The number of entries that the map tasks of a wave handed on, modulo 2 to the 64.
pub fn handed_in(stages: &Stages, wave: u32, outs: &[Out]) -> u64
    requires { wave < length (heads (staged stages.now).plan) }
    ensures { result ≡ handed_in (staged stages.now).plan
        (tasks_in (staged stages.now) wave) (map out_of outs.now) % 2 ^ 64 }
{
    let nodes = stages.plan().nodes().as_slice();
    let mut count: u64 = 0;
    for at in 0..outs.len().min(stages.tasks(wave) as usize) {
        count = count.wrapping_add(handed_by(nodes, stages.task_at(wave, at as u32), &outs[at]));
    }
    count
}

// The entries of one task; its way is of no account.
fn handed_by(nodes: &[Node], task: &Task, out: &Out) -> u64
    ensures { (ways : List Entering) → result
        ≡ handed_by (plan_of nodes.now) (task_of ways task.now) (out_of out.now) % 2 ^ 64 }
{
    match task {
        Task::Map(task) => handed_at(nodes, task.node as usize, &out.form),
        Task::Reduce(_) => 0,
        Task::Rank(_) => 0,
    }
}

fn handed_at(nodes: &[Node], number: usize, form: &OutForm) -> u64
    ensures { result ≡ option_map_or (λ o. handed_of o (form_of form.now))
        (op_at (plan_of nodes.now) number) 0 % 2 ^ 64 }
{
    match nodes.get(number) {
        Some(node) => handed_of(&node.op, form),
        None => 0,
    }
}

// Rows that are copied, and joined with copies, are no entries.
fn handed_of(op: &NodeOp, form: &OutForm) -> u64
    ensures { result ≡ handed_of (op_of op.now) (form_of form.now) % 2 ^ 64 }
{
    if is_replicated(op) {
        0
    } else {
        entries_in(form)
    }
}

// Each operator stands here, so that a new one is thought of.
fn is_replicated(op: &NodeOp) -> bool
    ensures { result ≡ is_replicated (op_of op.now) }
{
    match op {
        NodeOp::Join { replicated, .. } => *replicated,
        NodeOp::Load { .. } => false,
        NodeOp::Filter { .. } => false,
        NodeOp::Foreach { .. } => false,
        NodeOp::GroupAll { .. } => false,
        NodeOp::Group { .. } => false,
        NodeOp::Union { .. } => false,
        NodeOp::Distinct { .. } => false,
        NodeOp::Order { .. } => false,
        NodeOp::Limit { .. } => false,
        NodeOp::Store { .. } => false,
        NodeOp::Assert { .. } => false,
        NodeOp::Rank { .. } => false,
    }
}

fn entries_in(form: &OutForm) -> u64
    ensures { result ≡ entries_in (form_of form.now) % 2 ^ 64 }
{
    match form {
        OutForm::Rows(rows) => rows.len() as u64,
        OutForm::Runs(runs) => entries_of(runs),
        OutForm::Parts(_) => 0,
    }
}

fn entries_of(runs: &OutRuns) -> u64
    ensures { result ≡ sum_by (λ run. length run.entries) (runs_of_out runs.now) % 2 ^ 64 }
{
    let mut count: u64 = 0;
    for at in 0..runs.len() {
        count = count.wrapping_add(entries_at(runs, at));
    }
    count
}

fn entries_at(runs: &OutRuns, at: usize) -> u64
    ensures { result ≡ option_map_or (λ run. length run.entries)
        (slice_get (runs_of_out runs.now) at) 0 }
{
    match runs.part(at) {
        Some(part) => part.end.saturating_sub(part.from) as u64,
        None => 0,
    }
}
