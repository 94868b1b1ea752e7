//! Outputs go as soon as no later wave looks at them.
ghost use Rattle.std.specs.Prelude.{◌≡◌, ◌<◌, ◌+◌, List, true, false, length, map, slice_set, IfOk};
ghost use Rattle.std.specs.Option.{option_map_or};
ghost use Rattle.pig_plan.specs.Nodes.{Entering, op_at};
ghost use Rattle.pig_plan.specs.Plans.{plan_of};
ghost use Rattle.pig_physical.specs.Handed.{out_of, outs_of};
ghost use Rattle.pig_physical.specs.Seen.{staged, task_of};
ghost use Rattle.pig_physical.specs.Stages.{heads, tasks_in};
ghost use Rattle.pig_driver.specs.Left.{AreLastLooks, HaveAllLooked, HaveGone, HaveMarked, IsChosen, bare, bared_at, bared_where, copies_by, copies_in, limits, looked, named_wave, part_wave, set_look};

use pig_physical::{Out, OutForm, Outs, Part, Stages, Task, WaveKind};
use pig_plan::{Node, NodeOp};
use pig_value::{Blob, OutList};
use std::alloc::{AllocError, Global};

// Of each wave the last one that looks at its outputs; the number of waves where these are looked at behind all
// waves, or not at all.
pub fn last_looks(alloc: Global, stages: &Stages) -> Result<Vec<u32>, AllocError>
    ensures { IfOk result (λ lasts. AreLastLooks (staged stages.now) lasts.items) }
{
    let _nodes = stages.plan().nodes();
    let waves = stages.waves();
    let mut lasts = Vec::new(alloc);
    lasts.resize(waves as usize, waves)?;
    for wave in 0..waves {
        note_looks(stages, wave, &mut lasts);
        note_copies(stages, wave, &mut lasts);
    }
    for wave in 0..waves {
        mark_lasting(stages, wave, &mut lasts);
    }
    Ok(lasts)
}

// A wave looks at what its tasks name.
fn note_looks(stages: &Stages, wave: u32, lasts: &mut Vec<u32>)
    requires { wave < length (heads (staged stages.now).plan) }
    ensures { lasts.new.items
        ≡ looked (tasks_in (staged stages.now) wave) wave lasts.old.items }
{
    for at in 0..stages.tasks(wave) {
        note_look(stages.task_at(wave, at), wave, lasts);
    }
}

fn note_look(task: &Task, wave: u32, lasts: &mut Vec<u32>)
    ensures { (ways : List Entering)
        → lasts.new.items ≡ set_look (named_wave (task_of ways task.now)) wave lasts.old.items }
{
    if let Some(named) = named_wave(task) {
        put_look(named, wave, lasts);
    }
}

// A wave of tasks that probe looks at all copies.
fn note_copies(stages: &Stages, wave: u32, lasts: &mut Vec<u32>)
    requires { wave < length (heads (staged stages.now).plan) }
    ensures { lasts.new.items
        ≡ set_look (copies_in (staged stages.now) wave) wave lasts.old.items }
{
    if let Some(copies) = copies_by(stages.kind(wave), wave) {
        put_look(copies, wave, lasts);
    }
}

// The wave of copies before a wave.
fn copies_by(kind: WaveKind, wave: u32) -> Option<u32>
    ensures { result ≡ copies_by kind wave }
{
    match kind {
        WaveKind::Probe => Some(wave.saturating_sub(1)),
        WaveKind::Map => None,
        WaveKind::Reduce => None,
        WaveKind::Copy => None,
        WaveKind::Rank => None,
        WaveKind::Store => None,
    }
}

fn put_look(named: u32, wave: u32, lasts: &mut Vec<u32>)
    ensures { lasts.new.items ≡ slice_set lasts.old.items named wave }
{
    if (named as usize) < lasts.len() {
        lasts[named as usize] = wave;
    }
}

// The outputs of the last wave and of a LIMIT are looked at behind all waves.
fn mark_lasting(stages: &Stages, wave: u32, lasts: &mut Vec<u32>)
    requires { wave < length (heads (staged stages.now).plan) }
    ensures size { length lasts.new.items ≡ length lasts.old.items }
    ensures looked { HaveAllLooked (staged stages.now) lasts.old.items
        → HaveAllLooked (staged stages.now) lasts.new.items }
    ensures marked { HaveMarked (staged stages.now) wave lasts.old.items
        → HaveMarked (staged stages.now) (wave + 1) lasts.new.items }
{
    let waves = stages.waves();
    if wave + 1 < waves && !is_chosen(stages, wave) {
        return;
    }
    put_look(wave, waves, lasts);
}

// The wave whose outputs a task names; its way is of no account.
fn named_wave(task: &Task) -> Option<u32>
    ensures { (ways : List Entering) → result ≡ named_wave (task_of ways task.now) }
{
    match task {
        Task::Map(task) => part_wave(&task.part),
        Task::Reduce(task) => Some(task.wave),
        Task::Rank(task) => Some(task.wave),
    }
}

fn part_wave(part: &Part) -> Option<u32>
    ensures { result ≡ part_wave part.now }
{
    match part {
        Part::Split(_) => None,
        Part::Output { wave, .. } => Some(*wave),
    }
}

// Whether a wave gives the rows of a LIMIT.
fn is_chosen(stages: &Stages, wave: u32) -> bool
    requires { wave < length (heads (staged stages.now).plan) }
    ensures { IsChosen (staged stages.now) wave → result ≡ true }
{
    if stages.tasks(wave) == 0 {
        return false;
    }
    match stages.task_at(wave, 0) {
        Task::Map(_) => false,
        Task::Reduce(task) => is_limit(stages.plan().nodes().as_slice(), task.node as usize),
        Task::Rank(_) => false,
    }
}

fn is_limit(nodes: &[Node], number: usize) -> bool
    ensures { result ≡ option_map_or limits (op_at (plan_of nodes.now) number) false }
{
    match nodes.get(number) {
        Some(node) => matches!(&node.op, NodeOp::Limit { .. }),
        None => false,
    }
}

// Lets go what the tasks handed on that this wave is the last to look at.
pub fn let_go(alloc: Global, lasts: &[u32], wave: u32, outs: &mut Outs)
    ensures { HaveGone lasts.now wave (outs_of outs.old) (outs_of outs.new) }
{
    for at in 0..lasts.len().min(outs.len()) {
        let_go_at(alloc, lasts[at] == wave, at, outs);
    }
}

fn let_go_at(alloc: Global, goes: bool, at: usize, outs: &mut Outs)
    requires { at < length outs.old }
    ensures { outs_of outs.new ≡ bared_where goes at (outs_of outs.old) }
{
    if goes {
        bare_at(alloc, at, outs);
    }
}

// Lets go what the tasks of one wave handed on.
fn bare_at(alloc: Global, at: usize, outs: &mut Outs)
    requires { at < length outs.old }
    ensures { outs_of outs.new ≡ bared_at at (outs_of outs.old) }
{
    let held = outs.replace(at, OutList::new(alloc));
    outs.replace(at, bared(alloc, held));
}

// The outputs without their forms.
fn bared(alloc: Global, outs: OutList<Out>) -> OutList<Out>
    ensures { map out_of result ≡ map bare (map out_of outs) }
{
    let mut outs = outs.into_vec();
    for out in outs.iter_mut() {
        out.form = OutForm::Parts(Blob::new(alloc));
    }
    OutList::from_vec(outs)
}
