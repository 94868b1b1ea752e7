//! One attempt at each task of a wave. What is refused ends the process.
ghost use Rattle.std.specs.Prelude.{◌≡◌, ◌<◌, length, map};
ghost use Rattle.pig_physical.specs.Fitting.{Fits};
ghost use Rattle.pig_physical.specs.Handed.{out_of, outs_of};
ghost use Rattle.pig_physical.specs.Seen.{IsTaskOf, map_task_of, staged};
ghost use Rattle.pig_physical.specs.Stages.{heads, t_map, t_rank, t_reduce, tasks_in};
ghost use Rattle.pig_physical.specs.declared.parts.Task.TheVariants as tasks;
ghost use Rattle.pig_tasks_tests.specs.Fits.{AllFit, FitsAt, WaveFits};

use crate::standing::{all_stand, read_stands, wave_stands};
use pig_map::map_task_blocks;
use pig_outside::Stop;
use pig_physical::{MapTask, Out, Outs, ReduceTask, Stages, Task};
use pig_reduce::{rank_attempt, rank_starts, reduce_task};
use pig_silent_tests::Silent;
use pig_value::OutList;
use std::alloc::Global;
use std::process::Abort;

fn mapped<R: Abort>(
    rt: &R,
    alloc: Global,
    stages: &Stages,
    task: &MapTask,
    prior: &Outs,
    host: &mut Silent,
    block: u32,
) -> Out
    requires task { IsTaskOf (staged stages.now) task.now.wave (tasks.Map task.now) }
    requires fit { AllFit (staged stages.now) (outs_of prior.now) }
    requires block { 0 < block }
    ensures { Fits (staged stages.now) (t_map (map_task_of (staged stages.now) task.now))
        (out_of result) }
{
    if !read_stands(stages, prior, task) {
        panic!(rt; "a part or copies that aren't there");
    }
    map_task_blocks(alloc, stages, task, prior, host, block).expect(rt, "an output")
}

fn reduced<R: Abort>(
    rt: &R,
    alloc: Global,
    stages: &Stages,
    wave: u32,
    task: &ReduceTask,
    prior: &Outs,
) -> Out
    requires task { IsTaskOf (staged stages.now) wave (tasks.Reduce task.now) }
    requires fit { AllFit (staged stages.now) (outs_of prior.now) }
    ensures { Fits (staged stages.now) (t_reduce task.now) (out_of result) }
{
    if task.wave >= wave || wave - task.wave != 1 {
        panic!(rt; "a wave that isn't the one before");
    }
    if !wave_stands(stages, prior, task) {
        panic!(rt; "a wave that isn't there");
    }
    reduce_task(alloc, stages, task, prior).expect(rt, "memory")
}

// A stop that never says so.
#[derive(Drop)]
struct Never;

impl Stop for Never {
    ghost use Rattle.std.specs.Prelude.{⊤};

    ghost Kept = { ⊤ };

    ghost kept = { λ s. tt };

    ghost won = { λ s. ⊥ };

    fn is_won(&mut self) -> bool {
        false
    }
}

fn ranked<R: Abort>(
    rt: &R,
    alloc: Global,
    stages: &Stages,
    wave: u32,
    task: &ReduceTask,
    prior: &Outs,
) -> Out
    requires task { IsTaskOf (staged stages.now) wave (tasks.Rank task.now) }
    requires fit { AllFit (staged stages.now) (outs_of prior.now) }
    ensures { Fits (staged stages.now) (t_rank task.now) (out_of result) }
{
    if task.wave >= wave || wave - task.wave != 1 {
        panic!(rt; "a wave that isn't the one before");
    }
    if !all_stand(stages, prior, task.wave) {
        panic!(rt; "a wave that isn't there");
    }
    let starts = rank_starts(alloc, stages, task, prior).expect(rt, "memory");
    let start = starts.get(task.part as usize).expect(rt, "a start");
    let mut never = Never;
    let ranked = rank_attempt(alloc, stages, task, prior, start, &mut never).expect(rt, "memory");
    ranked.expect(rt, "an output")
}

fn attempt<R: Abort>(
    rt: &R,
    alloc: Global,
    stages: &Stages,
    wave: u32,
    at: u32,
    prior: &Outs,
    host: &mut Silent,
    block: u32,
) -> Out
    requires wave { wave < length (heads (staged stages.now).plan) }
    requires at { at < length (tasks_in (staged stages.now) wave) }
    requires fit { AllFit (staged stages.now) (outs_of prior.now) }
    requires block { 0 < block }
    ensures { FitsAt (staged stages.now) wave at (out_of result) }
{
    match stages.task_at(wave, at) {
        Task::Map(task) => mapped(rt, alloc, stages, task, prior, host, block),
        Task::Reduce(task) => reduced(rt, alloc, stages, wave, task, prior),
        Task::Rank(task) => ranked(rt, alloc, stages, wave, task, prior),
    }
}

/// The outputs of a wave.
pub fn wave_of<R: Abort>(
    rt: &R,
    alloc: Global,
    stages: &Stages,
    wave: u32,
    prior: &Outs,
    host: &mut Silent,
    block: u32,
) -> OutList<Out>
    requires wave { wave < length (heads (staged stages.now).plan) }
    requires fit { AllFit (staged stages.now) (outs_of prior.now) }
    requires block { 0 < block }
    ensures { WaveFits (staged stages.now) wave (map out_of result) }
{
    let mut outs = OutList::new(alloc);
    for at in 0..stages.tasks(wave) {
        let out = attempt(rt, alloc, stages, wave, at, prior, host, block);
        outs.push(out).expect(rt, "memory");
    }
    outs
}
