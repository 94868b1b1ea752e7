// One attempt at a task of a wave.
ghost use Rattle.std.specs.Prelude.{◌≡◌, ◌<◌, ◌≤◌, ◌+◌, ◌∷◌, [], Some, length, slice_get, IfErr, IfOk, IfSome, IfNone, IsErrOf};
ghost use Rattle.std.specs.Option.{ForSome};
ghost use Rattle.pig_physical.specs.Fitting.{HasAll, HasWave};
ghost use Rattle.pig_physical.specs.Handed.{out_of, outs_of};
ghost use Rattle.pig_physical.specs.Seen.{IsOwn, IsTaskOf, staged, task_of};
ghost use Rattle.pig_physical.specs.Stages.{heads, t_rank, t_reduce, tasks_in, ways_in};
ghost use Rattle.pig_physical.specs.declared.parts.Task.TheVariants as tasks;
ghost use Rattle.pig_reduce.specs.Made.{IsStartIn};
ghost use Rattle.pig_work.specs.Working.{HasSources, IsReady, IsRight, IsRightAt, IsShared, Tellings};

use crate::work::Shared;
use pig_fitting::reduce_forms_fit;
use pig_map::map_attempt;
use pig_outside::{AttemptFault, Host, Stop};
use pig_physical::{Out, Outs, ReduceTask, Stages, Task};
use pig_rank::Starts;
use pig_reduce::{rank_attempt, reduce_attempt};
use std::alloc::{AllocError, Global};

// How many bytes an attempt reads at most at a time.
const BLOCK: u32 = 65_536;

// Attempts the task at a place of a wave, where all that its tasks name stands.
pub(crate) fn attempt_at<H: Host, S: Stop>(
    alloc: Global,
    stages: &Stages,
    wave: u32,
    place: u32,
    prior: &Outs,
    shared: &Shared,
    host: &mut H,
    stop: &mut S,
) -> Result<Option<Out>, AttemptFault>
    requires ready { IsReady (staged stages.now) (outs_of prior.now) wave }
    requires place { place < length (tasks_in (staged stages.now) wave) }
    requires shared { IsShared (staged stages.now) (outs_of prior.now) wave shared.now.starts
        shared.now.sides }
    requires host { ForSome (H.inputs host.old) (HasSources (staged stages.now) wave) }
    ensures right { IfOk result (λ o. IfSome o (λ out. IsRightAt (staged stages.now)
        (H.inputs host.old ∷ []) (outs_of prior.now) wave place (out_of out))) }
    ensures stopped { IfOk result (λ o. IfNone o (S.won stop.new)) }
    ensures kept { S.kept stop.new ≡ S.kept stop.old }
    ensures inputs { H.inputs host.new ≡ H.inputs host.old }
    ensures begun { H.begun host.new ≡ H.begun host.old }
    ensures later { H.faults host.old ≤ H.faults host.new }
    ensures lost { IsErrOf result AttemptFault.Lost → H.faults host.old < H.faults host.new }
{
    match task_in(stages, wave, place) {
        Task::Map(task) => {
            map_attempt(alloc, stages, task, prior, &shared.sides, host, BLOCK, stop)
        }
        Task::Reduce(task) => reduce_in(alloc, stages, task, prior, stop),
        Task::Rank(task) => rank_in(alloc, stages, task, prior, &shared.starts, stop),
    }
}

// The task of an attempt at this place.
fn task_in<'s>(stages: &'s Stages<'_>, wave: u32, place: u32) -> &'s Task
    requires wave { wave < length (heads (staged stages.now).plan) }
    requires place { place < length (tasks_in (staged stages.now) wave) }
    ensures task { slice_get (tasks_in (staged stages.now) wave) place
        ≡ Some (task_of (ways_in (staged stages.now).plan wave) result.now) }
    ensures own { IsOwn wave (length (ways_in (staged stages.now).plan wave)) result.now }
{
    stages.task_at(wave, place)
}

// Attempts a reduce task, which reads nothing of its host's.
fn reduce_in<S: Stop>(
    alloc: Global,
    stages: &Stages,
    task: &ReduceTask,
    prior: &Outs,
    stop: &mut S,
) -> Result<Option<Out>, AttemptFault>
    requires task { IsTaskOf (staged stages.now) (task.now.wave + 1) (tasks.Reduce task.now) }
    requires prior { HasWave (staged stages.now) (outs_of prior.now) task.now }
    ensures right { IfOk result (λ o. IfSome o (λ out. (tellings : Tellings)
        → IsRight (staged stages.now) tellings (outs_of prior.now) (t_reduce task.now)
        (out_of out))) }
    ensures stopped { IfOk result (λ o. IfNone o (S.won stop.new)) }
    ensures kept { S.kept stop.new ≡ S.kept stop.old }
    ensures fault { IfErr result (λ fault. fault ≡ AttemptFault.OutOfMemory) }
{
    let _nodes = stages.plan().nodes();
    reduce_forms_fit();
    match reduce_attempt(alloc, stages, task, prior, stop) {
        Ok(out) => Ok(out),
        Err(error) => Err(fault_of(error)),
    }
}

// Attempts a rank task, which reads nothing of its host's either.
fn rank_in<S: Stop>(
    alloc: Global,
    stages: &Stages,
    task: &ReduceTask,
    prior: &Outs,
    starts: &Starts,
    stop: &mut S,
) -> Result<Option<Out>, AttemptFault>
    requires task { IsTaskOf (staged stages.now) (task.now.wave + 1) (tasks.Rank task.now) }
    requires prior { HasAll (staged stages.now) (outs_of prior.now) task.now.wave }
    requires part { task.now.part < length starts.now }
    requires starts { IsStartIn (staged stages.now).plan (outs_of prior.now) task.now starts.now }
    ensures right { IfOk result (λ o. IfSome o (λ out. (tellings : Tellings)
        → IsRight (staged stages.now) tellings (outs_of prior.now) (t_rank task.now)
        (out_of out))) }
    ensures stopped { IfOk result (λ o. IfNone o (S.won stop.new)) }
    ensures kept { S.kept stop.new ≡ S.kept stop.old }
    ensures fault { IfErr result (λ fault. fault ≡ AttemptFault.OutOfMemory) }
{
    let start = &starts.as_slice()[task.part as usize];
    match rank_attempt(alloc, stages, task, prior, start, stop) {
        Ok(out) => Ok(out),
        Err(error) => Err(fault_of(error)),
    }
}

fn fault_of(_: AllocError) -> AttemptFault
    ensures { result ≡ AttemptFault.OutOfMemory }
{
    AttemptFault::OutOfMemory
}
