//! A wave of stages, run on hosts.
ghost use Rattle.std.specs.Prelude.{◌≡◌, ◌<◌, ◌≤◌, ◌+◌, length, map, sum_by, IfErr, IfOk, MatchResult, All};
ghost use Rattle.std.specs.Option.{ForSome};
ghost use Rattle.pig_physical.specs.Handed.{out_of, outs_of};
ghost use Rattle.pig_physical.specs.Seen.{staged};
ghost use Rattle.pig_physical.specs.Stages.{heads, tasks_in};
ghost use Rattle.pig_pool.specs.Begins.{crew_tells};
ghost use Rattle.pig_pool.specs.Wave.{AreBegun, AreOutputs, FaultBegun, HasFailed, IsRounds, IsWonWave, failures_in, failures_of};
ghost use Rattle.pig_pool.specs.declared.wave.WaveFault.TheVariants.{OutOfMemory};
ghost use Rattle.pig_work.specs.Working.{AreStarts, HasSources, IsReady, IsRightAt, IsShared};

use crate::work::{Setting, Shared, StageWork};
use pig_map::sides_before;
use pig_outside::Host;
use pig_physical::{Out, Outs, Stages, Task};
use pig_pool::{WaveEnd, WaveFault, run_wave};
use pig_rank::Starts;
use pig_reduce::rank_starts;
use std::alloc::{AllocError, Global};
use std::marker::Brand;
use std::thread::Threads;

/// Runs a wave of stages on hosts: pig_pool's `run_wave` over the wave's tasks. Each output fits
/// its task, and is its value over inputs that all hosts tell.
pub fn run_stage<R: Threads + Sync, H: Host + Send>(
    rt: &R,
    alloc: Global,
    stages: &Stages,
    wave: u32,
    prior: &Outs,
    hosts: &mut [H],
    limit: u32,
) -> Result<WaveEnd<Out>, WaveFault>
    requires hosts { (0 < length hosts.old) × (length hosts.old ≤ 256) }
    requires tasks { length (tasks_in (staged stages.now) wave) ≤ 65536 }
    requires limit { (0 < limit) × (limit ≤ 16) }
    requires ready { IsReady (staged stages.now) (outs_of prior.now) wave }
    requires sources { All (λ h. ForSome (H.inputs h) (HasSources (staged stages.now) wave))
        hosts.old }
    ensures outs { IfOk result (λ r. AreOutputs (λ place out. IsRightAt (staged stages.now)
        (map H.inputs hosts.old) (outs_of prior.now) wave place (out_of out))
        (length (tasks_in (staged stages.now) wave)) r.outs) }
    ensures won { IfOk result (λ r. IsWonWave (length (tasks_in (staged stages.now) wave)) r.end) }
    ensures rounds { IfOk result (λ r. IsRounds r.rounds
        (map H.faults hosts.old) (map H.faults hosts.new)) }
    ensures failed { IfErr result (HasFailed limit (length (tasks_in (staged stages.now) wave))) }
    ensures failures { MatchResult result
        (λ r. sum_by H.faults hosts.old + failures_in r.end ≤ sum_by H.faults hosts.new)
        (λ e. sum_by H.faults hosts.old + failures_of e ≤ sum_by H.faults hosts.new) }
    ensures begun { MatchResult result
        (λ r. AreBegun wave r.end
        (crew_tells (map H.faults hosts.old) (map H.begun hosts.old))
        (crew_tells (map H.faults hosts.new) (map H.begun hosts.new)))
        (FaultBegun wave
        (crew_tells (map H.faults hosts.old) (map H.begun hosts.old))
        (crew_tells (map H.faults hosts.new) (map H.begun hosts.new))) }
    ensures complete { sum_by H.faults hosts.new < sum_by H.faults hosts.old + limit
        → IfErr result (λ e. e ≡ OutOfMemory) }
    ensures inputs { map H.inputs hosts.new ≡ map H.inputs hosts.old }
    ensures later { sum_by H.faults hosts.old ≤ sum_by H.faults hosts.new }
{
    match shared_before(alloc, stages, wave, prior) {
        Ok(shared) => {
            run_set::<Brand, R, H>(rt, alloc, stages, wave, prior, &shared, hosts, limit)
        }
        Err(AllocError) => Err(WaveFault::OutOfMemory),
    }
}

// What the tasks of a wave share, made once before they are attempted.
fn shared_before(
    alloc: Global,
    stages: &Stages,
    wave: u32,
    prior: &Outs,
) -> Result<Shared, AllocError>
    requires { IsReady (staged stages.now) (outs_of prior.now) wave }
    ensures { IfOk result (λ shared. IsShared (staged stages.now) (outs_of prior.now) wave
        shared.starts shared.sides) }
{
    let starts = starts_before(alloc, stages, wave, prior)?;
    let sides = sides_before(alloc, stages, wave, prior)?;
    Ok(Shared { starts, sides })
}

// What stands before each partition that a rank task of a wave reads; another wave has no such tasks.
fn starts_before(
    alloc: Global,
    stages: &Stages,
    wave: u32,
    prior: &Outs,
) -> Result<Starts, AllocError>
    requires { IsReady (staged stages.now) (outs_of prior.now) wave }
    ensures { IfOk result (AreStarts (staged stages.now) (outs_of prior.now) wave) }
{
    if stages.tasks(wave) == 0 {
        return Ok(Starts::new(alloc));
    }
    match stages.task_at(wave, 0) {
        Task::Map(_) => Ok(Starts::new(alloc)),
        Task::Reduce(_) => Ok(Starts::new(alloc)),
        Task::Rank(task) => rank_starts(alloc, stages, task, prior),
    }
}

// The same in a setting.
fn run_set<N: Setting + Send + Sync, R: Threads + Sync, H: Host + Send>(
    rt: &R,
    alloc: Global,
    stages: &Stages,
    wave: u32,
    prior: &Outs,
    shared: &Shared,
    hosts: &mut [H],
    limit: u32,
) -> Result<WaveEnd<Out>, WaveFault>
    requires hosts { (0 < length hosts.old) × (length hosts.old ≤ 256) }
    requires tasks { length (tasks_in (staged stages.now) wave) ≤ 65536 }
    requires limit { (0 < limit) × (limit ≤ 16) }
    requires outs { outs_of prior.now ≡ N.outs }
    requires told { map H.inputs hosts.old ≡ N.told }
    requires ready { IsReady (staged stages.now) N.outs wave }
    requires shared { IsShared (staged stages.now) N.outs wave shared.now.starts
        shared.now.sides }
    requires sources { All (λ h. ForSome (H.inputs h) (HasSources (staged stages.now) wave))
        hosts.old }
    ensures outs { IfOk result (λ r. AreOutputs (λ place out. IsRightAt (staged stages.now)
        N.told N.outs wave place (out_of out))
        (length (tasks_in (staged stages.now) wave)) r.outs) }
    ensures won { IfOk result (λ r. IsWonWave (length (tasks_in (staged stages.now) wave)) r.end) }
    ensures rounds { IfOk result (λ r. IsRounds r.rounds
        (map H.faults hosts.old) (map H.faults hosts.new)) }
    ensures failed { IfErr result (HasFailed limit (length (tasks_in (staged stages.now) wave))) }
    ensures failures { MatchResult result
        (λ r. sum_by H.faults hosts.old + failures_in r.end ≤ sum_by H.faults hosts.new)
        (λ e. sum_by H.faults hosts.old + failures_of e ≤ sum_by H.faults hosts.new) }
    ensures begun { MatchResult result
        (λ r. AreBegun wave r.end
        (crew_tells (map H.faults hosts.old) (map H.begun hosts.old))
        (crew_tells (map H.faults hosts.new) (map H.begun hosts.new)))
        (FaultBegun wave
        (crew_tells (map H.faults hosts.old) (map H.begun hosts.old))
        (crew_tells (map H.faults hosts.new) (map H.begun hosts.new))) }
    ensures complete { sum_by H.faults hosts.new < sum_by H.faults hosts.old + limit
        → IfErr result (λ e. e ≡ OutOfMemory) }
    ensures inputs { map H.inputs hosts.new ≡ map H.inputs hosts.old }
    ensures later { sum_by H.faults hosts.old ≤ sum_by H.faults hosts.new }
{
    let work = StageWork::<'_, N>::new(alloc, stages, wave, prior, shared);
    run_wave(rt, alloc, &work, wave, hosts, limit)
}
