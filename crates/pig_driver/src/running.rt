//! All waves of stages, one after the other.
ghost use Rattle.std.specs.Prelude.{◌≡◌, ◌<◌, ◌≤◌, ◌+◌, [], length, map, sum_by, IfErr, IfOk, MatchResult, OnOk};
ghost use Rattle.pig_plan.specs.Valid.{IsPlan};
ghost use Rattle.pig_physical.specs.Handed.{outs_of};
ghost use Rattle.pig_physical.specs.Seen.{staged};
ghost use Rattle.pig_physical.specs.Stages.{heads};
ghost use Rattle.pig_pool.specs.Begins.{crew_tells};
ghost use Rattle.pig_pool.specs.Wave.{failures_in};
ghost use Rattle.pig_driver.specs.Begun.{FaultBegun, FaultNext, IsBegunNext, WavesBegun};
ghost use Rattle.pig_driver.specs.Going.{AreWon, TellSizes};
ghost use Rattle.pig_driver.specs.Left.{IsGoing, IsOver};
ghost use Rattle.pig_driver.specs.Standing.{HaveFewTasks};
ghost use Rattle.pig_driver.specs.Failing.{HasFailed, IsTaskIn, IsToldAs};
ghost use Rattle.pig_driver.specs.declared.running.StagesFault.TheVariants.{OutOfMemory};

use crate::between::between;
use crate::handing::handed_in;
use crate::laws::{waves_find_what_they_name, waves_read_told_inputs};
use crate::leaving::{last_looks, let_go};
use pig_board::JobEnd;
use pig_outside::Host;
use pig_physical::{Outs, Stages};
use pig_pool::{WaveEnd, WaveFault};
use pig_runs::run_laws;
use pig_value::Seq;
use pig_work::run_stage;
use std::alloc::{AllocError, Global};
use std::thread::Threads;

/// What stands of the tasks of each wave that ended, in order.
pub type JobEnds = Seq<JobEnd>;

/// What is left when waves have run: the outputs that are looked at later, of the others how many lines were read and
/// which ASSERTs are not met; and how many entries map tasks handed on, modulo 2 to the 64.
#[derive(Drop)]
pub struct Ran {
    pub outs: Outs,
    pub shuffled: u64,
}

/// Why stages gave no outputs.
#[derive(Drop)]
pub enum StagesFault {
    /// A wave failed: not every task has a winner, and this one is the least that has failed as
    /// often as the limit says; `failed` is how often.
    TaskFailed { wave: u32, task: u32, failed: u32 },
    /// Memory was wanting.
    OutOfMemory,
}

impl From<AllocError> for StagesFault {
    ghost use Rattle.std.specs.Prelude.{◌≡◌};
    ghost use Rattle.pig_driver.specs.declared.running.StagesFault.TheVariants.{OutOfMemory};

    ghost from_gives = { λ _ e. e ≡ OutOfMemory };

    fn from(_: AllocError) -> Self {
        StagesFault::OutOfMemory
    }
}

// How a wave's fault is told. The end of a wave that failed stands behind those before it.
fn stages_fault(wave: u32, fault: WaveFault, ends: &mut JobEnds) -> StagesFault
    requires { IsTaskIn fault }
    ensures { IsToldAs wave fault ends.old ends.new result }
{
    match fault {
        WaveFault::TaskFailed { task, end } => {
            let failed = end.task(task).failed;
            match ends.push(end) {
                Ok(()) => StagesFault::TaskFailed { wave, task, failed },
                Err(AllocError) => StagesFault::OutOfMemory,
            }
        }
        WaveFault::OutOfMemory => StagesFault::OutOfMemory,
    }
}

/// Runs the waves of stages on hosts, one after the other: each on all hosts, with as many attempts
/// of a task as may fail. The outputs are left of those of a run over the inputs that all hosts tell: what no later
/// wave looks at has gone. Each task has one winner, and the begins that hosts tell are its attempts. `ends` is left
/// with the end of each wave that has won, and behind them that of the wave that failed.
pub fn run_stages<R: Threads + Sync, H: Host + Send>(
    rt: &R,
    alloc: Global,
    stages: &Stages,
    hosts: &mut [H],
    limit: u32,
    ends: &mut JobEnds,
) -> Result<Ran, StagesFault>
    requires hosts { (0 < length hosts.old) × (length hosts.old ≤ 256) }
    requires limit { (0 < limit) × (limit ≤ 16) }
    requires some { 0 < (staged stages.now).sizing.reducers }
    requires few { HaveFewTasks (staged stages.now) }
    requires sizes { TellSizes (staged stages.now) (map H.inputs hosts.old) }
    requires none { ends.old ≡ [] }
    ensures run { IfOk result (λ ran. IsOver (staged stages.now)
        (map H.inputs hosts.old) (outs_of ran.outs) ran.shuffled) }
    ensures won { IfOk result (λ _. AreWon (staged stages.now) ends.new
        (length (heads (staged stages.now).plan))) }
    ensures begun { MatchResult result
        (λ _. WavesBegun 0 ends.new
        (crew_tells (map H.faults hosts.old) (map H.begun hosts.old))
        (crew_tells (map H.faults hosts.new) (map H.begun hosts.new)))
        (FaultBegun ends.new
        (crew_tells (map H.faults hosts.old) (map H.begun hosts.old))
        (crew_tells (map H.faults hosts.new) (map H.begun hosts.new))) }
    ensures failed { IfErr result (HasFailed limit (staged stages.now) ends.new) }
    ensures failures { sum_by H.faults hosts.old + sum_by failures_in ends.new
        ≤ sum_by H.faults hosts.new }
    ensures complete { sum_by H.faults hosts.new < sum_by H.faults hosts.old + limit
        → IfErr result (λ fault. fault ≡ OutOfMemory) }
    ensures inputs { map H.inputs hosts.new ≡ map H.inputs hosts.old }
    ensures later { sum_by H.faults hosts.old ≤ sum_by H.faults hosts.new }
{
    let _nodes = stages.plan().nodes();
    let lasts = last_looks(alloc, stages)?;
    let mut ran = Ran {
        outs: Outs::new(alloc),
        shuffled: 0,
    };
    for wave in 0..stages.waves() {
        run_one(rt, alloc, stages, wave, hosts, limit, &mut ran, ends)?;
        let_go(alloc, lasts.as_slice(), wave, &mut ran.outs);
    }
    Ok(ran)
}

// One wave behind those that ran.
fn run_one<R: Threads + Sync, H: Host + Send>(
    rt: &R,
    alloc: Global,
    stages: &Stages,
    wave: u32,
    hosts: &mut [H],
    limit: u32,
    ran: &mut Ran,
    ends: &mut JobEnds,
) -> Result<(), StagesFault>
    requires wave { wave < length (heads (staged stages.now).plan) }
    requires hosts { (0 < length hosts.old) × (length hosts.old ≤ 256) }
    requires limit { (0 < limit) × (limit ≤ 16) }
    requires some { 0 < (staged stages.now).sizing.reducers }
    requires valid { IsPlan (staged stages.now).plan }
    requires few { HaveFewTasks (staged stages.now) }
    requires sizes { TellSizes (staged stages.now) (map H.inputs hosts.old) }
    requires run { IsGoing (staged stages.now) (map H.inputs hosts.old) (outs_of ran.old.outs)
        ran.old.shuffled wave wave }
    requires won { AreWon (staged stages.now) ends.old wave }
    ensures run { OnOk result (IsGoing (staged stages.now) (map H.inputs hosts.old)
        (outs_of ran.new.outs) ran.new.shuffled (wave + 1) wave) }
    ensures won { OnOk result (AreWon (staged stages.now) ends.new (wave + 1)) }
    ensures begun { MatchResult result
        (λ _. IsBegunNext wave ends.old ends.new
        (crew_tells (map H.faults hosts.old) (map H.begun hosts.old))
        (crew_tells (map H.faults hosts.new) (map H.begun hosts.new)))
        (FaultNext wave ends.old ends.new
        (crew_tells (map H.faults hosts.old) (map H.begun hosts.old))
        (crew_tells (map H.faults hosts.new) (map H.begun hosts.new))) }
    ensures failed { IfErr result (HasFailed limit (staged stages.now) ends.new) }
    ensures failures { sum_by H.faults hosts.old + sum_by failures_in ends.new
        ≤ sum_by H.faults hosts.new + sum_by failures_in ends.old }
    ensures complete { sum_by H.faults hosts.new < sum_by H.faults hosts.old + limit
        → IfErr result (λ fault. fault ≡ OutOfMemory) }
    ensures inputs { map H.inputs hosts.new ≡ map H.inputs hosts.old }
    ensures later { sum_by H.faults hosts.old ≤ sum_by H.faults hosts.new }
{
    waves_find_what_they_name();
    waves_read_told_inputs();
    run_laws();
    let ended = run_stage(rt, alloc, stages, wave, &ran.outs, hosts, limit);
    let WaveEnd {
        outs: found,
        end,
        ..
    } = match ended {
        Ok(ended) => ended,
        Err(fault) => return Err(stages_fault(wave, fault, ends)),
    };
    ends.push(end)?;
    let found = between(alloc, stages, wave, found)?;
    let handed = handed_in(stages, wave, found.as_slice());
    ran.outs.push(found)?;
    ran.shuffled = ran.shuffled.wrapping_add(handed);
    Ok(())
}
