//! A wave: all its tasks on all its hosts.

ghost use Rattle.std.specs.Prelude.{⊤, ◌≡◌, ◌<◌, ◌≤◌, ◌+◌, ℕ, [], true, false, length, map, sum_by, IfOk, IfErr, MatchBool, MatchOption, MatchResult, All, vec_len, vec_capacity};
ghost use Rattle.pig_board.specs.View.{IsAlone, all_fails, fails_of, fresh, kept_half, other_half, both};
ghost use Rattle.pig_job.specs.Job.{aside_limit};
ghost use Rattle.pig_board.specs.Pass.{tasks_of, view_of, is_firm, OnBoard};
ghost use Rattle.pig_board.specs.End.{end_of};
ghost use Rattle.pig_pool.specs.Begins.{crew_tells};
ghost use Rattle.pig_pool.specs.Workers.{HasWon, IsDone, IsBelow, KnowsAll, LooksOn, saw_limit, again_room};
ghost use Rattle.pig_pool.specs.Crew.{AreHosts, CrewWorks, HostsStay};
ghost use Rattle.pig_pool.specs.Wave.{AreOutputs, IsWonWave, AllWon, HasUnwon, IsLeast, HasFailed, IsRounds, AreBegun, FaultBegun, EndsAt, FaultEndsAt, failures_in, failures_of};
ghost use Rattle.pig_pool.specs.declared.wave.WaveFault.TheVariants.{OutOfMemory};

use crate::crew::{merge, run_crew};
use crate::outputs::{gather, places};
use crate::shared::Shared;
use crate::work::Work;
use crate::worker::Worker;
use pig_board::{Board, JobEnd, Pass};
use pig_outside::Host;
use pig_value::OutList;
use std::alloc::{AllocError, Global};
use std::collections::LinkedList;
use std::thread::Threads;

// The hosts of a wave are halved so often at most.
const DEPTH: u32 = 8;

/// What a wave gives: the outputs of its tasks, in order, what stands of each task, and how many rounds it took.
#[derive(Drop)]
pub struct WaveEnd<O> {
    pub outs: OutList<O>,
    pub end: JobEnd,
    pub rounds: u32,
}

/// Why a wave gave no outputs.
#[derive(Drop)]
pub enum WaveFault {
    /// Not every task has a winner, and this one is the least that has failed as often as the limit says.
    TaskFailed { task: u32, end: JobEnd },
    /// Memory was wanting.
    OutOfMemory,
}

impl From<AllocError> for WaveFault {
    ghost from_gives = { λ _ e. e ≡ OutOfMemory };

    fn from(_: AllocError) -> Self {
        WaveFault::OutOfMemory
    }
}

// Whether every task has a winner.
fn is_won(end: &JobEnd) -> bool
    ensures { MatchBool result (AllWon end.now) (HasUnwon end.now) }
{
    for t in 0..end.len() {
        if end.task(t).winner.is_none() {
            return false;
        }
    }
    true
}

// The least task that has failed so often.
fn given_up(end: &JobEnd, limit: u32) -> Option<u32>
    requires { 0 < limit }
    ensures { MatchOption result
        ((t : ℕ) → (end_of end.now t).failed < limit)
        (λ t. IsLeast limit t end.now) }
{
    for t in 0..end.len() {
        if end.task(t).failed >= limit {
            return Some(t);
        }
    }
    None
}

// Ends the wave: closes the board, and puts the outputs in order.
fn finish<W: Work>(
    work: &W,
    board: Board,
    rounds: Rounds<W::Out>,
    limit: u32,
    places: Vec<Option<W::Out>>,
    list: Vec<W::Out>,
) -> Result<WaveEnd<W::Out>, WaveFault>
    requires board { OnBoard board rounds.pass }
    requires count { tasks_of board ≡ W.count work.now }
    requires alone { IsAlone (view_of rounds.pass) }
    requires won { HasWon (W.right work.now) (view_of rounds.pass) rounds.outputs }
    requires done { IsDone limit (tasks_of board) (view_of rounds.pass) }
    requires limit { 0 < limit }
    requires places { vec_len places ≡ W.count work.now }
    requires list { (list.items ≡ []) × (vec_len list ≡ 0)
        × (W.count work.now ≤ vec_capacity list) }
    ensures outs { IfOk result (λ r. AreOutputs (W.right work.now) (W.count work.now) r.outs) }
    ensures won { IfOk result (λ r. IsWonWave (W.count work.now) r.end) }
    ensures rounds { IfOk result (λ r. r.rounds ≡ rounds.count) }
    ensures failed { IfErr result (HasFailed limit (W.count work.now)) }
    ensures failures { MatchResult result
        (λ r. failures_in r.end ≡ all_fails (view_of rounds.pass))
        (λ e. failures_of e ≡ all_fails (view_of rounds.pass)) }
    ensures ends { MatchResult result (λ r. EndsAt (view_of rounds.pass) r.end)
        (FaultEndsAt (view_of rounds.pass)) }
{
    let Rounds {
        pass,
        outputs,
        count,
    } = rounds;
    let end = board.close(pass);
    if is_won(&end) {
        let outs = gather(work, places, list, outputs);
        return Ok(WaveEnd {
            outs,
            end,
            rounds: count,
        });
    }
    let Some(task) = given_up(&end, limit) else {
        unreachable!();
    };
    Err(WaveFault::TaskFailed { task, end })
}

// Whether some task has failed too often.
fn sees_limit<W: Work>(shared: &Shared<'_, W>, pass: &mut Pass) -> bool
    requires { OnBoard shared.now.board.now pass.old }
    ensures looks { LooksOn shared.now.board.now pass.old pass.new }
    ensures seen { MatchBool result (saw_limit shared.now.limit (view_of pass.new) ≡ true)
        (IsBelow shared.now.limit (tasks_of shared.now.board.now) (view_of pass.new)) }
{
    for t in 0..shared.work.tasks() {
        if shared.board.failures(pass, t) >= shared.limit {
            return true;
        }
    }
    false
}

// Whether every task has a winner.
fn sees_all_won<W: Work>(shared: &Shared<'_, W>, pass: &mut Pass) -> bool
    requires { OnBoard shared.now.board.now pass.old }
    ensures looks { LooksOn shared.now.board.now pass.old pass.new }
    ensures won { MatchBool result
        (KnowsAll (tasks_of shared.now.board.now) (view_of pass.new)) ⊤ }
{
    for t in 0..shared.work.tasks() {
        if shared.board.closed(pass, t).is_none() {
            return false;
        }
    }
    true
}

// Whether the work is done: every task has a winner, or one has failed too often. Where it is not, no task has.
fn is_done<W: Work>(shared: &Shared<'_, W>, pass: &mut Pass) -> bool
    requires { OnBoard shared.now.board.now pass.old }
    ensures looks { LooksOn shared.now.board.now pass.old pass.new }
    ensures done { MatchBool result
        (IsDone shared.now.limit (tasks_of shared.now.board.now) (view_of pass.new))
        (IsBelow shared.now.limit (tasks_of shared.now.board.now) (view_of pass.new)) }
{
    if sees_limit(shared, pass) {
        return true;
    }
    sees_all_won(shared, pass)
}

// What is left of the rounds of a wave: the pass, the outputs, and how many there were.
#[derive(Drop)]
struct Rounds<O> {
    pass: Pass,
    outputs: LinkedList<(u32, O)>,
    count: u32,
}

// Cuts three quarters of the room from a pass, for a second round. All entries stay with the first.
fn cut(board: &Board, pass: &mut Pass) -> Pass
    requires board { OnBoard board.now pass.old }
    ensures board { OnBoard board.now pass.new }
    ensures board_given { OnBoard board.now result }
    ensures firm { (is_firm pass.new ≡ is_firm pass.old) × (is_firm result ≡ is_firm pass.old) }
    ensures left { view_of pass.new ≡ kept_half (kept_half (view_of pass.old)) }
    ensures given { view_of result
        ≡ both (other_half (view_of pass.old)) (other_half (kept_half (view_of pass.old))) }
{
    let mut given = board.split(pass);
    let more = board.split(pass);
    board.join(&mut given, more);
    given
}

// Runs a second round on a pass that is made firm, in which no worker is put aside.
fn run_again<R: Threads + Sync, W: Work + Sync, H: Host + Send>(
    rt: &R,
    alloc: Global,
    shared: &Shared<'_, W>,
    worker: Worker<W::Out>,
    hosts: &mut [H],
) -> Result<Worker<W::Out>, AllocError>
    requires board { OnBoard shared.now.board.now worker.pass }
    requires alone { IsAlone (view_of worker.pass) }
    requires streak { aside_limit ≤ (view_of worker.pass).streak }
    requires room { again_room ≤ (view_of worker.pass).room }
    requires won { HasWon (W.right shared.now.work.now) (view_of worker.pass) worker.outputs }
    requires hosts { AreHosts (λ h. W.suits shared.now.work.now (H.inputs h)) 8 hosts.old }
    ensures board { IfOk result (λ r. OnBoard shared.now.board.now r.pass) }
    ensures works { IfOk result (λ r. CrewWorks shared.now.wave
        (view_of worker.pass) (view_of r.pass)
        (crew_tells (map H.faults hosts.old) (map H.begun hosts.old))
        (crew_tells (map H.faults hosts.new) (map H.begun hosts.new))) }
    ensures won { IfOk result (λ r. HasWon (W.right shared.now.work.now)
        (view_of r.pass) r.outputs) }
    ensures done { IfOk result (λ r. IsDone shared.now.limit (tasks_of shared.now.board.now)
        (view_of r.pass)) }
    ensures stay { HostsStay H.faults H.inputs hosts.old hosts.new }
{
    let mut worker = worker;
    worker.pass.firm();
    let given = cut(shared.board, &mut worker.pass);
    let again = run_crew(rt, alloc, shared, given, DEPTH, hosts)?;
    merge(shared.board, worker, again)
}

// Runs the workers in a round, and in a second one where all were put aside and the work is not done.
fn run_rounds<R: Threads + Sync, W: Work + Sync, H: Host + Send>(
    rt: &R,
    alloc: Global,
    shared: &Shared<'_, W>,
    pass: Pass,
    hosts: &mut [H],
) -> Result<Rounds<W::Out>, AllocError>
    requires board { OnBoard shared.now.board.now pass }
    requires fresh { view_of pass ≡ fresh }
    requires firm { is_firm pass ≡ false }
    requires hosts { AreHosts (λ h. W.suits shared.now.work.now (H.inputs h)) 8 hosts.old }
    ensures board { IfOk result (λ r. OnBoard shared.now.board.now r.pass) }
    ensures works { IfOk result (λ r. CrewWorks shared.now.wave (view_of pass) (view_of r.pass)
        (crew_tells (map H.faults hosts.old) (map H.begun hosts.old))
        (crew_tells (map H.faults hosts.new) (map H.begun hosts.new))) }
    ensures won { IfOk result (λ r. HasWon (W.right shared.now.work.now)
        (view_of r.pass) r.outputs) }
    ensures done { IfOk result (λ r. IsDone shared.now.limit (tasks_of shared.now.board.now)
        (view_of r.pass)) }
    ensures rounds { IfOk result (λ r. IsRounds r.count
        (map H.faults hosts.old) (map H.faults hosts.new)) }
    ensures stay { HostsStay H.faults H.inputs hosts.old hosts.new }
{
    let mut worker = run_crew(rt, alloc, shared, pass, DEPTH, hosts)?;
    let over = is_done(shared, &mut worker.pass);
    if !worker.is_aside || over {
        let Worker { pass, outputs, .. } = worker;
        return Ok(Rounds {
            pass,
            outputs,
            count: 1,
        });
    }
    let ended = run_again(rt, alloc, shared, worker, hosts)?;
    let Worker { pass, outputs, .. } = ended;
    Ok(Rounds {
        pass,
        outputs,
        count: 2,
    })
}

/// Runs a wave of tasks on the hosts, each in a thread of its own. It fails where a task has failed `limit` times, and
/// not every task has a winner. A host that fails three times in a row makes no further attempt; where all have, and
/// there is work left, all begin a second round, in which none is put aside. The memory for the board, the passes and
/// the list of outputs is taken before the first attempt. The failures that a wave shows, also one that fails, are at
/// most the rise of the hosts' counts, and each is one of the begins that the hosts tell.
pub fn run_wave<R: Threads + Sync, W: Work + Sync, H: Host + Send>(
    rt: &R,
    alloc: Global,
    work: &W,
    wave: u32,
    hosts: &mut [H],
    limit: u32,
) -> Result<WaveEnd<W::Out>, WaveFault>
    requires hosts { (0 < length hosts.old) × (length hosts.old ≤ 256) }
    requires tasks { W.count work.now ≤ 65536 }
    requires limit { (0 < limit) × (limit ≤ 16) }
    requires wave { W.wave work.now ≡ wave }
    requires suit { All (λ h. W.suits work.now (H.inputs h)) hosts.old }
    ensures outs { IfOk result (λ r. AreOutputs (W.right work.now) (W.count work.now) r.outs) }
    ensures won { IfOk result (λ r. IsWonWave (W.count work.now) r.end) }
    ensures rounds { IfOk result (λ r. IsRounds r.rounds
        (map H.faults hosts.old) (map H.faults hosts.new)) }
    ensures failed { IfErr result (HasFailed limit (W.count work.now)) }
    ensures failures { MatchResult result
        (λ r. sum_by H.faults hosts.old + failures_in r.end ≤ sum_by H.faults hosts.new)
        (λ e. sum_by H.faults hosts.old + failures_of e ≤ sum_by H.faults hosts.new) }
    ensures begun { MatchResult result
        (λ r. AreBegun wave r.end
        (crew_tells (map H.faults hosts.old) (map H.begun hosts.old))
        (crew_tells (map H.faults hosts.new) (map H.begun hosts.new)))
        (FaultBegun wave
        (crew_tells (map H.faults hosts.old) (map H.begun hosts.old))
        (crew_tells (map H.faults hosts.new) (map H.begun hosts.new))) }
    ensures complete { sum_by H.faults hosts.new < sum_by H.faults hosts.old + limit
        → IfErr result (λ e. e ≡ OutOfMemory) }
    ensures inputs { map H.inputs hosts.new ≡ map H.inputs hosts.old }
    ensures later { sum_by H.faults hosts.old ≤ sum_by H.faults hosts.new }
{
    let tasks = work.tasks();
    let places = places(alloc, tasks as usize)?;
    let list = Vec::with_capacity(alloc, tasks as usize)?;
    let (board, pass) = Board::open(alloc, tasks)?;
    let shared = Shared {
        work,
        board: &board,
        wave,
        limit,
    };
    let rounds = run_rounds(rt, alloc, &shared, pass, hosts)?;
    finish(work, board, rounds, limit, places, list)
}
