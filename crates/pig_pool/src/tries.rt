//! One try at a task.

ghost use Rattle.std.specs.Prelude.{◌≡◌, ◌<◌, ◌≤◌, ◌+◌, [], ◌∷◌, ◌++◌, true, IfOk, IfSome, IfNone, OnErr, IsErrOf, MatchBool};
ghost use Rattle.std.specs.Option.{option_map};
ghost use Rattle.pig_board.specs.View.{has_open, has_open_of, knows_winner, fails_of, won, IsLate};
ghost use Rattle.pig_board.specs.Pass.{tasks_of, view_of, is_firm, OnBoard};
ghost use Rattle.pig_outside.specs.Calls.{and_attempt};
ghost use Rattle.pig_pool.specs.Begins.{tells};
ghost use Rattle.pig_pool.specs.Workers.{IsFailed, FailedAs, IsTried, Leaves, MayTry, beside};

use crate::shared::Shared;
use crate::stops::TaskStop;
use crate::work::Work;
use crate::worker::Worker;
use pig_board::{Board, Pass};
use pig_outside::{AttemptFault, Host, Stop};
use std::alloc::{AllocError, Global};
use std::collections::LinkedList;

// What came of a try.
#[derive(Clone, Copy, Drop)]
pub enum Tried {
    // The task has a winner, this attempt or another.
    Won,
    // The attempt failed, and may be made again.
    Failed,
    // The task has failed too often.
    GivenUp,
    // The attempt failed, as those before it, and the worker is put aside.
    Aside,
}

// Makes attempt `attempt` at task `t` on the host.
fn make_attempt<W: Work, H: Host, S: Stop>(
    shared: &Shared<'_, W>,
    t: u32,
    attempt: u32,
    host: &mut H,
    stop: &mut S,
) -> Result<Option<W::Out>, AttemptFault>
    requires task { t < tasks_of shared.now.board.now }
    requires suits { W.suits shared.now.work.now (H.inputs host.old) }
    ensures right { IfOk result (λ o. IfSome o (W.right shared.now.work.now t)) }
    ensures stopped { IfOk result (λ o. IfNone o (S.won stop.new)) }
    ensures kept { S.kept stop.new ≡ S.kept stop.old }
    ensures inputs { H.inputs host.new ≡ H.inputs host.old }
    ensures begun { H.begun host.new
        ≡ option_map (and_attempt shared.now.wave t attempt (H.faults host.old))
        (H.begun host.old) }
    ensures later { H.faults host.old ≤ H.faults host.new }
    ensures lost { IsErrOf result AttemptFault.Lost → H.faults host.old < H.faults host.new }
{
    if let Err(_) = host.begin(shared.wave, t, attempt) {
        return Err(AttemptFault::Lost);
    }
    shared.work.attempt(t, host, stop)
}

// Makes an attempt that may ask the board whether its task is won.
fn try_attempt<W: Work, H: Host>(
    shared: &Shared<'_, W>,
    pass: &mut Pass,
    t: u32,
    attempt: u32,
    host: &mut H,
) -> Result<Option<W::Out>, AttemptFault>
    requires board { OnBoard shared.now.board.now pass.old }
    requires task { t < tasks_of shared.now.board.now }
    requires suits { W.suits shared.now.work.now (H.inputs host.old) }
    ensures board { OnBoard shared.now.board.now pass.new }
    ensures view { beside t (view_of pass.new) ≡ beside t (view_of pass.old) }
    ensures firm { is_firm pass.new ≡ is_firm pass.old }
    ensures right { IfOk result (λ o. IfSome o (W.right shared.now.work.now t)) }
    ensures stopped { IfOk result (λ o. IfNone o (knows_winner t (view_of pass.new) ≡ true)) }
    ensures inputs { H.inputs host.new ≡ H.inputs host.old }
    ensures begun { H.begun host.new
        ≡ option_map (and_attempt shared.now.wave t attempt (H.faults host.old))
        (H.begun host.old) }
    ensures later { H.faults host.old ≤ H.faults host.new }
    ensures lost { IsErrOf result AttemptFault.Lost → H.faults host.old < H.faults host.new }
{
    let mut stop = TaskStop {
        task: t,
        board: shared.board,
        pass,
    };
    let ended = make_attempt(shared, t, attempt, host, &mut stop);
    let TaskStop {
        task: _,
        board: _,
        pass: _,
    } = stop;
    ended
}

// Offers the output of an attempt: it is kept where the attempt wins, and else dropped at once. The answer is whether
// it has won. Memory is taken before the offer.
fn offer<O: Drop>(
    board: &Board,
    pass: &mut Pass,
    outputs: &mut LinkedList<(u32, O)>,
    t: u32,
    attempt: u32,
    output: O,
) -> Result<bool, AllocError>
    requires board { OnBoard board.now pass.old }
    requires under_way { has_open t attempt (view_of pass.old) ≡ true }
    ensures board { OnBoard board.now pass.new }
    ensures firm { is_firm pass.new ≡ is_firm pass.old }
    ensures view { IfOk result (λ b. MatchBool b
        (view_of pass.new ≡ won t attempt (view_of pass.old))
        (IsLate t attempt (view_of pass.old) (view_of pass.new))) }
    ensures outputs { IfOk result (λ b. MatchBool b
        (outputs.new ≡ outputs.old ++ (t, output) ∷ [])
        (outputs.new ≡ outputs.old)) }
    ensures wanting { OnErr result
        ((view_of pass.new ≡ view_of pass.old) × (outputs.new ≡ outputs.old)) }
{
    outputs.push_back((t, output))?;
    if board.commit(pass, t, attempt) {
        return Ok(true);
    }
    outputs.pop_back();
    Ok(false)
}

// Ends an attempt that stopped, since its task is won: it comes late.
fn end_late(board: &Board, pass: &mut Pass, t: u32, attempt: u32)
    requires board { OnBoard board.now pass.old }
    requires under_way { has_open t attempt (view_of pass.old) ≡ true }
    requires won { knows_winner t (view_of pass.old) ≡ true }
    ensures board { OnBoard board.now pass.new }
    ensures firm { is_firm pass.new ≡ is_firm pass.old }
    ensures late { IsLate t attempt (view_of pass.old) (view_of pass.new) }
{
    if board.commit(pass, t, attempt) {
        unreachable!();
    }
}

// Ends an attempt that failed.
fn end_failed(board: &Board, pass: &mut Pass, t: u32, limit: u32) -> Tried
    requires board { OnBoard board.now pass.old }
    requires under_way { has_open_of t (view_of pass.old) ≡ true }
    requires room { 0 < (view_of pass.old).room }
    ensures board { OnBoard board.now pass.new }
    ensures firm { is_firm pass.new ≡ is_firm pass.old }
    ensures view { IsFailed t (view_of pass.old) (view_of pass.new) }
    ensures failed { FailedAs limit t pass.new result }
{
    let failures = board.fail(pass, t);
    if failures >= limit {
        return Tried::GivenUp;
    }
    if pass.may_begin() {
        Tried::Failed
    } else {
        Tried::Aside
    }
}

// Tries task `t` once, unless it has a winner or has failed too often.
pub fn try_once<W: Work, H: Host>(
    shared: &Shared<'_, W>,
    worker: &mut Worker<W::Out>,
    t: u32,
    host: &mut H,
) -> Result<Tried, AllocError>
    requires task { t < tasks_of shared.now.board.now }
    requires drawn { t < (view_of worker.old.pass).known }
    requires ready { MayTry (W.right shared.now.work.now) (W.suits shared.now.work.now)
        shared.now.limit shared.now.board.now 1 worker.old (H.inputs host.old) }
    ensures left { Leaves (W.right shared.now.work.now) shared.now.limit shared.now.wave
        shared.now.board.now 1 worker.old worker.new (H.inputs host.old) (H.inputs host.new)
        (tells (H.faults host.old) (H.begun host.old))
        (tells (H.faults host.new) (H.begun host.new)) result }
    ensures tried { IfOk result (IsTried shared.now.limit t worker.old.pass worker.new.pass) }
{
    let board = shared.board;
    let limit = shared.limit;
    if let Some(_) = board.closed(&mut worker.pass, t) {
        return Ok(Tried::Won);
    }
    if board.failures(&mut worker.pass, t) >= limit {
        return Ok(Tried::GivenUp);
    }
    let attempt = board.begin(&mut worker.pass, t);
    match try_attempt(shared, &mut worker.pass, t, attempt, host) {
        Ok(Some(output)) => {
            offer(
                board,
                &mut worker.pass,
                &mut worker.outputs,
                t,
                attempt,
                output,
            )?;
            Ok(Tried::Won)
        }
        Ok(None) => {
            end_late(board, &mut worker.pass, t, attempt);
            Ok(Tried::Won)
        }
        Err(AttemptFault::Lost) => Ok(end_failed(board, &mut worker.pass, t, limit)),
        Err(AttemptFault::OutOfMemory) => Err(AllocError),
    }
}
