//! The workers of a wave: one for each host, in threads of their own.

ghost use Rattle.std.specs.Prelude.{◌≡◌, ◌+◌, ◌*◌, ◌++◌, ◌&&◌, IfOk};
ghost use Rattle.std.specs.Thread.{IsSync, IsSend};
ghost use Rattle.pig_board.specs.View.{both};
ghost use Rattle.pig_board.specs.Pass.{tasks_of, view_of, is_firm, OnBoard};
ghost use Rattle.pig_pool.specs.Crew.{AreHosts, EndsAs, Holds, HostsStay, IsReady};

use crate::shared::Shared;
use crate::work::Work;
use crate::worker::{Worker, run_worker};
use pig_board::{Board, Pass};
use pig_outside::Host;
use std::alloc::{AllocError, Global};
use std::thread::{Threads, join_mut};

// Some of the hosts, and the pass for them.
#[derive(Drop)]
struct Half<'a, H> {
    pass: Option<Pass>,
    hosts: &'a mut [H],
}

// Takes the pass.
fn taken<H: Host>(half: &mut Half<'_, H>) -> Option<Pass>
    ensures pass { result ≡ half.old.pass }
    ensures hosts { half.new.hosts.now ≡ half.old.hosts.now }
    ensures same_reference { half.new.hosts.ghost_name ≡ half.old.hosts.ghost_name }
{
    half.pass.take()
}

// Joins what two workers have.
pub fn merge<O: Drop>(
    board: &Board,
    left: Worker<O>,
    right: Worker<O>,
) -> Result<Worker<O>, AllocError>
    requires left { OnBoard board.now left.pass }
    requires right { OnBoard board.now right.pass }
    ensures board { IfOk result (λ r. OnBoard board.now r.pass) }
    ensures firm { IfOk result (λ r. is_firm r.pass ≡ is_firm left.pass) }
    ensures view { IfOk result (λ r. view_of r.pass
        ≡ both (view_of left.pass) (view_of right.pass)) }
    ensures outputs { IfOk result (λ r. r.outputs ≡ left.outputs ++ right.outputs) }
    ensures aside { IfOk result (λ r. r.is_aside ≡ (left.is_aside && right.is_aside)) }
{
    let Worker {
        mut pass,
        mut outputs,
        is_aside,
    } = left;
    let Worker {
        pass: other,
        outputs: mut more,
        is_aside: both_aside,
    } = right;
    board.join(&mut pass, other);
    outputs.append(&mut more)?;
    Ok(Worker {
        pass,
        outputs,
        is_aside: is_aside && both_aside,
    })
}

// Runs the workers of one half.
#[cycle(halves)]
fn run_half<R: Threads + Sync, W: Work + Sync, H: Host + Send>(
    rt: &R,
    alloc: Global,
    shared: &Shared<'_, W>,
    depth: u32,
    half: &mut Half<'_, H>,
) -> Result<Worker<W::Out>, AllocError>
    requires ready { Holds half.old.pass (IsReady shared.now.board.now depth) }
    requires hosts { AreHosts (λ h. W.suits shared.now.work.now (H.inputs h)) depth
        half.old.hosts.now }
    ensures ended { IfOk result (λ r. Holds half.old.pass (λ p. EndsAs
        (W.right shared.now.work.now) shared.now.limit (tasks_of shared.now.board.now)
        shared.now.wave shared.now.board.now depth
        H.faults H.begun p half.old.hosts.now half.new.hosts.now r)) }
    ensures stay { HostsStay H.faults H.inputs half.old.hosts.now half.new.hosts.now }
    ensures same_reference { half.new.hosts.ghost_name ≡ half.old.hosts.ghost_name }
{
    let Some(pass) = taken(half) else {
        unreachable!();
    };
    run_crew(rt, alloc, shared, pass, depth, half.hosts)
}

// Runs the workers of two halves beside each other.
#[cycle(halves)]
fn run_both<R: Threads + Sync, W: Work + Sync, H: Host + Send>(
    rt: &R,
    alloc: Global,
    shared: &Shared<'_, W>,
    depth: u32,
    left: &mut Half<'_, H>,
    right: &mut Half<'_, H>,
) -> (
    Result<Worker<W::Out>, AllocError>,
    Result<Worker<W::Out>, AllocError>,
)
    requires left_ready { Holds left.old.pass (IsReady shared.now.board.now depth) }
    requires right_ready { Holds right.old.pass (IsReady shared.now.board.now depth) }
    requires left_hosts { AreHosts (λ h. W.suits shared.now.work.now (H.inputs h)) depth
        left.old.hosts.now }
    requires right_hosts { AreHosts (λ h. W.suits shared.now.work.now (H.inputs h)) depth
        right.old.hosts.now }
    ensures left_ended { IfOk result.0 (λ r. Holds left.old.pass (λ p. EndsAs
        (W.right shared.now.work.now) shared.now.limit (tasks_of shared.now.board.now)
        shared.now.wave shared.now.board.now depth
        H.faults H.begun p left.old.hosts.now left.new.hosts.now r)) }
    ensures right_ended { IfOk result.1 (λ r. Holds right.old.pass (λ p. EndsAs
        (W.right shared.now.work.now) shared.now.limit (tasks_of shared.now.board.now)
        shared.now.wave shared.now.board.now depth
        H.faults H.begun p right.old.hosts.now right.new.hosts.now r)) }
    ensures left_stay { HostsStay H.faults H.inputs left.old.hosts.now left.new.hosts.now }
    ensures right_stay { HostsStay H.faults H.inputs right.old.hosts.now right.new.hosts.now }
    ensures same_left { left.new.hosts.ghost_name ≡ left.old.hosts.ghost_name }
    ensures same_right { right.new.hosts.ghost_name ≡ right.old.hosts.ghost_name }
{
    join_mut(
        rt,
        &mut || -> Result<Worker<W::Out>, AllocError>
            requires sync { IsSync R.row × IsSync W.row × IsSend H.row × IsSend W.Out.row }
            requires ready { Holds left.now.pass (IsReady shared.now.board.now depth) }
            requires hosts { AreHosts (λ h. W.suits shared.now.work.now (H.inputs h)) depth
                left.now.hosts.now }
            ensures ended { IfOk result (λ r. Holds left.entry.now.pass (λ p. EndsAs
                (W.right shared.entry.now.work.now) shared.entry.now.limit
                (tasks_of shared.entry.now.board.now) shared.entry.now.wave
                shared.entry.now.board.now depth
                H.faults H.begun p left.entry.now.hosts.now left.exit.now.hosts.now r)) }
            ensures stay { HostsStay H.faults H.inputs
                left.entry.now.hosts.now left.exit.now.hosts.now }
            ensures same_reference { left.exit.now.hosts.ghost_name
                ≡ left.entry.now.hosts.ghost_name }
        { run_half(rt, alloc, shared, depth, left) },
        &mut || -> Result<Worker<W::Out>, AllocError>
            requires sync { IsSync R.row × IsSync W.row × IsSend H.row × IsSend W.Out.row }
            requires ready { Holds right.now.pass (IsReady shared.now.board.now depth) }
            requires hosts { AreHosts (λ h. W.suits shared.now.work.now (H.inputs h)) depth
                right.now.hosts.now }
            ensures ended { IfOk result (λ r. Holds right.entry.now.pass (λ p. EndsAs
                (W.right shared.entry.now.work.now) shared.entry.now.limit
                (tasks_of shared.entry.now.board.now) shared.entry.now.wave
                shared.entry.now.board.now depth
                H.faults H.begun p right.entry.now.hosts.now right.exit.now.hosts.now r)) }
            ensures stay { HostsStay H.faults H.inputs
                right.entry.now.hosts.now right.exit.now.hosts.now }
            ensures same_reference { right.exit.now.hosts.ghost_name
                ≡ right.entry.now.hosts.ghost_name }
        { run_half(rt, alloc, shared, depth, right) },
    )
}

// Runs a worker on each of the hosts. They are halved at most `depth` times, and the pass with them.
#[cycle(halves)]
pub fn run_crew<R: Threads + Sync, W: Work + Sync, H: Host + Send>(
    rt: &R,
    alloc: Global,
    shared: &Shared<'_, W>,
    pass: Pass,
    depth: u32,
    hosts: &mut [H],
) -> Result<Worker<W::Out>, AllocError>
    requires ready { IsReady shared.now.board.now depth pass }
    requires hosts { AreHosts (λ h. W.suits shared.now.work.now (H.inputs h)) depth hosts.old }
    ensures ended { IfOk result (EndsAs
        (W.right shared.now.work.now) shared.now.limit (tasks_of shared.now.board.now)
        shared.now.wave shared.now.board.now depth
        H.faults H.begun pass hosts.old hosts.new) }
    ensures stay { HostsStay H.faults H.inputs hosts.old hosts.new }
{
    if hosts.len() == 1 {
        return run_worker(alloc, shared, pass, &mut hosts[0]);
    }
    let mut kept = pass;
    let given = shared.board.split(&mut kept);
    let below = depth - 1;
    let (front, back) = hosts.split_at_mut(hosts.len() / 2);
    let mut left = Half {
        pass: Some(kept),
        hosts: front,
    };
    let mut right = Half {
        pass: Some(given),
        hosts: back,
    };
    let (one, two) = run_both(rt, alloc, shared, below, &mut left, &mut right);
    // What is left of both halves is taken apart, so that the hosts are given back before anything is dropped.
    let Half {
        pass: _kept,
        hosts: _front,
    } = left;
    let Half {
        pass: _given,
        hosts: _back,
    } = right;
    merge(shared.board, one?, two?)
}
