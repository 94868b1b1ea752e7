//! What one worker does in a wave.

ghost use Rattle.std.specs.Prelude.{◌≡◌, ◌<◌, ◌≤◌, ◌+◌, ◌*◌, ◌-◌, [], true, IfOk};
ghost use Rattle.pig_board.specs.View.{knows_winner};
ghost use Rattle.pig_board.specs.Pass.{tasks_of, view_of, is_firm, OnBoard};
ghost use Rattle.pig_pool.specs.Begins.{tells};
ghost use Rattle.pig_pool.specs.Workers.{Works, HasWon, Spends, KnowsAll, Leaves, MayTry, Went, Rested, was_aside, worker_cost};
ghost use Rattle.pig_pool.specs.Crew.{IsReady};

use crate::shared::Shared;
use crate::tries::{Tried, try_once};
use crate::work::Work;
use pig_board::Pass;
use pig_outside::Host;
use std::alloc::{AllocError, Global};
use std::collections::LinkedList;

// What a worker has: its pass, the outputs with which it won, each with its task, and whether it was put aside. Of
// workers that were joined, each was.
#[derive(Drop)]
pub struct Worker<O> {
    pub pass: Pass,
    pub outputs: LinkedList<(u32, O)>,
    pub is_aside: bool,
}

// Where a worker's course has led.
#[derive(Clone, Copy, Drop)]
pub enum Course {
    // It may go on.
    On,
    // A task has failed too often.
    Over,
    // The worker is put aside.
    Aside,
}

impl Course {
    fn is_aside(self) -> bool
        ensures { result ≡ was_aside self }
    {
        matches!(self, Course::Aside)
    }
}

// Tries task `t` until it has a winner.
fn try_task<W: Work, H: Host>(
    shared: &Shared<'_, W>,
    worker: &mut Worker<W::Out>,
    t: u32,
    host: &mut H,
) -> Result<Course, AllocError>
    requires task { t < tasks_of shared.now.board.now }
    requires drawn { t < (view_of worker.old.pass).known }
    requires ready { MayTry (W.right shared.now.work.now) (W.suits shared.now.work.now)
        shared.now.limit shared.now.board.now 1 worker.old (H.inputs host.old) }
    ensures left { Leaves (W.right shared.now.work.now) shared.now.limit shared.now.wave
        shared.now.board.now 1 worker.old worker.new (H.inputs host.old) (H.inputs host.new)
        (tells (H.faults host.old) (H.begun host.old))
        (tells (H.faults host.new) (H.begun host.new)) result }
    ensures tried { IfOk result (Went shared.now.limit worker.new.pass
        (knows_winner t (view_of worker.new.pass) ≡ true)) }
{
    loop {
        match try_once(shared, worker, t, host)? {
            Tried::Won => return Ok(Course::On),
            Tried::GivenUp => return Ok(Course::Over),
            Tried::Aside => return Ok(Course::Aside),
            Tried::Failed => {}
        }
    }
}

// Draws tasks and tries them, until none is left.
fn try_drawn<W: Work, H: Host>(
    shared: &Shared<'_, W>,
    worker: &mut Worker<W::Out>,
    host: &mut H,
) -> Result<Course, AllocError>
    requires ready { MayTry (W.right shared.now.work.now) (W.suits shared.now.work.now)
        shared.now.limit shared.now.board.now (3 * tasks_of shared.now.board.now + 2)
        worker.old (H.inputs host.old) }
    ensures left { Leaves (W.right shared.now.work.now) shared.now.limit shared.now.wave
        shared.now.board.now (2 * tasks_of shared.now.board.now + 1) worker.old worker.new
        (H.inputs host.old) (H.inputs host.new)
        (tells (H.faults host.old) (H.begun host.old))
        (tells (H.faults host.new) (H.begun host.new)) result }
    ensures drawn { IfOk result (Went shared.now.limit worker.new.pass
        (tasks_of shared.now.board.now ≤ (view_of worker.new.pass).known)) }
{
    while let Some(t) = shared.board.draw(&mut worker.pass) {
        match try_task(shared, worker, t, host)? {
            Course::On => {}
            Course::Over => return Ok(Course::Over),
            Course::Aside => return Ok(Course::Aside),
        }
    }
    Ok(Course::On)
}

// Goes once through all tasks, which are all drawn, and tries each without a winner.
fn try_rest<W: Work, H: Host>(
    shared: &Shared<'_, W>,
    worker: &mut Worker<W::Out>,
    host: &mut H,
) -> Result<Course, AllocError>
    requires drawn { tasks_of shared.now.board.now ≤ (view_of worker.old.pass).known }
    requires ready { MayTry (W.right shared.now.work.now) (W.suits shared.now.work.now)
        shared.now.limit shared.now.board.now (tasks_of shared.now.board.now + 1)
        worker.old (H.inputs host.old) }
    ensures left { Leaves (W.right shared.now.work.now) shared.now.limit shared.now.wave
        shared.now.board.now (tasks_of shared.now.board.now) worker.old worker.new
        (H.inputs host.old) (H.inputs host.new)
        (tells (H.faults host.old) (H.begun host.old))
        (tells (H.faults host.new) (H.begun host.new)) result }
    ensures all { IfOk result (Went shared.now.limit worker.new.pass
        (KnowsAll (tasks_of shared.now.board.now) (view_of worker.new.pass))) }
{
    for t in 0..shared.work.tasks() {
        match try_task(shared, worker, t, host)? {
            Course::On => {}
            Course::Over => return Ok(Course::Over),
            Course::Aside => return Ok(Course::Aside),
        }
    }
    Ok(Course::On)
}

// Goes the whole course on one host: first the tasks that are drawn, then those without a winner.
fn try_all<W: Work, H: Host>(
    shared: &Shared<'_, W>,
    worker: &mut Worker<W::Out>,
    host: &mut H,
) -> Result<Course, AllocError>
    requires ready { MayTry (W.right shared.now.work.now) (W.suits shared.now.work.now)
        shared.now.limit shared.now.board.now (3 * tasks_of shared.now.board.now + 2)
        worker.old (H.inputs host.old) }
    ensures left { Leaves (W.right shared.now.work.now) shared.now.limit shared.now.wave
        shared.now.board.now (3 * tasks_of shared.now.board.now + 1) worker.old worker.new
        (H.inputs host.old) (H.inputs host.new)
        (tells (H.faults host.old) (H.begun host.old))
        (tells (H.faults host.new) (H.begun host.new)) result }
    ensures all { IfOk result (Went shared.now.limit worker.new.pass
        (KnowsAll (tasks_of shared.now.board.now) (view_of worker.new.pass))) }
{
    match try_drawn(shared, worker, host)? {
        Course::On => try_rest(shared, worker, host),
        Course::Over => Ok(Course::Over),
        Course::Aside => Ok(Course::Aside),
    }
}

// Works through the tasks on one host.
pub fn run_worker<W: Work, H: Host>(
    alloc: Global,
    shared: &Shared<'_, W>,
    pass: Pass,
    host: &mut H,
) -> Result<Worker<W::Out>, AllocError>
    requires ready { IsReady shared.now.board.now 0 pass }
    requires suits { W.suits shared.now.work.now (H.inputs host.old) }
    ensures board { IfOk result (λ r. OnBoard shared.now.board.now r.pass) }
    ensures firm { IfOk result (λ r. is_firm r.pass ≡ is_firm pass) }
    ensures works { IfOk result (λ r. Works shared.now.wave (view_of pass) (view_of r.pass)
        (tells (H.faults host.old) (H.begun host.old))
        (tells (H.faults host.new) (H.begun host.new))) }
    ensures won { IfOk result (λ r. HasWon (W.right shared.now.work.now)
        (view_of r.pass) r.outputs) }
    ensures rested { IfOk result (λ r. Rested shared.now.limit (tasks_of shared.now.board.now)
        (is_firm pass) (view_of r.pass) r.is_aside) }
    ensures room { IfOk result (λ r. Spends worker_cost (view_of pass) (view_of r.pass)) }
    ensures inputs { H.inputs host.new ≡ H.inputs host.old }
    ensures later { H.faults host.old ≤ H.faults host.new }
{
    let mut worker = Worker {
        pass,
        outputs: LinkedList::new(alloc),
        is_aside: false,
    };
    let course = try_all(shared, &mut worker, host)?;
    worker.is_aside = course.is_aside();
    Ok(worker)
}
