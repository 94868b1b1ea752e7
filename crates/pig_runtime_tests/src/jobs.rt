//! What a job takes and refuses.
//!
//! Where memory is wanting the process ends: that drops nothing, so its proof is short.

use pig_job::{Core, Event, JobFault};
use std::process::Abort;

const NOT_NOW: Result<(), JobFault> = Err(JobFault::NotNow);

fn draw(worker: u32) -> Event {
    Event::Draw { worker }
}

fn begin(worker: u32, task: u32) -> Event {
    Event::Begin { worker, task }
}

fn commit(worker: u32, task: u32, attempt: u32) -> Event {
    Event::Commit {
        worker,
        task,
        attempt,
    }
}

fn late(worker: u32, task: u32, attempt: u32) -> Event {
    Event::Late {
        worker,
        task,
        attempt,
    }
}

fn fail(worker: u32, task: u32, attempt: u32) -> Event {
    Event::Fail {
        worker,
        task,
        attempt,
    }
}

fn leave(worker: u32) -> Event {
    Event::Leave { worker }
}

fn aside(worker: u32) -> Event {
    Event::Aside { worker }
}

fn abort(worker: u32) -> Event {
    Event::Abort { worker }
}

// Task 0 is won by its second attempt, and task 1 has failed once: nobody may leave.
#[test]
fn one_worker(rt: HostRuntime) {
    let mut core = Core::open(rt.alloc(), 2, 1, 4).expect(&rt, "memory");
    let cases = [
        (draw(0), Ok(())),
        (begin(0, 0), Ok(())),
        (begin(0, 0), Ok(())),
        (commit(0, 0, 1), Ok(())),
        (commit(0, 0, 0), NOT_NOW),
        (late(0, 0, 0), Ok(())),
        (draw(0), Ok(())),
        (begin(0, 1), Ok(())),
        (fail(0, 1, 0), Ok(())),
        (draw(0), Ok(())),
        (leave(0), NOT_NOW),
    ];
    for (event, answer) in cases {
        assert!(rt; core.step(&event) == answer, "at {event:?}");
    }
}

// The one task fails once and is then won: both may leave, and take no step more.
#[test]
fn two_workers(rt: HostRuntime) {
    let mut core = Core::open(rt.alloc(), 1, 2, 4).expect(&rt, "memory");
    let cases = [
        (draw(0), Ok(())),
        (begin(0, 0), Ok(())),
        (begin(0, 0), Ok(())),
        (fail(0, 0, 0), Ok(())),
        (commit(0, 0, 1), Ok(())),
        (leave(1), Ok(())),
        (leave(0), Ok(())),
        (draw(0), NOT_NOW),
        (leave(0), NOT_NOW),
        (abort(1), NOT_NOW),
    ];
    for (event, answer) in cases {
        assert!(rt; core.step(&event) == answer, "at {event:?}");
    }
}

// Task 0 is won by worker 1, and worker 0 comes late.
fn win_first(rt: &impl Abort, core: &mut Core) {
    let cases = [
        // There is no worker 2.
        (draw(2), NOT_NOW),
        (abort(2), NOT_NOW),
        // A task is begun once it is drawn, whoever drew it, and there is no task 2.
        (begin(1, 0), NOT_NOW),
        (draw(0), Ok(())),
        (begin(1, 0), Ok(())),
        (begin(0, 1), NOT_NOW),
        (draw(0), Ok(())),
        (draw(0), Ok(())),
        (begin(0, 2), NOT_NOW),
        // The attempt is under way at worker 1, and its task has no winner.
        (commit(0, 0, 0), NOT_NOW),
        (fail(0, 0, 0), NOT_NOW),
        (late(1, 0, 0), NOT_NOW),
        (leave(1), NOT_NOW),
        (begin(0, 0), Ok(())),
        (commit(1, 0, 0), Ok(())),
        // It has ended, and its task has a winner.
        (commit(1, 0, 0), NOT_NOW),
        (fail(1, 0, 0), NOT_NOW),
        (late(1, 0, 0), NOT_NOW),
        (commit(0, 0, 1), NOT_NOW),
        (late(0, 0, 1), Ok(())),
        (late(0, 0, 1), NOT_NOW),
    ];
    for (event, answer) in cases {
        assert!(rt; core.step(&event) == answer, "at {event:?}");
    }
}

// Task 1 fails four times at worker 0, and worker 1 leaves.
fn fail_second(rt: &impl Abort, core: &mut Core) {
    let cases = [
        // Task 1 has neither a winner nor four failures until the fourth.
        (leave(1), NOT_NOW),
        (begin(0, 1), Ok(())),
        (fail(0, 1, 0), Ok(())),
        (fail(0, 1, 0), NOT_NOW),
        (begin(0, 1), Ok(())),
        (fail(0, 1, 1), Ok(())),
        (begin(0, 1), Ok(())),
        (fail(0, 1, 2), Ok(())),
        (leave(1), NOT_NOW),
        (begin(0, 1), Ok(())),
        (fail(0, 1, 3), Ok(())),
        (leave(1), Ok(())),
    ];
    for (event, answer) in cases {
        assert!(rt; core.step(&event) == answer, "at {event:?}");
    }
}

// Worker 1 has left, and worker 0 aborts.
fn end_both(rt: &impl Abort, core: &mut Core) {
    let cases = [
        // Worker 1 has left, and worker 0 has attempts under way.
        (draw(1), NOT_NOW),
        (begin(1, 1), NOT_NOW),
        (leave(1), NOT_NOW),
        (abort(1), NOT_NOW),
        (begin(0, 1), Ok(())),
        (begin(0, 0), Ok(())),
        (leave(0), NOT_NOW),
        // Worker 0 has aborted, with attempts under way.
        (abort(0), Ok(())),
        (abort(0), NOT_NOW),
        (begin(0, 1), NOT_NOW),
        (commit(0, 1, 4), NOT_NOW),
        (late(0, 0, 2), NOT_NOW),
        (fail(0, 1, 4), NOT_NOW),
        (leave(0), NOT_NOW),
        (draw(0), NOT_NOW),
    ];
    for (event, answer) in cases {
        assert!(rt; core.step(&event) == answer, "at {event:?}");
    }
}

// Each kind of step, taken and refused for each of its reasons but the bound of the total.
#[test]
fn each_condition(rt: HostRuntime) {
    let mut core = Core::open(rt.alloc(), 2, 2, 4).expect(&rt, "memory");
    win_first(&rt, &mut core);
    fail_second(&rt, &mut core);
    end_both(&rt, &mut core);
}

// Of a job with the limit 1 a worker may leave after one failure; it may be put aside after three of its own, and not
// with an attempt under way. The other worker has no failures.
#[test]
fn limit_of_one(rt: HostRuntime) {
    let mut core = Core::open(rt.alloc(), 3, 2, 1).expect(&rt, "memory");
    let cases = [
        (draw(0), Ok(())),
        (draw(0), Ok(())),
        (draw(0), Ok(())),
        (begin(0, 0), Ok(())),
        (leave(1), NOT_NOW),
        (fail(0, 0, 0), Ok(())),
        (begin(0, 1), Ok(())),
        (fail(0, 1, 0), Ok(())),
        (aside(0), NOT_NOW),
        (begin(0, 2), Ok(())),
        (begin(0, 2), Ok(())),
        (fail(0, 2, 0), Ok(())),
        (aside(0), NOT_NOW),
        (fail(0, 2, 1), Ok(())),
        (aside(1), NOT_NOW),
        (aside(0), Ok(())),
        (aside(0), NOT_NOW),
        (draw(0), NOT_NOW),
        (leave(0), NOT_NOW),
        (leave(1), Ok(())),
        (aside(1), NOT_NOW),
    ];
    for (event, answer) in cases {
        assert!(rt; core.step(&event) == answer, "at {event:?}");
    }
}

// Of a job with the limit 5 nobody may leave after four failures.
#[test]
fn limit_of_five(rt: HostRuntime) {
    let mut core = Core::open(rt.alloc(), 1, 1, 5).expect(&rt, "memory");
    assert!(rt; core.step(&draw(0)) == Ok(()));
    for attempt in 0..4u32 {
        assert!(rt; core.step(&begin(0, 0)) == Ok(()));
        assert!(rt; core.step(&fail(0, 0, attempt)) == Ok(()));
    }
    assert!(rt; core.step(&leave(0)) == NOT_NOW);
    assert!(rt; core.step(&begin(0, 0)) == Ok(()));
    assert!(rt; core.step(&fail(0, 0, 4)) == Ok(()));
    assert!(rt; core.step(&leave(0)) == Ok(()));
}
