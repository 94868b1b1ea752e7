// Waves on one host, on many, and on hosts that meet.
//
// Where memory is wanting to a test itself the process ends: that drops nothing, so its proof is short.
// Trees end by `drop`: one call is cheap to prove, and a tree that dies by name is taken apart variant by variant.
use crate::hosts::hosts;
use crate::work::{Doubles, Reads, wave};
use pig_board::JobEnd;
use pig_pool::{WaveEnd, WaveFault, run_wave};
use pig_silent_tests::{Held, Silent, make_meeting};
use std::alloc::Global;
use std::process::Abort;

/// No task wants memory.
const NONE: u32 = 65536;

/// A wave on one host.
#[derive(Drop)]
struct Case {
    tasks: u32,
    limit: u32,
    /// The calls of `begin` that fail.
    fails: &'static [u64],
    /// The task that wants memory.
    wants: u32,
    /// The rounds, and of each task its attempts, those that failed, and the winner.
    answer: &'static str,
}

fn make_row(
    tasks: u32,
    limit: u32,
    fails: &'static [u64],
    wants: u32,
    answer: &'static str,
) -> Case {
    Case {
        tasks,
        limit,
        fails,
        wants,
        answer,
    }
}

const FIFTEEN: &[u64] = &[1, 2, 3, 4, 5, 6, 7, 8, 9, 10, 11, 12, 13, 14, 15];

const SIXTEEN: &[u64] = &[1, 2, 3, 4, 5, 6, 7, 8, 9, 10, 11, 12, 13, 14, 15, 16];

fn row(number: u32) -> Case {
    match number {
        0 => make_row(1, 4, &[1, 2, 3], NONE, "done in 2: 4-3-3"),
        1 => make_row(1, 4, &[1, 2, 3, 4], NONE, "task 0 failed 4-4-none"),
        2 => make_row(
            5,
            4,
            &[1, 3, 5, 7],
            NONE,
            "done in 1: 2-1-1 2-1-1 2-1-1 2-1-1 1-0-0",
        ),
        3 => make_row(3, 4, &[2, 3, 4, 5], NONE, "done in 2: 1-0-0 4-3-3 2-1-1"),
        4 => make_row(
            3,
            4,
            &[2, 3, 4, 6],
            NONE,
            "task 1 failed 1-0-0 4-4-none 1-0-0",
        ),
        5 => make_row(0, 4, &[], NONE, "done in 1:"),
        6 => make_row(3, 4, &[1], 2, "out of memory"),
        7 => make_row(1, 1, &[1], NONE, "task 0 failed 1-1-none"),
        8 => make_row(1, 2, &[1], NONE, "done in 1: 2-1-1"),
        9 => make_row(1, 3, &[1, 2, 3], NONE, "task 0 failed 3-3-none"),
        10 => make_row(1, 16, FIFTEEN, NONE, "done in 2: 16-15-15"),
        11 => make_row(1, 16, SIXTEEN, NONE, "task 0 failed 16-16-none"),
        _ => make_row(2, 4, &[1, 2, 4, 5], NONE, "done in 1: 3-2-2 3-2-2"),
    }
}

/// Adds the end of each task.
fn tell<R: Abort>(rt: &R, alloc: Global, end: &JobEnd, told: &mut String) {
    for t in 0..end.len() {
        let task = end.task(t);
        let (attempts, failed) = (task.attempts, task.failed);
        let text = match task.winner {
            Some(winner) => format!(in alloc; " {attempts}-{failed}-{winner}"),
            None => format!(in alloc; " {attempts}-{failed}-none"),
        };
        let text = text.expect(rt, "memory");
        told.push_str(&text).expect(rt, "memory");
    }
}

/// The answer of a wave.
fn answer<R: Abort>(rt: &R, alloc: Global, ended: &Result<WaveEnd<u64>, WaveFault>) -> String {
    match ended {
        Ok(done) => {
            let rounds = done.rounds;
            let mut told = format!(in alloc; "done in {rounds}:").expect(rt, "memory");
            tell(rt, alloc, &done.end, &mut told);
            told
        }
        Err(WaveFault::TaskFailed { task, end }) => {
            let mut told = format!(in alloc; "task {task} failed").expect(rt, "memory");
            tell(rt, alloc, end, &mut told);
            told
        }
        Err(WaveFault::OutOfMemory) => {
            String::from_str(alloc, "out of memory").expect(rt, "memory")
        }
    }
}

#[test]
fn one_host(rt: HostRuntime) {
    let alloc = rt.alloc();
    for number in 0..13 {
        let row = row(number);
        let mut hosts = hosts(&rt, alloc, 1, row.fails);
        let work = Doubles {
            tasks: row.tasks,
            wants: row.wants,
        };
        let ended = wave(&rt, alloc, &work, &mut hosts, row.limit);
        let told = answer(&rt, alloc, &ended);
        drop(ended);
        assert_eq!(rt; told.as_str(), row.answer);
    }
}

/// Whether a wave without failures gave what it should: each task is won, and its output stands at its place.
fn is_whole(done: &WaveEnd<u64>, tasks: u32) -> bool {
    let outs = done.outs.as_slice();
    if outs.len() != tasks as usize || done.end.len() != tasks {
        return false;
    }
    for t in 0..done.end.len() {
        let task = done.end.task(t);
        if task.failed != 0
            || task.winner.is_none()
            || outs.get(t as usize) != Some(&(2 * t as u64))
        {
            return false;
        }
    }
    true
}

/// Whether a wave ended well, and gave what it should without failures.
fn is_done(ended: &Result<WaveEnd<u64>, WaveFault>, tasks: u32) -> bool {
    match ended {
        Ok(done) => is_whole(done, tasks),
        Err(_) => false,
    }
}

/// How many hosts there are, and how many tasks.
fn size(number: u32) -> (u32, u32) {
    match number {
        0 => (1, 20),
        1 => (2, 20),
        2 => (3, 20),
        3 => (5, 65536),
        4 => (16, 20),
        5 => (256, 300),
        _ => (16, 0),
    }
}

#[test]
fn many_hosts(rt: HostRuntime) {
    let alloc = rt.alloc();
    for number in 0..7 {
        let (count, tasks) = size(number);
        let mut hosts = hosts(&rt, alloc, count, &[]);
        let ended = wave(&rt, alloc, &Doubles { tasks, wants: NONE }, &mut hosts, 4);
        let whole = is_done(&ended, tasks);
        drop(ended);
        assert!(rt; whole);
    }
}

/// Whether a wave in which one of two hosts always fails ended well, in one round, with three failures at most: the
/// host that fails is put aside, also where it began attempts at several tasks.
fn is_aside(ended: &Result<WaveEnd<u64>, WaveFault>) -> bool {
    match ended {
        Ok(done) => {
            let mut failed = 0u32;
            for t in 0..done.end.len() {
                failed = failed.saturating_add(done.end.task(t).failed);
            }
            done.rounds == 1 && failed <= 3 && done.outs.as_slice().len() == 20
        }
        Err(_) => false,
    }
}

#[test]
fn one_always_fails(rt: HostRuntime) {
    let alloc = rt.alloc();
    let fails: Vec<u64> = (1..=80u64).collect(alloc).expect(&rt, "memory");
    let mut hosts = hosts(&rt, alloc, 2, &fails);
    let work = Doubles {
        tasks: 20,
        wants: NONE,
    };
    let ended = wave(&rt, alloc, &work, &mut hosts, 4);
    let is_aside = is_aside(&ended);
    drop(ended);
    assert!(rt; is_aside);
}

#[test]
fn lost_reads(rt: HostRuntime) {
    let alloc = rt.alloc();
    let mut hosts = [Silent::new(Held::Piece(b"0"), &[1, 2, 4, 5, 6])];
    let ended = run_wave(&rt, alloc, &Reads { tasks: 2 }, 0, &mut hosts, 4);
    let told = answer(&rt, alloc, &ended);
    drop(ended);
    assert_eq!(rt; told.as_str(), "done in 2: 3-2-2 4-3-3");
}

/// Whether a wave of one task ended well.
fn has_met(ended: &Result<WaveEnd<u64>, WaveFault>) -> bool {
    match ended {
        Ok(done) => is_whole(done, 1) && done.end.len() == 1,
        Err(_) => false,
    }
}

#[test]
fn two_hosts_meet(rt: HostRuntime) {
    let alloc = rt.alloc();
    let mut hosts = make_meeting(alloc, b"", 200_000_000).expect(&rt, "memory");
    let work = Doubles {
        tasks: 1,
        wants: NONE,
    };
    let ended = wave(&rt, alloc, &work, &mut hosts, 2);
    let met = has_met(&ended);
    drop(ended);
    assert!(rt; met);
}
