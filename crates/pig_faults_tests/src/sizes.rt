// Inputs that are cut into many tasks, and into too many.
use pig_setting_tests::{Scene, told};
use std::alloc::Global;
use std::process::Abort;
use std::thread::Threads;

const MANY: &str = "11 kept 0\npig: too large: tasks\np none\nq none\n";

/// A text of so many times the same.
fn repeated<R: Abort>(rt: &R, alloc: Global, text: &str, count: u32) -> String {
    let mut repeated = String::new(alloc);
    for _ in 0..count {
        repeated.push_str(text).expect(rt, "memory");
    }
    repeated
}

/// What is left of a script over so many bytes, all of them the same, with these words.
fn of<R: Threads + Sync + Abort>(
    rt: &R,
    alloc: Global,
    line: &str,
    script: &str,
    byte: &str,
    count: u32,
) -> String {
    let bytes = repeated(rt, alloc, byte, count);
    let scene = Scene {
        line,
        others: 1,
        ..Scene::new(script, bytes.as_str())
    };
    told(rt, alloc, &scene).expect(rt, "memory")
}

const STORED: &str = "a = LOAD 'a' AS (x:int); STORE a INTO 'p';";

const GROUPED: &str =
    "a = LOAD 'a' AS (x:int); g = GROUP a BY x; c = FOREACH g GENERATE COUNT_STAR(a);
    STORE c INTO 'p';";

/// Two ways from the one LOAD.
const DOUBLED: &str = "a = LOAD 'a' AS (x:int); u = UNION a, a; STORE u INTO 'p';";

/// A wave has at most 65,536 tasks that read, and ways to them. It is refused before any directory
/// is made.
#[test]
fn tasks_are_counted_with_their_ways(rt: HostRuntime) {
    let alloc = rt.alloc();
    for (script, split, count) in [
        (STORED, 1, 65_536),
        (STORED, 2, 131_071),
        (GROUPED, 1, 65_536),
        (DOUBLED, 1, 32_768),
        (STORED, 7, 1_000_000),
    ] {
        let line = format!(in alloc; "run s --split {split}").expect(&rt, "memory");
        let got = of(&rt, alloc, line.as_str(), script, "\n", count);
        assert_eq!(rt; got.as_str(), MANY, "at {script}, {split}");
    }
}

/// What is left of a script where the one attempt that a task has is lost.
fn lost<R: Threads + Sync + Abort>(rt: &R, alloc: Global, script: &str, count: u32) -> String {
    let bytes = repeated(rt, alloc, "\n", count);
    let scene = Scene {
        line: "run s --split 1 --attempts 1",
        broken: &[1],
        ..Scene::new(script, bytes.as_str())
    };
    told(rt, alloc, &scene).expect(rt, "memory")
}

/// The greatest number is taken: 65,535 tasks and one way, or 65,534 tasks and two. Its first task
/// ends the run.
#[test]
fn the_greatest_number_is_taken(rt: HostRuntime) {
    let alloc = rt.alloc();
    let want = "7 kept 0\npig: wave 0 task 0 failed 1 times\np none\nq none\n";
    for (script, count) in [(STORED, 65_535), (GROUPED, 65_535), (DOUBLED, 32_767)] {
        let got = lost(&rt, alloc, script, count);
        assert_eq!(rt; got.as_str(), want, "at {script}");
    }
}

/// Many tasks run to their end: each hands on one key, and they all are one.
#[test]
fn many_tasks_run(rt: HostRuntime) {
    let got = of(&rt, rt.alloc(), "run s --split 1", GROUPED, "\n", 1_000);
    let want = "0 kept 0\nstored p 1\ndone 1000 1000 1\np whole\n1000\nq none\n";
    assert_eq!(rt; got.as_str(), want);
}

/// A line of a million bytes in a hundred splits, of which the first one reads it all.
#[test]
fn one_line_over_many_splits(rt: HostRuntime) {
    let alloc = rt.alloc();
    let script = "a = LOAD 'a' AS (s:chararray); STORE a INTO 'p';";
    let got = of(&rt, alloc, "run s --split 10000", script, "x", 1_000_000);
    let line = repeated(&rt, alloc, "x", 1_000_000);
    let want = format!(in alloc; "0 kept 0\nstored p 1\ndone 1 0 1\np whole\n{line}\nq none\n");
    let want = want.expect(&rt, "memory");
    assert!(rt; got.as_str() == want.as_str());
}
