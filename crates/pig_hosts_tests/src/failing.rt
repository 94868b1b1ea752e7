// One host whose calls fail in turn, and the ends of the waves: of each task its attempts, those
// that failed, and the winner.
use pig_outside::Method;
use pig_setting_tests::{Fault, Scene, told};
use std::alloc::Global;
use std::process::Abort;
use std::thread::Threads;

/// Three lines, which begin at 0, 5 and 6 of nine bytes.
const SCRIPT: &str = "a = LOAD 'a' AS (x:int, y:int); STORE a INTO 'p';";

const INPUT: &str = "1\t2\r\n\n3\t4";

const DONE: &str = "0 kept 0\nstored p 3\ndone 3 0 3\n";

const STORED: &str = "p whole\n\t\n1\t2\n3\t4\nq none\n";

const NOTHING: &str = "p none\nq none\n";

/// The first calls of `begin`.
const BEGINS: [Fault; 16] = [
    (Method::Begin, 1),
    (Method::Begin, 2),
    (Method::Begin, 3),
    (Method::Begin, 4),
    (Method::Begin, 5),
    (Method::Begin, 6),
    (Method::Begin, 7),
    (Method::Begin, 8),
    (Method::Begin, 9),
    (Method::Begin, 10),
    (Method::Begin, 11),
    (Method::Begin, 12),
    (Method::Begin, 13),
    (Method::Begin, 14),
    (Method::Begin, 15),
    (Method::Begin, 16),
];

/// The first so many of them.
fn first(count: usize) -> &'static [Fault] {
    BEGINS.get(..count).unwrap_or(&[])
}

/// A scene is to leave this.
fn check<R: Threads + Sync + Abort>(rt: &R, alloc: Global, scene: &Scene, want: &str) {
    let got = told(rt, alloc, scene).expect(rt, "memory");
    assert_eq!(rt; got.as_str(), want, "at {}", scene.line);
}

/// The script over the input on one host, of which these calls fail, is to leave this; the words
/// are those behind `run s`.
fn check_with<R: Threads + Sync + Abort>(
    rt: &R,
    alloc: Global,
    options: &str,
    faults: &[Fault],
    (head, waves, tail): (&str, &str, &str),
) {
    let line = format!(in alloc; "run s{options}").expect(rt, "memory");
    let want = format!(in alloc; "{head}{waves}{tail}").expect(rt, "memory");
    let hosts = [faults];
    let scene = Scene {
        line: line.as_str(),
        hosts: &hosts,
        waves: true,
        ..Scene::new(SCRIPT, INPUT)
    };
    check(rt, alloc, &scene, want.as_str());
}

/// With these failures the waves end so, and all is stored.
fn check_done<R: Threads + Sync + Abort>(
    rt: &R,
    alloc: Global,
    options: &str,
    faults: &[Fault],
    waves: &str,
) {
    check_with(rt, alloc, options, faults, (DONE, waves, STORED));
}

/// With so many failures the one task is given up.
fn check_lost<R: Threads + Sync + Abort>(
    rt: &R,
    alloc: Global,
    options: &str,
    faults: &[Fault],
    waves: &str,
) {
    let count = faults.len();
    let head = format!(in alloc; "7 kept 0\npig: wave 0 task 0 failed {count} times\n");
    let head = head.expect(rt, "memory");
    check_with(rt, alloc, options, faults, (head.as_str(), waves, NOTHING));
}

/// Fewer failures than the limit.
#[test]
fn a_task_is_tried_again(rt: HostRuntime) {
    for (options, count, waves) in [
        ("", 0, "wave 1-0-0\n"),
        ("", 1, "wave 2-1-1\n"),
        ("", 3, "wave 4-3-3\n"),
        (" --attempts 2", 1, "wave 2-1-1\n"),
        (" --attempts 16", 15, "wave 16-15-15\n"),
    ] {
        check_done(&rt, rt.alloc(), options, first(count), waves);
    }
}

/// As many failures as the limit.
#[test]
fn a_task_is_given_up(rt: HostRuntime) {
    for (options, count, waves) in [
        ("", 4, "wave 4-4-none\n"),
        (" --attempts 1", 1, "wave 1-1-none\n"),
        (" --attempts 2", 2, "wave 2-2-none\n"),
        (" --attempts 3", 3, "wave 3-3-none\n"),
        (" --attempts 16", 16, "wave 16-16-none\n"),
    ] {
        check_lost(&rt, rt.alloc(), options, first(count), waves);
    }
}

/// A failure is counted at the task whose attempt it ended.
#[test]
fn each_task_has_its_failures(rt: HostRuntime) {
    let faults = fails([1, 3, 5, 7]);
    let waves = "wave 2-1-1 2-1-1 2-1-1 2-1-1 1-0-0\n";
    check_done(&rt, rt.alloc(), " --split 2", &faults, waves);
}

/// Reads that fail end their attempts too.
#[test]
fn lost_reads_are_failures(rt: HostRuntime) {
    let alloc = rt.alloc();
    let reads = [
        (Method::Read, 1),
        (Method::Read, 2),
        (Method::Read, 3),
        (Method::Read, 4),
    ];
    check_lost(&rt, alloc, "", &reads, "wave 4-4-none\n");
    let reads = [(Method::Read, 1), (Method::Read, 2)];
    check_done(&rt, alloc, "", &reads, "wave 3-2-2\n");
    let both = [(Method::Begin, 1), (Method::Read, 1), (Method::Begin, 3)];
    check_done(&rt, alloc, "", &both, "wave 4-3-3\n");
}

/// Three waves, of one task, of one, and of one for each STORE.
const LIMIT: &str = "a = LOAD 'a' AS (x:int); l = LIMIT a 5; STORE l INTO 'p'; STORE l INTO 'q';";

/// These calls of `begin`, by their numbers.
fn fails(numbers: [u64; 4]) -> [Fault; 4] {
    let [first, second, third, fourth] = numbers;
    [
        (Method::Begin, first),
        (Method::Begin, second),
        (Method::Begin, third),
        (Method::Begin, fourth),
    ]
}

/// Where these calls of `begin` fail, the three waves are to leave this.
fn check_limit<R: Threads + Sync + Abort>(
    rt: &R,
    alloc: Global,
    numbers: [u64; 4],
    (head, waves, tail): (&str, &str, &str),
) {
    let want = format!(in alloc; "{head}{waves}{tail}").expect(rt, "memory");
    let faults = fails(numbers);
    let hosts: [&[Fault]; 1] = [&faults];
    let scene = Scene {
        hosts: &hosts,
        waves: true,
        ..Scene::new(LIMIT, "1\n2\n")
    };
    check(rt, alloc, &scene, want.as_str());
}

/// A host that failed three times in a row goes on with what is left, and comes back to the task
/// behind it. (A call of number 0 is none.)
#[test]
fn later_waves_are_tried_again(rt: HostRuntime) {
    let done = "0 kept 1\nstored p 2\nstored q 2\ndone 2 2 4\n";
    let stored = "p whole\n1\n2\nq whole\n1\n2\n";
    for (numbers, waves) in [
        ([0, 0, 0, 0], "wave 1-0-0\nwave 1-0-0\nwave 1-0-0 1-0-0\n"),
        ([2, 3, 4, 0], "wave 1-0-0\nwave 4-3-3\nwave 1-0-0 1-0-0\n"),
        ([1, 3, 5, 7], "wave 2-1-1\nwave 2-1-1\nwave 2-1-1 2-1-1\n"),
        ([3, 4, 5, 0], "wave 1-0-0\nwave 1-0-0\nwave 4-3-3 1-0-0\n"),
        ([3, 4, 5, 6], "wave 1-0-0\nwave 1-0-0\nwave 4-3-3 2-1-1\n"),
    ] {
        check_limit(&rt, rt.alloc(), numbers, (done, waves, stored));
    }
}

/// The failed wave is the last that is told, and nothing is made.
#[test]
fn later_waves_are_given_up(rt: HostRuntime) {
    for (numbers, head, waves) in [
        (
            [2, 3, 4, 5],
            "7 kept 0\npig: wave 1 task 0 failed 4 times\n",
            "wave 1-0-0\nwave 4-4-none\n",
        ),
        (
            [3, 4, 5, 7],
            "7 kept 0\npig: wave 2 task 0 failed 4 times\n",
            "wave 1-0-0\nwave 1-0-0\nwave 4-4-none 1-0-0\n",
        ),
    ] {
        check_limit(&rt, rt.alloc(), numbers, (head, waves, NOTHING));
    }
}
