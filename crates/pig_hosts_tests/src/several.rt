// Several hosts, of which some fail. Which worker makes which attempt isn't promised, so only what
// is sure of it is asked.
use pig_outside::{MemoryHost, Method};
use pig_setting_tests::{Fault, Scene, depot_of, hosts_of, told, told_on};
use std::alloc::Global;
use std::process::Abort;
use std::thread::Threads;

const SCRIPT: &str = "a = LOAD 'a' AS (x:int, y:int); STORE a INTO 'p';";

const INPUT: &str = "1\t2\r\n\n3\t4";

const DONE: &str = "0 kept 0\nstored p 3\ndone 3 0 3\np whole\n\t\n1\t2\n3\t4\nq none\n";

/// How a run on two hosts ended, of which that one always fails, and how often that one began an
/// attempt.
fn with_broken<R: Threads + Sync + Abort>(
    rt: &R,
    alloc: Global,
    line: &str,
    place: usize,
) -> (String, u64) {
    let scene = Scene {
        line,
        others: 1,
        broken: if place == 0 { &[1] } else { &[0, 1] },
        ..Scene::new(SCRIPT, INPUT)
    };
    let mut depot = depot_of(alloc, &scene).expect(rt, "memory");
    let mut hosts = hosts_of(alloc, &scene).expect(rt, "memory");
    let told = told_on(rt, alloc, &scene, &mut depot, &mut hosts);
    let begun = begun(&hosts, place);
    drop((depot, hosts));
    (told.expect(rt, "memory"), begun)
}

/// How often a host began an attempt.
fn begun(hosts: &[MemoryHost], place: usize) -> u64 {
    match hosts.get(place) {
        Some(host) => host.begun(),
        None => 0,
    }
}

/// A run on two hosts, of which that one always fails, is done, and that one began at most thrice.
fn check_aside<R: Threads + Sync + Abort>(rt: &R, alloc: Global, line: &str, place: usize) {
    let (got, begun) = with_broken(rt, alloc, line, place);
    assert_eq!(rt; got.as_str(), DONE, "at {line}, {place}");
    assert!(rt; begun <= 3, "at {line}, {place}");
}

/// A host that failed three times in a row is put aside, and the other one does what is left.
#[test]
fn a_broken_host_is_put_aside(rt: HostRuntime) {
    for line in [
        "run s",
        "run s --split 2",
        "run s --split 1",
        "run s --attempts 5 --split 7",
    ] {
        check_aside(&rt, rt.alloc(), line, 0);
        check_aside(&rt, rt.alloc(), line, 1);
    }
}

/// With one worker the second host is not asked, and the first one is asked alone.
#[test]
fn only_the_first_hosts_work(rt: HostRuntime) {
    let alloc = rt.alloc();
    let (got, begun) = with_broken(&rt, alloc, "run s --workers 1", 1);
    assert_eq!(rt; got.as_str(), DONE);
    assert_eq!(rt; begun, 0);
    let (got, begun) = with_broken(&rt, alloc, "run s --workers 1", 0);
    assert_eq!(rt;
        got.as_str(),
        "7 kept 0\npig: wave 0 task 0 failed 4 times\np none\nq none\n"
    );
    assert_eq!(rt; begun, 4);
}

/// A run on several hosts, of which these calls fail, is to be done.
fn check_split<R: Threads + Sync + Abort>(
    rt: &R,
    alloc: Global,
    options: &str,
    others: u8,
    hosts: &[&[Fault]],
) {
    let line = format!(in alloc; "run s {options}").expect(rt, "memory");
    let scene = Scene {
        line: line.as_str(),
        others,
        hosts,
        ..Scene::new(SCRIPT, INPUT)
    };
    let got = told(rt, alloc, &scene).expect(rt, "memory");
    assert_eq!(rt; got.as_str(), DONE, "at {line}");
}

/// So it is whatever the splits are.
fn check_done<R: Threads + Sync + Abort>(
    rt: &R,
    alloc: Global,
    options: &str,
    others: u8,
    hosts: &[&[Fault]],
) {
    for split in [1, 3, 100] {
        let more = format!(in alloc; "{options} --split {split}").expect(rt, "memory");
        check_split(rt, alloc, more.as_str(), others, hosts);
    }
}

/// Fewer failures over all hosts than the limit end no run.
#[test]
fn few_failures_end_no_run(rt: HostRuntime) {
    let alloc = rt.alloc();
    let once: &[Fault] = &[(Method::Begin, 1)];
    let twice: &[Fault] = &[(Method::Begin, 1), (Method::Read, 1)];
    check_done(&rt, alloc, "--workers 2", 1, &[&[], twice]);
    check_done(&rt, alloc, "--attempts 5", 3, &[once, once, once, once]);
    check_done(&rt, alloc, "--attempts 7", 2, &[twice, twice, twice]);
}

/// Whether a run ended at its one task, and nothing was made.
fn is_lost(told: &str) -> bool {
    told.starts_with("7 kept 0\npig: wave 0 task 0 failed ")
        && told.ends_with(" times\np none\nq none\n")
}

/// Where all hosts always fail, the one task is given up, and nothing is made.
#[test]
fn broken_hosts_end_a_run(rt: HostRuntime) {
    let scene = Scene {
        line: "run s --workers 3",
        others: 2,
        broken: &[1, 1, 1],
        ..Scene::new(SCRIPT, INPUT)
    };
    let got = told(&rt, rt.alloc(), &scene).expect(&rt, "memory");
    assert!(rt; is_lost(got.as_str()), "{got}");
}
