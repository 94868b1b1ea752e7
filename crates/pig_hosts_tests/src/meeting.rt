// What only the workers' own work can do: workers are beside each other, and the parts come out of
// what their hosts read.
use crate::numbered::Numbered;
use pig_setting_tests::{Scene, Show, depot_of, told_on_silent};
use pig_silent_tests::{Held, Silent, make_meeting};
use std::alloc::Global;
use std::process::Abort;
use std::thread::Threads;

const LINE_ENDS: &str = "1\t2\r\n\n3\t4";

/// A script that stores its input.
const SCRIPT: &str = "a = LOAD 'a' AS (x:int, y:int); STORE a INTO 'p';";

/// What a scene leaves of two hosts that meet.
fn of_meeting<R: Threads + Sync + Abort>(rt: &R, alloc: Global, turns: u32) -> String {
    let scene = Scene {
        line: "run s --workers 2 --attempts 2",
        ..Scene::new(SCRIPT, LINE_ENDS)
    };
    let mut depot = depot_of(alloc, &scene).expect(rt, "memory");
    let mut hosts = make_meeting(alloc, LINE_ENDS.as_bytes(), turns).expect(rt, "memory");
    let told = told_on_silent(rt, alloc, &scene, &mut depot, &mut hosts);
    drop((depot, hosts));
    told.expect(rt, "memory")
}

/// Each host begins only where the other has begun: workers that follow each other would fail twice
/// at the one task.
#[test]
fn workers_are_beside_each_other(rt: HostRuntime) {
    let got = of_meeting(&rt, rt.alloc(), 200_000_000);
    let want = "0 kept 0\nstored p 3\ndone 3 0 3\np whole\n\t\n1\t2\n3\t4\nq none\n";
    assert_eq!(rt; got.as_str(), want);
}

/// What is stored, part by part, of an input that such a host reads otherwise.
fn of_numbered<R: Threads + Sync + Abort>(
    rt: &R,
    alloc: Global,
    line: &str,
    script: &str,
    a: &str,
) -> String {
    let scene = Scene {
        line,
        show: Show::Parts,
        ..Scene::new(script, a)
    };
    let mut depot = depot_of(alloc, &scene).expect(rt, "memory");
    let mut hosts = Vec::new(alloc);
    hosts.push(Numbered::new(a.as_bytes())).expect(rt, "memory");
    let told = told_on_silent(rt, alloc, &scene, &mut depot, &mut hosts);
    drop((depot, hosts));
    told.expect(rt, "memory")
}

/// In what the task numbered k reads, each `0` is a `k`.
#[test]
fn parts_are_what_their_tasks_read(rt: HostRuntime) {
    let alloc = rt.alloc();
    let script = "a = LOAD 'a' AS (x:int); STORE a INTO 'p';";
    let got = of_numbered(&rt, alloc, "run s --split 2", script, "0\n0\n");
    let want = "0 kept 0\nstored p 2\ndone 2 0 2\np whole\n-- 0\n0\n-- 1\n1\nq none\n";
    assert_eq!(rt; got.as_str(), want);
    let script = "a = LOAD 'a' AS (x:int); o = ORDER a BY x DESC; STORE o INTO 'p';";
    let line = "run s --split 4 --reducers 2";
    let got = of_numbered(&rt, alloc, line, script, "50\n40\n30\n0\n");
    // Lines begin at 0, 3, 6 and 9: the tasks 0, 0, 1 and 2 read 50, 40, 31 and 2.
    let want = "0 kept 0\nstored p 4\ndone 4 4 4\np whole\n-- 0\n50\n40\n-- 1\n31\n2\nq none\n";
    assert_eq!(rt; got.as_str(), want);
}

/// What is left of an input on two hosts that tell nothing, and have those bytes.
fn of_silent<R: Threads + Sync + Abort>(
    rt: &R,
    alloc: Global,
    line: &str,
    script: &str,
    a: &str,
    held: &str,
) -> String {
    let scene = Scene {
        line,
        show: Show::Lists,
        ..Scene::new(script, a)
    };
    let mut depot = depot_of(alloc, &scene).expect(rt, "memory");
    let held = Held::Piece(held.as_bytes());
    let mut hosts = Vec::new(alloc);
    hosts.push(Silent::new(held, &[])).expect(rt, "memory");
    hosts.push(Silent::new(held, &[])).expect(rt, "memory");
    let told = told_on_silent(rt, alloc, &scene, &mut depot, &mut hosts);
    drop((depot, hosts));
    told.expect(rt, "memory")
}

/// Hosts that tell nothing serve as others do.
#[test]
fn silent_hosts_serve(rt: HostRuntime) {
    let script = "a = LOAD 'a' AS (k:int, v:chararray); o = ORDER a BY k DESC; STORE o INTO 'p';";
    let input = "2\ta\n\tb\n3\tc\n2\tA\n";
    let want = "0 kept 0\nstored p 4\ndone 4 4 4\np whole\n3\tc\n2\tA\n2\ta\n\tb\nq none\n";
    for line in ["run s", "run s --split 5 --workers 1", "run s --split 1"] {
        let got = of_silent(&rt, rt.alloc(), line, script, input, input);
        assert_eq!(rt; got.as_str(), want, "at {line}");
    }
}

/// A host whose bytes end early: each attempt is lost, and nothing is made.
#[test]
fn short_pieces_are_lost(rt: HostRuntime) {
    let got = of_silent(
        &rt,
        rt.alloc(),
        "run s --workers 1",
        SCRIPT,
        LINE_ENDS,
        "1\t2\r\n",
    );
    let want = "7 kept 0\npig: wave 0 task 0 failed 4 times\np none\nq none\n";
    assert_eq!(rt; got.as_str(), want);
}
