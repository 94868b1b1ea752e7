// The calls of a device failing in turn, counted over all its methods.
ghost use Rattle.std.specs.Prelude.{◌≡◌};
ghost use Rattle.pig_outside.specs.Memory.{depot_shelf};

use pig_outside::MemoryDepot;
use pig_setting_tests::{Scene, depot_of, hosts_of, told, told_on};
use std::alloc::Global;
use std::process::Abort;
use std::thread::Threads;

const BARE_LIMIT: &str = "a = LOAD 'a' AS (x:int);
l = LIMIT a 2;
STORE l INTO 'p';
STORE l INTO 'q';";

const INPUT: &str = "1\n2\n";

/// Which calls fail: of the depot the one of a number, or all from one on.
#[derive(Clone, Copy, Debug, Drop)]
enum Turn {
    Once(u64),
    From(u64),
}

fn set(depot: &mut MemoryDepot, turn: Turn)
    ensures { depot_shelf depot.new ≡ depot_shelf depot.old }
{
    match turn {
        Turn::Once(number) => depot.fail_once(number),
        Turn::From(number) => depot.fail_from(number),
    }
}

/// What is left where these calls of the depot fail, on two hosts.
fn of<R: Threads + Sync + Abort>(rt: &R, alloc: Global, turn: Turn) -> String {
    let scene = Scene {
        others: 1,
        ..Scene::new(BARE_LIMIT, INPUT)
    };
    let mut depot = depot_of(alloc, &scene).expect(rt, "memory");
    let mut hosts = hosts_of(alloc, &scene).expect(rt, "memory");
    set(&mut depot, turn);
    let told = told_on(rt, alloc, &scene, &mut depot, &mut hosts);
    drop((depot, hosts));
    told.expect(rt, "memory")
}

/// The answer where a call fails: the first are `script`, `pieces`, and `exists` twice; then each
/// STORE has three.
fn answer(number: u64) -> &'static str {
    match number {
        1 | 2 | 3 | 4 => "6 kept 0\npig: storage failed\np none\nq none\n",
        5 => "6 kept 1\npig: storage failed at statement 3\np none\nq none\n",
        6 => "6 kept 1\npig: storage failed at statement 3\np open\nq none\n",
        7 => "6 kept 1\npig: storage failed at statement 3\np open\n1\n2\nq none\n",
        8 => "6 kept 1\npig: storage failed at statement 4\np whole\n1\n2\nq none\n",
        9 => "6 kept 1\npig: storage failed at statement 4\np whole\n1\n2\nq open\n",
        10 => "6 kept 1\npig: storage failed at statement 4\np whole\n1\n2\nq open\n1\n2\n",
        _ => "0 kept 1\nstored p 2\nstored q 2\ndone 2 2 4\np whole\n1\n2\nq whole\n1\n2\n",
    }
}

/// A run makes no call behind one that failed, so it is all one whether the later ones fail too.
#[test]
fn depots_fail_in_turn(rt: HostRuntime) {
    let alloc = rt.alloc();
    for number in 1..12 {
        for turn in [Turn::Once(number), Turn::From(number)] {
            let got = of(&rt, alloc, turn);
            assert_eq!(rt; got.as_str(), answer(number), "at {turn:?}");
        }
    }
}

/// What is left where the first of some hosts fails from that call on.
fn of_host<R: Threads + Sync + Abort>(rt: &R, alloc: Global, others: u8, number: u64) -> String {
    let broken = [number];
    let scene = Scene {
        others,
        broken: &broken,
        ..Scene::new(BARE_LIMIT, INPUT)
    };
    told(rt, alloc, &scene).expect(rt, "memory")
}

/// One host makes five calls: it begins the task that reads, reads, and begins the three other
/// tasks. Where it fails three times at the first STORE's task it is put aside, and then comes to
/// that of the second one, at which it fails four times.
fn answer_of_host(number: u64) -> &'static str {
    match number {
        1 | 2 => "7 kept 0\npig: wave 0 task 0 failed 4 times\np none\nq none\n",
        3 => "7 kept 0\npig: wave 1 task 0 failed 4 times\np none\nq none\n",
        4 | 5 => "7 kept 0\npig: wave 2 task 1 failed 4 times\np none\nq none\n",
        _ => answer(11),
    }
}

/// A host that breaks at some call ends a run where it is alone, and not where there is another.
#[test]
fn hosts_break_in_turn(rt: HostRuntime) {
    let alloc = rt.alloc();
    for number in 1..7 {
        let got = of_host(&rt, alloc, 0, number);
        assert_eq!(rt; got.as_str(), answer_of_host(number), "at {number}");
    }
    for number in 1..7 {
        let got = of_host(&rt, alloc, 1, number);
        assert_eq!(rt; got.as_str(), answer(11), "at {number}");
    }
}
