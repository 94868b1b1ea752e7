// The verb `demo`, beside a depot and hosts that it does not call.
use pig_outside::Method;
use pig_setting_tests::{Fault, Scene, told};
use std::alloc::Global;
use std::process::Abort;
use std::thread::Threads;

/// Each method of a depot fails at its first call.
const BROKEN: [Fault; 6] = [
    (Method::Script, 1),
    (Method::Pieces, 1),
    (Method::Exists, 1),
    (Method::Create, 1),
    (Method::Put, 1),
    (Method::Finish, 1),
];

/// What is left of a command line on four hosts, which fail at each call.
fn of<R: Threads + Sync + Abort>(
    rt: &R,
    alloc: Global,
    line: &str,
    faults: &[Fault],
    waves: bool,
) -> String {
    let scene = Scene {
        line,
        others: 3,
        broken: &[1, 1, 1, 1],
        faults,
        waves,
        ..Scene::new("", "")
    };
    told(rt, alloc, &scene).expect(rt, "memory")
}

/// Whether a command line is answered so.
fn is_told<R: Threads + Sync + Abort>(rt: &R, alloc: Global, line: &str, want: &str) -> bool {
    let got = of(rt, alloc, line, &BROKEN, false);
    got.as_str() == want
}

/// The first of these command lines that is answered otherwise; nothing where there is none.
fn first_wrong<'t, R: Threads + Sync + Abort>(
    rt: &R,
    alloc: Global,
    lines: &'t str,
    want: &str,
) -> &'t str {
    for line in lines.lines() {
        if !is_told(rt, alloc, line, want) {
            return line;
        }
    }
    ""
}

/// Four visits are by four users, so that each of the three map waves hands on four entries, whatever
/// the options say.
#[test]
fn a_few_visits(rt: HostRuntime) {
    let alloc = rt.alloc();
    let want = "0 kept 0\nu0\t1\t0\ndone 1 3 1\np none\nq none\n";
    assert_eq!(rt; first_wrong(&rt, alloc, "demo 1\ndemo -- 1", want), "");
    let lines = "\
demo 4
demo 000000004
demo --workers 1 4
demo 4 --workers=2 --reducers 1
demo 4 --split 1
demo --split=9 4 --attempts 1";
    let want = "0 kept 0\nu0\t1\t0\nu10\t1\t3\nu37\t1\t1\nu74\t1\t2\ndone 4 12 4\np none\nq none\n";
    assert_eq!(rt; first_wrong(&rt, alloc, lines, want), "");
}

/// The visits 0 and 101 are by one user. A map task folds its own rows: one task hands on 101 entries,
/// tasks of a line each 102. The one task that sorts has 101 rows, and the one of the LIMIT hands on 10.
#[test]
fn a_user_twice(rt: HostRuntime) {
    let alloc = rt.alloc();
    let rows = "u0\t2\t101\nu1\t1\t71\nu10\t1\t3\nu100\t1\t30\nu11\t1\t74\nu12\t1\t44\nu13\t1\t14\n\
u14\t1\t85\nu15\t1\t55\nu16\t1\t25\n";
    let want = format!(in alloc; "0 kept 0\n{rows}done 102 212 10\np none\nq none\n").expect(
        &rt, "memory",
    );
    assert!(rt; is_told(&rt, alloc, "demo 102 --reducers 1", &want));
    let want = format!(in alloc; "0 kept 0\n{rows}done 102 213 10\np none\nq none\n").expect(
        &rt, "memory",
    );
    assert!(rt; is_told(&rt, alloc, "demo 102 --reducers 1 --split 1", &want));
}

/// Each of the three nodes that need rows together has a wave of map tasks and one of reduce tasks, and
/// the last wave stores.
#[test]
fn its_own_waves(rt: HostRuntime) {
    let want = "0 kept 0\nu0\t1\t0\ndone 1 3 1\nwave 1-0-0\nwave 1-0-0\nwave 1-0-0\nwave 1-0-0\n\
wave 1-0-0\nwave 1-0-0\nwave 1-0-0\np none\nq none\n";
    let line = "demo 1 --workers 1 --reducers 1";
    let got = of(&rt, rt.alloc(), line, &BROKEN, true);
    assert_eq!(rt; got.as_str(), want);
}

/// A line of the input has at least 8 bytes, so that 9,000 lines have more than 65,536.
#[test]
fn refused_demos(rt: HostRuntime) {
    let alloc = rt.alloc();
    let want = "11 kept 0\npig: too large: tasks\np none\nq none\n";
    assert!(rt; is_told(&rt, alloc, "demo 9000 --split 1", want));
    let lines = "\
demo
demo 0
demo 100001
demo 4 5
demo s
demo 0000000004
demo 4 --workers 5
demo 4 --split 0";
    let want =
        "1 kept 0\nusage: pig run|explain|check SCRIPT | demo N [--workers N] [--reducers N] \
[--split BYTES] [--attempts N]\np none\nq none\n";
    assert_eq!(rt; first_wrong(&rt, alloc, lines, want), "");
}

/// Only the console is called, and may fail.
#[test]
fn a_console_that_fails(rt: HostRuntime) {
    let got = of(&rt, rt.alloc(), "demo 4", &[(Method::Write, 1)], false);
    assert_eq!(rt; got.as_str(), "10 kept 0\np none\nq none\n");
}
