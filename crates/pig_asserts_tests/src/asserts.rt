// Scripts with ASSERTs, over memory.
use pig_outside::Method;
use pig_setting_tests::{Fault, Scene, Show, told};
use std::alloc::Global;
use std::process::Abort;
use std::thread::Threads;

/// What is left of a script over an input, with these words, on two hosts.
fn of<R: Threads + Sync + Abort>(
    rt: &R,
    alloc: Global,
    line: &str,
    script: &str,
    a: &str,
) -> String {
    let scene = Scene {
        line,
        others: 1,
        show: Show::Lists,
        ..Scene::new(script, a)
    };
    told(rt, alloc, &scene).expect(rt, "memory")
}

/// The words, which make no difference.
const LINES: [&str; 4] = [
    "run s",
    "run s --workers 1 --reducers 1",
    "run s --workers 2 --reducers 3 --split 1",
    "run s --split 3 --attempts 1",
];

/// Whether a script over an input answers and leaves this.
fn is_told<R: Threads + Sync + Abort>(
    rt: &R,
    alloc: Global,
    script: &str,
    a: &str,
    want: &str,
) -> bool {
    for line in LINES {
        let got = of(rt, alloc, line, script, a);
        if got.as_str() != want {
            return false;
        }
    }
    true
}

const POSITIVE: &str = "a = LOAD 'a' AS (x:int); ASSERT a BY x > 0, 'positive'; STORE a INTO 'p';";

/// A null condition meets no ASSERT. Its message is told, and nothing is made.
#[test]
fn a_message_is_told(rt: HostRuntime) {
    let alloc = rt.alloc();
    let want = "8 kept 0\npig: statement 2: assert failed: positive\np none\nq none\n";
    assert!(rt; is_told(&rt, alloc, POSITIVE, "1\n2\n\n", want));
    assert!(rt; is_told(&rt, alloc, POSITIVE, "\n", want));
    assert!(rt; is_told(&rt, alloc, POSITIVE, "1\n0\n", want));
    let script = "a = LOAD 'a' AS (x:int); ASSERT a BY x > 0; STORE a INTO 'p';";
    let want = "8 kept 0\npig: statement 2: assert failed\np none\nq none\n";
    assert!(rt; is_told(&rt, alloc, script, "1\n2\n\n", want));
    let script = "a = LOAD 'a' AS (x:int); ASSERT a BY x > 0, 'größer: 0?'; STORE a INTO 'p';";
    let want = "8 kept 0\npig: statement 2: assert failed: größer: 0?\np none\nq none\n";
    assert!(rt; is_told(&rt, alloc, script, "-1\n", want));
}

/// Where each row meets it, the relation is as before.
#[test]
fn what_is_met_stays(rt: HostRuntime) {
    let alloc = rt.alloc();
    let want = "0 kept 0\nstored p 2\ndone 2 0 2\np whole\n1\n2\nq none\n";
    assert!(rt; is_told(&rt, alloc, POSITIVE, "1\n2\n", want));
    let want = "0 kept 0\nstored p 0\ndone 0 0 0\np whole\nq none\n";
    assert!(rt; is_told(&rt, alloc, POSITIVE, "", want));
    let script = "a = LOAD 'a' AS (x:int); ASSERT a BY x > 0; f = FILTER a BY x > 1;
        ASSERT f BY x > 1; STORE f INTO 'p'; STORE a INTO 'q';";
    let want = "0 kept 0\nstored p 1\nstored q 2\ndone 4 0 3\np whole\n2\nq whole\n1\n2\n";
    assert!(rt; is_told(&rt, alloc, script, "1\n2\n", want));
}

/// An ASSERT that no STORE reaches is not asked: one on another relation, one behind the STORE, one
/// of a script without a STORE.
#[test]
fn dead_ones_are_not_asked(rt: HostRuntime) {
    let alloc = rt.alloc();
    let want = "0 kept 0\nstored p 2\ndone 2 0 2\np whole\n1\n2\nq none\n";
    let script = "a = LOAD 'a' AS (x:int); b = FILTER a BY x > 0; ASSERT b BY x > 1, 'never asked';
        STORE a INTO 'p';";
    assert!(rt; is_told(&rt, alloc, script, "1\n2\n", want));
    let script = "a = LOAD 'a' AS (x:int); STORE a INTO 'p'; ASSERT a BY x > 1, 'never asked';";
    assert!(rt; is_told(&rt, alloc, script, "1\n2\n", want));
    let script = "a = LOAD 'a' AS (x:int); ASSERT a BY x > 1, 'never asked';";
    let want = "0 kept 0\ndone 0 0 0\np none\nq none\n";
    assert!(rt; is_told(&rt, alloc, script, "1\n2\n", want));
}

/// The first ASSERT by its statement is named, in whichever order the STOREs stand.
#[test]
fn the_first_is_named(rt: HostRuntime) {
    let alloc = rt.alloc();
    let script = "a = LOAD 'a' AS (x:int); ASSERT a BY x > 0, 'first'; ASSERT a BY x > 1, 'second';
        STORE a INTO 'p';";
    let want = "8 kept 0\npig: statement 2: assert failed: first\np none\nq none\n";
    assert!(rt; is_told(&rt, alloc, script, "1\n0\n", want));
    let want = "8 kept 0\npig: statement 3: assert failed: second\np none\nq none\n";
    assert!(rt; is_told(&rt, alloc, script, "2\n1\n", want));
    let script = "a = LOAD 'a' AS (x:int); b = FILTER a BY x > 0; c = FILTER a BY x > 0;
        ASSERT b BY x > 9, 'b'; ASSERT c BY x > 9; STORE c INTO 'p'; STORE b INTO 'q';";
    let want = "8 kept 0\npig: statement 4: assert failed: b\np none\nq none\n";
    assert!(rt; is_told(&rt, alloc, script, "1\n2\n", want));
    let script = "a = LOAD 'a' AS (x:int); b = FILTER a BY x > 0; g = GROUP b BY x;
        ASSERT b BY x > 9, 'dead'; ASSERT g BY COUNT(b) < 2; STORE g INTO 'p';";
    let want = "8 kept 0\npig: statement 5: assert failed\np none\nq none\n";
    assert!(rt; is_told(&rt, alloc, script, "1\n1\n", want));
}

/// An ordered relation stays one behind an ASSERT: the LIMIT gives its first row, and is no bare
/// one. Its ORDER hands on two rows, and its own tasks one for each partition that has rows, of
/// which there are two.
#[test]
fn an_order_stays_one(rt: HostRuntime) {
    let alloc = rt.alloc();
    let script = "a = LOAD 'a' AS (x:int); o = ORDER a BY x; ASSERT o BY x IS NOT NULL;
        l = LIMIT o 1; STORE l INTO 'p';";
    let want = "0 kept 0\nstored p 1\ndone 2 4 1\np whole\n1\nq none\n";
    let got = of(&rt, alloc, "run s", script, "2\n1\n");
    assert_eq!(rt; got.as_str(), want);
    let got = of(&rt, alloc, "run s --split 2", script, "2\n1\n");
    assert_eq!(rt; got.as_str(), want);
    let want = "8 kept 0\npig: statement 3: assert failed\np none\nq none\n";
    assert!(rt; is_told(&rt, alloc, script, "2\n\n1\n", want));
    let script = "a = LOAD 'a' AS (x:int); o = ORDER a BY x DESC; ASSERT o BY x > 1, 'more';
        STORE o INTO 'p';";
    let want = "0 kept 0\nstored p 3\ndone 3 3 3\np whole\n4\n3\n2\nq none\n";
    assert!(rt; is_told(&rt, alloc, script, "3\n2\n4\n", want));
    let want = "8 kept 0\npig: statement 3: assert failed: more\np none\nq none\n";
    assert!(rt; is_told(&rt, alloc, script, "3\n1\n4\n", want));
}

/// It is asked of rows that a LIMIT does not hand on too, where it stands below it; and only of
/// those that are kept where it stands above. What is kept is told though nothing is made.
#[test]
fn limits_stand_above_or_below(rt: HostRuntime) {
    let alloc = rt.alloc();
    let below = "a = LOAD 'a' AS (x:int); ASSERT a BY x > 1; l = LIMIT a 0; STORE l INTO 'p';";
    let want = "8 kept 1\npig: statement 2: assert failed\np none\nq none\n";
    assert!(rt; is_told(&rt, alloc, below, "2\n1\n", want));
    let want = "0 kept 1\nstored p 0\ndone 2 0 0\np whole\nq none\n";
    assert!(rt; is_told(&rt, alloc, below, "2\n3\n", want));
    let above = "a = LOAD 'a' AS (x:int); l = LIMIT a 0; ASSERT l BY x > 1; STORE l INTO 'p';";
    assert!(rt; is_told(&rt, alloc, above, "2\n1\n", want));
    let above = "a = LOAD 'a' AS (x:int); l = LIMIT a 9; ASSERT l BY x > 1; STORE l INTO 'p';";
    let want = "8 kept 1\npig: statement 3: assert failed\np none\nq none\n";
    assert!(rt; is_told(&rt, alloc, above, "2\n1\n", want));
}

/// What is answered where these calls of the depot or the console fail, with the ends of the waves.
fn of_failing<R: Threads + Sync + Abort>(
    rt: &R,
    alloc: Global,
    a: &str,
    faults: &[Fault],
) -> String {
    let scene = Scene {
        faults,
        waves: true,
        ..Scene::new(POSITIVE, a)
    };
    told(rt, alloc, &scene).expect(rt, "memory")
}

/// All waves ended well before it is asked, and no directory is begun. A console that fails changes
/// no answer.
#[test]
fn it_comes_before_the_outputs(rt: HostRuntime) {
    let alloc = rt.alloc();
    let want = "8 kept 0\npig: statement 2: assert failed: positive\nwave 1-0-0\np none\nq none\n";
    let got = of_failing(&rt, alloc, "0\n", &[(Method::Create, 1)]);
    assert_eq!(rt; got.as_str(), want);
    let got = of_failing(&rt, alloc, "0\n", &[(Method::Write, 1)]);
    assert_eq!(rt; got.as_str(), "8 kept 0\nwave 1-0-0\np none\nq none\n");
    let want = "6 kept 0\npig: storage failed at statement 3\nwave 1-0-0\np none\nq none\n";
    let got = of_failing(&rt, alloc, "1\n", &[(Method::Create, 1)]);
    assert_eq!(rt; got.as_str(), want);
    let got = of_failing(&rt, alloc, "0\n", &[(Method::Exists, 1)]);
    assert_eq!(rt;
        got.as_str(),
        "6 kept 0\npig: storage failed\np none\nq none\n"
    );
}

/// It takes a relation that is known, and a condition.
#[test]
fn it_is_checked(rt: HostRuntime) {
    let alloc = rt.alloc();
    for (script, kind) in [
        (
            "a = LOAD 'a' AS (x:int); ASSERT b BY x > 0;",
            "UnknownAlias",
        ),
        (
            "a = LOAD 'a' AS (x:int); ASSERT a BY y > 0;",
            "UnknownField",
        ),
        (
            "a = LOAD 'a' AS (x:int); ASSERT a BY x + 1;",
            "TypeMismatch",
        ),
    ] {
        let want = format!(in alloc; "3 kept 0\npig: statement 2: {kind}\np none\nq none\n");
        let want = want.expect(&rt, "memory");
        let got = of(&rt, alloc, "run s", script, "1\n");
        assert_eq!(rt; got.as_str(), want.as_str());
    }
}
