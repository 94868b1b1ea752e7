// Parameters of scripts: what is given, declared and missing.
use pig_setting_tests::{Scene, told};
use std::alloc::Global;
use std::process::Abort;
use std::thread::Threads;

const INPUT: &str = "1\n2\n3\n";

/// The words are to answer and to leave this of a script over the input.
fn check<R: Threads + Sync + Abort>(rt: &R, alloc: Global, line: &str, script: &str, want: &str) {
    let scene = Scene {
        line,
        ..Scene::new(script, INPUT)
    };
    let got = told(rt, alloc, &scene).expect(rt, "memory");
    assert_eq!(rt; got.as_str(), want, "at {line}");
}

const ABOVE: &str = "%default n 2
%declare d 'p'
a = LOAD 'a' AS (x:int);
f = FILTER a BY x > $n;
STORE f INTO '${d}';
";

const ONE: &str = "0 kept 0\nstored p 1\ndone 3 0 1\np whole\n3\nq none\n";

const TWO: &str = "0 kept 0\nstored p 2\ndone 3 0 2\np whole\n2\n3\nq none\n";

#[test]
fn values_are_put_in(rt: HostRuntime) {
    let alloc = rt.alloc();
    for (line, want) in [
        ("run s", ONE),
        ("run s --param n=1", TWO),
        ("run --param=n=1 s", TWO),
        ("run s --param n=2 --param n=1", TWO),
        ("run s --param n=1 --param=n=2", ONE),
        ("run s --param d=q", ONE),
        ("run s --param other=1", ONE),
        ("check s", "0 kept 0\nok 3\np none\nq none\n"),
        ("check s --param n=1;", "0 kept 0\nok 4\np none\nq none\n"),
        (
            "check s --param n=no",
            "3 kept 0\npig: statement 2: UnknownField\np none\nq none\n",
        ),
    ] {
        check(&rt, alloc, line, ABOVE, want);
    }
}

/// Without its default.
const NO_DEFAULT: &str = "%declare d 'p'
a = LOAD 'a' AS (x:int);
f = FILTER a BY x > $n;
STORE f INTO '${d}';
";

/// A script is to be refused so.
fn check_refusal<R: Threads + Sync + Abort>(
    rt: &R,
    alloc: Global,
    line: &str,
    script: &str,
    text: &str,
) {
    let want = format!(in alloc; "3 kept 0\npig: {text}\np none\nq none\n").expect(rt, "memory");
    check(rt, alloc, line, script, want.as_str());
}

#[test]
fn missing_values_are_refused(rt: HostRuntime) {
    let alloc = rt.alloc();
    check(&rt, alloc, "run s --param n=1", NO_DEFAULT, TWO);
    for line in ["run s", "check s", "explain s", "run s --param m=1"] {
        check_refusal(&rt, alloc, line, NO_DEFAULT, "offset 60: parameter");
    }
    for (script, text) in [
        ("@ $n", "offset 2: parameter"),
        ("-- $n\n%default n 1\n", "offset 3: parameter"),
        (";\n \t%DECLARE\tn\n", "offset 4: parameter"),
        ("%declare n 1\n$n @", "offset 3: no token"),
        ("$0 @", "offset 3: no token"),
    ] {
        check_refusal(&rt, alloc, "run s", script, text);
    }
}

#[test]
fn names_are_wrong_words(rt: HostRuntime) {
    let want = "1 kept 0\nusage: pig run|explain|check SCRIPT | demo N [--workers N] \
        [--reducers N] [--split BYTES] [--attempts N]\np none\nq none\n";
    for line in ["run s --param 1=2", "run s --param n", "run s --param"] {
        check(&rt, rt.alloc(), line, ABOVE, want);
    }
}

/// A text so many times, behind another one.
fn repeated<R: Abort>(rt: &R, alloc: Global, first: &str, text: &str, count: usize) -> String {
    let mut all = String::from_str(alloc, first).expect(rt, "memory");
    for _ in 0..count {
        all.push_str(text).expect(rt, "memory");
    }
    all
}

/// The limit on a script holds of it as it is read, before a value can be missing, and with the values in it.
#[test]
fn limits_hold_with_values(rt: HostRuntime) {
    let alloc = rt.alloc();
    let done = "0 kept 0\ndone 0 0 0\np none\nq none\n";
    let large = "11 kept 0\npig: too large: script\np none\nq none\n";
    let line = repeated(&rt, alloc, "run s --param n=", "\n", 1024);
    let script = repeated(&rt, alloc, "", "$n", 1024);
    check(&rt, alloc, line.as_str(), script.as_str(), done);
    let script = repeated(&rt, alloc, ";", "$n", 1024);
    check(&rt, alloc, line.as_str(), script.as_str(), large);
    let script = repeated(&rt, alloc, "$m", " ", 1_048_575);
    check(&rt, alloc, line.as_str(), script.as_str(), large);
    let script = repeated(&rt, alloc, "$n", " ", 1_048_574);
    check(&rt, alloc, "run s --param n=", script.as_str(), done);
}
