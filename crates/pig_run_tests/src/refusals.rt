// What is refused, in which order, and the limits.
use pig_outside::Depot;
use pig_setting_tests::{Scene, depot_of, hosts_of, told, told_on};
use std::alloc::Global;
use std::process::Abort;
use std::thread::Threads;

const RUN: &str = "run s";

/// The words are to answer and to leave this of a script over an input.
fn check<R: Threads + Sync + Abort>(
    rt: &R,
    alloc: Global,
    line: &str,
    script: &str,
    a: &str,
    want: &str,
) {
    let scene = Scene {
        line,
        ..Scene::new(script, a)
    };
    let got = told(rt, alloc, &scene).expect(rt, "memory");
    assert_eq!(rt; got.as_str(), want, "at {line}");
}

/// The same where `q` is there already, empty and unmarked.
fn check_beside_output<R: Threads + Sync + Abort>(
    rt: &R,
    alloc: Global,
    line: &str,
    script: &str,
    a: &str,
    want: &str,
) {
    let scene = Scene {
        line,
        ..Scene::new(script, a)
    };
    let mut depot = depot_of(alloc, &scene).expect(rt, "memory");
    let mut hosts = hosts_of(alloc, &scene).expect(rt, "memory");
    depot.create("q").expect(rt, "memory");
    let told = told_on(rt, alloc, &scene, &mut depot, &mut hosts);
    drop((depot, hosts));
    let got = told.expect(rt, "memory");
    assert_eq!(rt; got.as_str(), want, "at {script}");
}

/// So many statements that are nothing, of so many bytes in all.
fn empty_statements<R: Abort>(rt: &R, alloc: Global, count: usize, bytes: usize) -> String {
    let mut script = String::new(alloc);
    for _ in 0..count {
        script.push_str(";").expect(rt, "memory");
    }
    for _ in count..bytes {
        script.push_str(" ").expect(rt, "memory");
    }
    script
}

/// The limits on a script: the last size that is taken, and one more.
#[test]
fn limits_are_where_they_are(rt: HostRuntime) {
    let alloc = rt.alloc();
    let done = "0 kept 0\ndone 0 0 0\np none\nq none\n";
    for (count, bytes, want) in [
        (4096, 4096, done),
        (
            4097,
            4097,
            "11 kept 0\npig: too large: statements\np none\nq none\n",
        ),
        (1, 1_048_576, done),
        (
            1,
            1_048_577,
            "11 kept 0\npig: too large: script\np none\nq none\n",
        ),
    ] {
        let script = empty_statements(&rt, alloc, count, bytes);
        check(&rt, alloc, RUN, script.as_str(), "", want);
    }
    let script = nested(&rt, alloc, 64);
    let want = "0 kept 0\nstored p 1\ndone 1 0 1\np whole\n2\nq none\n";
    check(&rt, alloc, RUN, script.as_str(), "2\n", want);
}

/// A script with a condition in so many parentheses.
fn nested<R: Abort>(rt: &R, alloc: Global, depth: usize) -> String {
    let mut script = String::from_str(alloc, "a = LOAD 'a' AS (x:int); b = FILTER a BY ").expect(
        rt, "memory",
    );
    for _ in 0..depth {
        script.push_str("(").expect(rt, "memory");
    }
    script.push_str("x > 1").expect(rt, "memory");
    for _ in 0..depth {
        script.push_str(")").expect(rt, "memory");
    }
    script.push_str("; STORE b INTO 'p';").expect(rt, "memory");
    script
}

/// A script is to be refused so.
fn check_refusal<R: Threads + Sync + Abort>(rt: &R, alloc: Global, script: &str, text: &str) {
    let want = format!(in alloc; "3 kept 0\npig: {text}\np none\nq none\n").expect(rt, "memory");
    check(rt, alloc, RUN, script, "", want.as_str());
}

#[test]
fn scripts_are_refused_in_order(rt: HostRuntime) {
    let alloc = rt.alloc();
    for (script, text) in [
        ("x = FILTER nope BY @;", "offset 19: no token"),
        ("a = LOAD 'a' AS (x:int); x = ;", "statement 2: syntax"),
        (
            "x = FILTER nope BY $0 == 1; y = LOAD 'no' AS (a:int); STORE y INTO 'p';",
            "statement 1: UnknownAlias",
        ),
        ("y = LOAD 'i' AS (a:float);", "statement 1: FloatType"),
        ("y = LOAD 'i.gz' AS (a:int);", "statement 1: Compressed"),
    ] {
        check_refusal(&rt, alloc, script, text);
    }
    let deep = nested(&rt, alloc, 65);
    let want = "11 kept 0\npig: too large: depth\np none\nq none\n";
    check(&rt, alloc, RUN, deep.as_str(), "", want);
}

const BARE_LIMIT: &str = "a = LOAD 'a' AS (x:int);
l = LIMIT a 2;
STORE l INTO 'p';
STORE l INTO 'q';";

const USAGE: &str = "1 kept 0\nusage: pig run|explain|check SCRIPT | demo N [--workers N] \
    [--reducers N] [--split BYTES] [--attempts N]\np none\nq none\n";

#[test]
fn words_are_refused(rt: HostRuntime) {
    let alloc = rt.alloc();
    for line in ["demo 0", "explain", "run s --workers 2", "run s --split 0"] {
        check(&rt, alloc, line, BARE_LIMIT, "", USAGE);
    }
    let want = "2 kept 0\npig: no script\np none\nq none\n";
    check(&rt, alloc, "run t", BARE_LIMIT, "", want);
    check(&rt, alloc, "check t", BARE_LIMIT, "", want);
    check(&rt, alloc, "explain t", BARE_LIMIT, "", want);
    let want = "0 kept 0\nok 4\np none\nq none\n";
    check(&rt, alloc, "check s", BARE_LIMIT, "", want);
}

/// Neither inputs nor outputs are looked for.
#[test]
fn a_plan_is_explained(rt: HostRuntime) {
    let script = "a = LOAD 'no' AS (k:int, v:int); b = LOAD 'b' AS (k:int, w:int);
        j = JOIN a BY k LEFT, b BY k; f = FILTER j BY v > 1 AND w > 2; STORE f INTO 'q';";
    let plan = "0 LOAD 'no' 09 0:int 1:int\n1 LOAD 'b' 09 0:int 1:int\n\
        2 JOIN 0 BY $0 LEFT; 1 BY $0\n3 FILTER 2 (($1 > 1) AND ($3 > 2))\n4 STORE 3 'q' 09\n";
    let cut = "0 LOAD 'no' 09 0:int 1:int\n1 FILTER 0 ($1 > 1)\n2 LOAD 'b' 09 0:int 1:int\n\
        3 JOIN 1 BY $0 LEFT; 2 BY $0\n4 FILTER 3 ($3 > 2)\n5 STORE 4 'q' 09\n";
    let alloc = rt.alloc();
    let want = format!(in alloc;
        "0 kept 0\nchecked\n{plan}rewritten\n{cut}waves\n0 map 3\n1 reduce 3\n2 store\n\
        p none\nq open\n"
    );
    let want = want.expect(&rt, "memory");
    for line in ["explain s", "explain s --split 1 --workers 1"] {
        check_beside_output(&rt, alloc, line, script, "", want.as_str());
    }
}

#[test]
fn inputs_and_outputs_are_refused(rt: HostRuntime) {
    let alloc = rt.alloc();
    let missing = "y = LOAD 'no' AS (a:int); STORE y INTO 'q';";
    let want = "4 kept 0\npig: no input no\np none\nq none\n";
    check(&rt, alloc, RUN, missing, "", want);
    let want = "4 kept 0\npig: no input no\np none\nq open\n";
    check_beside_output(&rt, alloc, RUN, missing, "", want);
    let want = "5 kept 0\npig: output exists q\np none\nq open\n";
    check_beside_output(&rt, alloc, RUN, BARE_LIMIT, "1\n", want);
}
