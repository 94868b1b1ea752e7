// Each call of each method failing in turn, over two scripts, on two hosts.
use pig_outside::Method;
use pig_setting_tests::{Fault, Scene, Show, told};
use std::alloc::Global;
use std::process::Abort;
use std::thread::Threads;

/// Where that call fails, whichever device's it is, a script is to leave this over an input.
fn check<R: Threads + Sync + Abort>(
    rt: &R,
    alloc: Global,
    (script, a): (&str, &str),
    fault: Fault,
    (head, rest): (&str, &str),
) {
    let want = format!(in alloc; "{head}{rest}").expect(rt, "memory");
    let faults = [fault];
    let hosts: [&[Fault]; 1] = [&faults];
    let scene = Scene {
        line: "run s --workers 2",
        others: 1,
        hosts: &hosts,
        faults: &faults,
        show: Show::Lists,
        ..Scene::new(script, a)
    };
    let got = told(rt, alloc, &scene).expect(rt, "memory");
    let (method, number) = fault;
    assert_eq!(rt; got.as_str(), want.as_str(), "at {method:?} {number}");
}

/// One part for each STORE.
const BARE_LIMIT: &str = "a = LOAD 'a' AS (x:int);
l = LIMIT a 2;
STORE l INTO 'p';
STORE l INTO 'q';";

const LIMITED: (&str, &str) = (BARE_LIMIT, "1\n2\n");

const DONE: &str = "0 kept 1\nstored p 2\nstored q 2\ndone 2 2 4\np whole\n1\n2\nq whole\n1\n2\n";

const LOOK_UP: &str = "6 kept 0\npig: storage failed\np none\nq none\n";

const FIRST: &str = "6 kept 1\npig: storage failed at statement 3\n";

const SECOND: &str = "6 kept 1\npig: storage failed at statement 4\np whole\n1\n2\n";

/// What is left of the calls that look things up, or read, or show the text. A call of a host that
/// fails is made up for.
#[test]
fn look_ups_fail_in_turn(rt: HostRuntime) {
    for (method, number, want) in [
        (Method::Script, 1, LOOK_UP),
        (Method::Script, 2, DONE),
        (Method::Pieces, 1, LOOK_UP),
        (Method::Pieces, 2, DONE),
        (Method::Exists, 1, LOOK_UP),
        (Method::Exists, 2, LOOK_UP),
        (Method::Exists, 3, DONE),
        (Method::Begin, 1, DONE),
        (Method::Begin, 2, DONE),
        (Method::Read, 1, DONE),
        (
            Method::Write,
            1,
            "10 kept 1\np whole\n1\n2\nq whole\n1\n2\n",
        ),
        (Method::Write, 2, DONE),
    ] {
        check(&rt, rt.alloc(), LIMITED, (method, number), (want, ""));
    }
}

/// What is left of the calls that make directories.
#[test]
fn commits_fail_in_turn(rt: HostRuntime) {
    for (method, number, head, rest) in [
        (Method::Create, 1, FIRST, "p none\nq none\n"),
        (Method::Put, 1, FIRST, "p open\nq none\n"),
        (Method::Finish, 1, FIRST, "p open\n1\n2\nq none\n"),
        (Method::Create, 2, SECOND, "q none\n"),
        (Method::Put, 2, SECOND, "q open\n"),
        (Method::Finish, 2, SECOND, "q open\n1\n2\n"),
        (Method::Create, 3, DONE, ""),
        (Method::Put, 3, DONE, ""),
        (Method::Finish, 3, DONE, ""),
    ] {
        check(&rt, rt.alloc(), LIMITED, (method, number), (head, rest));
    }
}

/// Four parts: of two rows in four partitions the first is the second part, and the other one the
/// last.
const WORD_COUNT: &str = "a = LOAD 'a' AS (line:chararray);
w = FOREACH a GENERATE FLATTEN(TOKENIZE(line)) AS word;
g = GROUP w BY word;
c = FOREACH g GENERATE group AS word, COUNT(w) AS n;
o = ORDER c BY n DESC, word;
STORE o INTO 'p';";

const COUNTED: &str = "0 kept 0\nstored p 2\ndone 2 4 2\np whole\nthe\t2\ncat\t1\nq none\n";

const STORE: &str = "6 kept 0\npig: storage failed at statement 6\n";

/// What is left of a word count by each call of each device.
#[test]
fn a_word_count_fails_in_turn(rt: HostRuntime) {
    let counted = (WORD_COUNT, "the cat\nthe\n");
    for (method, number, head, rest) in [
        (Method::Script, 1, LOOK_UP, ""),
        (Method::Pieces, 1, LOOK_UP, ""),
        (Method::Exists, 1, LOOK_UP, ""),
        (Method::Exists, 2, COUNTED, ""),
        (Method::Begin, 1, COUNTED, ""),
        (Method::Begin, 5, COUNTED, ""),
        (Method::Read, 1, COUNTED, ""),
        (Method::Create, 1, STORE, "p none\nq none\n"),
        (Method::Put, 1, STORE, "p open\nq none\n"),
        (Method::Put, 2, STORE, "p open\nq none\n"),
        (Method::Put, 3, STORE, "p open\nthe\t2\nq none\n"),
        (Method::Put, 4, STORE, "p open\nthe\t2\nq none\n"),
        (Method::Put, 5, COUNTED, ""),
        (Method::Finish, 1, STORE, "p open\nthe\t2\ncat\t1\nq none\n"),
        (
            Method::Write,
            1,
            "10 kept 0\n",
            "p whole\nthe\t2\ncat\t1\nq none\n",
        ),
        (Method::Write, 2, COUNTED, ""),
    ] {
        check(&rt, rt.alloc(), counted, (method, number), (head, rest));
    }
}

/// Where the console fails at its first call, that is to be the status, and nothing is made.
fn check_unshown<R: Threads + Sync + Abort>(
    rt: &R,
    alloc: Global,
    status: u8,
    line: &str,
    script: &str,
) {
    let want = format!(in alloc; "{status} kept 0\np none\nq none\n").expect(rt, "memory");
    let scene = Scene {
        line,
        faults: &[(Method::Write, 1)],
        ..Scene::new(script, "1\n")
    };
    let got = told(rt, alloc, &scene).expect(rt, "memory");
    assert_eq!(rt; got.as_str(), want.as_str(), "at {line}: {script}");
}

/// Too many brackets are open at one token.
const DEEP: &str =
    "x = FILTER a BY ((((((((((((((((((((((((((((((((((((((((((((((((((((((((((((((((((1;";

/// A console that fails changes no refusal, and no text is shown.
#[test]
fn consoles_change_no_refusal(rt: HostRuntime) {
    let load = "y = LOAD 'no' AS (a:int); STORE y INTO 'p';";
    for (status, line, script) in [
        (1, "run", load),
        (1, "run s --workers 2", load),
        (2, "run t", load),
        (3, "run s", "x = FILTER nope BY @;"),
        (3, "run s", "a = LOAD 'a' AS (x:int); x = ;"),
        (3, "run s", "y = LOAD 'i' AS (a:float);"),
        (4, "run s", load),
        (11, "run s", DEEP),
    ] {
        check_unshown(&rt, rt.alloc(), status, line, script);
    }
    check_unshown(&rt, rt.alloc(), 10, "check s", load);
}
