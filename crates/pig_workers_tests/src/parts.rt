// Which part holds which line: those of a LOAD by its splits, those of an ORDER by cut points.
use pig_setting_tests::{Scene, Show, told};
use std::alloc::Global;
use std::process::Abort;
use std::thread::Threads;

/// What a script stores, part by part, of an input, with these words.
fn of<R: Threads + Sync + Abort>(
    rt: &R,
    alloc: Global,
    line: &str,
    script: &str,
    a: &str,
) -> String {
    let scene = Scene {
        line,
        others: 3,
        show: Show::Parts,
        ..Scene::new(script, a)
    };
    told(rt, alloc, &scene).expect(rt, "memory")
}

/// Nine bytes with lines at 0, 5 and 6.
const LINE_ENDS: &str = "a = LOAD 'a' AS (x:int, y:int); STORE a INTO 'p';";

#[test]
fn each_split_is_a_part(rt: HostRuntime) {
    let alloc = rt.alloc();
    let head = "0 kept 0\nstored p 3\ndone 3 0 3\np whole\n";
    for (split, parts) in [
        (
            "1",
            "-- 0\n1\t2\n-- 1\n-- 2\n-- 3\n-- 4\n-- 5\n\t\n-- 6\n3\t4\n-- 7\n-- 8\n",
        ),
        ("2", "-- 0\n1\t2\n-- 1\n-- 2\n\t\n-- 3\n3\t4\n-- 4\n"),
        ("7", "-- 0\n1\t2\n\t\n3\t4\n-- 1\n"),
        ("1000000", "-- 0\n1\t2\n\t\n3\t4\n"),
    ] {
        let want = format!(in alloc; "{head}{parts}q none\n").expect(&rt, "memory");
        for workers in [1, 2, 4] {
            let line = format!(in alloc; "run s --workers {workers} --split {split}");
            let line = line.expect(&rt, "memory");
            let got = of(&rt, alloc, line.as_str(), LINE_ENDS, "1\t2\r\n\n3\t4");
            assert_eq!(rt; got.as_str(), want.as_str(), "at {line}");
        }
    }
}

/// A union stores the parts of its first way and then those of the second; an input of no bytes has
/// one part.
#[test]
fn each_way_has_its_parts(rt: HostRuntime) {
    let script = "a = LOAD 'a' AS (x:int); f = FILTER a BY x > 1; u = UNION a, f; STORE u INTO 'p';
        b = LOAD 'b' AS (x:int); STORE b INTO 'q';";
    let got = of(
        &rt,
        rt.alloc(),
        "run s --workers 2 --split 3",
        script,
        "1\n2\n3\n",
    );
    let want = "0 kept 0\nstored p 5\nstored q 0\ndone 6 0 5\np whole\n\
        -- 0\n1\n2\n-- 1\n3\n-- 2\n2\n-- 3\n3\nq whole\n-- 0\n";
    assert_eq!(rt; got.as_str(), want);
}

/// Of `m` rows in `n` parts the part numbered k, from 0, ends before the row at `(k + 1) * m / n`.
#[test]
fn ordered_parts_are_cut_evenly(rt: HostRuntime) {
    let alloc = rt.alloc();
    let script = "a = LOAD 'a' AS (k:int, v:chararray); o = ORDER a BY k DESC; STORE o INTO 'p';";
    let head = "0 kept 0\nstored p 4\ndone 4 4 4\np whole\n";
    for (reducers, parts) in [
        (1, "-- 0\n3\tc\n2\tA\n2\ta\n\tb\n"),
        (2, "-- 0\n3\tc\n2\tA\n-- 1\n2\ta\n\tb\n"),
        (3, "-- 0\n3\tc\n-- 1\n2\tA\n-- 2\n2\ta\n\tb\n"),
        (
            6,
            "-- 0\n-- 1\n3\tc\n-- 2\n2\tA\n-- 3\n-- 4\n2\ta\n-- 5\n\tb\n",
        ),
    ] {
        let want = format!(in alloc; "{head}{parts}q none\n").expect(&rt, "memory");
        for split in [100, 4] {
            let line = format!(in alloc; "run s --workers 4 --reducers {reducers} --split {split}");
            let line = line.expect(&rt, "memory");
            let got = of(&rt, alloc, line.as_str(), script, "2\ta\n\tb\n3\tc\n2\tA\n");
            assert_eq!(rt; got.as_str(), want.as_str(), "at {line}");
        }
    }
}
