// LIMITs over inputs in several splits.
use crate::turns::{Row, first_wrong};
use pig_setting_tests::{Scene, Show, told};
use std::alloc::Global;
use std::process::Abort;
use std::thread::Threads;

/// A LIMIT above the number of rows, and one of none. Each task hands on what it has, as far as the
/// number goes.
const BARE: Row = Row {
    script: "a = LOAD 'a' AS (x:int); l = LIMIT a 0; m = LIMIT a 5;
        STORE l INTO 'p'; STORE m INTO 'q';",
    a: "1\n2\n3\n",
    b: "",
    show: Show::Bags,
    head: "0 kept 2\nstored p 0\nstored q 3\ndone 6",
    tail: "3\np whole\nq whole\n1\n2\n3\n",
    splits: &[("100", 3), ("4", 3), ("1", 3)],
};

#[test]
fn limits_keep_what_they_count(rt: HostRuntime) {
    let wrong = first_wrong(&rt, rt.alloc(), &BARE);
    assert_eq!(rt; wrong.as_str(), "");
}

/// What the first rows of an order are, with these words.
fn first_two<R: Threads + Sync + Abort>(rt: &R, alloc: Global, line: &str) -> String {
    let script = "a = LOAD 'a' AS (x:int); o = ORDER a BY x; l = LIMIT o 2; STORE l INTO 'p';";
    let scene = Scene {
        line,
        others: 3,
        show: Show::Lists,
        ..Scene::new(script, "3\n1\n2\n")
    };
    told(rt, alloc, &scene).expect(rt, "memory")
}

/// The LIMIT's tasks are those of the ORDER's partitions, which hold 3; 1 and 2; 1, 1 and 1 rows.
/// It is no bare one.
#[test]
fn limits_of_an_order_are_its_first_rows(rt: HostRuntime) {
    let alloc = rt.alloc();
    for (reducers, shuffled) in [(1, 5), (2, 6), (3, 6), (4, 6)] {
        let want = format!(in alloc;
            "0 kept 0\nstored p 2\ndone 3 {shuffled} 2\np whole\n1\n2\nq none\n"
        );
        let want = want.expect(&rt, "memory");
        for split in [100, 3, 1] {
            let line = format!(in alloc; "run s --workers 2 --reducers {reducers} --split {split}");
            let line = line.expect(&rt, "memory");
            let got = first_two(&rt, alloc, line.as_str());
            assert_eq!(rt; got.as_str(), want.as_str(), "at {line}");
        }
    }
}

/// What a bare LIMIT stores twice, with these words.
fn kept<R: Threads + Sync + Abort>(rt: &R, alloc: Global, line: &str) -> String {
    let script = "a = LOAD 'a' AS (x:int); l = LIMIT a 2; STORE l INTO 'p'; STORE l INTO 'q';";
    let scene = Scene {
        line,
        others: 3,
        ..Scene::new(script, "1\n2\n3\n")
    };
    told(rt, alloc, &scene).expect(rt, "memory")
}

/// Whether two of the three rows are stored, the same in both directories.
fn is_kept<R: Abort>(rt: &R, alloc: Global, got: &str, shuffled: u64) -> bool {
    for rows in ["1\n2\n", "1\n3\n", "2\n3\n"] {
        let want = format!(in alloc;
            "0 kept 1\nstored p 2\nstored q 2\ndone 3 {shuffled} 4\np whole\n{rows}q whole\n{rows}"
        );
        let want = want.expect(rt, "memory");
        if got == want.as_str() {
            return true;
        }
    }
    false
}

/// Lines begin at 0, 2 and 4. Which rows are kept isn't promised, but both STOREs have the same
/// ones.
#[test]
fn both_stores_have_the_kept_rows(rt: HostRuntime) {
    let alloc = rt.alloc();
    for (split, shuffled) in [(100, 2), (5, 2), (4, 3), (3, 3), (1, 3)] {
        for workers in [1, 2, 4] {
            let line = format!(in alloc; "run s --split {split} --workers {workers} --reducers 3");
            let line = line.expect(&rt, "memory");
            let got = kept(&rt, alloc, line.as_str());
            assert!(rt;
                is_kept(&rt, alloc, got.as_str(), shuffled),
                "at {line}: {got}"
            );
        }
    }
}
