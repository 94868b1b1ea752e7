//! Worked rows: what map tasks hand on, by splits, the same with all blocks.
use crate::hosts::World;
use crate::waves::{Call, Making, wave};
use std::alloc::Global;
use std::process::Abort;

/// A script over an input `a` and an input `b` of one piece each, and for sizes of splits what its first tasks hand on: behind
/// the number of a task its text, or behind that and the number of a partition each entry, as its input, key and row. A
/// key that descends stands as `?`.
#[derive(Clone, Copy, Drop)]
struct Row {
    script: &'static str,
    a: &'static [u8],
    b: &'static [u8],
    lines: u64,
    splits: &'static [(u64, &'static str)],
}

/// The first split of a row whose tasks of that wave hand on something else, in some block, with that; nothing where there is
/// none.
fn first_wrong_in<R: Abort>(rt: &R, alloc: Global, row: &Row, second: bool) -> String {
    let world = World {
        a: row.a,
        b: row.b,
        has_bars: false,
    };
    for (split, want) in row.splits {
        for block in [1, 3, 64] {
            let making = Making {
                second,
                ..Making::new(row.script, world, *split, Call::Blocks(block))
            };
            let told = wave(rt, alloc, &making);
            if told.text.as_slice() != want.as_bytes() || told.lines != row.lines {
                let text = String::from_utf8_lossy(alloc, told.text.as_slice()).expect(
                    rt, "memory",
                );
                let wrong = format!(in alloc; "split {split}, block {block}: {text}");
                return wrong.expect(rt, "memory");
            }
        }
    }
    String::new(alloc)
}

/// The same of the first wave.
fn first_wrong<R: Abort>(rt: &R, alloc: Global, row: &Row) -> String {
    first_wrong_in(rt, alloc, row, false)
}

/// Lines begin at 0, 5 and 6 of nine bytes.
const LINE_ENDS: Row = Row {
    script: "a = LOAD 'a' AS (x:int, y:int); STORE a INTO 'p';",
    a: b"1\t2\r\n\n3\t4",
    b: b"",
    lines: 3,
    splits: &[
        (1, "0=1\t2\n5=\t\n6=3\t4\n"),
        (2, "0=1\t2\n2=\t\n3=3\t4\n"),
        (7, "0=1\t2\n\t\n3\t4\n"),
        (9, "0=1\t2\n\t\n3\t4\n"),
    ],
};

#[test]
fn lines_are_stored(rt: HostRuntime) {
    let wrong = first_wrong(&rt, rt.alloc(), &LINE_ENDS);
    assert_eq!(rt; wrong.as_str(), "");
}

/// The text of the key 1 is the byte 49, so it is in the partition 1 of 3; that of null is empty, so it is in the first.
/// Lines of `a` begin at 0, 4 and 7 of ten bytes, those of `b` at 0 and 4 of seven.
const GROUPED: Row = Row {
    script: "a = LOAD 'a' AS (k:int, v:chararray); g = GROUP a BY k; STORE g INTO 'p';",
    a: b"1\tx\n\ty\n\tz\n",
    b: b"",
    lines: 3,
    splits: &[
        (1, "0.1 0:1:1\tx\n4.0 0::\ty\n7.0 0::\tz\n"),
        (2, "0.1 0:1:1\tx\n2.0 0::\ty\n3.0 0::\tz\n"),
        (7, "0.0 0::\ty\n0.1 0:1:1\tx\n1.0 0::\tz\n"),
        (10, "0.0 0::\ty\n0.0 0::\tz\n0.1 0:1:1\tx\n"),
    ],
};

/// The tasks of `b` are behind those of `a`.
const COGROUPED: Row = Row {
    script: "a = LOAD 'a' AS (k:int, v:chararray); b = LOAD 'b' AS (k:int, v:chararray);
        g = COGROUP a BY k, b BY k; STORE g INTO 'p';",
    a: b"1\tx\n\ty\n\tz\n",
    b: b"1\tp\n\tq\n",
    lines: 5,
    splits: &[
        (
            1,
            "0.1 0:1:1\tx\n4.0 0::\ty\n7.0 0::\tz\n10.1 1:1:1\tp\n14.0 1::\tq\n",
        ),
        (
            2,
            "0.1 0:1:1\tx\n2.0 0::\ty\n3.0 0::\tz\n5.1 1:1:1\tp\n7.0 1::\tq\n",
        ),
        (
            7,
            "0.0 0::\ty\n0.1 0:1:1\tx\n1.0 0::\tz\n2.0 1::\tq\n2.1 1:1:1\tp\n",
        ),
    ],
};

const JOINED: Row = Row {
    script: "a = LOAD 'a' AS (k:int, v:chararray); b = LOAD 'b' AS (k:int, v:chararray);
        j = JOIN a BY k, b BY k; STORE j INTO 'p';",
    ..COGROUPED
};

const JOINED_FULL: Row = Row {
    script: "a = LOAD 'a' AS (k:int, v:chararray); b = LOAD 'b' AS (k:int, v:chararray);
        j = JOIN a BY k FULL, b BY k; STORE j INTO 'p';",
    ..COGROUPED
};

/// Map tasks hand on all rows, those with null keys too.
#[test]
fn rows_go_by_key(rt: HostRuntime) {
    for row in [GROUPED, COGROUPED, JOINED, JOINED_FULL] {
        let wrong = first_wrong(&rt, rt.alloc(), &row);
        assert_eq!(rt; wrong.as_str(), "", "{}", row.script);
    }
}

/// The tasks of a further input hand on their rows, in order, those with null keys too.
const COPIED: Row = Row {
    script: "a = LOAD 'a' AS (k:int, v:chararray); b = LOAD 'b' AS (k:int, v:chararray);
        j = JOIN a BY k, b BY k USING 'replicated'; STORE j INTO 'p';",
    lines: 2,
    splits: &[
        (1, "0=1\tp\n1=2=3=4=\tq\n5=6="),
        (2, "0=1\tp\n1=2=\tq\n3="),
        (7, "0=1\tp\n\tq\n"),
    ],
    ..COGROUPED
};

/// One task has all copies.
const PROBED: Row = Row {
    lines: 3,
    splits: &[(7, "0=1\tx\t1\tp\n1="), (10, "0=1\tx\t1\tp\n")],
    ..COPIED
};

const PROBED_LEFT: Row = Row {
    script: "a = LOAD 'a' AS (k:int, v:chararray); b = LOAD 'b' AS (k:int, v:chararray);
        j = JOIN a BY k LEFT, b BY k USING 'replicated'; STORE j INTO 'p';",
    splits: &[
        (7, "0=1\tx\t1\tp\n\ty\t\t\n1=\tz\t\t\n"),
        (10, "0=1\tx\t1\tp\n\ty\t\t\n\tz\t\t\n"),
    ],
    ..PROBED
};

#[test]
fn copies_are_probed(rt: HostRuntime) {
    let wrong = first_wrong(&rt, rt.alloc(), &COPIED);
    assert_eq!(rt; wrong.as_str(), "", "copies");
    for row in [PROBED, PROBED_LEFT] {
        let wrong = first_wrong_in(&rt, rt.alloc(), &row, true);
        assert_eq!(rt; wrong.as_str(), "", "{}", row.script);
    }
}

/// `all` is 97, 108 and 108: ((97 * 31) + 108) * 31 + 108 is 96673, so it is in the partition 1 of 3. Lines begin at 0, 20
/// and 22 of 24 bytes.
const WRAPPING_SUM: Row = Row {
    script: "a = LOAD 'a' AS (x:long); g = GROUP a ALL; o = FOREACH g GENERATE SUM(a.x);
        STORE o INTO 'p';",
    a: b"9223372036854775807\n1\n5\n",
    b: b"",
    lines: 3,
    splits: &[
        (
            1,
            "0.1 0:all:9223372036854775807\n20.1 0:all:1\n22.1 0:all:5\n",
        ),
        (
            2,
            "0.1 0:all:9223372036854775807\n10.1 0:all:1\n11.1 0:all:5\n",
        ),
        (
            7,
            "0.1 0:all:9223372036854775807\n2.1 0:all:1\n3.1 0:all:5\n",
        ),
        (20, "0.1 0:all:9223372036854775807\n1.1 0:all:6\n"),
        (24, "0.1 0:all:-9223372036854775803\n"),
    ],
};

/// A row counts where its first field is there. Lines begin at 0 and 3 of seven bytes.
const COUNTED_COLUMN: Row = Row {
    script: "t = LOAD 'a' AS (a:chararray, b:int); g = GROUP t BY b;
        o = FOREACH g GENERATE group, COUNT(t); STORE o INTO 'p';",
    a: b"\t1\nx\t1\n",
    b: b"",
    lines: 2,
    splits: &[
        (1, "0.1 0:1:0\n3.1 0:1:1\n"),
        (2, "0.1 0:1:0\n1.1 0:1:1\n"),
        (7, "0.1 0:1:1\n"),
    ],
};

/// `g` is 103, so it is in the partition 1 of 3. Lines begin at 0 and 3 of six bytes.
const NULL_AGGREGATES: Row = Row {
    script: "a = LOAD 'a' AS (k:chararray, x:int); g = GROUP a BY k;
        o = FOREACH g GENERATE group, COUNT(a.x), COUNT_STAR(a.x), SUM(a.x), MIN(a.x);
        STORE o INTO 'p';",
    a: b"g\t\ng\t\n",
    b: b"",
    lines: 2,
    splits: &[
        (1, "0.1 0:g:0\t1\t\t\n3.1 0:g:0\t1\t\t\n"),
        (2, "0.1 0:g:0\t1\t\t\n1.1 0:g:0\t1\t\t\n"),
        (7, "0.1 0:g:0\t2\t\t\n"),
    ],
};

/// The texts of the rows are `()`, `(1)` and `(2)`: 81, 130 and 131 by three leave 0, 1 and 2, as 31 leaves 1. Lines begin
/// at 0, 2, 4, 6 and 7 of nine bytes.
const DISTINCT: Row = Row {
    script: "a = LOAD 'a' AS (x:int); d = DISTINCT a; STORE d INTO 'p';",
    a: b"2\n1\n2\n\n1\n",
    b: b"",
    lines: 5,
    splits: &[
        (
            1,
            "0.2 0:(2):(2)\n2.1 0:(1):(1)\n4.2 0:(2):(2)\n6.0 0:():()\n7.1 0:(1):(1)\n",
        ),
        (
            2,
            "0.2 0:(2):(2)\n1.1 0:(1):(1)\n2.2 0:(2):(2)\n3.0 0:():()\n3.1 0:(1):(1)\n",
        ),
        (
            7,
            "0.0 0:():()\n0.1 0:(1):(1)\n0.2 0:(2):(2)\n1.1 0:(1):(1)\n",
        ),
        (9, "0.0 0:():()\n0.1 0:(1):(1)\n0.2 0:(2):(2)\n"),
    ],
};

/// One entry for a key.
#[test]
fn rows_are_folded(rt: HostRuntime) {
    for row in [WRAPPING_SUM, COUNTED_COLUMN, NULL_AGGREGATES, DISTINCT] {
        let wrong = first_wrong(&rt, rt.alloc(), &row);
        assert_eq!(rt; wrong.as_str(), "", "{}", row.script);
    }
}

/// One run a task. Lines begin at 0, 4, 7 and 11 of fifteen bytes.
const DESCENDING: Row = Row {
    script: "a = LOAD 'a' AS (k:int, v:chararray); o = ORDER a BY k DESC; STORE o INTO 'p';",
    a: b"2\ta\n\tb\n3\tc\n2\tA\n",
    b: b"",
    lines: 4,
    splits: &[
        (
            1,
            "0.0 0:?:2\ta\n4.0 0:?:\tb\n7.0 0:?:3\tc\n11.0 0:?:2\tA\n",
        ),
        (2, "0.0 0:?:2\ta\n2.0 0:?:\tb\n3.0 0:?:3\tc\n5.0 0:?:2\tA\n"),
        (7, "0.0 0:?:2\ta\n0.0 0:?:\tb\n1.0 0:?:3\tc\n1.0 0:?:2\tA\n"),
        (
            15,
            "0.0 0:?:3\tc\n0.0 0:?:2\tA\n0.0 0:?:2\ta\n0.0 0:?:\tb\n",
        ),
    ],
};

#[test]
fn rows_descend(rt: HostRuntime) {
    let wrong = first_wrong(&rt, rt.alloc(), &DESCENDING);
    assert_eq!(rt; wrong.as_str(), "");
}
