//! Hosts that fail at a read, whose pieces are shorter than they were told to be, and that give other bytes.
use crate::hosts::World;
use crate::waves::{Call, Making, Told, wave};
use std::alloc::Global;
use std::process::Abort;

const STORED: &str = "a = LOAD 'a' AS (x:int, y:int); STORE a INTO 'p';";

/// Lines begin at 0, 5 and 6 of nine bytes.
const LINE_ENDS: &[u8] = b"1\t2\r\n\n3\t4";

/// Bytes of one piece.
fn world(bytes: &[u8]) -> World<'_> {
    World {
        a: bytes,
        b: b"",
        has_bars: false,
    }
}

/// Whether a wave is this text.
fn tells(told: &Told, text: &[u8]) -> bool {
    told.text.as_slice() == text
}

/// What the tasks of a script give over these lines, by hosts that fail at a read.
fn failing<R: Abort>(rt: &R, alloc: Global, split: u64, block: u32, fails: u64) -> Told {
    let making = Making {
        fails,
        ..Making::new(STORED, world(LINE_ENDS), split, Call::Blocks(block))
    };
    wave(rt, alloc, &making)
}

/// In blocks of three bytes one task makes three reads; each of them may fail, and a fourth is not made.
#[test]
fn each_read_may_fail(rt: HostRuntime) {
    let alloc = rt.alloc();
    for fails in [1, 2, 3] {
        let told = failing(&rt, alloc, 9, 3, fails);
        assert!(rt; tells(&told, b"0 lost\n"));
        assert_eq!(rt; told.reads, fails);
    }
    for fails in [0, 4] {
        let told = failing(&rt, alloc, 9, 3, fails);
        assert!(rt; tells(&told, b"0=1\t2\n\t\n3\t4\n"));
        assert_eq!(rt; told.reads, 3);
    }
}

/// In splits of seven bytes and blocks of three the first task reads all nine bytes, and the second, which begins at 6, one
/// block; so the first read of each may fail, and the second and the third of the first one alone.
#[test]
fn a_failure_loses_its_attempt_alone(rt: HostRuntime) {
    let alloc = rt.alloc();
    assert!(rt; tells(&failing(&rt, alloc, 7, 3, 1), b"0 lost\n1 lost\n"));
    assert!(rt; tells(&failing(&rt, alloc, 7, 3, 2), b"0 lost\n"));
    assert!(rt; tells(&failing(&rt, alloc, 7, 3, 3), b"0 lost\n"));
    assert!(rt; tells(&failing(&rt, alloc, 7, 3, 4), b"0=1\t2\n\t\n3\t4\n"));
}

/// What the tasks of a script give over these lines, of which hosts have only the first five bytes.
fn short<R: Abort>(rt: &R, alloc: Global, split: u64, block: u32) -> Told {
    let held = world(LINE_ENDS.get(..5).unwrap_or(&[]));
    let making = Making {
        held,
        ..Making::new(STORED, world(LINE_ENDS), split, Call::Blocks(block))
    };
    wave(rt, alloc, &making)
}

/// An attempt that reads behind what is there is lost. In blocks of one byte and splits of two the first line is whole by its
/// fifth byte; the split from 2 has no line; those behind begin to read at 3, 5 and 7.
#[test]
fn shorter_pieces_lose_attempts(rt: HostRuntime) {
    let alloc = rt.alloc();
    assert!(rt; tells(&short(&rt, alloc, 9, 64), b"0 lost\n"));
    assert!(rt; tells(&short(&rt, alloc, 9, 1), b"0 lost\n"));
    assert!(rt;
        tells(
            &short(&rt, alloc, 2, 1),
            b"0=1\t2\n2 lost\n3 lost\n4 lost\n"
        )
    );
}

/// What the tasks of a script give over as many bytes, each of which hosts give as that one.
fn other<R: Abort>(rt: &R, alloc: Global, script: &str, split: u64, byte: u8) -> Told {
    let making = Making {
        other: Some(byte),
        ..Making::new(script, world(LINE_ENDS), split, Call::Blocks(3))
    };
    wave(rt, alloc, &making)
}

/// Tasks hand on what the bytes that came say. Where all are LFs a line starts at each, and where none is one at the first.
#[test]
fn other_bytes_give_other_lines(rt: HostRuntime) {
    let alloc = rt.alloc();
    let told = other(&rt, alloc, STORED, 2, b'\n');
    assert!(rt; tells(&told, b"0=\t\n\t\n1=\t\n\t\n2=\t\n\t\n3=\t\n\t\n4=\t\n"));
    assert_eq!(rt; told.lines, 9);
    let told = other(&rt, alloc, STORED, 2, b'7');
    assert!(rt; tells(&told, b"0=777777777\t\n"));
    assert_eq!(rt; told.lines, 1);
    let told = other(&rt, alloc, STORED, 9, b'\r');
    assert!(rt; tells(&told, b"0=\t\n"));
}

/// So do runs: of null keys, which are in the first partition.
#[test]
fn other_bytes_give_other_entries(rt: HostRuntime) {
    let alloc = rt.alloc();
    let script = "a = LOAD 'a' AS (x:int, y:int); g = GROUP a BY y; STORE g INTO 'p';";
    let told = other(&rt, alloc, script, 7, b'\n');
    let first = b"0.0 0::\t\n0.0 0::\t\n0.0 0::\t\n0.0 0::\t\n0.0 0::\t\n0.0 0::\t\n0.0 0::\t\n";
    assert!(rt; told.text.starts_with(first));
    assert!(rt; told.text.ends_with(b"\n1.0 0::\t\n1.0 0::\t\n"));
    assert_eq!(rt; told.lines, 9);
    let told = other(&rt, alloc, script, 7, b'7');
    assert!(rt; tells(&told, b"0.0 0::777777777\t\n"));
}

/// What a script's tasks give over pieces in one split of each.
fn whole<R: Abort>(rt: &R, alloc: Global, script: &str, call: Call) -> Told {
    let world = world(b"ab\r\nc\n\na longer line");
    wave(rt, alloc, &Making::new(script, world, 64, call))
}

/// A LIMIT keeps its first rows, and counts all lines; its path's rows are all there; an ASSERT that is not met is told, and
/// what it stands on is handed on.
#[test]
fn a_task_ends_as_its_node_says(rt: HostRuntime) {
    let alloc = rt.alloc();
    let limit = "a = LOAD 'a' AS (x:chararray); l = LIMIT a 2; STORE l INTO 'p';";
    let told = whole(&rt, alloc, limit, Call::Blocks(64));
    assert!(rt; tells(&told, b"0=ab\nc\n"));
    assert_eq!(rt; told.lines, 4);
    let told = whole(&rt, alloc, limit, Call::Rows);
    assert!(rt; tells(&told, b"0=ab\nc\n\na longer line\n"));
    let unmet = "a = LOAD 'a' AS (x:chararray); ASSERT a BY x != 'c'; STORE a INTO 'p';";
    let told = whole(&rt, alloc, unmet, Call::Whole);
    assert!(rt; tells(&told, b"0=ab\nc\n\na longer line\n0 unmet 2\n"));
    let told = whole(&rt, alloc, unmet, Call::Rows);
    assert!(rt; tells(&told, b"0=ab\nc\n\na longer line\n0 unmet 2\n"));
}
