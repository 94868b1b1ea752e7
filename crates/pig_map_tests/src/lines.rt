//! The lines of splits, whatever the blocks in which they are read.
use crate::hosts::World;
use crate::waves::{Call, Making, wave};
use std::alloc::Global;
use std::process::Abort;

const STORED: &str = "a = LOAD 'a' AS (x:chararray); STORE a INTO 'p';";

/// Pieces between bars: lines that end with CRLF or LF, an empty one, one without an LF, and a piece of no byte.
const PIECES: &[u8] = b"ab\r\nc\n\na longer line|x\r\nyz||\nk\n";

/// CRs before an LF, before another byte and at the end; characters of two, three and four bytes before an LF, behind one
/// and beside each other.
const EDGES: &[u8] = b"ab\r\ncd\re\r\n\r\n\rf\r\r\n|\
    \xc3\xa9\n\xe2\x82\xac\xc3\xa9x\n\xf0\x9d\x84\x9e\r\n\xc3\xa9|no end\r";

/// Bytes in pieces between bars.
fn barred(bytes: &[u8]) -> World<'_> {
    World {
        a: bytes,
        b: b"",
        has_bars: true,
    }
}

/// Adds the lines that start in a split, each with an LF; told by looking at the whole piece.
fn add_by_hand<R: Abort>(
    rt: &R,
    alloc: Global,
    into: &mut Vec<u8>,
    bytes: &[u8],
    (from, to): (u64, u64),
) -> u64 {
    let mut lines = 0;
    let mut at: u64 = 0;
    for line in bytes.split(|b| *b == b'\n') {
        if from <= at && at < to && at < bytes.len() as u64 {
            let line = line.strip_suffix(b"\r").unwrap_or(line);
            into.extend_from_slice(line).expect(rt, "memory");
            into.push(b'\n').expect(rt, "memory");
            lines = u64::saturating_add(lines, 1);
        }
        at = at.saturating_add(line.len() as u64).saturating_add(1);
    }
    lines
}

/// What the tasks of splits of so many bytes give of pieces: behind its number the lines of each that has some. An empty
/// piece has one split.
fn by_hand<R: Abort>(rt: &R, alloc: Global, pieces: &[u8], split: u64) -> Vec<u8> {
    let mut told = Vec::new(alloc);
    let mut task: u64 = 0;
    for piece in pieces.split(|b| *b == b'|') {
        let mut from: u64 = 0;
        for _ in 0..piece.len().max(1) {
            if from < piece.len() as u64 || from == 0 {
                let mut lines = Vec::new(alloc);
                let to = from.saturating_add(split);
                if add_by_hand(rt, alloc, &mut lines, piece, (from, to)) > 0 {
                    let place = format!(in alloc; "{task}=").expect(rt, "memory");
                    told.extend_from_slice(place.as_bytes())
                        .expect(rt, "memory");
                    told.extend_from_slice(lines.as_slice())
                        .expect(rt, "memory");
                }
                task = task.saturating_add(1);
                from = to;
            }
        }
    }
    told
}

/// Whether tasks give the lines of their splits, read in blocks of so many bytes by hosts that fail at longer buffers.
fn is_by_hand<R: Abort>(rt: &R, alloc: Global, pieces: &[u8], split: u64, block: u32) -> bool {
    let making = Making {
        most: block as usize,
        ..Making::new(STORED, barred(pieces), split, Call::Blocks(block))
    };
    let told = wave(rt, alloc, &making);
    let want = by_hand(rt, alloc, pieces, split);
    told.text.as_slice() == want.as_slice()
}

#[test]
fn each_task_gives_the_lines_of_its_split(rt: HostRuntime) {
    for split in [1, 2, 7, 64] {
        for block in [1, 3, 7, 64] {
            assert!(rt;
                is_by_hand(&rt, rt.alloc(), PIECES, split, block),
                "split {split}, block {block}"
            );
        }
    }
}

/// Each byte is the last one of some block, and the first one of some split.
#[test]
fn edges_of_blocks_cut_no_line(rt: HostRuntime) {
    for split in [1, 2, 3, 4, 5, 6, 30] {
        for block in 1..12 {
            assert!(rt;
                is_by_hand(&rt, rt.alloc(), EDGES, split, block),
                "split {split}, block {block}"
            );
        }
    }
}

/// By hand what the first of these pieces has.
#[test]
fn carriage_returns_end_lines_before_line_feeds_alone(rt: HostRuntime) {
    let world = barred(b"ab\r\ncd\re\r\n\r\n\rf\r\r\n");
    for block in 1..22 {
        let making = Making::new(STORED, world, 30, Call::Blocks(block));
        let told = wave(&rt, rt.alloc(), &making);
        assert!(rt; told.text.as_slice() == b"0=ab\ncd\re\n\n\rf\r\n".as_slice());
        assert_eq!(rt; told.lines, 4);
    }
}

/// How often something is lost, with hosts that fail at each buffer of more than seven bytes.
fn lost<R: Abort>(rt: &R, alloc: Global, split: u64, call: Call) -> u64 {
    let making = Making {
        most: 7,
        ..Making::new(STORED, barred(PIECES), split, call)
    };
    let told = wave(rt, alloc, &making);
    let mut count = 0;
    for line in told.text.split(|b| *b == b'\n') {
        if line.ends_with(b" lost") {
            count = u64::saturating_add(count, 1);
        }
    }
    count
}

/// The first piece has twenty bytes, and the others have fewer than eight; of the first one's tasks in splits of seven those
/// at 0 and 7 find eight bytes, and that at 14, which begins to read one before, has seven.
#[test]
fn no_buffer_is_longer_than_a_block(rt: HostRuntime) {
    let alloc = rt.alloc();
    for split in [1, 2, 7, 64] {
        assert_eq!(rt; lost(&rt, alloc, split, Call::Blocks(7)), 0);
    }
    assert_eq!(rt; lost(&rt, alloc, 7, Call::Blocks(8)), 2);
    assert_eq!(rt; lost(&rt, alloc, 64, Call::Blocks(8)), 1);
    assert_eq!(rt; lost(&rt, alloc, 64, Call::Whole), 1);
}

/// A text of one letter.
fn letters<R: Abort>(rt: &R, alloc: Global, count: usize) -> Vec<u8> {
    let mut text = Vec::new(alloc);
    for _ in 0..count {
        text.push(b'x').expect(rt, "memory");
    }
    text
}

/// A line of a million bytes without its end, in ten thousand splits: its task reads it in sixteen blocks, and each other one
/// sees by its first block that no line starts in its split.
#[test]
fn a_long_line_is_read_once(rt: HostRuntime) {
    let alloc = rt.alloc();
    let text = letters(&rt, alloc, 1_000_000);
    let world = World {
        a: text.as_slice(),
        b: b"",
        has_bars: false,
    };
    let told = wave(&rt, alloc, &Making::new(STORED, world, 100, Call::Whole));
    let stored = told.text.as_slice();
    assert_eq!(rt; told.lines, 1);
    assert_eq!(rt; told.reads, 245 + 9_999);
    assert_eq!(rt; stored.len(), 1_000_003);
    assert!(rt; stored.starts_with(b"0=xx") && stored.ends_with(b"xx\n"));
}
