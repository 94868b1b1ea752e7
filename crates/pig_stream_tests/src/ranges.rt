//! Lines of ranges whose bytes come in blocks.
use crate::plans::{Range, stored};
use std::alloc::Global;
use std::process::Abort;

// A CR before an LF and one that is not, an empty line, characters of two and three bytes, and no last LF.
const TEXT: &str = "1\tana\r\n2\tb\u{e9}\rb\u{e9}\r\n\r\n\n30\t\u{20ac}5 x\r\r\n12\tlast";

const ROWS: &str = "1\tana\n2\tb\u{e9}\rb\u{e9}\n\t\n\t\n30\t\u{20ac}5 x\r\n12\tlast\n";

fn whole<R: Abort>(rt: &R, alloc: Global, block: usize) -> bool {
    let bytes = TEXT.as_bytes();
    let (from, to) = (0, bytes.len());
    let found = stored(rt, alloc, &[], bytes, Range { from, to, block });
    let mut wanted = Vec::new(alloc);
    wanted
        .extend_from_slice(ROWS.as_bytes())
        .expect(rt, "memory");
    wanted.extend_from_slice(b"#6\n").expect(rt, "memory");
    let same = found == wanted;
    drop((found, wanted));
    same
}

#[test]
fn lines_come_in_blocks_of_any_size(rt: HostRuntime) {
    let alloc = rt.alloc();
    for block in [1, 2, 3, 5, 8, 64] {
        assert!(rt; whole(&rt, alloc, block));
    }
}

/// What the ranges of a size store, one behind the other, without the lines that tell how many rows came.
fn in_ranges<R: Abort>(rt: &R, alloc: Global, size: usize, block: usize) -> bool {
    let bytes = TEXT.as_bytes();
    let mut found = Vec::new(alloc);
    for at in 0..bytes.len() {
        if at % size.max(1) == 0 {
            add_range(rt, alloc, at, size, block, &mut found);
        }
    }
    let same = found.as_slice() == ROWS.as_bytes();
    drop(found);
    same
}

fn add_range<R: Abort>(
    rt: &R,
    alloc: Global,
    from: usize,
    size: usize,
    block: usize,
    found: &mut Vec<u8>,
) {
    let bytes = TEXT.as_bytes();
    let to = from.saturating_add(size).min(bytes.len());
    let part = stored(rt, alloc, &[], bytes, Range { from, to, block });
    let end = part.len().saturating_sub(3);
    found.extend_from_slice(&part[..end]).expect(rt, "memory");
    drop(part);
}

#[test]
fn each_line_is_of_one_range(rt: HostRuntime) {
    let alloc = rt.alloc();
    for size in [1, 2, 7, 12, 100] {
        assert!(rt; in_ranges(&rt, alloc, size, 3));
    }
    assert!(rt; in_ranges(&rt, alloc, 2, 1));
}
