//! Rows on their way through nodes.
use crate::plans::{Range, plan, stored, through};
use pig_packed::Packed;
use pig_stream::{Batch, FirstRows, PackedRows, RowList, Sink, Steps, StoredText, Unpacked, drive};
use pig_value::Delim;
use std::alloc::Global;
use std::process::Abort;

const TEXT: &str = "1\tu v\n3\tc\n\tn\n2\td e\n";

fn all() -> Range {
    Range {
        from: 0,
        to: 100,
        block: 3,
    }
}

/// Whether this is stored of the rows that go through nodes, with how many came and the statements that they don't meet.
fn stores<R: Abort>(rt: &R, alloc: Global, path: &[u32], wanted: &str) -> bool {
    let found = stored(rt, alloc, path, TEXT.as_bytes(), all());
    let same = found.as_slice() == wanted.as_bytes();
    drop(found);
    same
}

#[test]
fn rows_go_through_nodes(rt: HostRuntime) {
    let alloc = rt.alloc();
    assert!(rt; stores(&rt, alloc, &[], "1\tu v\n3\tc\n\tn\n2\td e\n#4\n"));
    assert!(rt; stores(&rt, alloc, &[1], "3\tc\n2\td e\n#4\n"));
    assert!(rt; stores(&rt, alloc, &[1, 2], "c\t3\nd\t2\ne\t2\n#4\n"));
    assert!(rt;
        stores(
            &rt,
            alloc,
            &[2, 5],
            "u\t1\nv\t1\nc\t3\nn\t\nd\t2\ne\t2\n#4\n"
        )
    );
    assert!(rt; stores(&rt, alloc, &[6], "u\nv\nc\nn\nd\ne\n#4\n"));
    assert!(rt; stores(&rt, alloc, &[6, 7], "u\nv\nc\nn\nd\ne\n#4\n"));
    assert!(rt; stores(&rt, alloc, &[1, 6], "c\nd\ne\n#4\n"));
    assert!(rt; stores(&rt, alloc, &[9], "1\tu v\n3\tc\n\tn\n2\td e\n#4\n"));
}

#[test]
fn an_assert_is_told_once(rt: HostRuntime) {
    let alloc = rt.alloc();
    assert!(rt; stores(&rt, alloc, &[3, 1], "3\tc\n2\td e\n#4 4\n"));
    assert!(rt; stores(&rt, alloc, &[1, 3], "3\tc\n2\td e\n#4\n"));
    assert!(rt; stores(&rt, alloc, &[1, 2, 4, 5], "c\t3\nd\t2\ne\t2\n#4\n"));
    assert!(rt;
        stores(
            &rt,
            alloc,
            &[3, 2, 4],
            "u\t1\nv\t1\nc\t3\nn\t\nd\t2\ne\t2\n#4 4 5\n"
        )
    );
}

/// Whether a FOREACH on a node that folds hands rows on.
fn hands_on<R: Abort>(rt: &R, alloc: Global) -> bool {
    let mut sink = StoredText::new(alloc, Delim::tab());
    let (unmet, count) = through(
        rt,
        alloc,
        &[2],
        &[false, true],
        TEXT.as_bytes(),
        all(),
        &mut sink,
    );
    let same = sink.bytes.as_slice() == TEXT.as_bytes();
    drop((unmet, sink));
    same && count == 4
}

/// How many of the first rows are kept, of all that come, and of the ASSERTs that are told, and whether that is enough.
fn first<R: Abort>(rt: &R, alloc: Global, limit: u64, path: &[u32]) -> (usize, u64, usize, bool) {
    let text = b"3\ta\n4\tb\n1\tc\n5\td\n";
    let mut sink = FirstRows::new(alloc, limit);
    let (unmet, count) = through(rt, alloc, path, &[], text, all(), &mut sink);
    let (kept, told) = (sink.rows.len(), unmet.len());
    let enough = sink.has_enough();
    drop((unmet, sink));
    (kept, count, told, enough)
}

#[test]
fn rows_are_handed_on_or_left(rt: HostRuntime) {
    let alloc = rt.alloc();
    assert!(rt; hands_on(&rt, alloc));
    assert!(rt; first(&rt, alloc, 0, &[]) == (0, 4, 0, true));
    assert!(rt; first(&rt, alloc, 2, &[]) == (2, 4, 0, true));
    assert!(rt; first(&rt, alloc, 9, &[1]) == (3, 4, 0, false));
    assert!(rt; first(&rt, alloc, 1, &[3]) == (1, 4, 1, true));
}

/// More lines than stand in a batch.
fn many<R: Abort>(rt: &R, alloc: Global, block: usize) -> usize {
    let mut text = Vec::new(alloc);
    for _ in 0..600 {
        text.extend_from_slice(b"7\tx\n").expect(rt, "memory");
    }
    let (from, to) = (0, text.len());
    let mut sink = RowList::new(alloc);
    let range = Range { from, to, block };
    let (unmet, count) = through(rt, alloc, &[1], &[], text.as_slice(), range, &mut sink);
    let found = sink.rows.len();
    drop((unmet, sink, text));
    if count == 600 { found } else { 0 }
}

fn packed<R: Abort>(rt: &R, alloc: Global) -> Packed {
    let mut sink = PackedRows::new(alloc);
    let (unmet, _) = through(rt, alloc, &[], &[], TEXT.as_bytes(), all(), &mut sink);
    drop(unmet);
    sink.finish()
}

/// Packed rows, taken through nodes into text.
fn unpacked<R: Abort>(rt: &R, alloc: Global, path: &[u32]) -> Vec<u8> {
    let plan = plan(rt, alloc);
    let rows = packed(rt, alloc);
    let mut source = Unpacked::of(&rows);
    let mut sink = StoredText::new(alloc, Delim::tab());
    let mut batch = Batch::new(alloc);
    let nodes = plan.nodes().as_slice();
    let mut steps = Steps::new(alloc, nodes, path, &[]).expect(rt, "memory");
    let _ = drive(alloc, &mut source, &mut steps, &mut sink, &mut batch).expect(rt, "memory");
    drop((batch, steps, source));
    drop((rows, plan));
    let StoredText { bytes, .. } = sink;
    bytes
}

#[test]
fn packed_rows_and_many_rows(rt: HostRuntime) {
    let alloc = rt.alloc();
    let found = unpacked(&rt, alloc, &[1, 2]);
    assert!(rt; found.as_slice() == "c\t3\nd\t2\ne\t2\n".as_bytes());
    drop(found);
    assert!(rt; many(&rt, alloc, 64) == 600);
    assert!(rt; many(&rt, alloc, 100_000) == 600);
}
