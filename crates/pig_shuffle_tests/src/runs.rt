//! The runs of rows, against those that are written by hand. A key stands in the partition that the bytes of its text give:
//! among three, null and 3 in the first one, 1 in the second, 2 in the third.
use crate::plans::{Asked, block, shuffled};
use std::alloc::Global;
use std::process::Abort;

const TEXT: &str = "1\tx\n\ty\n2\tz\n3\tw\n1\tv\n\tu\n";

const TWICE: &str = "1\ta\n2\tb\n1\ta\n\ty\n3\tc\n\ty\n1\ta\n";

// Whether these are the runs of the rows of a text.
fn hands_on<R: Abort>(
    rt: &R,
    alloc: Global,
    (node, input, parts): (usize, u32, u32),
    text: &str,
    wanted: &str,
) -> bool {
    let asked = Asked { node, input, parts };
    let found = shuffled(rt, alloc, asked, None, text);
    let same = found.as_slice() == wanted.as_bytes();
    drop(found);
    same
}

// The same of a GROUP that folds.
fn folds<R: Abort>(rt: &R, alloc: Global, node: usize, parts: u32, wanted: &str) -> bool {
    let input = 0;
    let block = block(rt, alloc);
    let found = shuffled(rt, alloc, Asked { node, input, parts }, Some(&block), TEXT);
    drop(block);
    let same = found.as_slice() == wanted.as_bytes();
    drop(found);
    same
}

#[test]
fn rows_stand_by_key_in_the_partition_of_the_key(rt: HostRuntime) {
    let alloc = rt.alloc();
    let three = "\tu\n\ty\n3\tw\n|1\tv\n1\tx\n|2\tz\n|";
    assert!(rt; hands_on(&rt, alloc, (1, 0, 3), TEXT, three));
    let one = "\tu\n\ty\n1\tv\n1\tx\n2\tz\n3\tw\n|";
    assert!(rt; hands_on(&rt, alloc, (1, 0, 1), TEXT, one));
    assert!(rt; hands_on(&rt, alloc, (1, 0, 0), TEXT, ""));
    assert!(rt; hands_on(&rt, alloc, (1, 0, 3), "", "|||"));
}

#[test]
fn several_keys_are_a_tuple_and_all_rows_have_one_key(rt: HostRuntime) {
    let alloc = rt.alloc();
    let tuples = "\ty\n1\tx\n2\tz\n|1\tv\n3\tw\n|\tu\n|";
    assert!(rt; hands_on(&rt, alloc, (2, 1, 3), TEXT, tuples));
    let all = "|\tu\n\ty\n1\tv\n1\tx\n2\tz\n3\tw\n||";
    assert!(rt; hands_on(&rt, alloc, (3, 0, 3), TEXT, all));
}

#[test]
fn sorted_rows_are_one_run(rt: HostRuntime) {
    let alloc = rt.alloc();
    let down = "3\tw\n2\tz\n1\tv\n1\tx\n\tu\n\ty\n|";
    assert!(rt; hands_on(&rt, alloc, (5, 0, 3), TEXT, down));
}

#[test]
fn each_row_of_a_distinct_stands_once(rt: HostRuntime) {
    let alloc = rt.alloc();
    let once = "(,y)\n(2,b)\n|(1,a)\n|(3,c)\n|";
    assert!(rt; hands_on(&rt, alloc, (4, 0, 3), TWICE, once));
}

#[test]
fn a_group_that_folds_hands_on_parts(rt: HostRuntime) {
    let alloc = rt.alloc();
    assert!(rt; folds(&rt, alloc, 1, 3, "0\t\tu\n1\t3\tw\n|2\t2\tv\n|1\t2\tz\n|"));
    assert!(rt; folds(&rt, alloc, 3, 1, "4\t7\tu\n|"));
}
