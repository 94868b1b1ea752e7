// A row run in many ways.
use pig_setting_tests::{Scene, Show, told};
use std::alloc::Global;
use std::process::Abort;
use std::thread::Threads;

/// The number of workers, and that of partitions.
const TURNS: [&str; 6] = [
    "--workers 1 --reducers 1",
    "--workers 1 --reducers 3",
    "--workers 2 --reducers 1",
    "--workers 2 --reducers 3",
    "--workers 4 --reducers 4",
    "--workers 4 --reducers 1",
];

/// A script over two inputs, and what it stores whatever its options are.
#[derive(Clone, Copy, Drop)]
pub struct Row {
    pub script: &'static str,
    pub a: &'static str,
    pub b: &'static str,
    pub show: Show,
    /// The text up to the number of entries that map tasks hand on, and the text behind it.
    pub head: &'static str,
    pub tail: &'static str,
    /// Sizes of splits, and for each how many entries map tasks hand on.
    pub splits: &'static [(&'static str, u64)],
}

/// What is told of a row with these options.
fn told_with<R: Threads + Sync + Abort>(rt: &R, alloc: Global, row: &Row, options: &str) -> String {
    let line = format!(in alloc; "run s {options}").expect(rt, "memory");
    let scene = Scene {
        line: line.as_str(),
        b: row.b,
        others: 3,
        show: row.show,
        ..Scene::new(row.script, row.a)
    };
    told(rt, alloc, &scene).expect(rt, "memory")
}

/// The first answer of a row that is not as it should be, with its options; nothing where there is
/// none.
pub fn first_wrong<R: Threads + Sync + Abort>(rt: &R, alloc: Global, row: &Row) -> String {
    for (split, entries) in row.splits {
        let (head, tail) = (row.head, row.tail);
        let want = format!(in alloc; "{head} {entries} {tail}").expect(rt, "memory");
        for turn in TURNS {
            let options = format!(in alloc; "{turn} --split {split}").expect(rt, "memory");
            let got = told_with(rt, alloc, row, options.as_str());
            if got.as_str() != want.as_str() {
                return format!(in alloc; "{options}: {got}").expect(rt, "memory");
            }
        }
    }
    String::new(alloc)
}
