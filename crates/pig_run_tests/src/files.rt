// A run over real files. Trees end by `drop`: one call is cheap to prove, and a tree that dies by
// name is taken apart variant by variant.
use pig_files::{FileDepot, FileHost, StdConsole};
use pig_run::{Outcome, pig_main};
use pig_setting_tests::words_of;
use std::fs;
use std::process::Abort;
use std::rt::Files;

/// Whether a file holds just this text.
fn holds<R: Abort + Files + AllocGlobal>(rt: &R, path: &str, text: &str) -> bool {
    let held = fs::read_to_string(rt, path).expect(rt, "the file");
    held.as_str() == text
}

/// The exit status of a run.
fn status(done: Outcome) -> u8 {
    let status = done.status;
    drop(done);
    status
}

#[test]
fn a_run_over_files_stores_its_lines(rt: HostRuntime) {
    let alloc = rt.alloc();
    let script =
        "a = LOAD 'p' AS (k:int, v:chararray);\nb = FILTER a BY k > 4;\nSTORE b INTO 'q';\n";
    fs::write(&rt, "s", script).expect(&rt, "the file");
    fs::write(&rt, "p", "1\tx\n5\ty\n\tz\n7\n").expect(&rt, "the file");
    let words = words_of(alloc, "run s").expect(&rt, "memory");
    let mut depot = FileDepot::new(rt.clone().expect(&rt, "a handle"), alloc);
    let mut hosts = Vec::new(alloc);
    let host = FileHost::new(rt.clone().expect(&rt, "a handle"), alloc);
    hosts.push(host).expect(&rt, "memory");
    let mut console = StdConsole::new(rt.clone().expect(&rt, "a handle"));
    let done = pig_main(&rt, alloc, &words, &mut depot, &mut hosts, &mut console);
    assert_eq!(rt; status(done), 0);
    assert!(rt; holds(&rt, "q/part-00000", "5\ty\n7\t\n"));
    assert!(rt; holds(&rt, "q/_SUCCESS", ""));
    let mut hosts = Vec::new(alloc);
    let host = FileHost::new(rt.clone().expect(&rt, "a handle"), alloc);
    hosts.push(host).expect(&rt, "memory");
    let again = pig_main(&rt, alloc, &words, &mut depot, &mut hosts, &mut console);
    assert_eq!(rt; status(again), 5);
    drop(depot);
    drop(hosts);
    drop(console);
}
