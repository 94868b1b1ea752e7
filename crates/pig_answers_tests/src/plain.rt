// What a script stores by the plain answer. Where memory is wanting the process ends.
use crate::crews::{Job, by_crew, stored};
use pig_plain::answer;
use pig_script_tests::plan_of;
use pig_setting_tests::Show;
use pig_text::write_row;
use pig_value::{Blob, Blobs, Delim, Input, Inputs, Rows, Text};
use std::alloc::Global;
use std::process::Abort;
use std::thread::Threads;

/// An input of one piece.
fn input<R: Abort>(rt: &R, alloc: Global, path: &str, bytes: &str) -> Input {
    let mut pieces = Blobs::new(alloc);
    let piece = Blob::from_slice(alloc, bytes.as_bytes()).expect(rt, "memory");
    pieces.push(piece).expect(rt, "memory");
    let path = Text::from_str(alloc, path).expect(rt, "memory");
    Input { path, pieces }
}

/// The texts of rows.
fn bytes_of<R: Abort>(rt: &R, alloc: Global, rows: &Rows) -> Vec<u8> {
    let mut bytes = Vec::new(alloc);
    for row in rows.as_slice() {
        write_row(row, Delim::tab(), &mut bytes).expect(rt, "memory");
    }
    bytes
}

/// Adds the lines of rows, ascending where they are no list.
fn add_lines<R: Abort>(rt: &R, alloc: Global, into: &mut String, rows: &Rows, listed: bool) {
    let bytes = bytes_of(rt, alloc, rows);
    let text = String::from_utf8_lossy(alloc, bytes.as_slice()).expect(rt, "memory");
    let mut lines = Vec::new(alloc);
    for line in text.lines() {
        lines.push(line).expect(rt, "memory");
    }
    if !listed {
        lines.sort().expect(rt, "memory");
    }
    for line in lines.as_slice() {
        into.push_str(line).expect(rt, "memory");
        into.push_str("\n").expect(rt, "memory");
    }
}

/// What stands in the directories `p` and `q` by the plain answer.
fn due<R: Abort>(rt: &R, alloc: Global, job: &Job) -> String {
    let plan = plan_of(alloc, job.script).expect(rt, "a plan");
    let mut inputs = Inputs::new(alloc);
    inputs
        .push(input(rt, alloc, "a", job.a))
        .expect(rt, "memory");
    inputs
        .push(input(rt, alloc, "b", job.b))
        .expect(rt, "memory");
    let found = answer(alloc, &plan, &inputs).expect(rt, "memory");
    drop((plan, inputs));
    let mut told = String::new(alloc);
    let mut count: u32 = 0;
    for rows in found.stores.as_slice() {
        let head = if count == 0 { "whole\n" } else { "q whole\n" };
        told.push_str(head).expect(rt, "memory");
        add_lines(rt, alloc, &mut told, rows, job.listed);
        count = u32::saturating_add(count, 1);
    }
    drop(found);
    if count == 1 {
        told.push_str("q none\n").expect(rt, "memory");
    }
    told
}

/// Whether a crew with failures stores what the plain answer has.
pub fn is_due<R: Threads + Sync + Abort>(rt: &R, alloc: Global, job: &Job, workers: u8) -> bool {
    let show = if job.listed { Show::Lists } else { Show::Bags };
    let told = by_crew(rt, alloc, job, workers, 7, show);
    let due = due(rt, alloc, job);
    stored(told.as_str()) == due.as_str()
}
