//! What the tasks of STOREs hand on, as text. Where memory is wanting the process ends.
use pig_physical::{Out, OutForm, Outs, Stages, Task};
use pig_value::OutList;
use std::alloc::Global;
use std::process::Abort;

fn add<R: Abort>(rt: &R, into: &mut Vec<u8>, text: &[u8]) {
    into.extend_from_slice(text).expect(rt, "memory");
}

fn bytes_of(out: &Out) -> &[u8] {
    match &out.form {
        OutForm::Parts(bytes) => bytes.as_slice(),
        _ => &[],
    }
}

fn is_for(task: &Task, node: u32) -> bool {
    match task {
        Task::Map(task) => task.node == node,
        Task::Reduce(_) => false,
        Task::Rank(_) => false,
    }
}

/// Adds what the tasks of a STORE hand on, in their order.
fn add_store<R: Abort>(
    rt: &R,
    into: &mut Vec<u8>,
    stages: &Stages,
    outs: &OutList<Out>,
    node: u32,
) {
    if stages.waves() == 0 {
        return;
    }
    let wave = stages.waves() - 1;
    for at in 0..stages.tasks(wave) {
        if is_for(stages.task_at(wave, at), node) {
            let out = outs.get(at as usize).expect(rt, "an output");
            add(rt, into, bytes_of(out));
        }
    }
}

/// Adds lines, in the order of their bytes where they are no list, and a line `.`.
fn add_lines<R: Abort>(rt: &R, alloc: Global, into: &mut Vec<u8>, bytes: &[u8], listed: bool) {
    let text = String::from_utf8_lossy(alloc, bytes).expect(rt, "memory");
    let mut lines = Vec::new(alloc);
    for line in text.as_str().lines() {
        lines.push(line).expect(rt, "memory");
    }
    if !listed {
        lines.sort().expect(rt, "memory");
    }
    for line in lines.as_slice() {
        add(rt, into, line.as_bytes());
        add(rt, into, b"\n");
    }
    add(rt, into, b".\n");
}

/// The lines of each STORE, with a line `.` behind them. They are in the order of their bytes where they are no list.
pub fn told<R: Abort>(
    rt: &R,
    alloc: Global,
    stages: &Stages,
    outs: &Outs,
    listed: bool,
) -> Vec<u8> {
    let mut text = Vec::new(alloc);
    let Some(last) = outs.as_slice().last() else {
        return text;
    };
    let mut number = 0;
    for node in stages.plan().nodes().as_slice() {
        if node.op.is_store() {
            let mut bytes = Vec::new(alloc);
            add_store(rt, &mut bytes, stages, last, number);
            add_lines(rt, alloc, &mut text, bytes.as_slice(), listed);
        }
        number = u32::saturating_add(number, 1);
    }
    text
}

/// What each task of the last wave hands on, with a bar behind it.
pub fn told_parts<R: Abort>(rt: &R, alloc: Global, outs: &Outs) -> Vec<u8> {
    let mut text = Vec::new(alloc);
    let Some(last) = outs.as_slice().last() else {
        return text;
    };
    for out in last.as_slice() {
        add(rt, &mut text, bytes_of(out));
        add(rt, &mut text, b"|");
    }
    text
}
