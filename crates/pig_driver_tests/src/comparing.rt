// Texts of lines. Where memory is wanting the process ends.
use pig_plan::{NodeOp, Plan};
use std::alloc::Global;
use std::process::Abort;

/// Adds to a text.
pub fn add<R: Abort>(rt: &R, into: &mut String, text: &str) {
    into.push_str(text).expect(rt, "memory");
}

/// The lines of a STORE, and a line `.`; they are sorted where they are no list.
pub fn settled<R: Abort>(rt: &R, alloc: Global, bytes: &[u8], listed: bool) -> String {
    let text = String::from_utf8_lossy(alloc, bytes).expect(rt, "memory");
    let mut lines = Vec::new(alloc);
    for line in text.as_str().lines() {
        lines.push(line).expect(rt, "memory");
    }
    if !listed {
        lines.sort().expect(rt, "memory");
    }
    let mut told = String::new(alloc);
    for line in lines.as_slice() {
        add(rt, &mut told, line);
        add(rt, &mut told, "\n");
    }
    add(rt, &mut told, ".\n");
    told
}

/// Whether the rows of a node are a list: those of an ORDER are, and of a LIMIT or an ASSERT where its input's are.
fn is_list(plan: &Plan, number: u32) -> bool {
    let mut at = number;
    for _ in 0..16 {
        match plan.nodes().get(at as usize) {
            Some(node) => match &node.op {
                NodeOp::Order { .. } => return true,
                NodeOp::Limit { input, .. } | NodeOp::Assert { input, .. } => at = *input,
                _ => return false,
            },
            None => return false,
        }
    }
    false
}

/// The input of a LIMIT that may keep any rows.
pub fn bare_input(plan: &Plan, number: u32) -> Option<u32> {
    if is_list(plan, number) {
        return None;
    }
    match plan.nodes().get(number as usize) {
        Some(node) => match &node.op {
            NodeOp::Limit { input, .. } => Some(*input),
            _ => None,
        },
        None => None,
    }
}

/// How often a line stands in a text.
fn times(text: &str, wanted: &str) -> u64 {
    let mut count: u64 = 0;
    for line in text.lines() {
        if line == wanted {
            count = count.saturating_add(1);
        }
    }
    count
}

/// Whether each line stands in another text at least as often.
fn is_part_of(text: &str, all: &str) -> bool {
    for line in text.lines() {
        if times(text, line) > times(all, line) {
            return false;
        }
    }
    true
}

/// Whether two texts have the same lines, in any order.
fn is_bag_of<R: Abort>(rt: &R, alloc: Global, one: &str, other: &str) -> bool {
    let one = settled(rt, alloc, one.as_bytes(), false);
    let other = settled(rt, alloc, other.as_bytes(), false);
    one.as_str() == other.as_str()
}

/// Whether what a STORE of a node has is due: as a list where its rows are one, else as a bag; a bare LIMIT keeps as many
/// of the rows that the STORE before has.
fn is_due<R: Abort>(
    rt: &R,
    alloc: Global,
    plan: &Plan,
    number: u32,
    got: &str,
    (want, before): (&str, &str),
) -> bool {
    if is_list(plan, number) {
        return got == want;
    }
    if bare_input(plan, number).is_some() {
        return got.lines().count() == want.lines().count() && is_part_of(got, before);
    }
    is_bag_of(rt, alloc, got, want)
}

/// What is told of the STORE with a number.
fn told_of(text: &str, number: usize) -> &str {
    text.split(".\n").nth(number).unwrap_or("")
}

/// Whether what is told of a plan is what another text tells of it, STORE by STORE.
pub fn agree<R: Abort>(rt: &R, alloc: Global, plan: &Plan, got: &str, want: &str) -> bool {
    let mut place: usize = 0;
    for node in plan.nodes().as_slice() {
        if let NodeOp::Store { input, .. } = &node.op {
            let due = told_of(want, place);
            let before = told_of(want, place.saturating_sub(1));
            if !is_due(rt, alloc, plan, *input, told_of(got, place), (due, before)) {
                return false;
            }
            place = place.saturating_add(1);
        }
    }
    got.split(".\n").count() == place.saturating_add(1)
}
