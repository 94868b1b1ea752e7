// Random plans over random inputs: what their tasks give is what the plain answer has.
use crate::comparing::{add, agree, settled};
use crate::making::{random_inputs, random_plan};
use crate::plans::plan;
use crate::running::{Turn, by_tasks};
use crate::setting::inputs;
use pig_chance_tests::Chance;
use pig_plain::answer;
use pig_plan::Plan;
use pig_text::write_row;
use pig_value::{Delim, Inputs, Rows};
use std::alloc::Global;
use std::process::Abort;
use std::thread::Threads;

/// The text of rows.
fn text_of<R: Abort>(rt: &R, alloc: Global, rows: &Rows) -> Vec<u8> {
    let mut bytes = Vec::new(alloc);
    for row in rows.as_slice() {
        write_row(row, Delim::tab(), &mut bytes).expect(rt, "memory");
    }
    bytes
}

/// What a plan means over inputs: the lines of each STORE, in their order.
fn by_answer<R: Abort>(rt: &R, alloc: Global, plan: &Plan, inputs: &Inputs) -> String {
    let found = answer(alloc, plan, inputs).expect(rt, "memory");
    let mut told = String::new(alloc);
    for rows in found.stores.as_slice() {
        let bytes = text_of(rt, alloc, rows);
        let lines = settled(rt, alloc, bytes.as_slice(), true);
        add(rt, &mut told, lines.as_str());
    }
    drop(found);
    told
}

/// Each number of hosts with each split and each number of reducers, below 18.
fn turn(number: u32) -> Turn {
    let hosts = match number % 3 {
        0 => 1,
        1 => 2,
        _ => 4,
    };
    let split = match number / 3 % 3 {
        0 => 1,
        1 => 3,
        _ => 1000,
    };
    Turn {
        hosts,
        split,
        reducers: if number < 9 { 1 } else { 3 },
        fails: &[],
    }
}

/// The first turn of a plan that gives what it doesn't mean, and what it gave; nothing where there is none.
fn wrong_turn<R: Threads + Sync + Abort>(
    rt: &R,
    alloc: Global,
    words: &str,
    texts: &str,
) -> String {
    let plan = plan(rt, alloc, words);
    let inputs = inputs(rt, alloc, texts);
    let want = by_answer(rt, alloc, &plan, &inputs);
    let mut wrong = String::new(alloc);
    for number in 0..18 {
        let got = by_tasks(rt, alloc, &plan, &inputs, turn(number), true);
        if !agree(rt, alloc, &plan, got.as_str(), want.as_str()) {
            wrong = format!(in alloc; "turn {number}: {got} for {want}").expect(rt, "memory");
        }
    }
    drop((plan, inputs));
    wrong
}

/// So many plans, the first of them by this number.
fn check<R: Threads + Sync + Abort>(rt: &R, alloc: Global, first: u64, plans: u64, operators: u32) {
    for seed in first..first.saturating_add(plans) {
        let mut chance = Chance::new(seed);
        let words = random_plan(rt, alloc, &mut chance, operators);
        let texts = random_inputs(rt, alloc, &mut chance);
        let wrong = wrong_turn(rt, alloc, words.as_str(), texts.as_str());
        assert_eq!(rt; wrong.as_str(), "", "{words} over {texts}");
    }
}

#[test]
fn plans_of_two_operators(rt: HostRuntime) {
    check(&rt, rt.alloc(), 1000, 100, 2);
}

#[test]
fn plans_of_three_operators(rt: HostRuntime) {
    check(&rt, rt.alloc(), 2000, 100, 3);
}

#[test]
fn plans_of_five_operators(rt: HostRuntime) {
    check(&rt, rt.alloc(), 3000, 60, 5);
}
