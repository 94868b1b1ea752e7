// Plans, and what is live of them once nodes are shared. Where memory is wanting the process ends: that drops nothing, so its proof is
// short. Trees end by `drop`: one call is cheap to prove, and a tree that dies by name is taken apart variant by variant.
use pig_nodes_tests::{add_fitting, digit, operator};
use pig_plan::{NodeOp, Plan, live_numbers};
use pig_share::share;
use pig_typed::TExpr;
use pig_value::Text;
use std::alloc::Global;
use std::process::Abort;

/// Adds to a text.
fn add<R: Abort>(rt: &R, into: &mut String, text: &str) {
    into.push_str(text).expect(rt, "memory");
}

/// An ASSERT of a letter: `a` and `b` ask for other things, `m` and `n` ask as `a` does and have a message each.
fn assert_that<R: Abort>(rt: &R, alloc: Global, letter: u8, input: u32) -> NodeOp {
    let text = match letter {
        b'm' => "m",
        b'n' => "n",
        _ => "",
    };
    let message = if text.is_empty() {
        None
    } else {
        Some(Text::from_str(alloc, text).expect(rt, "memory"))
    };
    NodeOp::Assert {
        input,
        cond: TExpr::Bool(letter != b'b'),
        message,
    }
}

/// The node of a word: an ASSERT of a letter, as `a1`, or another operator.
fn op<R: Abort>(rt: &R, alloc: Global, word: &str) -> NodeOp {
    match word.as_bytes() {
        [letter, input, ..] if matches!(letter, b'a' | b'b' | b'm' | b'n') => {
            assert_that(rt, alloc, *letter, digit(*input))
        }
        _ => operator(alloc, word).expect(rt, "memory"),
    }
}

/// The plan of words, each a node, whose statements ascend or descend.
fn plan<R: Abort>(rt: &R, alloc: Global, words: &str, ascends: bool) -> Plan {
    let mut plan = Plan::empty(alloc);
    let mut statement: u32 = 50;
    for word in words.split(' ') {
        let op = op(rt, alloc, word);
        add_fitting(&mut plan, op, statement).expect(rt, "memory");
        statement = if ascends {
            statement.saturating_add(1)
        } else {
            statement.saturating_sub(1)
        };
    }
    plan
}

/// A live node: its number, and those of its inputs.
fn node_told<R: Abort>(rt: &R, alloc: Global, into: &mut String, plan: &Plan, number: usize) {
    let own = format!(in alloc; " {number}").expect(rt, "memory");
    add(rt, into, own.as_str());
    if let Some(node) = plan.nodes().get(number) {
        let inputs = node.op.inputs(alloc).expect(rt, "memory");
        for input in inputs.as_slice() {
            let named = format!(in alloc; ".{input}").expect(rt, "memory");
            add(rt, into, named.as_str());
        }
    }
}

/// The live nodes of the shared plan.
fn told<R: Abort>(rt: &R, alloc: Global, words: &str, ascends: bool) -> String {
    let shared = share(alloc, plan(rt, alloc, words, ascends)).expect(rt, "memory");
    let live = live_numbers(alloc, &shared).expect(rt, "memory");
    let mut told = String::new(alloc);
    for number in live.as_slice() {
        node_told(rt, alloc, &mut told, &shared, *number);
    }
    drop(shared);
    told
}

// The words of a plan, and the live nodes once they are shared.
const TOLD: &str = "La s0p: 0 1.0
La La u01 s2p: 0 2.0.0 3.2
La Lb u01 s2p: 0 1 2.0.1 3.2
La La f0 f1 u23 s4p: 0 2.0 4.2.2 5.4
La f0 d0 f0 u123 s4p: 0 1.0 2.0 4.1.2.1 5.4
La l0 l0 u12 s3p: 0 1.0 2.0 3.1.2 4.3
La o0 o0 l1 l2 u34 s5p: 0 1.0 3.1 5.3.3 6.5
La La s0p s1q: 0 2.0 3.0
La f0 s0p: 0 2.0
La La s1p: 1 2.1
La La La u12 s3p: 1 3.1.1 4.3
La Lb f0 f1 d0 d1 u2345 s6p: 0 1 2.0 3.1 4.0 5.1 6.2.3.4.5 7.6
La Lb La Lb d2 d3 d0 d1 u4567 s8p: 0 1 4.0 5.1 8.4.5.4.5 9.8
";

// The same of ASSERTs: the node that stays is the first, so its statement is the lower one.
const ASSERTS: &str = "La a0 a0 u12 s3p: 0 1.0 3.1.1 4.3
La La a0 a1 u23 s4p: 0 2.0 4.2.2 5.4
La m0 m0 u12 s3p: 0 1.0 3.1.1 4.3
La m0 n0 u12 s3p: 0 1.0 2.0 3.1.2 4.3
La a0 m0 u12 s3p: 0 1.0 2.0 3.1.2 4.3
La a0 b0 u12 s3p: 0 1.0 2.0 3.1.2 4.3
La Lb a0 a1 u23 s4p: 0 1 2.0 3.1 4.2.3 5.4
La a0 a0 s2p: 0 2.0 3.2
La a0 a0 a0 u23 s4p: 0 2.0 4.2.2 5.4
La a0 a1 s2p: 0 1.0 2.1 3.2
La a0 a1 La a3 a4 u25 s6p: 0 1.0 2.1 6.2.2 7.6
La o0 o0 a1 a2 u34 s5p: 0 1.0 3.1 5.3.3 6.5
La o0 a1 a1 l2 l3 u45 s6p: 0 1.0 2.1 4.2 6.4.4 7.6
La a0 a0 l1 l2 u34 s5p: 0 1.0 3.1 4.1 5.3.4 6.5
La a0 a0 f1 f2 u34 s5p: 0 1.0 3.1 5.3.3 6.5
";

// The same where an earlier node has a later statement: each ASSERT stays, and other nodes are shared.
const DESCENDING: &str = "La a0 a0 u12 s3p: 0 1.0 2.0 3.1.2 4.3
La La a0 a1 f2 f2 u345 s6p: 0 2.0 3.0 4.2 6.3.4.4 7.6
La La f0 f1 u23 s4p: 0 2.0 4.2.2 5.4
";

fn all_are_shared<R: Abort>(rt: &R, alloc: Global, rows: &str, ascends: bool) {
    for line in rows.lines() {
        let (words, want) = line.split_once(':').unwrap_or((line, ""));
        let got = told(rt, alloc, words, ascends);
        assert_eq!(rt; got.as_str(), want, "at {words}");
    }
}

#[test]
fn what_is_shared(rt: HostRuntime) {
    all_are_shared(&rt, rt.alloc(), TOLD, true);
}

#[test]
fn which_asserts_are_shared(rt: HostRuntime) {
    all_are_shared(&rt, rt.alloc(), ASSERTS, true);
}

#[test]
fn what_is_shared_out_of_order(rt: HostRuntime) {
    all_are_shared(&rt, rt.alloc(), DESCENDING, false);
}
