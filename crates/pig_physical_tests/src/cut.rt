//! What `heads` lists of plans, and `splits` of pieces. Where memory is wanting the process ends.
use pig_physical::{Sizes, Stages, WaveHead, WaveKind, Waves, heads, splits, which_fold};
use pig_plan::{Node, NodeOp, Plan};
use pig_storage::Split;
use pig_typed::{Block, BlockItem, BlockItems, BlockSteps, TExpr, TExprs};
use pig_value::{Columns, Delim, Function, Lengths, Numbers, Text};
use std::alloc::Global;
use std::process::Abort;

/// The number that a digit is.
fn digit(byte: u8) -> u32 {
    u32::from(byte.saturating_sub(b'0'))
}

fn text<R: Abort>(rt: &R, alloc: Global, text: &str) -> Text {
    Text::from_str(alloc, text).expect(rt, "memory")
}

/// A node that reads a node twice.
fn twice<R: Abort>(rt: &R, alloc: Global, input: u32) -> NodeOp {
    let mut inputs = Numbers::new(alloc);
    inputs.push(input).expect(rt, "memory");
    inputs.push(input).expect(rt, "memory");
    NodeOp::Union { inputs }
}

/// A FOREACH that counts the rows of a group.
fn counting<R: Abort>(rt: &R, alloc: Global, input: u32) -> NodeOp {
    let mut args = TExprs::new(alloc);
    args.push(TExpr::Field(1)).expect(rt, "memory");
    let function = Function::Count;
    let value = TExpr::Call { function, args };
    let mut items = BlockItems::new(alloc);
    let (flatten, width) = (false, 1);
    let item = BlockItem {
        value,
        flatten,
        width,
    };
    items.push(item).expect(rt, "memory");
    let steps = BlockSteps::new(alloc);
    let block = Block { steps, items };
    NodeOp::Foreach { input, block }
}

/// The node of a letter and of the digit of its input.
fn op<R: Abort>(rt: &R, alloc: Global, letter: u8, input: u32) -> NodeOp {
    let delim = Delim::tab();
    match letter {
        b'u' => twice(rt, alloc, input),
        b'c' => counting(rt, alloc, input),
        b'd' => NodeOp::Distinct { input },
        b'g' => NodeOp::GroupAll { input },
        b'l' => NodeOp::Limit { input, count: 1 },
        b's' => NodeOp::Store {
            input,
            path: text(rt, alloc, "out"),
            delim,
        },
        _ => NodeOp::Load {
            path: text(rt, alloc, "in"),
            delim,
            columns: Columns::new(alloc),
        },
    }
}

/// The plan of words, each a node.
fn plan<R: Abort>(rt: &R, alloc: Global, words: &str) -> Plan {
    let mut plan = Plan::empty(alloc);
    let mut statement = 1;
    for word in words.split(' ') {
        let (letter, input) = match word.as_bytes() {
            [letter, input, ..] => (*letter, digit(*input)),
            _ => (b'a', 0),
        };
        let op = op(rt, alloc, letter, input);
        add_fitting(rt, &mut plan, Node { op, statement });
        statement = if statement < 99 { statement + 1 } else { 99 };
    }
    plan
}

fn add_fitting<R: Abort>(rt: &R, plan: &mut Plan, node: Node) {
    let Ok(fits) = plan.fits(&node) else {
        panic!(rt; "memory");
    };
    if fits {
        plan.add(node).expect(rt, "memory");
    } else {
        drop(node);
    }
}

fn letter(kind: WaveKind) -> &'static str {
    match kind {
        WaveKind::Map => "m",
        WaveKind::Reduce => "r",
        WaveKind::Copy => "c",
        WaveKind::Probe => "p",
        WaveKind::Rank => "k",
        WaveKind::Store => "s",
    }
}

fn add_head<R: Abort>(rt: &R, alloc: Global, told: &mut String, head: &WaveHead) {
    let (kind, node) = (letter(head.kind), head.node);
    let combine = if head.combine { "+" } else { "" };
    let word = format!(in alloc; " {kind}{node}{combine}").expect(rt, "memory");
    told.push_str(word.as_str()).expect(rt, "memory");
}

/// The waves of a plan of words: the letter of the kind, the number of the node, and a plus where it combines.
fn waves<R: Abort>(rt: &R, alloc: Global, words: &str) -> String {
    let plan = plan(rt, alloc, words);
    let heads = heads(alloc, &plan).expect(rt, "memory");
    drop(plan);
    let mut told = String::new(alloc);
    for head in heads.as_slice() {
        add_head(rt, alloc, &mut told, head);
    }
    told
}

// The words of a plan, and its waves: without a STORE; stores alone; DISTINCT, LIMIT and GROUP; a node read twice by a
// UNION; a GROUP that folds, and one that has a second use.
const WAVES: &str = "a:
a0 d0:
a0 s0: s1
a0 s0 s0: s1
a0 d0 s1: m1+ r1 s2
a0 l0 s1: m1 r1 s2
a0 g0 s1: m1 r1 s2
a0 u0 d1 s2: m2+ r2 s3
a0 u0 u1 l2 d3 s4: m3 r3 m4+ r4 s5
a0 d0 l0 s2: m2 r2 s3
a0 g0 c1 s2: m1+ r1 s3
a0 g0 c1 s2 s1: m1 r1 s3
a0 g0 c1 c1 u2 s4 s3: m1 r1 s5
";

#[test]
fn waves_are_listed(rt: HostRuntime) {
    for line in WAVES.lines() {
        let (words, want) = line.split_once(':').unwrap_or((line, ""));
        let got = waves(&rt, rt.alloc(), words);
        assert_eq!(rt; got.as_str(), want, "at {words}");
    }
}

fn add_split<R: Abort>(rt: &R, alloc: Global, told: &mut String, split: &Split) {
    let Split { piece, from, to } = *split;
    let word = format!(in alloc; " {piece}.{from}-{to}").expect(rt, "memory");
    told.push_str(word.as_str()).expect(rt, "memory");
}

/// The splits of pieces whose lengths are digits, by the size of a split.
fn cut<R: Abort>(rt: &R, alloc: Global, split: &str, digits: &str) -> String {
    let mut lengths = Lengths::new(alloc);
    for byte in digits.as_bytes() {
        lengths.push(u64::from(digit(*byte))).expect(rt, "memory");
    }
    let size = match split.as_bytes() {
        [size, ..] => u64::from(digit(*size)).max(1),
        [] => 1,
    };
    let found = splits(alloc, &lengths, size).expect(rt, "memory");
    let mut told = String::new(alloc);
    for split in found.as_slice() {
        add_split(rt, alloc, &mut told, split);
    }
    told
}

// The size of a split, the lengths of pieces, and the splits: no piece, empty pieces, splits of one byte, one of all.
const SPLITS: &str = "2 :
2 0: 0.0-0
4 050: 0.0-0 1.0-4 1.4-5 2.0-0
1 3: 0.0-1 0.1-2 0.2-3
3 36: 0.0-3 1.0-3 1.3-6
7 9: 0.0-7 0.7-9
9 9: 0.0-9
9 12: 0.0-1 1.0-2
";

#[test]
fn splits_cover_pieces(rt: HostRuntime) {
    for line in SPLITS.lines() {
        let (words, want) = line.split_once(':').unwrap_or((line, ""));
        let (split, digits) = words.split_once(' ').unwrap_or((words, ""));
        let got = cut(&rt, rt.alloc(), split, digits);
        assert_eq!(rt; got.as_str(), want, "at {words}");
    }
}

#[test]
fn a_plan_of_no_node_has_no_wave(rt: HostRuntime) {
    let plan = Plan::empty(rt.alloc());
    let sizes = Sizes::new(rt.alloc());
    let folders = which_fold(rt.alloc(), &plan).expect(&rt, "memory");
    let stages = Stages::of(&plan, &sizes, 1, 1, Waves::new(rt.alloc()), folders);
    assert_eq!(rt; stages.waves(), 0);
    drop(stages);
}
