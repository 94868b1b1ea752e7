// Plans, and what is live of them once conditions have moved. Where memory is wanting the process
// ends: that drops nothing, so its proof is short. Trees end by `drop`: one call is cheap to prove,
// and a tree that dies by name is taken apart variant by variant.
use pig_nodes_tests::{add_fitting, digit, flat, item, keyed, load, operator, store};
use pig_plan::{KeyedInput, KeyedInputs, NodeOp, Plan, live_numbers};
use pig_push::push;
use pig_typed::{Block, BlockItem, BlockItems, BlockSteps, TExpr, TExprs, TLink, TLinks};
use pig_value::{Boxed, ChainOp, Rel, Seq, Side};
use std::alloc::Global;
use std::process::Abort;

/// Adds to a list.
fn put<R: Abort, T: Drop>(rt: &R, list: &mut Seq<T>, item: T) {
    list.push(item).expect(rt, "memory");
}

/// Adds to a text.
fn add<R: Abort>(rt: &R, into: &mut String, text: &str) {
    into.push_str(text).expect(rt, "memory");
}

/// Adds a number to a text.
fn add_number<R: Abort>(rt: &R, alloc: Global, into: &mut String, number: u32) {
    let digits = format!(in alloc; "{number}").expect(rt, "memory");
    add(rt, into, digits.as_str());
}

/// That a column is there.
fn is_there<R: Abort>(rt: &R, alloc: Global, column: u32) -> TExpr {
    TExpr::IsNull {
        a: Boxed::new(alloc, TExpr::Field(column)).expect(rt, "memory"),
        not: true,
    }
}

/// That the first two columns are there, or one of them.
fn first_two<R: Abort>(rt: &R, alloc: Global, op: ChainOp) -> TExpr {
    let first = is_there(rt, alloc, 0);
    let mut rest = TLinks::new(alloc);
    let a = is_there(rt, alloc, 1);
    put(rt, &mut rest, TLink { op, a });
    TExpr::Chain {
        first: Boxed::new(alloc, first).expect(rt, "memory"),
        rest,
    }
}

/// That columns 0 and 2 are equal.
fn are_equal<R: Abort>(rt: &R, alloc: Global) -> TExpr {
    TExpr::Compare {
        op: Rel::Eq,
        a: Boxed::new(alloc, TExpr::Field(0)).expect(rt, "memory"),
        b: Boxed::new(alloc, TExpr::Field(2)).expect(rt, "memory"),
    }
}

/// That a column is there; `t` for what always holds, `n` for the first two columns in a chain of
/// their own, `o` for one of them, `x` for columns 0 and 2 that are equal, `p` for the first column itself.
fn test<R: Abort>(rt: &R, alloc: Global, byte: u8) -> TExpr {
    match byte {
        b't' => TExpr::Bool(true),
        b'n' => first_two(rt, alloc, ChainOp::And),
        b'o' => first_two(rt, alloc, ChainOp::Or),
        b'x' => are_equal(rt, alloc),
        b'p' => TExpr::Field(0),
        _ => is_there(rt, alloc, digit(byte)),
    }
}

/// All of these tests.
fn tests<R: Abort>(rt: &R, alloc: Global, bytes: &[u8]) -> TExpr {
    let [first, more @ ..] = bytes else {
        return TExpr::Bool(true);
    };
    let first = test(rt, alloc, *first);
    if more.is_empty() {
        return first;
    }
    let mut rest = TLinks::new(alloc);
    for byte in more {
        let (op, a) = (ChainOp::And, test(rt, alloc, *byte));
        put(rt, &mut rest, TLink { op, a });
    }
    TExpr::Chain {
        first: Boxed::new(alloc, first).expect(rt, "memory"),
        rest,
    }
}

/// An item of a FOREACH: a column, or `c` for what is computed. Under FLATTEN stand `F`, the first
/// column of one field, `T`, that of two, and `B`, the second column of three.
fn item_of(byte: u8) -> BlockItem {
    match byte {
        b'c' => item(TExpr::Int(1)),
        b'F' => flat(TExpr::Field(0), 1),
        b'T' => flat(TExpr::Field(0), 2),
        b'B' => flat(TExpr::Field(1), 3),
        _ => item(TExpr::Field(digit(byte))),
    }
}

fn block<R: Abort>(rt: &R, alloc: Global, bytes: &[u8]) -> Block {
    let mut items = BlockItems::new(alloc);
    for byte in bytes {
        put(rt, &mut items, item_of(*byte));
    }
    Block {
        steps: BlockSteps::new(alloc),
        items,
    }
}

/// A key: a column, or what is computed: `c`, and `n` and `o` as tests have them.
fn key<R: Abort>(rt: &R, alloc: Global, byte: u8) -> TExpr {
    match byte {
        b'n' => test(rt, alloc, byte),
        b'o' => test(rt, alloc, byte),
        _ => item_of(byte).value,
    }
}

/// A GROUP by keys.
fn group<R: Abort>(rt: &R, alloc: Global, input: u32, bytes: &[u8]) -> NodeOp {
    let mut keys = TExprs::new(alloc);
    for byte in bytes {
        put(rt, &mut keys, key(rt, alloc, *byte));
    }
    let inner = false;
    let mut inputs = KeyedInputs::new(alloc);
    put(rt, &mut inputs, KeyedInput { input, keys, inner });
    NodeOp::Group { inputs }
}

/// A JOIN of a side, by the first columns: `i`, `l`, `r`, `f`, and `L` for a replicated LEFT.
fn join<R: Abort>(rt: &R, alloc: Global, letter: u8, bytes: &[u8]) -> NodeOp {
    let mut inputs = KeyedInputs::new(alloc);
    for byte in bytes {
        let keyed = keyed(alloc, digit(*byte), TExpr::Field(0), false);
        put(rt, &mut inputs, keyed.expect(rt, "memory"));
    }
    let side = match letter {
        b'i' => Side::Inner,
        b'r' => Side::Right,
        b'f' => Side::Full,
        _ => Side::Left,
    };
    NodeOp::Join {
        inputs,
        side,
        replicated: letter == b'L',
    }
}

/// The node of a word: a letter, the digit of its input, and what else it has: `La`, `Mtbcc` (LOAD
/// of a tuple, a bag and two chararrays), `f001` (FILTER of node 0 where its columns 0 and 1 are
/// there), `g010` (FOREACH of node 0 with columns 1 and 0), `k01` (GROUP of node 0 by column 1),
/// `jl01` (LEFT JOIN of nodes 0 and 1), `d0`, `u01`, `o0`, `l0`, `a0`, `s4p`.
fn op<R: Abort>(rt: &R, alloc: Global, word: &str) -> NodeOp {
    let [letter, first, more @ ..] = word.as_bytes() else {
        return load(alloc, "cc", "c").expect(rt, "memory");
    };
    let input = digit(*first);
    match *letter {
        b'f' => NodeOp::Filter {
            input,
            cond: tests(rt, alloc, more),
        },
        b'g' => NodeOp::Foreach {
            input,
            block: block(rt, alloc, more),
        },
        b'k' => group(rt, alloc, input, more),
        b'j' => join(rt, alloc, *first, more),
        b'a' => NodeOp::Assert {
            input,
            cond: TExpr::Bool(true),
            message: None,
        },
        b'M' => {
            let kinds = word.strip_prefix("M").unwrap_or("");
            load(alloc, kinds, "a").expect(rt, "memory")
        }
        b'L' => load(alloc, "cc", "a").expect(rt, "memory"),
        _ => operator(alloc, word).expect(rt, "memory"),
    }
}

/// The plan of words, each a node.
fn plan<R: Abort>(rt: &R, alloc: Global, words: &str) -> Plan {
    let mut plan = Plan::empty(alloc);
    let mut statement = 1;
    for word in words.split(' ') {
        let op = op(rt, alloc, word);
        add_fitting(&mut plan, op, statement).expect(rt, "memory");
        statement = if statement < 99 { statement + 1 } else { 99 };
    }
    plan
}

/// The column that a test asks for.
fn column<R: Abort>(rt: &R, alloc: Global, into: &mut String, e: &TExpr) {
    match e {
        TExpr::Field(n) => add_number(rt, alloc, into, *n),
        TExpr::Bool(_) => add(rt, into, "t"),
        TExpr::Int(_) => add(rt, into, "c"),
        TExpr::Compare { .. } => add(rt, into, "x"),
        TExpr::Chain { .. } => add(rt, into, "o"),
        _ => add(rt, into, "?"),
    }
}

fn tested<R: Abort>(rt: &R, alloc: Global, into: &mut String, e: &TExpr) {
    match e {
        TExpr::IsNull { a, not: _ } => column(rt, alloc, into, a.get()),
        _ => column(rt, alloc, into, e),
    }
}

/// Whether the links of a chain are ANDs, as all are or none in these plans.
fn is_and(links: &[TLink]) -> bool {
    match links.first() {
        Some(link) => matches!(link.op, ChainOp::And),
        None => true,
    }
}

/// The columns that tests ask for; those of a chain within one stand in brackets.
fn chained<R: Abort>(rt: &R, alloc: Global, into: &mut String, e: &TExpr) {
    match e {
        TExpr::Chain { first, rest } if is_and(rest.as_slice()) => {
            add(rt, into, "[");
            tested(rt, alloc, into, first.get());
            for link in rest.as_slice() {
                add(rt, into, ",");
                tested(rt, alloc, into, &link.a);
            }
            add(rt, into, "]");
        }
        _ => tested(rt, alloc, into, e),
    }
}

/// The columns that a condition asks for, those of a chain in their order.
fn asked<R: Abort>(rt: &R, alloc: Global, into: &mut String, e: &TExpr) {
    match e {
        TExpr::Chain { first, rest } if is_and(rest.as_slice()) => {
            add(rt, into, "(");
            chained(rt, alloc, into, first.get());
            for link in rest.as_slice() {
                add(rt, into, ",");
                chained(rt, alloc, into, &link.a);
            }
            add(rt, into, ")");
        }
        _ => tested(rt, alloc, into, e),
    }
}

fn op_told<R: Abort>(rt: &R, alloc: Global, into: &mut String, op: &NodeOp) {
    match op {
        NodeOp::Load { .. } => add(rt, into, "L"),
        NodeOp::Filter { input: _, cond } => {
            add(rt, into, "f");
            asked(rt, alloc, into, cond);
        }
        NodeOp::Foreach { .. } => add(rt, into, "g"),
        NodeOp::Distinct { .. } => add(rt, into, "d"),
        NodeOp::Group { .. } => add(rt, into, "k"),
        NodeOp::Join {
            replicated: true,
            ..
        } => add(rt, into, "J"),
        NodeOp::Join { .. } => add(rt, into, "j"),
        NodeOp::Store { .. } => add(rt, into, "s"),
        _ => add(rt, into, "-"),
    }
}

/// A live node: its number, its operator, and the numbers of its inputs.
fn node_told<R: Abort>(rt: &R, alloc: Global, into: &mut String, plan: &Plan, number: usize) {
    let own = format!(in alloc; " {number}").expect(rt, "memory");
    add(rt, into, own.as_str());
    if let Some(node) = plan.nodes().get(number) {
        op_told(rt, alloc, into, &node.op);
        let inputs = node.op.inputs(alloc).expect(rt, "memory");
        for input in inputs.as_slice() {
            let named = format!(in alloc; ".{input}").expect(rt, "memory");
            add(rt, into, named.as_str());
        }
    }
}

/// The live nodes of the plan once its conditions have moved.
fn told<R: Abort>(rt: &R, alloc: Global, words: &str) -> String {
    let pushed = push(alloc, plan(rt, alloc, words)).expect(rt, "memory");
    let live = live_numbers(alloc, &pushed).expect(rt, "memory");
    let mut told = String::new(alloc);
    for number in live.as_slice() {
        node_told(rt, alloc, &mut told, &pushed, *number);
    }
    drop(pushed);
    told
}

// The words of a plan, and the live nodes once conjuncts have moved: below a FILTER, a DISTINCT, a
// FOREACH that hands the columns on, also behind a FLATTEN, a UNION to each distinct input, a GROUP
// by one key, computed or not, which stands in the place of the group, and a JOIN to the input whose
// columns are named, where its rows all stand among the joined ones; not below an item that is
// computed, what FLATTEN makes, a bag, several keys, ORDER, LIMIT, ASSERT or LOAD, nor below what two
// nodes read.
const TOLD: &str = "La f00 f11 s2p: 0L 2f(0,1).0 3s.2
La f001 f11 s2p: 0L 2f(0,1,1).0 3s.2
La f0n f11 s2p: 0L 2f(0,1,1).0 3s.2
La f0n1 f1n s2p: 0L 2f(0,1,1,0,1).0 3s.2
La d0 f10 s2p: 0L 1f0.0 2d.1 3s.2
La d0 f1t s2p: 0L 1ft.0 2d.1 3s.2
La d0 f1n0 s2p: 0L 1f([0,1],0).0 2d.1 3s.2
La g010 f10 s2p: 0L 1f1.0 2g.1 3s.2
La g010 f101 s2p: 0L 1f(1,0).0 2g.1 3s.2
La g010 f1t s2p: 0L 1ft.0 2g.1 3s.2
La g010 f1o s2p: 0L 1fo.0 2g.1 3s.2
La g01c f1o s2p: 0L 1g.0 2fo.1 3s.2
La g01c f10 s2p: 0L 1f1.0 2g.1 3s.2
La g01c f11 s2p: 0L 1g.0 2f1.1 3s.2
La g01c f101 s2p: 0L 1f1.0 2g.1 3f1.2 4s.3
La g01c f110t0 s2p: 0L 1f(1,t,1).0 2g.1 3f1.2 4s.3
La g01F f10 s2p: 0L 1f1.0 2g.1 3s.2
La g0F1 f11 s2p: 0L 1f1.0 2g.1 3s.2
La g0F1 f10 s2p: 0L 1g.0 2f0.1 3s.2
La g0F1c f12 s2p: 0L 1g.0 2f2.1 3s.2
Mtbcc g0T2 f12 s2p: 0L 1f2.0 2g.1 3s.2
Mtbcc g0T2 f11 s2p: 0L 1g.0 2f1.1 3s.2
Mtbcc g0T23 f12 s2p: 0L 1f2.0 2g.1 3s.2
Mtbcc g0T23 f13 s2p: 0L 1f3.0 2g.1 3s.2
Mtbcc g0B23 f12 s2p: 0L 1g.0 2f2.1 3s.2
Mtbcc g0B23 f13 s2p: 0L 1f2.0 2g.1 3s.2
Mtbcc g02TB3 f10 s2p: 0L 1f2.0 2g.1 3s.2
Mtbcc g02TB3 f13 s2p: 0L 1g.0 2f3.1 3s.2
Mtbcc g02TB3 f15 s2p: 0L 1g.0 2f5.1 3s.2
Mtbcc g02TB3 f16 s2p: 0L 1f3.0 2g.1 3s.2
Mtbcc g0T2T3 f12513 s2p: 0L 1f(2,3).0 2g.1 3f(1,3).2 4s.3
Mtbcc d0 g1B32 f23 f34 s4p: 0L 1f(3,2).0 2d.1 4g.2 5s.4
La d0 g110 f20 s3p: 0L 1f1.0 2d.1 3g.2 4s.3
La d0 g11c f210 s3p: 0L 1f1.0 2d.1 3g.2 4f1.3 5s.4
La f00 d1 f21 s3p: 0L 2f(0,1).0 3d.2 4s.3
La g01c f11 f20 s3p: 0L 1f1.0 3g.1 4f1.3 5s.4
La o0 f10 s2p: 0L 1-.0 2f0.1 3s.2
La l0 f10 s2p: 0L 1-.0 2f0.1 3s.2
La a0 f10 s2p: 0L 1-.0 2f0.1 3s.2
La u00 f10 s2p: 0L 2f0.0 3-.2.2 4s.3
La u00 f101 s2p: 0L 2f(0,1).0 3-.2.2 4s.3
La u00 f1t s2p: 0L 2ft.0 3-.2.2 4s.3
La Lb u01 f20 s3p: 0L 1L 3f0.0 4f0.1 5-.3.4 6s.5
La Lb u10 f20 s3p: 0L 1L 3f0.1 4f0.0 5-.3.4 6s.5
La d0 u10 f20 s3p: 0L 1f0.0 3d.1 4f0.0 5-.3.4 6s.5
La u00 f10 u12 s3p: 0L 1-.0.0 2f0.1 3-.1.2 4s.3
La k01 f10 s2p: 0L 1f1.0 2k.1 3s.2
La k01 f1t s2p: 0L 1ft.0 2k.1 3s.2
La k01 f11 s2p: 0L 1k.0 2f1.1 3s.2
La k01 f101 s2p: 0L 1f1.0 2k.1 3f1.2 4s.3
La k001 f10 s2p: 0L 1k.0 2f0.1 3s.2
La k0c f10 s2p: 0L 1fc.0 2k.1 3s.2
La k0c f1t s2p: 0L 1ft.0 2k.1 3s.2
La k0c f11 s2p: 0L 1k.0 2f1.1 3s.2
La k0o f10 s2p: 0L 1fo.0 2k.1 3s.2
La k0o f1p s2p: 0L 1fo.0 2k.1 3s.2
La k0o f101 s2p: 0L 1fo.0 2k.1 3f1.2 4s.3
La k0n f1p s2p: 0L 1f(0,1).0 2k.1 3s.2
La k0on f10 s2p: 0L 1k.0 2f0.1 3s.2
La d0 k1n f2p s3p: 0L 1f(0,1).0 2d.1 3k.2 4s.3
La g01c k1n f2p s3p: 0L 1f1.0 2g.1 3f1.2 4k.3 5s.4
La f00 s1p: 0L 1f0.0 2s.1
La d0 f10 u12 s3p: 0L 1d.0 2f0.1 3-.1.2 4s.3
La d0 f10 d1 s2p: 0L 1f0.0 2d.1 4s.2
La d0 f10 u22 s3p: 0L 1f0.0 2d.1 3-.2.2 4s.3
La Lb ji01 d2 f31 s4p: 0L 1L 2f1.0 3j.2.1 4d.3 5s.4
La Lb ji01 d2 f313 s4p: 0L 1L 2f1.0 3f1.1 4j.2.3 5d.4 6s.5
La Lb jl01 f213 s3p: 0L 1L 2f1.0 3j.2.1 4f3.3 5s.4
La Lb jl01 f21 s3p: 0L 1L 2f1.0 3j.2.1 4s.3
La Lb jl01 f23 s3p: 0L 1L 2j.0.1 3f3.2 4s.3
La Lb jL01 f213 s3p: 0L 1L 2f1.0 3J.2.1 4f3.3 5s.4
La Lb jl01 f2n3 s3p: 0L 1L 2f(0,1).0 3j.2.1 4f3.3 5s.4
La Lb jr01 f213 s3p: 0L 1L 2f1.1 3j.0.2 4f1.3 5s.4
La Lb jf01 f213 s3p: 0L 1L 2j.0.1 3f(1,3).2 4s.3
La Lb ji01 f213 s3p: 0L 1L 2f1.0 3f1.1 4j.2.3 5s.4
La Lb ji01 f2031 s3p: 0L 1L 2f(0,1).0 3f1.1 4j.2.3 5s.4
La Lb ji01 f2x s3p: 0L 1L 2j.0.1 3fx.2 4s.3
La Lb ji01 f2x3 s3p: 0L 1L 2f1.1 3j.0.2 4fx.3 5s.4
La Lb ji01 f2t s3p: 0L 1L 2j.0.1 3ft.2 4s.3
La Lb ji01 f2t1 s3p: 0L 1L 2f1.0 3j.2.1 4ft.3 5s.4
La Lb Lc ji012 f35 s4p: 0L 1L 2L 3f1.2 4j.0.1.3 5s.4
La ji00 f113 s2p: 0L 1f1.0 2f1.0 3j.1.2 4s.3
La ji00 f13 s2p: 0L 1f1.0 2j.0.1 3s.2
La Lb f00 ji21 f30 s4p: 0L 1L 3f(0,0).0 4j.3.1 5s.4
";

#[test]
fn where_conjuncts_go(rt: HostRuntime) {
    for line in TOLD.lines() {
        let (words, want) = line.split_once(':').unwrap_or((line, ""));
        let got = told(&rt, rt.alloc(), words);
        assert_eq!(rt; got.as_str(), want, "at {words}");
    }
}

/// A plan of so many FILTERs, each on the one before.
fn filters<R: Abort>(rt: &R, alloc: Global, count: u32) -> Plan {
    let mut plan = Plan::empty(alloc);
    let op = load(alloc, "cc", "a").expect(rt, "memory");
    let statement = 1;
    add_fitting(&mut plan, op, statement).expect(rt, "memory");
    for input in 0..count {
        let cond = is_there(rt, alloc, input & 1);
        let op = NodeOp::Filter { input, cond };
        add_fitting(&mut plan, op, statement).expect(rt, "memory");
    }
    let op = store(alloc, count, "p").expect(rt, "memory");
    add_fitting(&mut plan, op, statement).expect(rt, "memory");
    plan
}

/// How many tests stand in the chain of the FILTER at a number.
fn tests_at(plan: &Plan, number: usize) -> usize {
    let Some(node) = plan.nodes().get(number) else {
        return 0;
    };
    match &node.op {
        NodeOp::Filter {
            input: 0,
            cond: TExpr::Chain { first: _, rest },
        } => rest.len(),
        _ => 0,
    }
}

#[test]
fn a_thousand_filters_are_one(rt: HostRuntime) {
    let pushed = push(rt.alloc(), filters(&rt, rt.alloc(), 1000)).expect(&rt, "memory");
    let live = live_numbers(rt.alloc(), &pushed).expect(&rt, "memory");
    assert_eq!(rt; live.len(), 3);
    assert_eq!(rt; tests_at(&pushed, 1000), 999);
    drop(pushed);
}

/// That the one column does not hold, and that it holds, twice.
fn negated<R: Abort>(rt: &R, alloc: Global) -> TExpr {
    TExpr::Not(Boxed::new(alloc, TExpr::Field(0)).expect(rt, "memory"))
}

fn doubled<R: Abort>(rt: &R, alloc: Global) -> TExpr {
    let mut rest = TLinks::new(alloc);
    let a = TExpr::Field(0);
    put(rt, &mut rest, TLink { op: ChainOp::Or, a });
    TExpr::Chain {
        first: Boxed::new(alloc, TExpr::Field(0)).expect(rt, "memory"),
        rest,
    }
}

/// A FOREACH of one item.
fn made<R: Abort>(rt: &R, alloc: Global, input: u32, value: TExpr) -> NodeOp {
    let mut items = BlockItems::new(alloc);
    put(rt, &mut items, item(value));
    let steps = BlockSteps::new(alloc);
    NodeOp::Foreach {
        input,
        block: Block { steps, items },
    }
}

fn grouped<R: Abort>(rt: &R, alloc: Global, input: u32, key: TExpr) -> NodeOp {
    let keyed = keyed(alloc, input, key, false).expect(rt, "memory");
    let mut inputs = KeyedInputs::new(alloc);
    put(rt, &mut inputs, keyed);
    NodeOp::Group { inputs }
}

/// A FILTER by a boolean column over so many GROUPs in turn, each by a key of the one before.
fn groups<R: Abort>(rt: &R, alloc: Global, count: u32, twice: bool) -> Plan {
    let mut plan = Plan::empty(alloc);
    let statement = 1;
    let op = load(alloc, "cc", "a").expect(rt, "memory");
    add_fitting(&mut plan, op, statement).expect(rt, "memory");
    let op = made(rt, alloc, 0, is_there(rt, alloc, 0));
    add_fitting(&mut plan, op, statement).expect(rt, "memory");
    let mut last: u32 = 1;
    for _ in 0..count {
        let key = if twice {
            doubled(rt, alloc)
        } else {
            negated(rt, alloc)
        };
        let op = grouped(rt, alloc, last, key);
        add_fitting(&mut plan, op, statement).expect(rt, "memory");
        let op = made(rt, alloc, last.saturating_add(1), TExpr::Field(0));
        add_fitting(&mut plan, op, statement).expect(rt, "memory");
        last = last.saturating_add(2);
    }
    let cond = TExpr::Field(0);
    let op = NodeOp::Filter { input: last, cond };
    add_fitting(&mut plan, op, statement).expect(rt, "memory");
    let op = store(alloc, last.saturating_add(1), "p").expect(rt, "memory");
    add_fitting(&mut plan, op, statement).expect(rt, "memory");
    plan
}

/// Whether the condition passes all of them.
fn is_pushed<R: Abort>(rt: &R, alloc: Global, count: u32, twice: bool) -> bool {
    let Ok(pushed) = push(alloc, groups(rt, alloc, count, twice)) else {
        return false;
    };
    let lowest = match pushed.nodes().get(2) {
        Some(node) => matches!(node.op, NodeOp::Filter { .. }),
        None => false,
    };
    drop(pushed);
    lowest
}

// A condition takes the key of each GROUP that it passes: a level deeper each, or twice as large. Past
// 2,048 levels, and past 2 to the 20 nodes (with k of the keys it has 2 to the k + 1 but one), there is
// no memory.
#[test]
fn conditions_grow_up_to_a_bound(rt: HostRuntime) {
    assert!(rt; is_pushed(&rt, rt.alloc(), 2_048, false));
    assert!(rt; !is_pushed(&rt, rt.alloc(), 2_049, false));
    assert!(rt; is_pushed(&rt, rt.alloc(), 12, true));
    assert!(rt; !is_pushed(&rt, rt.alloc(), 20, true));
}
