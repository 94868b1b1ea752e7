//! Nodes that fit a plan, and that don't. Where memory is wanting the process ends: that drops nothing, so its proof is
//! short.
// Trees end by `drop`: one call is cheap to prove, and a tree that dies by name is taken apart variant by variant.
use pig_plan::{KeyedInput, KeyedInputs, Node, NodeOp, Plan, copy_node};
use pig_typed::{Block, BlockItem, BlockItems, BlockSteps, SortKey, SortKeys, TExpr, TExprs};
use pig_value::{Boxed, Column, Columns, Delim, Dir, Kind, Kinds, Numbers, Rel, Seq, Side, Text};
use std::alloc::Global;
use std::process::Abort;

// A line for each node that is tried in turn: its letter, digits, and whether it fits; it is added where it does.
//
// LOAD of an int, a chararray and a bag of ints `L`, of a long `T`, with a position too low `X`, twice the same `Y`. Of
// the first digit's node: FILTER by a boolean `f`, by an int `i`, by a text with a line end `t`; STORE `s`; DISTINCT `d`;
// LIMIT `l` and ASSERT `A`, each with the statement of its kind, ASSERT of an int `I`; GROUP ALL `a`; FOREACH of a field
// and a flattened bag `F`, with a wrong width `W`; ORDER `o` and RANK `k` by the fields of the other digits. Parts between
// commas, an input and the fields of its keys: GROUP `g`, JOIN inner `j`, LEFT `e`, with INNER inputs `n`, LEFT
// replicated `r`, FULL replicated `R`. UNION of the digits `u`.
const TABLE: &str = "L +
L +
T +
X -
Y -
f0 +
i0 -
fZ -
t0 -
s0 +
f4 -
s4 -
d0 +
d4 -
o00 +
o010 +
o02 -
o09 -
o0 -
l0 +
l1 -
g00 +
g00,10 +
g001,101 +
g02 -
g00,20 -
g001,10 -
g0,1 -
gZ0 -
j00,10 +
j00 -
e00,10 +
e00,10,10 -
n00,10 -
r00,10 +
R00,10 -
u01 +
u02 -
u0 -
u0Z -
a0 +
aZ -
F0 +
W0 -
FZ -
A0 +
A1 -
I0 -
k00 +
k02 -
k0 -";

/// Adds to a list.
fn push<R: Abort, T: Drop>(rt: &R, list: &mut Seq<T>, item: T) {
    list.push(item).expect(rt, "memory");
}

/// The digit at a place of the line, or 0 where there is none.
fn digit(line: &[u8], at: usize) -> u32 {
    match line.get(at) {
        Some(byte) => u32::from(byte.saturating_sub(b'0')),
        None => 0,
    }
}

fn columns<R: Abort>(rt: &R, alloc: Global, positions: &[u32], kinds: Kinds) -> Columns {
    let mut columns = Columns::new(alloc);
    for (position, kind) in positions.iter().zip(kinds.into_vec()) {
        let position = *position;
        push(rt, &mut columns, Column { position, kind });
    }
    columns
}

fn ints<R: Abort>(rt: &R, alloc: Global) -> Kinds {
    let mut kinds = Kinds::new(alloc);
    push(rt, &mut kinds, Kind::Int);
    kinds
}

fn three_kinds<R: Abort>(rt: &R, alloc: Global) -> Kinds {
    let mut kinds = Kinds::new(alloc);
    push(rt, &mut kinds, Kind::Int);
    push(rt, &mut kinds, Kind::Chararray);
    push(rt, &mut kinds, Kind::Bag(ints(rt, alloc)));
    kinds
}

fn longs<R: Abort>(rt: &R, alloc: Global) -> Kinds {
    let mut kinds = Kinds::new(alloc);
    push(rt, &mut kinds, Kind::Long);
    kinds
}

fn load_columns<R: Abort>(rt: &R, alloc: Global, letter: u8) -> Columns {
    match letter {
        b'L' => columns(rt, alloc, &[0, 1, 2], three_kinds(rt, alloc)),
        b'X' => columns(rt, alloc, &[0, 2, 1], three_kinds(rt, alloc)),
        b'Y' => columns(rt, alloc, &[0, 1, 1], three_kinds(rt, alloc)),
        _ => columns(rt, alloc, &[0], longs(rt, alloc)),
    }
}

fn load_op<R: Abort>(rt: &R, alloc: Global, letter: u8) -> NodeOp {
    let columns = load_columns(rt, alloc, letter);
    NodeOp::Load {
        path: Text::from_str(alloc, "in").expect(rt, "memory"),
        delim: Delim::tab(),
        columns,
    }
}

fn equal<R: Abort>(rt: &R, alloc: Global, a: TExpr, b: TExpr) -> TExpr {
    let b = Boxed::new(alloc, b).expect(rt, "memory");
    let a = Boxed::new(alloc, a).expect(rt, "memory");
    TExpr::Compare { op: Rel::Eq, a, b }
}

/// A field compared with itself, one compared with a text, or a field alone.
fn condition<R: Abort>(rt: &R, alloc: Global, letter: u8) -> TExpr {
    match letter {
        b'f' | b'A' => equal(rt, alloc, TExpr::Field(0), TExpr::Field(0)),
        b't' => {
            let lines = Text::from_str(alloc, "a\nb").expect(rt, "memory");
            equal(rt, alloc, TExpr::Field(1), TExpr::Chars(lines))
        }
        _ => TExpr::Field(0),
    }
}

fn item(field: u32, flatten: bool, width: u32) -> BlockItem {
    BlockItem {
        value: TExpr::Field(field),
        flatten,
        width,
    }
}

fn block<R: Abort>(rt: &R, alloc: Global, width: u32) -> Block {
    let mut items = BlockItems::new(alloc);
    push(rt, &mut items, item(0, false, 1));
    push(rt, &mut items, item(2, true, width));
    Block {
        steps: BlockSteps::new(alloc),
        items,
    }
}

fn sort_key(position: u32) -> SortKey {
    SortKey {
        position,
        dir: Dir::Desc,
    }
}

fn sort_keys<R: Abort>(rt: &R, alloc: Global, line: &[u8]) -> SortKeys {
    let mut keys = SortKeys::new(alloc);
    for at in 2..line.len() {
        push(rt, &mut keys, sort_key(digit(line, at)));
    }
    keys
}

fn key_fields<R: Abort>(rt: &R, alloc: Global, part: &[u8]) -> TExprs {
    let mut keys = TExprs::new(alloc);
    for at in 1..part.len() {
        push(rt, &mut keys, TExpr::Field(digit(part, at)));
    }
    keys
}

fn keyed_input(input: u32, keys: TExprs, inner: bool) -> KeyedInput {
    KeyedInput { input, keys, inner }
}

fn keyed<R: Abort>(rt: &R, alloc: Global, parts: &[u8], inner: bool) -> KeyedInputs {
    let mut inputs = KeyedInputs::new(alloc);
    for part in parts.split(|byte| *byte == b',') {
        let keys = key_fields(rt, alloc, part);
        push(rt, &mut inputs, keyed_input(digit(part, 0), keys, inner));
    }
    inputs
}

fn numbers<R: Abort>(rt: &R, alloc: Global, digits: &[u8]) -> Numbers {
    let mut inputs = Numbers::new(alloc);
    for at in 0..digits.len() {
        push(rt, &mut inputs, digit(digits, at));
    }
    inputs
}

fn side_of(letter: u8) -> Side {
    match letter {
        b'e' | b'r' => Side::Left,
        b'R' => Side::Full,
        _ => Side::Inner,
    }
}

/// FILTER, ASSERT and FOREACH.
fn row_op<R: Abort>(rt: &R, alloc: Global, letter: u8, input: u32) -> NodeOp {
    match letter {
        b'F' => NodeOp::Foreach {
            input,
            block: block(rt, alloc, 1),
        },
        b'W' => NodeOp::Foreach {
            input,
            block: block(rt, alloc, 2),
        },
        b'A' | b'I' => NodeOp::Assert {
            input,
            cond: condition(rt, alloc, letter),
            message: None,
        },
        _ => NodeOp::Filter {
            input,
            cond: condition(rt, alloc, letter),
        },
    }
}

/// The operators by key, and UNION.
fn key_op<R: Abort>(rt: &R, alloc: Global, letter: u8, rest: &[u8]) -> NodeOp {
    match letter {
        b'g' => NodeOp::Group {
            inputs: keyed(rt, alloc, rest, false),
        },
        b'u' => NodeOp::Union {
            inputs: numbers(rt, alloc, rest),
        },
        _ => NodeOp::Join {
            inputs: keyed(rt, alloc, rest, letter == b'n'),
            side: side_of(letter),
            replicated: letter == b'r' || letter == b'R',
        },
    }
}

fn sorted_op<R: Abort>(rt: &R, alloc: Global, letter: u8, line: &[u8]) -> NodeOp {
    let keys = sort_keys(rt, alloc, line);
    let input = digit(line, 1);
    if letter == b'o' {
        return NodeOp::Order { input, keys };
    }
    NodeOp::Rank {
        input,
        keys,
        dense: true,
    }
}

/// The operators without an expression.
fn plain_op<R: Abort>(rt: &R, alloc: Global, letter: u8, input: u32) -> NodeOp {
    match letter {
        b'd' => NodeOp::Distinct { input },
        b'l' => NodeOp::Limit { input, count: 2 },
        b'a' => NodeOp::GroupAll { input },
        _ => NodeOp::Store {
            input,
            path: Text::from_str(alloc, "out").expect(rt, "memory"),
            delim: Delim::tab(),
        },
    }
}

fn node_op<R: Abort>(rt: &R, alloc: Global, line: &[u8]) -> NodeOp {
    let [letter, rest @ ..] = line else {
        return load_op(rt, alloc, b'L');
    };
    match letter {
        b'L' | b'T' | b'X' | b'Y' => load_op(rt, alloc, *letter),
        b'f' | b'i' | b't' | b'A' | b'I' | b'F' | b'W' => {
            row_op(rt, alloc, *letter, digit(line, 1))
        }
        b'o' | b'k' => sorted_op(rt, alloc, *letter, line),
        b'd' | b'l' | b'a' | b's' => plain_op(rt, alloc, *letter, digit(line, 1)),
        _ => key_op(rt, alloc, *letter, rest),
    }
}

/// A copy of the line's node.
fn copied<R: Abort>(rt: &R, alloc: Global, line: &[u8]) -> Node {
    let op = node_op(rt, alloc, line);
    let node = Node { op, statement: 7 };
    let copied = copy_node(alloc, &node).expect(rt, "memory");
    drop(node);
    copied
}

/// Whether the line's node fits; it is added where it does.
fn tried<R: Abort>(rt: &R, alloc: Global, plan: &mut Plan, line: &[u8]) -> bool {
    let node = copied(rt, alloc, line);
    let Ok(fits) = plan.fits(&node) else {
        panic!(rt; "memory");
    };
    if fits {
        plan.add(node).expect(rt, "memory");
    } else {
        drop(node);
    }
    fits
}

fn width(plan: &Plan, node: u32) -> Option<usize> {
    plan.kinds(node).map(|kinds| kinds.len())
}

#[test]
fn nodes_fit_or_not(rt: HostRuntime) {
    let alloc = rt.alloc();
    let mut plan = Plan::empty(alloc);
    for line in TABLE.lines() {
        let (text, wanted) = line.split_once(' ').unwrap_or((line, ""));
        let fits = tried(&rt, alloc, &mut plan, text.as_bytes());
        assert!(rt; fits == (wanted == "+"), "{text}");
    }
    // A STORE, an ORDER, an inner JOIN, the FOREACH and the RANK.
    let widths = [
        width(&plan, 4),
        width(&plan, 6),
        width(&plan, 12),
        width(&plan, 17),
        width(&plan, 19),
    ];
    let nodes = plan.nodes().len();
    drop(plan);
    assert_eq!(rt; widths, [None, Some(3), Some(6), Some(2), Some(4)]);
    assert_eq!(rt; nodes, 20);
}

/// A plan of the nodes on these lines, which all fit.
fn planned<R: Abort>(rt: &R, alloc: Global, lines: &[&str]) -> Plan {
    let mut plan = Plan::empty(alloc);
    for line in lines {
        let fits = tried(rt, alloc, &mut plan, line.as_bytes());
        assert!(rt; fits, "{line}");
    }
    plan
}

/// Whether a node reads these.
fn reads<R: Abort>(rt: &R, alloc: Global, plan: &Plan, node: usize, wanted: &[u32]) -> bool {
    let Some(found) = plan.nodes().get(node) else {
        return false;
    };
    let inputs = found.op.inputs(alloc).expect(rt, "memory");
    inputs.as_slice() == wanted
}

#[test]
fn room_is_made_before_a_node(rt: HostRuntime) {
    let alloc = rt.alloc();
    let lines = ["L", "L", "f1", "j00,20", "u01", "s3"];
    let plan = planned(&rt, alloc, &lines);
    assert!(&rt; plan.nodes().len() > 1);
    let Ok(plan) = plan.with_room(1) else {
        panic!(&rt; "memory");
    };
    let nodes = plan.nodes().len();
    let unmoved = reads(&rt, alloc, &plan, 0, &[]);
    let room = reads(&rt, alloc, &plan, 1, &[]);
    let filter = reads(&rt, alloc, &plan, 3, &[2]);
    let join = reads(&rt, alloc, &plan, 4, &[0, 3]);
    let union = reads(&rt, alloc, &plan, 5, &[0, 2]);
    let store = reads(&rt, alloc, &plan, 6, &[4]);
    let widths = [
        width(&plan, 0),
        width(&plan, 1),
        width(&plan, 3),
        width(&plan, 4),
        width(&plan, 6),
    ];
    drop(plan);
    assert_eq!(rt; nodes, 7);
    assert!(rt; unmoved && room && filter && join && union && store);
    assert_eq!(rt; widths, [Some(3), Some(0), Some(3), Some(6), None]);
}
