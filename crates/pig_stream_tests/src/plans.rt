//! A small plan, and text that is taken through some of its nodes. Where memory is wanting the process ends: that drops
//! nothing, so its proof is short.
// Trees end by `drop`: one call is cheap to prove, and a tree that dies by name is taken apart variant by variant.
ghost use Rattle.pig_value.specs.Valid.{IsValue};
ghost use Rattle.pig_plan.specs.Laws.{PlanLiteralsAre};
ghost use Rattle.pig_plan.specs.Plans.{plan_of};
ghost use Rattle.pig_stream.specs.Stepping.{plan_on};

use pig_plan::{Node, NodeOp, Plan};
use pig_stream::{Batch, Lines, Sink, Steps, StoredText, Window, drive, takings_join};
use pig_typed::{Block, BlockItem, TExpr};
use pig_value::{Boxed, Column, Columns, Delim, Function, Kind, Numbers, Rel, Seq, Text};
use std::alloc::Global;
use std::process::Abort;

fn push<R: Abort, T: Drop>(rt: &R, list: &mut Seq<T>, item: T) {
    list.push(item).expect(rt, "memory");
}

/// An int and a chararray.
pub fn columns<R: Abort>(rt: &R, alloc: Global) -> Columns {
    let mut columns = Columns::new(alloc);
    let (position, kind) = (0, Kind::Int);
    push(rt, &mut columns, Column { position, kind });
    let (position, kind) = (1, Kind::Chararray);
    push(rt, &mut columns, Column { position, kind });
    columns
}

fn load<R: Abort>(rt: &R, alloc: Global) -> NodeOp {
    NodeOp::Load {
        path: Text::from_str(alloc, "in").expect(rt, "memory"),
        delim: Delim::tab(),
        columns: columns(rt, alloc),
    }
}

/// A field above 1.
fn above<R: Abort>(rt: &R, alloc: Global, field: u32) -> TExpr {
    let b = Boxed::new(alloc, TExpr::Int(1)).expect(rt, "memory");
    let a = Boxed::new(alloc, TExpr::Field(field)).expect(rt, "memory");
    TExpr::Compare { op: Rel::Gt, a, b }
}

fn filter<R: Abort>(rt: &R, alloc: Global, input: u32) -> NodeOp {
    let cond = above(rt, alloc, 0);
    NodeOp::Filter { input, cond }
}

fn assertion<R: Abort>(rt: &R, alloc: Global, input: u32, field: u32) -> NodeOp {
    let cond = above(rt, alloc, field);
    let message = None;
    NodeOp::Assert {
        input,
        cond,
        message,
    }
}

fn item(value: TExpr, flatten: bool) -> BlockItem {
    BlockItem {
        value,
        flatten,
        width: 1,
    }
}

/// The words of a field, flattened.
fn flat_words<R: Abort>(rt: &R, alloc: Global, field: u32) -> BlockItem {
    let mut args = Seq::new(alloc);
    push(rt, &mut args, TExpr::Field(field));
    let function = Function::Tokenize;
    item(TExpr::Call { function, args }, true)
}

/// FOREACH: the words of a field and nothing else.
fn only_words<R: Abort>(rt: &R, alloc: Global, input: u32, field: u32) -> NodeOp {
    let mut items = Seq::new(alloc);
    push(rt, &mut items, flat_words(rt, alloc, field));
    let steps = Seq::new(alloc);
    NodeOp::Foreach {
        input,
        block: Block { steps, items },
    }
}

/// FOREACH: the words of the chararray, each with the int.
fn words<R: Abort>(rt: &R, alloc: Global, input: u32) -> NodeOp {
    let mut items = Seq::new(alloc);
    push(rt, &mut items, flat_words(rt, alloc, 1));
    push(rt, &mut items, item(TExpr::Field(0), false));
    let steps = Seq::new(alloc);
    NodeOp::Foreach {
        input,
        block: Block { steps, items },
    }
}

fn add<R: Abort>(rt: &R, plan: &mut Plan, op: NodeOp, statement: u32) {
    let node = Node { op, statement };
    let fits = plan.fits(&node).expect(rt, "memory");
    assert!(rt; fits, "a node that doesn't fit");
    plan.add(node).expect(rt, "memory");
}

/// LOAD 0; FILTER 1 and FOREACH 2 on it in turn; ASSERT 3 on the LOAD; ASSERT 4 on the FOREACH, of its second field; UNION 5
/// of the ASSERTs' inputs; FOREACH 6 on the LOAD and 7 on that, of words alone; each with a statement above its number by 1.
pub fn plan<R: Abort>(rt: &R, alloc: Global) -> Plan {
    let mut plan = Plan::empty(alloc);
    add(rt, &mut plan, load(rt, alloc), 1);
    add(rt, &mut plan, filter(rt, alloc, 0), 2);
    add(rt, &mut plan, words(rt, alloc, 1), 3);
    add(rt, &mut plan, assertion(rt, alloc, 0, 0), 4);
    add(rt, &mut plan, assertion(rt, alloc, 2, 1), 5);
    let mut inputs = Numbers::new(alloc);
    push(rt, &mut inputs, 2);
    push(rt, &mut inputs, 4);
    add(rt, &mut plan, NodeOp::Union { inputs }, 6);
    add(rt, &mut plan, only_words(rt, alloc, 0, 1), 7);
    add(rt, &mut plan, only_words(rt, alloc, 6, 0), 8);
    plan
}

/// Hands bytes in, block by block, and takes their rows through steps; answers how many came.
pub fn feed<R: Abort, K: Sink>(
    rt: &R,
    alloc: Global,
    lines: &mut Lines,
    steps: &mut Steps,
    sink: &mut K,
    bytes: &[u8],
    block: usize,
) -> u64
    requires { PlanLiteralsAre IsValue (plan_on steps.old) }
{
    let mut batch = Batch::new(alloc);
    let mut count: u64 = 0;
    let mut left = bytes;
    'parts: while let [first, rest @ ..] = left {
        let _ = first;
        let more = block.saturating_sub(1).min(rest.len());
        if lines.window.is_past() || lines.window.has_ended() {
            return count;
        }
        lines.window.hand_in(&left[..more + 1]).expect(rt, "memory");
        let came = drive(alloc, lines, steps, sink, &mut batch).expect(rt, "memory");
        count = count.wrapping_add(came);
        left = &rest[more..];
    }
    lines.window.end();
    let came = drive(alloc, lines, steps, sink, &mut batch).expect(rt, "memory");
    drop(batch);
    count.wrapping_add(came)
}

/// The lines that start in a range of a text, which comes in blocks of so many bytes.
#[derive(Clone, Copy, Drop)]
pub struct Range {
    pub from: usize,
    pub to: usize,
    pub block: usize,
}

/// The rows of a range, taken through nodes into a sink; the statements that they don't meet, and how many came.
pub fn through<R: Abort, K: Sink>(
    rt: &R,
    alloc: Global,
    path: &[u32],
    folded: &[bool],
    text: &[u8],
    range: Range,
    sink: &mut K,
) -> (Numbers, u64) {
    let plan = plan(rt, alloc);
    let columns = columns(rt, alloc);
    let Range { from, to, block } = range;
    let mut lines = Lines {
        window: Window::of(alloc, from as u64, from.max(to) as u64),
        delim: Delim::tab(),
        columns: &columns,
    };
    let begin = from.saturating_sub(1).min(text.len());
    let nodes = plan.nodes().as_slice();
    let mut steps = Steps::new(alloc, nodes, path, folded).expect(rt, "memory");
    let count = feed(
        rt,
        alloc,
        &mut lines,
        &mut steps,
        sink,
        &text[begin..],
        block,
    );
    let unmet = steps.unmet(alloc).expect(rt, "memory");
    drop(steps);
    drop(lines);
    drop(columns);
    drop(plan);
    (unmet, count)
}

/// The lines of a STORE of these rows, and behind them a line with how many rows came and the statements.
pub fn stored<R: Abort>(rt: &R, alloc: Global, path: &[u32], text: &[u8], range: Range) -> Vec<u8> {
    takings_join::<StoredText>();
    let mut sink = StoredText::new(alloc, Delim::tab());
    let (unmet, count) = through(rt, alloc, path, &[], text, range, &mut sink);
    add_end(rt, &mut sink.bytes, count, &unmet);
    drop(unmet);
    let StoredText { bytes, .. } = sink;
    bytes
}

fn digit(number: u64) -> u8 {
    b'0'.wrapping_add((number % 10) as u8)
}

fn add_end<R: Abort>(rt: &R, out: &mut Vec<u8>, count: u64, unmet: &Numbers) {
    out.push(b'#').expect(rt, "memory");
    out.push(digit(count)).expect(rt, "memory");
    for statement in unmet.as_slice() {
        out.push(b' ').expect(rt, "memory");
        out.push(digit(u64::from(*statement))).expect(rt, "memory");
    }
    out.push(b'\n').expect(rt, "memory");
}
