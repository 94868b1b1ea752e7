//! A plan whose nodes bring rows together, and the text of the runs of a node. Where memory is wanting the process ends:
//! that drops nothing, so its proof is short.
// Trees end by `drop`: one call is cheap to prove, and a tree that dies by name is taken apart variant by variant.
ghost use Rattle.std.specs.Prelude.{IfSome};
ghost use Rattle.pig_value.specs.Valid.{IsValue};
ghost use Rattle.pig_plan.specs.Laws.{OpLiteralsAre};
ghost use Rattle.pig_plan.specs.Plans.{op_of};

use pig_plan::{KeyedInput, Node, NodeOp, Plan};
use pig_runs::{Run, Runs};
use pig_shuffle::{Shuffle, runs_are_of_the_node};
use pig_storage::write_row;
use pig_stream::{Batch, Lines, Sink, Steps, Window, drive};
use pig_typed::{Block, BlockItem, SortKey, TExpr};
use pig_value::{Boxed, Column, Columns, Delim, Dir, Function, Kind, Seq, Text};
use std::alloc::Global;
use std::process::Abort;

fn push<R: Abort, T: Drop>(rt: &R, list: &mut Seq<T>, item: T) {
    list.push(item).expect(rt, "memory");
}

/// An int and a chararray.
fn columns<R: Abort>(rt: &R, alloc: Global) -> Columns {
    let mut columns = Columns::new(alloc);
    let (position, kind) = (0, Kind::Int);
    push(rt, &mut columns, Column { position, kind });
    let (position, kind) = (1, Kind::Chararray);
    push(rt, &mut columns, Column { position, kind });
    columns
}

fn load<R: Abort>(rt: &R, alloc: Global) -> NodeOp {
    NodeOp::Load {
        path: Text::from_str(alloc, "in").expect(rt, "memory"),
        delim: Delim::tab(),
        columns: columns(rt, alloc),
    }
}

// The LOAD as an input, by its first so many fields.
fn keyed<R: Abort>(rt: &R, alloc: Global, fields: u32) -> KeyedInput {
    let mut keys = Seq::new(alloc);
    for field in 0..fields {
        push(rt, &mut keys, TExpr::Field(field));
    }
    KeyedInput {
        input: 0,
        keys,
        inner: false,
    }
}

fn group<R: Abort>(rt: &R, alloc: Global, inputs: u32, fields: u32) -> NodeOp {
    let mut all = Seq::new(alloc);
    for _ in 0..inputs {
        push(rt, &mut all, keyed(rt, alloc, fields));
    }
    NodeOp::Group { inputs: all }
}

// By the first field, the greatest first.
fn order<R: Abort>(rt: &R, alloc: Global) -> NodeOp {
    let mut keys = Seq::new(alloc);
    let (position, dir) = (0, Dir::Desc);
    push(rt, &mut keys, SortKey { position, dir });
    NodeOp::Order { input: 0, keys }
}

fn add<R: Abort>(rt: &R, plan: &mut Plan, op: NodeOp, statement: u32) {
    let node = Node { op, statement };
    let fits = plan.fits(&node).expect(rt, "memory");
    assert!(rt; fits, "a node that doesn't fit");
    plan.add(node).expect(rt, "memory");
}

/// On a LOAD 0: GROUP 1 by its first field, COGROUP 2 of it twice by both fields, GROUP ALL 3, DISTINCT 4 and ORDER 5.
fn plan<R: Abort>(rt: &R, alloc: Global) -> Plan {
    let mut plan = Plan::empty(alloc);
    add(rt, &mut plan, load(rt, alloc), 1);
    add(rt, &mut plan, group(rt, alloc, 1, 1), 2);
    add(rt, &mut plan, group(rt, alloc, 2, 2), 3);
    add(rt, &mut plan, NodeOp::GroupAll { input: 0 }, 4);
    add(rt, &mut plan, NodeOp::Distinct { input: 0 }, 5);
    add(rt, &mut plan, order(rt, alloc), 6);
    plan
}

fn op_of(plan: &Plan, number: usize) -> Option<&NodeOp>
    ensures { IfSome result (λ op. OpLiteralsAre IsValue (op_of op.now)) }
{
    match plan.nodes().get(number) {
        Some(node) => Some(&node.op),
        None => None,
    }
}

fn item(value: TExpr) -> BlockItem {
    BlockItem {
        value,
        flatten: false,
        width: 1,
    }
}

// A function of a field of the rows.
fn part<R: Abort>(rt: &R, alloc: Global, function: Function, field: u32) -> BlockItem {
    let mut fields = Seq::new(alloc);
    push(rt, &mut fields, field);
    let a = Boxed::new(alloc, TExpr::Field(1)).expect(rt, "memory");
    let single = true;
    let mut args = Seq::new(alloc);
    push(rt, &mut args, TExpr::Project { a, fields, single });
    item(TExpr::Call { function, args })
}

/// The key, COUNT and SUM of the first field, and MIN of the second.
pub fn block<R: Abort>(rt: &R, alloc: Global) -> Block {
    let mut items = Seq::new(alloc);
    push(rt, &mut items, item(TExpr::Field(0)));
    push(rt, &mut items, part(rt, alloc, Function::Count, 0));
    push(rt, &mut items, part(rt, alloc, Function::Sum, 0));
    push(rt, &mut items, part(rt, alloc, Function::Min, 1));
    let steps = Seq::new(alloc);
    Block { steps, items }
}

// Takes the rows of a text's lines.
fn take_lines<R: Abort, K: Sink>(rt: &R, alloc: Global, plan: &Plan, text: &str, sink: &mut K) {
    let columns = columns(rt, alloc);
    let mut lines = Lines {
        window: Window::of(alloc, 0, text.len() as u64),
        delim: Delim::tab(),
        columns: &columns,
    };
    lines.window.hand_in(text.as_bytes()).expect(rt, "memory");
    lines.window.end();
    let nodes = plan.nodes().as_slice();
    let mut steps = Steps::new(alloc, nodes, &[], &[]).expect(rt, "memory");
    let mut batch = Batch::new(alloc);
    drive(alloc, &mut lines, &mut steps, sink, &mut batch).expect(rt, "memory");
    drop(batch);
    drop(steps);
    drop(lines);
    drop(columns);
}

fn add_run<R: Abort>(rt: &R, alloc: Global, run: &Run, out: &mut Vec<u8>) {
    for at in 0..run.len() {
        let row = run.row(alloc, at).expect(rt, "memory");
        write_row(&row, Delim::tab(), out).expect(rt, "memory");
        drop(row);
    }
    out.extend_from_slice(b"|").expect(rt, "memory");
}

fn runs_text<R: Abort>(rt: &R, alloc: Global, runs: &Runs) -> Vec<u8> {
    let mut out = Vec::new(alloc);
    for run in runs.as_slice() {
        add_run(rt, alloc, run, &mut out);
    }
    out
}

/// What is shuffled: the rows of an input of a node, into so many partitions.
#[derive(Clone, Copy, Drop)]
pub struct Asked {
    pub node: usize,
    pub input: u32,
    pub parts: u32,
}

/// The rows of each run as lines, and a bar behind each run.
pub fn shuffled<R: Abort>(
    rt: &R,
    alloc: Global,
    asked: Asked,
    fold: Option<&Block>,
    text: &str,
) -> Vec<u8> {
    runs_are_of_the_node();
    let plan = plan(rt, alloc);
    let op = op_of(&plan, asked.node).expect(rt, "a node");
    let made = Shuffle::new(alloc, op, fold, asked.input, asked.parts);
    let mut shuffle = made.expect(rt, "memory");
    take_lines(rt, alloc, &plan, text, &mut shuffle);
    let runs = shuffle.finish(alloc).expect(rt, "memory");
    let out = runs_text(rt, alloc, &runs);
    drop(runs);
    drop(plan);
    out
}
