//! The nodes of a cube in a plan.
// Trees end by `drop`: one call is cheap to prove, and a tree that dies by name is taken apart variant by variant.
use crate::making::{block_of, push};
use pig_plan::{KeyedInput, KeyedInputs, Node, NodeOp, Plan};
use pig_typed::{TExpr, TExprs};
use pig_value::{Column, Columns, Delim, Kind, Seq, Text};
use std::alloc::Global;
use std::process::Abort;

// LOAD of two texts and an int.
fn load<R: Abort>(rt: &R, alloc: Global) -> NodeOp {
    let mut columns = Columns::new(alloc);
    for position in 0..3 {
        let kind = if position == 2 {
            Kind::Int
        } else {
            Kind::Chararray
        };
        push(rt, &mut columns, Column { position, kind });
    }
    NodeOp::Load {
        path: Text::from_str(alloc, "in").expect(rt, "memory"),
        delim: Delim::tab(),
        columns,
    }
}

// GROUP of the node before by the first fields.
fn group<R: Abort>(rt: &R, alloc: Global, count: u32) -> NodeOp {
    let mut keys: TExprs = Seq::new(alloc);
    for position in 0..count {
        push(rt, &mut keys, TExpr::Field(position));
    }
    let mut inputs = KeyedInputs::new(alloc);
    let inner = false;
    let input = 1;
    push(rt, &mut inputs, KeyedInput { input, keys, inner });
    NodeOp::Group { inputs }
}

// Adds a node where it fits.
fn is_added<R: Abort>(rt: &R, plan: &mut Plan, op: NodeOp) -> bool {
    let node = Node { op, statement: 7 };
    let fits = plan.fits(&node).expect(rt, "memory");
    if fits {
        plan.add(node).expect(rt, "memory");
    } else {
        drop(node);
    }
    fits
}

// A line for each cube and rollup by fields of the LOAD, and whether a plan takes it: not where a dimension is an int.
const TABLE: &str = "\
cube 01 yes
rollup 01 yes
cube 1 yes
rollup 10 yes
cube 02 no
";

// Whether a plan takes a LOAD, the FOREACH of a cube or rollup by these dimensions, and the GROUP over it.
fn takes<R: Abort>(rt: &R, alloc: Global, dims: &str, rollup: bool) -> bool {
    let Some(block) = block_of(rt, alloc, dims, 3, rollup) else {
        return false;
    };
    let count = u32::try_from(dims.len()).unwrap_or(0);
    let mut plan = Plan::empty(alloc);
    let first = is_added(rt, &mut plan, load(rt, alloc));
    let foreach = NodeOp::Foreach { input: 0, block };
    let second = is_added(rt, &mut plan, foreach);
    let third = is_added(rt, &mut plan, group(rt, alloc, count));
    drop(plan);
    first && second && third
}

// Whether a line of the table holds.
fn holds<R: Abort>(rt: &R, alloc: Global, line: &str) -> bool {
    let (kind, rest) = line.split_once(' ').unwrap_or((line, ""));
    let (dims, wanted) = rest.split_once(' ').unwrap_or((rest, ""));
    takes(rt, alloc, dims, kind == "rollup") == (wanted == "yes")
}

#[test]
fn plans_take_cubes_of_texts(rt: HostRuntime) {
    for line in TABLE.lines() {
        assert!(rt; holds(&rt, rt.alloc(), line));
    }
}
