ghost use Rattle.std.specs.Prelude.{map};
ghost use Rattle.std.specs.List.{AllByRecursion};
ghost use Rattle.pig_value.specs.Trees.{v_int, v_long};
ghost use Rattle.pig_value.specs.Valid.{IsValue};
ghost use Rattle.pig_typed.specs.Literals.{ArgLiteralsAre, BlockLiteralsAre, LinkLiteralsAre, LiteralsAre, StepLiteralsAre};
ghost use Rattle.pig_typed.specs.Typed.{args_of, block_typed, item_typed, link_of, links_of, step_typed, typed};
ghost use Rattle.pig_plan.specs.Laws.{KeyLiteralsAre, OpLiteralsAre};
ghost use Rattle.pig_plan.specs.Plans.{keyed_of, op_of};

use crate::{KeyedInput, NodeOp};
use pig_typed::{Block, BlockItem, BlockStep, TExpr, TLink};
use pig_value::Boxed;

// What a node writes out are values: numbers in range, and texts of UTF-8. Their types say so, at each literal; the
// walk brings it together.
pub fn know_literals(op: &NodeOp)
    ensures { OpLiteralsAre IsValue (op_of op.now) }
{
    match op {
        NodeOp::Filter { cond, .. } => know_literals_of(cond),
        NodeOp::Foreach { block, .. } => know_literals_in(block),
        NodeOp::Group { inputs } => know_keys(inputs.as_slice()),
        NodeOp::Join { inputs, .. } => know_keys(inputs.as_slice()),
        NodeOp::Assert { cond, .. } => know_literals_of(cond),
        NodeOp::Load { .. } => {}
        NodeOp::GroupAll { .. } => {}
        NodeOp::Union { .. } => {}
        NodeOp::Distinct { .. } => {}
        NodeOp::Order { .. } => {}
        NodeOp::Limit { .. } => {}
        NodeOp::Store { .. } => {}
        NodeOp::Rank { .. } => {}
    }
}

#[cycle(valued)]
fn know_literals_of(e: &TExpr)
    ensures { LiteralsAre IsValue (typed e.now) }
{
    match e {
        TExpr::Chain { first, rest } => {
            know_within(first);
            know_links(rest.as_slice());
        }
        TExpr::Compare { a, b, .. } => {
            know_within(a);
            know_within(b);
        }
        TExpr::IsNull { a, .. } => know_within(a),
        TExpr::Not(a) => know_within(a),
        TExpr::Minus(a) => know_within(a),
        TExpr::Choose { cond, yes, no } => {
            know_within(cond);
            know_within(yes);
            know_within(no);
        }
        TExpr::Cast { a, .. } => know_within(a),
        TExpr::Project { a, .. } => know_within(a),
        TExpr::Look { a, .. } => know_within(a),
        TExpr::Call { args, .. } => know_all(args.as_slice()),
        TExpr::Chars(text) => {
            text.as_str();
        }
        TExpr::Int(n) => know_int(*n),
        TExpr::Long(n) => know_long(*n),
        TExpr::Null => {}
        TExpr::Bool(_) => {}
        TExpr::Field(_) => {}
        TExpr::Local(_) => {}
    }
}

fn know_int(n: i32)
    ensures { IsValue (v_int n) }
{}

fn know_long(n: i64)
    ensures { IsValue (v_long n) }
{}

#[cycle(valued)]
fn know_within(e: &Boxed<TExpr>)
    ensures { LiteralsAre IsValue (typed e.now) }
{
    know_literals_of(e.get())
}

#[cycle(valued)]
fn know_links(links: &[TLink])
    ensures { LinkLiteralsAre IsValue (links_of (map link_of links.now)) }
{
    for link in links {
        know_literals_of(&link.a);
    }
}

#[cycle(valued)]
fn know_all(args: &[TExpr])
    ensures { ArgLiteralsAre IsValue (args_of (map typed args.now)) }
{
    for e in args {
        know_literals_of(e);
    }
}

fn know_keys(inputs: &[KeyedInput])
    ensures { KeyLiteralsAre IsValue (map keyed_of inputs.now) }
{
    for input in inputs {
        know_each(input.keys.as_slice());
    }
}

fn know_each(keys: &[TExpr])
    ensures { AllByRecursion (LiteralsAre IsValue) (map typed keys.now) }
{
    for key in keys {
        know_literals_of(key);
    }
}

fn know_literals_in(block: &Block)
    ensures { BlockLiteralsAre IsValue (block_typed block.now) }
{
    know_steps(block.steps.as_slice());
    know_items(block.items.as_slice());
}

fn know_steps(steps: &[BlockStep])
    ensures { AllByRecursion (StepLiteralsAre IsValue) (map step_typed steps.now) }
{
    for step in steps {
        know_step(step);
    }
}

fn know_step(step: &BlockStep)
    ensures { StepLiteralsAre IsValue (step_typed step.now) }
{
    match step {
        BlockStep::Filter { from, cond } => {
            know_literals_of(from);
            know_literals_of(cond);
        }
        BlockStep::Order { from, .. } => know_literals_of(from),
        BlockStep::Limit { from, .. } => know_literals_of(from),
        BlockStep::Distinct { from } => know_literals_of(from),
        BlockStep::Take { from } => know_literals_of(from),
    }
}

fn know_items(items: &[BlockItem])
    ensures { AllByRecursion (λ item. LiteralsAre IsValue item.value) (map item_typed items.now) }
{
    for item in items {
        know_literals_of(&item.value);
    }
}
