ghost use Rattle.std.specs.Prelude.{◌≡◌, map};
ghost use Rattle.std.specs.List.{list_any};
ghost use Rattle.pig_plan.specs.Written.{args_write_lf, block_writes_lf, has_lf, links_write_lf, step_writes_lf, writes_lf};
ghost use Rattle.pig_typed.specs.Typed.{args_of, block_typed, item_typed, link_of, links_of, step_typed, typed};

use pig_typed::{Block, BlockItem, BlockStep, TExpr, TLink};
use pig_value::{Boxed, Text};

// Whether a text that is written out in the expression holds a line end.
#[cycle(written)]
pub fn writes_line_end(e: &TExpr) -> bool
    ensures { result ≡ writes_lf (typed e.now) }
{
    match e {
        TExpr::Chars(text) => holds_line_end(text),
        TExpr::Chain { first, rest } => writes_within(first) || any_link_writes(rest.as_slice()),
        TExpr::Compare { a, b, .. } => writes_within(a) || writes_within(b),
        TExpr::IsNull { a, .. } => writes_within(a),
        TExpr::Not(a) => writes_within(a),
        TExpr::Minus(a) => writes_within(a),
        TExpr::Choose { cond, yes, no } => writes_within(cond)
            || writes_within(yes)
            || writes_within(no),
        TExpr::Cast { a, .. } => writes_within(a),
        TExpr::Project { a, .. } => writes_within(a),
        TExpr::Look { a, .. } => writes_within(a),
        TExpr::Call { args, .. } => any_writes(args.as_slice()),
        TExpr::Null => false,
        TExpr::Bool(_) => false,
        TExpr::Int(_) => false,
        TExpr::Long(_) => false,
        TExpr::Field(_) => false,
        TExpr::Local(_) => false,
    }
}

fn holds_line_end(text: &Text) -> bool
    ensures { result ≡ has_lf text.now }
{
    text.as_bytes().iter().any(|b| *b == b'\n')
}

#[cycle(written)]
fn writes_within(e: &Boxed<TExpr>) -> bool
    ensures { result ≡ writes_lf (typed e.now) }
{
    writes_line_end(e.get())
}

#[cycle(written)]
fn any_link_writes(links: &[TLink]) -> bool
    ensures { result ≡ links_write_lf (links_of (map link_of links.now)) }
{
    for link in links {
        if writes_line_end(&link.a) {
            return true;
        }
    }
    false
}

#[cycle(written)]
fn any_writes(args: &[TExpr]) -> bool
    ensures { result ≡ args_write_lf (args_of (map typed args.now)) }
{
    for e in args {
        if writes_line_end(e) {
            return true;
        }
    }
    false
}

// Whether a text that is written out in the block holds a line end.
pub fn block_writes_line_end(block: &Block) -> bool
    ensures { result ≡ block_writes_lf (block_typed block.now) }
{
    any_step_writes(block.steps.as_slice()) || any_item_writes(block.items.as_slice())
}

fn any_step_writes(steps: &[BlockStep]) -> bool
    ensures { result ≡ list_any step_writes_lf (map step_typed steps.now) }
{
    let mut left = steps;
    while let [step, rest @ ..] = left {
        if step_writes(step) {
            return true;
        }
        left = rest;
    }
    false
}

fn step_writes(step: &BlockStep) -> bool
    ensures { result ≡ step_writes_lf (step_typed step.now) }
{
    match step {
        BlockStep::Filter { from, cond } => writes_line_end(from) || writes_line_end(cond),
        BlockStep::Order { from, .. } => writes_line_end(from),
        BlockStep::Limit { from, .. } => writes_line_end(from),
        BlockStep::Distinct { from } => writes_line_end(from),
        BlockStep::Take { from } => writes_line_end(from),
    }
}

fn any_item_writes(items: &[BlockItem]) -> bool
    ensures { result ≡ list_any (λ item. writes_lf item.value) (map item_typed items.now) }
{
    let mut left = items;
    while let [item, rest @ ..] = left {
        if writes_line_end(&item.value) {
            return true;
        }
        left = rest;
    }
    false
}
