ghost use Rattle.std.specs.Prelude.{◌≡◌, ◌++◌, map, IfOk, OnOk};
ghost use Rattle.std.specs.List.{flat_map};
ghost use Rattle.pig_plan.specs.Moves.{arg_fields, fields_in, link_fields};
ghost use Rattle.pig_typed.specs.Typed.{args_of, block_typed, item_typed, link_of, links_of, step_typed, typed};
ghost use Rattle.pig_needs.specs.Needed.{block_names, field, kept_items, step_bag, value_names, whole_fields};

use crate::marks::{named_marks, stays};
use crate::names::{add_names, whole_field};
use crate::{Need, NeedList};
use pig_typed::{Block, BlockItem, BlockStep, TExpr, TLink};
use std::alloc::{AllocError, Global};

// What a block names of a row, where so much is needed of what it makes.
pub fn block_names(alloc: Global, own: &[Need], block: &Block) -> Result<NeedList, AllocError>
    ensures { IfOk result (λ found. found ≡ block_names own.now (block_typed block.now)) }
{
    let mut found = NeedList::new(alloc);
    add_steps(block.steps.as_slice(), &mut found)?;
    add_items(
        alloc,
        own,
        block.steps.as_slice(),
        block.items.as_slice(),
        &mut found,
    )?;
    Ok(found)
}

// Adds what nested steps name.
fn add_steps(steps: &[BlockStep], found: &mut NeedList) -> Result<(), AllocError>
    ensures { OnOk result (found.new ≡ found.old
        ++ flat_map (λ step. whole_fields (step_bag step)) (map step_typed steps.now)) }
{
    let mut left = steps;
    while let [step, rest @ ..] = left {
        add_whole_fields(bag_of_step(step), found)?;
        left = rest;
    }
    Ok(())
}

// The bag that a nested step goes through.
fn bag_of_step(step: &BlockStep) -> &TExpr
    ensures { typed result.now ≡ step_bag (step_typed step.now) }
{
    match step {
        BlockStep::Filter { from, cond: _ } => from,
        BlockStep::Order { from, keys: _ } => from,
        BlockStep::Limit { from, count: _ } => from,
        BlockStep::Distinct { from } => from,
        BlockStep::Take { from } => from,
    }
}

// Adds what the items that stay name.
fn add_items(
    alloc: Global,
    own: &[Need],
    steps: &[BlockStep],
    items: &[BlockItem],
    found: &mut NeedList,
) -> Result<(), AllocError>
    ensures { OnOk result (found.new ≡ found.old
        ++ flat_map (λ item. value_names (map step_typed steps.now) item.value)
        (kept_items own.now 0 (map item_typed items.now))) }
{
    let named = named_marks(alloc, own)?;
    let mut left = items;
    let mut first: u32 = 0;
    while let [item, rest @ ..] = left {
        if stays(named.as_slice(), first, item.flatten) {
            add_value(steps, &item.value, found)?;
        }
        first = first.checked_add(item.width).ok_or(AllocError)?;
        left = rest;
    }
    Ok(())
}

// Adds what the value of an item names.
fn add_value(steps: &[BlockStep], e: &TExpr, found: &mut NeedList) -> Result<(), AllocError>
    ensures { OnOk result (found.new
        ≡ found.old ++ value_names (map step_typed steps.now) (typed e.now)) }
{
    if steps.is_empty() {
        return add_names(e, found);
    }
    add_whole_fields(e, found)
}

// Adds each field that an expression mentions, as a whole.
#[cycle(add_whole_fields)]
fn add_whole_fields(e: &TExpr, found: &mut NeedList) -> Result<(), AllocError>
    ensures { OnOk result (found.new ≡ found.old ++ map field (fields_in (typed e.now))) }
{
    match e {
        TExpr::Null => Ok(()),
        TExpr::Bool(_) => Ok(()),
        TExpr::Int(_) => Ok(()),
        TExpr::Long(_) => Ok(()),
        TExpr::Chars(_) => Ok(()),
        TExpr::Field(n) => found.push(whole_field(*n)),
        TExpr::Local(_) => Ok(()),
        TExpr::Chain { first, rest } => {
            add_whole_fields(first.get(), found)?;
            add_link_fields(rest.as_slice(), found)
        }
        TExpr::Compare { op: _, a, b } => {
            add_whole_fields(a.get(), found)?;
            add_whole_fields(b.get(), found)
        }
        TExpr::IsNull { a, not: _ } => add_whole_fields(a.get(), found),
        TExpr::Not(a) => add_whole_fields(a.get(), found),
        TExpr::Minus(a) => add_whole_fields(a.get(), found),
        TExpr::Choose { cond, yes, no } => {
            add_whole_fields(cond.get(), found)?;
            add_whole_fields(yes.get(), found)?;
            add_whole_fields(no.get(), found)
        }
        TExpr::Cast { to: _, a } => add_whole_fields(a.get(), found),
        TExpr::Project {
            a,
            fields: _,
            single: _,
        } => add_whole_fields(a.get(), found),
        TExpr::Look { a, key: _ } => add_whole_fields(a.get(), found),
        TExpr::Call { function: _, args } => add_arg_fields(args.as_slice(), found),
    }
}

#[cycle(add_whole_fields)]
fn add_link_fields(links: &[TLink], found: &mut NeedList) -> Result<(), AllocError>
    ensures { OnOk result
        (found.new ≡ found.old ++ map field (link_fields (links_of (map link_of links.now)))) }
{
    for link in links {
        add_whole_fields(&link.a, found)?;
    }
    Ok(())
}

#[cycle(add_whole_fields)]
fn add_arg_fields(args: &[TExpr], found: &mut NeedList) -> Result<(), AllocError>
    ensures { OnOk result
        (found.new ≡ found.old ++ map field (arg_fields (args_of (map typed args.now)))) }
{
    for e in args {
        add_whole_fields(e, found)?;
    }
    Ok(())
}
