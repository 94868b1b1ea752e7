ghost use Rattle.std.specs.Prelude.{◌≡◌, ◌++◌, ◌∷◌, [], map, length, IfOk, OnOk, if◌then◌else◌};
ghost use Rattle.std.specs.List.{filter_map};
ghost use Rattle.pig_plan.specs.Meaning.{width_at};
ghost use Rattle.pig_plan.specs.Plans.{keyed_of, op_of, plan_of};
ghost use Rattle.pig_typed.specs.Typed.{typed};
ghost use Rattle.pig_needs.specs.Needed.{all_fields, bag_names, column_in, column_named, field, group_uses, is_needed, join_uses, key_names, names_in, uses_of, whole_use, within};

use crate::blocks::block_names;
use crate::lists::is_needed;
use crate::names::{add_key_names, add_names, whole_field};
use crate::{Need, NeedList, Part, Use, Uses};
use pig_plan::{KeyedInput, NodeOp, Plan};
use pig_typed::TExpr;
use std::alloc::{AllocError, Global};

// What an operator names of each of its inputs, where so much is needed of its own rows.
pub fn uses_of(alloc: Global, plan: &Plan, own: &[Need], op: &NodeOp) -> Result<Uses, AllocError>
    ensures { IfOk result (λ uses.
        uses ≡ uses_of (width_at (plan_of plan.now)) own.now (op_of op.now)) }
{
    match op {
        NodeOp::Load { .. } => Ok(Uses::new(alloc)),
        NodeOp::Filter { input, cond } => only(alloc, *input, tested(alloc, own, cond)?),
        NodeOp::Foreach { input, block } => only(alloc, *input, block_names(alloc, own, block)?),
        NodeOp::GroupAll { input } => {
            only(
                alloc,
                *input,
                bag_names(alloc, width(plan, *input)?, 1, own)?,
            )
        }
        NodeOp::Group { inputs } => group_uses(alloc, plan, own, inputs.as_slice()),
        NodeOp::Join { inputs, .. } => join_uses(alloc, plan, own, inputs.as_slice()),
        NodeOp::Union { inputs } => union_uses(alloc, plan, inputs.as_slice()),
        NodeOp::Distinct { input } => whole(alloc, plan, *input),
        NodeOp::Order { input, .. } => whole(alloc, plan, *input),
        NodeOp::Limit { input, .. } => whole(alloc, plan, *input),
        NodeOp::Store { input, .. } => whole(alloc, plan, *input),
        NodeOp::Assert { input, cond, .. } => only(alloc, *input, tested(alloc, own, cond)?),
        NodeOp::Rank { input, .. } => whole(alloc, plan, *input),
    }
}

// The use of one input.
fn only(alloc: Global, input: u32, named: NeedList) -> Result<Uses, AllocError>
    ensures { IfOk result (λ uses. uses ≡ record { input = input; named = named } ∷ []) }
{
    let mut uses = Uses::new(alloc);
    uses.push(Use { input, named })?;
    Ok(uses)
}

// How many fields the rows of a node have.
fn width(plan: &Plan, node: u32) -> Result<u32, AllocError>
    ensures { IfOk result (λ width. width ≡ width_at (plan_of plan.now) node) }
{
    match plan.kinds(node) {
        Some(kinds) => u32::try_from(kinds.len()).map_err(|_| AllocError),
        None => Ok(0),
    }
}

// All fields of the rows of one input.
fn whole(alloc: Global, plan: &Plan, input: u32) -> Result<Uses, AllocError>
    ensures { IfOk result (λ uses. uses ≡ whole_use (width_at (plan_of plan.now)) input ∷ []) }
{
    let named = all_fields(alloc, width(plan, input)?)?;
    only(alloc, input, named)
}

fn all_fields(alloc: Global, width: u32) -> Result<NeedList, AllocError>
    ensures { IfOk result (λ found. found ≡ all_fields width) }
{
    let mut found = NeedList::new(alloc);
    for position in 0..width {
        found.push(whole_field(position))?;
    }
    Ok(found)
}

// What is needed of rows of which some pass a condition.
fn tested(alloc: Global, own: &[Need], cond: &TExpr) -> Result<NeedList, AllocError>
    ensures { IfOk result (λ found. found ≡ own.now ++ names_in (typed cond.now)) }
{
    let mut found = copied(alloc, own)?;
    add_names(cond, &mut found)?;
    Ok(found)
}

fn copied(alloc: Global, own: &[Need]) -> Result<NeedList, AllocError>
    ensures { IfOk result (λ found. found ≡ own.now) }
{
    let mut found = NeedList::new(alloc);
    let mut left = own;
    while let [need, rest @ ..] = left {
        found.push(*need)?;
        left = rest;
    }
    Ok(found)
}

// What is needed of the rows in the bag at a position.
fn bag_names(alloc: Global, width: u32, bag: u32, own: &[Need]) -> Result<NeedList, AllocError>
    ensures { IfOk result (λ found. found ≡ bag_names width bag own.now) }
{
    let mut found = whole_bag(alloc, width, bag, own)?;
    add_columns_in(bag, own, &mut found)?;
    Ok(found)
}

fn whole_bag(alloc: Global, width: u32, bag: u32, own: &[Need]) -> Result<NeedList, AllocError>
    ensures { IfOk result (λ found.
        found ≡ (if is_needed (field bag) own.now then all_fields width else [])) }
{
    if is_needed(whole_field(bag), own) {
        return all_fields(alloc, width);
    }
    Ok(NeedList::new(alloc))
}

fn add_columns_in(bag: u32, own: &[Need], found: &mut NeedList) -> Result<(), AllocError>
    ensures { OnOk result (found.new ≡ found.old ++ filter_map (column_in bag) own.now) }
{
    let mut left = own;
    while let [need, rest @ ..] = left {
        if let Some(column) = column_in(bag, *need) {
            found.push(column)?;
        }
        left = rest;
    }
    Ok(())
}

fn column_in(bag: u32, need: Need) -> Option<Need>
    ensures { result ≡ column_in bag need }
{
    if need.position != bag {
        return None;
    }
    column_named(need.part)
}

fn column_named(part: Part) -> Option<Need>
    ensures { result ≡ column_named part }
{
    match part {
        Part::Column(column) => Some(whole_field(column)),
        _ => None,
    }
}

// The uses of a GROUP's inputs, whose bags stand behind the key.
fn group_uses(
    alloc: Global,
    plan: &Plan,
    own: &[Need],
    inputs: &[KeyedInput],
) -> Result<Uses, AllocError>
    ensures { IfOk result (λ uses. uses
        ≡ group_uses (width_at (plan_of plan.now)) own.now 1 (map keyed_of inputs.now)) }
{
    let mut uses = Uses::new(alloc);
    let mut bag: u32 = 1;
    let mut left = inputs;
    while let [input, rest @ ..] = left {
        uses.push(group_use(alloc, plan, own, bag, input)?)?;
        bag = bag.checked_add(1).ok_or(AllocError)?;
        left = rest;
    }
    Ok(uses)
}

fn group_use(
    alloc: Global,
    plan: &Plan,
    own: &[Need],
    bag: u32,
    input: &KeyedInput,
) -> Result<Use, AllocError>
    ensures { IfOk result (λ found. found ≡ record {
      input = (keyed_of input.now).input;
      named = key_names (keyed_of input.now).keys
          ++ bag_names (width_at (plan_of plan.now) input.now.input) bag own.now;
    }) }
{
    let mut named = NeedList::new(alloc);
    add_key_names(input.keys.as_slice(), &mut named)?;
    named.extend(bag_names(alloc, width(plan, input.input)?, bag, own)?)?;
    Ok(Use {
        input: input.input,
        named,
    })
}

// The uses of a JOIN's inputs, whose fields stand side by side.
fn join_uses(
    alloc: Global,
    plan: &Plan,
    own: &[Need],
    inputs: &[KeyedInput],
) -> Result<Uses, AllocError>
    ensures { IfOk result (λ uses. uses
        ≡ join_uses (width_at (plan_of plan.now)) own.now 0 (map keyed_of inputs.now)) }
{
    let mut uses = Uses::new(alloc);
    let mut first: u32 = 0;
    let mut left = inputs;
    while let [input, rest @ ..] = left {
        let size = width(plan, input.input)?;
        uses.push(join_use(alloc, own, first, size, input)?)?;
        first = first.checked_add(size).ok_or(AllocError)?;
        left = rest;
    }
    Ok(uses)
}

fn join_use(
    alloc: Global,
    own: &[Need],
    first: u32,
    size: u32,
    input: &KeyedInput,
) -> Result<Use, AllocError>
    ensures { IfOk result (λ found. found ≡ record {
      input = (keyed_of input.now).input;
      named = key_names (keyed_of input.now).keys
          ++ filter_map (within first size) own.now;
    }) }
{
    let mut named = NeedList::new(alloc);
    add_key_names(input.keys.as_slice(), &mut named)?;
    add_within(first, size, own, &mut named)?;
    Ok(Use {
        input: input.input,
        named,
    })
}

// Adds what is needed of so many fields from the first of them on.
fn add_within(first: u32, size: u32, own: &[Need], found: &mut NeedList) -> Result<(), AllocError>
    ensures { OnOk result (found.new ≡ found.old ++ filter_map (within first size) own.now) }
{
    let mut left = own;
    while let [need, rest @ ..] = left {
        if let Some(inner) = within(first, size, *need) {
            found.push(inner)?;
        }
        left = rest;
    }
    Ok(())
}

fn within(first: u32, size: u32, need: Need) -> Option<Need>
    ensures { result ≡ within first size need }
{
    if need.position < first || need.position - first >= size {
        return None;
    }
    Some(Need {
        position: need.position - first,
        part: need.part,
    })
}

fn union_uses(alloc: Global, plan: &Plan, inputs: &[u32]) -> Result<Uses, AllocError>
    ensures { IfOk result (λ uses.
        uses ≡ map (whole_use (width_at (plan_of plan.now))) inputs.now) }
{
    let mut uses = Uses::new(alloc);
    let mut left = inputs;
    while let [input, rest @ ..] = left {
        let named = all_fields(alloc, width(plan, *input)?)?;
        let input = *input;
        uses.push(Use { input, named })?;
        left = rest;
    }
    Ok(uses)
}
