ghost use Rattle.std.specs.Prelude.{◌≡◌, ◌++◌, ◌∷◌, [], Some, None, map, length, IfOk, OnOk};
ghost use Rattle.std.specs.List.{flat_map, range_with_len};
ghost use Rattle.std.specs.Option.{option_map};
ghost use Rattle.pig_plan.specs.Meaning.{width_at};
ghost use Rattle.pig_plan.specs.Nodes.{inputs_of};
ghost use Rattle.pig_plan.specs.Plans.{op_of, plan_of};
ghost use Rattle.pig_typed.specs.Typed.{item_typed};
ghost use Rattle.pig_cuts.specs.Cuts.{cut_at};
ghost use Rattle.pig_cuts.specs.Plans.{all_stay, are_whole, bags_kept, behind, cut_unless, fields_of_cut, group_kept, items_kept, load_kept, own_cut, sides_kept, spans, staying, whole_field};

use crate::finding::{are_whole, cut_of};
use crate::staying::{all_stay, behind as marks_behind, is_next, staying_numbers};
use pig_cuts::KeptField;
use pig_plan::{NodeOp, Plan};
use pig_typed::BlockItem;
use pig_value::{Numbers, Seq};
use std::alloc::{AllocError, Global};

// The fields that are kept of a node's rows.
pub type KeptFields = Seq<KeptField>;
// What is left of a node's rows; none where they stay as they are.
pub type Cut = Option<KeptFields>;

// What is left of an operator's rows, by what is left of those of the nodes before.
pub fn own_cut(
    alloc: Global,
    plan: &Plan,
    cuts: &[Cut],
    marks: &[bool],
    op: &NodeOp,
) -> Result<Cut, AllocError>
    ensures { IfOk result (λ cut. cut
        ≡ own_cut (cut_at cuts.now) (width_at (plan_of plan.now)) marks.now (op_of op.now)) }
{
    match op {
        NodeOp::Load { columns, .. } => load_cut(alloc, marks, columns.len()),
        NodeOp::Filter { input, .. } => copy_cut(alloc, cuts, *input),
        NodeOp::Foreach { block, .. } => items_cut(alloc, marks, block.items.as_slice()),
        NodeOp::GroupAll { .. } => group_cut(alloc, cuts, op.inputs(alloc)?.as_slice()),
        NodeOp::Group { .. } => group_cut(alloc, cuts, op.inputs(alloc)?.as_slice()),
        NodeOp::Join { .. } => join_cut(alloc, plan, cuts, op.inputs(alloc)?.as_slice()),
        NodeOp::Union { .. } => Ok(None),
        NodeOp::Distinct { .. } => Ok(None),
        NodeOp::Order { .. } => Ok(None),
        NodeOp::Limit { .. } => Ok(None),
        NodeOp::Store { .. } => Ok(None),
        NodeOp::Assert { input, .. } => copy_cut(alloc, cuts, *input),
        NodeOp::Rank { .. } => Ok(None),
    }
}

fn load_cut(alloc: Global, marks: &[bool], size: usize) -> Result<Cut, AllocError>
    ensures { IfOk result (λ cut. cut
        ≡ cut_unless (all_stay marks.now) (load_kept marks.now size)) }
{
    if all_stay(marks) {
        return Ok(None);
    }
    let mut numbers = Numbers::new(alloc);
    let size = u32::try_from(size).map_err(|_| AllocError)?;
    add_range(0, size, &mut numbers)?;
    let numbers = staying_numbers(alloc, marks, numbers.as_slice())?;
    Ok(Some(whole_fields(alloc, numbers.as_slice())?))
}

fn items_cut(alloc: Global, marks: &[bool], items: &[BlockItem]) -> Result<Cut, AllocError>
    ensures { IfOk result (λ cut. cut
        ≡ cut_unless (all_stay marks.now) (items_kept marks.now (map item_typed items.now))) }
{
    if all_stay(marks) {
        return Ok(None);
    }
    let numbers = item_numbers(alloc, marks, items)?;
    Ok(Some(whole_fields(alloc, numbers.as_slice())?))
}

// The positions of what the items give that stay.
fn item_numbers(alloc: Global, marks: &[bool], items: &[BlockItem]) -> Result<Numbers, AllocError>
    ensures { IfOk result (λ numbers. numbers
        ≡ flat_map (λ span. span) (staying marks.now (spans 0 (map item_typed items.now)))) }
{
    let mut numbers = Numbers::new(alloc);
    let mut first: u32 = 0;
    let mut left = items;
    let mut marked = marks;
    while let [item, rest @ ..] = left {
        if is_next(marked) {
            add_range(first, item.width, &mut numbers)?;
        }
        first = first.checked_add(item.width).ok_or(AllocError)?;
        marked = marks_behind(marked);
        left = rest;
    }
    Ok(numbers)
}

// Adds so many numbers from the first one on.
fn add_range(first: u32, count: u32, numbers: &mut Numbers) -> Result<(), AllocError>
    ensures { OnOk result (numbers.new ≡ numbers.old ++ range_with_len first count) }
{
    for place in 0..count {
        numbers.push(first.checked_add(place).ok_or(AllocError)?)?;
    }
    Ok(())
}

fn whole_fields(alloc: Global, numbers: &[u32]) -> Result<KeptFields, AllocError>
    ensures { IfOk result (λ kept. kept ≡ map whole_field numbers.now) }
{
    let mut kept = KeptFields::new(alloc);
    let mut left = numbers;
    while let [number, rest @ ..] = left {
        kept.push(whole_field(*number))?;
        left = rest;
    }
    Ok(kept)
}

fn whole_field(position: u32) -> KeptField
    ensures { result ≡ whole_field position }
{
    let like = None;
    KeptField { position, like }
}

fn copy_cut(alloc: Global, cuts: &[Cut], node: u32) -> Result<Cut, AllocError>
    ensures { IfOk result (λ cut. cut ≡ cut_at cuts.now node) }
{
    match cut_of(cuts, node) {
        Some(kept) => Ok(Some(copy_fields(alloc, kept.as_slice())?)),
        None => Ok(None),
    }
}

fn copy_fields(alloc: Global, kept: &[KeptField]) -> Result<KeptFields, AllocError>
    ensures { IfOk result (λ made. made ≡ kept.now) }
{
    let mut made = KeptFields::new(alloc);
    let mut left = kept;
    while let [field, rest @ ..] = left {
        made.push(*field)?;
        left = rest;
    }
    Ok(made)
}

fn group_cut(alloc: Global, cuts: &[Cut], inputs: &[u32]) -> Result<Cut, AllocError>
    ensures { IfOk result (λ cut. cut
        ≡ cut_unless (are_whole (cut_at cuts.now) inputs.now)
        (group_kept (cut_at cuts.now) inputs.now)) }
{
    if are_whole(cuts, inputs) {
        return Ok(None);
    }
    let mut kept = KeptFields::new(alloc);
    kept.push(whole_field(0))?;
    add_bags(cuts, inputs, &mut kept)?;
    Ok(Some(kept))
}

// Adds the bags of inputs, which stand behind the key.
fn add_bags(cuts: &[Cut], inputs: &[u32], kept: &mut KeptFields) -> Result<(), AllocError>
    ensures { OnOk result (kept.new
        ≡ kept.old ++ bags_kept (cut_at cuts.now) 1 inputs.now) }
{
    let mut position: u32 = 1;
    let mut left = inputs;
    while let [input, rest @ ..] = left {
        let like = like_of(cuts, *input);
        kept.push(KeptField { position, like })?;
        position = position.checked_add(1).ok_or(AllocError)?;
        left = rest;
    }
    Ok(())
}

// The number of a node as that by whose rows a bag's are cut, where they are.
fn like_of(cuts: &[Cut], node: u32) -> Option<u32>
    ensures { result ≡ option_map (λ kept. node) (cut_at cuts.now node) }
{
    match cut_of(cuts, node) {
        Some(_kept) => Some(node),
        None => None,
    }
}

fn join_cut(alloc: Global, plan: &Plan, cuts: &[Cut], inputs: &[u32]) -> Result<Cut, AllocError>
    ensures { IfOk result (λ cut. cut
        ≡ cut_unless (are_whole (cut_at cuts.now) inputs.now)
        (sides_kept (cut_at cuts.now) (width_at (plan_of plan.now)) 0 inputs.now)) }
{
    if are_whole(cuts, inputs) {
        return Ok(None);
    }
    let mut kept = KeptFields::new(alloc);
    let mut first: u32 = 0;
    let mut left = inputs;
    while let [input, rest @ ..] = left {
        let width = width(plan, *input)?;
        add_side(cuts, *input, first, width, &mut kept)?;
        first = first.checked_add(width).ok_or(AllocError)?;
        left = rest;
    }
    Ok(Some(kept))
}

// How many fields the rows of a node have.
fn width(plan: &Plan, node: u32) -> Result<u32, AllocError>
    ensures { IfOk result (λ width. width ≡ width_at (plan_of plan.now) node) }
{
    match plan.kinds(node) {
        Some(kinds) => u32::try_from(kinds.len()).map_err(|_| AllocError),
        None => Ok(0),
    }
}

// Adds the fields of an input of a JOIN, which stand behind those of the inputs before it.
fn add_side(
    cuts: &[Cut],
    node: u32,
    first: u32,
    width: u32,
    kept: &mut KeptFields,
) -> Result<(), AllocError>
    ensures { OnOk result (kept.new ≡ kept.old
        ++ map (behind first) (fields_of_cut width (cut_at cuts.now node))) }
{
    match cut_of(cuts, node) {
        Some(fields) => add_behind(first, fields.as_slice(), kept),
        None => add_all_behind(first, width, kept),
    }
}

fn add_behind(first: u32, fields: &[KeptField], kept: &mut KeptFields) -> Result<(), AllocError>
    ensures { OnOk result (kept.new ≡ kept.old ++ map (behind first) fields.now) }
{
    let mut left = fields;
    while let [field, rest @ ..] = left {
        kept.push(behind(first, *field)?)?;
        left = rest;
    }
    Ok(())
}

fn behind(first: u32, field: KeptField) -> Result<KeptField, AllocError>
    ensures { IfOk result (λ moved. moved ≡ behind first field) }
{
    let position = first.checked_add(field.position).ok_or(AllocError)?;
    let like = field.like;
    Ok(KeptField { position, like })
}

fn add_all_behind(first: u32, width: u32, kept: &mut KeptFields) -> Result<(), AllocError>
    ensures { OnOk result (kept.new ≡ kept.old
        ++ map (behind first) (map whole_field (range_with_len 0 width))) }
{
    for position in 0..width {
        kept.push(behind(first, whole_field(position))?)?;
    }
    Ok(())
}
