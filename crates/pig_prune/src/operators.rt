ghost use Rattle.std.specs.Prelude.{◌≡◌, map, IfOk, OnOk};
ghost use Rattle.pig_plan.specs.Plans.{keyed_of, op_of};
ghost use Rattle.pig_typed.specs.Typed.{block_typed, item_typed, step_typed};
ghost use Rattle.pig_cuts.specs.Cuts.{cut_at};
ghost use Rattle.pig_cuts.specs.Fits.{fit_item, fit_step};
ghost use Rattle.pig_cuts.specs.Plans.{fit_block, fit_keyed, fit_op, staying};

use crate::cutting::Cut;
use crate::fitting::{fit_expr, fit_keys};
use crate::staying::{behind, is_next, staying_columns};
use pig_plan::{KeyedInput, KeyedInputs, NodeOp};
use pig_typed::{Block, BlockItem, BlockItems, BlockStep, BlockSteps, copy_expr, copy_keys};
use std::alloc::{AllocError, Global};

// Brings an operator onto what is left of its inputs' rows; of a LOAD the marked columns stay, of
// a FOREACH the marked items.
pub fn fit_op(
    alloc: Global,
    cuts: &[Cut],
    marks: &[bool],
    op: &mut NodeOp,
) -> Result<(), AllocError>
    ensures { OnOk result (op_of op.new ≡ fit_op (cut_at cuts.now) marks.now (op_of op.old)) }
{
    match op {
        NodeOp::Load { columns, .. } => {
            *columns = staying_columns(alloc, marks, columns.as_slice())?;
        }
        NodeOp::Filter { input, cond } => *cond = fit_expr(alloc, cuts, *input, cond)?,
        NodeOp::Foreach { input, block } => *block = fit_block(alloc, cuts, *input, marks, block)?,
        NodeOp::GroupAll { .. } => {}
        NodeOp::Group { inputs } => *inputs = fit_inputs(alloc, cuts, inputs.as_slice())?,
        NodeOp::Join { inputs, .. } => *inputs = fit_inputs(alloc, cuts, inputs.as_slice())?,
        NodeOp::Union { .. } => {}
        NodeOp::Distinct { .. } => {}
        NodeOp::Order { .. } => {}
        NodeOp::Limit { .. } => {}
        NodeOp::Store { .. } => {}
        NodeOp::Assert { input, cond, .. } => *cond = fit_expr(alloc, cuts, *input, cond)?,
        NodeOp::Rank { .. } => {}
    }
    Ok(())
}

fn fit_inputs(alloc: Global, cuts: &[Cut], inputs: &[KeyedInput]) -> Result<KeyedInputs, AllocError>
    ensures { IfOk result (λ made. map keyed_of made
        ≡ map (fit_keyed (cut_at cuts.now)) (map keyed_of inputs.now)) }
{
    let mut made = KeyedInputs::new(alloc);
    let mut left = inputs;
    while let [input, rest @ ..] = left {
        made.push(fit_input(alloc, cuts, input)?)?;
        left = rest;
    }
    Ok(made)
}

fn fit_input(alloc: Global, cuts: &[Cut], input: &KeyedInput) -> Result<KeyedInput, AllocError>
    ensures { IfOk result (λ made. keyed_of made
        ≡ fit_keyed (cut_at cuts.now) (keyed_of input.now)) }
{
    let keys = fit_keys(alloc, cuts, input.input, input.keys.as_slice())?;
    Ok(KeyedInput {
        input: input.input,
        keys,
        inner: input.inner,
    })
}

fn fit_block(
    alloc: Global,
    cuts: &[Cut],
    node: u32,
    marks: &[bool],
    block: &Block,
) -> Result<Block, AllocError>
    ensures { IfOk result (λ made. block_typed made
        ≡ fit_block (cut_at cuts.now) (cut_at cuts.now node) marks.now (block_typed block.now)) }
{
    let steps = fit_steps(alloc, cuts, node, block.steps.as_slice())?;
    let items = fit_items(alloc, cuts, node, marks, block.items.as_slice())?;
    Ok(Block { steps, items })
}

fn fit_steps(
    alloc: Global,
    cuts: &[Cut],
    node: u32,
    steps: &[BlockStep],
) -> Result<BlockSteps, AllocError>
    ensures { IfOk result (λ made. map step_typed made
        ≡ map (fit_step (cut_at cuts.now) (cut_at cuts.now node)) (map step_typed steps.now)) }
{
    let mut made = BlockSteps::new(alloc);
    let mut left = steps;
    while let [step, rest @ ..] = left {
        made.push(fit_step(alloc, cuts, node, step)?)?;
        left = rest;
    }
    Ok(made)
}

fn fit_step(
    alloc: Global,
    cuts: &[Cut],
    node: u32,
    step: &BlockStep,
) -> Result<BlockStep, AllocError>
    ensures { IfOk result (λ made. step_typed made
        ≡ fit_step (cut_at cuts.now) (cut_at cuts.now node) (step_typed step.now)) }
{
    match step {
        BlockStep::Filter { from, cond } => {
            let from = fit_expr(alloc, cuts, node, from)?;
            let cond = copy_expr(alloc, cond)?;
            Ok(BlockStep::Filter { from, cond })
        }
        BlockStep::Order { from, keys } => {
            let from = fit_expr(alloc, cuts, node, from)?;
            let keys = copy_keys(alloc, keys)?;
            Ok(BlockStep::Order { from, keys })
        }
        BlockStep::Limit { from, count } => Ok(BlockStep::Limit {
            from: fit_expr(alloc, cuts, node, from)?,
            count: *count,
        }),
        BlockStep::Distinct { from } => Ok(BlockStep::Distinct {
            from: fit_expr(alloc, cuts, node, from)?,
        }),
        BlockStep::Take { from } => Ok(BlockStep::Take {
            from: fit_expr(alloc, cuts, node, from)?,
        }),
    }
}

fn fit_items(
    alloc: Global,
    cuts: &[Cut],
    node: u32,
    marks: &[bool],
    items: &[BlockItem],
) -> Result<BlockItems, AllocError>
    ensures { IfOk result (λ made. map item_typed made
        ≡ map (fit_item (cut_at cuts.now) (cut_at cuts.now node))
        (staying marks.now (map item_typed items.now))) }
{
    let mut made = BlockItems::new(alloc);
    let mut left = items;
    let mut marked = marks;
    while let [item, rest @ ..] = left {
        if is_next(marked) {
            made.push(fit_item(alloc, cuts, node, item)?)?;
        }
        marked = behind(marked);
        left = rest;
    }
    Ok(made)
}

fn fit_item(
    alloc: Global,
    cuts: &[Cut],
    node: u32,
    item: &BlockItem,
) -> Result<BlockItem, AllocError>
    ensures { IfOk result (λ made. item_typed made
        ≡ fit_item (cut_at cuts.now) (cut_at cuts.now node) (item_typed item.now)) }
{
    Ok(BlockItem {
        value: fit_expr(alloc, cuts, node, &item.value)?,
        flatten: item.flatten,
        width: item.width,
    })
}
