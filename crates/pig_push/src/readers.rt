//! Which nodes one other alone reads, told of all in one pass.
ghost use Rattle.std.specs.Prelude.{◌≡◌, ◌==◌, ℕ, IfOk, OnOk, false, get_or, not, if◌then◌else◌};
ghost use Rattle.pig_plan.specs.Nodes.{inputs_of};
ghost use Rattle.pig_plan.specs.Plans.{op_of, plan_of};
ghost use Rattle.pig_push.specs.Lone.{AreReaders, is_often, is_shared, noted, noted_in};
ghost use Rattle.pig_push.specs.declared.readers.ReadCount.TheVariants as Read;

use pig_plan::{NodeOp, Plan};
use std::alloc::{AllocError, Global};

// How many nodes read a node, and which one does where it is one.
#[derive(Clone, Copy, Drop)]
pub enum ReadCount {
    Never,
    Once(u32),
    Often,
}

// Of each node, in order, how many nodes read it.
pub fn readers(alloc: Global, plan: &Plan) -> Result<Vec<ReadCount>, AllocError>
    ensures { IfOk result (λ found. AreReaders (plan_of plan.now) found.items) }
{
    let nodes = plan.nodes().as_slice();
    let mut found = vec![in alloc; ReadCount::Never; nodes.len()]?;
    let mut left = nodes;
    let mut own: u32 = 0;
    while let [node, rest @ ..] = left {
        note_inputs(alloc, &node.op, own, &mut found)?;
        own = own.checked_add(1).ok_or(AllocError)?;
        left = rest;
    }
    Ok(found)
}

fn note_inputs(
    alloc: Global,
    op: &NodeOp,
    user: u32,
    found: &mut Vec<ReadCount>,
) -> Result<(), AllocError>
    ensures { OnOk result ((k : ℕ) → get_or found.new.items k Read.Never
        ≡ noted_in k user (inputs_of (op_of op.now)) (get_or found.old.items k Read.Never)) }
{
    let inputs = op.inputs(alloc)?;
    note_all(user, inputs.as_slice(), found)
}

fn note_all(user: u32, inputs: &[u32], found: &mut Vec<ReadCount>) -> Result<(), AllocError>
    ensures { OnOk result ((k : ℕ) → get_or found.new.items k Read.Never
        ≡ noted_in k user inputs.now (get_or found.old.items k Read.Never)) }
{
    let mut left = inputs;
    while let [input, rest @ ..] = left {
        note_one(user, *input, found)?;
        left = rest;
    }
    Ok(())
}

// Notes a reader of a node. Each node reads nodes before it; that is tested and not proved.
fn note_one(user: u32, input: u32, found: &mut Vec<ReadCount>) -> Result<(), AllocError>
    ensures { OnOk result ((k : ℕ) → get_or found.new.items k Read.Never ≡ (if input == k
        then noted user (get_or found.old.items k Read.Never)
        else get_or found.old.items k Read.Never)) }
{
    let place = input as usize;
    if found.len() <= place {
        return Err(AllocError);
    }
    found[place] = noted(user, found[place]);
    Ok(())
}

fn noted(user: u32, found: ReadCount) -> ReadCount
    ensures { result ≡ noted user found }
{
    match found {
        ReadCount::Never => ReadCount::Once(user),
        ReadCount::Once(other) => once_more(other, user),
        ReadCount::Often => ReadCount::Often,
    }
}

fn once_more(other: u32, user: u32) -> ReadCount
    ensures { result ≡ (if other == user then Read.Once other else Read.Often) }
{
    if other == user {
        return ReadCount::Once(other);
    }
    ReadCount::Often
}

// Whether no two nodes read a node.
pub fn is_lone(found: &[ReadCount], number: u32) -> bool
    ensures { result ≡ not (is_shared found.now number) }
{
    match found.get(number as usize) {
        Some(count) => !is_often(*count),
        None => true,
    }
}

fn is_often(count: ReadCount) -> bool
    ensures { result ≡ is_often count }
{
    matches!(count, ReadCount::Often)
}
