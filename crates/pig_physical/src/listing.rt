//! The waves of a plan, as they are listed.
ghost use Rattle.std.specs.Prelude.{◌≡◌, ◌++◌, ◌∷◌, [], Some, false, map, IfOk, OnOk};
ghost use Rattle.std.specs.List.{flat_map};
ghost use Rattle.std.specs.Option.{option_map_or};
ghost use Rattle.pig_plan.specs.Nodes.{is_store, op_at};
ghost use Rattle.pig_plan.specs.Plans.{op_of, plan_of};
ghost use Rattle.pig_physical.specs.Heading.{head_with, heads_by, heads_on, store_head};
ghost use Rattle.pig_physical.specs.Naming.{AreNamings};
ghost use Rattle.pig_physical.specs.Stages.{heads, waves_of};
ghost use Rattle.pig_physical.specs.declared.waves.WaveKind.TheVariants as kinds;

use crate::folding::combines;
use crate::namings::{Naming, namings};
use crate::{WaveHead, WaveHeads, WaveKind};
use pig_plan::{Node, NodeOp, Plan, live_numbers};
use std::alloc::{AllocError, Global};

/// The waves of a plan, in order: those of each live boundary node, by their numbers, and one for all STOREs, where
/// there is one. They need no sizes, so that every way to cut a plan has the same.
pub fn heads(alloc: Global, plan: &Plan) -> Result<WaveHeads, AllocError>
    ensures { IfOk result (λ found. found ≡ heads (plan_of plan.now)) }
{
    let live = live_numbers(alloc, plan)?;
    let nodes = plan.nodes().as_slice();
    let namings = namings(alloc, nodes, live.as_slice())?;
    let mut found = WaveHeads::new(alloc);
    add_all_heads(
        alloc,
        nodes,
        live.as_slice(),
        namings.as_slice(),
        &mut found,
    )?;
    add_store_head(nodes, live.as_slice(), &mut found)?;
    Ok(found)
}

// The waves of all live nodes, in turn.
fn add_all_heads(
    alloc: Global,
    nodes: &[Node],
    live: &[usize],
    namings: &[Naming],
    found: &mut WaveHeads,
) -> Result<(), AllocError>
    requires { AreNamings (plan_of nodes.now) namings.now }
    ensures { OnOk result (found.new
        ≡ found.old ++ flat_map (heads_on (plan_of nodes.now)) live.now) }
{
    let mut left = live;
    while let [number, rest @ ..] = left {
        add_heads(alloc, nodes, namings, *number, found)?;
        left = rest;
    }
    Ok(())
}

// The waves of one live node.
fn add_heads(
    alloc: Global,
    nodes: &[Node],
    namings: &[Naming],
    number: usize,
    found: &mut WaveHeads,
) -> Result<(), AllocError>
    requires { AreNamings (plan_of nodes.now) namings.now }
    ensures { OnOk result (found.new ≡ found.old ++ heads_on (plan_of nodes.now) number) }
{
    match nodes.get(number) {
        Some(node) => add_heads_by(alloc, nodes, namings, number, &node.op, found),
        None => Ok(()),
    }
}

fn add_heads_by(
    alloc: Global,
    nodes: &[Node],
    namings: &[Naming],
    number: usize,
    op: &NodeOp,
    found: &mut WaveHeads,
) -> Result<(), AllocError>
    requires namings { AreNamings (plan_of nodes.now) namings.now }
    requires op { op_at (plan_of nodes.now) number ≡ Some (op_of op.now) }
    ensures { OnOk result (found.new
        ≡ found.old ++ heads_by (plan_of nodes.now) number (op_of op.now)) }
{
    if !op.is_boundary() {
        return Ok(());
    }
    let combine = combines(alloc, nodes, namings, number, op)?;
    add_waves(op, node_number(number)?, combine, found)
}

// Nodes are numbered in 32 bits.
fn node_number(number: usize) -> Result<u32, AllocError>
    ensures { IfOk result (λ n. n ≡ number) }
{
    match u32::try_from(number) {
        Ok(found) => Ok(found),
        Err(_) => Err(AllocError),
    }
}

fn add_waves(op: &NodeOp, node: u32, combine: bool, found: &mut WaveHeads) -> Result<(), AllocError>
    ensures { OnOk result (found.new
        ≡ found.old ++ map (head_with node combine) (waves_of (op_of op.now))) }
{
    match op {
        NodeOp::Join { replicated, .. } => {
            if *replicated {
                add_head(WaveKind::Copy, node, false, found)?;
                return add_head(WaveKind::Probe, node, false, found);
            }
            add_both(node, combine, found)
        }
        NodeOp::Rank { .. } => {
            add_both(node, combine, found)?;
            add_head(WaveKind::Rank, node, false, found)
        }
        _ => add_both(node, combine, found),
    }
}

fn add_both(node: u32, combine: bool, found: &mut WaveHeads) -> Result<(), AllocError>
    ensures { OnOk result (found.new ≡ found.old
        ++ head_with node combine kinds.Map ∷ head_with node combine kinds.Reduce ∷ []) }
{
    add_head(WaveKind::Map, node, combine, found)?;
    add_head(WaveKind::Reduce, node, false, found)
}

fn add_head(
    kind: WaveKind,
    node: u32,
    combine: bool,
    found: &mut WaveHeads,
) -> Result<(), AllocError>
    ensures { OnOk result (found.new
        ≡ found.old ++ record { kind = kind; node = node; combine = combine } ∷ []) }
{
    found.push(WaveHead {
        kind,
        node,
        combine,
    })
}

// The wave of all STOREs, where one of these nodes is a STORE.
fn add_store_head(
    nodes: &[Node],
    numbers: &[usize],
    found: &mut WaveHeads,
) -> Result<(), AllocError>
    ensures { OnOk result (found.new
        ≡ found.old ++ store_head (plan_of nodes.now) numbers.now) }
{
    let mut left = numbers;
    while let [number, rest @ ..] = left {
        if is_store_at(nodes, *number) {
            return add_head(WaveKind::Store, node_number(*number)?, false, found);
        }
        left = rest;
    }
    Ok(())
}

fn is_store_at(nodes: &[Node], number: usize) -> bool
    ensures { result ≡ option_map_or is_store (op_at (plan_of nodes.now) number) false }
{
    match nodes.get(number) {
        Some(node) => node.op.is_store(),
        None => false,
    }
}
