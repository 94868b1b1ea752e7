//! The ways on which rows come, traced from a node back to the sources.
ghost use Rattle.std.specs.Prelude.{◌≡◌, ◌<◌, ◌++◌, ◌∷◌, [], Some, map, reverse, OnOk, IfOk};
ghost use Rattle.std.specs.List.{AllByRecursion, flat_map};
ghost use Rattle.pig_plan.specs.Nodes.{inputs_of, op_at, paths_of};
ghost use Rattle.pig_plan.specs.Plans.{op_of, plan_of};
ghost use Rattle.pig_plan.specs.Valid.{IsPlan};
ghost use Rattle.pig_physical.specs.Seen.{entering_of};
ghost use Rattle.pig_cutter.specs.Feeds.{ways_on};
ghost use Rattle.pig_cutter.specs.Traces.{behind};

use crate::feeding::{Feed, operator};
use pig_physical::{Path, Way, Ways};
use pig_plan::{Node, NodeOp};
use pig_value::Numbers;
use std::alloc::{AllocError, Global};

// Adds the ways on which the rows of a feed come.
pub fn add_ways(
    alloc: Global,
    nodes: &[Node],
    feed: &Feed,
    ways: &mut Ways,
) -> Result<(), AllocError>
    requires { IsPlan (plan_of nodes.now) }
    ensures { OnOk result (map entering_of ways.new
        ≡ map entering_of ways.old ++ ways_on (plan_of nodes.now) feed.now) }
{
    let mut trail = Numbers::new(alloc);
    trace(alloc, nodes, feed.from, feed.input, &mut trail, ways)
}

// Adds the ways of a node that go on through the nodes of the trail, the last one first.
#[cycle(trace)]
fn trace(
    alloc: Global,
    nodes: &[Node],
    number: u32,
    input: u32,
    trail: &mut Numbers,
    ways: &mut Ways,
) -> Result<(), AllocError>
    requires { IsPlan (plan_of nodes.now) }
    ensures ways { OnOk result (map entering_of ways.new ≡ map entering_of ways.old
        ++ map (behind input (reverse trail.old)) (paths_of (plan_of nodes.now) number)) }
    ensures trail { OnOk result (trail.new ≡ trail.old) }
{
    match operator(nodes, number) {
        Some(op) => {
            if op.is_source() {
                return add_way(alloc, number, input, trail.as_slice(), ways);
            }
            let inputs = lower_inputs(alloc, nodes, number, op)?;
            trace_inputs(alloc, nodes, number, inputs.as_slice(), input, trail, ways)
        }
        None => Ok(()),
    }
}

// The inputs of a node that is no source, which stand before it and whose ways come to it.
fn lower_inputs(
    alloc: Global,
    nodes: &[Node],
    number: u32,
    op: &NodeOp,
) -> Result<Numbers, AllocError>
    requires valid { IsPlan (plan_of nodes.now) }
    requires op { op_at (plan_of nodes.now) number ≡ Some (op_of op.now) }
    ensures is { IfOk result (λ inputs. inputs ≡ inputs_of (op_of op.now)) }
    ensures lower { IfOk result (λ inputs. AllByRecursion (λ i. i < number) inputs) }
{
    op.inputs(alloc)
}

// Adds the ways of the inputs of a node that go on through it and the trail.
#[cycle(trace)]
fn trace_inputs(
    alloc: Global,
    nodes: &[Node],
    number: u32,
    inputs: &[u32],
    input: u32,
    trail: &mut Numbers,
    ways: &mut Ways,
) -> Result<(), AllocError>
    requires valid { IsPlan (plan_of nodes.now) }
    requires lower { AllByRecursion (λ i. i < number) inputs.now }
    ensures ways { OnOk result (map entering_of ways.new ≡ map entering_of ways.old
        ++ flat_map (λ i. map (behind input (number ∷ reverse trail.old))
        (paths_of (plan_of nodes.now) i)) inputs.now) }
    ensures trail { OnOk result (trail.new ≡ trail.old) }
{
    trail.push(number)?;
    let mut left = inputs;
    while let [from, rest @ ..] = left {
        trace(alloc, nodes, *from, input, trail, ways)?;
        left = rest;
    }
    trail.pop();
    Ok(())
}

// The way from a source through the nodes of the trail, the last one first.
fn add_way(
    alloc: Global,
    source: u32,
    input: u32,
    trail: &[u32],
    ways: &mut Ways,
) -> Result<(), AllocError>
    ensures { OnOk result (map entering_of ways.new ≡ map entering_of ways.old
        ++ record {
          input = input;
          path = record { source = source; nodes = reverse trail.now };
        } ∷ []) }
{
    let nodes = turned(alloc, trail)?;
    let path = Path { source, nodes };
    ways.push(Way { input, path })
}

// Numbers, the last one first.
fn turned(alloc: Global, numbers: &[u32]) -> Result<Numbers, AllocError>
    ensures { IfOk result (λ found. found ≡ reverse numbers.now) }
{
    let mut found = Numbers::new(alloc);
    let mut left = numbers;
    while let [front @ .., last] = left {
        found.push(*last)?;
        left = front;
    }
    Ok(found)
}
