//! Whose rows the tasks of a wave read.
ghost use Rattle.std.specs.Prelude.{◌≡◌, ◌+◌, ◌++◌, ◌∷◌, [], take, drop, map, IfOk, OnOk};
ghost use Rattle.std.specs.List.{filter};
ghost use Rattle.std.specs.Option.{option_map};
ghost use Rattle.pig_plan.specs.Nodes.{op_at};
ghost use Rattle.pig_plan.specs.Plans.{op_of, plan_of};
ghost use Rattle.pig_cutter.specs.Feeds.{feeds_by, feeds_from, feeds_of, is_store_in, own_feed};

use pig_physical::{WaveHead, WaveKind};
use pig_plan::{Node, NodeOp};
use pig_value::{Numbers, Seq};
use std::alloc::{AllocError, Global};
use std::slice;

// The rows of a node that come to an input of another one, or that a STORE stores.
#[derive(Clone, Copy, Drop)]
pub struct Feed {
    pub node: u32,
    pub input: u32,
    pub from: u32,
}

pub type Feeds = Seq<Feed>;

// Whose rows the tasks of a wave read, in order; `stores` are the live STOREs.
pub fn feeds(
    alloc: Global,
    nodes: &[Node],
    stores: &[u32],
    head: &WaveHead,
) -> Result<Feeds, AllocError>
    ensures { IfOk result (λ found. found ≡ feeds_of (plan_of nodes.now) stores.now head.now) }
{
    match operator(nodes, head.node) {
        Some(op) => feeds_by(alloc, stores, head.kind, head.node, op),
        None => Ok(Feeds::new(alloc)),
    }
}

// The operator of the node of a number.
pub fn operator(nodes: &[Node], number: u32) -> Option<&NodeOp>
    ensures { option_map (λ op. op_of op.now) result ≡ op_at (plan_of nodes.now) number }
{
    match nodes.get(number as usize) {
        Some(node) => Some(&node.op),
        None => None,
    }
}

fn feeds_by(
    alloc: Global,
    stores: &[u32],
    kind: WaveKind,
    node: u32,
    op: &NodeOp,
) -> Result<Feeds, AllocError>
    ensures { IfOk result (λ found. found ≡ feeds_by stores.now kind node (op_of op.now)) }
{
    match kind {
        WaveKind::Map => {
            let inputs = op.inputs(alloc)?;
            feeds_from(alloc, node, 0, inputs.as_slice())
        }
        WaveKind::Copy => {
            let inputs = op.inputs(alloc)?;
            feeds_from(alloc, node, 1, behind_first(inputs.as_slice()))
        }
        WaveKind::Probe => {
            let inputs = op.inputs(alloc)?;
            feeds_from(alloc, node, 0, first_alone(inputs.as_slice()))
        }
        WaveKind::Store => own_feeds(alloc, stores),
        WaveKind::Reduce => Ok(Feeds::new(alloc)),
        WaveKind::Rank => Ok(Feeds::new(alloc)),
    }
}

fn behind_first(numbers: &[u32]) -> &[u32]
    ensures { result.now ≡ drop 1 numbers.now }
{
    match numbers {
        [] => numbers,
        [_, rest @ ..] => rest,
    }
}

// The first of numbers, where there is one.
pub fn first_alone(numbers: &[u32]) -> &[u32]
    ensures { result.now ≡ take 1 numbers.now }
{
    match numbers {
        [] => numbers,
        [first, ..] => slice::from_ref(first),
    }
}

// The rows of these nodes, which come to the inputs of a node from `first` on.
fn feeds_from(alloc: Global, node: u32, first: u32, inputs: &[u32]) -> Result<Feeds, AllocError>
    ensures { IfOk result (λ found. found ≡ feeds_from node first inputs.now) }
{
    let mut found = Feeds::new(alloc);
    let mut input = first;
    let mut left = inputs;
    while let [from, rest @ ..] = left {
        found.push(Feed {
            node,
            input,
            from: *from,
        })?;
        input = next(input)?;
        left = rest;
    }
    Ok(found)
}

// The number behind another one, in 32 bits.
pub fn next(number: u32) -> Result<u32, AllocError>
    ensures { IfOk result (λ next. next ≡ number + 1) }
{
    match number.checked_add(1) {
        Some(next) => Ok(next),
        None => Err(AllocError),
    }
}

fn own_feeds(alloc: Global, stores: &[u32]) -> Result<Feeds, AllocError>
    ensures { IfOk result (λ found. found ≡ map own_feed stores.now) }
{
    let mut found = Feeds::new(alloc);
    let mut left = stores;
    while let [store, rest @ ..] = left {
        found.push(own_feed(*store))?;
        left = rest;
    }
    Ok(found)
}

fn own_feed(store: u32) -> Feed
    ensures { result ≡ own_feed store }
{
    Feed {
        node: store,
        input: 0,
        from: store,
    }
}

// The STOREs among nodes.
pub fn stores(alloc: Global, nodes: &[Node], numbers: &[usize]) -> Result<Numbers, AllocError>
    ensures { IfOk result (λ found. found ≡ filter (is_store_in (plan_of nodes.now)) numbers.now) }
{
    let mut found = Numbers::new(alloc);
    let mut left = numbers;
    while let [number, rest @ ..] = left {
        keep_store(nodes, *number, &mut found)?;
        left = rest;
    }
    Ok(found)
}

// Adds the number of a node where it is a STORE.
fn keep_store(nodes: &[Node], number: usize, found: &mut Numbers) -> Result<(), AllocError>
    ensures { OnOk result (found.new
        ≡ found.old ++ filter (is_store_in (plan_of nodes.now)) (number ∷ [])) }
{
    if !is_store_in(nodes, number) {
        return Ok(());
    }
    match u32::try_from(number) {
        Ok(number) => found.push(number),
        Err(_) => Err(AllocError),
    }
}

fn is_store_in(nodes: &[Node], number: usize) -> bool
    ensures { result ≡ is_store_in (plan_of nodes.now) number }
{
    match nodes.get(number) {
        Some(node) => node.op.is_store(),
        None => false,
    }
}
