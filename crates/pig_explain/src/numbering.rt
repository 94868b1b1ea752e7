//! Which nodes are printed, in which order, and by which numbers.
ghost use Rattle.std.specs.Prelude.{◌≡◌, ◌==◌, ◌<◌, ◌++◌, ◌∷◌, [], if◌then◌else◌, length, map, IfOk, OnOk};
ghost use Rattle.std.specs.List.{fold, position};
ghost use Rattle.pig_plan.specs.Nodes.{is_store};
ghost use Rattle.pig_plan.specs.Plans.{op_of, plan_of};
ghost use Rattle.pig_explain.specs.Numbered.{inputs_at, is_listed, place, post_order, visit, visit_store, visit_stores};

use pig_plan::{Node, NodeOp, Plan};
use pig_value::Numbers;
use std::alloc::{AllocError, Global};

// The number that a node is printed by: its place in the order of what is printed.
pub fn place(order: &[usize], number: usize) -> usize
    ensures { result ≡ place order.now number }
{
    match position_of(order, number) {
        Some(at) => at,
        None => order.len(),
    }
}

fn position_of(order: &[usize], number: usize) -> Option<usize>
    ensures { result ≡ position (λ n. n == number) order.now }
{
    order.iter().position(|n| *n == number)
}

// The nodes that STOREs reach in post-order, from the STOREs in turn.
pub fn post_order(alloc: Global, plan: &Plan) -> Result<Vec<usize>, AllocError>
    ensures { IfOk result (λ order. order.items ≡ post_order (plan_of plan.now)) }
{
    let nodes = plan.nodes().as_slice();
    let mut listed = Vec::new(alloc);
    visit_stores(alloc, nodes, &mut listed)?;
    Ok(listed)
}

fn visit_stores(alloc: Global, nodes: &[Node], listed: &mut Vec<usize>) -> Result<(), AllocError>
    ensures { OnOk result (listed.new.items
        ≡ visit_stores (plan_of nodes.now) 0 listed.old.items (plan_of nodes.now)) }
{
    for number in 0..nodes.len() {
        visit_store(alloc, nodes, number, &nodes[number].op, listed)?;
    }
    Ok(())
}

fn visit_store(
    alloc: Global,
    nodes: &[Node],
    number: usize,
    op: &NodeOp,
    listed: &mut Vec<usize>,
) -> Result<(), AllocError>
    ensures { OnOk result (listed.new.items
        ≡ visit_store (plan_of nodes.now) number (op_of op.now) listed.old.items) }
{
    if !op.is_store() {
        return Ok(());
    }
    visit(alloc, nodes, nodes.len(), number, listed)
}

// A node behind those that are listed, its inputs before it, and none a second time.
//
// The calls nest as deep as the way from the node down to a LOAD is long.
#[cycle(visit)]
fn visit(
    alloc: Global,
    nodes: &[Node],
    depth: usize,
    number: usize,
    listed: &mut Vec<usize>,
) -> Result<(), AllocError>
    ensures { OnOk result (listed.new.items
        ≡ visit depth (plan_of nodes.now) listed.old.items number) }
{
    if depth == 0 {
        return Ok(());
    }
    if is_listed(listed.as_slice(), number) {
        return Ok(());
    }
    let inputs = inputs_at(alloc, nodes, number)?;
    visit_all(alloc, nodes, depth - 1, inputs.as_slice(), listed)?;
    listed.push(number)?;
    Ok(())
}

#[cycle(visit)]
fn visit_all(
    alloc: Global,
    nodes: &[Node],
    depth: usize,
    inputs: &[u32],
    listed: &mut Vec<usize>,
) -> Result<(), AllocError>
    ensures { OnOk result (listed.new.items
        ≡ fold (visit depth (plan_of nodes.now)) listed.old.items inputs.now) }
{
    for input in inputs {
        visit(alloc, nodes, depth, *input as usize, listed)?;
    }
    Ok(())
}

fn is_listed(listed: &[usize], number: usize) -> bool
    ensures { result ≡ is_listed listed.now number }
{
    listed.iter().any(|n| *n == number)
}

fn inputs_at(alloc: Global, nodes: &[Node], number: usize) -> Result<Numbers, AllocError>
    ensures { IfOk result (λ inputs. inputs ≡ inputs_at (plan_of nodes.now) number) }
{
    match nodes.get(number) {
        Some(node) => node.op.inputs(alloc),
        None => Ok(Numbers::new(alloc)),
    }
}
