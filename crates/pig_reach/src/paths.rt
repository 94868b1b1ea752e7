ghost use Rattle.std.specs.Prelude.{◌≡◌, IfOk, OnOk};
ghost use Rattle.pig_reach.specs.Paths.{is_among, with_new, with_path, with_path_at};
ghost use Rattle.pig_plan.specs.Plans.{node_of, plan_of};
ghost use Rattle.pig_reach.specs.Reach.{live_paths};

use pig_plan::{Node, NodeOp, Plan, live_numbers};
use pig_value::{Text, Texts};
use std::alloc::{AllocError, Global};

/// The paths of the LOADs that a STORE reaches, each once, in order.
pub fn live_paths(alloc: Global, plan: &Plan) -> Result<Texts, AllocError>
    ensures { IfOk result (λ paths. paths ≡ live_paths (plan_of plan.now)) }
{
    let numbers = live_numbers(alloc, plan)?;
    let nodes = plan.nodes().as_slice();
    let mut paths = Texts::new(alloc);
    for place in 0..numbers.len() {
        add_path_at(alloc, nodes, numbers[place], &mut paths)?;
    }
    Ok(paths)
}

// Adds the path of the node of a number.
fn add_path_at(
    alloc: Global,
    nodes: &[Node],
    number: usize,
    paths: &mut Texts,
) -> Result<(), AllocError>
    ensures { OnOk result (paths.new ≡ with_path_at (plan_of nodes.now) number paths.old) }
{
    match nodes.get(number) {
        Some(node) => add_path(alloc, node, paths),
        None => Ok(()),
    }
}

// Adds the path of a LOAD where it is not there yet.
fn add_path(alloc: Global, node: &Node, paths: &mut Texts) -> Result<(), AllocError>
    ensures { OnOk result (paths.new ≡ with_path paths.old (node_of node.now)) }
{
    match &node.op {
        NodeOp::Load { path, .. } => add_new(alloc, path, paths),
        _ => Ok(()),
    }
}

fn add_new(alloc: Global, path: &Text, paths: &mut Texts) -> Result<(), AllocError>
    ensures { OnOk result (paths.new ≡ with_new paths.old path.now) }
{
    if is_among(path, paths) {
        return Ok(());
    }
    let path = path.copy(alloc)?;
    paths.push(path)
}

// Whether a path is one of these.
fn is_among(path: &Text, paths: &Texts) -> bool
    ensures { result ≡ is_among path.now paths.now }
{
    let mut left = paths.as_slice();
    while let [other, rest @ ..] = left {
        if path.as_bytes() == other.as_bytes() {
            return true;
        }
        left = rest;
    }
    false
}
