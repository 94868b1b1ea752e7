//! What bare LIMITs kept.
ghost use Rattle.std.specs.Prelude.{◌≡◌, ◌++◌, [], false, drop, map, slice_get, IfOk, OnOk};
ghost use Rattle.std.specs.Option.{option_map_or};
ghost use Rattle.pig_value.specs.Trees.{rows_tree};
ghost use Rattle.pig_plan.specs.Nodes.{is_bare as is_bare_op, is_sorted, live};
ghost use Rattle.pig_plan.specs.Plans.{node_of, op_of, plan_of};
ghost use Rattle.pig_plan.specs.Results.{at_place};
ghost use Rattle.pig_physical.specs.Handed.{form_of, out_of, outs_of};
ghost use Rattle.pig_physical.specs.Outs.{outs_at, rows_in};
ghost use Rattle.pig_physical.specs.Running.{AreOutputs};
ghost use Rattle.pig_collect.specs.Keeping.{chosen_at, chosen_by, chosen_in, chosen_of, wave_count, wave_rows, waves_at};

use pig_physical::{Out, OutForm};
use pig_plan::{Node, NodeOp, Plan, is_marked, live_numbers, sorted_marks};
use pig_value::{Kept, KeptList, OutList, Rows};
use std::alloc::{AllocError, Global};

// What each live bare LIMIT kept, in order: the rows of its last wave.
pub fn kept(alloc: Global, plan: &Plan, outs: &[OutList<Out>]) -> Result<KeptList, AllocError>
    ensures { IfOk result (λ kept. AreOutputs (plan_of plan.now) (outs_of outs.now) kept) }
{
    let numbers = live_numbers(alloc, plan)?;
    let nodes = plan.nodes().as_slice();
    let sorted = sorted_marks(alloc, nodes)?;
    all_kept(alloc, nodes, numbers.as_slice(), sorted.as_slice(), outs)
}

// Passes the waves of the nodes, one node after the other.
fn all_kept(
    alloc: Global,
    nodes: &[Node],
    numbers: &[usize],
    sorted: &[bool],
    outs: &[OutList<Out>],
) -> Result<KeptList, AllocError>
    ensures { IfOk result (λ kept. map chosen_of kept ≡ chosen_in (at_place false sorted.now)
        (plan_of nodes.now) numbers.now (outs_of outs.now)) }
{
    let mut kept = KeptList::new(alloc);
    let mut left = outs;
    let mut ahead = numbers;
    while let [number, rest @ ..] = ahead {
        keep_at(alloc, nodes, *number, sorted, left, &mut kept)?;
        left = behind(nodes, *number, left);
        ahead = rest;
    }
    Ok(kept)
}

// The waves behind those of a node.
fn behind<'o>(nodes: &[Node], number: usize, outs: &'o [OutList<Out>]) -> &'o [OutList<Out>]
    ensures { result.now ≡ drop (waves_at (plan_of nodes.now) number) outs.now }
{
    match nodes.get(number) {
        Some(node) => &outs[wave_count(&node.op).min(outs.len())..],
        None => outs,
    }
}

// Each operator stands here, so that a new one is thought of.
fn wave_count(op: &NodeOp) -> usize
    ensures { result ≡ wave_count (op_of op.now) }
{
    match op {
        NodeOp::Rank { .. } => 3,
        NodeOp::GroupAll { .. } => 2,
        NodeOp::Group { .. } => 2,
        NodeOp::Join { .. } => 2,
        NodeOp::Distinct { .. } => 2,
        NodeOp::Order { .. } => 2,
        NodeOp::Limit { .. } => 2,
        NodeOp::Load { .. } => 0,
        NodeOp::Filter { .. } => 0,
        NodeOp::Foreach { .. } => 0,
        NodeOp::Union { .. } => 0,
        NodeOp::Store { .. } => 0,
        NodeOp::Assert { .. } => 0,
    }
}

// What the node of a number kept, whose waves stand in front.
fn keep_at(
    alloc: Global,
    nodes: &[Node],
    number: usize,
    sorted: &[bool],
    outs: &[OutList<Out>],
    kept: &mut KeptList,
) -> Result<(), AllocError>
    ensures { OnOk result (map chosen_of kept.new ≡ map chosen_of kept.old
        ++ chosen_at (at_place false sorted.now) (plan_of nodes.now) number (outs_of outs.now)) }
{
    match nodes.get(number) {
        Some(node) => keep(alloc, node, sorted, outs, kept),
        None => Ok(()),
    }
}

fn keep(
    alloc: Global,
    node: &Node,
    sorted: &[bool],
    outs: &[OutList<Out>],
    kept: &mut KeptList,
) -> Result<(), AllocError>
    ensures { OnOk result (map chosen_of kept.new ≡ map chosen_of kept.old
        ++ chosen_by (at_place false sorted.now) (outs_of outs.now) (node_of node.now)) }
{
    if !is_bare(&node.op, sorted) {
        return Ok(());
    }
    kept.push(Kept {
        statement: node.statement,
        rows: rows_at(alloc, outs, 1)?,
    })
}

// Whether a node is a LIMIT that stands on no sorted node.
fn is_bare(op: &NodeOp, sorted: &[bool]) -> bool
    ensures { result ≡ is_bare_op (at_place false sorted.now) (op_of op.now) }
{
    match op {
        NodeOp::Limit { input, .. } => !is_marked(sorted, *input),
        _ => false,
    }
}

fn rows_at(alloc: Global, outs: &[OutList<Out>], wave: usize) -> Result<Rows, AllocError>
    ensures { IfOk result (λ rows. rows_tree rows
        ≡ wave_rows (outs_at (outs_of outs.now) wave)) }
{
    match outs.get(wave) {
        Some(outs) => wave_rows(alloc, outs.as_slice()),
        None => Ok(Rows::new(alloc)),
    }
}

fn wave_rows(alloc: Global, outs: &[Out]) -> Result<Rows, AllocError>
    ensures { IfOk result (λ rows. rows_tree rows ≡ wave_rows (map out_of outs.now)) }
{
    let mut rows = Rows::new(alloc);
    let mut left = outs;
    while let [out, rest @ ..] = left {
        rows.extend(rows_in(alloc, &out.form)?)?;
        left = rest;
    }
    Ok(rows)
}

fn rows_in(alloc: Global, form: &OutForm) -> Result<Rows, AllocError>
    ensures { IfOk result (λ rows. rows_tree rows ≡ rows_in (form_of form.now)) }
{
    match form.rows() {
        Some(rows) => rows.between(alloc, 0, rows.len()),
        None => Ok(Rows::new(alloc)),
    }
}
