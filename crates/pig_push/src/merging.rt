//! FILTERs that stand on FILTERs become one, all in one pass.
ghost use Rattle.std.specs.Prelude.{◌≡◌, ◌++◌, ℕ, IfOk, MatchOption, OnOk, ⊤, map};
ghost use Rattle.std.specs.List.{flat_map};
ghost use Rattle.pig_plan.specs.Conjuncts.{conjuncts};
ghost use Rattle.pig_plan.specs.Plans.{node_of, op_of, p_filter, plan_of};
ghost use Rattle.pig_typed.specs.Typed.{Typed, typed};
ghost use Rattle.pig_moves.specs.Pushed.{GoesOn};
ghost use Rattle.pig_push.specs.Merged.{AreOver, IsOver, Merges, OnFilter, all_conjoined, gone_as, held_as, plan_held, with_all};

use crate::clearing::known_plan;
use crate::moving::planned;
use crate::readers::{ReadCount, is_lone, readers};
use pig_moves::{add_conjuncts, chained, conjuncts};
use pig_plan::{Node, NodeOp, Nodes, Plan, no_rows};
use pig_typed::{TExpr, TExprs, copy_expr};
use pig_value::Seq;
use std::alloc::{AllocError, Global};
use std::mem;

// A node, and the conditions that its own is to be joined with.
#[derive(Drop)]
pub struct Held {
    node: Node,
    more: TExprs,
}

// The plan in which each FILTER that stands on a FILTER that it alone reads is one with it.
pub fn merged(alloc: Global, plan: Plan) -> Result<Plan, AllocError>
    ensures { IfOk result (λ q. GoesOn (plan_of plan) (plan_of q)) }
{
    let readers = readers(alloc, &plan)?;
    known_plan(&plan);
    let mut held = held_nodes(alloc, plan.into_nodes())?;
    for high in 0..held.len() {
        merge_at(alloc, readers.as_slice(), &mut held, high)?;
    }
    drop(readers);
    let nodes = joined_nodes(alloc, held)?;
    planned(alloc, nodes)
}

// The nodes, each with no further condition.
fn held_nodes(alloc: Global, nodes: Nodes) -> Result<Seq<Held>, AllocError>
    ensures { IfOk result (λ held. plan_held held ≡ plan_of nodes) }
{
    let mut held = Seq::new(alloc);
    for node in nodes.into_vec() {
        let more = TExprs::new(alloc);
        held.push(Held { node, more })?;
    }
    Ok(held)
}

// Makes the FILTER at a place one with that which it stands on, where it alone reads this.
fn merge_at(
    alloc: Global,
    readers: &[ReadCount],
    held: &mut Seq<Held>,
    high: usize,
) -> Result<(), AllocError>
    ensures { OnOk result (Merges readers.now (plan_held held.old) (plan_held held.new)) }
{
    let Some(low) = filter_below(readers, held.as_slice(), high) else {
        return Ok(());
    };
    merge(alloc, held, low as usize, high)
}

// The number of the FILTER that the one at a place stands on and alone reads.
fn filter_below(readers: &[ReadCount], held: &[Held], high: usize) -> Option<u32>
    ensures { MatchOption result ⊤ (λ low. OnFilter readers.now held.now low high) }
{
    let Some(above) = held.get(high) else {
        return None;
    };
    let NodeOp::Filter { input, .. } = &above.node.op else {
        return None;
    };
    let Some(under) = held.get(*input as usize) else {
        return None;
    };
    let NodeOp::Filter { .. } = &under.node.op else {
        return None;
    };
    if !above.more.is_empty() || !is_lone(readers, *input) {
        return None;
    }
    Some(*input)
}

// Puts both FILTERs at the upper place, and what reads nothing at the lower one.
fn merge(alloc: Global, held: &mut Seq<Held>, low: usize, high: usize) -> Result<(), AllocError>
    ensures { OnOk result (AreOver held.old held.new low high) }
{
    if high <= low || held.len() <= high {
        return Err(AllocError);
    }
    let spare = idle(alloc, 0)?;
    let above = held.replace(high, spare);
    let gone = idle(alloc, above.node.statement)?;
    let under = held.replace(low, gone);
    let both = over(under, above)?;
    let last = held.replace(high, both);
    drop(last);
    Ok(())
}

// A node that reads nothing.
fn idle(alloc: Global, statement: u32) -> Result<Held, AllocError>
    ensures { IfOk result (λ h. held_as h ≡ gone_as statement) }
{
    let op = no_rows(alloc)?;
    let node = Node { op, statement };
    let more = TExprs::new(alloc);
    Ok(Held { node, more })
}

// The lower FILTER with the condition of the upper one.
fn over(under: Held, above: Held) -> Result<Held, AllocError>
    ensures { IfOk result (λ both. IsOver under above both) }
{
    let cond = condition(above)?;
    let Held { node, mut more } = under;
    more.push(cond)?;
    Ok(Held { node, more })
}

// The condition of a FILTER.
fn condition(held: Held) -> Result<TExpr, AllocError>
    ensures { IfOk result (λ c. (input : ℕ) (cond : Typed)
        → op_of held.node.op ≡ p_filter input cond → typed c ≡ cond) }
{
    let Held { mut node, more: _ } = held;
    taken(&mut node.op)
}

// Takes the condition out of a FILTER, which is let go.
fn taken(op: &mut NodeOp) -> Result<TExpr, AllocError>
    ensures { IfOk result (λ c. (input : ℕ) (cond : Typed)
        → op_of op.old ≡ p_filter input cond → typed c ≡ cond) }
{
    match op {
        NodeOp::Filter { cond, .. } => Ok(mem::replace(cond, TExpr::Null)),
        _ => Err(AllocError),
    }
}

// The nodes, each with its conditions as one.
fn joined_nodes(alloc: Global, held: Seq<Held>) -> Result<Nodes, AllocError>
    ensures { IfOk result (λ nodes. plan_of nodes ≡ plan_held held) }
{
    let mut nodes = Nodes::new(alloc);
    for one in held.into_vec() {
        let node = joined_node(alloc, one)?;
        nodes.push(node)?;
    }
    Ok(nodes)
}

fn joined_node(alloc: Global, held: Held) -> Result<Node, AllocError>
    ensures { IfOk result (λ node. node_of node ≡ held_as held) }
{
    let Held { mut node, more } = held;
    join(alloc, &mut node.op, &more)?;
    Ok(node)
}

// Joins the condition of a FILTER with others. Nothing else is held with any; that is tested.
fn join(alloc: Global, op: &mut NodeOp, more: &TExprs) -> Result<(), AllocError>
    ensures { OnOk result (op_of op.new ≡ with_all (map typed more.now) (op_of op.old)) }
{
    if more.is_empty() {
        return Ok(());
    }
    match op {
        NodeOp::Filter { cond, .. } => {
            *cond = all_conjoined(alloc, cond, more)?;
            Ok(())
        }
        _ => Err(AllocError),
    }
}

// A condition and others as one chain.
fn all_conjoined(alloc: Global, cond: &TExpr, more: &TExprs) -> Result<TExpr, AllocError>
    ensures { IfOk result (λ c. typed c
        ≡ all_conjoined (typed cond.now) (map typed more.now)) }
{
    if more.is_empty() {
        return copy_expr(alloc, cond);
    }
    let mut all = conjuncts(alloc, cond)?;
    add_all(alloc, more.as_slice(), &mut all)?;
    chained(alloc, all)
}

// Adds copies of the conjuncts of conditions to a list.
fn add_all(alloc: Global, conditions: &[TExpr], into: &mut TExprs) -> Result<(), AllocError>
    ensures { OnOk result (map typed into.new
        ≡ map typed into.old ++ flat_map conjuncts (map typed conditions.now)) }
{
    let mut left = conditions;
    while let [first, rest @ ..] = left {
        add_conjuncts(alloc, first, into)?;
        left = rest;
    }
    Ok(())
}
