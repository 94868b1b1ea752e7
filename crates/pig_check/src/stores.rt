ghost use Rattle.std.specs.Prelude.{◌≡◌, IfOk};
ghost use Rattle.pig_plan.specs.Plans.{op_of, plan_of};
ghost use Rattle.pig_typing.specs.Results.{Tells};
ghost use Rattle.pig_relations.specs.Aliases.{relation_tree};
ghost use Rattle.pig_check.specs.States.{is_loaded, loads_beside};
ghost use Rattle.pig_check.specs.Statements.{apart_from, output_of, store_of, stored_at};
ghost use Rattle.pig_check.specs.Views.{added_tree, state_tree};

use crate::functions::delimiter;
use crate::operators::is_stored;
use crate::paths::{collide, path};
use crate::state::{Addition, Progress};
use pig_plan::{NodeOp, Plan};
use pig_relations::Relation;
use pig_syntax::Func;
use pig_typing::{CheckKind, TypeFault};
use pig_value::{Delim, Seq, Text};
use std::alloc::{AllocError, Global};

// STORE.
#[tactic(auto, unfolding(crate::specs::Statements::store_of))]
pub fn store(
    alloc: Global,
    state: &Progress,
    from: &Text,
    text: &Text,
    func: &Option<Func>,
) -> Result<Addition, TypeFault>
    ensures { Tells added_tree (store_of (state_tree state.now) from.now text.now func.now)
        result }
{
    let relation = state.relations.find(from)?;
    let path = output(alloc, &state.plan, text)?;
    let delim = delimiter(func)?;
    Ok(stored(alloc, relation, path, delim)?)
}

fn stored(
    alloc: Global,
    relation: &Relation,
    path: Text,
    delim: Delim,
) -> Result<Addition, AllocError>
    ensures { IfOk result (λ a. added_tree a
        ≡ stored_at (relation_tree relation.now) path delim) }
{
    let input = relation.node;
    let mut ops = Seq::new(alloc);
    ops.push(NodeOp::Store { input, path, delim })?;
    let given = Seq::new(alloc);
    Ok(Addition { ops, given })
}

#[tactic(auto, unfolding(crate::specs::Statements::output_of))]
fn output(alloc: Global, plan: &Plan, text: &Text) -> Result<Text, TypeFault>
    ensures { Tells (λ path. path) (output_of (plan_of plan.now) text.now) result }
{
    let path = path(alloc, text)?;
    apart_from(plan, path)
}

#[tactic(auto, unfolding(crate::specs::Statements::apart_from))]
fn apart_from(plan: &Plan, path: Text) -> Result<Text, TypeFault>
    ensures { Tells (λ path. path) (apart_from path (plan_of plan.now)) result }
{
    if is_stored(plan, &path) {
        return Err(TypeFault::Refused(CheckKind::OutputTwice));
    }
    if is_loaded(plan, &path) {
        return Err(TypeFault::Refused(CheckKind::SelfLoad));
    }
    Ok(path)
}

fn is_loaded(plan: &Plan, path: &Text) -> bool
    ensures { result ≡ is_loaded path.now (plan_of plan.now) }
{
    let nodes = plan.nodes().as_slice();
    for node in nodes {
        if loads_beside(path, &node.op) {
            return true;
        }
    }
    false
}

fn loads_beside(path: &Text, op: &NodeOp) -> bool
    ensures { result ≡ loads_beside path.now (op_of op.now) }
{
    match op {
        NodeOp::Load { path: other, .. } => collide(path.as_str(), other.as_str()),
        NodeOp::Filter { .. }
        | NodeOp::Foreach { .. }
        | NodeOp::GroupAll { .. }
        | NodeOp::Group { .. }
        | NodeOp::Join { .. }
        | NodeOp::Union { .. }
        | NodeOp::Distinct { .. }
        | NodeOp::Order { .. }
        | NodeOp::Limit { .. }
        | NodeOp::Store { .. }
        | NodeOp::Assert { .. }
        | NodeOp::Rank { .. } => false,
    }
}
