ghost use Rattle.std.specs.Prelude.{◌≡◌, [], ◌∷◌, IfOk, map};
ghost use Rattle.pig_schema.specs.FieldTrees.{schema_tree};
ghost use Rattle.pig_plan.specs.Plans.{op_of, p_filter};
ghost use Rattle.pig_typed.specs.Typed.{link_of, links_of, typed, x_chain, x_not};
ghost use Rattle.pig_typing.specs.Results.{Tells};
ghost use Rattle.pig_relations.specs.Aliases.{aliases_of, relation_tree};
ghost use Rattle.pig_check.specs.Splits.{all_conditions, any_of, branch_aliases, conditions_of, or_link, relations_from, split_into, split_of};
ghost use Rattle.pig_check.specs.States.{row_of};
ghost use Rattle.pig_check.specs.Views.{added_tree, state_tree};

use crate::operators::condition;
use crate::state::{Addition, GivenRelations, NodeOps, Progress, behind, next_number};
use pig_plan::NodeOp;
use pig_relations::{Named, Relation, SharedSchema};
use pig_schema::Schema;
use pig_syntax::{Branch, Branches};
use pig_typed::{TExpr, TExprs, TLink, TLinks, copy_expr};
use pig_typing::TypeFault;
use pig_value::{Boxed, ChainOp, Seq, Text};
use std::alloc::{AllocError, Global};

// SPLIT.
#[tactic(auto, unfolding(crate::specs::Splits::split_of))]
pub fn split(
    alloc: Global,
    state: &Progress,
    from: &Text,
    branches: &Branches,
    otherwise: &Option<Text>,
) -> Result<Addition, TypeFault>
    ensures { Tells added_tree
        (split_of (state_tree state.now) from.now branches.now otherwise.now) result }
{
    let next = next_number(&state.plan)?;
    let relation = state.relations.find(from)?;
    let conds = conditions(alloc, relation.columns.get()?, branches.as_slice())?;
    Ok(split_into(alloc, next, relation, branches, otherwise, conds)?)
}

#[tactic(auto, unfolding(crate::specs::Splits::conditions_of))]
fn conditions(alloc: Global, columns: &Schema, branches: &[Branch]) -> Result<TExprs, TypeFault>
    ensures { Tells (map typed) (conditions_of (row_of (schema_tree columns.now)) branches.now)
        result }
{
    let mut conds = Seq::with_capacity(alloc, branches.len())?;
    for branch in branches {
        let cond = condition(alloc, columns, &branch.cond)?;
        conds.push(cond)?;
    }
    Ok(conds)
}

fn split_into(
    alloc: Global,
    next: u32,
    relation: &Relation,
    branches: &Branches,
    otherwise: &Option<Text>,
    conds: TExprs,
) -> Result<Addition, AllocError>
    ensures { IfOk result (λ a. added_tree a ≡ split_into next (relation_tree relation.now)
        branches.now otherwise.now (map typed conds)) }
{
    let given = given(
        alloc,
        next,
        &relation.columns,
        branches.as_slice(),
        otherwise,
    )?;
    let conds = with_otherwise(alloc, conds, otherwise)?;
    let ops = filters(alloc, relation.node, conds)?;
    Ok(Addition { ops, given })
}

fn filters(alloc: Global, input: u32, conds: TExprs) -> Result<NodeOps, AllocError>
    ensures { IfOk result (λ ops. map op_of ops ≡ map (p_filter input) (map typed conds)) }
{
    let mut ops = Seq::with_capacity(alloc, conds.len())?;
    for cond in conds.into_vec() {
        ops.push(NodeOp::Filter { input, cond })?;
    }
    Ok(ops)
}

// The conditions, and where there is OTHERWISE the negation of all.
fn with_otherwise(
    alloc: Global,
    conds: TExprs,
    otherwise: &Option<Text>,
) -> Result<TExprs, AllocError>
    ensures { IfOk result (λ all. map typed all
        ≡ all_conditions (map typed conds) otherwise.now) }
{
    match otherwise {
        Some(_) => {
            let mut all = conds;
            let none = none_of(alloc, &all)?;
            all.push(none)?;
            Ok(all)
        }
        None => Ok(conds),
    }
}

fn none_of(alloc: Global, conds: &TExprs) -> Result<TExpr, AllocError>
    ensures { IfOk result (λ none. typed none ≡ x_not (any_of (map typed conds.now))) }
{
    let any = any_of(alloc, conds.as_slice())?;
    Ok(TExpr::Not(Boxed::new(alloc, any)?))
}

fn any_of(alloc: Global, conds: &[TExpr]) -> Result<TExpr, AllocError>
    ensures { IfOk result (λ any. typed any ≡ any_of (map typed conds.now)) }
{
    match conds {
        [] => Ok(TExpr::Bool(false)),
        [only] => copy_expr(alloc, only),
        [first, rest @ ..] => either(alloc, first, rest),
    }
}

fn either(alloc: Global, first: &TExpr, rest: &[TExpr]) -> Result<TExpr, AllocError>
    ensures { IfOk result (λ any. typed any
        ≡ x_chain (typed first.now) (links_of (map or_link (map typed rest.now)))) }
{
    let rest = or_links(alloc, rest)?;
    let first = Boxed::new(alloc, copy_expr(alloc, first)?)?;
    Ok(TExpr::Chain { first, rest })
}

fn or_links(alloc: Global, conds: &[TExpr]) -> Result<TLinks, AllocError>
    ensures { IfOk result (λ links. map link_of links ≡ map or_link (map typed conds.now)) }
{
    let mut links = Seq::with_capacity(alloc, conds.len())?;
    for cond in conds {
        let a = copy_expr(alloc, cond)?;
        links.push(TLink { op: ChainOp::Or, a })?;
    }
    Ok(links)
}

// The relations of the branches, at the nodes from `next` on, and last that of OTHERWISE.
fn given(
    alloc: Global,
    next: u32,
    columns: &SharedSchema,
    branches: &[Branch],
    otherwise: &Option<Text>,
) -> Result<GivenRelations, AllocError>
    ensures { IfOk result (λ given. aliases_of given
        ≡ relations_from next (schema_tree columns.now)
        (branch_aliases branches.now otherwise.now)) }
{
    let mut given = Seq::with_capacity(alloc, branches.len())?;
    let mut node = next;
    for branch in branches {
        given.push(named(alloc, &branch.alias, node, columns)?)?;
        node = behind(node)?;
    }
    if let Some(alias) = otherwise {
        given.push(named(alloc, alias, node, columns)?)?;
    }
    Ok(given)
}

fn named(
    alloc: Global,
    alias: &Text,
    node: u32,
    columns: &SharedSchema,
) -> Result<Named, AllocError>
    ensures { IfOk result (λ n. aliases_of (n ∷ [])
        ≡ relations_from node (schema_tree columns.now) (alias.now ∷ [])) }
{
    let alias = alias.copy(alloc)?;
    let columns = columns.share()?;
    let relation = Relation { node, columns };
    Ok(Named { alias, relation })
}
