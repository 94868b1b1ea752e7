ghost use Rattle.std.specs.Prelude.{◌≡◌, ◌∷◌, [], IfOk};
ghost use Rattle.pig_schema.specs.FieldTrees.{schema_tree};
ghost use Rattle.pig_typing.specs.Results.{Tells};
ghost use Rattle.pig_relations.specs.Aliases.{aliases_of};
ghost use Rattle.pig_relations.specs.Operators.{op_tree};
ghost use Rattle.pig_check.specs.Statements.{assign_of, assigned, node_of, op_of, statement_of};
ghost use Rattle.pig_check.specs.Views.{added_tree, state_tree};

use crate::asserts::assert;
use crate::cubes::cube;
use crate::operators::{distinct, filter, foreach, limit, load, order, rank};
use crate::splits::split;
use crate::state::{Addition, GivenRelations, Progress, next_number};
use crate::stores::store;
use crate::unions::union;
use pig_relations::{
    Named, Relation, SharedSchema, TypedOp, type_group, type_group_all, type_join,
};
use pig_syntax::{Op, Stmt};
use pig_typing::{CheckKind, TypeFault};
use pig_value::{Seq, Text};
use std::alloc::{AllocError, Global};

// What a statement adds to what stands before it.
//
// # Errors
//
// `Refused` exactly where the statement has no typing, with a kind whose condition holds.
#[tactic(auto, unfolding(crate::specs::Statements::statement_of))]
pub fn statement(alloc: Global, state: &Progress, stmt: &Stmt) -> Result<Addition, TypeFault>
    ensures { Tells added_tree (statement_of (state_tree state.now) stmt.now) result }
{
    match stmt {
        Stmt::Empty => Ok(nothing(alloc)),
        Stmt::Assign { alias, op } => assign(alloc, state, alias, op),
        Stmt::Split {
            from,
            branches,
            otherwise,
        } => split(alloc, state, from, branches, otherwise),
        Stmt::Store { from, path, func } => store(alloc, state, from, path, func),
        Stmt::Assert {
            from,
            cond,
            message,
        } => assert(alloc, state, from, cond, message),
        Stmt::Unsupported => Err(TypeFault::Refused(CheckKind::Unsupported)),
    }
}

fn nothing(alloc: Global) -> Addition
    ensures { added_tree result ≡ record { ops = []; given = [] } }
{
    let ops = Seq::new(alloc);
    let given = Seq::new(alloc);
    Addition { ops, given }
}

fn assign(alloc: Global, state: &Progress, alias: &Text, op: &Op) -> Result<Addition, TypeFault>
    ensures { Tells added_tree (assign_of (state_tree state.now) alias.now op.now) result }
{
    match op {
        Op::Union { onschema, from } => union(alloc, state, alias, *onschema, from),
        Op::Cube { from, rollup, dims } => cube(alloc, state, alias, from, *rollup, dims),
        Op::Load { .. }
        | Op::Filter { .. }
        | Op::Foreach { .. }
        | Op::GroupAll { .. }
        | Op::Group { .. }
        | Op::Join { .. }
        | Op::Distinct { .. }
        | Op::Order { .. }
        | Op::Limit { .. }
        | Op::Rank { .. } => node(alloc, state, alias, op),
    }
}

#[tactic(auto, unfolding(crate::specs::Statements::node_of))]
fn node(alloc: Global, state: &Progress, alias: &Text, op: &Op) -> Result<Addition, TypeFault>
    ensures { Tells added_tree (node_of (state_tree state.now) alias.now op.now) result }
{
    let next = next_number(&state.plan)?;
    let typed = operator(alloc, state, op)?;
    Ok(assigned(alloc, next, alias, typed)?)
}

// The node of an operator, and the relation that it makes.
pub fn assigned(
    alloc: Global,
    next: u32,
    alias: &Text,
    typed: TypedOp,
) -> Result<Addition, AllocError>
    ensures { IfOk result (λ a. added_tree a ≡ assigned next alias.now (op_tree typed)) }
{
    let TypedOp { op, columns } = typed;
    let mut ops = Seq::new(alloc);
    ops.push(op)?;
    let given = given_one(alloc, alias, next, columns)?;
    Ok(Addition { ops, given })
}

// The relation of these columns at a node, with its alias.
pub fn given_one(
    alloc: Global,
    alias: &Text,
    node: u32,
    columns: SharedSchema,
) -> Result<GivenRelations, AllocError>
    ensures { IfOk result (λ given. aliases_of given
        ≡ (alias.now, record { node = node; columns = schema_tree columns }) ∷ []) }
{
    let alias = alias.copy(alloc)?;
    let relation = Relation { node, columns };
    let mut given = Seq::new(alloc);
    given.push(Named { alias, relation })?;
    Ok(given)
}

#[tactic(auto, unfolding(crate::specs::Statements::op_of))]
fn operator(alloc: Global, state: &Progress, op: &Op) -> Result<TypedOp, TypeFault>
    ensures { Tells op_tree (op_of (state_tree state.now) op.now) result }
{
    let relations = &state.relations;
    match op {
        Op::Load { path, func, schema } => load(alloc, &state.plan, path, func, schema),
        Op::Filter { from, cond } => filter(alloc, relations, from, cond),
        Op::Foreach { from, steps, items } => foreach(alloc, relations, from, steps, items),
        Op::GroupAll { from, using } => type_group_all(alloc, relations, from, using),
        Op::Group { inputs, using } => type_group(alloc, relations, inputs.as_slice(), using),
        Op::Join {
            inputs,
            side,
            using,
        } => type_join(alloc, relations, inputs.as_slice(), *side, using),
        Op::Distinct { from } => distinct(relations, from),
        Op::Order { from, keys } => order(alloc, relations, from, keys),
        Op::Limit { from, count } => limit(relations, from, *count),
        Op::Rank { from, keys, dense } => rank(alloc, relations, from, keys, *dense),
        // Nodes may stand before that of a UNION, and one stands before that of a CUBE.
        Op::Union { .. } | Op::Cube { .. } => Err(TypeFault::Refused(CheckKind::Unsupported)),
    }
}
