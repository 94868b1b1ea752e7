ghost use Rattle.std.specs.Prelude.{◌≡◌, ◌++◌, IfOk, codes};
ghost use Rattle.pig_value.specs.Trees.{k_long};
ghost use Rattle.pig_schema.specs.FieldTrees.{named_tree, schema_tree, tree_kind};
ghost use Rattle.pig_syntax.specs.ExprTrees.{expr_form};
ghost use Rattle.pig_plan.specs.Plans.{op_of, plan_of, p_load};
ghost use Rattle.pig_typed.specs.Typed.{typed};
ghost use Rattle.pig_typing.specs.Conditions.{condition_on};
ghost use Rattle.pig_typing.specs.Results.{Tells};
ghost use Rattle.pig_typing.specs.Written.{scalar_column, with_name};
ghost use Rattle.pig_relations.specs.Aliases.{aliases_of};
ghost use Rattle.pig_relations.specs.Operators.{op_tree};
ghost use Rattle.pig_check.specs.Operators.{block_of, columns_from, distinct_of, filter_of, input_of, kind_from, limit_of, load_of, made, not_stored, order_of, rank_columns, rank_name, rank_of, schema_of};
ghost use Rattle.pig_check.specs.States.{is_stored, row_of, stores_beside};

use crate::functions::delimiter;
use crate::paths::{collide, path};
use crate::state::behind;
use pig_blocks::{sort_keys, type_foreach};
use pig_plan::{NodeOp, Plan};
use pig_relations::{Relations, TypedOp};
use pig_schema::{Field, Schema, copy_schema};
use pig_syntax::{Expr, Fields, Func, Items, OrderKeys, Steps};
use pig_typed::TExpr;
use pig_typing::{
    CheckKind, Locals, Scope, TypeFault, row_within_limits, type_condition, written_schema,
};
use pig_value::{Column, Columns, Delim, Kind, Seq, Text, copy_kind};
use std::alloc::{AllocError, Global};

// LOAD.
#[tactic(auto, unfolding(crate::specs::Operators::load_of))]
pub fn load(
    alloc: Global,
    plan: &Plan,
    text: &Text,
    func: &Option<Func>,
    fields: &Fields,
) -> Result<TypedOp, TypeFault>
    ensures { Tells op_tree (load_of (plan_of plan.now) text.now func.now fields.now) result }
{
    let path = input(alloc, plan, text)?;
    let delim = delimiter(func)?;
    let columns = schema(alloc, fields)?;
    Ok(loaded(alloc, path, delim, columns)?)
}

#[tactic(auto, unfolding(crate::specs::Operators::input_of))]
fn input(alloc: Global, plan: &Plan, text: &Text) -> Result<Text, TypeFault>
    ensures { Tells (λ path. path) (input_of (plan_of plan.now) text.now) result }
{
    let path = path(alloc, text)?;
    not_stored(plan, path)
}

#[tactic(auto, unfolding(crate::specs::Operators::not_stored))]
fn not_stored(plan: &Plan, path: Text) -> Result<Text, TypeFault>
    ensures { Tells (λ path. path) (not_stored path (plan_of plan.now)) result }
{
    if is_stored(plan, &path) {
        Err(TypeFault::Refused(CheckKind::SelfLoad))
    } else {
        Ok(path)
    }
}

// Whether the path collides with that of a STORE among the nodes.
pub fn is_stored(plan: &Plan, path: &Text) -> bool
    ensures { result ≡ is_stored path.now (plan_of plan.now) }
{
    let nodes = plan.nodes().as_slice();
    for node in nodes {
        if stores_beside(path, &node.op) {
            return true;
        }
    }
    false
}

fn stores_beside(path: &Text, op: &NodeOp) -> bool
    ensures { result ≡ stores_beside path.now (op_of op.now) }
{
    match op {
        NodeOp::Store { path: other, .. } => collide(path.as_str(), other.as_str()),
        NodeOp::Load { .. }
        | NodeOp::Filter { .. }
        | NodeOp::Foreach { .. }
        | NodeOp::GroupAll { .. }
        | NodeOp::Group { .. }
        | NodeOp::Join { .. }
        | NodeOp::Union { .. }
        | NodeOp::Distinct { .. }
        | NodeOp::Order { .. }
        | NodeOp::Limit { .. }
        | NodeOp::Assert { .. }
        | NodeOp::Rank { .. } => false,
    }
}

#[tactic(auto, unfolding(crate::specs::Operators::schema_of))]
fn schema(alloc: Global, fields: &Fields) -> Result<Schema, TypeFault>
    ensures { Tells schema_tree (schema_of fields.now) result }
{
    match written_schema(alloc, fields.as_slice())? {
        Some(columns) => {
            row_within_limits(alloc, &columns)?;
            Ok(columns)
        }
        None => Err(TypeFault::Refused(CheckKind::FloatType)),
    }
}

fn loaded(alloc: Global, path: Text, delim: Delim, columns: Schema) -> Result<TypedOp, AllocError>
    ensures { IfOk result (λ t. op_tree t
        ≡ made (p_load path delim (columns_from 0 (schema_tree columns))) (schema_tree columns)) }
{
    let read = columns_read(alloc, columns.as_slice())?;
    let op = NodeOp::Load {
        path,
        delim,
        columns: read,
    };
    TypedOp::new(alloc, op, columns)
}

fn columns_read(alloc: Global, columns: &[Field]) -> Result<Columns, AllocError>
    ensures { IfOk result (λ read. read ≡ columns_from 0 (schema_tree columns.now)) }
{
    let mut read = Seq::with_capacity(alloc, columns.len())?;
    let mut position: u32 = 0;
    for column in columns {
        read.push(column_at(alloc, position, column)?)?;
        position = behind(position)?;
    }
    Ok(read)
}

fn column_at(alloc: Global, position: u32, column: &Field) -> Result<Column, AllocError>
    ensures { IfOk result (λ read. read ≡ record {
      position = position;
      kind = kind_from (tree_kind (named_tree column.now));
    }) }
{
    let kind = copy_kind(alloc, &column.kind)?;
    Ok(Column { position, kind })
}

// FILTER.
#[tactic(auto, unfolding(crate::specs::Operators::filter_of))]
pub fn filter(
    alloc: Global,
    relations: &Relations,
    from: &Text,
    cond: &Expr,
) -> Result<TypedOp, TypeFault>
    ensures { Tells op_tree (filter_of (aliases_of relations.now) from.now cond.now) result }
{
    let relation = relations.find(from)?;
    let columns = relation.columns.share()?;
    let cond = condition(alloc, relation.columns.get()?, cond)?;
    let input = relation.node;
    let op = NodeOp::Filter { input, cond };
    Ok(TypedOp { op, columns })
}

// The typing of a condition over a row of these columns.
pub fn condition(alloc: Global, columns: &Schema, cond: &Expr) -> Result<TExpr, TypeFault>
    ensures { Tells typed (condition_on (row_of (schema_tree columns.now)) (expr_form cond.now))
        result }
{
    let locals = Locals::new(alloc);
    let scope = Scope {
        columns,
        locals: &locals,
    };
    type_condition(alloc, cond, &scope)
}

// FOREACH.
#[tactic(auto, unfolding(crate::specs::Operators::block_of))]
pub fn foreach(
    alloc: Global,
    relations: &Relations,
    from: &Text,
    steps: &Steps,
    items: &Items,
) -> Result<TypedOp, TypeFault>
    ensures { Tells op_tree (block_of (aliases_of relations.now) from.now steps.now items.now)
        result }
{
    let relation = relations.find(from)?;
    let typed = type_foreach(
        alloc,
        steps.as_slice(),
        items.as_slice(),
        relation.columns.get()?,
    )?;
    let input = relation.node;
    let op = NodeOp::Foreach {
        input,
        block: typed.block,
    };
    Ok(TypedOp::new(alloc, op, typed.columns)?)
}

// DISTINCT.
#[tactic(auto, unfolding(crate::specs::Operators::distinct_of))]
pub fn distinct(relations: &Relations, from: &Text) -> Result<TypedOp, TypeFault>
    ensures { Tells op_tree (distinct_of (aliases_of relations.now) from.now) result }
{
    let relation = relations.find(from)?;
    let columns = relation.columns.share()?;
    let input = relation.node;
    let op = NodeOp::Distinct { input };
    Ok(TypedOp { op, columns })
}

// ORDER.
#[tactic(auto, unfolding(crate::specs::Operators::order_of))]
pub fn order(
    alloc: Global,
    relations: &Relations,
    from: &Text,
    keys: &OrderKeys,
) -> Result<TypedOp, TypeFault>
    ensures { Tells op_tree (order_of (aliases_of relations.now) from.now keys.now) result }
{
    let relation = relations.find(from)?;
    let columns = relation.columns.share()?;
    let keys = sort_keys(alloc, keys, relation.columns.get()?)?;
    let input = relation.node;
    let op = NodeOp::Order { input, keys };
    Ok(TypedOp { op, columns })
}

// LIMIT.
#[tactic(auto, unfolding(crate::specs::Operators::limit_of))]
pub fn limit(relations: &Relations, from: &Text, count: u64) -> Result<TypedOp, TypeFault>
    ensures { Tells op_tree (limit_of (aliases_of relations.now) from.now count) result }
{
    let relation = relations.find(from)?;
    let columns = relation.columns.share()?;
    let input = relation.node;
    let op = NodeOp::Limit { input, count };
    Ok(TypedOp { op, columns })
}

// RANK.
#[tactic(auto, unfolding(crate::specs::Operators::rank_of))]
pub fn rank(
    alloc: Global,
    relations: &Relations,
    from: &Text,
    keys: &OrderKeys,
    dense: bool,
) -> Result<TypedOp, TypeFault>
    ensures { Tells op_tree (rank_of (aliases_of relations.now) from.now keys.now dense) result }
{
    let relation = relations.find(from)?;
    let keys = sort_keys(alloc, keys, relation.columns.get()?)?;
    let columns = rank_columns(alloc, from, relation.columns.get()?)?;
    row_within_limits(alloc, &columns)?;
    let input = relation.node;
    let op = NodeOp::Rank { input, keys, dense };
    Ok(TypedOp::new(alloc, op, columns)?)
}

// The rank of a row of the input with this alias, and then copies of the input's columns.
fn rank_columns(alloc: Global, from: &Text, columns: &Schema) -> Result<Schema, AllocError>
    ensures { IfOk result (λ s. schema_tree s
        ≡ rank_columns from.now (schema_tree columns.now)) }
{
    let mut made = Seq::new(alloc);
    made.push(rank_column(alloc, from)?)?;
    made.extend(copy_schema(alloc, columns)?)?;
    Ok(made)
}

fn rank_column(alloc: Global, from: &Text) -> Result<Field, AllocError>
    ensures { IfOk result (λ f. named_tree f
        ≡ with_name (rank_name from.now) (scalar_column k_long)) }
{
    let name = rank_name(alloc, from.as_str())?;
    Ok(Field {
        name: Some(name),
        kind: Kind::Long,
        inner: Seq::new(alloc),
    })
}

fn rank_name(alloc: Global, from: &str) -> Result<Text, AllocError>
    ensures { IfOk result (λ name. name ≡ codes "rank_" ++ from.now) }
{
    let mut name = String::from_str(alloc, "rank_")?;
    name.push_str(from)?;
    Ok(Text::from_string(name))
}
