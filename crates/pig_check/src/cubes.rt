ghost use Rattle.std.specs.Prelude.{◌≡◌, ◌++◌, ◌∷◌, [], IfOk, Ok, map};
ghost use Rattle.std.specs.List.{range_with_len};
ghost use Rattle.pig_value.specs.Trees.{kind_tree};
ghost use Rattle.pig_schema.specs.FieldTrees.{named_tree, schema_tree};
ghost use Rattle.pig_typed.specs.Typed.{typed, x_field};
ghost use Rattle.pig_plan.specs.Plans.{op_of};
ghost use Rattle.pig_typing.specs.Results.{Tells};
ghost use Rattle.pig_relations.specs.Aliases.{aliases_of, relation_tree};
ghost use Rattle.pig_relations.specs.Operators.{cube_columns};
ghost use Rattle.pig_cube.specs.Dimensions.{AreDimensions, other_positions};
ghost use Rattle.pig_cube.specs.Laws.{cube_foreach, cube_group};
ghost use Rattle.pig_check.specs.Cubes.{as_dimension, columns_at, cube_at, cube_of, cubed, dims_of, few, field_at, fields_of, is_text, limited_cube, once, repeats, typed_cube};
ghost use Rattle.pig_check.specs.Views.{added_tree, cube_tree, state_tree};

use crate::state::{Addition, Progress, behind, next_number};
use crate::statements::given_one;
use pig_cube::{expand, is_in, other_positions};
use pig_plan::{KeyedInput, NodeOp};
use pig_relations::{Relation, Relations, SharedSchema, cube_columns};
use pig_schema::{Field, Schema, copy_field};
use pig_syntax::{FieldRef, FieldRefs};
use pig_typed::{TExpr, TExprs};
use pig_typing::{CheckKind, TypeFault, narrow, refer, row_within_limits};
use pig_value::{Kind, Positions, Seq, Text, failed};
use std::alloc::{AllocError, Global};

const MOST_DIMENSIONS: usize = 8;

// CUBE or ROLLUP: a FOREACH that makes a row for each chosen set of the dimensions, and the GROUP of these rows by the
// dimensions.
#[tactic(auto, unfolding(crate::specs::Cubes::cube_at))]
pub fn cube(
    alloc: Global,
    state: &Progress,
    alias: &Text,
    from: &Text,
    rollup: bool,
    dims: &FieldRefs,
) -> Result<Addition, TypeFault>
    ensures { Tells added_tree (cube_at (state_tree state.now) alias.now from.now rollup dims.now)
        result }
{
    let next = next_number(&state.plan)?;
    let typed = type_cube(alloc, &state.relations, from, dims.as_slice())?;
    Ok(cubed(alloc, next, alias, rollup, typed)?)
}

// The node of the input, the positions of the dimensions in its rows, how many fields these have, and the columns of the
// groups.
#[derive(Drop)]
pub struct TypedCube {
    pub node: u32,
    pub dims: Positions,
    pub width: u32,
    pub columns: Schema,
}

// ---- the nodes

fn cubed(
    alloc: Global,
    next: u32,
    alias: &Text,
    rollup: bool,
    typed: TypedCube,
) -> Result<Addition, AllocError>
    requires { AreDimensions typed.dims typed.width }
    ensures { IfOk result (λ a. added_tree a ≡ cubed next alias.now rollup (cube_tree typed)) }
{
    let mut ops = Seq::new(alloc);
    ops.push(foreach(alloc, &typed, rollup)?)?;
    ops.push(group(alloc, &typed, next)?)?;
    let TypedCube { columns, .. } = typed;
    let columns = SharedSchema::new(alloc, columns)?;
    let given = given_one(alloc, alias, behind(next)?, columns)?;
    Ok(Addition { ops, given })
}

// The FOREACH that makes the rows of the chosen sets.
fn foreach(alloc: Global, typed: &TypedCube, rollup: bool) -> Result<NodeOp, AllocError>
    requires { AreDimensions typed.now.dims typed.now.width }
    ensures { IfOk result (λ op. op_of op
        ≡ cube_foreach typed.now.dims typed.now.width rollup typed.now.node) }
{
    let input = typed.node;
    let block = expand(alloc, &typed.dims, typed.width, rollup)?;
    Ok(NodeOp::Foreach { input, block })
}

// The GROUP of the node's rows by the dimensions, which are their first fields.
fn group(alloc: Global, typed: &TypedCube, input: u32) -> Result<NodeOp, AllocError>
    requires { AreDimensions typed.now.dims typed.now.width }
    ensures { IfOk result (λ op. op_of op ≡ cube_group typed.now.dims input) }
{
    let keys = first_fields(alloc, typed.dims.len() as u32)?;
    let inner = false;
    let mut inputs = Seq::new(alloc);
    inputs.push(KeyedInput { input, keys, inner })?;
    Ok(NodeOp::Group { inputs })
}

fn field_key(field: u32) -> TExpr
    ensures { typed result ≡ x_field field }
{
    TExpr::Field(field)
}

// So many fields from the first one on.
fn first_fields(alloc: Global, count: u32) -> Result<TExprs, AllocError>
    ensures { IfOk result (λ keys. map typed keys ≡ map x_field (range_with_len 0 count)) }
{
    let mut keys = Seq::new(alloc);
    for field in 0..count {
        keys.push(field_key(field))?;
    }
    Ok(keys)
}

// ---- the typing

#[tactic(auto, unfolding(crate::specs::Cubes::cube_of))]
fn type_cube(
    alloc: Global,
    relations: &Relations,
    from: &Text,
    dims: &[FieldRef],
) -> Result<TypedCube, TypeFault>
    ensures told { Tells cube_tree (cube_of (aliases_of relations.now) from.now dims.now) result }
{
    let relation = relations.find(from)?;
    let dims = dimensions(alloc, relation.columns.get()?, dims)?;
    let cube = typed_cube(alloc, relation, dims)?;
    within_limits(alloc, cube)
}

fn typed_cube(alloc: Global, relation: &Relation, dims: Positions) -> Result<TypedCube, TypeFault>
    ensures { Tells cube_tree (Ok (typed_cube (relation_tree relation.now) dims)) result }
{
    let node = relation.node;
    let columns = relation.columns.get()?;
    let width = narrow(columns.len())?;
    let columns = group_columns(alloc, columns, width, dims.as_slice())?;
    Ok(TypedCube {
        node,
        dims,
        width,
        columns,
    })
}

#[tactic(auto, unfolding(crate::specs::Cubes::limited_cube))]
fn within_limits(alloc: Global, cube: TypedCube) -> Result<TypedCube, TypeFault>
    ensures { Tells cube_tree (limited_cube (cube_tree cube)) result }
{
    match row_within_limits(alloc, &cube.columns) {
        Ok(()) => Ok(cube),
        Err(fault) => failed(cube, fault),
    }
}

// ---- the dimensions

#[tactic(auto, unfolding(crate::specs::Cubes::dims_of))]
fn dimensions(alloc: Global, columns: &Schema, dims: &[FieldRef]) -> Result<Positions, TypeFault>
    ensures { Tells (λ ns. ns) (dims_of (schema_tree columns.now) dims.now) result }
{
    few(dims)?;
    let positions = positions(alloc, columns, dims)?;
    once(positions)
}

#[tactic(auto, unfolding(crate::specs::Cubes::few))]
fn few(dims: &[FieldRef]) -> Result<(), TypeFault>
    ensures { Tells (λ done. tt) (few dims.now) result }
{
    if dims.len() <= MOST_DIMENSIONS {
        Ok(())
    } else {
        Err(TypeFault::Refused(CheckKind::Unsupported))
    }
}

// The positions, where there are some and each stands there once.
#[tactic(auto, unfolding(crate::specs::Cubes::once))]
fn once(positions: Positions) -> Result<Positions, TypeFault>
    ensures { Tells (λ ns. ns) (once positions) result }
{
    if positions.is_empty() {
        return Err(TypeFault::Refused(CheckKind::BadKey));
    }
    if repeats(positions.as_slice()) {
        return Err(TypeFault::Refused(CheckKind::BadKey));
    }
    Ok(positions)
}

fn repeats(positions: &[u32]) -> bool
    ensures { result ≡ repeats positions.now }
{
    let mut left = positions;
    while let [first, rest @ ..] = left {
        if is_in(rest, *first) {
            return true;
        }
        left = rest;
    }
    false
}

// The positions of the fields that are meant.
#[tactic(auto, unfolding(crate::specs::Cubes::fields_of))]
fn positions(alloc: Global, columns: &Schema, dims: &[FieldRef]) -> Result<Positions, TypeFault>
    ensures { Tells (λ ns. ns) (fields_of (schema_tree columns.now) dims.now) result }
{
    let mut made = Seq::with_capacity(alloc, dims.len())?;
    for field in dims {
        let position = position(columns, field)?;
        made.push(position)?;
    }
    Ok(made)
}

#[tactic(auto, unfolding(crate::specs::Cubes::field_at))]
fn position(columns: &Schema, field: &FieldRef) -> Result<u32, TypeFault>
    ensures { Tells (λ n. n) (field_at (schema_tree columns.now) field.now) result }
{
    let (place, column) = refer(columns, field)?;
    as_dimension(place, column)
}

#[tactic(auto, unfolding(crate::specs::Cubes::as_dimension))]
fn as_dimension(place: usize, column: &Field) -> Result<u32, TypeFault>
    ensures { Tells (λ n. n) (as_dimension (place, named_tree column.now)) result }
{
    if is_text(&column.kind) {
        narrow(place)
    } else {
        Err(TypeFault::Refused(CheckKind::BadKey))
    }
}

fn is_text(kind: &Kind) -> bool
    ensures { result ≡ is_text (kind_tree kind.now) }
{
    match kind {
        Kind::Chararray => true,
        _ => false,
    }
}

// ---- the columns

// The columns of the groups, of rows with these columns, which are `width` many.
fn group_columns(
    alloc: Global,
    columns: &Schema,
    width: u32,
    dims: &[u32],
) -> Result<Schema, AllocError>
    ensures { IfOk result (λ s. schema_tree s
        ≡ cube_columns (columns_at (schema_tree columns.now) dims.now)
        (columns_at (schema_tree columns.now) dims.now
        ++ columns_at (schema_tree columns.now) (other_positions dims.now width))) }
{
    let key = columns_at(alloc, columns.as_slice(), dims)?;
    let row = expanded_columns(alloc, columns.as_slice(), width, dims)?;
    cube_columns(alloc, key, &row)
}

// The columns of the rows that the FOREACH makes.
fn expanded_columns(
    alloc: Global,
    columns: &[Field],
    width: u32,
    dims: &[u32],
) -> Result<Schema, AllocError>
    ensures { IfOk result (λ s. schema_tree s ≡ columns_at (schema_tree columns.now) dims.now
        ++ columns_at (schema_tree columns.now) (other_positions dims.now width)) }
{
    let others = other_positions(alloc, dims, width)?;
    let mut row = columns_at(alloc, columns, dims)?;
    row.extend(columns_at(alloc, columns, others.as_slice())?)?;
    Ok(row)
}

// Copies of the columns at these positions.
fn columns_at(alloc: Global, columns: &[Field], positions: &[u32]) -> Result<Schema, AllocError>
    ensures { IfOk result (λ s. schema_tree s
        ≡ columns_at (schema_tree columns.now) positions.now) }
{
    let mut made = Seq::with_capacity(alloc, positions.len())?;
    for position in positions {
        made = with_column(alloc, made, columns, *position)?;
    }
    Ok(made)
}

// The columns so far, and a copy of that at the position.
fn with_column(
    alloc: Global,
    made: Schema,
    columns: &[Field],
    position: u32,
) -> Result<Schema, AllocError>
    ensures { IfOk result (λ s. schema_tree s
        ≡ schema_tree made ++ columns_at (schema_tree columns.now) (position ∷ [])) }
{
    match columns.get(position as usize) {
        Some(column) => {
            let mut made = made;
            made.push(copy_field(alloc, column)?)?;
            Ok(made)
        }
        None => Ok(made),
    }
}
