ghost use Rattle.std.specs.Prelude.{◌≡◌, ◌++◌, Err, IfOk, codes, length, map};
ghost use Rattle.std.specs.List.{flat_map};
ghost use Rattle.pig_value.specs.Trees.{kind_tree};
ghost use Rattle.pig_schema.specs.FieldTrees.{named_tree, schema_tree};
ghost use Rattle.pig_plan.specs.NodeKinds.{is_join};
ghost use Rattle.pig_plan.specs.Plans.{op_of};
ghost use Rattle.pig_typing.specs.Results.{IfRefused, Tells};
ghost use Rattle.pig_typing.specs.Written.{with_name};
ghost use Rattle.pig_relations.specs.Aliases.{aliases_of, relation_tree};
ghost use Rattle.pig_relations.specs.Keyed.{group_form, join_form};
ghost use Rattle.pig_relations.specs.Operators.{Groups, GroupsAll, GroupsAllNot, GroupsNot, Joins, JoinsNot, bag_column, columns_under, cube_columns, first_keys, group_all_columns, group_all_of, group_column, group_columns, group_of, group_op, join_columns, join_of, join_op, joined_by, limited_op, may_replicate, op_tree, sided, without};
ghost use Rattle.pig_relations.specs.Together.{of_kinds};
ghost use Rattle.pig_relations.specs.Views.{input_tree, keyable_tree};

use crate::aliases::{Relation, Relations};
use crate::columns::{all_under, bag_column, group_name, tuple};
use crate::keyed::{
    Keyable, TypedInput, group_forms, join_forms, key_columns, keyed_inputs, type_keyed,
};
use crate::shared::SharedSchema;
use crate::together::of_kinds;
use pig_plan::NodeOp;
use pig_schema::{Field, Schema, copy_field};
use pig_syntax::{GroupInput, JoinInput};
use pig_typing::{CheckKind, TypeFault, row_within_limits, with_name};
use pig_value::{Kind, Seq, Side, Text, failed};
use std::alloc::{AllocError, Global};

/// The operator of a node, and the columns of its rows.
#[derive(Drop)]
pub struct TypedOp {
    pub op: NodeOp,
    pub columns: SharedSchema,
}

impl TypedOp {
    /// An operator whose columns are no other relation's.
    pub fn new(alloc: Global, op: NodeOp, columns: Schema) -> Result<TypedOp, AllocError>
        ensures op { IfOk result (λ t. t.op ≡ op) }
        ensures columns { IfOk result (λ t. t.columns ≡ columns) }
    {
        let columns = SharedSchema::new(alloc, columns)?;
        Ok(TypedOp { op, columns })
    }
}

/// The typing of a GROUP or COGROUP over the aliases so far.
///
/// Its rows have the column `group`, which is the key, or a tuple of several keys, and for each input a bag with the
/// input's alias as its name. A key that is an int in one input and a long in another is a long.
///
/// # Errors
///
/// `Refused` exactly where there is no typing, with a kind whose condition holds: Unsupported for USING, UnknownAlias,
/// what a key is refused for, SchemaMismatch where the inputs' keys do not agree, TooWide and TooDeep.
pub fn type_group(
    alloc: Global,
    relations: &Relations,
    inputs: &[GroupInput],
    hint: &Option<Text>,
) -> Result<TypedOp, TypeFault>
    ensures typed { IfOk result (λ t. Groups (aliases_of relations.now)
        (map group_form inputs.now) hint.now (op_tree t)) }
    ensures refused { IfRefused result (λ kind. GroupsNot (aliases_of relations.now)
        (map group_form inputs.now) hint.now kind) }
    ensures told { Tells op_tree (group_of (aliases_of relations.now) (map group_form inputs.now)
        hint.now) result }
{
    group_told(alloc, relations, inputs, hint)
}

#[tactic(auto, unfolding(crate::specs::Operators::group_of))]
fn group_told(
    alloc: Global,
    relations: &Relations,
    inputs: &[GroupInput],
    hint: &Option<Text>,
) -> Result<TypedOp, TypeFault>
    ensures { Tells op_tree (group_of (aliases_of relations.now) (map group_form inputs.now)
        hint.now) result }
{
    without(hint)?;
    let forms = group_forms(alloc, inputs)?;
    let keyed = type_keyed(alloc, relations, forms.as_slice())?;
    grouped(alloc, keyed)
}

/// The typing of a GROUP ALL: its one row has the column `group`, a chararray, and the bag of all rows.
///
/// # Errors
///
/// `Refused` exactly where there is no typing, with a kind whose condition holds: Unsupported for USING, UnknownAlias,
/// TooWide and TooDeep.
pub fn type_group_all(
    alloc: Global,
    relations: &Relations,
    from: &Text,
    hint: &Option<Text>,
) -> Result<TypedOp, TypeFault>
    ensures typed { IfOk result (λ t. GroupsAll (aliases_of relations.now) from.now hint.now
        (op_tree t)) }
    ensures refused { IfRefused result (λ kind. GroupsAllNot (aliases_of relations.now) from.now
        hint.now kind) }
    ensures told { Tells op_tree (group_all_of (aliases_of relations.now) from.now hint.now)
        result }
{
    group_all_told(alloc, relations, from, hint)
}

#[tactic(auto, unfolding(crate::specs::Operators::group_all_of))]
fn group_all_told(
    alloc: Global,
    relations: &Relations,
    from: &Text,
    hint: &Option<Text>,
) -> Result<TypedOp, TypeFault>
    ensures { Tells op_tree (group_all_of (aliases_of relations.now) from.now hint.now) result }
{
    without(hint)?;
    let relation = relations.find(from)?;
    let columns = group_all_columns(alloc, from, relation)?;
    limited_op(
        alloc,
        NodeOp::GroupAll {
            input: relation.node,
        },
        columns,
    )
}

/// The typing of a JOIN over the aliases so far. USING 'replicated' makes it replicated, where it is inner or LEFT.
///
/// Its rows have the columns of the inputs in turn, each with the input's alias and `::` before its name, where it has
/// one.
///
/// # Errors
///
/// `Refused` exactly where there is no typing, with a kind whose condition holds: Unsupported for USING with another text
/// than `replicated`, or of a RIGHT or FULL JOIN, and where a side other than INNER has not just two inputs, UnknownAlias,
/// what a key is refused for, SchemaMismatch where the inputs' keys do not agree, TooWide and TooDeep.
pub fn type_join(
    alloc: Global,
    relations: &Relations,
    inputs: &[JoinInput],
    side: Side,
    hint: &Option<Text>,
) -> Result<TypedOp, TypeFault>
    ensures typed { IfOk result (λ t. Joins (aliases_of relations.now)
        (map join_form inputs.now) side hint.now (op_tree t)) }
    ensures refused { IfRefused result (λ kind. JoinsNot (aliases_of relations.now)
        (map join_form inputs.now) side hint.now kind) }
    ensures told { Tells op_tree (join_of (aliases_of relations.now) (map join_form inputs.now)
        side hint.now) result }
{
    join_told(alloc, relations, inputs, side, hint)
}

#[tactic(auto, unfolding(crate::specs::Operators::join_of))]
fn join_told(
    alloc: Global,
    relations: &Relations,
    inputs: &[JoinInput],
    side: Side,
    hint: &Option<Text>,
) -> Result<TypedOp, TypeFault>
    ensures { Tells op_tree (join_of (aliases_of relations.now) (map join_form inputs.now) side
        hint.now) result }
{
    let replicated = joined_by(side, hint)?;
    sided(side, replicated, count(inputs))?;
    let forms = join_forms(alloc, inputs)?;
    let keyed = type_keyed(alloc, relations, forms.as_slice())?;
    joined(alloc, side, replicated, keyed)
}

// ---- what is left out, and limits

#[tactic(auto, unfolding(crate::specs::Operators::without))]
fn without(hint: &Option<Text>) -> Result<(), TypeFault>
    ensures { Tells (λ done. tt) (without hint.now) result }
{
    match hint {
        Some(_) => Err(TypeFault::Refused(CheckKind::Unsupported)),
        None => Ok(()),
    }
}

// Whether a JOIN of a side is replicated, by the word behind USING.
#[tactic(auto, unfolding(crate::specs::Operators::joined_by))]
fn joined_by(side: Side, hint: &Option<Text>) -> Result<bool, TypeFault>
    ensures { Tells (λ replicated. replicated) (joined_by side hint.now) result }
{
    match hint {
        Some(word) => {
            if word.as_str() == "replicated" && may_replicate(side) {
                Ok(true)
            } else {
                Err(TypeFault::Refused(CheckKind::Unsupported))
            }
        }
        None => Ok(false),
    }
}

// Whether a JOIN of the side may be replicated.
fn may_replicate(side: Side) -> bool
    ensures { result ≡ may_replicate side }
{
    match side {
        Side::Inner | Side::Left => true,
        Side::Right | Side::Full => false,
    }
}

#[tactic(auto, unfolding(crate::specs::Operators::sided))]
fn sided(side: Side, replicated: bool, count: usize) -> Result<(), TypeFault>
    ensures { Tells (λ done. tt) (sided side replicated count) result }
{
    if joins(side, replicated, count) {
        Ok(())
    } else {
        Err(TypeFault::Refused(CheckKind::Unsupported))
    }
}

fn count(inputs: &[JoinInput]) -> usize
    ensures { result ≡ length (map join_form inputs.now) }
{
    inputs.len()
}

fn joins(side: Side, replicated: bool, count: usize) -> bool
    ensures { result ≡ is_join side replicated count }
{
    match side {
        Side::Inner => count >= 2,
        Side::Left => count == 2,
        Side::Right => count == 2 && !replicated,
        Side::Full => count == 2 && !replicated,
    }
}

#[tactic(auto, unfolding(crate::specs::Operators::limited_op))]
fn limited_op(alloc: Global, op: NodeOp, columns: Schema) -> Result<TypedOp, TypeFault>
    ensures { Tells op_tree (limited_op (op_of op) (schema_tree columns)) result }
{
    match row_within_limits(alloc, &columns) {
        Ok(()) => Ok(TypedOp::new(alloc, op, columns)?),
        Err(fault) => failed((op, columns), fault),
    }
}

// ---- GROUP and COGROUP

fn grouped(alloc: Global, keyed: Keyable) -> Result<TypedOp, TypeFault>
    ensures { Tells op_tree (limited_op (group_op (keyable_tree keyed.entry))
        (group_columns (keyable_tree keyed.entry))) result }
{
    let columns = group_columns(alloc, keyed.inputs.as_slice(), keyed.kinds.as_slice())?;
    let op = group_op(alloc, keyed)?;
    limited_op(alloc, op, columns)
}

fn group_op(alloc: Global, keyed: Keyable) -> Result<NodeOp, AllocError>
    ensures { IfOk result (λ op. op_of op ≡ group_op (keyable_tree keyed.entry)) }
{
    let inputs = keyed_inputs(alloc, keyed)?;
    Ok(NodeOp::Group { inputs })
}

fn group_columns(alloc: Global, inputs: &[TypedInput], kinds: &[Kind]) -> Result<Schema, AllocError>
    ensures { IfOk result (λ s. schema_tree s ≡ group_columns
        (record { inputs = map input_tree inputs.now; kinds = map kind_tree kinds.now })) }
{
    let mut columns = Seq::with_capacity(alloc, inputs.len())?;
    columns.push(group_column(alloc, inputs, kinds)?)?;
    for input in inputs {
        columns.push(bag_of(alloc, input.alias, input.relation)?)?;
    }
    Ok(columns)
}

// The bag of a relation's rows.
fn bag_of(alloc: Global, alias: &Text, relation: &Relation) -> Result<Field, AllocError>
    ensures { IfOk result (λ f. named_tree f
        ≡ bag_column alias.now (schema_tree relation.now.columns)) }
{
    bag_column(alloc, alias, relation.columns.get()?)
}

// The column of the key, by the names of the first input's keys.
fn group_column(alloc: Global, inputs: &[TypedInput], kinds: &[Kind]) -> Result<Field, AllocError>
    ensures { IfOk result (λ f. named_tree f ≡ group_column
        (of_kinds (map kind_tree kinds.now) (first_keys (map input_tree inputs.now)))) }
{
    let name = group_name(alloc)?;
    let columns = first_keys(alloc, inputs, kinds)?;
    let column = key_column(alloc, columns)?;
    Ok(with_name(name, column))
}

// The one key's column, or a tuple of several.
fn key_column(alloc: Global, columns: Schema) -> Result<Field, AllocError>
    ensures { IfOk result (λ f. with_name (codes "group") (named_tree f)
        ≡ group_column (schema_tree columns)) }
{
    match columns.as_slice() {
        [column] => copy_field(alloc, column),
        _ => tuple(alloc, columns),
    }
}

fn first_keys(alloc: Global, inputs: &[TypedInput], kinds: &[Kind]) -> Result<Schema, AllocError>
    ensures { IfOk result (λ s. schema_tree s
        ≡ of_kinds (map kind_tree kinds.now) (first_keys (map input_tree inputs.now))) }
{
    match inputs {
        [first, ..] => {
            let columns = key_columns(alloc, first.keys.as_slice())?;
            of_kinds(alloc, kinds, columns.as_slice())
        }
        [] => of_kinds(alloc, kinds, &[]),
    }
}

fn group_all_columns(alloc: Global, alias: &Text, relation: &Relation) -> Result<Schema, AllocError>
    ensures { IfOk result (λ s. schema_tree s
        ≡ group_all_columns alias.now (relation_tree relation.now)) }
{
    let name = group_name(alloc)?;
    let mut columns = Seq::with_capacity(alloc, 2)?;
    columns.push(Field {
        name: Some(name),
        kind: Kind::Chararray,
        inner: Seq::new(alloc),
    })?;
    columns.push(bag_of(alloc, alias, relation)?)?;
    Ok(columns)
}

// ---- CUBE

/// The columns of the groups of a CUBE: `group`, which is the one dimension or a tuple of several, and the bag `cube` of
/// rows with these columns.
pub fn cube_columns(alloc: Global, dims: Schema, row: &Schema) -> Result<Schema, AllocError>
    ensures { IfOk result (λ s. schema_tree s
        ≡ cube_columns (schema_tree dims) (schema_tree row.now)) }
{
    let name = group_name(alloc)?;
    let key = key_column(alloc, dims)?;
    let alias = Text::from_str(alloc, "cube")?;
    let mut columns = Seq::with_capacity(alloc, 2)?;
    columns.push(with_name(name, key))?;
    columns.push(bag_column(alloc, &alias, row)?)?;
    Ok(columns)
}

// ---- JOIN

fn joined(alloc: Global, side: Side, replicated: bool, keyed: Keyable) -> Result<TypedOp, TypeFault>
    ensures { Tells op_tree (limited_op (join_op side replicated (keyable_tree keyed.entry))
        (join_columns (keyable_tree keyed.entry))) result }
{
    let columns = join_columns(alloc, keyed.inputs.as_slice())?;
    let op = join_op(alloc, side, replicated, keyed)?;
    limited_op(alloc, op, columns)
}

fn join_op(
    alloc: Global,
    side: Side,
    replicated: bool,
    keyed: Keyable,
) -> Result<NodeOp, AllocError>
    ensures { IfOk result (λ op. op_of op ≡ join_op side replicated (keyable_tree keyed.entry)) }
{
    let inputs = keyed_inputs(alloc, keyed)?;
    Ok(NodeOp::Join {
        inputs,
        side,
        replicated,
    })
}

fn join_columns(alloc: Global, inputs: &[TypedInput]) -> Result<Schema, AllocError>
    ensures { IfOk result (λ s. schema_tree s
        ≡ flat_map columns_under (map input_tree inputs.now)) }
{
    let mut columns = Seq::new(alloc);
    for input in inputs {
        columns = with_input(alloc, columns, input)?;
    }
    Ok(columns)
}

// The columns so far, and those of one input more.
fn with_input(alloc: Global, columns: Schema, input: &TypedInput) -> Result<Schema, AllocError>
    ensures { IfOk result (λ s. schema_tree s
        ≡ schema_tree columns ++ columns_under (input_tree input.now)) }
{
    all_under(
        alloc,
        columns,
        input.alias,
        input.relation.columns.get()?.as_slice(),
    )
}
