ghost use Rattle.std.specs.Prelude.{◌≡◌, ◌++◌, ◌∷◌, [], IfOk, Ok, OnOk, map};
ghost use Rattle.std.specs.Option.{option_map};
ghost use Rattle.pig_value.specs.Trees.{kind_tree};
ghost use Rattle.pig_schema.specs.FieldTrees.{named_tree, schema_tree, tree_kind};
ghost use Rattle.pig_typed.specs.Typed.{block_typed, item_typed, x_field};
ghost use Rattle.pig_typing.specs.Parts.{plain_item};
ghost use Rattle.pig_typing.specs.Results.{IfRefused, Tells};
ghost use Rattle.pig_relations.specs.Aliases.{aliases_of, relation_tree};
ghost use Rattle.pig_relations.specs.Together.{all_together, of_kinds, widened};
ghost use Rattle.pig_relations.specs.Unions.{Unions, UnionsNot, agreed_union, any_widens, column_kinds, first_columns, of_two, relations_of, union_input, union_input_tree, union_of, union_of_kinds, union_tree, widened_fields, widening};
ghost use Rattle.pig_relations.specs.Views.{fields_seen, relations_seen};

use crate::aliases::{Relation, Relations};
use crate::together::{all_together, of_kinds, widened, widens};
use pig_schema::{Field, Schema};
use pig_typed::{Block, BlockItem, BlockItems, TExpr};
use pig_typing::{CheckKind, TypeFault, narrow};
use pig_value::{Kind, Kinds, Seq, Text};
use std::alloc::{AllocError, Global};

/// The inputs of a UNION, in turn.
pub type UnionInputs = Seq<UnionInput>;

/// An input of a UNION: its node, and the block of a FOREACH that brings its rows to the kinds of the UNION, where a
/// column widens.
#[derive(Debug, Drop)]
pub struct UnionInput {
    pub node: u32,
    pub widening: Option<Block>,
}

/// The inputs of a UNION, and the columns of its rows.
#[derive(Debug, Drop)]
pub struct TypedUnion {
    pub inputs: UnionInputs,
    pub columns: Schema,
}

/// The typing of a UNION over the aliases so far.
///
/// A column that is an int in one input and a long in another is a long, and a FOREACH before the UNION casts it. The
/// names are those of the first input.
///
/// # Errors
///
/// `Refused` exactly where there is no typing, with a kind whose condition holds: Unsupported for ONSCHEMA, UnknownAlias,
/// SchemaMismatch where the inputs' columns are not equally many or do not agree, and where there are not two inputs.
pub fn type_union(
    alloc: Global,
    relations: &Relations,
    onschema: bool,
    from: &[Text],
) -> Result<TypedUnion, TypeFault>
    ensures typed { IfOk result (λ u. Unions (aliases_of relations.now) onschema from.now
        (union_tree u)) }
    ensures refused { IfRefused result (λ kind. UnionsNot (aliases_of relations.now) onschema
        from.now kind) }
    ensures told { Tells union_tree (union_of (aliases_of relations.now) onschema from.now) result }
{
    union_told(alloc, relations, onschema, from)
}

#[tactic(auto, unfolding(crate::specs::Unions::union_of))]
fn union_told(
    alloc: Global,
    relations: &Relations,
    onschema: bool,
    from: &[Text],
) -> Result<TypedUnion, TypeFault>
    ensures { Tells union_tree (union_of (aliases_of relations.now) onschema from.now) result }
{
    of_two(onschema, from.len())?;
    let inputs = all_relations(alloc, relations, from)?;
    agreed_union(alloc, inputs.as_slice())
}

#[tactic(auto, unfolding(crate::specs::Unions::agreed_union))]
fn agreed_union(alloc: Global, inputs: &[&Relation]) -> Result<TypedUnion, TypeFault>
    ensures { Tells union_tree (agreed_union (relations_seen inputs.now)) result }
{
    match all_kinds(alloc, inputs)? {
        Some(kinds) => union_of(alloc, inputs, kinds.as_slice()),
        None => Err(TypeFault::Refused(CheckKind::SchemaMismatch)),
    }
}

#[tactic(auto, unfolding(crate::specs::Unions::of_two))]
fn of_two(onschema: bool, count: usize) -> Result<(), TypeFault>
    ensures { Tells (λ done. tt) (of_two onschema count) result }
{
    if onschema {
        Err(TypeFault::Refused(CheckKind::Unsupported))
    } else if count >= 2 {
        Ok(())
    } else {
        Err(TypeFault::Refused(CheckKind::SchemaMismatch))
    }
}

#[tactic(auto, unfolding(crate::specs::Unions::relations_of))]
fn all_relations<'a>(
    alloc: Global,
    relations: &'a Relations,
    from: &[Text],
) -> Result<Vec<&'a Relation>, TypeFault>
    ensures { Tells (λ rs. relations_seen rs.items) (relations_of (aliases_of relations.now)
        from.now) result }
{
    let mut found = Vec::with_capacity(alloc, from.len())?;
    for alias in from {
        let relation = relations.find(alias)?;
        note(&mut found, relation)?;
    }
    Ok(found)
}

fn note<'a>(found: &mut Vec<&'a Relation>, relation: &'a Relation) -> Result<(), AllocError>
    ensures { OnOk result (relations_seen found.new.items
        ≡ relations_seen found.old.items ++ relation_tree relation.now ∷ []) }
{
    found.push(relation)?;
    Ok(())
}

// ---- the kinds that the columns have together

fn all_kinds(alloc: Global, inputs: &[&Relation]) -> Result<Option<Kinds>, AllocError>
    ensures { IfOk result (λ found. option_map (map kind_tree) found
        ≡ all_together (map column_kinds (relations_seen inputs.now))) }
{
    let rows = column_rows(alloc, inputs)?;
    all_together(alloc, rows.as_slice())
}

fn column_rows<'a>(
    alloc: Global,
    inputs: &[&'a Relation],
) -> Result<Vec<Vec<&'a Field>>, AllocError>
    ensures { IfOk result (λ rows. map (λ row. map tree_kind (fields_seen row.items)) rows.items
        ≡ map column_kinds (relations_seen inputs.now)) }
{
    let mut rows = Vec::with_capacity(alloc, inputs.len())?;
    for input in inputs {
        rows.push(input_columns(alloc, input)?)?;
    }
    Ok(rows)
}

fn input_columns<'a>(alloc: Global, input: &'a Relation) -> Result<Vec<&'a Field>, AllocError>
    ensures { IfOk result (λ row. fields_seen row.items ≡ schema_tree input.now.columns) }
{
    columns(alloc, input.columns.get()?.as_slice())
}

fn columns<'a>(alloc: Global, fields: &'a [Field]) -> Result<Vec<&'a Field>, AllocError>
    ensures { IfOk result (λ row. fields_seen row.items ≡ schema_tree fields.now) }
{
    let mut row = Vec::with_capacity(alloc, fields.len())?;
    for column in fields {
        row.push(column)?;
    }
    Ok(row)
}

// ---- the inputs, and the columns

fn union_of(alloc: Global, inputs: &[&Relation], kinds: &[Kind]) -> Result<TypedUnion, TypeFault>
    ensures { Tells union_tree (Ok (union_of_kinds (relations_seen inputs.now)
        (map kind_tree kinds.now))) result }
{
    let columns = union_columns(alloc, inputs, kinds)?;
    let inputs = union_inputs(alloc, inputs, kinds)?;
    Ok(TypedUnion { inputs, columns })
}

fn union_columns(alloc: Global, inputs: &[&Relation], kinds: &[Kind]) -> Result<Schema, AllocError>
    ensures { IfOk result (λ s. schema_tree s
        ≡ of_kinds (map kind_tree kinds.now) (first_columns (relations_seen inputs.now))) }
{
    match inputs {
        [first, ..] => {
            let row = input_columns(alloc, first)?;
            of_kinds(alloc, kinds, row.as_slice())
        }
        [] => of_kinds(alloc, kinds, &[]),
    }
}

fn union_inputs(
    alloc: Global,
    inputs: &[&Relation],
    kinds: &[Kind],
) -> Result<UnionInputs, TypeFault>
    ensures { Tells (map union_input_tree) (Ok (map (union_input (map kind_tree kinds.now))
        (relations_seen inputs.now))) result }
{
    let mut made = Seq::with_capacity(alloc, inputs.len())?;
    for input in inputs {
        let typed = union_input(alloc, *input, kinds)?;
        made.push(typed)?;
    }
    Ok(made)
}

fn union_input(alloc: Global, input: &Relation, kinds: &[Kind]) -> Result<UnionInput, TypeFault>
    ensures { Tells union_input_tree (Ok (union_input (map kind_tree kinds.now)
        (relation_tree input.now))) result }
{
    let widening = widening(alloc, input.columns.get()?.as_slice(), kinds)?;
    Ok(UnionInput {
        node: input.node,
        widening,
    })
}

// The block that casts the columns that widen, and gives the others as they are.
fn widening(alloc: Global, columns: &[Field], kinds: &[Kind]) -> Result<Option<Block>, TypeFault>
    ensures { Tells (option_map block_typed) (Ok (widening
        (map tree_kind (schema_tree columns.now)) (map kind_tree kinds.now))) result }
{
    if any_widens(columns, kinds) {
        let items = widened_fields(alloc, columns, kinds)?;
        Ok(Some(Block {
            steps: Seq::new(alloc),
            items,
        }))
    } else {
        Ok(None)
    }
}

fn any_widens(columns: &[Field], kinds: &[Kind]) -> bool
    ensures { result ≡ any_widens (map tree_kind (schema_tree columns.now))
        (map kind_tree kinds.now) }
{
    let mut left = kinds;
    for column in columns {
        match left {
            [kind, rest @ ..] => {
                if widens(&column.kind, kind) {
                    return true;
                }
                left = rest;
            }
            [] => return false,
        }
    }
    false
}

fn widened_fields(alloc: Global, columns: &[Field], kinds: &[Kind]) -> Result<BlockItems, TypeFault>
    ensures { Tells (map item_typed) (Ok (widened_fields 0
        (map tree_kind (schema_tree columns.now)) (map kind_tree kinds.now))) result }
{
    let mut items = Seq::with_capacity(alloc, columns.len())?;
    let mut left = kinds;
    for column in columns {
        match left {
            [kind, rest @ ..] => {
                let item = widened_field(alloc, items.len(), column, kind)?;
                items.push(item)?;
                left = rest;
            }
            [] => return Ok(items),
        }
    }
    Ok(items)
}

fn widened_field(
    alloc: Global,
    place: usize,
    column: &Field,
    kind: &Kind,
) -> Result<BlockItem, TypeFault>
    ensures { Tells item_typed (Ok (plain_item (widened (tree_kind (named_tree column.now))
        (kind_tree kind.now) (x_field place)))) result }
{
    let place = narrow(place)?;
    let value = widened(alloc, &column.kind, kind, TExpr::Field(place))?;
    Ok(BlockItem {
        value,
        flatten: false,
        width: 1,
    })
}
