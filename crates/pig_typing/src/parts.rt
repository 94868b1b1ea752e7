ghost use Rattle.std.specs.Prelude.{◌≡◌, [], ◌∷◌, IfOk, map};
ghost use Rattle.std.specs.Option.{option_map};
ghost use Rattle.pig_value.specs.Trees.{kind_tree, k_bag};
ghost use Rattle.pig_schema.specs.FieldTrees.{named_tree, schema_tree, tree_name};
ghost use Rattle.pig_typed.specs.Typed.{x_look, x_project};
ghost use Rattle.pig_typing.specs.Columns.{refer};
ghost use Rattle.pig_typing.specs.Parts.{chosen_of, given_of, picked, pick_places, projected, renamed, select, step_of, steps_of, typed_of, typing, values_column};
ghost use Rattle.pig_typing.specs.Results.{Tells};
ghost use Rattle.pig_typing.specs.Views.{column_seen, pick_tree, typing_tree};
ghost use Rattle.pig_typing.specs.Written.{of_fields};

use crate::columns::{Column, Typing, bag, holding, inner, kind, made, tuple};
use crate::faults::{CheckKind, TypeFault};
use crate::limits::within_limits;
use crate::names::{narrow, refer};
use pig_schema::{Field, Schema, copy_field, copy_schema};
use pig_syntax::{FieldRef, PostStep};
use pig_typed::TExpr;
use pig_value::{Kind, Positions, Seq, Text, beside, copy_kind};
use std::alloc::{AllocError, Global};

// A column that is taken, and its place.
#[derive(Drop)]
pub struct Pick {
    pub place: u32,
    pub column: Field,
}

// Projections and look-ups behind an expression, in turn.
#[tactic(auto, unfolding(crate::specs::Parts::steps_of))]
pub fn walk<'a>(
    alloc: Global,
    first: Typing<'a>,
    steps: &[PostStep],
) -> Result<Typing<'a>, TypeFault>
    ensures { Tells typing_tree (steps_of (typing_tree first.entry) steps.now) result }
{
    let mut so_far = first;
    for step in steps {
        so_far = one_step(alloc, so_far, step)?;
    }
    Ok(so_far)
}

#[tactic(auto, unfolding(crate::specs::Parts::step_of))]
pub fn one_step<'a>(alloc: Global, of: Typing<'a>, step: &PostStep) -> Result<Typing<'a>, TypeFault>
    ensures { Tells typing_tree (step_of (typing_tree of.entry) step.now) result }
{
    match step {
        PostStep::Project { fields, single } => {
            let picks = chosen(alloc, &of.column, fields.as_slice())?;
            let column = given(alloc, *single, kind(&of.column), &picks)?;
            let fields = places(alloc, &picks)?;
            Ok(projection(alloc, of, fields, *single, column)?)
        }
        PostStep::Look(key) => match value(alloc, &of.column)? {
            Some(column) => Ok(look(alloc, of, key, column)?),
            None => Err(TypeFault::Refused(CheckKind::TypeMismatch)),
        },
    }
}

fn projection<'a>(
    alloc: Global,
    of: Typing<'a>,
    fields: Positions,
    single: bool,
    column: Field,
) -> Result<Typing<'a>, AllocError>
    ensures { IfOk result (λ p. typing_tree p
        ≡ typing (x_project (typed_of (typing_tree of.entry)) fields single) (named_tree column)) }
{
    let Typing { expr, .. } = of;
    made(
        alloc,
        TExpr::Project {
            a: expr,
            fields,
            single,
        },
        column,
    )
}

fn look<'a>(
    alloc: Global,
    of: Typing<'a>,
    key: &Text,
    column: Field,
) -> Result<Typing<'a>, AllocError>
    ensures { IfOk result (λ p. typing_tree p
        ≡ typing (x_look (typed_of (typing_tree of.entry)) key.now) (named_tree column)) }
{
    let Typing { expr, .. } = of;
    let (column, key) = beside(column, key.copy(alloc))?;
    made(alloc, TExpr::Look { a: expr, key }, column)
}

// The fields that a projection takes.
#[tactic(auto, unfolding(crate::specs::Parts::chosen_of))]
fn chosen(alloc: Global, of: &Column, fields: &[FieldRef]) -> Result<Seq<Pick>, TypeFault>
    ensures { Tells (map pick_tree) (chosen_of (column_seen of.now) fields.now) result }
{
    match kind(of) {
        Kind::Tuple(_) => select(alloc, inner(of), fields),
        Kind::Bag(_) => select(alloc, inner(of), fields),
        _ => Err(TypeFault::Refused(CheckKind::TypeMismatch)),
    }
}

#[tactic(auto, unfolding(crate::specs::Parts::select))]
fn select(alloc: Global, columns: &Schema, fields: &[FieldRef]) -> Result<Seq<Pick>, TypeFault>
    ensures { Tells (map pick_tree) (select (schema_tree columns.now) fields.now) result }
{
    let mut picks = Seq::with_capacity(alloc, fields.len())?;
    for field in fields {
        let pick = taken(alloc, columns, field)?;
        picks.push(pick)?;
    }
    Ok(picks)
}

fn taken(alloc: Global, columns: &Schema, field: &FieldRef) -> Result<Pick, TypeFault>
    ensures { Tells pick_tree (refer (schema_tree columns.now) field.now) result }
{
    let (place, column) = refer(columns, field)?;
    let place = narrow(place)?;
    let column = copy_field(alloc, column)?;
    Ok(Pick { place, column })
}

// The column that a projection gives.
#[tactic(auto, unfolding(crate::specs::Parts::given_of))]
fn given(alloc: Global, single: bool, of: &Kind, picks: &Seq<Pick>) -> Result<Field, TypeFault>
    ensures { Tells named_tree (given_of single (kind_tree of.now) (map pick_tree picks.now))
        result }
{
    match projected(alloc, single, of, picks.as_slice())? {
        Some(column) => {
            let limits = within_limits(&column.kind);
            let (column, _) = beside(column, limits)?;
            Ok(column)
        }
        None => Err(TypeFault::Refused(CheckKind::TypeMismatch)),
    }
}

fn projected(
    alloc: Global,
    single: bool,
    of: &Kind,
    picks: &[Pick],
) -> Result<Option<Field>, AllocError>
    ensures { IfOk result (λ found. option_map named_tree found
        ≡ projected single (kind_tree of.now) (picked (map pick_tree picks.now))) }
{
    match (single, of, picks) {
        (true, Kind::Tuple(_), [pick]) => Ok(Some(copy_field(alloc, &pick.column)?)),
        (true, Kind::Bag(_), [pick]) => Ok(Some(bag_of_one(alloc, &pick.column)?)),
        (false, Kind::Tuple(_), [_, ..]) => Ok(Some(tuple(alloc, columns(alloc, picks)?)?)),
        (false, Kind::Bag(_), [_, ..]) => Ok(Some(bag(alloc, columns(alloc, picks)?)?)),
        _ => Ok(None),
    }
}

// A bag of one column, which has the column's name.
fn bag_of_one(alloc: Global, column: &Field) -> Result<Field, AllocError>
    ensures { IfOk result (λ f. named_tree f
        ≡ renamed (tree_name (named_tree column.now))
        (of_fields k_bag (named_tree column.now ∷ []))) }
{
    let mut columns = Seq::new(alloc);
    columns.push(copy_field(alloc, column)?)?;
    let bag = bag(alloc, columns)?;
    let name = copy_name(alloc, &column.name)?;
    Ok(bag.with_name(name))
}

fn copy_name(alloc: Global, name: &Option<Text>) -> Result<Option<Text>, AllocError>
    ensures { IfOk result (λ c. c ≡ name.now) }
{
    match name {
        Some(text) => Ok(Some(text.copy(alloc)?)),
        None => Ok(None),
    }
}

fn columns(alloc: Global, picks: &[Pick]) -> Result<Schema, AllocError>
    ensures { IfOk result (λ s. schema_tree s ≡ picked (map pick_tree picks.now)) }
{
    let mut columns = Vec::with_capacity(alloc, picks.len())?;
    for pick in picks {
        columns.push(copy_field(alloc, &pick.column)?)?;
    }
    Ok(Seq::from_vec(columns))
}

fn places(alloc: Global, picks: &Seq<Pick>) -> Result<Positions, AllocError>
    ensures { IfOk result (λ ns. ns ≡ pick_places (map pick_tree picks.now)) }
{
    let picks = picks.as_slice();
    let mut places = Vec::with_capacity(alloc, picks.len())?;
    for pick in picks {
        places.push(pick.place)?;
    }
    Ok(Seq::from_vec(places))
}

// The column of a map's values.
fn value(alloc: Global, of: &Column) -> Result<Option<Field>, AllocError>
    ensures { IfOk result (λ found. option_map named_tree found
        ≡ values_column (column_seen of.now)) }
{
    match kind(of) {
        Kind::Map(values) => {
            let kind = copy_kind(alloc, values.get())?;
            let inner = copy_schema(alloc, inner(of))?;
            Ok(Some(holding(kind, inner)))
        }
        _ => Ok(None),
    }
}
