ghost use Rattle.std.specs.Prelude.{◌≡◌, map, Ok};
ghost use Rattle.pig_schema.specs.FieldTrees.{named_tree, schema_tree, tree_name};
ghost use Rattle.pig_schema.specs.Names.{meaning};
ghost use Rattle.pig_typing.specs.Columns.{column_at, name_place, name_refusal, place_of, refer};
ghost use Rattle.pig_typing.specs.Reader.{field_of, field_typing, local_typing, reference_of};
ghost use Rattle.pig_typing.specs.Results.{checked_then, Tells};
ghost use Rattle.pig_typing.specs.Latest.{step_tree};
ghost use Rattle.pig_typing.specs.Views.{typing_tree};

use crate::columns::{Column, Typing};
use crate::faults::{CheckKind, TypeFault};
use crate::scope::Scope;
use pig_schema::{Field, NameFault, Schema, find};
use pig_syntax::FieldRef;
use pig_typed::TExpr;
use pig_value::Boxed;
use std::alloc::Global;

// A name or a position: the latest nested alias of the name, or else the field that is meant.
#[tactic(auto, unfolding(crate::specs::Reader::reference_of))]
pub fn named<'a>(
    alloc: Global,
    scope: &'a Scope<'a>,
    field: &FieldRef,
) -> Result<Typing<'a>, TypeFault>
    ensures { Tells typing_tree (reference_of (place_of scope.now) field.now) result }
{
    match field {
        FieldRef::Name(text) => match scope.locals.latest(text) {
            Some((number, column)) => local(alloc, number, column),
            None => of_columns(alloc, scope.columns, field),
        },
        FieldRef::Position(_) => of_columns(alloc, scope.columns, field),
    }
}

fn local<'a>(alloc: Global, number: usize, column: &'a Field) -> Result<Typing<'a>, TypeFault>
    ensures { Tells typing_tree (Ok (local_typing (number, named_tree column.now))) result }
{
    let number = narrow(number)?;
    let expr = Boxed::new(alloc, TExpr::Local(number))?;
    let column = Column::Nameless(column);
    Ok(Typing { expr, column })
}

fn lent<'a>(alloc: Global, place: usize, column: &'a Field) -> Result<Typing<'a>, TypeFault>
    ensures { Tells typing_tree (Ok (field_typing (place, named_tree column.now))) result }
{
    let place = narrow(place)?;
    let expr = Boxed::new(alloc, TExpr::Field(place))?;
    let column = Column::Lent(column);
    Ok(Typing { expr, column })
}

/// A place as a u32. No list in memory has more places than that counts, so a greater one is answered as want of memory.
pub fn narrow(place: usize) -> Result<u32, TypeFault>
    ensures { Tells (λ n. n) (Ok place) result }
{
    match u32::try_from(place) {
        Ok(place) => Ok(place),
        Err(_) => Err(TypeFault::OutOfMemory),
    }
}

#[tactic(auto, unfolding(crate::specs::Reader::field_of))]
fn of_columns<'a>(
    alloc: Global,
    columns: &'a Schema,
    field: &FieldRef,
) -> Result<Typing<'a>, TypeFault>
    ensures { Tells typing_tree (field_of (schema_tree columns.now) field.now) result }
{
    let (place, column) = refer(columns, field)?;
    lent(alloc, place, column)
}

/// The column that a name or a position means, with its place.
///
/// # Errors
///
/// UnknownField where the name fits no column, AmbiguousField where it fits some and means none, PositionOut where
/// the position is at least the number of columns.
#[tactic(auto, unfolding(crate::specs::Columns::refer))]
pub fn refer<'a>(columns: &'a Schema, field: &FieldRef) -> Result<(usize, &'a Field), TypeFault>
    ensures { Tells step_tree (refer (schema_tree columns.now) field.now) result }
{
    match field {
        FieldRef::Name(text) => by_name(columns, text.as_str()),
        FieldRef::Position(place) => column_at(columns, *place as usize),
    }
}

fn by_name<'a>(columns: &'a Schema, name: &str) -> Result<(usize, &'a Field), TypeFault>
    ensures { Tells step_tree (checked_then (column_at (schema_tree columns.now))
        (name_place (meaning (map tree_name (schema_tree columns.now)) name.now))) result }
{
    match place(columns, name) {
        Ok(place) => column_at(columns, place),
        Err(fault) => Err(TypeFault::Refused(refusal(fault))),
    }
}

fn place(columns: &Schema, name: &str) -> Result<usize, NameFault>
    ensures { result ≡ meaning (map tree_name (schema_tree columns.now)) name.now }
{
    find(columns, name)
}

fn refusal(fault: NameFault) -> CheckKind
    ensures { result ≡ name_refusal fault }
{
    match fault {
        NameFault::Unknown => CheckKind::UnknownField,
        NameFault::Ambiguous => CheckKind::AmbiguousField,
        NameFault::PositionOut => CheckKind::PositionOut,
    }
}

#[tactic(auto, unfolding(crate::specs::Columns::column_at))]
fn column_at<'a>(columns: &'a Schema, place: usize) -> Result<(usize, &'a Field), TypeFault>
    ensures { Tells step_tree (column_at (schema_tree columns.now) place) result }
{
    match columns.get(place) {
        Some(column) => Ok((place, column)),
        None => Err(TypeFault::Refused(CheckKind::PositionOut)),
    }
}
