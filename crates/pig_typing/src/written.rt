ghost use Rattle.std.specs.Prelude.{◌≡◌, IfOk, None, Some, map};
ghost use Rattle.std.specs.Option.{option_map};
ghost use Rattle.pig_value.specs.Trees.{kind_tree, k_bag, k_tuple};
ghost use Rattle.pig_schema.specs.FieldTrees.{named_tree, schema_tree};
ghost use Rattle.pig_syntax.specs.ExprTrees.{field_form, field_forms, type_form};
ghost use Rattle.pig_typing.specs.Written.{of_fields, of_values, scalar_column, with_name, written, written_field, written_fields};

use crate::columns::{bag, holding, tuple};
use pig_schema::{Field, Schema};
use pig_syntax::{FieldTree, TypeTree};
use pig_value::{Boxed, Kind, Seq, Text, beside};
use std::alloc::{AllocError, Global};

/// The column that a written type gives, without a name: none exactly where a word for floating numbers or dates
/// stands within.
#[cycle(written)]
pub fn written_type(alloc: Global, form: &TypeTree) -> Result<Option<Field>, AllocError>
    ensures { IfOk result (λ found. option_map named_tree found ≡ written (type_form form.now)) }
{
    match form {
        TypeTree::Int => Ok(Some(scalar(alloc, Kind::Int))),
        TypeTree::Long => Ok(Some(scalar(alloc, Kind::Long))),
        TypeTree::Chararray => Ok(Some(scalar(alloc, Kind::Chararray))),
        TypeTree::Bytearray => Ok(Some(scalar(alloc, Kind::Bytearray))),
        TypeTree::Boolean => Ok(Some(scalar(alloc, Kind::Boolean))),
        TypeTree::Float => Ok(None),
        TypeTree::Tuple(fields) => {
            let inner = written_schema(alloc, fields.as_slice())?;
            tuple_of(alloc, inner)
        }
        TypeTree::Bag(fields) => {
            let inner = written_schema(alloc, fields.as_slice())?;
            bag_of(alloc, inner)
        }
        TypeTree::Map(Some(values)) => {
            let values = written_type(alloc, values.get())?;
            map_of(alloc, values)
        }
        TypeTree::Map(None) => map_of(alloc, Some(scalar(alloc, Kind::Bytearray))),
    }
}

/// The columns that a written schema gives: none exactly where a word for floating numbers or dates stands within.
/// A field without a type is a bytearray.
#[cycle(written)]
pub fn written_schema(alloc: Global, fields: &[FieldTree]) -> Result<Option<Schema>, AllocError>
    ensures { IfOk result (λ found. option_map schema_tree found
        ≡ written_fields (field_forms (map field_form fields.now))) }
{
    let mut made = Vec::with_capacity(alloc, fields.len())?;
    for field in fields {
        match written_field(alloc, field)? {
            Some(column) => made.push(column)?,
            None => return Ok(None),
        }
    }
    Ok(Some(Seq::from_vec(made)))
}

#[cycle(written)]
fn written_field(alloc: Global, field: &FieldTree) -> Result<Option<Field>, AllocError>
    ensures { IfOk result (λ found. option_map named_tree found
        ≡ written_field (field_form field.now)) }
{
    match &field.kind {
        Some(form) => {
            let column = written_type(alloc, form)?;
            named(alloc, &field.name, column)
        }
        None => named(alloc, &field.name, Some(scalar(alloc, Kind::Bytearray))),
    }
}

fn named(alloc: Global, name: &Text, column: Option<Field>) -> Result<Option<Field>, AllocError>
    ensures { IfOk result (λ found. option_map named_tree found
        ≡ option_map (with_name name.now) (option_map named_tree column)) }
{
    match column {
        Some(column) => {
            let (column, name) = beside(column, name.copy(alloc))?;
            Ok(Some(with_name(name, column)))
        }
        None => Ok(None),
    }
}

fn tuple_of(alloc: Global, inner: Option<Schema>) -> Result<Option<Field>, AllocError>
    ensures { IfOk result (λ found. option_map named_tree found
        ≡ option_map (of_fields k_tuple) (option_map schema_tree inner)) }
{
    match inner {
        Some(inner) => Ok(Some(tuple(alloc, inner)?)),
        None => Ok(None),
    }
}

fn bag_of(alloc: Global, inner: Option<Schema>) -> Result<Option<Field>, AllocError>
    ensures { IfOk result (λ found. option_map named_tree found
        ≡ option_map (of_fields k_bag) (option_map schema_tree inner)) }
{
    match inner {
        Some(inner) => Ok(Some(bag(alloc, inner)?)),
        None => Ok(None),
    }
}

fn map_of(alloc: Global, values: Option<Field>) -> Result<Option<Field>, AllocError>
    ensures { IfOk result (λ found. option_map named_tree found
        ≡ option_map of_values (option_map named_tree values)) }
{
    match values {
        Some(values) => Ok(Some(of_values(alloc, values)?)),
        None => Ok(None),
    }
}

fn scalar(alloc: Global, kind: Kind) -> Field
    ensures { named_tree result ≡ scalar_column (kind_tree kind) }
{
    holding(kind, Seq::new(alloc))
}

fn of_values(alloc: Global, values: Field) -> Result<Field, AllocError>
    ensures { IfOk result (λ f. named_tree f ≡ of_values (named_tree values)) }
{
    let (kind, inner) = values.into_parts();
    let kind = Kind::Map(Boxed::new(alloc, kind)?);
    Ok(holding(kind, inner))
}

/// The column by this name.
pub fn with_name(name: Text, column: Field) -> Field
    ensures { named_tree result ≡ with_name name (named_tree column) }
{
    column.with_name(Some(name))
}
