ghost use Rattle.std.specs.Prelude.{◌≡◌, ◌++◌, IfOk, Some, codes, map};
ghost use Rattle.pig_value.specs.Trees.{kind_tree, k_tuple};
ghost use Rattle.pig_schema.specs.FieldTrees.{named_tree, schema_tree, tree_kind};
ghost use Rattle.pig_typing.specs.Parts.{name_under, under_name};
ghost use Rattle.pig_typing.specs.Written.{of_fields};
ghost use Rattle.pig_relations.specs.Operators.{bag_column};

use pig_schema::{Field, Schema, copy_schema, kinds};
use pig_value::{Kind, Kinds, Text, copy_kind};
use std::alloc::{AllocError, Global};

// The name of a key's column.
pub fn group_name(alloc: Global) -> Result<Text, AllocError>
    ensures { IfOk result (λ name. name ≡ codes "group") }
{
    Text::from_str(alloc, "group")
}

// A tuple of these columns, without a name.
pub fn tuple(alloc: Global, columns: Schema) -> Result<Field, AllocError>
    ensures { IfOk result (λ f. named_tree f ≡ of_fields k_tuple (schema_tree columns)) }
{
    let kinds = column_kinds(alloc, &columns)?;
    Ok(Field {
        name: None,
        kind: Kind::Tuple(kinds),
        inner: columns,
    })
}

// A bag of an input's rows, with the input's alias as its name.
pub fn bag_column(alloc: Global, alias: &Text, columns: &Schema) -> Result<Field, AllocError>
    ensures { IfOk result (λ f. named_tree f ≡ bag_column alias.now (schema_tree columns.now)) }
{
    let name = alias.copy(alloc)?;
    let kinds = column_kinds(alloc, columns)?;
    let inner = copy_schema(alloc, columns)?;
    Ok(Field {
        name: Some(name),
        kind: Kind::Bag(kinds),
        inner,
    })
}

fn column_kinds(alloc: Global, columns: &Schema) -> Result<Kinds, AllocError>
    ensures { IfOk result (λ ks. map kind_tree ks ≡ map tree_kind (schema_tree columns.now)) }
{
    kinds(alloc, columns)
}

// The columns so far, and copies of an input's columns, each with the input's alias and `::` before its name, where it
// has one.
pub fn all_under(
    alloc: Global,
    columns: Schema,
    alias: &Text,
    fields: &[Field],
) -> Result<Schema, AllocError>
    ensures { IfOk result (λ s. schema_tree s ≡ schema_tree columns
        ++ map (under_name (Some alias.now)) (schema_tree fields.now)) }
{
    let mut columns = columns;
    for field in fields {
        columns.push(under_alias(alloc, alias, field)?)?;
    }
    Ok(columns)
}

fn under_alias(alloc: Global, alias: &Text, column: &Field) -> Result<Field, AllocError>
    ensures { IfOk result (λ f. named_tree f
        ≡ under_name (Some alias.now) (named_tree column.now)) }
{
    let name = name_under(alloc, alias, &column.name)?;
    let inner = copy_schema(alloc, &column.inner)?;
    let kind = copy_kind(alloc, &column.kind)?;
    Ok(Field { name, kind, inner })
}

fn name_under(alloc: Global, alias: &Text, name: &Option<Text>) -> Result<Option<Text>, AllocError>
    ensures { IfOk result (λ n. n ≡ name_under (Some alias.now) name.now) }
{
    match name {
        Some(name) => Ok(Some(joined_name(alloc, alias.as_str(), name.as_str())?)),
        None => Ok(None),
    }
}

fn joined_name(alloc: Global, alias: &str, name: &str) -> Result<Text, AllocError>
    ensures { IfOk result (λ t. t ≡ alias.now ++ codes "::" ++ name.now) }
{
    let mut text = String::from_str(alloc, alias)?;
    text.push_str("::")?;
    text.push_str(name)?;
    Ok(Text::from_string(text))
}
