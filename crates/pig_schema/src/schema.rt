ghost use Rattle.std.specs.Prelude.{◌≡◌, IfOk, map};
ghost use Rattle.pig_value.specs.Trees.{kind_tree};
ghost use Rattle.pig_schema.specs.FieldTrees.{a_field, inner_of, kind_of, name_of, named_tree, schema_tree, tree_inner, tree_kind};

use pig_value::{Kind, Kinds, Seq, Text, copy_kind};
use std::alloc::{AllocError, Global};

/// The fields of a relation's tuples, in order.
pub type Schema = Seq<Field>;

/// A field of a schema. Where it holds fields its kind tells their kinds (`IsColumn` in `specs/FieldTrees`).
#[cycle(schema)]
#[derive(Debug)]
pub struct Field {
    /// None where the field can be used by its position alone.
    pub name: Option<Text>,
    pub kind: Kind,
    /// The fields of a tuple or of the tuples of a bag; of a map those of its values, and none of other kinds.
    pub inner: Schema,
}

// Written and not derived, so that a field's end is one call.
impl Drop for Field {
    #[cycle(drop_field)]
    fn drop(self) {
        let Field { name, kind, inner } = self;
        drop(name);
        drop(kind);
        drop(inner);
    }
}

impl Field {
    /// The field by another name, or without one.
    pub fn with_name(self, name: Option<Text>) -> Field
        ensures { named_tree result
            ≡ a_field name (tree_kind (named_tree self)) (tree_inner (named_tree self)) }
    {
        let Field {
            name: old,
            kind,
            inner,
        } = self;
        drop(old);
        Field { name, kind, inner }
    }

    /// The kind of the field, and the fields inside it.
    pub fn into_parts(self) -> (Kind, Schema)
        ensures { a_field (name_of self) (kind_tree result.0) (inner_of (schema_tree result.1))
            ≡ named_tree self }
    {
        let Field { name, kind, inner } = self;
        drop(name);
        (kind, inner)
    }

    /// The fields inside the field.
    pub fn into_inner(self) -> Schema
        ensures { inner_of (schema_tree result) ≡ tree_inner (named_tree self) }
    {
        let Field { name, kind, inner } = self;
        drop((name, kind));
        inner
    }
}

/// The kinds of the fields, in order, in memory of their own.
pub fn kinds(alloc: Global, s: &Schema) -> Result<Kinds, AllocError>
    ensures { IfOk result (λ ks. ks ≡ map kind_of s.now) }
{
    let mut kinds = Seq::new(alloc);
    for field in s.as_slice() {
        kinds.push(copy_kind(alloc, &field.kind)?)?;
    }
    Ok(kinds)
}

/// A copy of a field, which holds memory of its own.
#[cycle(copy_field)]
pub fn copy_field(alloc: Global, f: &Field) -> Result<Field, AllocError>
    ensures { IfOk result (λ c. c ≡ f.now) }
{
    let name = copy_name(alloc, &f.name)?;
    let kind = copy_kind(alloc, &f.kind)?;
    let inner = copy_schema(alloc, &f.inner)?;
    Ok(Field { name, kind, inner })
}

/// A copy of a schema, which holds memory of its own.
#[cycle(copy_field)]
pub fn copy_schema(alloc: Global, s: &Schema) -> Result<Schema, AllocError>
    ensures { IfOk result (λ c. c ≡ s.now) }
{
    let mut made = Vec::with_capacity(alloc, s.len())?;
    for field in s.as_slice() {
        made.push(copy_field(alloc, field)?)?;
    }
    Ok(Seq::from_vec(made))
}

fn copy_name(alloc: Global, name: &Option<Text>) -> Result<Option<Text>, AllocError>
    ensures { IfOk result (λ c. c ≡ name.now) }
{
    match name {
        Some(text) => Ok(Some(text.copy(alloc)?)),
        None => Ok(None),
    }
}
