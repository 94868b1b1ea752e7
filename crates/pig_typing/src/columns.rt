ghost use Rattle.std.specs.Prelude.{◌≡◌, IfOk, None, map};
ghost use Rattle.pig_value.specs.Trees.{kind_tree, kinds_of, k_bag, k_tuple};
ghost use Rattle.pig_schema.specs.FieldTrees.{a_field, named_tree, inner_list, inner_of, schema_tree, tree_inner, tree_kind};
ghost use Rattle.pig_typing.specs.Columns.{each_unnamed, inner_unnamed, nameless, unnamed};
ghost use Rattle.pig_typing.specs.Views.{column_seen, typing_tree};
ghost use Rattle.pig_typed.specs.Typed.{typed};
ghost use Rattle.pig_typing.specs.Parts.{typing};
ghost use Rattle.pig_typing.specs.Written.{of_fields};

use pig_schema::{Field, Schema, copy_field, copy_schema, kinds};
use pig_typed::TExpr;
use pig_value::{Boxed, Kind, Kinds, Seq, beside, copy_kind};
use std::alloc::{AllocError, Global};

// A column that stands in the scope, such a one without its name, or one that was made.
pub enum Column<'a> {
    Lent(&'a Field),
    Nameless(&'a Field),
    Made(Boxed<Field>),
}

// Written and not derived, so that a column's end is one call.
impl<'a> Drop for Column<'a> {
    fn drop(self) {
        match self {
            Column::Lent(_) | Column::Nameless(_) => {}
            Column::Made(field) => drop(field),
        }
    }
}

impl<'a> Column<'a> {
    // The column with memory of its own.
    pub fn owned(self, alloc: Global) -> Result<Field, AllocError>
        ensures { IfOk result (λ f. named_tree f ≡ column_seen self.entry) }
    {
        match self {
            Column::Lent(field) => copy_field(alloc, field),
            Column::Nameless(field) => nameless(alloc, field),
            Column::Made(field) => Ok(field.into_inner()),
        }
    }

    // What stands inside the column, with memory of its own.
    pub fn into_inner(self, alloc: Global) -> Result<Schema, AllocError>
        ensures { IfOk result (λ s. inner_of (schema_tree s)
            ≡ tree_inner (column_seen self.entry)) }
    {
        match self {
            Column::Lent(field) => copy_inner(alloc, field),
            Column::Nameless(field) => copy_inner(alloc, field),
            Column::Made(field) => Ok(inner_columns(field.into_inner())),
        }
    }
}

// An expression as it is typed, and the column that it gives.
#[derive(Drop)]
pub struct Typing<'a> {
    pub expr: Boxed<TExpr>,
    pub column: Column<'a>,
}

fn field<'b, 'a>(column: &'b Column<'a>) -> &'b Field
    ensures kind { tree_kind (named_tree result.now) ≡ tree_kind (column_seen column.now) }
    ensures inner { tree_inner (named_tree result.now) ≡ tree_inner (column_seen column.now) }
{
    match column {
        Column::Lent(field) => *field,
        Column::Nameless(field) => *field,
        Column::Made(field) => field.get(),
    }
}

// The kind of a column.
pub fn kind<'b, 'a>(column: &'b Column<'a>) -> &'b Kind
    ensures { kind_tree result.now ≡ tree_kind (column_seen column.now) }
{
    &field(column).kind
}

// The columns inside a column.
pub fn inner<'b, 'a>(column: &'b Column<'a>) -> &'b Schema
    ensures forms { inner_of (schema_tree result.now) ≡ tree_inner (column_seen column.now) }
    ensures list { schema_tree result.now ≡ inner_list (tree_inner (column_seen column.now)) }
{
    &field(column).inner
}

// A copy of a column with memory of its own.
pub fn copied(alloc: Global, column: &Column) -> Result<Field, AllocError>
    ensures { IfOk result (λ f. named_tree f ≡ column_seen column.now) }
{
    match column {
        Column::Lent(field) => copy_field(alloc, *field),
        Column::Nameless(field) => nameless(alloc, *field),
        Column::Made(field) => copy_field(alloc, field.get()),
    }
}

fn copy_inner(alloc: Global, field: &Field) -> Result<Schema, AllocError>
    ensures { IfOk result (λ s. inner_of (schema_tree s) ≡ tree_inner (named_tree field.now)) }
{
    copy_schema(alloc, &field.inner)
}

fn inner_columns(field: Field) -> Schema
    ensures { inner_of (schema_tree result) ≡ tree_inner (named_tree field) }
{
    field.into_inner()
}

fn nameless(alloc: Global, field: &Field) -> Result<Field, AllocError>
    ensures { IfOk result (λ f. named_tree f ≡ nameless (named_tree field.now)) }
{
    let kind = copy_kind(alloc, &field.kind)?;
    let inner = copy_schema(alloc, &field.inner)?;
    Ok(holding(kind, inner))
}

// A column of a kind, without a name of its own or inside.
pub fn unnamed(alloc: Global, kind: Kind) -> Result<Field, AllocError>
    ensures { IfOk result (λ f. named_tree f ≡ unnamed (kind_tree kind)) }
{
    let inner = inner_unnamed(alloc, &kind);
    let (kind, inner) = beside(kind, inner)?;
    Ok(holding(kind, inner))
}

#[cycle(unnamed)]
fn inner_unnamed(alloc: Global, kind: &Kind) -> Result<Schema, AllocError>
    ensures { IfOk result (λ s. schema_tree s ≡ inner_unnamed (kind_tree kind.now)) }
{
    match kind {
        Kind::Tuple(kinds) => each_unnamed(alloc, kinds.as_slice()),
        Kind::Bag(kinds) => each_unnamed(alloc, kinds.as_slice()),
        Kind::Map(of) => inner_unnamed(alloc, of.get()),
        _ => Ok(Seq::new(alloc)),
    }
}

#[cycle(unnamed)]
fn each_unnamed(alloc: Global, kinds: &[Kind]) -> Result<Schema, AllocError>
    ensures { IfOk result (λ s. schema_tree s ≡ each_unnamed (kinds_of (map kind_tree kinds.now))) }
{
    let mut made = Vec::with_capacity(alloc, kinds.len())?;
    for kind in kinds {
        let inner = inner_unnamed(alloc, kind)?;
        let kind = copy_kind(alloc, kind)?;
        made.push(Field {
            name: None,
            kind,
            inner,
        })?;
    }
    Ok(Seq::from_vec(made))
}

// A column without a name of this kind, with these columns inside.
pub fn holding(kind: Kind, inner: Schema) -> Field
    ensures { named_tree result ≡ a_field None (kind_tree kind) (inner_of (schema_tree inner)) }
{
    Field {
        name: None,
        kind,
        inner,
    }
}

// A tuple of these columns, without a name.
pub fn tuple(alloc: Global, columns: Schema) -> Result<Field, AllocError>
    ensures { IfOk result (λ f. named_tree f ≡ of_fields k_tuple (schema_tree columns)) }
{
    let kinds = column_kinds(alloc, &columns)?;
    Ok(holding(Kind::Tuple(kinds), columns))
}

// A bag of tuples of these columns, without a name.
pub fn bag(alloc: Global, columns: Schema) -> Result<Field, AllocError>
    ensures { IfOk result (λ f. named_tree f ≡ of_fields k_bag (schema_tree columns)) }
{
    let kinds = column_kinds(alloc, &columns)?;
    Ok(holding(Kind::Bag(kinds), columns))
}

pub fn column_kinds(alloc: Global, columns: &Schema) -> Result<Kinds, AllocError>
    ensures { IfOk result (λ ks. map kind_tree ks ≡ map tree_kind (schema_tree columns.now)) }
{
    kinds(alloc, columns)
}

// An expression with a column that was made for it.
pub fn made<'a>(alloc: Global, form: TExpr, column: Field) -> Result<Typing<'a>, AllocError>
    ensures { IfOk result (λ p. typing_tree p ≡ typing (typed form) (named_tree column)) }
{
    let (column, expr) = beside(column, Boxed::new(alloc, form))?;
    with_column(alloc, expr, column)
}

fn with_column<'a>(
    alloc: Global,
    expr: Boxed<TExpr>,
    column: Field,
) -> Result<Typing<'a>, AllocError>
    ensures { IfOk result (λ p. typing_tree p ≡ typing (typed expr) (named_tree column)) }
{
    let column = Column::Made(Boxed::new(alloc, column)?);
    Ok(Typing { expr, column })
}

// An expression of a kind without names.
pub fn plain<'a>(alloc: Global, form: TExpr, kind: Kind) -> Result<Typing<'a>, AllocError>
    ensures { IfOk result (λ p. typing_tree p ≡ typing (typed form) (unnamed (kind_tree kind))) }
{
    let (kind, expr) = beside(kind, Boxed::new(alloc, form))?;
    let column = unnamed(alloc, kind)?;
    with_column(alloc, expr, column)
}
