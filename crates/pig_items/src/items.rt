ghost use Rattle.std.specs.Prelude.{◌≡◌, ◌∷◌, [], ◌++◌, IfOk, Ok, OnOk, codes, map};
ghost use Rattle.pig_value.specs.Trees.{kind_tree};
ghost use Rattle.std.specs.Option.{option_map};
ghost use Rattle.pig_schema.specs.FieldTrees.{inner_list, named_tree, schema_tree, tree_inner, tree_kind};
ghost use Rattle.pig_syntax.specs.ExprTrees.{field_form};
ghost use Rattle.pig_typed.specs.Typed.{item_typed, typed, x_cast, x_field};
ghost use Rattle.pig_typing.specs.Columns.{place_of};
ghost use Rattle.pig_typing.specs.Calls.{fields_from};
ghost use Rattle.pig_items.specs.Items.{AllGenerate, AllGenerateNot, all_renamed, as_many, cast_named, each_renamed, flat_columns, flat_of, flattened_columns, item_of, item_value, items_of, name_forms, named_of, names_for, nothing_generated, one_column, only_name, plain_of, renamed_of, same_named, both_items, whole_row};
ghost use Rattle.pig_typing.specs.Parts.{typed_of, name_under, plain_item, under_name};
ghost use Rattle.pig_typing.specs.Results.{IfRefused, Tells};
ghost use Rattle.pig_typing.specs.Written.{with_name};
ghost use Rattle.pig_typing.specs.Views.{typed_tree};
ghost use Rattle.pig_items.specs.Views.{generated_tree};

use pig_schema::{Field, Schema, copy_field, copy_schema};
use pig_syntax::{AsNames, FieldTree, Item};
use pig_typed::{BlockItem, BlockItems, TExpr};
use pig_typing::{
    CheckKind, Scope, TypeFault, TypedExpr, cast_type, in_memory, narrow, refused, type_expr,
    with_name,
};
use pig_value::{Boxed, Kind, Seq, Text, beside, casts_to, copy_kind, same_kind};
use std::alloc::{AllocError, Global};
use std::slice;

/// Typed items of GENERATE, and the columns of all fields that they give.
#[derive(Debug, Drop)]
pub struct Generated {
    pub items: BlockItems,
    pub columns: Schema,
}

/// The typing of the items of a GENERATE, in turn: `*` gives all fields of the row, FLATTEN the fields of a tuple or
/// a bag, and AS names and casts.
///
/// # Errors
///
/// `Refused` exactly where there is none, with a kind whose condition holds.
pub fn type_items(alloc: Global, items: &[Item], scope: &Scope) -> Result<Generated, TypeFault>
    ensures typed { IfOk result (λ g. AllGenerate (place_of scope.now) items.now
        (generated_tree g)) }
    ensures refused { IfRefused result (λ kind. AllGenerateNot (place_of scope.now)
        items.now kind) }
    ensures told { Tells generated_tree (items_of (place_of scope.now) items.now) result }
{
    items_told(alloc, items, scope)
}

#[tactic(auto, unfolding(crate::specs::Items::items_of))]
fn items_told(alloc: Global, items: &[Item], scope: &Scope) -> Result<Generated, TypeFault>
    ensures { Tells generated_tree (items_of (place_of scope.now) items.now) result }
{
    let mut so_far = nothing(alloc);
    for item in items {
        let next = one_item(alloc, item, scope)?;
        so_far = joined(so_far, next)?;
    }
    Ok(so_far)
}

fn nothing(alloc: Global) -> Generated
    ensures { generated_tree result ≡ nothing_generated }
{
    Generated {
        items: Seq::new(alloc),
        columns: Seq::new(alloc),
    }
}

fn joined(first: Generated, second: Generated) -> Result<Generated, AllocError>
    ensures { IfOk result (λ g. generated_tree g
        ≡ both_items (generated_tree first) (generated_tree second)) }
{
    let Generated { items, columns } = first;
    let mut items = items;
    let mut columns = columns;
    items.extend(second.items)?;
    columns.extend(second.columns)?;
    Ok(Generated { items, columns })
}

#[tactic(auto, unfolding(crate::specs::Items::item_of))]
fn one_item(alloc: Global, item: &Item, scope: &Scope) -> Result<Generated, TypeFault>
    ensures { Tells generated_tree (item_of (place_of scope.now) item.now) result }
{
    match item {
        Item::All => all_fields(alloc, scope.columns),
        Item::Value {
            value,
            flatten,
            names,
        } => {
            let typed = type_expr(alloc, value, scope)?;
            value_item(alloc, typed, *flatten, names)
        }
    }
}

// All fields of the row.
fn all_fields(alloc: Global, columns: &Schema) -> Result<Generated, TypeFault>
    ensures { Tells generated_tree (Ok (whole_row (schema_tree columns.now))) result }
{
    let items = field_items(alloc, columns.len())?;
    let columns = copy_schema(alloc, columns)?;
    Ok(Generated { items, columns })
}

fn field_items(alloc: Global, count: usize) -> Result<BlockItems, TypeFault>
    ensures { Tells (map item_typed) (Ok (map plain_item (fields_from 0 count))) result }
{
    let mut items = Seq::with_capacity(alloc, count)?;
    for place in 0..count {
        let field = narrow(place)?;
        one_more(&mut items, field)?;
    }
    Ok(items)
}

fn one_more(items: &mut BlockItems, field: u32) -> Result<(), AllocError>
    ensures { OnOk result (map item_typed items.new
        ≡ map item_typed items.old ++ plain_item (x_field field) ∷ []) }
{
    items.push(BlockItem {
        value: TExpr::Field(field),
        flatten: false,
        width: 1,
    })
}

fn value_item(
    alloc: Global,
    typed: TypedExpr,
    flatten: bool,
    names: &Option<AsNames>,
) -> Result<Generated, TypeFault>
    ensures { Tells generated_tree (item_value (typed_tree typed) flatten names.now) result }
{
    if flatten {
        flat(alloc, typed, names)
    } else {
        single(alloc, typed, names)
    }
}

// ---- an item that gives one field

#[tactic(auto, unfolding(crate::specs::Items::plain_of))]
fn single(alloc: Global, typed: TypedExpr, names: &Option<AsNames>) -> Result<Generated, TypeFault>
    ensures { Tells generated_tree (plain_of (typed_tree typed) names.now) result }
{
    match names {
        Some(names) => match only(names) {
            Some(field) => named(alloc, typed, field),
            None => refused(typed, CheckKind::SchemaMismatch),
        },
        None => in_memory(one_column(alloc, typed.expr, typed.column)),
    }
}

fn one_column(alloc: Global, value: TExpr, column: Field) -> Result<Generated, AllocError>
    ensures { IfOk result (λ g. generated_tree g ≡ one_column (typed value) (named_tree column)) }
{
    let (value, columns) = beside(value, list_of(alloc, column))?;
    let item = BlockItem {
        value,
        flatten: false,
        width: 1,
    };
    let items = list_of(alloc, item)?;
    Ok(Generated { items, columns })
}

fn list_of<T: Drop>(alloc: Global, element: T) -> Result<Seq<T>, AllocError>
    ensures { IfOk result (λ s. s ≡ element ∷ []) }
{
    let mut list = Seq::new(alloc);
    list.push(element)?;
    Ok(list)
}

// The one name, where there is one.
fn only(names: &AsNames) -> Option<&FieldTree>
    ensures { option_map (λ f. field_form f.now) result ≡ only_name (name_forms names.now) }
{
    match names {
        AsNames::One(field) => Some(field),
        AsNames::Several(fields) => match fields.as_slice() {
            [field] => Some(field),
            _ => None,
        },
    }
}

#[tactic(auto, unfolding(crate::specs::Items::named_of))]
fn named(alloc: Global, typed: TypedExpr, field: &FieldTree) -> Result<Generated, TypeFault>
    ensures { Tells generated_tree (named_of (typed_tree typed) (field_form field.now)) result }
{
    let name = in_memory(field.name.copy(alloc));
    let (typed, name) = beside(typed, name)?;
    match &field.kind {
        Some(to) => {
            let ((typed, name), column) = beside((typed, name), cast_type(alloc, to))?;
            cast_named(alloc, typed, name, column)
        }
        None => {
            let column = with_name(name, typed.column);
            in_memory(one_column(alloc, typed.expr, column))
        }
    }
}

#[tactic(auto, unfolding(crate::specs::Items::cast_named))]
fn cast_named(
    alloc: Global,
    typed: TypedExpr,
    name: Text,
    column: Boxed<Field>,
) -> Result<Generated, TypeFault>
    ensures { Tells generated_tree (cast_named (typed_tree typed) name (named_tree column)) result }
{
    if casts_to(&typed.column.kind, &column.get().kind) {
        in_memory(cast_column(alloc, typed, name, column.into_inner()))
    } else {
        refused((typed, name, column), CheckKind::TypeMismatch)
    }
}

fn cast_column(
    alloc: Global,
    typed: TypedExpr,
    name: Text,
    column: Field,
) -> Result<Generated, AllocError>
    ensures { IfOk result (λ g. generated_tree g
        ≡ one_column (x_cast (tree_kind (named_tree column)) (typed_of (typed_tree typed)))
        (with_name name (named_tree column))) }
{
    let value = cast_of(alloc, typed.expr, &column.kind);
    let ((name, column), value) = beside((name, column), value)?;
    one_column(alloc, value, with_name(name, column))
}

fn cast_of(alloc: Global, value: TExpr, to: &Kind) -> Result<TExpr, AllocError>
    ensures { IfOk result (λ e. typed e ≡ x_cast (kind_tree to.now) (typed value)) }
{
    let a = Boxed::new(alloc, value)?;
    let to = copy_kind(alloc, to)?;
    Ok(TExpr::Cast { to, a })
}

// ---- FLATTEN

#[tactic(auto, unfolding(crate::specs::Items::flat_of))]
fn flat(alloc: Global, typed: TypedExpr, names: &Option<AsNames>) -> Result<Generated, TypeFault>
    ensures { Tells generated_tree (flat_of (typed_tree typed) names.now) result }
{
    let columns = in_memory(flattened(alloc, &typed.column));
    let (typed, columns) = beside(typed, columns)?;
    match columns {
        Some(columns) => {
            let (typed, columns) = beside(typed, names_for(alloc, columns, names))?;
            flat_columns(alloc, typed.expr, columns)
        }
        None => refused(typed, CheckKind::TypeMismatch),
    }
}

fn flat_columns(alloc: Global, value: TExpr, columns: Schema) -> Result<Generated, TypeFault>
    ensures { Tells generated_tree (Ok (flat_columns (typed value) (schema_tree columns))) result }
{
    let (value, width) = beside(value, narrow(columns.len()))?;
    let item = BlockItem {
        value,
        flatten: true,
        width,
    };
    let items = list_of(alloc, item)?;
    Ok(Generated { items, columns })
}

// The columns that FLATTEN gives.
fn flattened(alloc: Global, column: &Field) -> Result<Option<Schema>, AllocError>
    ensures { IfOk result (λ found. option_map schema_tree found
        ≡ flattened_columns (named_tree column.now)) }
{
    match &column.kind {
        Kind::Tuple(_) => Ok(Some(all_under(alloc, &column.name, inside(column))?)),
        Kind::Bag(_) => Ok(Some(all_under(alloc, &column.name, inside(column))?)),
        Kind::Map(_) => Ok(None),
        _ => Ok(Some(alone(alloc, column)?)),
    }
}

fn alone(alloc: Global, column: &Field) -> Result<Schema, AllocError>
    ensures { IfOk result (λ s. schema_tree s ≡ named_tree column.now ∷ []) }
{
    let mut columns = Seq::new(alloc);
    columns.push(copy_field(alloc, column)?)?;
    Ok(columns)
}

fn inside(column: &Field) -> &[Field]
    ensures { schema_tree result.now ≡ inner_list (tree_inner (named_tree column.now)) }
{
    column.inner.as_slice()
}

fn all_under(alloc: Global, outer: &Option<Text>, inner: &[Field]) -> Result<Schema, AllocError>
    ensures { IfOk result (λ s. schema_tree s
        ≡ map (under_name outer.now) (schema_tree inner.now)) }
{
    let mut columns = Vec::with_capacity(alloc, inner.len())?;
    for column in inner {
        columns.push(under(alloc, outer, column)?)?;
    }
    Ok(Seq::from_vec(columns))
}

fn under(alloc: Global, outer: &Option<Text>, column: &Field) -> Result<Field, AllocError>
    ensures { IfOk result (λ f. named_tree f ≡ under_name outer.now (named_tree column.now)) }
{
    let name = name_under(alloc, outer, &column.name)?;
    let kind = copy_kind(alloc, &column.kind)?;
    let inner = copy_schema(alloc, &column.inner)?;
    Ok(Field { name, kind, inner })
}

fn name_under(
    alloc: Global,
    outer: &Option<Text>,
    name: &Option<Text>,
) -> Result<Option<Text>, AllocError>
    ensures { IfOk result (λ n. n ≡ name_under outer.now name.now) }
{
    match (outer, name) {
        (Some(outer), Some(name)) => { Ok(Some(with_outer(alloc, outer.as_str(), name.as_str())?)) }
        (None, Some(name)) => Ok(Some(name.copy(alloc)?)),
        (_, None) => Ok(None),
    }
}

fn with_outer(alloc: Global, outer: &str, name: &str) -> Result<Text, AllocError>
    ensures { IfOk result (λ t. t ≡ outer.now ++ codes "::" ++ name.now) }
{
    let mut text = String::from_str(alloc, outer)?;
    text.push_str("::")?;
    text.push_str(name)?;
    Ok(Text::from_string(text))
}

#[tactic(auto, unfolding(crate::specs::Items::names_for))]
fn names_for(alloc: Global, columns: Schema, names: &Option<AsNames>) -> Result<Schema, TypeFault>
    ensures { Tells schema_tree (names_for (schema_tree columns) names.now) result }
{
    match names {
        Some(names) => all_renamed(alloc, columns.as_slice(), name_fields(names)),
        None => Ok(columns),
    }
}

// What is written behind AS, in parentheses or not.
fn name_fields(names: &AsNames) -> &[FieldTree]
    ensures { map field_form result.now ≡ name_forms names.now }
{
    match names {
        AsNames::One(field) => slice::from_ref(field),
        AsNames::Several(fields) => fields.as_slice(),
    }
}

// Each column with its name, where there are as many names as columns.
#[tactic(auto, unfolding(crate::specs::Items::all_renamed))]
fn all_renamed(alloc: Global, columns: &[Field], fields: &[FieldTree]) -> Result<Schema, TypeFault>
    ensures { Tells schema_tree (all_renamed (schema_tree columns.now) (map field_form fields.now))
        result }
{
    if as_many(columns, fields) {
        each_renamed(alloc, columns, fields)
    } else {
        Err(TypeFault::Refused(CheckKind::SchemaMismatch))
    }
}

fn as_many(columns: &[Field], fields: &[FieldTree]) -> bool
    ensures { result ≡ as_many (schema_tree columns.now) (map field_form fields.now) }
{
    columns.len() == fields.len()
}

#[tactic(auto, unfolding(crate::specs::Items::each_renamed))]
fn each_renamed(alloc: Global, columns: &[Field], fields: &[FieldTree]) -> Result<Schema, TypeFault>
    ensures { Tells schema_tree
        (each_renamed (schema_tree columns.now) (map field_form fields.now)) result }
{
    let mut made = Seq::with_capacity(alloc, columns.len())?;
    let mut left = fields;
    for column in columns {
        match left {
            [field, rest @ ..] => {
                let column = renamed(alloc, column, field)?;
                made.push(column)?;
                left = rest;
            }
            [] => return Ok(made),
        }
    }
    Ok(made)
}

#[tactic(auto, unfolding(crate::specs::Items::renamed_of))]
fn renamed(alloc: Global, column: &Field, field: &FieldTree) -> Result<Field, TypeFault>
    ensures { Tells named_tree (renamed_of (named_tree column.now) (field_form field.now)) result }
{
    let name = field.name.copy(alloc)?;
    match &field.kind {
        Some(to) => {
            let typed = cast_type(alloc, to)?;
            same_named(column, name, typed)
        }
        None => Ok(with_name(name, copy_field(alloc, column)?)),
    }
}

#[tactic(auto, unfolding(crate::specs::Items::same_named))]
fn same_named(column: &Field, name: Text, typed: Boxed<Field>) -> Result<Field, TypeFault>
    ensures { Tells named_tree (same_named (named_tree column.now) name (named_tree typed)) result }
{
    if same_kind(&typed.get().kind, &column.kind) {
        Ok(with_name(name, typed.into_inner()))
    } else {
        refused((name, typed), CheckKind::TypeMismatch)
    }
}
