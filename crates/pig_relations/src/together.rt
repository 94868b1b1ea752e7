ghost use Rattle.std.specs.Prelude.{◌≡◌, IfOk, map};
ghost use Rattle.std.specs.Option.{option_map};
ghost use Rattle.pig_value.specs.Trees.{kind_tree};
ghost use Rattle.pig_schema.specs.FieldTrees.{named_tree, schema_tree, tree_kind};
ghost use Rattle.pig_typed.specs.Typed.{typed};
ghost use Rattle.pig_relations.specs.Together.{all_together, each_together, int_with_long, of_kind, of_kinds, together, widened, widens, with_others};
ghost use Rattle.pig_relations.specs.Views.{fields_seen};

use pig_schema::{Field, Schema, copy_schema};
use pig_typed::TExpr;
use pig_value::{Boxed, Kind, Kinds, Seq, Text, copy_kind, same_kind};
use std::alloc::{AllocError, Global};

// The kinds that the columns of all inputs have together, place by place: none where they are not equally many, or
// of other kinds than int and long that differ.
pub fn all_together(alloc: Global, rows: &[Vec<&Field>]) -> Result<Option<Kinds>, AllocError>
    ensures { IfOk result (λ found. option_map (map kind_tree) found
        ≡ all_together (map (λ row. map tree_kind (fields_seen row.items)) rows.now)) }
{
    match rows {
        [first, others @ ..] => {
            let kinds = kinds_of(alloc, first.as_slice())?;
            with_others(alloc, kinds, others)
        }
        [] => Ok(None),
    }
}

fn kinds_of(alloc: Global, row: &[&Field]) -> Result<Kinds, AllocError>
    ensures { IfOk result (λ ks. map kind_tree ks ≡ map tree_kind (fields_seen row.now)) }
{
    let mut kinds = Seq::with_capacity(alloc, row.len())?;
    for column in row {
        kinds.push(copy_kind(alloc, &column.kind)?)?;
    }
    Ok(kinds)
}

fn with_others(
    alloc: Global,
    kinds: Kinds,
    others: &[Vec<&Field>],
) -> Result<Option<Kinds>, AllocError>
    ensures { IfOk result (λ found. option_map (map kind_tree) found ≡ with_others
        (map kind_tree kinds) (map (λ row. map tree_kind (fields_seen row.items)) others.now)) }
{
    let mut so_far = kinds;
    for other in others {
        match each_together(alloc, so_far.as_slice(), other.as_slice())? {
            Some(kinds) => so_far = kinds,
            None => return Ok(None),
        }
    }
    Ok(Some(so_far))
}

fn each_together(alloc: Global, kinds: &[Kind], row: &[&Field]) -> Result<Option<Kinds>, AllocError>
    ensures { IfOk result (λ found. option_map (map kind_tree) found ≡ each_together
        (map kind_tree kinds.now) (map tree_kind (fields_seen row.now))) }
{
    let mut made = Seq::with_capacity(alloc, kinds.len())?;
    let mut left = row;
    for kind in kinds {
        match left {
            [column, rest @ ..] => {
                match together(alloc, kind, &column.kind)? {
                    Some(kind) => made.push(kind)?,
                    None => return Ok(None),
                }
                left = rest;
            }
            [] => return Ok(None),
        }
    }
    if left.is_empty() {
        Ok(Some(made))
    } else {
        Ok(None)
    }
}

// The kind of both together: int with long is long, and others are equal.
fn together(alloc: Global, kind: &Kind, other: &Kind) -> Result<Option<Kind>, AllocError>
    ensures { IfOk result (λ found. option_map kind_tree found
        ≡ together (kind_tree kind.now) (kind_tree other.now)) }
{
    if int_with_long(kind, other) {
        Ok(Some(Kind::Long))
    } else if same_kind(kind, other) {
        Ok(Some(copy_kind(alloc, kind)?))
    } else {
        Ok(None)
    }
}

fn int_with_long(kind: &Kind, other: &Kind) -> bool
    ensures { result ≡ int_with_long (kind_tree kind.now) (kind_tree other.now) }
{
    match (kind, other) {
        (Kind::Int, Kind::Long) => true,
        (Kind::Long, Kind::Int) => true,
        _ => false,
    }
}

// Whether what is of the first kind is cast to be of the second.
pub fn widens(kind: &Kind, to: &Kind) -> bool
    ensures { result ≡ widens (kind_tree kind.now) (kind_tree to.now) }
{
    match (kind, to) {
        (Kind::Int, Kind::Long) => true,
        _ => false,
    }
}

// An expression of the first kind, cast where the second is wider.
pub fn widened(alloc: Global, kind: &Kind, to: &Kind, value: TExpr) -> Result<TExpr, AllocError>
    ensures { IfOk result (λ e. typed e
        ≡ widened (kind_tree kind.now) (kind_tree to.now) (typed value)) }
{
    if widens(kind, to) {
        let a = Boxed::new(alloc, value)?;
        let to = copy_kind(alloc, to)?;
        Ok(TExpr::Cast { to, a })
    } else {
        Ok(value)
    }
}

// Copies of the columns, with the kinds at their places.
pub fn of_kinds(alloc: Global, kinds: &[Kind], columns: &[&Field]) -> Result<Schema, AllocError>
    ensures { IfOk result (λ s. schema_tree s
        ≡ of_kinds (map kind_tree kinds.now) (fields_seen columns.now)) }
{
    let mut made = Seq::with_capacity(alloc, kinds.len())?;
    let mut left = columns;
    for kind in kinds {
        match left {
            [column, rest @ ..] => {
                made.push(of_kind(alloc, kind, column)?)?;
                left = rest;
            }
            [] => return Ok(made),
        }
    }
    Ok(made)
}

fn of_kind(alloc: Global, kind: &Kind, column: &Field) -> Result<Field, AllocError>
    ensures { IfOk result (λ f. named_tree f
        ≡ of_kind (kind_tree kind.now) (named_tree column.now)) }
{
    let name = copy_name(alloc, &column.name)?;
    let inner = copy_schema(alloc, &column.inner)?;
    let kind = copy_kind(alloc, kind)?;
    Ok(Field { name, kind, inner })
}

fn copy_name(alloc: Global, name: &Option<Text>) -> Result<Option<Text>, AllocError>
    ensures { IfOk result (λ c. c ≡ name.now) }
{
    match name {
        Some(text) => Ok(Some(text.copy(alloc)?)),
        None => Ok(None),
    }
}
