ghost use Rattle.std.specs.Prelude.{◌≡◌, [], ◌∷◌, IfOk};
ghost use Rattle.pig_value.specs.Trees.{kind_tree};
ghost use Rattle.pig_schema.specs.FieldTrees.{inner_list, named_tree, schema_tree, tree_inner};
ghost use Rattle.pig_syntax.specs.ExprTrees.{e_field, e_post};
ghost use Rattle.pig_typing.specs.Columns.{place_of};
ghost use Rattle.pig_typing.specs.Reader.{type_of};
ghost use Rattle.pig_typing.specs.Results.{Tells};
ghost use Rattle.pig_typing.specs.Views.{typed_tree};
ghost use Rattle.pig_blocks.specs.Bags.{as_bag, bag_form, bag_of, columns_in, is_bag};
ghost use Rattle.pig_blocks.specs.Views.{bag_tree};

use pig_schema::{Field, Schema};
use pig_syntax::{BagRef, FieldRef, PostStep};
use pig_typed::TExpr;
use pig_typing::{CheckKind, Scope, TypeFault, TypedExpr, type_reference, type_step};
use pig_value::{Boxed, Kind};
use std::alloc::{AllocError, Global};

// A typed bag, and its column.
#[derive(Drop)]
pub struct TypedBag {
    pub expr: Boxed<TExpr>,
    pub column: Boxed<Field>,
}

// The bag of a nested step.
#[tactic(auto, unfolding(crate::specs::Bags::bag_of))]
pub fn bag(alloc: Global, from: &BagRef, scope: &Scope) -> Result<TypedBag, TypeFault>
    ensures { Tells bag_tree (bag_of (place_of scope.now) from.now) result }
{
    let typed = referred(alloc, from, scope)?;
    as_bag(alloc, typed)
}

fn referred(alloc: Global, from: &BagRef, scope: &Scope) -> Result<TypedExpr, TypeFault>
    ensures { Tells typed_tree (type_of (place_of scope.now) (bag_form from.now)) result }
{
    match &from.sel {
        Some(step) => projected(alloc, &from.field, step, scope),
        None => type_reference(alloc, &from.field, scope),
    }
}

fn projected(
    alloc: Global,
    field: &FieldRef,
    step: &PostStep,
    scope: &Scope,
) -> Result<TypedExpr, TypeFault>
    ensures { Tells typed_tree (type_of (place_of scope.now)
        (e_post (e_field field.now) (step.now ∷ []))) result }
{
    let typed = type_reference(alloc, field, scope)?;
    type_step(alloc, typed, step)
}

#[tactic(auto, unfolding(crate::specs::Bags::as_bag))]
fn as_bag(alloc: Global, typed: TypedExpr) -> Result<TypedBag, TypeFault>
    ensures { Tells bag_tree (as_bag (typed_tree typed)) result }
{
    if is_bag(&typed.column.kind) {
        Ok(boxed(alloc, typed)?)
    } else {
        Err(TypeFault::Refused(CheckKind::TypeMismatch))
    }
}

fn is_bag(kind: &Kind) -> bool
    ensures { result ≡ is_bag (kind_tree kind.now) }
{
    match kind {
        Kind::Bag(_) => true,
        _ => false,
    }
}

fn boxed(alloc: Global, typed: TypedExpr) -> Result<TypedBag, AllocError>
    ensures { IfOk result (λ b. bag_tree b ≡ typed_tree typed) }
{
    let TypedExpr { expr, column } = typed;
    let expr = Boxed::new(alloc, expr)?;
    let column = Boxed::new(alloc, column)?;
    Ok(TypedBag { expr, column })
}

// The columns of the bag's tuples.
pub fn inside(bag: &TypedBag) -> &Schema
    ensures { schema_tree result.now ≡ columns_in (bag_tree bag.now) }
{
    inner(bag.column.get())
}

fn inner(column: &Field) -> &Schema
    ensures { schema_tree result.now ≡ inner_list (tree_inner (named_tree column.now)) }
{
    &column.inner
}
