ghost use Rattle.std.specs.Prelude.{IfOk, map};
ghost use Rattle.pig_syntax.specs.ExprTrees.{expr_form, expr_forms};
ghost use Rattle.pig_typed.specs.Typed.{typed};
ghost use Rattle.pig_typing.specs.Columns.{place_of};
ghost use Rattle.pig_typing.specs.Conditions.{Conditions, ConditionsNot, Keys, KeysNot, as_key, condition_on, key_on, keys_on};
ghost use Rattle.pig_typing.specs.Results.{IfRefused, Tells};
ghost use Rattle.pig_typing.specs.Views.{typed_tree};

use crate::exprs::{TypedExpr, as_condition, type_in, typed_expr};
use crate::faults::{CheckKind, TypeFault, refused};
use crate::scope::Scope;
use pig_syntax::{Expr, Exprs};
use pig_typed::TExpr;
use pig_value::{Seq, holds_bag_or_map};
use std::alloc::Global;

/// Typed expressions with their columns.
pub type TypedExprs = Seq<TypedExpr>;

/// The typing of a condition: a boolean, or a bytearray, which is cast to boolean.
///
/// # Errors
///
/// `Refused` exactly where there is none, with a kind whose condition holds.
pub fn type_condition(alloc: Global, e: &Expr, scope: &Scope) -> Result<TExpr, TypeFault>
    ensures typed { IfOk result (λ t. Conditions (place_of scope.now) (expr_form e.now) (typed t)) }
    ensures refused { IfRefused result (λ kind. ConditionsNot (place_of scope.now)
        (expr_form e.now) kind) }
    ensures told { Tells typed (condition_on (place_of scope.now) (expr_form e.now)) result }
{
    condition_told(alloc, e, scope)
}

#[tactic(auto, unfolding(crate::specs::Conditions::condition_on))]
fn condition_told(alloc: Global, e: &Expr, scope: &Scope) -> Result<TExpr, TypeFault>
    ensures { Tells typed (condition_on (place_of scope.now) (expr_form e.now)) result }
{
    let typed = type_in(alloc, e, scope)?;
    let cond = as_condition(alloc, typed)?;
    Ok(cond.into_inner())
}

/// The typing of the keys of one input of a GROUP, COGROUP or JOIN, none of which holds a bag or a map.
///
/// # Errors
///
/// `Refused` exactly where there is none, with a kind whose condition holds.
pub fn type_keys(alloc: Global, keys: &Exprs, scope: &Scope) -> Result<TypedExprs, TypeFault>
    ensures typed { IfOk result (λ ts. Keys (place_of scope.now)
        (expr_forms (map expr_form keys.now)) (map typed_tree ts)) }
    ensures refused { IfRefused result (λ kind. KeysNot (place_of scope.now)
        (expr_forms (map expr_form keys.now)) kind) }
    ensures told { Tells (map typed_tree)
        (keys_on (place_of scope.now) (expr_forms (map expr_form keys.now))) result }
{
    keys_told(alloc, keys, scope)
}

#[tactic(auto, unfolding(crate::specs::Conditions::keys_on))]
fn keys_told(alloc: Global, keys: &Exprs, scope: &Scope) -> Result<TypedExprs, TypeFault>
    ensures { Tells (map typed_tree)
        (keys_on (place_of scope.now) (expr_forms (map expr_form keys.now))) result }
{
    let keys = keys.as_slice();
    let mut made = Seq::with_capacity(alloc, keys.len())?;
    for key in keys {
        let typed = one_key(alloc, key, scope)?;
        made.push(typed)?;
    }
    Ok(made)
}

#[tactic(auto, unfolding(crate::specs::Conditions::key_on))]
fn one_key(alloc: Global, key: &Expr, scope: &Scope) -> Result<TypedExpr, TypeFault>
    ensures { Tells typed_tree (key_on (place_of scope.now) (expr_form key.now)) result }
{
    let typed = typed_expr(alloc, key, scope)?;
    as_key(typed)
}

#[tactic(auto, unfolding(crate::specs::Conditions::as_key))]
fn as_key(key: TypedExpr) -> Result<TypedExpr, TypeFault>
    ensures { Tells typed_tree (as_key (typed_tree key)) result }
{
    if holds_bag_or_map(&key.column.kind) {
        refused(key, CheckKind::BadKey)
    } else {
        Ok(key)
    }
}
