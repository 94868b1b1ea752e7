ghost use Rattle.pig_typing.specs.Columns.{place_of};
ghost use Rattle.pig_typing.specs.Parts.{step_of};
ghost use Rattle.pig_typing.specs.Reader.{reference_of};
ghost use Rattle.pig_typing.specs.Results.{Tells};
ghost use Rattle.pig_typing.specs.Views.{typed_tree};

use crate::columns::made;
use crate::exprs::{TypedExpr, kept};
use crate::faults::TypeFault;
use crate::names::named;
use crate::parts::one_step;
use crate::scope::Scope;
use pig_syntax::{FieldRef, PostStep};
use std::alloc::Global;

/// The typing of a name or a position: of the latest nested alias of the name, or else of the field that is meant.
///
/// # Errors
///
/// UnknownField where the name fits no field, AmbiguousField where it fits some and means none, PositionOut where
/// the position is at least the number of fields.
pub fn type_reference(
    alloc: Global,
    field: &FieldRef,
    scope: &Scope,
) -> Result<TypedExpr, TypeFault>
    ensures { Tells typed_tree (reference_of (place_of scope.now) field.now) result }
{
    let typing = named(alloc, scope, field)?;
    Ok(kept(alloc, typing)?)
}

/// The typing of a projection or a look-up behind a typed expression.
///
/// # Errors
///
/// TypeMismatch where the expression is no tuple and no bag, or no map; what is due of a reference to a field that is
/// not there; TooWide and TooDeep where the projection gives a kind past the limits.
pub fn type_step(alloc: Global, of: TypedExpr, step: &PostStep) -> Result<TypedExpr, TypeFault>
    ensures { Tells typed_tree (step_of (typed_tree of) step.now) result }
{
    let typing = made(alloc, of.expr, of.column)?;
    let typing = one_step(alloc, typing, step)?;
    Ok(kept(alloc, typing)?)
}
