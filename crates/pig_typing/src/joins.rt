ghost use Rattle.std.specs.Prelude.{◌≡◌, IfOk, Some, None, if◌then◌else◌};
ghost use Rattle.std.specs.Option.{option_and_then, option_map};
ghost use Rattle.pig_value.specs.Trees.{kind_tree};
ghost use Rattle.pig_typed.specs.ExprKinds.{is_equated, is_ranged, may_compare, minus_kind};
ghost use Rattle.pig_typed.specs.Typed.{typed, x_cast};
ghost use Rattle.pig_typing.specs.Joins.{alike, cast_if, chained, compared, condition, conditions, join, numbers, operands_of};
ghost use Rattle.pig_typing.specs.Views.{join_tree, operands_tree};

use pig_typed::TExpr;
use pig_value::{Boxed, ChainOp, Kind, Rel, copy_kind, same_kind};
use std::alloc::{AllocError, Global};

// What two operands are together: their kind, and which of them is cast to it.
#[derive(Drop)]
pub struct Join {
    pub kind: Kind,
    pub left: bool,
    pub right: bool,
}

fn together(kind: Kind, left: bool, right: bool) -> Join
    ensures { join_tree result ≡ join (kind_tree kind) left right }
{
    Join { kind, left, right }
}

// Kinds that are alike up to int with long, or one of them a bytearray.
pub fn alike(alloc: Global, a: &Kind, b: &Kind) -> Result<Option<Join>, AllocError>
    ensures { IfOk result (λ found. option_map join_tree found
        ≡ alike (kind_tree a.now) (kind_tree b.now)) }
{
    match (a, b) {
        (Kind::Bytearray, Kind::Bytearray) => Ok(Some(together(Kind::Bytearray, false, false))),
        (Kind::Bytearray, other) => Ok(Some(together(copy_kind(alloc, other)?, true, false))),
        (other, Kind::Bytearray) => Ok(Some(together(copy_kind(alloc, other)?, false, true))),
        (Kind::Int, Kind::Long) => Ok(Some(together(Kind::Long, true, false))),
        (Kind::Long, Kind::Int) => Ok(Some(together(Kind::Long, false, true))),
        _ => {
            if same_kind(a, b) {
                Ok(Some(together(copy_kind(alloc, a)?, false, false)))
            } else {
                Ok(None)
            }
        }
    }
}

// Kinds that a comparison takes.
pub fn compared(alloc: Global, op: Rel, a: &Kind, b: &Kind) -> Result<Option<Join>, AllocError>
    ensures { IfOk result (λ found. option_map join_tree found
        ≡ compared op (kind_tree a.now) (kind_tree b.now)) }
{
    match alike(alloc, a, b)? {
        Some(join) => Ok(taken(op, join)),
        None => Ok(None),
    }
}

fn taken(op: Rel, join: Join) -> Option<Join>
    ensures { option_map join_tree result
        ≡ option_and_then (λ j. if may_compare op j.kind then Some j else None)
        (Some (join_tree join)) }
{
    if is_compared(op, &join.kind) {
        Some(join)
    } else {
        None
    }
}

fn is_compared(op: Rel, kind: &Kind) -> bool
    ensures { result ≡ may_compare op (kind_tree kind.now) }
{
    match op {
        Rel::Eq | Rel::Ne => equated(kind),
        Rel::Lt | Rel::Le | Rel::Gt | Rel::Ge => ranged(kind),
    }
}

fn equated(kind: &Kind) -> bool
    ensures { result ≡ is_equated (kind_tree kind.now) }
{
    match kind {
        Kind::Bag(_) => false,
        _ => true,
    }
}

fn ranged(kind: &Kind) -> bool
    ensures { result ≡ is_ranged (kind_tree kind.now) }
{
    match kind {
        Kind::Int => true,
        Kind::Long => true,
        Kind::Chararray => true,
        Kind::Bytearray => true,
        _ => false,
    }
}

// Kinds that an operator of a chain takes.
pub fn chained(op: ChainOp, a: &Kind, b: &Kind) -> Option<Join>
    ensures { option_map join_tree result ≡ chained op (kind_tree a.now) (kind_tree b.now) }
{
    match op {
        ChainOp::Or | ChainOp::And => conditions(a, b),
        ChainOp::Add | ChainOp::Sub | ChainOp::Mul | ChainOp::Div | ChainOp::Rem => numbers(a, b),
    }
}

fn numbers(a: &Kind, b: &Kind) -> Option<Join>
    ensures { option_map join_tree result ≡ numbers (kind_tree a.now) (kind_tree b.now) }
{
    match (a, b) {
        (Kind::Int, Kind::Int) => Some(together(Kind::Int, false, false)),
        (Kind::Int, Kind::Long) => Some(together(Kind::Long, false, false)),
        (Kind::Long, Kind::Int) => Some(together(Kind::Long, false, false)),
        (Kind::Long, Kind::Long) => Some(together(Kind::Long, false, false)),
        (Kind::Bytearray, Kind::Int) => Some(together(Kind::Int, true, false)),
        (Kind::Bytearray, Kind::Long) => Some(together(Kind::Long, true, false)),
        (Kind::Int, Kind::Bytearray) => Some(together(Kind::Int, false, true)),
        (Kind::Long, Kind::Bytearray) => Some(together(Kind::Long, false, true)),
        _ => None,
    }
}

fn conditions(a: &Kind, b: &Kind) -> Option<Join>
    ensures { option_map join_tree result ≡ conditions (kind_tree a.now) (kind_tree b.now) }
{
    let left = condition(a)?;
    let right = condition(b)?;
    Some(together(Kind::Boolean, left, right))
}

// Whether a condition of a kind is cast, where it may be one.
pub fn condition(kind: &Kind) -> Option<bool>
    ensures { result ≡ condition (kind_tree kind.now) }
{
    match kind {
        Kind::Boolean => Some(false),
        Kind::Bytearray => Some(true),
        _ => None,
    }
}

// The kind of unary minus of a kind.
pub fn minus(kind: &Kind) -> Option<Kind>
    ensures { option_map kind_tree result ≡ minus_kind (kind_tree kind.now) }
{
    match kind {
        Kind::Int => Some(Kind::Int),
        Kind::Long => Some(Kind::Long),
        _ => None,
    }
}

// Two operands as they are cast, and their kind together.
#[derive(Drop)]
pub struct Operands {
    pub kind: Boxed<Kind>,
    pub left: Boxed<TExpr>,
    pub right: Boxed<TExpr>,
}

// Two operands, each cast where it is to be.
pub fn cast_both(
    alloc: Global,
    join: Join,
    a: Boxed<TExpr>,
    b: Boxed<TExpr>,
) -> Result<Operands, AllocError>
    ensures { IfOk result (λ o. operands_tree o
        ≡ operands_of (join_tree join) (typed a) (typed b)) }
{
    let Join { kind, left, right } = join;
    let kind = Boxed::new(alloc, kind)?;
    let left = cast_if(alloc, left, kind.get(), a)?;
    let right = cast_if(alloc, right, kind.get(), b)?;
    Ok(Operands { kind, left, right })
}

// An expression, cast where it is to be.
pub fn cast_if(
    alloc: Global,
    is_cast: bool,
    to: &Kind,
    expr: Boxed<TExpr>,
) -> Result<Boxed<TExpr>, AllocError>
    ensures { IfOk result (λ e. typed e ≡ cast_if is_cast (kind_tree to.now) (typed expr)) }
{
    if is_cast {
        cast(alloc, copy_kind(alloc, to)?, expr)
    } else {
        Ok(expr)
    }
}

fn cast(alloc: Global, to: Kind, a: Boxed<TExpr>) -> Result<Boxed<TExpr>, AllocError>
    ensures { IfOk result (λ e. typed e ≡ x_cast (kind_tree to) (typed a)) }
{
    Boxed::new(alloc, TExpr::Cast { to, a })
}
