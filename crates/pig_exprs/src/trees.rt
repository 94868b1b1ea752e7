ghost use Rattle.std.specs.Prelude.{◌≡◌, IfOk};
ghost use Rattle.pig_exprs.specs.Grammar.{chain_of};
ghost use Rattle.pig_exprs.specs.ExprReader.{post_of};

use crate::limits::Limits;
use pig_syntax::{Expr, Links, PostSteps};
use pig_value::{Boxed, Rel};
use std::alloc::{AllocError, Global};

// The operand by itself, or the chain that it begins.
#[tactic(auto, unfolding(crate::specs::Grammar::chain_of))]
pub fn chain_of(
    alloc: Global,
    limits: &Limits,
    first: Expr,
    rest: Links,
) -> Result<Expr, AllocError>
    ensures { IfOk result (λ e. e ≡ chain_of first rest) }
{
    if rest.is_empty() {
        return Ok(first);
    }
    limits.node();
    let first = Boxed::new(alloc, first)?;
    Ok(Expr::Chain { first, rest })
}

// The expression by itself, or with the steps behind it.
#[tactic(auto, unfolding(crate::specs::ExprReader::post_of))]
pub fn post_of(alloc: Global, a: Expr, steps: PostSteps) -> Result<Expr, AllocError>
    ensures { IfOk result (λ e. e ≡ post_of a steps) }
{
    if steps.is_empty() {
        return Ok(a);
    }
    let a = Boxed::new(alloc, a)?;
    Ok(Expr::Post { a, steps })
}

// Two trees, boxed.
fn both_boxed<A: Drop, B: Drop>(
    alloc: Global,
    a: A,
    b: B,
) -> Result<(Boxed<A>, Boxed<B>), AllocError>
    ensures { IfOk result (λ r. r ≡ (a, b)) }
{
    let a = Boxed::new(alloc, a)?;
    let b = Boxed::new(alloc, b)?;
    Ok((a, b))
}

// Three trees, boxed.
fn all_boxed<T: Drop>(
    alloc: Global,
    a: T,
    b: T,
    c: T,
) -> Result<(Boxed<T>, Boxed<T>, Boxed<T>), AllocError>
    ensures { IfOk result (λ r. r ≡ (a, b, c)) }
{
    let a = Boxed::new(alloc, a)?;
    let b = Boxed::new(alloc, b)?;
    let c = Boxed::new(alloc, c)?;
    Ok((a, b, c))
}

// A comparison of two expressions.
pub fn compare(
    alloc: Global,
    limits: &Limits,
    op: Rel,
    a: Expr,
    b: Expr,
) -> Result<Expr, AllocError>
    ensures { IfOk result (λ e. e ≡ Expr.Compare op a b) }
{
    limits.node();
    let (a, b) = both_boxed(alloc, a, b)?;
    Ok(Expr::Compare { op, a, b })
}

// A test for null.
pub fn is_null(alloc: Global, limits: &Limits, a: Expr, not: bool) -> Result<Expr, AllocError>
    ensures { IfOk result (λ e. e ≡ Expr.IsNull a not) }
{
    limits.node();
    let a = Boxed::new(alloc, a)?;
    Ok(Expr::IsNull { a, not })
}

// A choice between two expressions.
pub fn choose(
    alloc: Global,
    limits: &Limits,
    cond: Expr,
    yes: Expr,
    no: Expr,
) -> Result<Expr, AllocError>
    ensures { IfOk result (λ e. e ≡ Expr.Choose cond yes no) }
{
    limits.node();
    let (cond, yes, no) = all_boxed(alloc, cond, yes, no)?;
    Ok(Expr::Choose { cond, yes, no })
}
