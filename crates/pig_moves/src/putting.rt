ghost use Rattle.std.specs.Prelude.{◌≡◌, IfOk, map};
ghost use Rattle.pig_plan.specs.Moves.{put, put_args, put_links};
ghost use Rattle.pig_typed.specs.Typed.{args_of, link_of, links_of, typed, x_choose, x_compare};
ghost use Rattle.pig_moves.specs.Putting.{instead_of, put_link};

use crate::handing::plain_at;
use pig_typed::{BlockItem, TExpr, TExprs, TLink, TLinks, copy_expr, copy_positions};
use pig_value::{Boxed, Positions, Rel, Seq, copy_kind};
use std::alloc::{AllocError, Global};

/// What stands in the place of the columns of a condition that passes an operator.
#[derive(Clone, Copy, Drop)]
pub enum Instead<'a> {
    /// The columns that the items of a FOREACH hand on.
    Handed(&'a [BlockItem]),
    /// The columns of an input of a JOIN, which begin at this one.
    Behind(u32),
    /// The key of a GROUP.
    Key(&'a TExpr),
}

// What stands in the place of one column.
fn put_column(alloc: Global, instead: Instead, n: u32) -> Result<TExpr, AllocError>
    ensures { IfOk result (λ c. typed c ≡ instead_of instead.entry n) }
{
    match instead {
        Instead::Handed(items) => Ok(TExpr::Field(plain_at(items, n).unwrap_or(n))),
        Instead::Behind(first) => Ok(TExpr::Field(n.saturating_sub(first))),
        Instead::Key(key) => copy_expr(alloc, key),
    }
}

/// An expression with others in the place of its columns.
#[cycle(put)]
pub fn put(alloc: Global, instead: Instead, e: &TExpr) -> Result<TExpr, AllocError>
    ensures { IfOk result (λ c. typed c
        ≡ put (instead_of instead.entry) (typed e.now)) }
{
    match e {
        TExpr::Null => Ok(TExpr::Null),
        TExpr::Bool(b) => Ok(TExpr::Bool(*b)),
        TExpr::Int(n) => Ok(TExpr::Int(*n)),
        TExpr::Long(n) => Ok(TExpr::Long(*n)),
        TExpr::Chars(text) => Ok(TExpr::Chars(text.copy(alloc)?)),
        TExpr::Field(n) => put_column(alloc, instead, *n),
        TExpr::Local(n) => Ok(TExpr::Local(*n)),
        TExpr::Chain { first, rest } => {
            let first = put_boxed(alloc, instead, first)?;
            let rest = put_links(alloc, instead, rest)?;
            Ok(TExpr::Chain { first, rest })
        }
        TExpr::Compare { op, a, b } => put_compare(alloc, instead, *op, a, b),
        TExpr::IsNull { a, not } => Ok(TExpr::IsNull {
            a: put_boxed(alloc, instead, a)?,
            not: *not,
        }),
        TExpr::Not(a) => Ok(TExpr::Not(put_boxed(alloc, instead, a)?)),
        TExpr::Minus(a) => Ok(TExpr::Minus(put_boxed(alloc, instead, a)?)),
        TExpr::Choose { cond, yes, no } => put_choose(alloc, instead, cond, yes, no),
        TExpr::Cast { to, a } => {
            let a = put_boxed(alloc, instead, a)?;
            let to = copy_kind(alloc, to)?;
            Ok(TExpr::Cast { to, a })
        }
        TExpr::Project { a, fields, single } => {
            let a = put_boxed(alloc, instead, a)?;
            projection(alloc, a, fields, *single)
        }
        TExpr::Look { a, key } => {
            let a = put_boxed(alloc, instead, a)?;
            let key = key.copy(alloc)?;
            Ok(TExpr::Look { a, key })
        }
        TExpr::Call { function, args } => Ok(TExpr::Call {
            function: *function,
            args: put_args(alloc, instead, args)?,
        }),
    }
}

fn projection(
    alloc: Global,
    a: Boxed<TExpr>,
    fields: &Positions,
    single: bool,
) -> Result<TExpr, AllocError>
    ensures { IfOk result (λ c. c ≡ TExpr.Project a fields.now single) }
{
    let fields = copy_positions(alloc, fields)?;
    Ok(TExpr::Project { a, fields, single })
}

#[cycle(put)]
fn put_boxed(alloc: Global, instead: Instead, e: &Boxed<TExpr>) -> Result<Boxed<TExpr>, AllocError>
    ensures { IfOk result (λ c. typed c
        ≡ put (instead_of instead.entry) (typed e.now)) }
{
    Boxed::new(alloc, put(alloc, instead, e.get())?)
}

#[cycle(put)]
fn put_compare(
    alloc: Global,
    instead: Instead,
    op: Rel,
    a: &Boxed<TExpr>,
    b: &Boxed<TExpr>,
) -> Result<TExpr, AllocError>
    ensures { IfOk result (λ c. typed c
        ≡ x_compare op
        (put (instead_of instead.entry) (typed a.now))
        (put (instead_of instead.entry) (typed b.now))) }
{
    let a = put_boxed(alloc, instead, a)?;
    let b = put_boxed(alloc, instead, b)?;
    Ok(TExpr::Compare { op, a, b })
}

#[cycle(put)]
fn put_choose(
    alloc: Global,
    instead: Instead,
    cond: &Boxed<TExpr>,
    yes: &Boxed<TExpr>,
    no: &Boxed<TExpr>,
) -> Result<TExpr, AllocError>
    ensures { IfOk result (λ c. typed c
        ≡ x_choose
        (put (instead_of instead.entry) (typed cond.now))
        (put (instead_of instead.entry) (typed yes.now))
        (put (instead_of instead.entry) (typed no.now))) }
{
    let cond = put_boxed(alloc, instead, cond)?;
    let yes = put_boxed(alloc, instead, yes)?;
    let no = put_boxed(alloc, instead, no)?;
    Ok(TExpr::Choose { cond, yes, no })
}

#[cycle(put)]
fn put_link(alloc: Global, instead: Instead, link: &TLink) -> Result<TLink, AllocError>
    ensures { IfOk result (λ c. link_of c
        ≡ put_link (instead_of instead.entry)
        (link_of link.now)) }
{
    let a = put(alloc, instead, &link.a)?;
    Ok(TLink { op: link.op, a })
}

#[cycle(put)]
fn put_links(alloc: Global, instead: Instead, links: &TLinks) -> Result<TLinks, AllocError>
    ensures { IfOk result (λ c. links_of (map link_of c)
        ≡ put_links (instead_of instead.entry)
        (links_of (map link_of links.now))) }
{
    let links = links.as_slice();
    let mut made = Vec::with_capacity(alloc, links.len())?;
    for link in links {
        made.push(put_link(alloc, instead, link)?)?;
    }
    Ok(Seq::from_vec(made))
}

#[cycle(put)]
fn put_args(alloc: Global, instead: Instead, args: &TExprs) -> Result<TExprs, AllocError>
    ensures { IfOk result (λ c. args_of (map typed c)
        ≡ put_args (instead_of instead.entry)
        (args_of (map typed args.now))) }
{
    let args = args.as_slice();
    let mut made = Vec::with_capacity(alloc, args.len())?;
    for e in args {
        made.push(put(alloc, instead, e)?)?;
    }
    Ok(Seq::from_vec(made))
}
