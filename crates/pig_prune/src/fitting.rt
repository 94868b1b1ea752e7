ghost use Rattle.std.specs.Prelude.{◌≡◌, map, IfOk};
ghost use Rattle.pig_plan.specs.Moves.{field_of};
ghost use Rattle.pig_typed.specs.Typed.{args_of, link_of, links_of, typed, x_choose, x_compare, x_project};
ghost use Rattle.pig_cuts.specs.Cuts.{cut_at, place_of};
ghost use Rattle.pig_cuts.specs.Fits.{fit, fit_args, fit_columns, fit_links, left_of_field};
ghost use Rattle.pig_prune.specs.Pruned.{fit_link};

use crate::cutting::Cut;
use crate::finding::{left_of_operand, place_of};
use pig_typed::{TExpr, TExprs, TLink, TLinks, copy_positions};
use pig_value::{Boxed, Positions, Rel, Seq, copy_kind};
use std::alloc::{AllocError, Global};

// An expression over what is left of a node's rows.
#[cycle(fit_expr)]
pub fn fit_expr(alloc: Global, cuts: &[Cut], node: u32, e: &TExpr) -> Result<TExpr, AllocError>
    ensures { IfOk result (λ c. typed c
        ≡ fit (cut_at cuts.now) (cut_at cuts.now node) (typed e.now)) }
{
    match e {
        TExpr::Null => Ok(TExpr::Null),
        TExpr::Bool(b) => Ok(TExpr::Bool(*b)),
        TExpr::Int(n) => Ok(TExpr::Int(*n)),
        TExpr::Long(n) => Ok(TExpr::Long(*n)),
        TExpr::Chars(text) => Ok(TExpr::Chars(text.copy(alloc)?)),
        TExpr::Field(n) => Ok(TExpr::Field(place_of(cuts, node, *n)?)),
        TExpr::Local(n) => Ok(TExpr::Local(*n)),
        TExpr::Chain { first, rest } => {
            let first = fit_boxed(alloc, cuts, node, first)?;
            let rest = fit_links(alloc, cuts, node, rest)?;
            Ok(TExpr::Chain { first, rest })
        }
        TExpr::Compare { op, a, b } => fit_compare(alloc, cuts, node, *op, a, b),
        TExpr::IsNull { a, not } => Ok(TExpr::IsNull {
            a: fit_boxed(alloc, cuts, node, a)?,
            not: *not,
        }),
        TExpr::Not(a) => Ok(TExpr::Not(fit_boxed(alloc, cuts, node, a)?)),
        TExpr::Minus(a) => Ok(TExpr::Minus(fit_boxed(alloc, cuts, node, a)?)),
        TExpr::Choose { cond, yes, no } => fit_choose(alloc, cuts, node, cond, yes, no),
        TExpr::Cast { to, a } => {
            let a = fit_boxed(alloc, cuts, node, a)?;
            let to = copy_kind(alloc, to)?;
            Ok(TExpr::Cast { to, a })
        }
        TExpr::Project { a, fields, single } => {
            fit_project(alloc, cuts, node, a, fields, *single)
        }
        TExpr::Look { a, key } => {
            let a = fit_boxed(alloc, cuts, node, a)?;
            let key = key.copy(alloc)?;
            Ok(TExpr::Look { a, key })
        }
        TExpr::Call { function, args } => Ok(TExpr::Call {
            function: *function,
            args: fit_args(alloc, cuts, node, args)?,
        }),
    }
}

#[cycle(fit_expr)]
fn fit_boxed(
    alloc: Global,
    cuts: &[Cut],
    node: u32,
    e: &Boxed<TExpr>,
) -> Result<Boxed<TExpr>, AllocError>
    ensures { IfOk result (λ c. typed c
        ≡ fit (cut_at cuts.now) (cut_at cuts.now node) (typed e.now)) }
{
    Boxed::new(alloc, fit_expr(alloc, cuts, node, e.get())?)
}

#[cycle(fit_expr)]
fn fit_compare(
    alloc: Global,
    cuts: &[Cut],
    node: u32,
    op: Rel,
    a: &Boxed<TExpr>,
    b: &Boxed<TExpr>,
) -> Result<TExpr, AllocError>
    ensures { IfOk result (λ c. typed c
        ≡ x_compare op
        (fit (cut_at cuts.now) (cut_at cuts.now node) (typed a.now))
        (fit (cut_at cuts.now) (cut_at cuts.now node) (typed b.now))) }
{
    let a = fit_boxed(alloc, cuts, node, a)?;
    let b = fit_boxed(alloc, cuts, node, b)?;
    Ok(TExpr::Compare { op, a, b })
}

#[cycle(fit_expr)]
fn fit_choose(
    alloc: Global,
    cuts: &[Cut],
    node: u32,
    cond: &Boxed<TExpr>,
    yes: &Boxed<TExpr>,
    no: &Boxed<TExpr>,
) -> Result<TExpr, AllocError>
    ensures { IfOk result (λ c. typed c
        ≡ x_choose
        (fit (cut_at cuts.now) (cut_at cuts.now node) (typed cond.now))
        (fit (cut_at cuts.now) (cut_at cuts.now node) (typed yes.now))
        (fit (cut_at cuts.now) (cut_at cuts.now node) (typed no.now))) }
{
    let cond = fit_boxed(alloc, cuts, node, cond)?;
    let yes = fit_boxed(alloc, cuts, node, yes)?;
    let no = fit_boxed(alloc, cuts, node, no)?;
    Ok(TExpr::Choose { cond, yes, no })
}

#[cycle(fit_expr)]
fn fit_project(
    alloc: Global,
    cuts: &[Cut],
    node: u32,
    a: &Boxed<TExpr>,
    fields: &Positions,
    single: bool,
) -> Result<TExpr, AllocError>
    ensures { IfOk result (λ c. typed c
        ≡ x_project
        (fit (cut_at cuts.now) (cut_at cuts.now node) (typed a.now))
        (fit_columns (cut_at cuts.now)
        (left_of_field (cut_at cuts.now node) (field_of (typed a.now))) fields.now)
        single) }
{
    let fields = fit_columns(alloc, cuts, left_of_operand(cuts, node, a.get()), fields)?;
    let a = fit_boxed(alloc, cuts, node, a)?;
    Ok(TExpr::Project { a, fields, single })
}

// Columns of a bag that is left so, at their new positions.
fn fit_columns(
    alloc: Global,
    cuts: &[Cut],
    left: Option<Option<u32>>,
    columns: &Positions,
) -> Result<Positions, AllocError>
    ensures { IfOk result (λ c. c ≡ fit_columns (cut_at cuts.now) left columns.now) }
{
    match left {
        Some(Some(node)) => places_of(alloc, cuts, node, columns.as_slice()),
        Some(None) => copy_positions(alloc, columns),
        None => copy_positions(alloc, columns),
    }
}

fn places_of(
    alloc: Global,
    cuts: &[Cut],
    node: u32,
    columns: &[u32],
) -> Result<Positions, AllocError>
    ensures { IfOk result (λ c. c ≡ map (place_of (cut_at cuts.now node)) columns.now) }
{
    let mut made = Positions::new(alloc);
    let mut left = columns;
    while let [column, rest @ ..] = left {
        made.push(place_of(cuts, node, *column)?)?;
        left = rest;
    }
    Ok(made)
}

#[cycle(fit_expr)]
fn fit_link(alloc: Global, cuts: &[Cut], node: u32, link: &TLink) -> Result<TLink, AllocError>
    ensures { IfOk result (λ c. link_of c
        ≡ fit_link (cut_at cuts.now) (cut_at cuts.now node) (link_of link.now)) }
{
    let a = fit_expr(alloc, cuts, node, &link.a)?;
    Ok(TLink { op: link.op, a })
}

#[cycle(fit_expr)]
fn fit_links(alloc: Global, cuts: &[Cut], node: u32, links: &TLinks) -> Result<TLinks, AllocError>
    ensures { IfOk result (λ c. links_of (map link_of c)
        ≡ fit_links (cut_at cuts.now) (cut_at cuts.now node) (links_of (map link_of links.now))) }
{
    let links = links.as_slice();
    let mut made = Vec::with_capacity(alloc, links.len())?;
    for link in links {
        made.push(fit_link(alloc, cuts, node, link)?)?;
    }
    Ok(Seq::from_vec(made))
}

#[cycle(fit_expr)]
fn fit_args(alloc: Global, cuts: &[Cut], node: u32, args: &TExprs) -> Result<TExprs, AllocError>
    ensures { IfOk result (λ c. args_of (map typed c)
        ≡ fit_args (cut_at cuts.now) (cut_at cuts.now node) (args_of (map typed args.now))) }
{
    let args = args.as_slice();
    let mut made = Vec::with_capacity(alloc, args.len())?;
    for e in args {
        made.push(fit_expr(alloc, cuts, node, e)?)?;
    }
    Ok(Seq::from_vec(made))
}

// Keys over what is left of a node's rows.
pub fn fit_keys(
    alloc: Global,
    cuts: &[Cut],
    node: u32,
    keys: &[TExpr],
) -> Result<TExprs, AllocError>
    ensures { IfOk result (λ c. map typed c
        ≡ map (fit (cut_at cuts.now) (cut_at cuts.now node)) (map typed keys.now)) }
{
    let mut made = TExprs::new(alloc);
    let mut left = keys;
    while let [key, rest @ ..] = left {
        made.push(fit_expr(alloc, cuts, node, key)?)?;
        left = rest;
    }
    Ok(made)
}
