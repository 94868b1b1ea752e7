ghost use Rattle.std.specs.Prelude.{◌≡◌, ◌++◌, ◌∷◌, [], IfOk, OnOk, map};
ghost use Rattle.pig_plan.specs.Conjuncts.{all_and, conjuncts, link_conjuncts};
ghost use Rattle.pig_typed.specs.Typed.{link_of, links_of, typed};
ghost use Rattle.pig_moves.specs.Pushed.{chained, conjoined, linked};

use pig_typed::{TExpr, TExprs, TLink, TLinks, copy_expr};
use pig_value::{Boxed, ChainOp};
use std::alloc::{AllocError, Global};

/// Both conditions as one chain: the conjuncts of the first, and behind them those of the second.
pub fn conjoined(alloc: Global, first: &TExpr, more: &TExpr) -> Result<TExpr, AllocError>
    ensures { IfOk result (λ c. typed c ≡ conjoined (typed first.now) (typed more.now)) }
{
    let mut all = TExprs::new(alloc);
    add_conjuncts(alloc, first, &mut all)?;
    add_conjuncts(alloc, more, &mut all)?;
    chained(alloc, all)
}

/// Copies of the conjuncts of a condition, in their order.
pub fn conjuncts(alloc: Global, e: &TExpr) -> Result<TExprs, AllocError>
    ensures { IfOk result (λ all. map typed all ≡ conjuncts (typed e.now)) }
{
    let mut all = TExprs::new(alloc);
    add_conjuncts(alloc, e, &mut all)?;
    Ok(all)
}

/// Conditions as one.
pub fn chained(alloc: Global, conditions: TExprs) -> Result<TExpr, AllocError>
    ensures { IfOk result (λ c. typed c ≡ chained (map typed conditions)) }
{
    let mut left = conditions.into_vec().into_iter();
    let Some(first) = left.next() else {
        return Ok(TExpr::Bool(true));
    };
    let mut rest = TLinks::new(alloc);
    for a in left {
        let op = ChainOp::And;
        rest.push(TLink { op, a })?;
    }
    linked(alloc, first, rest)
}

// A chain, where it has links.
fn linked(alloc: Global, first: TExpr, rest: TLinks) -> Result<TExpr, AllocError>
    ensures { IfOk result (λ c. typed c ≡ linked (typed first) (links_of (map link_of rest))) }
{
    if rest.is_empty() {
        return Ok(first);
    }
    let first = Boxed::new(alloc, first)?;
    Ok(TExpr::Chain { first, rest })
}

/// Adds copies of the conjuncts of a condition to a list.
#[cycle(add_conjuncts)]
pub fn add_conjuncts(alloc: Global, e: &TExpr, into: &mut TExprs) -> Result<(), AllocError>
    ensures { OnOk result (map typed into.new ≡ map typed into.old ++ conjuncts (typed e.now)) }
{
    match e {
        TExpr::Chain { first, rest } => {
            if !all_and(rest.as_slice()) {
                return add_copy(alloc, e, into);
            }
            add_conjuncts(alloc, first.get(), into)?;
            add_links(alloc, rest.as_slice(), into)
        }
        _ => add_copy(alloc, e, into),
    }
}

#[cycle(add_conjuncts)]
fn add_links(alloc: Global, links: &[TLink], into: &mut TExprs) -> Result<(), AllocError>
    ensures { OnOk result (map typed into.new
        ≡ map typed into.old ++ link_conjuncts (links_of (map link_of links.now))) }
{
    for link in links {
        add_link(alloc, link, into)?;
    }
    Ok(())
}

#[cycle(add_conjuncts)]
fn add_link(alloc: Global, link: &TLink, into: &mut TExprs) -> Result<(), AllocError>
    ensures { OnOk result (map typed into.new
        ≡ map typed into.old ++ conjuncts (link_of link.now).1) }
{
    add_conjuncts(alloc, &link.a, into)
}

fn add_copy(alloc: Global, e: &TExpr, into: &mut TExprs) -> Result<(), AllocError>
    ensures { OnOk result (map typed into.new ≡ map typed into.old ++ typed e.now ∷ []) }
{
    into.push(copy_expr(alloc, e)?)?;
    Ok(())
}

/// Whether each link of a chain is an AND.
pub fn all_and(links: &[TLink]) -> bool
    ensures { result ≡ all_and (links_of (map link_of links.now)) }
{
    let mut left = links;
    while let [link, rest @ ..] = left {
        if !matches!(link.op, ChainOp::And) {
            return false;
        }
        left = rest;
    }
    true
}
