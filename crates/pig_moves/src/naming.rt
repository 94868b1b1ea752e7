ghost use Rattle.std.specs.Prelude.{◌≡◌, ◌++◌, IfOk, OnOk, map};
ghost use Rattle.pig_plan.specs.Moves.{arg_fields, fields_in, link_fields};
ghost use Rattle.pig_typed.specs.Typed.{args_of, link_of, links_of, typed};

use pig_typed::{TExpr, TLink};
use pig_value::{Boxed, Numbers};
use std::alloc::{AllocError, Global};

/// The columns that an expression names, in their order.
pub fn fields(alloc: Global, e: &TExpr) -> Result<Numbers, AllocError>
    ensures { IfOk result (λ found. found ≡ fields_in (typed e.now)) }
{
    let mut found = Numbers::new(alloc);
    add_fields(e, &mut found)?;
    Ok(found)
}

#[cycle(add_fields)]
fn add_fields(e: &TExpr, into: &mut Numbers) -> Result<(), AllocError>
    ensures { OnOk result (into.new ≡ into.old ++ fields_in (typed e.now)) }
{
    match e {
        TExpr::Null => Ok(()),
        TExpr::Bool(_) => Ok(()),
        TExpr::Int(_) => Ok(()),
        TExpr::Long(_) => Ok(()),
        TExpr::Chars(_) => Ok(()),
        TExpr::Field(n) => into.push(*n),
        TExpr::Local(_) => Ok(()),
        TExpr::Chain { first, rest } => {
            add_fields(first.get(), into)?;
            add_of_links(rest.as_slice(), into)
        }
        TExpr::Compare { op: _, a, b } => add_both(a, b, into),
        TExpr::IsNull { a, not: _ } => add_fields(a.get(), into),
        TExpr::Not(a) => add_fields(a.get(), into),
        TExpr::Minus(a) => add_fields(a.get(), into),
        TExpr::Choose { cond, yes, no } => {
            add_fields(cond.get(), into)?;
            add_both(yes, no, into)
        }
        TExpr::Cast { to: _, a } => add_fields(a.get(), into),
        TExpr::Project {
            a,
            fields: _,
            single: _,
        } => add_fields(a.get(), into),
        TExpr::Look { a, key: _ } => add_fields(a.get(), into),
        TExpr::Call { function: _, args } => add_of_args(args.as_slice(), into),
    }
}

#[cycle(add_fields)]
fn add_both(a: &Boxed<TExpr>, b: &Boxed<TExpr>, into: &mut Numbers) -> Result<(), AllocError>
    ensures { OnOk result (into.new
        ≡ into.old ++ (fields_in (typed a.now) ++ fields_in (typed b.now))) }
{
    add_fields(a.get(), into)?;
    add_fields(b.get(), into)
}

#[cycle(add_fields)]
fn add_of_link(link: &TLink, into: &mut Numbers) -> Result<(), AllocError>
    ensures { OnOk result (into.new ≡ into.old ++ fields_in (link_of link.now).1) }
{
    add_fields(&link.a, into)
}

#[cycle(add_fields)]
fn add_of_links(links: &[TLink], into: &mut Numbers) -> Result<(), AllocError>
    ensures { OnOk result (into.new
        ≡ into.old ++ link_fields (links_of (map link_of links.now))) }
{
    for link in links {
        add_of_link(link, into)?;
    }
    Ok(())
}

#[cycle(add_fields)]
fn add_of_args(args: &[TExpr], into: &mut Numbers) -> Result<(), AllocError>
    ensures { OnOk result (into.new ≡ into.old ++ arg_fields (args_of (map typed args.now))) }
{
    for e in args {
        add_fields(e, into)?;
    }
    Ok(())
}
