ghost use Rattle.std.specs.Prelude.{◌≡◌, ◌++◌, ◌∷◌, [], map, OnOk, IfOk};
ghost use Rattle.std.specs.List.{flat_map};
ghost use Rattle.pig_plan.specs.Moves.{field_of, fields_in, link_fields, arg_fields};
ghost use Rattle.pig_typed.specs.Typed.{args_of, link_of, links_of, typed};
ghost use Rattle.pig_needs.specs.Needed.{arg_names, column_of, counted, counted_part, field as whole_field, key_names, link_names, names_in, only_field, whole_fields};

use crate::{Need, NeedList, Part};
use pig_typed::{TExpr, TLink};
use pig_value::Function;
use std::alloc::AllocError;

// Adds what an expression names of a row.
#[cycle(add_names)]
pub fn add_names(e: &TExpr, found: &mut NeedList) -> Result<(), AllocError>
    ensures { OnOk result (found.new ≡ found.old ++ names_in (typed e.now)) }
{
    match e {
        TExpr::Null => Ok(()),
        TExpr::Bool(_) => Ok(()),
        TExpr::Int(_) => Ok(()),
        TExpr::Long(_) => Ok(()),
        TExpr::Chars(_) => Ok(()),
        TExpr::Field(n) => found.push(whole_field(*n)),
        TExpr::Local(_) => Ok(()),
        TExpr::Chain { first, rest } => {
            add_names(first.get(), found)?;
            add_link_names(rest.as_slice(), found)
        }
        TExpr::Compare { op: _, a, b } => {
            add_names(a.get(), found)?;
            add_names(b.get(), found)
        }
        TExpr::IsNull { a, not: _ } => add_names(a.get(), found),
        TExpr::Not(a) => add_names(a.get(), found),
        TExpr::Minus(a) => add_names(a.get(), found),
        TExpr::Choose { cond, yes, no } => {
            add_names(cond.get(), found)?;
            add_names(yes.get(), found)?;
            add_names(no.get(), found)
        }
        TExpr::Cast { to: _, a } => add_names(a.get(), found),
        TExpr::Project {
            a,
            fields,
            single: _,
        } => match field_of(a.get()) {
            Some(p) => add_columns(p, fields.as_slice(), found),
            None => add_names(a.get(), found),
        },
        TExpr::Look { a, key: _ } => add_names(a.get(), found),
        TExpr::Call { function, args } => match counted(*function, args.as_slice()) {
            Some(need) => found.push(need),
            None => add_arg_names(args.as_slice(), found),
        },
    }
}

#[cycle(add_names)]
fn add_link_names(links: &[TLink], found: &mut NeedList) -> Result<(), AllocError>
    ensures { OnOk result
        (found.new ≡ found.old ++ link_names (links_of (map link_of links.now))) }
{
    for link in links {
        add_names(&link.a, found)?;
    }
    Ok(())
}

#[cycle(add_names)]
fn add_arg_names(args: &[TExpr], found: &mut NeedList) -> Result<(), AllocError>
    ensures { OnOk result (found.new ≡ found.old ++ arg_names (args_of (map typed args.now))) }
{
    for e in args {
        add_names(e, found)?;
    }
    Ok(())
}

// Adds what keys name.
pub fn add_key_names(keys: &[TExpr], found: &mut NeedList) -> Result<(), AllocError>
    ensures { OnOk result (found.new ≡ found.old ++ key_names (map typed keys.now)) }
{
    let mut left = keys;
    while let [key, rest @ ..] = left {
        add_names(key, found)?;
        left = rest;
    }
    Ok(())
}

// Adds columns of the bag at a position.
fn add_columns(position: u32, columns: &[u32], found: &mut NeedList) -> Result<(), AllocError>
    ensures { OnOk result (found.new ≡ found.old ++ map (column_of position) columns.now) }
{
    let mut left = columns;
    while let [column, rest @ ..] = left {
        let part = Part::Column(*column);
        found.push(Need { position, part })?;
        left = rest;
    }
    Ok(())
}

// A whole field.
pub fn whole_field(position: u32) -> Need
    ensures { result ≡ whole_field position }
{
    let part = Part::Whole;
    Need { position, part }
}

// The position of the field that an expression is.
fn field_of(e: &TExpr) -> Option<u32>
    ensures { result ≡ field_of (typed e.now) }
{
    match e {
        TExpr::Field(n) => Some(*n),
        _ => None,
    }
}

// What a function counts by, where it is one that counts a field.
fn counted(function: Function, args: &[TExpr]) -> Option<Need>
    ensures { result ≡ counted function (only_field (args_of (map typed args.now))) }
{
    let position = only_field(args)?;
    let part = counted_part(function)?;
    Some(Need { position, part })
}

fn only_field(args: &[TExpr]) -> Option<u32>
    ensures { result ≡ only_field (args_of (map typed args.now)) }
{
    match args {
        [e] => field_of(e),
        [] => None,
        [_first, _second, ..] => None,
    }
}

fn counted_part(function: Function) -> Option<Part>
    ensures { result ≡ counted_part function }
{
    match function {
        Function::Count => Some(Part::Column(0)),
        Function::CountStar => Some(Part::Rows),
        Function::Size => Some(Part::Rows),
        Function::IsEmpty => Some(Part::Rows),
        _ => None,
    }
}
