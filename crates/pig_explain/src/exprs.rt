//! The texts of typed expressions.
ghost use Rattle.std.specs.Prelude.{◌≡◌, ◌++◌, [], map, codes, decimal, OnOk};
ghost use Rattle.pig_typed.specs.Typed.{args_of, link_of, links_of, typed, x_call};
ghost use Rattle.pig_explain.specs.ExprTexts.{args_text, chain_text, expr_text, links_text, null_text, positions_text, rel_text};
ghost use Rattle.pig_explain.specs.Joins.{joined};

use crate::kinds::put_kind;
use crate::puts::{put, put_bool, put_field, put_int, put_local, put_long, put_number, put_quoted};
use pig_typed::{TExpr, TLink};
use pig_value::{Boxed, ChainOp, Function, Rel};
use std::alloc::AllocError;

#[cycle(expr)]
pub fn put_expr(e: &TExpr, out: &mut Vec<u8>) -> Result<(), AllocError>
    ensures { OnOk result (out.new.items ≡ out.old.items ++ expr_text (typed e.now)) }
{
    match e {
        TExpr::Null => put(b"null", out),
        TExpr::Bool(truth) => put_bool(*truth, out),
        TExpr::Int(number) => put_int(*number, out),
        TExpr::Long(number) => put_long(*number, out),
        TExpr::Chars(text) => put_quoted(text, out),
        TExpr::Field(position) => put_field(*position, out),
        TExpr::Local(number) => put_local(u64::from(*number), out),
        TExpr::Chain { first, rest } => {
            put_within(b"(", first, b"", out)?;
            put_links(rest.as_slice(), out)?;
            put(b")", out)
        }
        TExpr::Compare { op, a, b } => {
            put_within(b"(", a, rel_word(*op), out)?;
            put_within(b"", b, b")", out)
        }
        TExpr::IsNull { a, not } => put_within(b"(", a, null_word(*not), out),
        TExpr::Not(a) => put_within(b"(NOT ", a, b")", out),
        TExpr::Minus(a) => put_within(b"(- ", a, b")", out),
        TExpr::Choose { cond, yes, no } => {
            put_within(b"(", cond, b" ? ", out)?;
            put_within(b"", yes, b" : ", out)?;
            put_within(b"", no, b")", out)
        }
        TExpr::Cast { to, a } => {
            put(b"((", out)?;
            put_kind(to, out)?;
            put_within(b") ", a, b")", out)
        }
        TExpr::Project { a, fields, single } => {
            put_within(b"", a, b".", out)?;
            put_positions(fields.as_slice(), *single, out)
        }
        TExpr::Look { a, key } => {
            put_within(b"", a, b"#", out)?;
            put_quoted(key, out)
        }
        TExpr::Call { function, args } => put_call(*function, args.as_slice(), out),
    }
}

// An inner expression with what stands before and behind it.
#[cycle(expr)]
fn put_within(
    before: &[u8],
    e: &Boxed<TExpr>,
    behind: &[u8],
    out: &mut Vec<u8>,
) -> Result<(), AllocError>
    ensures { OnOk result (out.new.items
        ≡ out.old.items ++ before.now ++ expr_text (typed e.now) ++ behind.now) }
{
    put(before, out)?;
    put_expr(e.get(), out)?;
    put(behind, out)
}

#[cycle(expr)]
fn put_links(links: &[TLink], out: &mut Vec<u8>) -> Result<(), AllocError>
    ensures { OnOk result (out.new.items
        ≡ out.old.items ++ links_text (links_of (map link_of links.now))) }
{
    for link in links {
        put(chain_word(link.op), out)?;
        put_expr(&link.a, out)?;
    }
    Ok(())
}

#[cycle(expr)]
fn put_call(function: Function, args: &[TExpr], out: &mut Vec<u8>) -> Result<(), AllocError>
    ensures { OnOk result (out.new.items
        ≡ out.old.items ++ expr_text (x_call function (args_of (map typed args.now)))) }
{
    put(function.name().as_bytes(), out)?;
    put(b"(", out)?;
    put_args(args, out)?;
    put(b")", out)
}

// Arguments with a comma and a space between each two.
#[cycle(expr)]
fn put_args(args: &[TExpr], out: &mut Vec<u8>) -> Result<(), AllocError>
    ensures { OnOk result (out.new.items
        ≡ out.old.items ++ args_text [] (args_of (map typed args.now))) }
{
    let mut before: &[u8] = b"";
    for e in args {
        put(before, out)?;
        put_expr(e, out)?;
        before = b", ";
    }
    Ok(())
}

// Keys with a comma between each two.
pub fn put_keys(keys: &[TExpr], out: &mut Vec<u8>) -> Result<(), AllocError>
    ensures { OnOk result (out.new.items
        ≡ out.old.items ++ joined [] (codes ",") (map expr_text (map typed keys.now))) }
{
    let mut before: &[u8] = b"";
    for e in keys {
        put(before, out)?;
        put_expr(e, out)?;
        before = b",";
    }
    Ok(())
}

fn put_positions(fields: &[u32], single: bool, out: &mut Vec<u8>) -> Result<(), AllocError>
    ensures { OnOk result (out.new.items ≡ out.old.items ++ positions_text fields.now single) }
{
    if single {
        return put_numbers(fields, out);
    }
    put(b"(", out)?;
    put_numbers(fields, out)?;
    put(b")", out)
}

fn put_numbers(numbers: &[u32], out: &mut Vec<u8>) -> Result<(), AllocError>
    ensures { OnOk result (out.new.items
        ≡ out.old.items ++ joined [] (codes ",") (map decimal numbers.now)) }
{
    let mut before: &[u8] = b"";
    for number in numbers {
        put(before, out)?;
        put_number(u64::from(*number), out)?;
        before = b",";
    }
    Ok(())
}

fn chain_word(op: ChainOp) -> &'static [u8]
    ensures { result.now ≡ chain_text op }
{
    match op {
        ChainOp::Or => b" OR ",
        ChainOp::And => b" AND ",
        ChainOp::Add => b" + ",
        ChainOp::Sub => b" - ",
        ChainOp::Mul => b" * ",
        ChainOp::Div => b" / ",
        ChainOp::Rem => b" % ",
    }
}

fn rel_word(op: Rel) -> &'static [u8]
    ensures { result.now ≡ rel_text op }
{
    match op {
        Rel::Eq => b" == ",
        Rel::Ne => b" != ",
        Rel::Lt => b" < ",
        Rel::Le => b" <= ",
        Rel::Gt => b" > ",
        Rel::Ge => b" >= ",
    }
}

fn null_word(inverted: bool) -> &'static [u8]
    ensures { result.now ≡ null_text inverted }
{
    if inverted {
        b" IS NOT NULL)"
    } else {
        b" IS NULL)"
    }
}
