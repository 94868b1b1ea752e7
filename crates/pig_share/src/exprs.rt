ghost use Rattle.std.specs.Prelude.{◌≡◌, ◌&&◌, map, bytes_eq};
ghost use Rattle.pig_value.specs.Trees.{kind_tree};
ghost use Rattle.pig_typed.specs.Typed.{args_of, link_of, links_of, typed, x_call, x_cast, x_chain, x_choose, x_compare, x_is_null, x_look, x_project};
ghost use Rattle.pig_share.specs.Same.{same_args, same_bool, same_chain, same_expr, same_function, same_links, same_rel, same_width};

use pig_typed::{TExpr, TExprs, TLink, TLinks};
use pig_value::{ChainOp, Function, Kind, Positions, Rel, Text, same_kind};

// Whether two expressions are the same.
#[cycle(same_expr)]
pub fn is_same_expr(a: &TExpr, b: &TExpr) -> bool
    ensures { result ≡ same_expr (typed a.now) (typed b.now) }
{
    match a {
        TExpr::Null => matches!(b, TExpr::Null),
        TExpr::Bool(m) => matches!(b, TExpr::Bool(n) if is_same_bool(*m, *n)),
        TExpr::Int(m) => matches!(b, TExpr::Int(n) if *m == *n),
        TExpr::Long(m) => matches!(b, TExpr::Long(n) if *m == *n),
        TExpr::Chars(m) =>
            matches!(b, TExpr::Chars(n) if is_same_bytes(m.as_bytes(), n.as_bytes())),
        TExpr::Field(m) => matches!(b, TExpr::Field(n) if *m == *n),
        TExpr::Local(m) => matches!(b, TExpr::Local(n) if *m == *n),
        TExpr::Chain { first, rest } => is_same_chained(rest, first.get(), b),
        TExpr::Compare { op, a, b: c } => is_same_compare(*op, a.get(), c.get(), b),
        TExpr::IsNull { a, not } => is_same_null_test(a.get(), *not, b),
        TExpr::Not(a) => matches!(b, TExpr::Not(b) if is_same_expr(a.get(), b.get())),
        TExpr::Minus(a) => matches!(b, TExpr::Minus(b) if is_same_expr(a.get(), b.get())),
        TExpr::Choose { cond, yes, no } => is_same_choice(cond.get(), yes.get(), no.get(), b),
        TExpr::Cast { to, a } => is_same_cast(to, a.get(), b),
        TExpr::Project { a, fields, single } => { is_same_projection(a.get(), fields, *single, b) }
        TExpr::Look { a, key } => is_same_look_up(a.get(), key, b),
        TExpr::Call { function, args } => is_same_call(*function, args, b),
    }
}

// One function for each form that holds others and more: its parts against an expression of any form.

#[cycle(same_expr)]
fn is_same_chained(rest: &TLinks, first: &TExpr, other: &TExpr) -> bool
    ensures { result ≡ same_expr
        (x_chain (typed first.now) (links_of (map link_of rest.now)))
        (typed other.now) }
{
    match other {
        TExpr::Chain { first: f, rest: r } => {
            is_same_expr(first, f.get()) && are_same_links(rest.as_slice(), r.as_slice())
        }
        _ => false,
    }
}

#[cycle(same_expr)]
fn is_same_compare(op: Rel, a: &TExpr, b: &TExpr, other: &TExpr) -> bool
    ensures { result ≡ same_expr (x_compare op (typed a.now) (typed b.now)) (typed other.now) }
{
    match other {
        TExpr::Compare { op: r, a: c, b: d } => {
            is_same_rel(op, *r) && (is_same_expr(a, c.get()) && is_same_expr(b, d.get()))
        }
        _ => false,
    }
}

#[cycle(same_expr)]
fn is_same_null_test(a: &TExpr, not: bool, other: &TExpr) -> bool
    ensures { result ≡ same_expr (x_is_null (typed a.now) not) (typed other.now) }
{
    match other {
        TExpr::IsNull { a: b, not: n } => { is_same_expr(a, b.get()) && is_same_bool(not, *n) }
        _ => false,
    }
}

#[cycle(same_expr)]
fn is_same_choice(cond: &TExpr, yes: &TExpr, no: &TExpr, other: &TExpr) -> bool
    ensures { result ≡ same_expr
        (x_choose (typed cond.now) (typed yes.now) (typed no.now))
        (typed other.now) }
{
    match other {
        TExpr::Choose {
            cond: c,
            yes: y,
            no: n,
        } => {
            is_same_expr(cond, c.get()) && (is_same_expr(yes, y.get()) && is_same_expr(no, n.get()))
        }
        _ => false,
    }
}

#[cycle(same_expr)]
fn is_same_cast(to: &Kind, a: &TExpr, other: &TExpr) -> bool
    ensures { result ≡ same_expr (x_cast (kind_tree to.now) (typed a.now)) (typed other.now) }
{
    match other {
        TExpr::Cast { to: k, a: b } => same_kind(to, k) && is_same_expr(a, b.get()),
        _ => false,
    }
}

#[cycle(same_expr)]
fn is_same_projection(a: &TExpr, fields: &Positions, single: bool, other: &TExpr) -> bool
    ensures { result ≡ same_expr (x_project (typed a.now) fields.now single) (typed other.now) }
{
    match other {
        TExpr::Project {
            a: b,
            fields: f,
            single: s,
        } => {
            is_same_expr(a, b.get())
                && (are_same_numbers(fields.as_slice(), f.as_slice()) && is_same_bool(single, *s))
        }
        _ => false,
    }
}

#[cycle(same_expr)]
fn is_same_look_up(a: &TExpr, key: &Text, other: &TExpr) -> bool
    ensures { result ≡ same_expr (x_look (typed a.now) key.now) (typed other.now) }
{
    match other {
        TExpr::Look { a: b, key: k } => {
            is_same_expr(a, b.get()) && is_same_bytes(key.as_bytes(), k.as_bytes())
        }
        _ => false,
    }
}

#[cycle(same_expr)]
fn is_same_call(function: Function, args: &TExprs, other: &TExpr) -> bool
    ensures { result ≡ same_expr
        (x_call function (args_of (map typed args.now)))
        (typed other.now) }
{
    match other {
        TExpr::Call {
            function: f,
            args: a,
        } => { is_same_function(function, *f) && are_same_args(args.as_slice(), a.as_slice()) }
        _ => false,
    }
}

#[cycle(same_expr)]
fn are_same_links(a: &[TLink], b: &[TLink]) -> bool
    ensures { result ≡ same_links (links_of (map link_of a.now)) (links_of (map link_of b.now)) }
{
    let shorter = a.len().min(b.len());
    for i in 0..shorter {
        if !is_same_link(&a[i], &b[i]) {
            return false;
        }
    }
    a.len() == b.len()
}

#[cycle(same_expr)]
fn is_same_link(a: &TLink, b: &TLink) -> bool
    ensures { result ≡ (same_chain (link_of a.now).0 (link_of b.now).0
        && same_expr (link_of a.now).1 (link_of b.now).1) }
{
    is_same_chain(a.op, b.op) && is_same_expr(&a.a, &b.a)
}

#[cycle(same_expr)]
fn are_same_args(a: &[TExpr], b: &[TExpr]) -> bool
    ensures { result ≡ same_args (args_of (map typed a.now)) (args_of (map typed b.now)) }
{
    let shorter = a.len().min(b.len());
    for i in 0..shorter {
        if !is_same_expr(&a[i], &b[i]) {
            return false;
        }
    }
    a.len() == b.len()
}

// Whether two truth values are the same.
pub fn is_same_bool(a: bool, b: bool) -> bool
    ensures { result ≡ same_bool a b }
{
    if a { b } else { !b }
}

// Whether two byte strings are the same.
pub fn is_same_bytes(a: &[u8], b: &[u8]) -> bool
    ensures { result ≡ bytes_eq a.now b.now }
{
    a == b
}

// Whether two lists of numbers are the same.
pub fn are_same_numbers(a: &[u32], b: &[u32]) -> bool
    ensures { result ≡ bytes_eq a.now b.now }
{
    a == b
}

fn is_same_rel(a: Rel, b: Rel) -> bool
    ensures { result ≡ same_rel a b }
{
    match (a, b) {
        (Rel::Eq, Rel::Eq) => true,
        (Rel::Ne, Rel::Ne) => true,
        (Rel::Lt, Rel::Lt) => true,
        (Rel::Le, Rel::Le) => true,
        (Rel::Gt, Rel::Gt) => true,
        (Rel::Ge, Rel::Ge) => true,
        _ => false,
    }
}

fn is_same_chain(a: ChainOp, b: ChainOp) -> bool
    ensures { result ≡ same_chain a b }
{
    match (a, b) {
        (ChainOp::Or, ChainOp::Or) => true,
        (ChainOp::And, ChainOp::And) => true,
        (ChainOp::Add, ChainOp::Add) => true,
        (ChainOp::Sub, ChainOp::Sub) => true,
        (ChainOp::Mul, ChainOp::Mul) => true,
        (ChainOp::Div, ChainOp::Div) => true,
        (ChainOp::Rem, ChainOp::Rem) => true,
        _ => false,
    }
}

fn is_same_width(a: Option<u32>, b: Option<u32>) -> bool
    ensures { result ≡ same_width a b }
{
    match (a, b) {
        (None, None) => true,
        (Some(m), Some(n)) => m == n,
        _ => false,
    }
}

fn is_same_function(a: Function, b: Function) -> bool
    ensures { result ≡ same_function a b }
{
    match (a, b) {
        (Function::Count, Function::Count) => true,
        (Function::CountStar, Function::CountStar) => true,
        (Function::Sum, Function::Sum) => true,
        (Function::Min, Function::Min) => true,
        (Function::Max, Function::Max) => true,
        (Function::Size, Function::Size) => true,
        (Function::Concat, Function::Concat) => true,
        (Function::IsEmpty, Function::IsEmpty) => true,
        (Function::Tokenize, Function::Tokenize) => true,
        (Function::Substring, Function::Substring) => true,
        (Function::StartsWith, Function::StartsWith) => true,
        (Function::EndsWith, Function::EndsWith) => true,
        (Function::IndexOf, Function::IndexOf) => true,
        (Function::Abs, Function::Abs) => true,
        (Function::ToTuple, Function::ToTuple) => true,
        (Function::ToBag { width: m }, Function::ToBag { width: n }) => is_same_width(m, n),
        _ => false,
    }
}
