//! Kinds of expressions that are long, deep or on wide rows.
// Trees end by `drop`: one call is cheap to prove, and a tree that dies by name is taken apart variant by variant.
use crate::showing::{add, show};
use crate::writing::{choose, push};
use pig_typed::{TExpr, TLink, copy_expr, kind_of};
use pig_value::{Boxed, ChainOp, Kind, Kinds, Seq};
use std::alloc::Global;
use std::process::Abort;

fn link(op: ChainOp, a: TExpr) -> TLink {
    TLink { op, a }
}

// So many links `+ 2`, and one more of a long.
fn long_chain<R: Abort>(rt: &R, alloc: Global, links: u32) -> TExpr {
    let mut rest = Seq::new(alloc);
    for _ in 0..links {
        push(rt, &mut rest, link(ChainOp::Add, TExpr::Int(2)));
    }
    push(rt, &mut rest, link(ChainOp::Sub, TExpr::Long(3)));
    let first = Boxed::new(alloc, TExpr::Int(1)).expect(rt, "memory");
    TExpr::Chain { first, rest }
}

fn links(e: &TExpr) -> usize {
    match e {
        TExpr::Chain { rest, .. } => rest.len(),
        _ => 0,
    }
}

// `- (t ? 2 : - (t ? 2 : ..))`, so many levels of both.
fn deep<R: Abort>(rt: &R, alloc: Global, levels: u32) -> TExpr {
    let mut e = TExpr::Int(2);
    for _ in 0..levels {
        e = choose(rt, alloc, TExpr::Bool(true), TExpr::Int(2), e);
        e = TExpr::Minus(Boxed::new(alloc, e).expect(rt, "memory"));
    }
    e
}

// A row of 511 ints and a chararray behind them.
fn wide<R: Abort>(rt: &R, alloc: Global) -> Kinds {
    let mut wide = Seq::new(alloc);
    for _ in 0..511 {
        push(rt, &mut wide, Kind::Int);
    }
    push(rt, &mut wide, Kind::Chararray);
    wide
}

fn is_kind<R: Abort>(rt: &R, alloc: Global, e: &TExpr, row: &Kinds, shown: &str) -> bool {
    let mut text = String::new(alloc);
    let found = kind_of(alloc, e, row, &Seq::new(alloc)).expect(rt, "memory");
    match &found {
        Some(kind) => show(rt, kind, &mut text),
        None => add(rt, &mut text, "-"),
    }
    drop(found);
    text.as_str() == shown
}

// The links of a copy of the chain of so many, and whether the copy is a long.
fn copied_chain<R: Abort>(rt: &R, alloc: Global, count: u32) -> (usize, bool) {
    let long = long_chain(rt, alloc, count);
    let chain = copy_expr(alloc, &long).expect(rt, "memory");
    let count = links(&chain);
    let holds = is_kind(rt, alloc, &chain, &Seq::new(alloc), "l");
    drop((long, chain));
    (count, holds)
}

#[test]
fn long_chains_have_kinds(rt: HostRuntime) {
    let (count, holds) = copied_chain(&rt, rt.alloc(), 100_000);
    assert_eq!(rt; count, 100_001);
    assert!(rt; holds);
}

// Whether a copy of the expression of so many levels is an int.
fn deep_is_int<R: Abort>(rt: &R, alloc: Global, levels: u32) -> bool {
    let deep = deep(rt, alloc, levels);
    let copied = copy_expr(alloc, &deep).expect(rt, "memory");
    let holds = is_kind(rt, alloc, &copied, &Seq::new(alloc), "i");
    drop((deep, copied));
    holds
}

#[test]
fn deep_expressions_have_kinds(rt: HostRuntime) {
    assert!(rt; deep_is_int(&rt, rt.alloc(), 64));
}

// Whether this is the kind of a field of the wide row.
fn field_is<R: Abort>(rt: &R, alloc: Global, position: u32, shown: &str) -> bool {
    let wide = wide(rt, alloc);
    let field = TExpr::Field(position);
    let holds = is_kind(rt, alloc, &field, &wide, shown);
    drop((wide, field));
    holds
}

#[test]
fn fields_of_wide_rows_have_kinds(rt: HostRuntime) {
    assert!(rt; field_is(&rt, rt.alloc(), 511, "c"));
    assert!(rt; field_is(&rt, rt.alloc(), 512, "-"));
}
