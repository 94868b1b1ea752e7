//! Expressions, columns and nested aliases that the tests use, and trees as they are shown. Where memory is wanting the
//! process ends: that drops nothing, so its proof is short.
use pig_schema::{Field, Schema};
use pig_syntax::{Expr, Exprs, FieldRef, Link, Links, PostStep, PostSteps, TypeTree};
use pig_typing::{Local, Locals, TypeFault};
use pig_value::{Boxed, ChainOp, Kind, Kinds, Rel, Seq, Text};
use std::alloc::Global;
use std::process::Abort;

/// Adds to a list.
pub fn push<R: Abort, T: Drop>(rt: &R, list: &mut Seq<T>, item: T) {
    list.push(item).expect(rt, "memory");
}

pub fn name<R: Abort>(rt: &R, alloc: Global, name: &str) -> FieldRef {
    FieldRef::Name(Text::from_str(alloc, name).expect(rt, "memory"))
}

pub fn field<R: Abort>(rt: &R, alloc: Global, of: &str) -> Expr {
    Expr::Field(name(rt, alloc, of))
}

pub fn boxed<R: Abort>(rt: &R, alloc: Global, of: &str) -> Boxed<Expr> {
    Boxed::new(alloc, field(rt, alloc, of)).expect(rt, "memory")
}

pub fn text<R: Abort>(rt: &R, alloc: Global, text: &str) -> Expr {
    Expr::Text(Text::from_str(alloc, text).expect(rt, "memory"))
}

pub fn add<R: Abort>(rt: &R, alloc: Global, a: &str, b: Expr) -> Expr {
    let rest = added(rt, alloc, b);
    let first = boxed(rt, alloc, a);
    Expr::Chain { first, rest }
}

fn added<R: Abort>(rt: &R, alloc: Global, a: Expr) -> Links {
    let mut links = Seq::new(alloc);
    let op = ChainOp::Add;
    push(rt, &mut links, Link { op, a });
    links
}

pub fn add_fields<R: Abort>(rt: &R, alloc: Global, a: &str, b: &str) -> Expr {
    add(rt, alloc, a, field(rt, alloc, b))
}

pub fn equal<R: Abort>(rt: &R, alloc: Global, a: Boxed<Expr>, b: Expr) -> Expr {
    let b = Boxed::new(alloc, b).expect(rt, "memory");
    Expr::Compare { op: Rel::Eq, a, b }
}

pub fn equal_long<R: Abort>(rt: &R, alloc: Global, a: &str, b: i64) -> Expr {
    equal(rt, alloc, boxed(rt, alloc, a), Expr::Long(b))
}

pub fn equal_fields<R: Abort>(rt: &R, alloc: Global, a: &str, b: &str) -> Expr {
    let a = boxed(rt, alloc, a);
    equal(rt, alloc, a, field(rt, alloc, b))
}

pub fn looked_equal<R: Abort>(rt: &R, alloc: Global, b: &str) -> Expr {
    let a = Boxed::new(alloc, look(rt, alloc)).expect(rt, "memory");
    equal(rt, alloc, a, text(rt, alloc, b))
}

pub fn not<R: Abort>(rt: &R, alloc: Global, a: &str) -> Expr {
    Expr::Not(boxed(rt, alloc, a))
}

pub fn cast_look<R: Abort>(rt: &R, alloc: Global) -> Expr {
    let a = Boxed::new(alloc, look(rt, alloc)).expect(rt, "memory");
    let to = TypeTree::Int;
    Expr::Cast { to, a }
}

pub fn to_float<R: Abort>(rt: &R, alloc: Global, a: &str) -> Expr {
    let a = boxed(rt, alloc, a);
    let to = TypeTree::Float;
    Expr::Cast { to, a }
}

pub fn choose<R: Abort>(rt: &R, alloc: Global) -> Expr {
    let cond = boxed(rt, alloc, "b");
    let yes = boxed(rt, alloc, "a");
    let no = Boxed::new(alloc, Expr::Long(5)).expect(rt, "memory");
    Expr::Choose { cond, yes, no }
}

/// A choice by the field `b`.
pub fn choice<R: Abort>(rt: &R, alloc: Global, yes: Expr, no: Expr) -> Expr {
    choice_by(rt, alloc, "b", yes, no)
}

pub fn choice_by<R: Abort>(rt: &R, alloc: Global, cond: &str, yes: Expr, no: Expr) -> Expr {
    let cond = boxed(rt, alloc, cond);
    let yes = Boxed::new(alloc, yes).expect(rt, "memory");
    let no = Boxed::new(alloc, no).expect(rt, "memory");
    Expr::Choose { cond, yes, no }
}

fn behind<R: Abort>(rt: &R, alloc: Global, a: &str, step: PostStep) -> Expr {
    behind_expr(rt, alloc, field(rt, alloc, a), step)
}

fn behind_expr<R: Abort>(rt: &R, alloc: Global, a: Expr, step: PostStep) -> Expr {
    let steps = only_step(rt, alloc, step);
    let a = Boxed::new(alloc, a).expect(rt, "memory");
    Expr::Post { a, steps }
}

fn only_step<R: Abort>(rt: &R, alloc: Global, step: PostStep) -> PostSteps {
    let mut steps = Seq::new(alloc);
    push(rt, &mut steps, step);
    steps
}

pub fn look<R: Abort>(rt: &R, alloc: Global) -> Expr {
    let key = Text::from_str(alloc, "c").expect(rt, "memory");
    behind(rt, alloc, "m", PostStep::Look(key))
}

pub fn part<R: Abort>(rt: &R, alloc: Global, of: &str, part: &str) -> Expr {
    part_of(rt, alloc, field(rt, alloc, of), part)
}

pub fn part_of<R: Abort>(rt: &R, alloc: Global, of: Expr, part: &str) -> Expr {
    behind_expr(rt, alloc, of, single(rt, alloc, name(rt, alloc, part)))
}

pub fn place_of<R: Abort>(rt: &R, alloc: Global, of: Expr, place: u32) -> Expr {
    behind_expr(rt, alloc, of, single(rt, alloc, FieldRef::Position(place)))
}

fn single<R: Abort>(rt: &R, alloc: Global, field: FieldRef) -> PostStep {
    let mut fields = Seq::new(alloc);
    push(rt, &mut fields, field);
    PostStep::Project {
        fields,
        single: true,
    }
}

pub fn call<R: Abort>(rt: &R, alloc: Global, function: &str, a: &str) -> Expr {
    call_on(rt, alloc, function, field(rt, alloc, a))
}

pub fn call_part<R: Abort>(rt: &R, alloc: Global, function: &str, of: &str, inner: &str) -> Expr {
    call_on(rt, alloc, function, part(rt, alloc, of, inner))
}

fn call_on<R: Abort>(rt: &R, alloc: Global, function: &str, a: Expr) -> Expr {
    let mut args = Seq::new(alloc);
    push(rt, &mut args, a);
    called(rt, alloc, function, args)
}

pub fn call_two<R: Abort>(rt: &R, alloc: Global, function: &str, a: &str, b: &str) -> Expr {
    let mut args = Seq::new(alloc);
    push(rt, &mut args, field(rt, alloc, a));
    push(rt, &mut args, field(rt, alloc, b));
    called(rt, alloc, function, args)
}

pub fn call_long<R: Abort>(rt: &R, alloc: Global, function: &str, a: &str, b: i64) -> Expr {
    let mut args = Seq::new(alloc);
    push(rt, &mut args, field(rt, alloc, a));
    push(rt, &mut args, Expr::Long(b));
    called(rt, alloc, function, args)
}

pub fn called<R: Abort>(rt: &R, alloc: Global, function: &str, args: Exprs) -> Expr {
    let name = Text::from_str(alloc, function).expect(rt, "memory");
    Expr::Call { name, args }
}

// ---- the scope

pub fn column<R: Abort>(rt: &R, alloc: Global, name: &str, kind: Kind, inner: Schema) -> Field {
    let name = Some(Text::from_str(alloc, name).expect(rt, "memory"));
    Field { name, kind, inner }
}

pub fn scalar<R: Abort>(rt: &R, alloc: Global, name: &str, kind: Kind) -> Field {
    column(rt, alloc, name, kind, Seq::new(alloc))
}

pub fn one<R: Abort>(rt: &R, alloc: Global, name: &str, kind: Kind) -> Schema {
    let mut fields = Seq::new(alloc);
    push(rt, &mut fields, scalar(rt, alloc, name, kind));
    fields
}

pub fn one_kind<R: Abort>(rt: &R, alloc: Global, kind: Kind) -> Kinds {
    let mut kinds = Seq::new(alloc);
    push(rt, &mut kinds, kind);
    kinds
}

pub fn tuple<R: Abort>(rt: &R, alloc: Global, of: &str, first: &str, second: &str) -> Field {
    let mut inner = one(rt, alloc, first, Kind::Int);
    push(rt, &mut inner, scalar(rt, alloc, second, Kind::Chararray));
    let mut kinds = one_kind(rt, alloc, Kind::Int);
    push(rt, &mut kinds, Kind::Chararray);
    column(rt, alloc, of, Kind::Tuple(kinds), inner)
}

pub fn bag<R: Abort>(rt: &R, alloc: Global, name: &str, part: &str, kind: Kind) -> Field {
    let kinds = match &kind {
        Kind::Long => one_kind(rt, alloc, Kind::Long),
        _ => one_kind(rt, alloc, Kind::Int),
    };
    let inner = one(rt, alloc, part, kind);
    column(rt, alloc, name, Kind::Bag(kinds), inner)
}

pub fn map<R: Abort>(rt: &R, alloc: Global) -> Field {
    let kind = Kind::Map(Boxed::new(alloc, Kind::Bytearray).expect(rt, "memory"));
    scalar(rt, alloc, "m", kind)
}

pub fn columns<R: Abort>(rt: &R, alloc: Global) -> Schema {
    let mut columns = Seq::new(alloc);
    push(rt, &mut columns, scalar(rt, alloc, "a", Kind::Int));
    push(rt, &mut columns, scalar(rt, alloc, "b", Kind::Bytearray));
    push(rt, &mut columns, scalar(rt, alloc, "s", Kind::Chararray));
    push(rt, &mut columns, scalar(rt, alloc, "n", Kind::Long));
    push(rt, &mut columns, map(rt, alloc));
    push(rt, &mut columns, tuple(rt, alloc, "t", "x", "y"));
    push(rt, &mut columns, bag(rt, alloc, "g", "r", Kind::Long));
    push(rt, &mut columns, scalar(rt, alloc, "p::k", Kind::Int));
    push(rt, &mut columns, scalar(rt, alloc, "q::k", Kind::Int));
    push(rt, &mut columns, scalar(rt, alloc, "p::p", Kind::Int));
    push(rt, &mut columns, tuple(rt, alloc, "u", "p", "w"));
    columns
}

pub fn locals<R: Abort>(rt: &R, alloc: Global) -> Locals {
    let alias = Text::from_str(alloc, "n").expect(rt, "memory");
    let column = bag(rt, alloc, "g", "z", Kind::Int);
    let mut locals = Locals::new(alloc);
    locals.push(Local { alias, column }).expect(rt, "memory");
    locals
}

// ---- what is shown

pub fn shown_fault<R: Abort>(rt: &R, alloc: Global, fault: &TypeFault) -> String {
    format!(in alloc; "{fault:?}").expect(rt, "memory")
}
