//! Expressions on a row each, and what they give. Where memory is wanting the process ends: that drops nothing, so its
//! proof is short.
// Trees end by `drop`: one call is cheap to prove, and a tree that dies by name is taken apart variant by variant.
use pig_eval::{eval, holds};
use pig_typed::{TExpr, TLink};
use pig_value::{
    Blob, Boxed, ChainOp, Function, Kind, Pair, Pairs, Rel, Seq, Text, Tuple, Value, same,
};
use std::alloc::Global;
use std::process::Abort;

fn chars<R: Abort>(rt: &R, alloc: Global, text: &str) -> Value {
    Value::Chars(Text::from_str(alloc, text).expect(rt, "memory"))
}

fn literal<R: Abort>(rt: &R, alloc: Global, text: &str) -> TExpr {
    TExpr::Chars(Text::from_str(alloc, text).expect(rt, "memory"))
}

// Whether an expression on a row is worth this.
fn gives<R: Abort>(rt: &R, alloc: Global, e: TExpr, row: &Tuple, expected: Value) -> bool {
    let found = eval(alloc, &e, row, &Seq::new(alloc)).expect(rt, "memory");
    let is = same(&found, &expected);
    drop(e);
    drop(found);
    drop(expected);
    is
}

// Two expressions with an operator between them.
fn between<R: Abort>(rt: &R, alloc: Global, a: TExpr, op: ChainOp, b: TExpr) -> TExpr {
    let first = Boxed::new(alloc, a).expect(rt, "memory");
    let mut rest = Seq::new(alloc);
    rest.push(TLink { op, a: b }).expect(rt, "memory");
    TExpr::Chain { first, rest }
}

fn cast<R: Abort>(rt: &R, alloc: Global, to: Kind, a: TExpr) -> TExpr {
    let a = Boxed::new(alloc, a).expect(rt, "memory");
    TExpr::Cast { to, a }
}

fn call_one<R: Abort>(rt: &R, alloc: Global, function: Function, a: TExpr) -> TExpr {
    let mut args = Seq::new(alloc);
    args.push(a).expect(rt, "memory");
    TExpr::Call { function, args }
}

fn call_two<R: Abort>(rt: &R, alloc: Global, function: Function, a: TExpr, b: TExpr) -> TExpr {
    let mut args = Seq::new(alloc);
    args.push(a).expect(rt, "memory");
    args.push(b).expect(rt, "memory");
    TExpr::Call { function, args }
}

// The part of field 0 between two places.
fn part<R: Abort>(rt: &R, alloc: Global, start: i32, stop: i32) -> TExpr {
    let mut args = Seq::new(alloc);
    args.push(TExpr::Field(0)).expect(rt, "memory");
    args.push(TExpr::Int(start)).expect(rt, "memory");
    args.push(TExpr::Int(stop)).expect(rt, "memory");
    TExpr::Call {
        function: Function::Substring,
        args,
    }
}

// What the map in field 0 has under a key.
fn under<R: Abort>(rt: &R, alloc: Global, key: &str) -> TExpr {
    let key = Text::from_str(alloc, key).expect(rt, "memory");
    let a = Boxed::new(alloc, TExpr::Field(0)).expect(rt, "memory");
    TExpr::Look { a, key }
}

// Wrapping arithmetic, on 2147483647 and -7.
fn number<R: Abort>(rt: &R, alloc: Global, at: u32) -> TExpr {
    match at {
        0 => between(rt, alloc, TExpr::Field(0), ChainOp::Add, TExpr::Int(1)),
        1 => between(rt, alloc, TExpr::Field(1), ChainOp::Div, TExpr::Int(2)),
        2 => between(rt, alloc, TExpr::Field(1), ChainOp::Rem, TExpr::Int(2)),
        3 => between(rt, alloc, TExpr::Field(1), ChainOp::Div, TExpr::Int(0)),
        _ => {
            let long = cast(rt, alloc, Kind::Long, TExpr::Field(0));
            between(rt, alloc, long, ChainOp::Add, TExpr::Int(1))
        }
    }
}

fn number_value(at: u32) -> Value {
    match at {
        0 => Value::Int(-2147483648),
        1 => Value::Int(-3),
        2 => Value::Int(-1),
        3 => Value::Null,
        _ => Value::Long(2147483648),
    }
}

fn numbers<R: Abort>(rt: &R, alloc: Global) -> Tuple {
    let mut row = Seq::new(alloc);
    row.push(Value::Int(2147483647)).expect(rt, "memory");
    row.push(Value::Int(-7)).expect(rt, "memory");
    row
}

#[test]
fn wrapping_arithmetic(rt: HostRuntime) {
    let row = numbers(&rt, rt.alloc());
    for at in 0..5 {
        let e = number(&rt, rt.alloc(), at);
        assert!(rt;
            gives(&rt, rt.alloc(), e, &row, number_value(at)),
            "number {at}"
        );
    }
}

// Functions of texts, on `héllo`, `banana` and -5.
fn text<R: Abort>(rt: &R, alloc: Global, at: u32) -> TExpr {
    match at {
        0 => call_one(rt, alloc, Function::Size, TExpr::Field(0)),
        1 => part(rt, alloc, 1, 3),
        2 => part(rt, alloc, 3, 9),
        3 => call_two(
            rt,
            alloc,
            Function::IndexOf,
            TExpr::Field(1),
            literal(rt, alloc, "na"),
        ),
        4 => call_two(
            rt,
            alloc,
            Function::IndexOf,
            TExpr::Field(1),
            literal(rt, alloc, "x"),
        ),
        5 => call_one(rt, alloc, Function::Abs, TExpr::Field(2)),
        6 => call_two(
            rt,
            alloc,
            Function::StartsWith,
            TExpr::Field(1),
            literal(rt, alloc, "ba"),
        ),
        7 => call_two(
            rt,
            alloc,
            Function::EndsWith,
            TExpr::Field(1),
            literal(rt, alloc, "ba"),
        ),
        _ => call_two(
            rt,
            alloc,
            Function::Concat,
            TExpr::Field(0),
            TExpr::Field(1),
        ),
    }
}

fn text_value<R: Abort>(rt: &R, alloc: Global, at: u32) -> Value {
    match at {
        0 => Value::Long(5),
        1 => chars(rt, alloc, "él"),
        2 => chars(rt, alloc, "lo"),
        3 => Value::Int(2),
        4 => Value::Int(-1),
        5 => Value::Int(5),
        6 => Value::Bool(true),
        7 => Value::Bool(false),
        _ => chars(rt, alloc, "héllobanana"),
    }
}

fn texts<R: Abort>(rt: &R, alloc: Global) -> Tuple {
    let mut row = Seq::new(alloc);
    row.push(chars(rt, alloc, "héllo")).expect(rt, "memory");
    row.push(chars(rt, alloc, "banana")).expect(rt, "memory");
    row.push(Value::Int(-5)).expect(rt, "memory");
    row
}

#[test]
fn text_functions(rt: HostRuntime) {
    let row = texts(&rt, rt.alloc());
    for at in 0..9 {
        let e = text(&rt, rt.alloc(), at);
        let expected = text_value(&rt, rt.alloc(), at);
        assert!(rt; gives(&rt, rt.alloc(), e, &row, expected), "text {at}");
    }
}

// Whether what stands under `b` is an x, as a text.
fn is_x<R: Abort>(rt: &R, alloc: Global) -> TExpr {
    let found = cast(rt, alloc, Kind::Chararray, under(rt, alloc, "b"));
    let a = Boxed::new(alloc, found).expect(rt, "memory");
    let b = Boxed::new(alloc, literal(rt, alloc, "x")).expect(rt, "memory");
    TExpr::Compare { op: Rel::Eq, a, b }
}

fn yes_or_no<R: Abort>(rt: &R, alloc: Global) -> TExpr {
    let cond = Boxed::new(alloc, is_x(rt, alloc)).expect(rt, "memory");
    let yes = Boxed::new(alloc, literal(rt, alloc, "yes")).expect(rt, "memory");
    let no = Boxed::new(alloc, literal(rt, alloc, "no")).expect(rt, "memory");
    TExpr::Choose { cond, yes, no }
}

// Look-ups in a map of `a` with 1 and `b` with x.
fn entry<R: Abort>(rt: &R, alloc: Global, at: u32) -> TExpr {
    match at {
        0 => {
            let int = cast(rt, alloc, Kind::Int, under(rt, alloc, "a"));
            between(rt, alloc, int, ChainOp::Add, TExpr::Int(1))
        }
        1 => under(rt, alloc, "zz"),
        _ => yes_or_no(rt, alloc),
    }
}

fn entry_value<R: Abort>(rt: &R, alloc: Global, at: u32) -> Value {
    match at {
        0 => Value::Int(2),
        1 => Value::Null,
        _ => chars(rt, alloc, "yes"),
    }
}

fn pair<R: Abort>(rt: &R, alloc: Global, key: &str, bytes: &[u8]) -> Pair {
    let key = Text::from_str(alloc, key).expect(rt, "memory");
    let value = Value::Bytes(Blob::from_slice(alloc, bytes).expect(rt, "memory"));
    Pair { key, value }
}

fn pairs<R: Abort>(rt: &R, alloc: Global) -> Pairs {
    let mut pairs = Seq::new(alloc);
    pairs.push(pair(rt, alloc, "a", b"1")).expect(rt, "memory");
    pairs.push(pair(rt, alloc, "b", b"x")).expect(rt, "memory");
    pairs
}

// A row of that map alone.
fn entries<R: Abort>(rt: &R, alloc: Global) -> Tuple {
    let mut row = Seq::new(alloc);
    let map = Value::Map(pairs(rt, alloc));
    row.push(map).expect(rt, "memory");
    row
}

// Whether a condition is met on a row.
fn is_met<R: Abort>(rt: &R, alloc: Global, cond: TExpr, row: &Tuple) -> bool {
    let met = holds(alloc, &cond, row).expect(rt, "memory");
    drop(cond);
    met
}

#[test]
fn map_look_ups(rt: HostRuntime) {
    let row = entries(&rt, rt.alloc());
    for at in 0..3 {
        let e = entry(&rt, rt.alloc(), at);
        let expected = entry_value(&rt, rt.alloc(), at);
        assert!(rt; gives(&rt, rt.alloc(), e, &row, expected), "entry {at}");
    }
    let cond = is_x(&rt, rt.alloc());
    assert!(rt; is_met(&rt, rt.alloc(), cond, &row), "the condition is met");
}
