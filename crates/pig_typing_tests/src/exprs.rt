//! What no clause says of `type_expr`: that expressions of each form are typed with ample memory, or refused with the
//! kind that is due.
// Trees end by `drop`: one call is cheap to prove, and a tree that dies by name is taken apart variant by variant.
use crate::shared::{
    add, add_fields, call, call_long, call_part, call_two, cast_look, choose, columns,
    equal_fields, equal_long, field, locals, looked_equal, not, part, shown_fault, to_float,
};
use pig_shown_tests::plain;
use pig_syntax::{Expr, FieldRef};
use pig_typing::{Scope, TypedExpr, type_expr};
use std::alloc::Global;
use std::process::Abort;

// Each expression, and what it is typed as: the typed expression, the name that it keeps, its kind. The columns are
// a:int, b:bytearray, s:chararray, n:long, m:map[], t:(x:int, y:chararray), g:{(r:long)}, p::k:int, q::k:int, p::p:int,
// u:(p:int, w:chararray); the nested alias n is a bag {(z:int)}.
const ROWS: &str = "\
a + 1 => Chain { first: Field(0), rest: [TLink { op: Add, a: Int(1) }] } None Int\n\
b + a => Chain { first: Cast { to: Int, a: Field(1) }, rest: [TLink { op: Add, a: Field(0) }] } None Int\n\
a + 5L => Chain { first: Field(0), rest: [TLink { op: Add, a: Long(5) }] } None Long\n\
a == 5L => Compare { op: Eq, a: Cast { to: Long, a: Field(0) }, b: Long(5) } None Boolean\n\
s == a => Refused(TypeMismatch)\n\
k => Refused(AmbiguousField)\n\
p::k => Field(7) Some('p::k') Int\n\
zz => Refused(UnknownField)\n\
$11 => Refused(PositionOut)\n\
n => Local(0) None Bag([Int])\n\
$3 => Field(3) Some('n') Long\n\
m#'c' == 'x' => Compare { op: Eq, a: Cast { to: Chararray, a: Look { a: Field(4), key: 'c' } }, b: Chars('x') } None Boolean\n\
t.y => Project { a: Field(5), fields: [1], single: true } Some('y') Chararray\n\
SUM(g.r) => Call { function: Sum, args: [Project { a: Field(6), fields: [0], single: true }] } None Long\n\
AVG(a) => Refused(FloatType)\n\
NOPE(a, s) => Refused(UnknownFunction)\n\
COUNT(a, b) => Refused(WrongArguments)\n\
COUNT(a) => Refused(TypeMismatch)\n\
CONCAT(s, b) => Call { function: Concat, args: [Field(2), Cast { to: Chararray, a: Field(1) }] } None Chararray\n\
TOBAG(t, t) => Call { function: ToBag { width: Some(2) }, args: [Field(5), Field(5)] } None Bag([Int, Chararray])\n\
TOBAG(a, 5L) => Call { function: ToBag { width: None }, args: [Cast { to: Long, a: Field(0) }, Long(5)] } None Bag([Long])\n\
NOT b => Not(Cast { to: Boolean, a: Field(1) }) None Boolean\n\
(int) m#'c' => Cast { to: Int, a: Look { a: Field(4), key: 'c' } } None Int\n\
(float) a => Refused(FloatType)\n\
(b ? a : 5L) => Choose { cond: Cast { to: Boolean, a: Field(1) }, yes: Cast { to: Long, a: Field(0) }, no: Long(5) } None Long";

fn expression<R: Abort>(rt: &R, alloc: Global, row: usize) -> Expr {
    match row {
        0 => add(rt, alloc, "a", Expr::Int(1)),
        1 => add_fields(rt, alloc, "b", "a"),
        2 => add(rt, alloc, "a", Expr::Long(5)),
        3 => equal_long(rt, alloc, "a", 5),
        4 => equal_fields(rt, alloc, "s", "a"),
        5 => field(rt, alloc, "k"),
        6 => field(rt, alloc, "p::k"),
        7 => field(rt, alloc, "zz"),
        8 => Expr::Field(FieldRef::Position(11)),
        9 => field(rt, alloc, "n"),
        10 => Expr::Field(FieldRef::Position(3)),
        11 => looked_equal(rt, alloc, "x"),
        12 => part(rt, alloc, "t", "y"),
        _ => call_or_cast(rt, alloc, row),
    }
}

fn call_or_cast<R: Abort>(rt: &R, alloc: Global, row: usize) -> Expr {
    match row {
        13 => call_part(rt, alloc, "SUM", "g", "r"),
        14 => call(rt, alloc, "AVG", "a"),
        15 => call_two(rt, alloc, "NOPE", "a", "s"),
        16 => call_two(rt, alloc, "COUNT", "a", "b"),
        17 => call(rt, alloc, "COUNT", "a"),
        18 => call_two(rt, alloc, "CONCAT", "s", "b"),
        19 => call_two(rt, alloc, "TOBAG", "t", "t"),
        20 => call_long(rt, alloc, "TOBAG", "a", 5),
        21 => not(rt, alloc, "b"),
        22 => cast_look(rt, alloc),
        23 => to_float(rt, alloc, "a"),
        _ => choose(rt, alloc),
    }
}

fn shown_typing<R: Abort>(rt: &R, alloc: Global, typed: &TypedExpr) -> String {
    let expr = &typed.expr;
    let name = &typed.column.name;
    let kind = &typed.column.kind;
    let shown = format!(in alloc; "{expr:?} {name:?} {kind:?}").expect(rt, "memory");
    plain(alloc, shown.as_str()).expect(rt, "memory")
}

fn shown<R: Abort>(rt: &R, alloc: Global, row: usize, scope: &Scope) -> String {
    let expr = expression(rt, alloc, row);
    let found = type_expr(alloc, &expr, scope);
    let shown = match &found {
        Ok(typed) => shown_typing(rt, alloc, typed),
        Err(fault) => shown_fault(rt, alloc, fault),
    };
    drop((expr, found));
    shown
}

#[test]
fn types_each_form(rt: HostRuntime) {
    let alloc = rt.alloc();
    let columns = columns(&rt, alloc);
    let locals = locals(&rt, alloc);
    let scope = Scope {
        columns: &columns,
        locals: &locals,
    };
    for (number, row) in ROWS.lines().enumerate() {
        let (expr, wanted) = row.split_once(" => ").unwrap_or(("", "none"));
        let found = shown(&rt, alloc, number, &scope);
        assert_eq!(rt; found.as_str(), wanted, "{expr}");
    }
}
