//! What no clause says of names inside what expressions give: that choices, bags and tuples of other columns are typed with
//! ample memory, with the names inside them, or refused with the kind that is due.
// Trees end by `drop`: one call is cheap to prove, and a tree that dies by name is taken apart variant by variant.
use crate::shared::{
    called, choice, choice_by, columns, field, locals, part_of, place_of, push, shown_fault,
};
use pig_items::type_items;
use pig_schema::{Field, Schema};
use pig_syntax::{Expr, Exprs, Item, Items};
use pig_typing::{Scope, type_expr};
use pig_value::{Kind, Seq};
use std::alloc::Global;
use std::process::Abort;

// Each expression, and the column that it is typed as: its name, its kind, and the names inside it, with those inside
// these in parentheses. The columns and the nested alias are those of the tests of expressions.
const ROWS: &str = "\
(b ? t : u) => _ Tuple x y\n\
(b ? null : t) => _ Tuple x y\n\
(b ? t : null) => _ Tuple x y\n\
(b ? null : null) => _ Bytearray\n\
(b ? a : 5L) => _ Long\n\
(b ? null : (b ? u : t)) => _ Tuple p w\n\
(b ? (b ? null : t) : u) => _ Tuple x y\n\
(b ? g : g) => _ Bag r\n\
TOBAG(t, u) => _ Bag x y\n\
TOBAG(g, g) => _ Bag _( r)\n\
TOBAG(a, 5L) => _ Bag _\n\
TOBAG(null, b) => _ Bag _\n\
TOTUPLE(a, n, t) => _ Tuple a _( z) t( x y)\n\
TOTUPLE(5L, p::k) => _ Tuple _ p::k\n\
TOKENIZE(s) => _ Bag token\n\
p::p => p::p Int\n\
p => p::p Int\n\
(b ? t : u).y => y Chararray\n\
(b ? null : (b ? u : t)).w => w Chararray\n\
TOBAG(t, u).y => y Bag y\n\
TOTUPLE(a, t).a => a Int\n\
TOKENIZE(s).token => token Bag token\n\
(b ? t : u).w => Refused(UnknownField)\n\
TOBAG(t, u).w => Refused(UnknownField)\n\
TOTUPLE(p::k, q::k).k => Refused(AmbiguousField)\n\
(b ? TOTUPLE(p::k, q::k) : null).k => Refused(AmbiguousField)\n\
(b ? t : u).$2 => Refused(PositionOut)\n\
TOBAG(t, u).$2 => Refused(PositionOut)\n\
(b ? t : a) => Refused(TypeMismatch)\n\
(b ? a : 5L).x => Refused(TypeMismatch)\n\
(s ? t : u) => Refused(TypeMismatch)\n\
TOBAG(t, a) => Refused(TypeMismatch)\n\
(b ? 1.5 : null) => Refused(FloatType)\n\
(b ? NOPE(a) : a) => Refused(UnknownFunction)\n\
(b ? a : TOBAG()) => Refused(WrongArguments)";

// Two of these, and a choice of them.
fn pair<R: Abort>(rt: &R, alloc: Global, row: usize) -> Expr {
    match row {
        0 => choice(rt, alloc, field(rt, alloc, "t"), field(rt, alloc, "u")),
        1 => choice(rt, alloc, Expr::Null, field(rt, alloc, "t")),
        2 => choice(rt, alloc, field(rt, alloc, "t"), Expr::Null),
        3 => choice(rt, alloc, Expr::Null, Expr::Null),
        4 => choice(rt, alloc, field(rt, alloc, "a"), Expr::Long(5)),
        5 => choice(rt, alloc, Expr::Null, turned(rt, alloc)),
        6 => choice(rt, alloc, pair_of_null(rt, alloc), field(rt, alloc, "u")),
        _ => choice(rt, alloc, field(rt, alloc, "g"), field(rt, alloc, "g")),
    }
}

fn turned<R: Abort>(rt: &R, alloc: Global) -> Expr {
    choice(rt, alloc, field(rt, alloc, "u"), field(rt, alloc, "t"))
}

fn pair_of_null<R: Abort>(rt: &R, alloc: Global) -> Expr {
    choice(rt, alloc, Expr::Null, field(rt, alloc, "t"))
}

fn two<R: Abort>(rt: &R, alloc: Global, first: Expr, second: Expr) -> Exprs {
    let mut args = Seq::new(alloc);
    push(rt, &mut args, first);
    push(rt, &mut args, second);
    args
}

fn fields<R: Abort>(rt: &R, alloc: Global, names: &str) -> Exprs {
    let mut args = Seq::new(alloc);
    for name in names.split(' ') {
        push(rt, &mut args, field(rt, alloc, name));
    }
    args
}

fn of_fields<R: Abort>(rt: &R, alloc: Global, function: &str, names: &str) -> Expr {
    called(rt, alloc, function, fields(rt, alloc, names))
}

fn call_two<R: Abort>(rt: &R, alloc: Global, function: &str, a: Expr, b: Expr) -> Expr {
    called(rt, alloc, function, two(rt, alloc, a, b))
}

fn call<R: Abort>(rt: &R, alloc: Global, row: usize) -> Expr {
    match row {
        8 => of_fields(rt, alloc, "TOBAG", "t u"),
        9 => of_fields(rt, alloc, "TOBAG", "g g"),
        10 => call_two(rt, alloc, "TOBAG", field(rt, alloc, "a"), Expr::Long(5)),
        11 => call_two(rt, alloc, "TOBAG", Expr::Null, field(rt, alloc, "b")),
        12 => of_fields(rt, alloc, "TOTUPLE", "a n t"),
        13 => call_two(
            rt,
            alloc,
            "TOTUPLE",
            Expr::Long(5),
            field(rt, alloc, "p::k"),
        ),
        14 => of_fields(rt, alloc, "TOKENIZE", "s"),
        15 => field(rt, alloc, "p::p"),
        _ => field(rt, alloc, "p"),
    }
}

fn projected<R: Abort>(rt: &R, alloc: Global, row: usize) -> Expr {
    match row {
        17 => part_of(rt, alloc, pair(rt, alloc, 0), "y"),
        18 => part_of(rt, alloc, pair(rt, alloc, 5), "w"),
        19 => part_of(rt, alloc, call(rt, alloc, 8), "y"),
        20 => part_of(rt, alloc, of_fields(rt, alloc, "TOTUPLE", "a t"), "a"),
        21 => part_of(rt, alloc, call(rt, alloc, 14), "token"),
        22 => part_of(rt, alloc, pair(rt, alloc, 0), "w"),
        23 => part_of(rt, alloc, call(rt, alloc, 8), "w"),
        24 => part_of(rt, alloc, both_keys(rt, alloc), "k"),
        _ => part_of(
            rt,
            alloc,
            choice(rt, alloc, both_keys(rt, alloc), Expr::Null),
            "k",
        ),
    }
}

fn both_keys<R: Abort>(rt: &R, alloc: Global) -> Expr {
    of_fields(rt, alloc, "TOTUPLE", "p::k q::k")
}

fn refused<R: Abort>(rt: &R, alloc: Global, row: usize) -> Expr {
    match row {
        26 => place_of(rt, alloc, pair(rt, alloc, 0), 2),
        27 => place_of(rt, alloc, call(rt, alloc, 8), 2),
        28 => choice(rt, alloc, field(rt, alloc, "t"), field(rt, alloc, "a")),
        29 => part_of(rt, alloc, pair(rt, alloc, 4), "x"),
        30 => choice_by(rt, alloc, "s", field(rt, alloc, "t"), field(rt, alloc, "u")),
        31 => of_fields(rt, alloc, "TOBAG", "t a"),
        32 => choice(rt, alloc, Expr::Float, Expr::Null),
        33 => choice(
            rt,
            alloc,
            of_fields(rt, alloc, "NOPE", "a"),
            field(rt, alloc, "a"),
        ),
        _ => choice(
            rt,
            alloc,
            field(rt, alloc, "a"),
            called(rt, alloc, "TOBAG", Seq::new(alloc)),
        ),
    }
}

fn expression<R: Abort>(rt: &R, alloc: Global, row: usize) -> Expr {
    match row {
        0..8 => pair(rt, alloc, row),
        8..17 => call(rt, alloc, row),
        17..26 => projected(rt, alloc, row),
        _ => refused(rt, alloc, row),
    }
}

fn add<R: Abort>(rt: &R, text: &mut String, part: &str) {
    text.push_str(part).expect(rt, "memory");
}

fn add_name<R: Abort>(rt: &R, text: &mut String, column: &Field) {
    match &column.name {
        Some(name) => add(rt, text, name.as_str()),
        None => add(rt, text, "_"),
    }
}

// The names of columns, each behind a space.
fn add_names<R: Abort>(rt: &R, text: &mut String, columns: &Schema) {
    for column in columns.as_slice() {
        add(rt, text, " ");
        add_name(rt, text, column);
    }
}

// The names inside a column, and those inside these.
fn add_inside<R: Abort>(rt: &R, text: &mut String, column: &Field) {
    for inside in column.inner.as_slice() {
        add(rt, text, " ");
        add_name(rt, text, inside);
        if !inside.inner.is_empty() {
            add(rt, text, "(");
            add_names(rt, text, &inside.inner);
            add(rt, text, ")");
        }
    }
}

fn word(kind: &Kind) -> &'static str {
    match kind {
        Kind::Int => " Int",
        Kind::Long => " Long",
        Kind::Chararray => " Chararray",
        Kind::Bytearray => " Bytearray",
        Kind::Boolean => " Boolean",
        Kind::Tuple(_) => " Tuple",
        Kind::Bag(_) => " Bag",
        Kind::Map(_) => " Map",
    }
}

fn shown_column<R: Abort>(rt: &R, alloc: Global, column: &Field) -> String {
    let mut text = String::new(alloc);
    add_name(rt, &mut text, column);
    add(rt, &mut text, word(&column.kind));
    add_inside(rt, &mut text, column);
    text
}

fn shown<R: Abort>(rt: &R, alloc: Global, row: usize, scope: &Scope) -> String {
    let expr = expression(rt, alloc, row);
    let found = type_expr(alloc, &expr, scope);
    let shown = match &found {
        Ok(typed) => shown_column(rt, alloc, &typed.column),
        Err(fault) => shown_fault(rt, alloc, fault),
    };
    drop((expr, found));
    shown
}

#[test]
fn keeps_names_inside(rt: HostRuntime) {
    let alloc = rt.alloc();
    let columns = columns(&rt, alloc);
    let locals = locals(&rt, alloc);
    let scope = Scope {
        columns: &columns,
        locals: &locals,
    };
    for (number, row) in ROWS.lines().enumerate() {
        let (expr, wanted) = row.split_once(" => ").unwrap_or(("", "none"));
        let found = shown(&rt, alloc, number, &scope);
        assert_eq!(rt; found.as_str(), wanted, "{expr}");
    }
}

// Rows of the table above, and the names of the columns that FLATTEN gives of each.
const FLATTENED: [(usize, &str); 9] = [
    (0, " x y"),
    (1, " x y"),
    (5, " p w"),
    (7, " r"),
    (8, " x y"),
    (9, " _"),
    (12, " a _ t"),
    (14, " token"),
    (21, " token::token"),
];

fn flattened<R: Abort>(rt: &R, alloc: Global, row: usize, scope: &Scope) -> String {
    let mut items: Items = Seq::new(alloc);
    let value = expression(rt, alloc, row);
    push(
        rt,
        &mut items,
        Item::Value {
            value,
            flatten: true,
            names: None,
        },
    );
    let found = type_items(alloc, items.as_slice(), scope);
    let mut text = String::new(alloc);
    if let Ok(generated) = &found {
        add_names(rt, &mut text, &generated.columns);
    }
    drop((items, found));
    text
}

#[test]
fn flattens_with_names(rt: HostRuntime) {
    let alloc = rt.alloc();
    let columns = columns(&rt, alloc);
    let locals = locals(&rt, alloc);
    let scope = Scope {
        columns: &columns,
        locals: &locals,
    };
    for (row, wanted) in FLATTENED {
        let found = flattened(&rt, alloc, row, &scope);
        assert_eq!(rt; found.as_str(), wanted, "{row}");
    }
}
