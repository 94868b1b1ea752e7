//! What no clause says of `type_items`: that items of each form are typed with ample memory, or refused with the kind
//! that is due.
// Trees end by `drop`: one call is cheap to prove, and a tree that dies by name is taken apart variant by variant.
use crate::shared::{columns, field, locals, push, shown_fault, text};
use pig_items::{Generated, type_items};
use pig_schema::{Field, Schema};
use pig_shown_tests::plain;
use pig_syntax::{AsNames, Expr, FieldTree, Item, Items, TypeTree};
use pig_typed::BlockItem;
use pig_typing::Scope;
use pig_value::{Seq, Text};
use std::alloc::Global;
use std::process::Abort;

// The item of each row, and what it is typed as: its value, whether it is flattened, its width, and the names and
// kinds of the fields that it gives. The columns and the nested alias are those of the tests of expressions.
const ROWS: &str = "\
a => Field(0) false 1: Some('a') Int\n\
n => Local(0) false 1: None Bag([Int])\n\
a AS x => Field(0) false 1: Some('x') Int\n\
a AS x:long => Cast { to: Long, a: Field(0) } false 1: Some('x') Long\n\
a AS x:int => Cast { to: Int, a: Field(0) } false 1: Some('x') Int\n\
a AS (x) => Field(0) false 1: Some('x') Int\n\
a AS (x, y) => Refused(SchemaMismatch)\n\
a AS x:float => Refused(FloatType)\n\
m AS x:int => Refused(TypeMismatch)\n\
'k' => Chars('k') false 1: None Chararray\n\
FLATTEN(t) => Field(5) true 2: Some('t::x') Int Some('t::y') Chararray\n\
FLATTEN(g) => Field(6) true 1: Some('g::r') Long\n\
FLATTEN(n) => Local(0) true 1: Some('z') Int\n\
FLATTEN(a) => Field(0) true 1: Some('a') Int\n\
FLATTEN(m) => Refused(TypeMismatch)\n\
FLATTEN(t) AS (p, q:chararray) => Field(5) true 2: Some('p') Int Some('q') Chararray\n\
FLATTEN(t) AS (p:long, q) => Refused(TypeMismatch)\n\
FLATTEN(t) AS p => Refused(SchemaMismatch)\n\
FLATTEN(t) AS p:long => Refused(SchemaMismatch)\n\
FLATTEN(t) AS p:float => Refused(SchemaMismatch)\n\
FLATTEN(g) AS (p:int, q) => Refused(SchemaMismatch)\n\
FLATTEN(a) AS (p:long, q:float) => Refused(SchemaMismatch)\n\
FLATTEN(g) AS p:float => Refused(FloatType)\n\
FLATTEN(m) AS (p, q) => Refused(TypeMismatch)\n\
FLATTEN(g) AS p => Field(6) true 1: Some('p') Long\n\
zz AS x => Refused(UnknownField)";

// A written type, or none.
#[derive(Clone, Copy, Drop)]
enum Written {
    Bare,
    Int,
    Long,
    Chararray,
    Float,
}

fn kind_of(word: Written) -> Option<TypeTree> {
    match word {
        Written::Bare => None,
        Written::Int => Some(TypeTree::Int),
        Written::Long => Some(TypeTree::Long),
        Written::Chararray => Some(TypeTree::Chararray),
        Written::Float => Some(TypeTree::Float),
    }
}

fn item<R: Abort>(rt: &R, alloc: Global, row: usize) -> Item {
    match row {
        0 => bare(rt, alloc, "a", false),
        1 => bare(rt, alloc, "n", false),
        2 => named(rt, alloc, "a", false, "x", Written::Bare),
        3 => named(rt, alloc, "a", false, "x", Written::Long),
        4 => named(rt, alloc, "a", false, "x", Written::Int),
        5 => listed(rt, alloc, "a", "x"),
        6 => pair(
            rt,
            alloc,
            "a",
            false,
            ("x", Written::Bare),
            ("y", Written::Bare),
        ),
        7 => named(rt, alloc, "a", false, "x", Written::Float),
        8 => named(rt, alloc, "m", false, "x", Written::Int),
        9 => literal(rt, alloc, "k"),
        10 => bare(rt, alloc, "t", true),
        11 => bare(rt, alloc, "g", true),
        12 => bare(rt, alloc, "n", true),
        _ => flattened(rt, alloc, row),
    }
}

fn flattened<R: Abort>(rt: &R, alloc: Global, row: usize) -> Item {
    match row {
        13 => bare(rt, alloc, "a", true),
        14 => bare(rt, alloc, "m", true),
        15 => pair(
            rt,
            alloc,
            "t",
            true,
            ("p", Written::Bare),
            ("q", Written::Chararray),
        ),
        16 => pair(
            rt,
            alloc,
            "t",
            true,
            ("p", Written::Long),
            ("q", Written::Bare),
        ),
        17 => named(rt, alloc, "t", true, "p", Written::Bare),
        18 => named(rt, alloc, "t", true, "p", Written::Long),
        19 => named(rt, alloc, "t", true, "p", Written::Float),
        20 => counted(rt, alloc, "g", Written::Int, Written::Bare),
        21 => counted(rt, alloc, "a", Written::Long, Written::Float),
        22 => named(rt, alloc, "g", true, "p", Written::Float),
        23 => counted(rt, alloc, "m", Written::Bare, Written::Bare),
        24 => named(rt, alloc, "g", true, "p", Written::Bare),
        _ => named(rt, alloc, "zz", false, "x", Written::Bare),
    }
}

// A flattened field with two names.
fn counted<R: Abort>(rt: &R, alloc: Global, of: &str, first: Written, second: Written) -> Item {
    pair(rt, alloc, of, true, ("p", first), ("q", second))
}

fn value(value: Expr, flatten: bool, names: Option<AsNames>) -> Item {
    Item::Value {
        value,
        flatten,
        names,
    }
}

fn literal<R: Abort>(rt: &R, alloc: Global, of: &str) -> Item {
    value(text(rt, alloc, of), false, None)
}

fn bare<R: Abort>(rt: &R, alloc: Global, of: &str, flatten: bool) -> Item {
    value(field(rt, alloc, of), flatten, None)
}

fn named<R: Abort>(
    rt: &R,
    alloc: Global,
    of: &str,
    flatten: bool,
    name: &str,
    kind: Written,
) -> Item {
    let names = AsNames::One(name_of(rt, alloc, name, kind));
    value(field(rt, alloc, of), flatten, Some(names))
}

fn listed<R: Abort>(rt: &R, alloc: Global, of: &str, name: &str) -> Item {
    let mut fields = Seq::new(alloc);
    push(rt, &mut fields, name_of(rt, alloc, name, Written::Bare));
    let value_of = field(rt, alloc, of);
    value(value_of, false, Some(AsNames::Several(fields)))
}

fn pair<R: Abort>(
    rt: &R,
    alloc: Global,
    of: &str,
    flatten: bool,
    first: (&str, Written),
    second: (&str, Written),
) -> Item {
    let mut fields = Seq::new(alloc);
    push(rt, &mut fields, name_of(rt, alloc, first.0, first.1));
    push(rt, &mut fields, name_of(rt, alloc, second.0, second.1));
    let value_of = field(rt, alloc, of);
    value(value_of, flatten, Some(AsNames::Several(fields)))
}

fn name_of<R: Abort>(rt: &R, alloc: Global, name: &str, kind: Written) -> FieldTree {
    let name = Text::from_str(alloc, name).expect(rt, "memory");
    let kind = kind_of(kind);
    FieldTree { name, kind }
}

fn add_item<R: Abort>(rt: &R, alloc: Global, text: &mut String, item: &BlockItem) {
    let value = &item.value;
    let flatten = item.flatten;
    let width = item.width;
    let part = format!(in alloc; "{value:?} {flatten} {width}:").expect(rt, "memory");
    text.push_str(part.as_str()).expect(rt, "memory");
}

fn add_column<R: Abort>(rt: &R, alloc: Global, text: &mut String, column: &Field) {
    let name = &column.name;
    let kind = &column.kind;
    let part = format!(in alloc; " {name:?} {kind:?}").expect(rt, "memory");
    text.push_str(part.as_str()).expect(rt, "memory");
}

fn shown_columns<R: Abort>(rt: &R, alloc: Global, found: &Generated) -> String {
    let mut text = String::new(alloc);
    for item in found.items.as_slice() {
        add_item(rt, alloc, &mut text, item);
    }
    for column in found.columns.as_slice() {
        add_column(rt, alloc, &mut text, column);
    }
    plain(alloc, text.as_str()).expect(rt, "memory")
}

fn shown<R: Abort>(rt: &R, alloc: Global, row: usize, scope: &Scope) -> String {
    let mut items: Items = Seq::new(alloc);
    push(rt, &mut items, item(rt, alloc, row));
    let found = type_items(alloc, items.as_slice(), scope);
    let shown = match &found {
        Ok(typed) => shown_columns(rt, alloc, typed),
        Err(fault) => shown_fault(rt, alloc, fault),
    };
    drop((items, found));
    shown
}

#[test]
fn types_each_item(rt: HostRuntime) {
    let alloc = rt.alloc();
    let columns = columns(&rt, alloc);
    let locals = locals(&rt, alloc);
    let scope = Scope {
        columns: &columns,
        locals: &locals,
    };
    for (number, row) in ROWS.lines().enumerate() {
        let (item, wanted) = row.split_once(" => ").unwrap_or(("", "none"));
        let found = shown(&rt, alloc, number, &scope);
        assert_eq!(rt; found.as_str(), wanted, "{item}");
    }
}

// The names of columns, each with a space behind it.
fn names<R: Abort>(rt: &R, alloc: Global, columns: &Schema) -> String {
    let mut names = String::new(alloc);
    for column in columns.as_slice() {
        if let Some(name) = &column.name {
            names.push_str(name.as_str()).expect(rt, "memory");
            names.push_str(" ").expect(rt, "memory");
        }
    }
    names
}

// How many items `*, s` gives, and the names of their columns.
fn all_and_one<R: Abort>(rt: &R, alloc: Global, scope: &Scope) -> (usize, String) {
    let mut items: Items = Seq::new(alloc);
    push(rt, &mut items, Item::All);
    push(rt, &mut items, bare(rt, alloc, "s", false));
    let found = type_items(alloc, items.as_slice(), scope).expect(rt, "the items");
    let count = found.items.len();
    let names = names(rt, alloc, &found.columns);
    drop((items, found));
    (count, names)
}

#[test]
fn gives_all_fields(rt: HostRuntime) {
    let alloc = rt.alloc();
    let columns = columns(&rt, alloc);
    let locals = locals(&rt, alloc);
    let scope = Scope {
        columns: &columns,
        locals: &locals,
    };
    let (count, names) = all_and_one(&rt, alloc, &scope);
    assert!(rt; count == 12);
    assert_eq!(rt; names.as_str(), "a b s n m t g p::k q::k p::p u s ");
}
