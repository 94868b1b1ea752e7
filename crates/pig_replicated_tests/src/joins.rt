// Relations as texts: rows between semicolons, fields between commas, and an empty field is a null. Where memory is wanting the
// process ends: that drops nothing, so its proof is short. Trees end by `drop`, which is one call.
ghost use Rattle.std.specs.Prelude.{◌≡◌, IsSome, length};
ghost use Rattle.pig_value.specs.Trees.{tree};
ghost use Rattle.pig_keycode.specs.Codes.{code};

use pig_keycode::encode;
use pig_replicated::{Lookup, Lookups, key_value, probe};
use pig_typed::{TExpr, TExprs};
use pig_value::{Dir, Rows, Seq, Text, Tuple, Value};
use std::alloc::Global;
use std::process::Abort;

/// Adds to a list.
fn push<R: Abort, T: Drop>(rt: &R, list: &mut Seq<T>, item: T) {
    list.push(item).expect(rt, "memory");
}

/// Adds to a text.
fn add<R: Abort>(rt: &R, into: &mut String, text: &str) {
    into.push_str(text).expect(rt, "memory");
}

fn field<R: Abort>(rt: &R, alloc: Global, text: &str) -> Value {
    if text.is_empty() {
        return Value::Null;
    }
    Value::Chars(Text::from_str(alloc, text).expect(rt, "memory"))
}

fn row<R: Abort>(rt: &R, alloc: Global, text: &str) -> Tuple {
    let mut row = Tuple::new(alloc);
    for part in text.split(',') {
        push(rt, &mut row, field(rt, alloc, part));
    }
    row
}

fn rows<R: Abort>(rt: &R, alloc: Global, text: &str) -> Rows {
    let mut rows = Rows::new(alloc);
    if text.is_empty() {
        return rows;
    }
    for part in text.split(';') {
        push(rt, &mut rows, row(rt, alloc, part));
    }
    rows
}

fn add_value<R: Abort>(rt: &R, told: &mut String, value: &Value) {
    if let Value::Chars(text) = value {
        add(rt, told, text.as_str());
    }
}

/// Adds rows to a text, each before a semicolon.
fn add_rows<R: Abort>(rt: &R, told: &mut String, rows: &Rows) {
    for row in rows.as_slice() {
        let mut between = "";
        for value in row.as_slice() {
            add(rt, told, between);
            add_value(rt, told, value);
            between = ",";
        }
        add(rt, told, ";");
    }
}

/// The first so many fields as keys.
fn first_fields<R: Abort>(rt: &R, alloc: Global, count: u32) -> TExprs {
    let mut keys = TExprs::new(alloc);
    for place in 0..count {
        push(rt, &mut keys, TExpr::Field(place));
    }
    keys
}

/// The lookups of relations, which stand between bars.
fn lookups<R: Abort>(rt: &R, alloc: Global, keys: &TExprs, text: &str) -> Lookups {
    let mut sides = Lookups::new(alloc);
    for part in text.split('/') {
        let held = rows(rt, alloc, part);
        let lookup = Lookup::build(alloc, keys, &held).expect(rt, "memory");
        drop(held);
        push(rt, &mut sides, lookup);
    }
    sides
}

/// Adds what a row gives.
fn add_probed<R: Abort>(
    rt: &R,
    alloc: Global,
    told: &mut String,
    keys: &TExprs,
    row: &Tuple,
    sides: &Lookups,
    fill: Option<u32>,
)
    requires { IsSome fill → length sides.now ≡ 1 }
{
    let key = key_value(alloc, keys.as_slice(), row).expect(rt, "memory");
    let found = probe(alloc, row, &key, sides, fill).expect(rt, "memory");
    drop(key);
    add_rows(rt, told, &found);
    drop(found);
}

/// What the rows of the first relation give with the others, in turn.
fn joined<R: Abort>(
    rt: &R,
    alloc: Global,
    keys: u32,
    fill: Option<u32>,
    first: &str,
    others: &str,
) -> String {
    let keys = first_fields(rt, alloc, keys);
    let sides = lookups(rt, alloc, &keys, others);
    let fill = if sides.len() == 1 { fill } else { None };
    let first = rows(rt, alloc, first);
    let mut told = String::new(alloc);
    for row in first.as_slice() {
        add_probed(rt, alloc, &mut told, &keys, row, &sides, fill);
    }
    drop(first);
    drop(sides);
    drop(keys);
    told
}

/// The number that a digit is.
fn number(text: &str) -> Option<u32> {
    match text.as_bytes() {
        [digit @ b'0'..=b'9'] => Some(u32::from(*digit - b'0')),
        _ => None,
    }
}

/// The text before a bar and that behind it.
fn cut(text: &str) -> (&str, &str) {
    text.split_once('|').unwrap_or((text, ""))
}

// The number of keys; the width of nulls, where rows are kept without a match; the first relation; the others; the rows.
const JOINS: &str = "\
1|-|1,x;,y;,z|1,p;,q|1,x,1,p;
1|2|1,x;,y;,z|1,p;,q|1,x,1,p;,y,,;,z,,;
1|-|1,x;2,y|2,b;1,c;2,a;1,d|1,x,1,c;1,x,1,d;2,y,2,a;2,y,2,b;
1|-|1,x|1,q;1,p/1,t;2,r;1,s|1,x,1,p,1,s;1,x,1,p,1,t;1,x,1,q,1,s;1,x,1,q,1,t;
1|-|1,x|1,p/2,r|
1|-|1,x;1,x|1,p;1,p|1,x,1,p;1,x,1,p;1,x,1,p;1,x,1,p;
1|2|3,x|1,p;2,q|3,x,,;
1|-|3,x;0,x;15,x;|1,p;2,q|
2|-|1,2,x;1,,y;,,z|1,2,p;1,,q;,,r|1,2,x,1,2,p;
2|3|1,2,x;1,,y;,,z|1,2,p;1,,q;,,r|1,2,x,1,2,p;1,,y,,,;,,z,,,;
1|-||1,p|
1|-|1,x||
1|1|1,x||1,x,;
1|0|1,x||1,x;
";

#[test]
fn rows_are_joined(rt: HostRuntime) {
    for line in JOINS.lines() {
        let (keys, rest) = cut(line);
        let (fill, rest) = cut(rest);
        let (first, rest) = cut(rest);
        let (others, wanted) = cut(rest);
        let keys = number(keys).unwrap_or(0);
        let told = joined(&rt, rt.alloc(), keys, number(fill), first, others);
        assert_eq!(rt; told.as_str(), wanted, "at {line}");
    }
}

/// So many rows of one key.
fn alike<R: Abort>(rt: &R, alloc: Global, count: u32) -> Rows {
    let mut made = Rows::new(alloc);
    for _i in 0..count {
        push(rt, &mut made, row(rt, alloc, "k,v"));
    }
    made
}

#[test]
fn a_thousand_rows_have_one_key(rt: HostRuntime) {
    let alloc = rt.alloc();
    let keys = first_fields(&rt, alloc, 1);
    let held = alike(&rt, alloc, 1_000);
    let lookup = Lookup::build(alloc, &keys, &held).expect(&rt, "memory");
    let key = field(&rt, alloc, "k");
    assert!(rt; lookup.matches(&key).len() == 1_000);
    assert!(rt; lookup.matches(&Value::Null).is_empty());
    drop((key, lookup));
    drop((held, keys));
}

/// The code of a key.
fn code_of<R: Abort>(rt: &R, alloc: Global, key: &Value) -> Vec<u8>
    ensures { result.items ≡ code (tree key.now) }
{
    let mut bytes = Vec::new(alloc);
    encode(key, Dir::Asc, &mut bytes).expect(rt, "memory");
    bytes
}

/// Adds bytes to a text, each as two digits.
fn add_bytes<R: Abort>(rt: &R, told: &mut String, bytes: &[u8]) {
    for byte in bytes {
        for digit in [*byte / 16, *byte % 16] {
            let digit = char::from_digit(u32::from(digit), 16).unwrap_or('?');
            told.push(digit).expect(rt, "memory");
        }
    }
}

/// The key that fields are: the one field, or the tuple of several.
fn key_of<R: Abort>(rt: &R, alloc: Global, text: &str) -> Value {
    if text.contains(',') {
        return Value::Tuple(row(rt, alloc, text));
    }
    field(rt, alloc, text)
}

/// The codes of the rows of a relation that a key has, each before a semicolon.
fn coded<R: Abort>(rt: &R, alloc: Global, keys: u32, held: &str, key: &str) -> String {
    let keys = first_fields(rt, alloc, keys);
    let held = rows(rt, alloc, held);
    let lookup = Lookup::build(alloc, &keys, &held).expect(rt, "memory");
    drop((held, keys));
    let key = key_of(rt, alloc, key);
    let bytes = code_of(rt, alloc, &key);
    let mut told = String::new(alloc);
    for row in lookup.coded_matches(&key, bytes.as_slice()) {
        add_bytes(rt, &mut told, row.as_slice());
        add(rt, &mut told, ";");
    }
    drop((key, lookup));
    told
}

// The number of keys; the relation; a key; the codes of the fields of the rows with it. A text is 04, its bytes and 0000, a null 00,
// and 01 stands before each field.
const CODES: &str = "\
1|2,r;1,p;,q;1,o|1|010431000001046f0000;01043100000104700000;
1|2,r;1,p;,q;1,|1|01043100000100;01043100000104700000;
1|1,p;,q|3|
1|1,p;,q||
1||1|
2|1,2,p;1,,q;2,1,r|1,2|010431000001043200000104700000;
2|1,2,p;1,,q;2,1,r|2,2|
2|1,2,p;1,,q;2,1,r|1,|
";

#[test]
fn matches_are_found_by_code(rt: HostRuntime) {
    for line in CODES.lines() {
        let (keys, rest) = cut(line);
        let (held, rest) = cut(rest);
        let (key, wanted) = cut(rest);
        let keys = number(keys).unwrap_or(0);
        let told = coded(&rt, rt.alloc(), keys, held, key);
        assert_eq!(rt; told.as_str(), wanted, "at {line}");
    }
}
