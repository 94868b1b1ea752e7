//! pig_schema: names and positions by hand, in schemas that are written as the names of their fields.
//!
//! A case is a line of a text: the names, the name that is looked for, and what is found.
//! Where memory is wanting the process ends: that drops nothing, so its proof is short.
// Trees end by `drop`: one call is cheap to prove, and a tree that dies by name is taken apart variant by variant.
use pig_schema::{Field, NameFault, Schema, at, copy_field, copy_schema, find, kinds};
use pig_value::{Boxed, Kind, Seq, Text, same_kind};
use std::alloc::Global;
use std::process::Abort;

// A field of this name, or of none where the text is empty.
fn field<R: Abort>(rt: &R, alloc: Global, name: &str, kind: Kind) -> Field {
    let name = if name.is_empty() {
        None
    } else {
        Some(Text::from_str(alloc, name).expect(rt, "memory"))
    };
    Field {
        name,
        kind,
        inner: Seq::new(alloc),
    }
}

// A schema whose fields have these names, with commas between them; `-` is no field.
fn schema<R: Abort>(rt: &R, alloc: Global, names: &str) -> Schema {
    let mut schema = Seq::new(alloc);
    for name in names.split(',') {
        if name != "-" {
            let added = field(rt, alloc, name, Kind::Int);
            schema.push(added).expect(rt, "memory");
        }
    }
    schema
}

// What a line says that is found.
fn wanted(text: &str) -> Result<usize, NameFault> {
    match text {
        "0" => Ok(0),
        "1" => Ok(1),
        "ambiguous" => Err(NameFault::Ambiguous),
        "unknown" => Err(NameFault::Unknown),
        _ => Err(NameFault::PositionOut),
    }
}

// Whether just this is found of a name.
fn finds<R: Abort>(rt: &R, alloc: Global, line: &str) -> bool {
    let (names, rest) = line.split_once('|').unwrap_or(("", ""));
    let (name, found) = rest.split_once('|').unwrap_or(("", ""));
    let schema = schema(rt, alloc, names);
    find(&schema, name) == wanted(found)
}

const NAMES: &str = "-|a|unknown
a,b|b|1
a,b,a|a|ambiguous
a,b,a|b|1
x::a,a,y::a|a|1
x::a,y::a|x::a|0
x::a,x::a|x::a|ambiguous
x::a,a,a|a|ambiguous
,a,|a|1
,|a|unknown
a|A|unknown
";

#[test]
fn a_name_that_is_there_is_meant(rt: HostRuntime) {
    for line in NAMES.lines() {
        assert!(rt; finds(&rt, rt.alloc(), line), "{line}");
    }
}

const ENDS: &str = "c,a::b|b|1
x::a::b,c|a::b|0
x::a::b,c|b|0
x::a::b,a::b|a::b|1
x::a::b,a::b|b|ambiguous
x::a,y::a,z::a|a|ambiguous
ab|b|unknown
a:b|b|unknown
a::b|::b|unknown
a::b|a|unknown
::b,ab|b|0
b|a::b|unknown
";

#[test]
fn a_name_fits_behind_two_colons(rt: HostRuntime) {
    for line in ENDS.lines() {
        assert!(rt; finds(&rt, rt.alloc(), line), "{line}");
    }
}

// Whether this is found at a position of fields of these names.
fn stands<R: Abort>(
    rt: &R,
    alloc: Global,
    names: &str,
    position: u32,
    expected: Result<usize, NameFault>,
) -> bool {
    let schema = schema(rt, alloc, names);
    at(&schema, position) == expected
}

#[test]
fn a_position_counts_from_0(rt: HostRuntime) {
    let alloc = rt.alloc();
    assert!(rt; stands(&rt, alloc, "a,,b", 0, Ok(0)));
    assert!(rt; stands(&rt, alloc, "a,,b", 2, Ok(2)));
    let out = Err(NameFault::PositionOut);
    assert!(rt; stands(&rt, alloc, "a,,b", 3, out));
    assert!(rt; stands(&rt, alloc, "-", 0, out));
}

// Whether a kind is this one.
fn is_kind(found: &Kind, expected: Kind) -> bool {
    let is = same_kind(found, &expected);
    drop(expected);
    is
}

// Whether a kind is that of tuples of one field.
fn is_of_one(kind: &Kind) -> bool {
    match kind {
        Kind::Tuple(inner) => inner.len() == 1,
        _ => false,
    }
}

// Whether these are a text, a truth and a tuple of one field.
fn are_three(kinds: &[Kind]) -> bool {
    match kinds {
        [text, flag, fields] => {
            is_kind(text, Kind::Chararray) && is_kind(flag, Kind::Boolean) && is_of_one(fields)
        }
        _ => false,
    }
}

// Three fields: a text, a truth without a name, and a tuple of one field.
fn three_fields<R: Abort>(rt: &R, alloc: Global) -> Schema {
    let mut columns = Seq::new(alloc);
    columns.push(Kind::Long).expect(rt, "memory");
    let mut schema = Seq::new(alloc);
    let text = field(rt, alloc, "a", Kind::Chararray);
    schema.push(text).expect(rt, "memory");
    let flag = field(rt, alloc, "", Kind::Boolean);
    schema.push(flag).expect(rt, "memory");
    let tuple = field(rt, alloc, "t", Kind::Tuple(columns));
    schema.push(tuple).expect(rt, "memory");
    schema
}

#[test]
fn kinds_stand_in_order(rt: HostRuntime) {
    let schema = three_fields(&rt, rt.alloc());
    let found = kinds(rt.alloc(), &schema).expect(&rt, "memory");
    assert!(rt; are_three(found.as_slice()));
}

// A bag of tuples of an int `a`, under a name.
fn bag_field<R: Abort>(rt: &R, alloc: Global, name: &str) -> Field {
    let mut columns = Seq::new(alloc);
    columns.push(Kind::Int).expect(rt, "memory");
    let mut bag = field(rt, alloc, name, Kind::Bag(columns));
    let only = field(rt, alloc, "a", Kind::Int);
    bag.inner.push(only).expect(rt, "memory");
    bag
}

// Whether these are one int.
fn is_one_int(kinds: &[Kind]) -> bool {
    match kinds {
        [only] => is_kind(only, Kind::Int),
        _ => false,
    }
}

// Whether this is the bag above, under this name.
fn is_bag_field(found: &Field, name: &str) -> bool {
    let named = match &found.name {
        Some(text) => text.as_str() == name,
        None => false,
    };
    let of_ints = match &found.kind {
        Kind::Bag(columns) => is_one_int(columns.as_slice()),
        _ => false,
    };
    named && of_ints && find(&found.inner, "a") == Ok(0) && found.inner.len() == 1
}

// Whether a copy of the bag above is the same, under this name.
fn bag_is_copied<R: Abort>(rt: &R, alloc: Global, name: &str) -> bool {
    let bag = bag_field(rt, alloc, name);
    let copied = copy_field(alloc, &bag).expect(rt, "memory");
    let is = is_bag_field(&copied, name);
    drop(bag);
    drop(copied);
    is
}

#[test]
fn a_field_is_copied(rt: HostRuntime) {
    assert!(rt; bag_is_copied(&rt, rt.alloc(), "b"));
}

// Whether a kind is that of maps of longs.
fn is_map_of_longs(kind: &Kind) -> bool {
    match kind {
        Kind::Map(of) => is_kind(of.get(), Kind::Long),
        _ => false,
    }
}

// Whether this field is a map of longs without a name.
fn is_map_field(found: &Field) -> bool {
    found.name.is_none() && is_map_of_longs(&found.kind) && found.inner.is_empty()
}

// Whether these are the bag above and such a map.
fn are_two(fields: &[Field]) -> bool {
    match fields {
        [first, second] => is_bag_field(first, "b") && is_map_field(second),
        _ => false,
    }
}

// The bag above, and a map of longs without a name.
fn two_fields<R: Abort>(rt: &R, alloc: Global) -> Schema {
    let mut whole = Seq::new(alloc);
    let bag = bag_field(rt, alloc, "b");
    whole.push(bag).expect(rt, "memory");
    let longs = Boxed::new(alloc, Kind::Long).expect(rt, "memory");
    let map = field(rt, alloc, "", Kind::Map(longs));
    whole.push(map).expect(rt, "memory");
    whole
}

#[test]
fn a_schema_is_copied(rt: HostRuntime) {
    let whole = two_fields(&rt, rt.alloc());
    let copied = copy_schema(rt.alloc(), &whole).expect(&rt, "memory");
    assert!(rt; are_two(copied.as_slice()));
}
