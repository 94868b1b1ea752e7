//! pig_keycode: values by hand, in ascending order, against their codes, which are written out from the table. Where
//! memory is wanting the process ends: that drops nothing, so its proof is short.
// Trees end by `drop`: one call is cheap to prove, and a tree that dies by name is taken apart variant by variant.
use pig_keycode::{decode, decode_row, encode, encode_key, encode_places, encode_row, read_code};
use pig_value::{Blob, Dir, Dirs, Pair, Pairs, Rows, Seq, Text, Tuple, Value, same};
use std::alloc::Global;
use std::process::Abort;

// Adds to a list.
fn push<R: Abort, T: Drop>(rt: &R, list: &mut Seq<T>, item: T) {
    list.push(item).expect(rt, "memory");
}

fn chars<R: Abort>(rt: &R, alloc: Global, text: &str) -> Value {
    Value::Chars(Text::from_str(alloc, text).expect(rt, "memory"))
}

fn bytes<R: Abort>(rt: &R, alloc: Global, bytes: &[u8]) -> Value {
    Value::Bytes(Blob::from_slice(alloc, bytes).expect(rt, "memory"))
}

fn booleans<R: Abort>(rt: &R, alloc: Global, fields: &[bool]) -> Tuple {
    let mut row = Seq::new(alloc);
    for field in fields {
        push(rt, &mut row, Value::Bool(*field));
    }
    row
}

// Rows of one boolean each.
fn rows<R: Abort>(rt: &R, alloc: Global, fields: &[bool]) -> Rows {
    let mut rows = Seq::new(alloc);
    for field in fields {
        push(rt, &mut rows, booleans(rt, alloc, &[*field]));
    }
    rows
}

// Pairs that give each key the null.
fn pairs<R: Abort>(rt: &R, alloc: Global, keys: &[&str]) -> Pairs {
    let mut pairs = Seq::new(alloc);
    for key in keys {
        let key = Text::from_str(alloc, key).expect(rt, "memory");
        let value = Value::Null;
        push(rt, &mut pairs, Pair { key, value });
    }
    pairs
}

// An int, a null and a text with a zero byte.
fn mixed<R: Abort>(rt: &R, alloc: Global) -> Value {
    let mut row = Seq::new(alloc);
    push(rt, &mut row, Value::Int(5));
    push(rt, &mut row, Value::Null);
    push(rt, &mut row, chars(rt, alloc, "a\0"));
    Value::Tuple(row)
}

/// The number of values below.
const VALUES: usize = 33;

// The values in ascending order: first those without parts.
fn value<R: Abort>(rt: &R, alloc: Global, at: usize) -> Value {
    match at {
        0 => Value::Null,
        1 => Value::Bool(false),
        2 => Value::Bool(true),
        3 => Value::Int(i32::MIN),
        4 => Value::Int(-1),
        5 => Value::Int(0),
        6 => Value::Int(i32::MAX),
        7 => Value::Long(i64::MIN),
        8 => Value::Long(-1),
        9 => Value::Long(258),
        10 => Value::Long(i64::MAX),
        11 => chars(rt, alloc, ""),
        12 => chars(rt, alloc, "\0"),
        13 => chars(rt, alloc, "a"),
        14 => chars(rt, alloc, "a\0"),
        15 => chars(rt, alloc, "b"),
        16 => chars(rt, alloc, "\u{e9}"),
        17 => bytes(rt, alloc, b""),
        18 => bytes(rt, alloc, b"\x00\xff"),
        19 => bytes(rt, alloc, b"\xff"),
        _ => nested(rt, alloc, at),
    }
}

fn nested<R: Abort>(rt: &R, alloc: Global, at: usize) -> Value {
    match at {
        20 => Value::Tuple(Seq::new(alloc)),
        21 => Value::Tuple(booleans(rt, alloc, &[false])),
        22 => Value::Tuple(booleans(rt, alloc, &[false, true])),
        23 => Value::Tuple(booleans(rt, alloc, &[true])),
        24 => mixed(rt, alloc),
        25 => Value::Bag(Seq::new(alloc)),
        26 => Value::Bag(rows(rt, alloc, &[false, true])),
        27 => Value::Bag(rows(rt, alloc, &[true])),
        28 => Value::Listed(Seq::new(alloc)),
        29 => Value::Listed(rows(rt, alloc, &[true, false])),
        30 => Value::Map(Seq::new(alloc)),
        31 => Value::Map(pairs(rt, alloc, &["a"])),
        _ => Value::Map(pairs(rt, alloc, &["a", "b"])),
    }
}

// Their codes.
fn code(at: usize) -> &'static [u8] {
    match at {
        0 => b"\x00",
        1 => b"\x01\x00",
        2 => b"\x01\x01",
        3 => b"\x02\x00\x00\x00\x00",
        4 => b"\x02\x7f\xff\xff\xff",
        5 => b"\x02\x80\x00\x00\x00",
        6 => b"\x02\xff\xff\xff\xff",
        7 => b"\x03\x00\x00\x00\x00\x00\x00\x00\x00",
        8 => b"\x03\x7f\xff\xff\xff\xff\xff\xff\xff",
        9 => b"\x03\x80\x00\x00\x00\x00\x00\x01\x02",
        10 => b"\x03\xff\xff\xff\xff\xff\xff\xff\xff",
        11 => b"\x04\x00\x00",
        12 => b"\x04\x00\xff\x00\x00",
        13 => b"\x04a\x00\x00",
        14 => b"\x04a\x00\xff\x00\x00",
        15 => b"\x04b\x00\x00",
        16 => b"\x04\xc3\xa9\x00\x00",
        17 => b"\x05\x00\x00",
        18 => b"\x05\x00\xff\xff\x00\x00",
        19 => b"\x05\xff\x00\x00",
        _ => nested_code(at),
    }
}

fn nested_code(at: usize) -> &'static [u8] {
    match at {
        20 => b"\x06\x00",
        21 => b"\x06\x01\x01\x00\x00",
        22 => b"\x06\x01\x01\x00\x01\x01\x01\x00".as_slice(),
        23 => b"\x06\x01\x01\x01\x00",
        24 => b"\x06\x01\x02\x80\x00\x00\x05\x01\x00\x01\x04a\x00\xff\x00\x00\x00",
        25 => b"\x07\x00",
        26 => b"\x07\x01\x06\x01\x01\x00\x00\x01\x06\x01\x01\x01\x00\x00",
        27 => b"\x07\x01\x06\x01\x01\x01\x00\x00",
        28 => b"\x08\x00",
        29 => b"\x08\x01\x06\x01\x01\x01\x00\x01\x06\x01\x01\x00\x00\x00",
        30 => b"\x09\x00",
        31 => b"\x09\x01\x04a\x00\x00\x00\x00",
        _ => b"\x09\x01\x04a\x00\x00\x00\x01\x04b\x00\x00\x00\x00",
    }
}

// The code of a value in a direction.
fn written<R: Abort>(rt: &R, alloc: Global, value: &Value, dir: Dir) -> Vec<u8> {
    let mut bytes = Vec::new(alloc);
    encode(value, dir, &mut bytes).expect(rt, "memory");
    bytes
}

// Whether each byte is the other's complement.
fn are_opposite(descending: &[u8], ascending: &[u8]) -> bool {
    for (d, a) in descending.iter().zip(ascending) {
        if *d != 255 - *a {
            return false;
        }
    }
    descending.len() == ascending.len()
}

// Whether a value has this code, and the opposite one in the other direction.
fn is_written<R: Abort>(rt: &R, alloc: Global, value: Value, expected: &[u8]) -> bool {
    let ascending = written(rt, alloc, &value, Dir::Asc);
    let descending = written(rt, alloc, &value, Dir::Desc);
    drop(value);
    ascending.as_slice() == expected && are_opposite(descending.as_slice(), expected)
}

#[test]
fn values_are_written(rt: HostRuntime) {
    for i in 0..VALUES {
        let value = value(&rt, rt.alloc(), i);
        assert!(rt; is_written(&rt, rt.alloc(), value, code(i)), "value {i}");
    }
}

// Whether a value is found, and this one.
fn is_found(found: &Option<Value>, expected: &Value) -> bool {
    match found {
        Some(found) => same(found, expected),
        None => false,
    }
}

// Whether bytes are the code of this value.
fn is_read<R: Abort>(rt: &R, alloc: Global, bytes: &[u8], expected: Value) -> bool {
    let found = decode(alloc, bytes).expect(rt, "memory");
    let is = is_found(&found, &expected);
    drop(found);
    drop(expected);
    is
}

// Whether bytes are the code of no value.
fn is_no_code<R: Abort>(rt: &R, alloc: Global, bytes: &[u8]) -> bool {
    let found = decode(alloc, bytes).expect(rt, "memory");
    let is = found.is_none();
    drop(found);
    is
}

#[test]
fn codes_are_read(rt: HostRuntime) {
    for i in 0..VALUES {
        let expected = value(&rt, rt.alloc(), i);
        let bytes = code(i);
        assert!(rt; is_read(&rt, rt.alloc(), bytes, expected), "value {i}");
        let shorter = &bytes[..bytes.len().saturating_sub(1)];
        assert!(rt; is_no_code(&rt, rt.alloc(), shorter), "value {i}");
    }
}

/// The number of codes below.
const NO_CODES: usize = 14;

// Bytes that are the code of no value.
fn no_code(at: usize) -> &'static [u8] {
    match at {
        0 => b"",
        // No tag, and no truth value.
        1 => b"\x0a",
        2 => b"\x01\x02",
        // A byte behind a code.
        3 => b"\x00\x00",
        // A chararray that is not UTF-8, and a zero byte alone.
        4 => b"\x04\xff\x00\x00",
        5 => b"\x05\x00\x01\x00\x00",
        // No mark before an item.
        6 => b"\x06\x02\x00\x00",
        // A bag that descends, and one of a null.
        7 => b"\x07\x01\x06\x01\x01\x01\x00\x01\x06\x01\x01\x00\x00\x00",
        8 => b"\x07\x01\x00\x00",
        // Keys that descend, a key that is twice there, one that is a bytearray, and one that is not UTF-8.
        9 => b"\x09\x01\x04b\x00\x00\x00\x01\x04a\x00\x00\x00\x00",
        10 => b"\x09\x01\x04a\x00\x00\x00\x01\x04a\x00\x00\x00\x00",
        11 => b"\x09\x01\x05a\x00\x00\x00\x00",
        12 => b"\x09\x01\x04\xff\x00\x00\x00\x00",
        // A descending code.
        _ => b"\xfe\xff",
    }
}

#[test]
fn bytes_off_the_grammar(rt: HostRuntime) {
    for i in 0..NO_CODES {
        assert!(rt; is_no_code(&rt, rt.alloc(), no_code(i)), "case {i}");
    }
}

// The null inside so many tuples.
fn nested_null<R: Abort>(rt: &R, alloc: Global, tuples: usize) -> Value {
    let mut value = Value::Null;
    for _ in 0..tuples {
        let mut row = Seq::new(alloc);
        push(rt, &mut row, value);
        value = Value::Tuple(row);
    }
    value
}

// Whether the null inside so many tuples is read from its code.
fn nested_is_read<R: Abort>(rt: &R, alloc: Global, tuples: usize) -> bool {
    let deepest = nested_null(rt, alloc, tuples);
    let bytes = written(rt, alloc, &deepest, Dir::Asc);
    is_read(rt, alloc, bytes.as_slice(), deepest)
}

// Whether the null inside so many tuples is refused when its code is read.
fn nested_is_refused<R: Abort>(rt: &R, alloc: Global, tuples: usize) -> bool {
    let deeper = nested_null(rt, alloc, tuples);
    let bytes = written(rt, alloc, &deeper, Dir::Asc);
    let found = decode(alloc, bytes.as_slice());
    let is = found.is_err();
    drop(found);
    drop(deeper);
    is
}

#[test]
fn values_nest_256_deep(rt: HostRuntime) {
    assert!(rt; nested_is_read(&rt, rt.alloc(), 255));
    assert!(rt; nested_is_refused(&rt, rt.alloc(), 256));
}

// Whether a value is this one.
fn is_same(found: Value, expected: Value) -> bool {
    let is = same(&found, &expected);
    drop(found);
    drop(expected);
    is
}

// Whether bytes are the code of just this row of booleans.
fn is_row<R: Abort>(rt: &R, alloc: Global, bytes: &[u8], fields: &[bool]) -> bool {
    match decode_row(alloc, bytes).expect(rt, "memory") {
        Some(found) => is_same(
            Value::Tuple(found),
            Value::Tuple(booleans(rt, alloc, fields)),
        ),
        None => false,
    }
}

fn is_no_row<R: Abort>(rt: &R, alloc: Global, bytes: &[u8]) -> bool {
    let found = decode_row(alloc, bytes).expect(rt, "memory");
    found.is_none()
}

// Whether a row of booleans has this code, behind a byte that stands there.
fn row_is_written<R: Abort>(rt: &R, alloc: Global, fields: &[bool], expected: &[u8]) -> bool {
    let row = booleans(rt, alloc, fields);
    let mut bytes = Vec::from_slice(alloc, b"\x07").expect(rt, "memory");
    encode_row(&row, &mut bytes).expect(rt, "memory");
    bytes.as_slice() == expected
}

#[test]
fn rows_are_written_as_tuples_and_read(rt: HostRuntime) {
    let fields = [false, true];
    let expected = b"\x07\x06\x01\x01\x00\x01\x01\x01\x00";
    assert!(rt; row_is_written(&rt, rt.alloc(), &fields, expected));
    assert!(rt;
        is_row(
            &rt,
            rt.alloc(),
            b"\x06\x01\x01\x00\x01\x01\x01\x00",
            &fields
        )
    );
    // The null is no row, and one without its end is none.
    assert!(rt; is_no_row(&rt, rt.alloc(), b"\x00"));
    assert!(rt; is_no_row(&rt, rt.alloc(), b"\x06"));
}

// Whether bytes begin with the code of this value, and then have these.
fn begins<R: Abort>(rt: &R, alloc: Global, bytes: &[u8], value: Value, behind: &[u8]) -> bool {
    let read = read_code(alloc, bytes).expect(rt, "memory");
    let begins = match &read {
        Some((found, rest)) => same(found, &value) && *rest == behind,
        None => false,
    };
    drop(read);
    drop(value);
    begins
}

// Whether bytes begin with the code of no value.
fn begins_with_none<R: Abort>(rt: &R, alloc: Global, bytes: &[u8]) -> bool {
    let read = read_code(alloc, bytes).expect(rt, "memory");
    let is = read.is_none();
    drop(read);
    is
}

#[test]
fn codes_are_read_from_the_front(rt: HostRuntime) {
    let text = chars(&rt, rt.alloc(), "a\0");
    let bytes = b"\x04a\x00\xff\x00\x00\x01\x02";
    assert!(rt; begins(&rt, rt.alloc(), bytes, text, b"\x01\x02"));
    assert!(rt; begins_with_none(&rt, rt.alloc(), b"\x04a\x00\x01\x00\x00"));
}

// Whether a key of booleans has these bytes in the directions.
fn is_key<R: Abort>(rt: &R, alloc: Global, fields: &[bool], dirs: &Dirs, expected: &[u8]) -> bool {
    let key = Value::Tuple(booleans(rt, alloc, fields));
    let mut bytes = Vec::new(alloc);
    encode_key(&key, dirs, &mut bytes).expect(rt, "memory");
    drop(key);
    bytes.as_slice() == expected
}

// First descending, then ascending.
fn two_dirs<R: Abort>(rt: &R, alloc: Global) -> Dirs {
    let mut dirs = Dirs::new(alloc);
    push(rt, &mut dirs, Dir::Desc);
    push(rt, &mut dirs, Dir::Asc);
    dirs
}

#[test]
fn keys_are_written_in_directions(rt: HostRuntime) {
    let fields = [false, true];
    let none = Dirs::new(rt.alloc());
    let ascending = b"\x06\x01\x01\x00\x01\x01\x01\x00";
    assert!(rt;
        is_key(&rt, rt.alloc(), &fields, &none, ascending),
        "no directions"
    );
    let dirs = two_dirs(&rt, rt.alloc());
    let mixed = b"\xfe\xff\x01\x01";
    assert!(rt;
        is_key(&rt, rt.alloc(), &fields, &dirs, mixed),
        "descending, then ascending"
    );
}

// Whether the fields of a row of booleans at two places have these bytes, the first descending, the second ascending.
fn is_key_at<R: Abort>(
    rt: &R,
    alloc: Global,
    fields: &[bool],
    places: &[u32],
    expected: &[u8],
) -> bool {
    let row = booleans(rt, alloc, fields);
    let dirs = two_dirs(rt, alloc);
    let mut bytes = Vec::new(alloc);
    encode_places(&row, places, &dirs, &mut bytes).expect(rt, "memory");
    drop(row);
    bytes.as_slice() == expected
}

#[test]
fn keys_are_written_from_rows(rt: HostRuntime) {
    let fields = [false, true];
    assert!(rt; is_key_at(&rt, rt.alloc(), &fields, &[1, 0], b"\xfe\xfe\x01\x00"));
    assert!(rt; is_key_at(&rt, rt.alloc(), &fields, &[1, 1], b"\xfe\xfe\x01\x01"));
    assert!(rt; is_key_at(&rt, rt.alloc(), &fields, &[7, 1], b"\xff\x01\x01"));
}
