//! Texts of values and their hashes, by hand. Where memory is wanting the process ends: that drops nothing, so its proof
//! is short.
// Trees end by `drop`: one call is cheap to prove, and a tree that dies by name is taken apart variant by variant.
use pig_text::{text_hash, write_row};
use pig_value::{Blob, Delim, Pair, Rows, Seq, Text, Tuple, Value};
use std::alloc::Global;
use std::process::Abort;

// Adds to a list.
fn push<R: Abort, T: Drop>(rt: &R, list: &mut Seq<T>, item: T) {
    list.push(item).expect(rt, "memory");
}

fn chars<R: Abort>(rt: &R, alloc: Global, text: &str) -> Value {
    Value::Chars(Text::from_str(alloc, text).expect(rt, "memory"))
}

fn pair_row<R: Abort>(rt: &R, alloc: Global) -> Tuple {
    let mut row = Seq::new(alloc);
    push(rt, &mut row, Value::Int(1));
    push(rt, &mut row, chars(rt, alloc, "b"));
    row
}

fn pair_rows<R: Abort>(rt: &R, alloc: Global) -> Rows {
    let mut rows = Seq::new(alloc);
    push(rt, &mut rows, pair_row(rt, alloc));
    push(rt, &mut rows, pair_row(rt, alloc));
    rows
}

fn map<R: Abort>(rt: &R, alloc: Global) -> Value {
    let key = Text::from_str(alloc, "k").expect(rt, "memory");
    let value = Value::Int(1);
    let mut pairs = Seq::new(alloc);
    push(rt, &mut pairs, Pair { key, value });
    Value::Map(pairs)
}

fn byte<R: Abort>(rt: &R, alloc: Global) -> Value {
    Value::Bytes(Blob::from_slice(alloc, b"\xff").expect(rt, "memory"))
}

// A row of each form: null, true, -5, 7, `x`, a byte, `(1,b)`, `{(1,b),(1,b)}`, `{}` and `[k#1]`.
fn each_form<R: Abort>(rt: &R, alloc: Global) -> Tuple {
    let mut row = Seq::new(alloc);
    push(rt, &mut row, Value::Null);
    push(rt, &mut row, Value::Bool(true));
    push(rt, &mut row, Value::Int(-5));
    push(rt, &mut row, Value::Long(7));
    push(rt, &mut row, chars(rt, alloc, "x"));
    push(rt, &mut row, byte(rt, alloc));
    push(rt, &mut row, Value::Tuple(pair_row(rt, alloc)));
    push(rt, &mut row, Value::Bag(pair_rows(rt, alloc)));
    push(rt, &mut row, Value::Listed(Seq::new(alloc)));
    push(rt, &mut row, map(rt, alloc));
    row
}

#[test]
fn rows_are_appended(rt: HostRuntime) {
    let row = each_form(&rt, rt.alloc());
    let mut out = Vec::from_slice(rt.alloc(), b"old\n").expect(&rt, "memory");
    write_row(&row, Delim::tab(), &mut out).expect(&rt, "memory");
    let expected: &[u8] = b"old\n\ttrue\t-5\t7\tx\t\xff\t(1,b)\t{(1,b),(1,b)}\t{}\t[k#1]\n";
    assert!(rt; out.as_slice() == expected);
    write_row(&Seq::new(rt.alloc()), Delim::tab(), &mut out).expect(&rt, "memory");
    assert!(rt; out.len() == expected.len() + 1, "the row of no fields");
}

// The hash of a value's text.
fn hash(value: Value) -> u32 {
    let found = text_hash(&value);
    drop(value);
    found
}

#[test]
fn texts_are_hashed(rt: HostRuntime) {
    assert!(rt; hash(Value::Null) == 0, "no bytes");
    // 97 * 31 + 98
    let ab = chars(&rt, rt.alloc(), "ab");
    assert!(rt; hash(ab) == 3105, "ab");
    // 40, 1289, 40003, 1240191, 38445962 from the bytes of `(1,b)`
    let tuple = Value::Tuple(pair_row(&rt, rt.alloc()));
    assert!(rt; hash(tuple) == 38445962, "a tuple");
    // "zzzzzzz" goes beyond 2 ^ 32: 122 * (31 ^ 7 - 1) / 30 = 111,884,630,714, less 26 times 2 ^ 32.
    let long = chars(&rt, rt.alloc(), "zzzzzzz");
    assert!(rt; hash(long) == 215481018, "a long text");
}
