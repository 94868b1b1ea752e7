//! Rows and keys from short texts, and rows as such texts. Where memory is wanting the process ends: that drops nothing, so
//! its proof is short.
use pig_typed::{SortKey, SortKeys};
use pig_value::{Dir, Rows, Seq, Text, Tuple, Value};
use std::alloc::Global;
use std::process::Abort;

/// Adds to a list.
pub(crate) fn push<R: Abort, T: Drop>(rt: &R, list: &mut Seq<T>, item: T) {
    list.push(item).expect(rt, "memory");
}

/// Adds to a text.
pub(crate) fn add<R: Abort>(rt: &R, into: &mut String, text: &str) {
    into.push_str(text).expect(rt, "memory");
}

/// The number that a digit is.
fn digit(byte: u8) -> u32 {
    u32::from(byte.saturating_sub(b'0'))
}

/// The value of a byte: an int of a digit, null of a dot, and a chararray of a letter up to d.
fn value<R: Abort>(rt: &R, alloc: Global, byte: u8) -> Value {
    match byte {
        b'.' => Value::Null,
        b'1' => Value::Int(1),
        b'2' => Value::Int(2),
        b'3' => Value::Int(3),
        b'a' => chars(rt, alloc, "a"),
        b'b' => chars(rt, alloc, "b"),
        b'c' => chars(rt, alloc, "c"),
        _ => chars(rt, alloc, "d"),
    }
}

fn chars<R: Abort>(rt: &R, alloc: Global, text: &str) -> Value {
    Value::Chars(Text::from_str(alloc, text).expect(rt, "memory"))
}

/// The row of a word, with a field for each byte.
fn row<R: Abort>(rt: &R, alloc: Global, word: &str) -> Tuple {
    let mut row = Tuple::new(alloc);
    for byte in word.as_bytes() {
        push(rt, &mut row, value(rt, alloc, *byte));
    }
    row
}

/// The rows of words between spaces.
pub(crate) fn rows<R: Abort>(rt: &R, alloc: Global, words: &str) -> Rows {
    let mut rows = Rows::new(alloc);
    for word in words.split(' ') {
        if !word.is_empty() {
            push(rt, &mut rows, row(rt, alloc, word));
        }
    }
    rows
}

/// The keys of words such as `+0` and `-1`: a direction and a position.
pub(crate) fn keys<R: Abort>(rt: &R, alloc: Global, words: &str) -> SortKeys {
    let mut keys = SortKeys::new(alloc);
    for word in words.split(' ') {
        if let [sign, place, ..] = word.as_bytes() {
            let dir = if *sign == b'-' { Dir::Desc } else { Dir::Asc };
            let position = digit(*place);
            push(rt, &mut keys, SortKey { position, dir });
        }
    }
    keys
}

/// Adds the word of a row behind a space, in which a long has a colon behind it.
pub(crate) fn add_row<R: Abort>(rt: &R, alloc: Global, row: &Tuple, into: &mut String) {
    add(rt, into, " ");
    for value in row.as_slice() {
        add_value(rt, alloc, value, into);
    }
}

fn add_value<R: Abort>(rt: &R, alloc: Global, value: &Value, into: &mut String) {
    match value {
        Value::Null => add(rt, into, "."),
        Value::Int(number) => add_number(rt, alloc, i64::from(*number), into),
        Value::Long(number) => {
            add_number(rt, alloc, *number, into);
            add(rt, into, ":");
        }
        Value::Chars(text) => add(rt, into, text.as_str()),
        _ => add(rt, into, "?"),
    }
}

fn add_number<R: Abort>(rt: &R, alloc: Global, number: i64, into: &mut String) {
    let word = format!(in alloc; "{number}").expect(rt, "memory");
    add(rt, into, word.as_str());
}
