//! Values by hand, in ascending order, against each call. Where memory is wanting the process ends: that drops nothing,
//! so its proof is short.
// Trees end by `drop`: one call is cheap to prove, and a tree that dies by name is taken apart variant by variant.
use pig_value::{
    Blob, Boxed, Function, Kind, Pair, Rows, Seq, Text, Tuple, Value, bag, casts_to, copy,
    copy_kind, copy_kinds, copy_row, field_at, holds_bag_or_map, is_of, kind_depth, kind_width,
    order, order_rows, same, same_kind,
};
use std::alloc::Global;
use std::cmp::Ordering;
use std::process::Abort;

// Adds to a list.
fn push<R: Abort, T: Drop>(rt: &R, list: &mut Seq<T>, item: T) {
    list.push(item).expect(rt, "memory");
}

// A list of one.
fn one<R: Abort, T: Drop>(rt: &R, alloc: Global, item: T) -> Seq<T> {
    let mut list = Seq::new(alloc);
    push(rt, &mut list, item);
    list
}

fn chars<R: Abort>(rt: &R, alloc: Global, text: &str) -> Value {
    Value::Chars(Text::from_str(alloc, text).expect(rt, "memory"))
}

fn ints<R: Abort>(rt: &R, alloc: Global, numbers: &[i32]) -> Tuple {
    let mut row = Seq::new(alloc);
    for number in numbers {
        push(rt, &mut row, Value::Int(*number));
    }
    row
}

// A list of two.
fn two<R: Abort, T: Drop>(rt: &R, alloc: Global, first: T, second: T) -> Seq<T> {
    let mut list = one(rt, alloc, first);
    push(rt, &mut list, second);
    list
}

// Rows of one field each.
fn rows<R: Abort>(rt: &R, alloc: Global, numbers: &[i32]) -> Rows {
    let mut rows = Seq::new(alloc);
    for number in numbers {
        push(rt, &mut rows, one(rt, alloc, Value::Int(*number)));
    }
    rows
}

fn bytes<R: Abort>(rt: &R, alloc: Global, bytes: &[u8]) -> Value {
    Value::Bytes(Blob::from_slice(alloc, bytes).expect(rt, "memory"))
}

fn pair<R: Abort>(rt: &R, alloc: Global, key: &str, number: i32) -> Pair {
    Pair {
        key: Text::from_str(alloc, key).expect(rt, "memory"),
        value: Value::Int(number),
    }
}

/// The number of values below.
const VALUES: usize = 24;

// The values in ascending order.
fn value<R: Abort>(rt: &R, alloc: Global, at: usize) -> Value {
    match at {
        0 => Value::Null,
        1 => Value::Bool(false),
        2 => Value::Bool(true),
        3 => Value::Int(-1),
        4 => Value::Int(2),
        5 => Value::Long(-5),
        6 => Value::Long(3),
        7 => chars(rt, alloc, ""),
        8 => chars(rt, alloc, "ab"),
        9 => chars(rt, alloc, "b"),
        10 => bytes(rt, alloc, b"a"),
        11 => bytes(rt, alloc, b"\xff"),
        12 => Value::Tuple(Seq::new(alloc)),
        13 => Value::Tuple(ints(rt, alloc, &[1])),
        14 => Value::Tuple(ints(rt, alloc, &[1, 0])),
        15 => Value::Tuple(one(rt, alloc, Value::Bag(rows(rt, alloc, &[1])))),
        16 => Value::Bag(Seq::new(alloc)),
        17 => Value::Bag(rows(rt, alloc, &[1])),
        18 => Value::Bag(rows(rt, alloc, &[1, 1])),
        19 => Value::Listed(Seq::new(alloc)),
        20 => Value::Listed(rows(rt, alloc, &[2, 1])),
        21 => Value::Map(Seq::new(alloc)),
        22 => Value::Map(two(rt, alloc, pair(rt, alloc, "a", 1), pair(rt, alloc, "b", 0))),
        _ => Value::Map(one(rt, alloc, pair(rt, alloc, "a", 2))),
    }
}

// The kind that a letter stands for; tuples, bags and maps are of ints.
fn kind<R: Abort>(rt: &R, alloc: Global, letter: u8) -> Kind {
    match letter {
        b'b' => Kind::Boolean,
        b'i' => Kind::Int,
        b'l' => Kind::Long,
        b'c' => Kind::Chararray,
        b'y' => Kind::Bytearray,
        b't' => Kind::Tuple(one(rt, alloc, Kind::Int)),
        b'g' => Kind::Bag(one(rt, alloc, Kind::Int)),
        _ => Kind::Map(Boxed::new(alloc, Kind::Int).expect(rt, "memory")),
    }
}

// A tuple of a bag of ints and a map of ints.
fn deep_kind<R: Abort>(rt: &R, alloc: Global) -> Kind {
    let kinds = two(rt, alloc, kind(rt, alloc, b'g'), kind(rt, alloc, b'm'));
    Kind::Tuple(copy_kinds(alloc, kinds.as_slice()).expect(rt, "memory"))
}

/// The kind of each value by its letter; null is of every kind, and the tuples at a dash are of none of these.
const LETTERS: &[u8; VALUES] = b"*bbiillcccyy-t--gggggmmm";

fn letter(at: usize) -> u8 {
    match LETTERS.get(at) {
        Some(letter) => *letter,
        None => b'-',
    }
}

// Whether a kind casts to another, by their letters.
fn casts(from: u8, to: u8) -> bool {
    match from {
        b'y' => true,
        b'b' => to == b'b' || to == b'c',
        b'i' | b'l' => to == b'i' || to == b'l' || to == b'c',
        b'c' => to == b'b' || to == b'i' || to == b'l' || to == b'c',
        _ => to == from,
    }
}

// Whether a copy of a value stands to another as their places do, and is the same only at its own place.
fn values_stand<R: Abort>(rt: &R, alloc: Global, i: usize, j: usize) -> bool {
    let given = value(rt, alloc, i);
    let a = copy(alloc, &given).expect(rt, "memory");
    let b = value(rt, alloc, j);
    let ordered = order(&a, &b) == i.cmp(&j);
    let are_same = same(&a, &b);
    drop(given);
    drop(a);
    drop(b);
    ordered && are_same == (i == j)
}

// Whether a value is of a kind where its letter says so.
fn value_is_of<R: Abort>(rt: &R, alloc: Global, at: usize, of: u8) -> bool {
    let given = value(rt, alloc, at);
    let kind = kind(rt, alloc, of);
    let is = is_of(&given, &kind);
    drop(given);
    drop(kind);
    is == (at == 0 || letter(at) == of)
}

// Whether a copy of a kind is the same as another where their letters are, and casts to it where it should.
fn kinds_stand<R: Abort>(rt: &R, alloc: Global, a: u8, b: u8) -> bool {
    let given = kind(rt, alloc, a);
    let copied = copy_kind(alloc, &given).expect(rt, "memory");
    let other = kind(rt, alloc, b);
    let are_same = same_kind(&copied, &other);
    let cast = casts_to(&copied, &other);
    drop(given);
    drop(copied);
    drop(other);
    are_same == (a == b) && cast == casts(a, b)
}

// Whether a letter is that of a kind.
fn is_kind(letter: u8) -> bool {
    letter != b'*' && letter != b'-'
}

// Whether a value and its kind stand to another value and its kind as they should.
fn pair_stands<R: Abort>(rt: &R, alloc: Global, i: usize, j: usize) -> bool {
    let a = letter(i);
    let b = letter(j);
    values_stand(rt, alloc, i, j)
        && (!is_kind(b) || value_is_of(rt, alloc, i, b))
        && (!is_kind(a) || !is_kind(b) || kinds_stand(rt, alloc, a, b))
}

#[test]
fn values_and_kinds_stand(rt: HostRuntime) {
    for i in 0..VALUES {
        for j in 0..VALUES {
            assert!(rt; pair_stands(&rt, rt.alloc(), i, j), "value {i} against {j}");
        }
    }
}

// Whether a value is this one.
fn is(found: Value, expected: Value) -> bool {
    let is = same(&found, &expected);
    drop(found);
    drop(expected);
    is
}

// Whether rows of one number each make a bag that holds these in the same order.
fn sorts<R: Abort>(rt: &R, alloc: Global, before: &[i32], after: &[i32]) -> bool {
    let sorted = bag(rows(rt, alloc, before));
    is(Value::Listed(sorted), Value::Listed(rows(rt, alloc, after)))
}

/// More rows than are sorted one by another at once.
const MANY: u16 = 300;

// A value of a form that grows with the number.
fn grown<R: Abort>(rt: &R, alloc: Global, form: u8, number: u16) -> Value {
    match form {
        b'i' => Value::Int(i32::from(number).wrapping_sub(150)),
        b'l' => Value::Long(i64::from(number).wrapping_sub(150)),
        b'y' => bytes(rt, alloc, &number.to_be_bytes()),
        _ => grown_text(rt, alloc, number),
    }
}

// Characters of two bytes and more, whose codes go like their numbers.
fn grown_text<R: Abort>(rt: &R, alloc: Global, number: u16) -> Value {
    let code = u32::from(number).wrapping_add(1950);
    let mut text = String::new(alloc);
    text.push(char::from_u32(code).unwrap_or('?'))
        .expect(rt, "memory");
    Value::Chars(Text::from_string(text))
}

// Rows of each number once, by a step that has no divisor in common with their count.
fn many<R: Abort>(rt: &R, alloc: Global, form: u8, step: u16) -> Rows {
    let mut rows = Seq::new(alloc);
    for place in 0..MANY {
        let number = place.wrapping_mul(step) % MANY;
        let row = two(rt, alloc, Value::Int(1), grown(rt, alloc, form, number));
        push(rt, &mut rows, row);
    }
    rows
}

// Whether many rows in no order make a bag that has them by their numbers.
fn sorts_many<R: Abort>(rt: &R, alloc: Global, form: u8) -> bool {
    let sorted = bag(many(rt, alloc, form, 7));
    is(
        Value::Listed(sorted),
        Value::Listed(many(rt, alloc, form, 1)),
    )
}

// Whether a kind has this width and depth, and whether it holds a bag or a map.
fn measures(kind: Kind, width: usize, depth: usize, holds: bool) -> bool {
    let wide = kind_width(&kind) == width;
    let deep = kind_depth(&kind) == depth;
    let held = holds_bag_or_map(&kind) == holds;
    drop(kind);
    wide && deep && held
}

// A list to which two were added.
fn grown_list<R: Abort>(rt: &R, alloc: Global) -> Tuple {
    let mut row = Seq::with_capacity(alloc, 2).expect(rt, "memory");
    push(rt, &mut row, Value::Int(7));
    row.extend(ints(rt, alloc, &[8, 9])).expect(rt, "memory");
    row
}

// Whether a field is this int.
fn is_int(row: &Tuple, place: u32, number: i32) -> bool {
    match field_at(row, place) {
        Some(found) => order(found, &Value::Int(number)) == Ordering::Equal,
        None => false,
    }
}

// Whether the row of 7, 8 and 9 copies as this one, has its fields at their places, and none behind them.
fn copies<R: Abort>(rt: &R, alloc: Global, row: Tuple, expected: Tuple) -> bool {
    let copied = copy_row(alloc, &row).expect(rt, "memory");
    let ordered = order_rows(&copied, &expected);
    let whole = is_int(&row, 1, 8) && row.len() == 3 && field_at(&row, 3).is_none();
    drop(row);
    drop(copied);
    drop(expected);
    ordered == Ordering::Equal && whole
}

// Bytes to which two were added.
fn grown_bytes<R: Abort>(rt: &R, alloc: Global) -> Blob {
    let mut bytes = Blob::new(alloc);
    bytes.push(1).expect(rt, "memory");
    bytes.extend_from_slice(&[2, 255]).expect(rt, "memory");
    bytes
}

// Whether bytes copy as these, and have none behind them.
fn copies_bytes<R: Abort>(rt: &R, alloc: Global, found: Blob, expected: &[u8]) -> bool {
    let copied = found.copy(alloc).expect(rt, "memory");
    let last = found.get(2);
    let behind = found.get(3);
    let are = copied.as_slice() == expected;
    drop(found);
    drop(copied);
    are && last == Some(255) && behind == None
}

// Whether a function has this name and gives it back.
fn is_function(name: &str) -> bool {
    match Function::named(name) {
        Some(found) => found.name() == name,
        None => false,
    }
}

/// The number of rows below.
const ROWS: usize = 19;

// Whether a row holds: bags of few and of many rows, kinds measured, lists and bytes that grow, names of no function.
fn holds<R: Abort>(rt: &R, alloc: Global, at: usize) -> bool {
    match at {
        0 => sorts(rt, alloc, &[], &[]),
        1 => sorts(rt, alloc, &[7], &[7]),
        2 => sorts(rt, alloc, &[2, 2, 2], &[2, 2, 2]),
        3 => sorts(rt, alloc, &[3, -1, 2, -1, 3], &[-1, -1, 2, 3, 3]),
        4 => sorts_many(rt, alloc, b'i'),
        5 => sorts_many(rt, alloc, b'l'),
        6 => sorts_many(rt, alloc, b'y'),
        7 => sorts_many(rt, alloc, b'c'),
        8 => measures(Kind::Int, 1, 1, false),
        9 => measures(kind(rt, alloc, b't'), 2, 2, false),
        10 => measures(kind(rt, alloc, b'g'), 2, 2, true),
        11 => measures(kind(rt, alloc, b'm'), 2, 2, true),
        12 => measures(deep_kind(rt, alloc), 5, 3, true),
        13 => copies(
            rt,
            alloc,
            grown_list(rt, alloc),
            ints(rt, alloc, &[7, 8, 9]),
        ),
        14 => copies_bytes(rt, alloc, grown_bytes(rt, alloc), &[1, 2, 255]),
        15 => !is_function("AVG"),
        16 => !is_function("count"),
        17 => !is_function("ISEMPTY"),
        _ => !is_function(""),
    }
}

#[test]
fn rows_hold(rt: HostRuntime) {
    for at in 0..ROWS {
        assert!(rt; holds(&rt, rt.alloc(), at), "row {at}");
    }
}

/// Each function by its name.
const NAMES: [&str; 16] = [
    "COUNT",
    "COUNT_STAR",
    "SUM",
    "MIN",
    "MAX",
    "SIZE",
    "CONCAT",
    "IsEmpty",
    "TOKENIZE",
    "SUBSTRING",
    "STARTSWITH",
    "ENDSWITH",
    "INDEXOF",
    "ABS",
    "TOTUPLE",
    "TOBAG",
];

#[test]
fn functions_have_names(rt: HostRuntime) {
    for name in &NAMES {
        assert!(rt; is_function(name), "{name}");
    }
}
