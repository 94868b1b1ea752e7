//! Parts of three rows, merged in each order and grouping, end with what the function gives of the three.
//!
//! Where memory is wanting the process ends: that drops nothing, so its proof is short.
use pig_algebra::{Algebraic, CountPart, DistinctPart, MaxPart, MinPart, StarPart, SumPart};
use pig_value::{Seq, Text, Tuple, Value, same};
use std::alloc::Global;
use std::process::Abort;

// A function, three rows, and its value on them. A row is its fields, joined by commas: `-` a null, `5` a long, and
// other words chararrays.
const TABLE: &str = "COUNT -,1 x,1 y,- = 2
COUNT - - - = 0
COUNT -,1 -,2 -,3 = 0
COUNT_STAR -,1 x,1 - = 3
SUM - - - = -
SUM - 5 - = 5
SUM 1 2 3 = 6
SUM 9223372036854775807 1 5 = -9223372036854775803
SUM -9223372036854775808 -1 - = 9223372036854775807
MIN - - - = -
MIN b - a = a
MIN 3 -2 7 = -2
MAX - - - = -
MAX b - a = b
MAX 3 -2 7 = 7
DISTINCT x,1 x,1 x,1 = x,1
DISTINCT - - - = -";

// The orders of three rows.
const ORDERS: [[usize; 3]; 6] = [
    [0, 1, 2],
    [0, 2, 1],
    [1, 0, 2],
    [1, 2, 0],
    [2, 0, 1],
    [2, 1, 0],
];

fn text<R: Abort>(rt: &R, alloc: Global, word: &str) -> Value {
    let text = String::from_str(alloc, word).expect(rt, "memory");
    Value::Chars(Text::from_string(text))
}

fn field<R: Abort>(rt: &R, alloc: Global, word: &str) -> Value {
    if word == "-" {
        return Value::Null;
    }
    match word.parse::<i64>().ok() {
        Some(n) => Value::Long(n),
        None => text(rt, alloc, word),
    }
}

fn row<R: Abort>(rt: &R, alloc: Global, words: &str) -> Tuple {
    let mut row = Seq::new(alloc);
    for word in words.split(',') {
        row.push(field(rt, alloc, word)).expect(rt, "memory");
    }
    row
}

// The word at a place.
fn word(words: &str, place: usize) -> &str {
    words.split_ascii_whitespace().nth(place).unwrap_or("-")
}

fn part<R: Abort, A: Algebraic>(rt: &R, alloc: Global, function: &A, words: &str) -> A::Part {
    let row = row(rt, alloc, words);
    let part = function.initial(alloc, &row).expect(rt, "memory");
    drop(row);
    part
}

fn both<R: Abort, A: Algebraic>(
    rt: &R,
    alloc: Global,
    function: &A,
    a: A::Part,
    b: A::Part,
) -> A::Part {
    function.merge(alloc, a, b).expect(rt, "memory")
}

fn value_of<R: Abort, A: Algebraic>(rt: &R, alloc: Global, function: &A, part: A::Part) -> Value {
    function.finish(alloc, part).expect(rt, "memory")
}

// The value of three rows, of which the first two are merged first.
fn from_front<R: Abort, A: Algebraic>(
    rt: &R,
    alloc: Global,
    function: &A,
    rows: [&str; 3],
) -> Value {
    let a = part(rt, alloc, function, rows[0]);
    let b = part(rt, alloc, function, rows[1]);
    let front = both(rt, alloc, function, a, b);
    let c = part(rt, alloc, function, rows[2]);
    let whole = both(rt, alloc, function, front, c);
    value_of(rt, alloc, function, whole)
}

// The value of three rows, of which the last two are merged first.
fn from_behind<R: Abort, A: Algebraic>(
    rt: &R,
    alloc: Global,
    function: &A,
    rows: [&str; 3],
) -> Value {
    let b = part(rt, alloc, function, rows[1]);
    let c = part(rt, alloc, function, rows[2]);
    let behind = both(rt, alloc, function, b, c);
    let a = part(rt, alloc, function, rows[0]);
    let whole = both(rt, alloc, function, a, behind);
    value_of(rt, alloc, function, whole)
}

// Whether the rows in this order end with the value, in both groupings.
fn ends_with<R: Abort, A: Algebraic>(
    rt: &R,
    alloc: Global,
    function: &A,
    rows: &str,
    order: &[usize; 3],
    wanted: &Value,
) -> bool {
    let rows = [
        word(rows, order[0]),
        word(rows, order[1]),
        word(rows, order[2]),
    ];
    let found = from_front(rt, alloc, function, rows);
    let other = from_behind(rt, alloc, function, rows);
    let right = same(&found, wanted) && same(&other, wanted);
    drop((found, other));
    right
}

fn in_each_order<R: Abort, A: Algebraic>(
    rt: &R,
    alloc: Global,
    function: &A,
    rows: &str,
    wanted: &Value,
) -> bool {
    for order in &ORDERS {
        if !ends_with(rt, alloc, function, rows, order, wanted) {
            return false;
        }
    }
    true
}

// Whether the line holds: its rows stand behind its function's name.
fn holds<R: Abort>(rt: &R, alloc: Global, name: &str, rows: &str, wanted: &Value) -> bool {
    match name {
        "COUNT" => in_each_order(rt, alloc, &CountPart, rows, wanted),
        "COUNT_STAR" => in_each_order(rt, alloc, &StarPart, rows, wanted),
        "SUM" => in_each_order(rt, alloc, &SumPart, rows, wanted),
        "MIN" => in_each_order(rt, alloc, &MinPart, rows, wanted),
        "MAX" => in_each_order(rt, alloc, &MaxPart, rows, wanted),
        _ => in_each_order(rt, alloc, &DistinctPart, rows, wanted),
    }
}

// What a function gives: of DISTINCT the row as a tuple.
fn value<R: Abort>(rt: &R, alloc: Global, name: &str, words: &str) -> Value {
    if name == "DISTINCT" {
        Value::Tuple(row(rt, alloc, words))
    } else {
        field(rt, alloc, words)
    }
}

fn line_holds<R: Abort>(rt: &R, alloc: Global, line: &str) -> bool {
    let (call, words) = line.split_once(" = ").unwrap_or((line, ""));
    let (name, rows) = call.split_once(" ").unwrap_or((call, ""));
    let wanted = value(rt, alloc, name, words);
    let right = holds(rt, alloc, name, rows, &wanted);
    drop(wanted);
    right
}

#[test]
fn parts_end_with_the_value_in_each_order(rt: HostRuntime) {
    for line in TABLE.lines() {
        assert!(rt; line_holds(&rt, rt.alloc(), line), "{line}");
    }
}
