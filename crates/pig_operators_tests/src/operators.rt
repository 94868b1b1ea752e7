//! What each operator gives of lines. Where memory is wanting the process ends: that drops nothing, so its proof is
//! short.
// Trees end by `drop`: one call is cheap to prove, and a tree that dies by name is taken apart variant by variant.
ghost use Rattle.std.specs.Prelude.{◌≡◌, []};

use crate::given::{by_field, by_row, by_second, lines_of};
use pig_operators::{Gatherer, Gathering, Orderer, distinct_keys, gather, limited, ordered};
use pig_runs::Run;
use pig_value::{Rows, Seq, Side, Tuple, Value, field_at};
use std::alloc::Global;
use std::process::Abort;

/// An operator by a letter: `g` GROUP, `c` COGROUP of two inputs, `i` of three of which the second is INNER, `j` JOIN of
/// two inputs, `k` of three, `l`, `r` and `f` the outer joins.
pub fn operator<R: Abort>(rt: &R, alloc: Global, letter: u8) -> Gathering {
    match letter {
        b'c' => cogroup(rt, alloc, &[false, false]),
        b'i' => cogroup(rt, alloc, &[false, true, false]),
        b'j' => Gathering::Join { inputs: 2 },
        b'k' => Gathering::Join { inputs: 3 },
        b'l' => outer(Side::Left),
        b'r' => outer(Side::Right),
        b'f' => outer(Side::Full),
        _ => Gathering::Group,
    }
}

fn cogroup<R: Abort>(rt: &R, alloc: Global, flags: &[bool]) -> Gathering {
    let mut inner = Seq::new(alloc);
    for flag in flags {
        inner.push(*flag).expect(rt, "memory");
    }
    Gathering::Cogroup { inner }
}

fn outer(side: Side) -> Gathering {
    Gathering::Outer {
        side,
        left: 2,
        right: 2,
    }
}

// Whether the operator gives these lines.
fn gathers<R: Abort>(rt: &R, alloc: Global, letter: u8, run: Run, expected: &[u8]) -> bool
    requires { run.dirs ≡ [] }
{
    let how = operator(rt, alloc, letter);
    let rows = gather(alloc, &how, run).expect(rt, "memory");
    let holds = are_lines(rt, alloc, &rows, expected);
    drop((how, rows));
    holds
}

fn are_lines<R: Abort>(rt: &R, alloc: Global, rows: &Rows, expected: &[u8]) -> bool {
    let lines = lines_of(alloc, rows).expect(rt, "memory");
    lines.as_slice() == expected
}

// Whether the operator gives these lines of the inputs by their first fields.
fn of_fields<R: Abort>(
    rt: &R,
    alloc: Global,
    letter: u8,
    inputs: &[&[u8]],
    expected: &[u8],
) -> bool {
    match by_field(alloc, inputs) {
        Ok(run) => gathers(rt, alloc, letter, run, expected),
        Err(_) => false,
    }
}

// The same of the inputs by their rows.
fn of_rows<R: Abort>(rt: &R, alloc: Global, letter: u8, inputs: &[&[u8]], expected: &[u8]) -> bool {
    match by_row(alloc, inputs) {
        Ok(run) => gathers(rt, alloc, letter, run, expected),
        Err(_) => false,
    }
}

const A: &[u8] = b"1\tx\n\ty\n\tz\n";

const B: &[u8] = b"1\tp\n\tq\n";

#[test]
fn null_keys_stand_apart(rt: HostRuntime) {
    let alloc = rt.alloc();
    let group = b"\t{(,y),(,z)}\n1\t{(1,x)}\n";
    assert!(rt; of_fields(&rt, alloc, b'g', &[A], group));
    let cogroup = b"\t{(,y),(,z)}\t{}\n\t{}\t{(,q)}\n1\t{(1,x)}\t{(1,p)}\n";
    assert!(rt; of_fields(&rt, alloc, b'c', &[A, B], cogroup));
    let join = b"1\tx\t1\tp\n";
    assert!(rt; of_fields(&rt, alloc, b'j', &[A, B], join));
    let left = b"\ty\t\t\n\tz\t\t\n1\tx\t1\tp\n";
    assert!(rt; of_fields(&rt, alloc, b'l', &[A, B], left));
    let right = b"\t\t\tq\n1\tx\t1\tp\n";
    assert!(rt; of_fields(&rt, alloc, b'r', &[A, B], right));
    let full = b"\ty\t\t\n\tz\t\t\n\t\t\tq\n1\tx\t1\tp\n";
    assert!(rt; of_fields(&rt, alloc, b'f', &[A, B], full));
}

// The key is the whole row, and one of the keys holds a null.
#[test]
fn a_null_within_a_key(rt: HostRuntime) {
    let alloc = rt.alloc();
    let inputs: &[&[u8]] = &[b"1\tx\n1\t\n", b"1\t\n1\tx\n1\tx\n"];
    let join = b"1\tx\t1\tx\n1\tx\t1\tx\n";
    assert!(rt; of_rows(&rt, alloc, b'j', inputs, join));
    let cogroup = b"(1,)\t{(1,)}\t{}\n(1,)\t{}\t{(1,)}\n(1,x)\t{(1,x)}\t{(1,x),(1,x)}\n";
    assert!(rt; of_rows(&rt, alloc, b'c', inputs, cogroup));
    let full = b"1\t\t\t\n\t\t1\t\n1\tx\t1\tx\n1\tx\t1\tx\n";
    assert!(rt; of_rows(&rt, alloc, b'f', inputs, full));
}

// The middle one of three inputs has no group without a row of its own.
#[test]
fn an_inner_input_keeps_groups(rt: HostRuntime) {
    let inputs: &[&[u8]] = &[b"1\tx\n2\ty\n\tn\n", b"1\tp\n3\tq\n\tm\n", b"1\tu\n2\tv\n"];
    let cogroup = b"\t{}\t{(,m)}\t{}\n1\t{(1,x)}\t{(1,p)}\t{(1,u)}\n3\t{}\t{(3,q)}\t{}\n";
    assert!(rt; of_fields(&rt, rt.alloc(), b'i', inputs, cogroup));
}

const PRODUCT: &[u8] =
    b"1\tx\t1\tp\t1\tu\n1\tx\t1\tp\t1\tv\n1\tx\t1\tp\t1\tu\n1\tx\t1\tp\t1\tv\n1\ty\t1\tp\t1\tu\n1\ty\t1\tp\t1\tv\n1\ty\t1\tp\t1\tu\n1\ty\t1\tp\t1\tv\n";

#[test]
fn a_join_of_many_rows(rt: HostRuntime) {
    let inputs: &[&[u8]] = &[
        b"1\ty\n2\tz\n1\tx\n",
        b"1\tp\n2\tr\n1\tp\n",
        b"1\tv\n1\tu\n",
    ];
    assert!(rt; of_fields(&rt, rt.alloc(), b'k', inputs, PRODUCT));
}

#[test]
fn inputs_without_partners(rt: HostRuntime) {
    let alloc = rt.alloc();
    let apart: &[&[u8]] = &[b"1\tx\n", b"2\tp\n"];
    assert!(rt; of_fields(&rt, alloc, b'f', apart, b"1\tx\t\t\n\t\t2\tp\n"));
    assert!(rt; of_fields(&rt, alloc, b'l', apart, b"1\tx\t\t\n"));
    assert!(rt; of_fields(&rt, alloc, b'j', apart, b""));
    let none: &[&[u8]] = &[b"", b"", b""];
    for letter in [b'g', b'i', b'k', b'f'] {
        assert!(rt; of_fields(&rt, alloc, letter, none, b""));
    }
}

// Whether these are the rows of the inputs, each once.
fn has_once<R: Abort>(rt: &R, alloc: Global, inputs: &[&[u8]], expected: &[u8]) -> bool {
    let Ok(run) = by_row(alloc, inputs) else {
        return false;
    };
    let rows = distinct_keys(alloc, run).expect(rt, "memory");
    are_lines(rt, alloc, &rows, expected)
}

// Whether these are the rows of the run in its order.
fn has_rows<R: Abort>(rt: &R, alloc: Global, run: Run, expected: &[u8]) -> bool {
    let rows = ordered(alloc, run).expect(rt, "memory");
    are_lines(rt, alloc, &rows, expected)
}

#[test]
fn rows_once_and_rows_in_order(rt: HostRuntime) {
    let alloc = rt.alloc();
    let inputs: &[&[u8]] = &[b"2\tx\n\ty\n2\tx\n", b"1\tz\n2\t\n\ty\n"];
    assert!(rt; has_once(&rt, alloc, inputs, b"\ty\n1\tz\n2\t\n2\tx\n"));
    let run = by_row(alloc, inputs).expect(&rt, "memory");
    assert!(rt; has_rows(&rt, alloc, run, b"\ty\n\ty\n1\tz\n2\t\n2\tx\n2\tx\n"));
}

// Rows, and the same down by the second field: nulls stand last, and ties by the whole row.
const MIXED: &[u8] = b"2\tx\n\tz\n1\tx\n3\t\n\tx\n2\tz\n1\t\n1\tx\n\t\n";

const DOWN: &[u8] = b"\tz\n2\tz\n\tx\n1\tx\n1\tx\n2\tx\n\t\n1\t\n3\t\n";

#[test]
fn rows_by_a_field_downwards(rt: HostRuntime) {
    let alloc = rt.alloc();
    let run = by_second(alloc, MIXED).expect(&rt, "memory");
    assert!(rt; has_rows(&rt, alloc, run, DOWN));
    let none = by_second(alloc, b"").expect(&rt, "memory");
    assert!(rt; has_rows(&rt, alloc, none, b""));
}

// Whether the first rows by the second field, downwards, are these.
fn has_first<R: Abort>(rt: &R, alloc: Global, count: u64, expected: &[u8]) -> bool {
    let run = by_second(alloc, MIXED).expect(rt, "memory");
    let rows = limited(alloc, run, count).expect(rt, "memory");
    are_lines(rt, alloc, &rows, expected)
}

// The first rows of these, and all where there are fewer.
#[test]
fn first_rows_in_order(rt: HostRuntime) {
    let alloc = rt.alloc();
    assert!(rt; has_first(&rt, alloc, 0, b""));
    assert!(rt; has_first(&rt, alloc, 4, b"\tz\n2\tz\n\tx\n1\tx\n"));
    assert!(rt; has_first(&rt, alloc, 9, DOWN));
    assert!(rt; has_first(&rt, alloc, u64::MAX, DOWN));
}

/// More rows than two batches hold.
const MANY: u32 = 1100;

// Lines of the numbers below MANY, each once, and in no order.
fn numbers<R: Abort>(rt: &R, alloc: Global) -> Vec<u8> {
    let mut text = Vec::new(alloc);
    for place in 0..MANY {
        // 7 and 1,100 have no divisor in common.
        let number = place.wrapping_mul(7) % MANY;
        for unit in [1000, 100, 10, 1] {
            let digit = b'0'.wrapping_add((number / unit % 10) as u8);
            text.push(digit).expect(rt, "memory");
        }
        text.extend_from_slice(b"\tx\n").expect(rt, "memory");
    }
    text
}

fn first_number(row: &Tuple) -> Option<i32> {
    match field_at(row, 0) {
        Some(Value::Int(number)) => Some(*number),
        _ => None,
    }
}

// Whether there are so many rows, of the numbers from this one on.
fn are_from(rows: &Rows, first: i32, count: usize) -> bool {
    let mut number = first;
    for row in rows.as_slice() {
        if first_number(row) != Some(number) {
            return false;
        }
        number = number.wrapping_add(1);
    }
    rows.len() == count
}

// The first number of each batch, and how many rows it has: the last ones are behind the end.
const BATCHES: [(i32, usize); 5] = [(0, 512), (512, 512), (1024, 76), (1100, 0), (1100, 0)];

#[test]
fn groups_come_in_batches(rt: HostRuntime) {
    let text = numbers(&rt, rt.alloc());
    let Ok(run) = by_field(rt.alloc(), &[text.as_slice()]) else {
        panic!(rt; "memory");
    };
    let mut gatherer = Gatherer::new(Gathering::Group, run);
    for (first, count) in BATCHES {
        let rows = gatherer.next_batch(rt.alloc()).expect(&rt, "memory");
        assert!(rt; are_from(&rows, first, count), "from {first}");
    }
    drop(gatherer);
}

// The second fields are all the same, so the rows go up.
#[test]
fn ordered_rows_come_in_batches(rt: HostRuntime) {
    let text = numbers(&rt, rt.alloc());
    let run = by_second(rt.alloc(), text.as_slice()).expect(&rt, "memory");
    let mut orderer = Orderer::new(run);
    for (first, count) in BATCHES {
        let rows = orderer.next_batch(rt.alloc()).expect(&rt, "memory");
        assert!(rt; are_from(&rows, first, count), "from {first}");
    }
}
