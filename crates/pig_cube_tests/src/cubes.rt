//! The rows that the block of a cube makes of a row.
// Trees end by `drop`: one call is cheap to prove, and a tree that dies by name is taken apart variant by variant.
use crate::making::{block_of, positions, push};
use pig_cube::are_dimensions;
use pig_nested::foreach;
use pig_value::{Rows, Seq, Text, Tuple, Value, order_rows};
use std::alloc::Global;
use std::cmp::Ordering;
use std::process::Abort;

// A line for each row: the dimensions, `cube` or `rollup`, the row, and the rows that it becomes, in the order of a bag.
// A field is null `-`, an int after `#`, or a text.
const TABLE: &str = "\
01|cube|car,2012,#10|-,-,#10 -,2012,#10 car,-,#10 car,2012,#10
01|cube|-,2012,#5|-,-,#5 -,2012,#5 unknown,-,#5 unknown,2012,#5
01|rollup|car,2012,#10|-,-,#10 car,-,#10 car,2012,#10
01|rollup|-,2012,#5|-,-,#5 unknown,-,#5 unknown,2012,#5
01|cube|-,-,-|-,-,- -,unknown,- unknown,-,- unknown,unknown,-
01|cube|unknown,x,#1|-,-,#1 -,x,#1 unknown,-,#1 unknown,x,#1
0|cube|car,2012,#10|-,2012,#10 car,2012,#10
0|rollup|-,2012,#5|-,2012,#5 unknown,2012,#5
0|cube|car,-,-|-,-,- car,-,-
20|cube|car,#10,-|-,-,#10 -,car,#10 unknown,-,#10 unknown,car,#10
20|rollup|car,#10,-|-,-,#10 unknown,-,#10 unknown,car,#10
1|rollup|#1,b,#3|-,#1,#3 b,#1,#3
210|rollup|a,b,c|-,-,- c,-,- c,b,- c,b,a
";

fn value<R: Abort>(rt: &R, alloc: Global, text: &str) -> Value {
    if text == "-" {
        return Value::Null;
    }
    match text.strip_prefix('#') {
        Some(digits) => Value::Int(digits.parse().unwrap_or(0)),
        None => Value::Chars(Text::from_str(alloc, text).expect(rt, "memory")),
    }
}

fn row_of<R: Abort>(rt: &R, alloc: Global, text: &str) -> Tuple {
    let mut row = Seq::new(alloc);
    for part in text.split(',') {
        push(rt, &mut row, value(rt, alloc, part));
    }
    row
}

fn rows_of<R: Abort>(rt: &R, alloc: Global, text: &str) -> Rows {
    let mut rows = Seq::new(alloc);
    for part in text.split(' ') {
        push(rt, &mut rows, row_of(rt, alloc, part));
    }
    rows
}

// Whether the rows are the same, in the same order.
fn are_same(a: &Rows, b: &Rows) -> bool {
    let a = a.as_slice();
    let b = b.as_slice();
    if a.len() != b.len() {
        return false;
    }
    for i in 0..a.len() {
        if order_rows(&a[i], &b[i]) != Ordering::Equal {
            return false;
        }
    }
    true
}

// The rows that the block makes of a row of three fields; none where these are no dimensions.
fn made<R: Abort>(rt: &R, alloc: Global, dims: &str, rollup: bool, row: &str) -> Rows {
    let given = row_of(rt, alloc, row);
    match block_of(rt, alloc, dims, 3, rollup) {
        Some(block) => {
            let found = foreach(alloc, &block, &given).expect(rt, "memory");
            drop(block);
            found
        }
        None => Seq::new(alloc),
    }
}

// Whether a line of the table holds.
fn holds<R: Abort>(rt: &R, alloc: Global, line: &str) -> bool {
    let (dims, rest) = line.split_once('|').unwrap_or((line, ""));
    let (kind, rest) = rest.split_once('|').unwrap_or((rest, ""));
    let (row, wanted) = rest.split_once('|').unwrap_or((rest, ""));
    let found = made(rt, alloc, dims, kind == "rollup", row);
    are_same(&found, &rows_of(rt, alloc, wanted))
}

#[test]
fn rows_become_those_of_the_chosen_sets(rt: HostRuntime) {
    for line in TABLE.lines() {
        assert!(rt; holds(&rt, rt.alloc(), line));
    }
}

// The number of rows that a row of nine texts becomes by the first eight.
fn count<R: Abort>(rt: &R, alloc: Global, rollup: bool) -> usize {
    let given = row_of(rt, alloc, "a,b,c,d,e,f,g,h,i");
    match block_of(rt, alloc, "01234567", 9, rollup) {
        Some(block) => {
            let found = foreach(alloc, &block, &given).expect(rt, "memory");
            drop(block);
            found.len()
        }
        None => 0,
    }
}

#[test]
fn eight_dimensions_have_256_sets_and_9_prefixes(rt: HostRuntime) {
    let sets = count(&rt, rt.alloc(), false);
    let prefixes = count(&rt, rt.alloc(), true);
    assert!(rt; sets == 256 && prefixes == 9);
}

// A line for each list of positions, with the width of rows, and whether it may be the dimensions of these.
const DIMENSIONS: &str = "\
|3|no
2|3|yes
3|3|no
010|3|no
20|512|yes
20|513|no
76543210|8|yes
876543210|9|no
";

// Whether a line of the dimensions holds.
fn is_as_said<R: Abort>(rt: &R, alloc: Global, line: &str) -> bool {
    let (digits, rest) = line.split_once('|').unwrap_or((line, ""));
    let (width, wanted) = rest.split_once('|').unwrap_or((rest, ""));
    let dims = positions(rt, alloc, digits);
    are_dimensions(&dims, width.parse().unwrap_or(0)) == (wanted == "yes")
}

#[test]
fn dimensions_are_1_to_8_distinct_positions(rt: HostRuntime) {
    for line in DIMENSIONS.lines() {
        assert!(rt; is_as_said(&rt, rt.alloc(), line));
    }
}
