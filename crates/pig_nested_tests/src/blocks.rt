//! Blocks on a row each, and the rows that they make.
// Trees end by `drop`: one call is cheap to prove, and a tree that dies by name is taken apart variant by variant.
use crate::making::{
    are_same, chars, flat, generate, keys, number, numbers, of_step, part_of_local, plain, push,
    singles, triples,
};
use pig_nested::foreach;
use pig_typed::{Block, BlockStep, TExpr};
use pig_value::{Boxed, Dir, Rel, Rows, Seq, Tuple, Value, order};
use std::alloc::Global;
use std::cmp::Ordering;
use std::process::Abort;

// Whether a block makes just these rows of one.
fn makes<R: Abort>(rt: &R, alloc: Global, block: Block, row: &Tuple, expected: &Rows) -> bool {
    let found = foreach(alloc, &block, row).expect(rt, "memory");
    drop(block);
    are_same(&found, expected)
}

// Whether two values are the same.
fn is_same(a: &Value, b: &Value) -> bool {
    order(a, b) == Ordering::Equal
}

// ---- a nested ORDER, and what stands on it

fn triple<R: Abort>(rt: &R, alloc: Global, n: i32, text: &str) -> Tuple {
    let mut row = Seq::new(alloc);
    push(rt, &mut row, chars(rt, alloc, "k"));
    push(rt, &mut row, Value::Int(n));
    push(rt, &mut row, chars(rt, alloc, text));
    row
}

fn pair<R: Abort>(rt: &R, alloc: Global, n: i32, text: &str) -> Tuple {
    let mut row = Seq::new(alloc);
    push(rt, &mut row, Value::Int(n));
    push(rt, &mut row, chars(rt, alloc, text));
    row
}

// A group of three rows, in the order of rows.
fn group<R: Abort>(rt: &R, alloc: Global) -> Tuple {
    let mut rows = Seq::new(alloc);
    push(rt, &mut rows, triple(rt, alloc, 1, "y"));
    push(rt, &mut rows, triple(rt, alloc, 1, "z"));
    push(rt, &mut rows, triple(rt, alloc, 2, "b"));
    let mut row = Seq::new(alloc);
    push(rt, &mut row, chars(rt, alloc, "k"));
    push(rt, &mut row, Value::Bag(rows));
    row
}

// o = ORDER a BY n; t = LIMIT o 1; GENERATE group, t, o.(n,s)
fn first_by_number<R: Abort>(rt: &R, alloc: Global) -> Block {
    let mut block = generate(alloc);
    push(
        rt,
        &mut block.steps,
        BlockStep::Order {
            from: TExpr::Field(1),
            keys: keys(rt, alloc, 1, Dir::Asc),
        },
    );
    push(
        rt,
        &mut block.steps,
        BlockStep::Limit {
            from: TExpr::Local(0),
            count: 1,
        },
    );
    push(rt, &mut block.items, plain(TExpr::Field(0)));
    push(rt, &mut block.items, plain(TExpr::Local(1)));
    push(
        rt,
        &mut block.items,
        plain(part_of_local(rt, alloc, 0, &[1, 2])),
    );
    block
}

// k, {(k,1,y)} and {(1,y),(1,z),(2,b)}, both in an order of their own
fn first_and_pairs<R: Abort>(rt: &R, alloc: Global) -> Rows {
    let mut first = Seq::new(alloc);
    push(rt, &mut first, triple(rt, alloc, 1, "y"));
    let mut pairs = Seq::new(alloc);
    push(rt, &mut pairs, pair(rt, alloc, 1, "y"));
    push(rt, &mut pairs, pair(rt, alloc, 1, "z"));
    push(rt, &mut pairs, pair(rt, alloc, 2, "b"));
    let mut row = Seq::new(alloc);
    push(rt, &mut row, chars(rt, alloc, "k"));
    push(rt, &mut row, Value::Listed(first));
    push(rt, &mut row, Value::Listed(pairs));
    let mut rows = Seq::new(alloc);
    push(rt, &mut rows, row);
    rows
}

#[test]
fn nested_order(rt: HostRuntime) {
    let block = first_by_number(&rt, rt.alloc());
    let row = group(&rt, rt.alloc());
    let expected = first_and_pairs(&rt, rt.alloc());
    assert!(rt;
        makes(&rt, rt.alloc(), block, &row, &expected),
        "nested order"
    );
}

// ---- FLATTEN

// A number, and two bags, of which one may be null.
fn of_bags<R: Abort>(rt: &R, alloc: Global, n: i32, a: Value, b: Value) -> Tuple {
    let mut row = Seq::new(alloc);
    push(rt, &mut row, number(n));
    push(rt, &mut row, a);
    push(rt, &mut row, b);
    row
}

fn bag_of<R: Abort>(rt: &R, alloc: Global, numbers: &[i32]) -> Value {
    Value::Bag(singles(rt, alloc, numbers))
}

fn bags<R: Abort>(rt: &R, alloc: Global, at: u32) -> Tuple {
    match at {
        0 => of_bags(
            rt,
            alloc,
            1,
            bag_of(rt, alloc, &[1, 2]),
            bag_of(rt, alloc, &[7]),
        ),
        1 => of_bags(
            rt,
            alloc,
            2,
            bag_of(rt, alloc, &[]),
            bag_of(rt, alloc, &[8]),
        ),
        2 => of_bags(rt, alloc, 3, Value::Null, bag_of(rt, alloc, &[9])),
        3 => of_bags(rt, alloc, 4, bag_of(rt, alloc, &[]), bag_of(rt, alloc, &[])),
        4 => of_bags(rt, alloc, 5, bag_of(rt, alloc, &[1, 2]), Value::Null),
        5 => of_bags(
            rt,
            alloc,
            6,
            bag_of(rt, alloc, &[1, 2]),
            bag_of(rt, alloc, &[3, 4]),
        ),
        _ => of_bags(rt, alloc, 7, Value::Null, Value::Null),
    }
}

fn flattened_rows<R: Abort>(rt: &R, alloc: Global, at: u32) -> Rows {
    match at {
        0 => triples(rt, alloc, &[1, 1, 7, 1, 2, 7]),
        2 => triples(rt, alloc, &[3, -1, 9]),
        4 => triples(rt, alloc, &[5, 1, -1, 5, 2, -1]),
        5 => triples(rt, alloc, &[6, 1, 3, 6, 1, 4, 6, 2, 3, 6, 2, 4]),
        6 => triples(rt, alloc, &[7, -1, -1]),
        _ => Seq::new(alloc),
    }
}

// GENERATE $0, FLATTEN($1), FLATTEN($2)
fn flattens<R: Abort>(rt: &R, alloc: Global) -> Block {
    let mut block = generate(alloc);
    push(rt, &mut block.items, plain(TExpr::Field(0)));
    push(rt, &mut block.items, flat(TExpr::Field(1), 1));
    push(rt, &mut block.items, flat(TExpr::Field(2), 1));
    block
}

// Whether the bags are flattened to the rows above.
fn bags_are_flattened<R: Abort>(rt: &R, alloc: Global, at: u32) -> bool {
    let row = bags(rt, alloc, at);
    let expected = flattened_rows(rt, alloc, at);
    makes(rt, alloc, flattens(rt, alloc), &row, &expected)
}

#[test]
fn flattened_bags(rt: HostRuntime) {
    for at in 0..7 {
        assert!(rt; bags_are_flattened(&rt, rt.alloc(), at), "bags {at}");
    }
}

// FLATTEN($0), $1, where $0 is a null tuple of two fields, a tuple, a text
fn tuples<R: Abort>(rt: &R, alloc: Global, at: u32) -> Tuple {
    let mut row = Seq::new(alloc);
    match at {
        0 => push(rt, &mut row, Value::Null),
        _ => push(rt, &mut row, Value::Tuple(numbers(rt, alloc, &[3, 4]))),
    }
    push(rt, &mut row, number(5));
    row
}

fn tuple_rows<R: Abort>(rt: &R, alloc: Global, at: u32) -> Rows {
    match at {
        0 => triples(rt, alloc, &[-1, -1, 5]),
        _ => triples(rt, alloc, &[3, 4, 5]),
    }
}

// GENERATE FLATTEN($0), $1
fn flattens_first<R: Abort>(rt: &R, alloc: Global) -> Block {
    let mut block = generate(alloc);
    push(rt, &mut block.items, flat(TExpr::Field(0), 2));
    push(rt, &mut block.items, plain(TExpr::Field(1)));
    block
}

// Whether the tuple is flattened to the row above.
fn tuple_is_flattened<R: Abort>(rt: &R, alloc: Global, at: u32) -> bool {
    let row = tuples(rt, alloc, at);
    let expected = tuple_rows(rt, alloc, at);
    makes(rt, alloc, flattens_first(rt, alloc), &row, &expected)
}

#[test]
fn flattened_tuples(rt: HostRuntime) {
    for at in 0..2 {
        assert!(rt; tuple_is_flattened(&rt, rt.alloc(), at), "tuple {at}");
    }
}

// ---- steps, on the bag {(null),(1),(1),(2)}

fn is_one<R: Abort>(rt: &R, alloc: Global) -> TExpr {
    let a = Boxed::new(alloc, TExpr::Field(0)).expect(rt, "memory");
    let b = Boxed::new(alloc, TExpr::Int(1)).expect(rt, "memory");
    TExpr::Compare { op: Rel::Eq, a, b }
}

fn step<R: Abort>(rt: &R, alloc: Global, at: u32) -> BlockStep {
    let from = TExpr::Field(0);
    match at {
        0 => BlockStep::Filter {
            from,
            cond: is_one(rt, alloc),
        },
        1 => BlockStep::Distinct { from },
        2 => BlockStep::Limit { from, count: 0 },
        3 => BlockStep::Limit { from, count: 2 },
        4 => BlockStep::Limit { from, count: 9 },
        5 => BlockStep::Order {
            from,
            keys: keys(rt, alloc, 0, Dir::Desc),
        },
        _ => BlockStep::Take { from },
    }
}

fn step_value<R: Abort>(rt: &R, alloc: Global, at: u32) -> Value {
    match at {
        0 => bag_of(rt, alloc, &[1, 1]),
        1 => bag_of(rt, alloc, &[-1, 1, 2]),
        2 => bag_of(rt, alloc, &[]),
        3 => bag_of(rt, alloc, &[-1, 1]),
        5 => Value::Listed(singles(rt, alloc, &[2, 1, 1, -1])),
        _ => bag_of(rt, alloc, &[-1, 1, 1, 2]),
    }
}

#[test]
fn steps(rt: HostRuntime) {
    let mut row = Seq::new(rt.alloc());
    push(&rt, &mut row, bag_of(&rt, rt.alloc(), &[-1, 1, 1, 2]));
    for at in 0..7 {
        assert!(rt; step_gives(&rt, rt.alloc(), at, &row), "step {at}");
    }
}

// Whether the block of a step makes of a row one row, of the value above alone.
fn step_gives<R: Abort>(rt: &R, alloc: Global, at: u32, row: &Tuple) -> bool {
    let block = of_step(rt, alloc, step(rt, alloc, at));
    let found = foreach(alloc, &block, row).expect(rt, "memory");
    drop(block);
    let expected = step_value(rt, alloc, at);
    let is = is_only(&found, &expected);
    drop(expected);
    is
}

// Whether there is one row, of this value alone.
fn is_only(rows: &Rows, v: &Value) -> bool {
    match rows.as_slice() {
        [row] => match row.as_slice() {
            [found] => is_same(found, v),
            _ => false,
        },
        _ => false,
    }
}

// ---- bags of many tuples

// The numbers from 0, a tuple each.
fn counted<R: Abort>(rt: &R, alloc: Global, count: u32) -> Rows {
    let mut rows = Seq::new(alloc);
    for n in 0..count {
        let mut row = Seq::new(alloc);
        push(rt, &mut row, Value::Long(i64::from(n)));
        push(rt, &mut rows, row);
    }
    rows
}

// Whether each row has a number one greater than that before, and the field 7 behind it.
fn are_counted(rows: &Rows) -> bool {
    let mut wanted: i64 = 0;
    for row in rows.as_slice() {
        match row.as_slice() {
            [Value::Long(n), Value::Int(field)] => {
                if *n != wanted || *field != 7 {
                    return false;
                }
            }
            _ => return false,
        }
        wanted = wanted.wrapping_add(1);
    }
    true
}

// GENERATE FLATTEN($0), 7
fn flattens_with_7<R: Abort>(rt: &R, alloc: Global) -> Block {
    let mut block = generate(alloc);
    push(rt, &mut block.items, flat(TExpr::Field(0), 1));
    push(rt, &mut block.items, plain(TExpr::Int(7)));
    block
}

// Whether a bag of so many tuples is flattened to as many rows, in their order.
fn flattens_all<R: Abort>(rt: &R, alloc: Global, count: u32) -> bool {
    let block = flattens_with_7(rt, alloc);
    let mut row = Seq::new(alloc);
    push(rt, &mut row, Value::Bag(counted(rt, alloc, count)));
    let found = foreach(alloc, &block, &row).expect(rt, "memory");
    drop(block);
    found.len() == count as usize && are_counted(&found)
}

#[test]
fn many_tuples(rt: HostRuntime) {
    for count in [0, 1, 100_000] {
        assert!(rt; flattens_all(&rt, rt.alloc(), count), "{count} tuples");
    }
}
