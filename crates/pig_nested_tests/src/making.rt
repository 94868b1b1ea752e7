//! Values, rows and blocks for tests. Where memory is wanting the process ends: that drops nothing, so its proof is
//! short.
use pig_typed::{Block, BlockItem, BlockStep, SortKey, SortKeys, TExpr};
use pig_value::{Boxed, Dir, Positions, Rows, Seq, Text, Tuple, Value, order_rows};
use std::alloc::Global;
use std::cmp::Ordering;
use std::process::Abort;

/// Adds to a list.
pub fn push<R: Abort, T: Drop>(rt: &R, list: &mut Seq<T>, item: T) {
    list.push(item).expect(rt, "memory");
}

pub fn chars<R: Abort>(rt: &R, alloc: Global, text: &str) -> Value {
    Value::Chars(Text::from_str(alloc, text).expect(rt, "memory"))
}

/// A tuple of each number alone, where -1 stands for a null.
pub fn singles<R: Abort>(rt: &R, alloc: Global, numbers: &[i32]) -> Rows {
    let mut rows = Seq::new(alloc);
    for n in numbers {
        push(rt, &mut rows, single(rt, alloc, *n));
    }
    rows
}

fn single<R: Abort>(rt: &R, alloc: Global, n: i32) -> Tuple {
    let mut row = Seq::new(alloc);
    push(rt, &mut row, number(n));
    row
}

/// A number, where -1 stands for a null.
pub fn number(n: i32) -> Value {
    if n == -1 {
        return Value::Null;
    }
    Value::Int(n)
}

/// A row of numbers, where -1 stands for a null.
pub fn numbers<R: Abort>(rt: &R, alloc: Global, numbers: &[i32]) -> Tuple {
    let mut row = Seq::new(alloc);
    for n in numbers {
        push(rt, &mut row, number(*n));
    }
    row
}

/// Rows of two numbers each.
pub fn pairs<R: Abort>(rt: &R, alloc: Global, cells: &[i32]) -> Rows {
    let mut rows = Seq::new(alloc);
    for row in cells.chunks(2) {
        push(rt, &mut rows, numbers(rt, alloc, row));
    }
    rows
}

/// Rows of three numbers each.
pub fn triples<R: Abort>(rt: &R, alloc: Global, cells: &[i32]) -> Rows {
    let mut rows = Seq::new(alloc);
    for row in cells.chunks(3) {
        push(rt, &mut rows, numbers(rt, alloc, row));
    }
    rows
}

pub fn plain(value: TExpr) -> BlockItem {
    BlockItem {
        value,
        flatten: false,
        width: 1,
    }
}

pub fn flat(value: TExpr, width: u32) -> BlockItem {
    BlockItem {
        value,
        flatten: true,
        width,
    }
}

/// A projection of several fields of what is in the local of a step.
pub fn part_of_local<R: Abort>(rt: &R, alloc: Global, at: u32, fields: &[u32]) -> TExpr {
    let mut positions: Positions = Seq::new(alloc);
    for n in fields {
        push(rt, &mut positions, *n);
    }
    let a = Boxed::new(alloc, TExpr::Local(at)).expect(rt, "memory");
    TExpr::Project {
        a,
        fields: positions,
        single: false,
    }
}

pub fn keys<R: Abort>(rt: &R, alloc: Global, position: u32, dir: Dir) -> SortKeys {
    let mut keys = Seq::new(alloc);
    push(rt, &mut keys, SortKey { position, dir });
    keys
}

/// A block without steps.
pub fn generate(alloc: Global) -> Block {
    Block {
        steps: Seq::new(alloc),
        items: Seq::new(alloc),
    }
}

/// A block of one step, which generates its bag.
pub fn of_step<R: Abort>(rt: &R, alloc: Global, step: BlockStep) -> Block {
    let mut block = generate(alloc);
    push(rt, &mut block.steps, step);
    push(rt, &mut block.items, plain(TExpr::Local(0)));
    block
}

/// Whether the rows are the same, in the same order.
pub fn are_same(a: &Rows, b: &Rows) -> bool {
    let a = a.as_slice();
    let b = b.as_slice();
    if a.len() != b.len() {
        return false;
    }
    for i in 0..a.len() {
        if order_rows(&a[i], &b[i]) != Ordering::Equal {
            return false;
        }
    }
    true
}
