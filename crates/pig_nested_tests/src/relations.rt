//! Rows of two numbers, sorted by keys and without repetition. -1 stands for a null.
use crate::making::{are_same, numbers, pairs, push};
use pig_nested::{compare_by_keys, distinct_rows, sort_by_keys};
use pig_typed::{SortKey, SortKeys};
use pig_value::{Dir, Rows, Seq};
use std::alloc::Global;
use std::cmp::Ordering;
use std::process::Abort;

fn given<R: Abort>(rt: &R, alloc: Global) -> Rows {
    pairs(rt, alloc, &[2, 1, 1, 5, 1, 7, 2, 1, -1, 3])
}

// by $0, descending
fn first_falling<R: Abort>(rt: &R, alloc: Global) -> SortKeys {
    let mut keys = Seq::new(alloc);
    push(
        rt,
        &mut keys,
        SortKey {
            position: 0,
            dir: Dir::Desc,
        },
    );
    keys
}

#[test]
fn sorted_rows(rt: HostRuntime) {
    let keys = first_falling(&rt, rt.alloc());
    let found = sort_by_keys(given(&rt, rt.alloc()), &keys);
    // ties in the order of rows
    let expected = pairs(&rt, rt.alloc(), &[2, 1, 2, 1, 1, 5, 1, 7, -1, 3]);
    assert!(rt; are_same(&found, &expected), "by the key, then by the row");
}

#[test]
fn rows_once(rt: HostRuntime) {
    let found = distinct_rows(given(&rt, rt.alloc()));
    let expected = pairs(&rt, rt.alloc(), &[-1, 3, 1, 5, 1, 7, 2, 1]);
    assert!(rt; are_same(&found, &expected), "each row once");
    let none = distinct_rows(Seq::new(rt.alloc()));
    assert!(rt; none.is_empty(), "no row of none");
}

#[test]
fn keys_alone(rt: HostRuntime) {
    let keys = first_falling(&rt, rt.alloc());
    let low = numbers(&rt, rt.alloc(), &[1, 5]);
    let other = numbers(&rt, rt.alloc(), &[1, 7]);
    let high = numbers(&rt, rt.alloc(), &[2, 1]);
    let tie = compare_by_keys(&keys, &low, &other) == Ordering::Equal;
    let falls = compare_by_keys(&keys, &high, &low) == Ordering::Less;
    assert!(rt; tie, "rows of one key tie");
    assert!(rt; falls, "a greater key stands first");
}
