//! The operators over runs that are lent give the rows that those over one merged run give.
//!
//! Where memory is wanting the process ends: that drops nothing, so its proof is short.
ghost use Rattle.std.specs.Prelude.{◌≡◌, [], ◌∷◌};
ghost use Rattle.pig_value.specs.declared.operators.Dir.TheVariants.{Desc};

use crate::given::{by_field, by_second, lines_of, second_down};
use crate::operators::operator;
use pig_gather::{add_first, add_gathered, add_limited, add_ordered};
use pig_operators::{gather, limited, ordered};
use pig_packed::{Packed, PackedBuilder};
use pig_runs::{Run, merge, merge_lent, whole_run};
use pig_value::{Dirs, Rows, Seq};
use std::alloc::Global;
use std::process::Abort;

fn lines<R: Abort>(rt: &R, alloc: Global, rows: Rows) -> Vec<u8> {
    let lines = lines_of(alloc, &rows).expect(rt, "memory");
    drop(rows);
    lines
}

fn packed_lines<R: Abort>(rt: &R, alloc: Global, packed: &Packed) -> Vec<u8> {
    let rows = packed.between(alloc, 0, packed.len()).expect(rt, "memory");
    lines(rt, alloc, rows)
}

// The run of the entries of two.
fn joined<R: Abort>(rt: &R, alloc: Global, a: Run, b: Run) -> Run
    requires a { a.dirs ≡ [] }
    requires b { b.dirs ≡ [] }
    ensures { result.dirs ≡ [] }
{
    let mut runs = Seq::new(alloc);
    runs.push(a).expect(rt, "memory");
    runs.push(b).expect(rt, "memory");
    merge(alloc, runs, Dirs::new(alloc)).expect(rt, "memory")
}

// What an operator by a letter gives of two runs that are lent.
fn lent<R: Abort>(rt: &R, alloc: Global, letter: u8, a: &Run, b: &Run) -> Packed
    requires a { a.now.dirs ≡ [] }
    requires b { b.now.dirs ≡ [] }
{
    let parts = [whole_run(a), whole_run(b)];
    let entries = merge_lent(alloc, &parts, Dirs::new(alloc)).expect(rt, "memory");
    let how = operator(rt, alloc, letter);
    let mut built = PackedBuilder::new(alloc);
    add_gathered(alloc, &how, &entries, &mut built).expect(rt, "memory");
    drop((how, entries));
    built.finish()
}

// Whether it gives the same of the two runs as of one.
fn agrees<R: Abort>(rt: &R, alloc: Global, letter: u8, a: Run, b: Run) -> bool
    requires a { a.dirs ≡ [] }
    requires b { b.dirs ≡ [] }
{
    let packed = lent(rt, alloc, letter, &a, &b);
    let found = packed_lines(rt, alloc, &packed);
    let how = operator(rt, alloc, letter);
    let rows = gather(alloc, &how, joined(rt, alloc, a, b)).expect(rt, "memory");
    drop((packed, how));
    let expected = lines(rt, alloc, rows);
    found.as_slice() == expected.as_slice() && !found.is_empty()
}

const FIRST: [&[u8]; 3] = [
    b"1\tx\n\ty\n3\tz\n1\tx\n",
    b"1\tp\n\tq\n4\tr\n",
    b"1\tu\n5\t\n",
];

const SECOND: [&[u8]; 3] = [b"1\ta\n\ty\n2\tz\n", b"1\tp\n3\t\n1\tb\n", b"1\tv\n"];

// Whether it does so of the runs of these inputs.
fn of_inputs<R: Abort>(rt: &R, alloc: Global, letter: u8) -> bool {
    let Ok(a) = by_field(alloc, &FIRST) else {
        return false;
    };
    match by_field(alloc, &SECOND) {
        Ok(b) => agrees(rt, alloc, letter, a, b),
        Err(_) => false,
    }
}

#[test]
fn operators_over_lent_runs(rt: HostRuntime) {
    for letter in [b'g', b'c', b'i', b'j', b'k', b'l', b'r', b'f'] {
        assert!(rt; of_inputs(&rt, rt.alloc(), letter), "{letter}");
    }
}

const DOWN: &[u8] = b"2\tx\n\tz\n1\tx\n3\t\n\tx\n2\tz\n1\t\n1\tx\n\t\n";

// The rows of a run that is lent, downwards by the second field, and the first so many of them behind these.
fn lent_in_order<R: Abort>(rt: &R, alloc: Global, run: &Run, count: u64) -> Packed
    requires { run.now.dirs ≡ Desc ∷ [] }
{
    let dirs = second_down(alloc).expect(rt, "memory");
    let entries = merge_lent(alloc, &[whole_run(run)], dirs).expect(rt, "memory");
    let mut built = PackedBuilder::new(alloc);
    add_ordered(&entries, &mut built).expect(rt, "memory");
    add_limited(&entries, count, &mut built).expect(rt, "memory");
    drop(entries);
    built.finish()
}

fn in_order<R: Abort>(rt: &R, alloc: Global, count: u64) -> bool {
    let run = by_second(alloc, DOWN).expect(rt, "memory");
    let packed = lent_in_order(rt, alloc, &run, count);
    let found = packed_lines(rt, alloc, &packed);
    drop((packed, run));
    found.as_slice() == expected_in_order(rt, alloc, count).as_slice()
}

fn expected_in_order<R: Abort>(rt: &R, alloc: Global, count: u64) -> Vec<u8> {
    let all = by_second(alloc, DOWN).expect(rt, "memory");
    let mut text = lines(rt, alloc, ordered(alloc, all).expect(rt, "memory"));
    let again = by_second(alloc, DOWN).expect(rt, "memory");
    let first = lines(rt, alloc, limited(alloc, again, count).expect(rt, "memory"));
    text.extend_from_slice(first.as_slice())
        .expect(rt, "memory");
    text
}

#[test]
fn rows_in_order_that_are_lent(rt: HostRuntime) {
    for count in [0, 4, 9, u64::MAX] {
        assert!(rt; in_order(&rt, rt.alloc(), count), "{count}");
    }
}

// The first so many rows of two lists.
fn first_of_two<R: Abort>(rt: &R, alloc: Global, list: &Packed, count: u64) -> Vec<u8> {
    let mut built = PackedBuilder::new(alloc);
    add_first(&[list, list], count, &mut built).expect(rt, "memory");
    let packed = built.finish();
    let found = packed_lines(rt, alloc, &packed);
    drop(packed);
    found
}

#[test]
fn first_rows_of_lists(rt: HostRuntime) {
    let alloc = rt.alloc();
    let run = by_second(alloc, b"1\tx\n2\ty\n").expect(&rt, "memory");
    let list = lent_in_order(&rt, alloc, &run, 0);
    let three = first_of_two(&rt, alloc, &list, 3);
    assert!(rt; three.as_slice() == b"2\ty\n1\tx\n2\ty\n".as_slice());
    let all = first_of_two(&rt, alloc, &list, 9);
    assert!(rt; all.as_slice() == b"2\ty\n1\tx\n2\ty\n1\tx\n".as_slice());
    let none = first_of_two(&rt, alloc, &list, 0);
    assert!(rt; none.is_empty());
    drop((run, list));
}
