//! Entries in any pieces give one run, and its slices are the run.
//!
//! Where memory is wanting the process ends: that drops nothing, so its proof is short.
// Trees end by `drop`: one call is cheap to prove, and a tree that dies by name is taken apart variant by variant.
ghost use Rattle.std.specs.Prelude.{◌≡◌, ◌<◌, [], length};
ghost use Rattle.std.specs.List.{AllByRecursion};
ghost use Rattle.pig_value.specs.Trees.{tree, row_tree};
ghost use Rattle.pig_value.specs.Valid.{IsValue, IsRow};

use pig_keycode::{decode, decode_row, encode, encode_row};
use pig_runs::{Run, RunBuilder, RunPart, Runs, cuts, merge, merge_parts, part_of, slice};
use pig_value::{Dir, Dirs, Seq, Text, Tuple, Value, field_at, same};
use std::alloc::Global;
use std::process::Abort;

// Entries: the number of the key, that of the input, and the row's field.
const ENTRIES: [(u8, u32, i32); 8] = [
    (4, 0, 1),
    (0, 1, 5),
    (1, 0, 9),
    (0, 0, 7),
    (1, 0, 9),
    (3, 1, 2),
    (1, 1, 3),
    (0, 0, 6),
];

// The same in order: null, 1, (null, 1), (1, null).
const SORTED: [(u8, u32, i32); 8] = [
    (0, 0, 6),
    (0, 0, 7),
    (0, 1, 5),
    (1, 0, 9),
    (1, 0, 9),
    (1, 1, 3),
    (3, 1, 2),
    (4, 0, 1),
];

// A mebibyte in parts of sixteen bytes.
const LONG_TEXT: usize = 1 << 16;

// How many entries with a text of a mebibyte there are.
const LONG: u8 = 18;

fn two<R: Abort>(rt: &R, alloc: Global, first: Value, second: Value) -> Value {
    let mut row = Seq::new(alloc);
    row.push(first).expect(rt, "memory");
    row.push(second).expect(rt, "memory");
    Value::Tuple(row)
}

fn any_key<R: Abort>(rt: &R, alloc: Global, number: u8) -> Value {
    match number {
        1 => Value::Int(1),
        3 => two(rt, alloc, Value::Null, Value::Int(1)),
        4 => two(rt, alloc, Value::Int(1), Value::Null),
        _ => Value::Null,
    }
}

// A key, read back from its code.
fn key<R: Abort>(rt: &R, alloc: Global, number: u8) -> Value
    ensures { IsValue (tree result) }
{
    let mut bytes = Vec::new(alloc);
    let any = any_key(rt, alloc, number);
    encode(&any, Dir::Asc, &mut bytes).expect(rt, "memory");
    drop(any);
    let read = decode(alloc, bytes.as_slice()).expect(rt, "memory");
    read.expect(rt, "the key")
}

fn any_row<R: Abort>(rt: &R, alloc: Global, field: i32) -> Tuple {
    let mut row = Seq::new(alloc);
    row.push(Value::Int(field)).expect(rt, "memory");
    row
}

// A row, read back from its code.
fn sound<R: Abort>(rt: &R, alloc: Global, any: &Tuple) -> Tuple
    ensures { IsRow (row_tree result) }
{
    let mut bytes = Vec::new(alloc);
    encode_row(any, &mut bytes).expect(rt, "memory");
    let read = decode_row(alloc, bytes.as_slice()).expect(rt, "memory");
    read.expect(rt, "the row")
}

fn row<R: Abort>(rt: &R, alloc: Global, field: i32) -> Tuple
    ensures { IsRow (row_tree result) }
{
    let any = any_row(rt, alloc, field);
    sound(rt, alloc, &any)
}

fn add<R: Abort>(rt: &R, alloc: Global, builder: &mut RunBuilder, entry: (u8, u32, i32))
    requires { builder.old.dirs ≡ [] }
    ensures { builder.new.dirs ≡ [] }
{
    let (number, input, field) = entry;
    let key = key(rt, alloc, number);
    let row = row(rt, alloc, field);
    builder.add(&key, input, &row).expect(rt, "memory");
    drop((key, row));
}

// The run of a piece of the entries.
fn piece<R: Abort>(rt: &R, alloc: Global, at: usize, pieces: usize) -> Run
    ensures { result.dirs ≡ [] }
{
    let mut builder = RunBuilder::new(alloc, Dirs::new(alloc));
    let mut place = 0;
    for entry in ENTRIES {
        if place == at {
            add(rt, alloc, &mut builder, entry);
        }
        let next = place.saturating_add(1);
        place = if next < pieces { next } else { 0 };
    }
    builder.finish()
}

fn split<R: Abort>(rt: &R, alloc: Global, pieces: usize) -> Runs
    ensures { AllByRecursion (λ run. run.dirs ≡ []) result }
{
    let mut runs = Runs::new(alloc);
    for at in 0..pieces {
        let part = piece(rt, alloc, at, pieces);
        runs.push(part).expect(rt, "memory");
        let empty = RunBuilder::new(alloc, Dirs::new(alloc)).finish();
        runs.push(empty).expect(rt, "memory");
    }
    runs
}

// Whether the key of an entry is that of this number.
fn has_key<R: Abort>(rt: &R, alloc: Global, run: &Run, at: usize, number: u8) -> bool
    requires dirs { run.now.dirs ≡ [] }
    requires within { at < length run.now.entries }
{
    let found = run.key(alloc, at).expect(rt, "memory");
    let wanted = any_key(rt, alloc, number);
    let holds = same(&found, &wanted);
    drop((found, wanted));
    holds
}

// Whether the row of an entry has this field.
fn has_field<R: Abort>(rt: &R, alloc: Global, run: &Run, at: usize, field: i32) -> bool
    requires { at < length run.now.entries }
{
    let found = run.row(alloc, at).expect(rt, "memory");
    has_int(&found, field)
}

fn is_entry<R: Abort>(rt: &R, alloc: Global, run: &Run, at: usize, entry: (u8, u32, i32)) -> bool
    requires { run.now.dirs ≡ [] }
{
    if at >= run.len() {
        return false;
    }
    let (number, input, field) = entry;
    run.input(at) == input
        && has_field(rt, alloc, run, at, field)
        && has_key(rt, alloc, run, at, number)
}

#[test]
fn pieces_give_one_run(rt: HostRuntime) {
    for pieces in [1, 2, 7] {
        let runs = split(&rt, rt.alloc(), pieces);
        let merged = merge(rt.alloc(), runs, Dirs::new(rt.alloc()));
        let run = merged.expect(&rt, "memory");
        assert!(rt; run.len() == 8, "{pieces} pieces");
        let mut at = 0;
        for entry in SORTED {
            assert!(rt;
                is_entry(&rt, rt.alloc(), &run, at, entry),
                "{pieces} pieces, {at}"
            );
            at = at.saturating_add(1);
        }
    }
}

// The run of two parts of a run: those from a place on, and those before it.
fn joined_again<R: Abort>(rt: &R, alloc: Global, run: &Run, place: usize) -> Run
    requires { run.now.dirs ≡ [] }
    ensures { result.dirs ≡ [] }
{
    let end = run.len();
    let at = place.min(end);
    let behind = RunPart { run, from: at, end };
    let before = RunPart {
        run,
        from: 0,
        end: at,
    };
    let parts = [behind, before];
    merge_parts(alloc, &parts, Dirs::new(alloc)).expect(rt, "memory")
}

#[test]
fn parts_give_their_run(rt: HostRuntime) {
    let run = piece(&rt, rt.alloc(), 0, 1);
    let again = joined_again(&rt, rt.alloc(), &run, 3);
    assert!(rt; again.len() == 8, "as many");
    let mut at = 0;
    for entry in SORTED {
        assert!(rt; is_entry(&rt, rt.alloc(), &again, at, entry), "{at}");
        at = at.saturating_add(1);
    }
}

// A text of so many times sixteen bytes.
fn long_text<R: Abort>(rt: &R, alloc: Global, times: usize) -> Value {
    let mut text = String::new(alloc);
    for _ in 0..times {
        text.push_str("a text as filler").expect(rt, "memory");
    }
    Value::Chars(Text::from_string(text))
}

fn add_long<R: Abort>(rt: &R, alloc: Global, builder: &mut RunBuilder, number: u8)
    requires { builder.old.dirs ≡ [] }
    ensures { builder.new.dirs ≡ [] }
{
    let mut any = any_row(rt, alloc, number as i32);
    let text = long_text(rt, alloc, LONG_TEXT.saturating_add(number as usize));
    any.push(text).expect(rt, "memory");
    let row = sound(rt, alloc, &any);
    let key = key(rt, alloc, 0);
    builder.add(&key, number as u32, &row).expect(rt, "memory");
    drop((any, key, row));
}

// Whether the entry with this number has it as its input and in its row, and its own length of text.
fn is_long<R: Abort>(rt: &R, alloc: Global, run: &Run, number: u8) -> bool {
    let at = number as usize;
    if at >= run.len() {
        return false;
    }
    let row = run.row(alloc, at).expect(rt, "memory");
    run.input(at) == number as u32
        && has_int(&row, number as i32)
        && has_text(&row, LONG_TEXT.saturating_add(at))
}

fn has_int(row: &Tuple, wanted: i32) -> bool {
    let wanted = Value::Int(wanted);
    let holds = match field_at(row, 0) {
        Some(first) => same(first, &wanted),
        None => false,
    };
    drop(wanted);
    holds
}

fn has_text(row: &Tuple, times: usize) -> bool {
    match field_at(row, 1) {
        Some(Value::Chars(text)) => text.len() == times.saturating_mul(16),
        _ => false,
    }
}

// Eighteen mebibytes of codes, added from the last entry to the first: more than are laid out at once.
#[test]
fn long_entries_stand_in_order(rt: HostRuntime) {
    let mut builder = RunBuilder::new(rt.alloc(), Dirs::new(rt.alloc()));
    for number in 0..LONG {
        add_long(&rt, rt.alloc(), &mut builder, LONG - 1 - number);
    }
    let run = builder.finish();
    assert!(rt; run.len() == LONG as usize, "as many");
    for number in 0..LONG {
        assert!(rt; is_long(&rt, rt.alloc(), &run, number), "entry {number}");
    }
}

#[test]
fn no_run_is_empty(rt: HostRuntime) {
    let alloc = rt.alloc();
    let run = merge(alloc, Runs::new(alloc), Dirs::new(alloc)).expect(&rt, "memory");
    assert!(rt; run.len() == 0, "no run");
    let points = cuts(alloc, &Runs::new(alloc), 3).expect(&rt, "memory");
    let part = slice(alloc, &run, &points, 1).expect(&rt, "memory");
    assert!(rt; part.len() == 0, "a slice of nothing");
    let null = Value::Null;
    let part = part_of(&null, 1);
    drop(null);
    assert!(rt; part == 0, "one part");
}
