//! Rows that are packed as values, as codes and in pieces are the same, and are read back as they were.
//!
//! Where memory is wanting the process ends: that drops nothing, so its proof is short.
ghost use Rattle.std.specs.Prelude.{◌≡◌, ◌<◌, [], length};
ghost use Rattle.pig_value.specs.Trees.{row_tree};
ghost use Rattle.pig_value.specs.Valid.{IsRow};
ghost use Rattle.pig_packed.specs.Growth.{IsWhole};

use pig_keycode::{decode_row, encode_row};
use pig_packed::{Packed, PackedBuilder};
use pig_value::{Seq, Tuple, Value, order_rows};
use std::alloc::Global;
use std::process::Abort;

// How many rows there are: the row of a number has as many fields as it says.
const ROWS: u8 = 4;

fn any_row<R: Abort>(rt: &R, alloc: Global, number: u8) -> Tuple {
    let mut row = Seq::new(alloc);
    for field in 0..number {
        row.push(Value::Int(field as i32)).expect(rt, "memory");
    }
    row
}

// A row, read back from its code.
pub fn sound<R: Abort>(rt: &R, alloc: Global, any: &Tuple) -> Tuple
    ensures { IsRow (row_tree result) }
{
    let mut bytes = Vec::new(alloc);
    encode_row(any, &mut bytes).expect(rt, "memory");
    let read = decode_row(alloc, bytes.as_slice()).expect(rt, "memory");
    read.expect(rt, "the row")
}

fn add<R: Abort>(rt: &R, alloc: Global, built: &mut PackedBuilder, number: u8)
    requires { built.old.begun ≡ [] }
    ensures { built.new.begun ≡ [] }
{
    let any = any_row(rt, alloc, number);
    let row = sound(rt, alloc, &any);
    built.push_row(&row).expect(rt, "memory");
    drop((any, row));
}

// The rows by their values, and behind them one that is begun and not ended.
fn by_values<R: Abort>(rt: &R, alloc: Global) -> Packed {
    let mut built = PackedBuilder::new(alloc);
    for number in 0..ROWS {
        add(rt, alloc, &mut built, number);
    }
    built.write(&[6, 1]).expect(rt, "memory");
    built.finish()
}

// Adds a row by its code, behind one that is taken back.
fn add_code<R: Abort>(rt: &R, built: &mut PackedBuilder, rows: &Packed, at: usize)
    requires { at < length rows.now }
{
    built.undo();
    push(rt, built, rows.code(at));
}

fn push<R: Abort>(rt: &R, built: &mut PackedBuilder, code: &[u8])
    requires begun { built.old.begun ≡ [] }
    requires whole { IsWhole code.now }
{
    built.push_code(code).expect(rt, "memory");
}

// The rows by their codes.
fn by_codes<R: Abort>(rt: &R, alloc: Global, rows: &Packed) -> Packed {
    let mut built = PackedBuilder::new(alloc);
    for at in 0..rows.len() {
        add_code(rt, &mut built, rows, at);
    }
    built.finish()
}

// Writes a code in two pieces.
fn write_pieces<R: Abort>(rt: &R, built: &mut PackedBuilder, code: &[u8])
    requires { built.old.begun ≡ [] }
    ensures { built.new.begun ≡ code.now }
{
    if let Some((first, rest)) = code.split_first() {
        built.write(&[*first]).expect(rt, "memory");
        built.write(rest).expect(rt, "memory");
    }
}

// Adds a row in two pieces, behind one that is taken back.
fn add_pieces<R: Abort>(rt: &R, built: &mut PackedBuilder, rows: &Packed, at: usize)
    requires { at < length rows.now }
{
    built.write(&[6, 1, 0, 0]).expect(rt, "memory");
    built.undo();
    write_pieces(rt, built, rows.code(at));
    built.end_row().expect(rt, "memory");
}

fn by_pieces<R: Abort>(rt: &R, alloc: Global, rows: &Packed) -> Packed {
    let mut built = PackedBuilder::new(alloc);
    for at in 0..rows.len() {
        add_pieces(rt, &mut built, rows, at);
    }
    built.finish()
}

// Whether the row at a place is that of its number.
fn holds<R: Abort>(rt: &R, alloc: Global, rows: &Packed, number: u8) -> bool {
    let at = number as usize;
    if at >= rows.len() {
        return false;
    }
    let found = rows.row(alloc, at).expect(rt, "memory");
    let wanted = any_row(rt, alloc, number);
    let same = order_rows(&found, &wanted).is_eq();
    drop((found, wanted));
    same
}

// Whether a batch of two rows has these numbers of fields.
fn batch_has<R: Abort>(
    rt: &R,
    alloc: Global,
    rows: &Packed,
    from: usize,
    wanted: [usize; 2],
) -> bool {
    let end = from.saturating_add(2);
    if end > rows.len() || end < from {
        return false;
    }
    let batch = rows.between(alloc, from, end).expect(rt, "memory");
    let holds = match batch.as_slice() {
        [first, second] => first.len() == wanted[0] && second.len() == wanted[1],
        _ => false,
    };
    drop(batch);
    holds
}

#[test]
fn rows_are_read_back(rt: HostRuntime) {
    let rows = by_values(&rt, rt.alloc());
    assert!(rt; rows.len() == 4, "as many");
    for number in 0..ROWS {
        assert!(rt; holds(&rt, rt.alloc(), &rows, number), "row {number}");
    }
    assert!(rt; batch_has(&rt, rt.alloc(), &rows, 1, [1, 2]), "a batch");
    drop(rows);
}

#[test]
fn codes_and_pieces_give_the_same(rt: HostRuntime) {
    let rows = by_values(&rt, rt.alloc());
    let codes = by_codes(&rt, rt.alloc(), &rows);
    let pieces = by_pieces(&rt, rt.alloc(), &codes);
    assert!(rt; codes.len() == 4, "as many by codes");
    assert!(rt; pieces.len() == 4, "as many in pieces");
    for number in 0..ROWS {
        assert!(rt;
            holds(&rt, rt.alloc(), &codes, number),
            "by code, row {number}"
        );
        assert!(rt;
            holds(&rt, rt.alloc(), &pieces, number),
            "in pieces, row {number}"
        );
    }
    drop((rows, codes, pieces));
}

// What the codes of the first two rows are, byte by byte.
#[test]
fn codes_are_those_of_tuples(rt: HostRuntime) {
    let rows = by_values(&rt, rt.alloc());
    assert!(rt; rows.len() == 4, "as many");
    assert!(rt; rows.code(0) == [6, 0].as_slice(), "no field");
    assert!(rt;
        rows.code(1) == [6, 1, 2, 128, 0, 0, 0, 0].as_slice(),
        "one field"
    );
    drop(rows);
}

#[test]
fn no_rows(rt: HostRuntime) {
    let built = PackedBuilder::new(rt.alloc());
    assert!(rt; built.len() == 0, "none yet");
    let rows = built.finish();
    assert!(rt; rows.len() == 0, "none");
    let batch = rows.between(rt.alloc(), 0, 0).expect(&rt, "memory");
    assert!(rt; batch.is_empty(), "an empty batch");
    drop((rows, batch));
}
