//! The lines of packed rows, whole and by places, against lines that are written by hand.
ghost use Rattle.std.specs.Prelude.{◌≡◌, []};

use crate::packing::sound;
use pig_packed::{Packed, PackedBuilder};
use pig_packed_text::packed_text;
use pig_value::{Blob, Delim, Seq, Text, Tuple, Value};
use std::alloc::Global;
use std::process::Abort;

fn text<R: Abort>(rt: &R, alloc: Global, chars: &str) -> Value {
    Value::Chars(Text::from_str(alloc, chars).expect(rt, "memory"))
}

fn bytes<R: Abort>(rt: &R, alloc: Global, bytes: &[u8]) -> Value {
    Value::Bytes(Blob::from_vec(Vec::from_slice(alloc, bytes).expect(rt, "memory")))
}

// A tuple of a number and a null.
fn pair<R: Abort>(rt: &R, alloc: Global) -> Value {
    let mut fields = Seq::new(alloc);
    fields.push(Value::Int(1)).expect(rt, "memory");
    fields.push(Value::Null).expect(rt, "memory");
    Value::Tuple(fields)
}

fn field<R: Abort>(rt: &R, alloc: Global, number: u8) -> Value {
    match number {
        0 => Value::Null,
        1 => Value::Long(-5),
        2 => text(rt, alloc, "p q"),
        3 => text(rt, alloc, "a\u{0}b"),
        4 => bytes(rt, alloc, b"\x00A"),
        _ => pair(rt, alloc),
    }
}

// A row of each of these fields.
fn row_of_all<R: Abort>(rt: &R, alloc: Global) -> Tuple {
    let mut row = Seq::new(alloc);
    for number in 0..6 {
        row.push(field(rt, alloc, number)).expect(rt, "memory");
    }
    row
}

fn add<R: Abort>(rt: &R, alloc: Global, built: &mut PackedBuilder, any: &Tuple)
    requires { built.old.begun ≡ [] }
    ensures { built.new.begun ≡ [] }
{
    let row = sound(rt, alloc, any);
    built.push_row(&row).expect(rt, "memory");
    drop(row);
}

// That row, one without a field, and that row again.
fn rows<R: Abort>(rt: &R, alloc: Global) -> Packed {
    let mut built = PackedBuilder::new(alloc);
    let (all, none) = (row_of_all(rt, alloc), Seq::new(alloc));
    add(rt, alloc, &mut built, &all);
    add(rt, alloc, &mut built, &none);
    add(rt, alloc, &mut built, &all);
    drop((all, none));
    built.finish()
}

fn told<R: Abort>(rt: &R, alloc: Global, places: Option<&[u32]>) -> Vec<u8> {
    let delim = Delim::new(",").expect(rt, "a delimiter");
    let rows = rows(rt, alloc);
    let text = packed_text(alloc, &rows, places, delim).expect(rt, "memory");
    drop(rows);
    text
}

/// A text with a zero byte is written as it is, a null as nothing.
#[test]
fn rows_are_lines(rt: HostRuntime) {
    let alloc = rt.alloc();
    let whole = told(&rt, alloc, None);
    assert_eq!(rt;
        whole.as_slice(),
        b",-5,p q,a\x00b,\x00A,(1,)\n\n,-5,p q,a\x00b,\x00A,(1,)\n".as_slice()
    );
}

/// Fields stand in the order of the places; behind the last one there is nothing.
#[test]
fn fields_are_placed(rt: HostRuntime) {
    let alloc = rt.alloc();
    let placed = told(&rt, alloc, Some(&[2, 0, 9, 1]));
    assert_eq!(rt; placed.as_slice(), b"p q,,,-5\n,,,\np q,,,-5\n".as_slice());
}
