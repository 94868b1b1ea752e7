ghost use Rattle.std.specs.Prelude.{◌≡◌, ◌≤◌, ◌<◌, ◌^◌, ◌+◌, [], ◌∷◌, ◌++◌, length, take, drop, map, ◌-◌, OnOk, OnErr, IfSome, IfNone};
ghost use Rattle.std.specs.Int.{w32, w64, to_be_bytes};
ghost use Rattle.pig_value.specs.Trees.{at, tree, row_tree, rows_tree, entry_of, fields_of, tuples_of, entries_of};
ghost use Rattle.pig_value.specs.declared.operators.Dir.{Dir};
ghost use Rattle.pig_keycode.specs.Appends.{Appends};
ghost use Rattle.pig_keycode.specs.Codes.{bool_code, biased, escaped, text_code, code, fields_code, tuples_code, entries_code, turned, in_direction, code_in};
ghost use Rattle.pig_keycode.specs.Keys.{fields_at, fields_of_key, key_code, codes_in};
ghost use Rattle.pig_keycode.specs.Reading.{row_code};

use crate::tags::{
    BAG, BOOL, BYTES, CHARS, END, ESCAPED, INT, ITEM, LISTED, LONG, MAP, NULL, TUPLE,
};
use crate::zeros::cut_at_zero;
use pig_value::{Blob, Dir, Dirs, Pairs, Rows, Text, Tuple, Value, field_at};
use std::alloc::AllocError;

/// Appends the code of a value in a direction. Where memory is wanting, `out` stays as it was.
///
/// The calls nest as deep as the value does.
pub fn encode(v: &Value, dir: Dir, out: &mut Vec<u8>) -> Result<(), AllocError>
    ensures ok { OnOk result (out.new.items ≡ out.old.items ++ code_in dir (tree v.now)) }
    ensures err { OnErr result (out.new.items ≡ out.old.items) }
{
    let start = out.len();
    match write_value(v, out) {
        Ok(()) => {
            direct(dir, start, out);
            Ok(())
        }
        Err(fault) => {
            out.truncate(start);
            Err(fault)
        }
    }
}

/// Appends the ascending code of a row as a tuple. Where memory is wanting, `out` stays as it was.
pub fn encode_row(row: &Tuple, out: &mut Vec<u8>) -> Result<(), AllocError>
    ensures ok { OnOk result (out.new.items ≡ out.old.items ++ row_code (row_tree row.now)) }
    ensures err { OnErr result (out.new.items ≡ out.old.items) }
{
    let start = out.len();
    match write_fields(TUPLE, row, out) {
        Ok(()) => Ok(()),
        Err(fault) => {
            out.truncate(start);
            Err(fault)
        }
    }
}

/// Appends the code of a key: ascending where there are no directions, or else the codes of its fields, each in
/// its own direction. Where memory is wanting, `out` stays as it was.
pub fn encode_key(key: &Value, dirs: &Dirs, out: &mut Vec<u8>) -> Result<(), AllocError>
    ensures ok { OnOk result (out.new.items ≡ out.old.items ++ key_code dirs.now (tree key.now)) }
    ensures err { OnErr result (out.new.items ≡ out.old.items) }
{
    let start = out.len();
    match write_key(key, dirs.as_slice(), out) {
        Ok(()) => Ok(()),
        Err(fault) => {
            out.truncate(start);
            Err(fault)
        }
    }
}

/// Appends the code of the key that a row's fields at places are, each in its own direction, as [`encode_key`] has it of
/// their tuple. A place behind the row's end has a null. Where memory is wanting, `out` stays as it was.
pub fn encode_places(
    row: &Tuple,
    places: &[u32],
    dirs: &Dirs,
    out: &mut Vec<u8>,
) -> Result<(), AllocError>
    ensures ok { OnOk result (out.new.items ≡ out.old.items
        ++ codes_in dirs.now (fields_at places.now (row_tree row.now))) }
    ensures err { OnErr result (out.new.items ≡ out.old.items) }
{
    let start = out.len();
    match write_places(row, places, dirs.as_slice(), out) {
        Ok(()) => Ok(()),
        Err(fault) => {
            out.truncate(start);
            Err(fault)
        }
    }
}

fn write_key(key: &Value, dirs: &[Dir], out: &mut Vec<u8>) -> Result<(), AllocError>
    ensures { Appends out.old.items (key_code dirs.now (tree key.now)) out.new.items result }
{
    match dirs {
        [] => write_value(key, out),
        [_, ..] => write_directed(fields_of_key(key), dirs, out),
    }
}

// The fields of a key that is a tuple.
fn fields_of_key(key: &Value) -> &[Value]
    ensures { row_tree result.now ≡ fields_of_key (tree key.now) }
{
    match key {
        Value::Tuple(fields) => fields.as_slice(),
        _ => &[],
    }
}

// Appends the codes of fields, each in its own direction.
fn write_directed(fields: &[Value], dirs: &[Dir], out: &mut Vec<u8>) -> Result<(), AllocError>
    ensures { Appends out.old.items (codes_in dirs.now (row_tree fields.now)) out.new.items result }
{
    let mut left = fields;
    for dir in dirs {
        match left {
            [field, others @ ..] => {
                write_in(*dir, field, out)?;
                left = others;
            }
            [] => return Ok(()),
        }
    }
    Ok(())
}

fn write_in(dir: Dir, value: &Value, out: &mut Vec<u8>) -> Result<(), AllocError>
    ensures { Appends out.old.items (code_in dir (tree value.now)) out.new.items result }
{
    encode(value, dir, out)
}

// Appends the codes of a row's fields at places, each in its own direction.
fn write_places(
    row: &Tuple,
    places: &[u32],
    dirs: &[Dir],
    out: &mut Vec<u8>,
) -> Result<(), AllocError>
    ensures { Appends out.old.items
        (codes_in dirs.now (fields_at places.now (row_tree row.now))) out.new.items result }
{
    let mut left = places;
    for dir in dirs {
        match left {
            [place, others @ ..] => {
                write_place(row, *place, *dir, out)?;
                left = others;
            }
            [] => return Ok(()),
        }
    }
    Ok(())
}

fn write_place(row: &Tuple, place: u32, dir: Dir, out: &mut Vec<u8>) -> Result<(), AllocError>
    ensures { Appends out.old.items
        (code_in dir (at place (row_tree row.now))) out.new.items result }
{
    match field_at(row, place) {
        Some(value) => write_in(dir, value, out),
        None => write_in(dir, &Value::Null, out),
    }
}

// Appends the ascending code of a value.
#[cycle(code)]
fn write_value(value: &Value, out: &mut Vec<u8>) -> Result<(), AllocError>
    ensures { Appends out.old.items (code (tree value.now)) out.new.items result }
{
    match value {
        Value::Null => write_bytes(&[NULL], out),
        Value::Bool(truth) => write_bytes(&[BOOL, bool_byte(*truth)], out),
        Value::Int(number) => write_int(*number, out),
        Value::Long(number) => write_long(*number, out),
        Value::Chars(text) => write_chars(text, out),
        Value::Bytes(bytes) => write_blob(bytes, out),
        Value::Tuple(fields) => write_fields(TUPLE, fields, out),
        Value::Bag(rows) => write_rows(BAG, rows, out),
        Value::Listed(rows) => write_rows(LISTED, rows, out),
        Value::Map(pairs) => write_pairs(MAP, pairs, out),
    }
}

// Appends a tag, and the codes of fields.
#[cycle(code)]
fn write_fields(tag: u8, fields: &Tuple, out: &mut Vec<u8>) -> Result<(), AllocError>
    ensures { Appends out.old.items
        (tag ∷ fields_code (fields_of (row_tree fields.now))) out.new.items result }
{
    out.push(tag)?;
    for value in fields.as_slice() {
        out.push(ITEM)?;
        write_value(value, out)?;
    }
    out.push(END)?;
    Ok(())
}

#[cycle(code)]
fn write_rows(tag: u8, rows: &Rows, out: &mut Vec<u8>) -> Result<(), AllocError>
    ensures { Appends out.old.items
        (tag ∷ tuples_code (tuples_of (rows_tree rows.now))) out.new.items result }
{
    out.push(tag)?;
    for row in rows.as_slice() {
        out.push(ITEM)?;
        write_fields(TUPLE, row, out)?;
    }
    out.push(END)?;
    Ok(())
}

#[cycle(code)]
fn write_pairs(tag: u8, pairs: &Pairs, out: &mut Vec<u8>) -> Result<(), AllocError>
    ensures { Appends out.old.items
        (tag ∷ entries_code (entries_of (map entry_of pairs.now))) out.new.items result }
{
    out.push(tag)?;
    for pair in pairs.as_slice() {
        out.push(ITEM)?;
        write_chars(&pair.key, out)?;
        write_value(&pair.value, out)?;
    }
    out.push(END)?;
    Ok(())
}

// Appends the code of a chararray.
fn write_chars(text: &Text, out: &mut Vec<u8>) -> Result<(), AllocError>
    ensures { Appends out.old.items (4 ∷ text_code text.now) out.new.items result }
{
    write_text(CHARS, text.as_str().as_bytes(), out)
}

fn write_blob(bytes: &Blob, out: &mut Vec<u8>) -> Result<(), AllocError>
    ensures { Appends out.old.items (5 ∷ text_code bytes.now) out.new.items result }
{
    write_text(BYTES, bytes.as_slice(), out)
}

// Appends a tag, and the bytes of a text with the mark of its end.
fn write_text(tag: u8, text: &[u8], out: &mut Vec<u8>) -> Result<(), AllocError>
    ensures { Appends out.old.items (tag ∷ text_code text.now) out.new.items result }
{
    out.push(tag)?;
    let mut rest = text;
    while let Some((plain, more)) = cut_at_zero(rest) {
        write_bytes(plain, out)?;
        write_bytes(&[0, ESCAPED], out)?;
        rest = more;
    }
    write_bytes(rest, out)?;
    write_bytes(&[END, END], out)?;
    Ok(())
}

fn write_int(number: i32, out: &mut Vec<u8>) -> Result<(), AllocError>
    ensures { Appends out.old.items
        (2 ∷ to_be_bytes w32 (biased (2 ^ 31) number)) out.new.items result }
{
    out.push(INT)?;
    write_bytes(&biased_int(number).to_be_bytes(), out)
}

fn write_long(number: i64, out: &mut Vec<u8>) -> Result<(), AllocError>
    ensures { Appends out.old.items
        (3 ∷ to_be_bytes w64 (biased (2 ^ 63) number)) out.new.items result }
{
    out.push(LONG)?;
    write_bytes(&biased_long(number).to_be_bytes(), out)
}

// The number from the least of its width on, so that the bytes of a negative one stand first.
fn biased_int(number: i32) -> u32
    ensures { result ≡ biased (2 ^ 31) number }
{
    number.cast_unsigned().wrapping_add(1 << 31)
}

fn biased_long(number: i64) -> u64
    ensures { result ≡ biased (2 ^ 63) number }
{
    number.cast_unsigned().wrapping_add(1 << 63)
}

fn bool_byte(truth: bool) -> u8
    ensures { result ≡ bool_code truth }
{
    if truth { 1 } else { 0 }
}

fn write_bytes(bytes: &[u8], out: &mut Vec<u8>) -> Result<(), AllocError>
    ensures { Appends out.old.items bytes.now out.new.items result }
{
    out.extend_from_slice(bytes)?;
    Ok(())
}

// Puts an ascending code from a place on into a direction.
fn direct(dir: Dir, from: usize, out: &mut Vec<u8>)
    requires { from ≤ length out.old.items }
    ensures { out.new.items ≡ take from out.old.items
        ++ in_direction dir (drop from out.old.items) }
{
    match dir {
        Dir::Asc => {}
        Dir::Desc => turn_from(from, out),
    }
}

fn turn_from(from: usize, out: &mut Vec<u8>)
    requires { from ≤ length out.old.items }
    ensures { out.new.items ≡ take from out.old.items ++ turned (drop from out.old.items) }
{
    for i in from..out.len() {
        out[i] = turned_byte(out[i]);
    }
}

fn turned_byte(byte: u8) -> u8
    ensures { result ≡ 255 - byte }
{
    255 - byte
}
