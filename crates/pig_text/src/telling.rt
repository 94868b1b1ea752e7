ghost use Rattle.std.specs.Prelude.{◌==◌, ◌++◌, [], ◌∷◌, map, if◌then◌else◌};
ghost use Rattle.std.specs.List.{join_with_byte};
ghost use Rattle.pig_value.specs.Texts.{text_of, row_text, bool_text, tuple_text, bracketed};
ghost use Rattle.pig_value.specs.Trees.{tree, row_tree, rows_tree, entry_of};
ghost use Rattle.pig_text.specs.Texts.{row_as_tuple, pair_text};

use crate::TextSink;
use itoa::Buffer;
use pig_value::{Delim, Pair, Tuple, Value};

/// Tells the text of a value.
#[cycle(text)]
pub fn tell_value<S: TextSink>(value: &Value, sink: &mut S)
    ensures { S.after sink.old (text_of (tree value.now)) sink.new }
{
    match value {
        Value::Null => sink.put(b""),
        Value::Bool(truth) => tell_bool(*truth, sink),
        Value::Int(number) => sink.put(Buffer::new().format(*number).as_bytes()),
        Value::Long(number) => sink.put(Buffer::new().format(*number).as_bytes()),
        Value::Chars(text) => sink.put(text.as_bytes()),
        Value::Bytes(bytes) => sink.put(bytes.as_slice()),
        Value::Tuple(fields) => tell_tuple(fields.as_slice(), sink),
        Value::Bag(rows) => tell_bag(rows.as_slice(), sink),
        Value::Listed(rows) => tell_bag(rows.as_slice(), sink),
        Value::Map(pairs) => tell_map(pairs.as_slice(), sink),
    }
}

/// Tells the text of a row, its fields' texts with the delimiter between each two, and an LF.
pub fn tell_row<S: TextSink>(row: &Tuple, delim: Delim, sink: &mut S)
    ensures { S.after sink.old (row_text delim (row_tree row.now) ++ 10 ∷ []) sink.new }
{
    tell_fields(row.as_slice(), delim.byte(), sink);
    sink.put(b"\n");
}

fn tell_bool<S: TextSink>(truth: bool, sink: &mut S)
    ensures { S.after sink.old (bool_text truth) sink.new }
{
    if truth {
        sink.put(b"true")
    } else {
        sink.put(b"false")
    }
}

// The texts of fields with the separator between each two.
#[cycle(text)]
fn tell_fields<S: TextSink>(fields: &[Value], separator: u8, sink: &mut S)
    ensures { S.after sink.old (join_with_byte separator
        (map text_of (row_tree fields.now))) sink.new }
{
    for i in 0..fields.len() {
        start_item(i, separator, sink);
        tell_value(&fields[i], sink);
    }
}

#[cycle(text)]
fn tell_tuple<S: TextSink>(fields: &[Value], sink: &mut S)
    ensures { S.after sink.old (tuple_text (map text_of (row_tree fields.now))) sink.new }
{
    sink.put(b"(");
    tell_fields(fields, b',', sink);
    sink.put(b")");
}

#[cycle(text)]
fn tell_rows<S: TextSink>(rows: &[Tuple], sink: &mut S)
    ensures { S.after sink.old (join_with_byte 44
        (map row_as_tuple (rows_tree rows.now))) sink.new }
{
    for i in 0..rows.len() {
        start_item(i, b',', sink);
        tell_tuple(rows[i].as_slice(), sink);
    }
}

#[cycle(text)]
fn tell_bag<S: TextSink>(rows: &[Tuple], sink: &mut S)
    ensures { S.after sink.old (bracketed 123
        (map row_as_tuple (rows_tree rows.now)) 125) sink.new }
{
    sink.put(b"{");
    tell_rows(rows, sink);
    sink.put(b"}");
}

#[cycle(text)]
fn tell_pair<S: TextSink>(pair: &Pair, sink: &mut S)
    ensures { S.after sink.old (pair_text (entry_of pair.now)) sink.new }
{
    sink.put(pair.key.as_bytes());
    sink.put(b"#");
    tell_value(&pair.value, sink);
}

#[cycle(text)]
fn tell_pairs<S: TextSink>(pairs: &[Pair], sink: &mut S)
    ensures { S.after sink.old (join_with_byte 44
        (map pair_text (map entry_of pairs.now))) sink.new }
{
    for i in 0..pairs.len() {
        start_item(i, b',', sink);
        tell_pair(&pairs[i], sink);
    }
}

#[cycle(text)]
fn tell_map<S: TextSink>(pairs: &[Pair], sink: &mut S)
    ensures { S.after sink.old (bracketed 91 (map pair_text (map entry_of pairs.now)) 93) sink.new }
{
    sink.put(b"[");
    tell_pairs(pairs, sink);
    sink.put(b"]");
}

// The separator before each item but the first.
fn start_item<S: TextSink>(at: usize, separator: u8, sink: &mut S)
    ensures { S.after sink.old (if at == 0 then [] else separator ∷ []) sink.new }
{
    if at == 0 {
        sink.put(b"");
    } else {
        sink.put(&[separator]);
    }
}
