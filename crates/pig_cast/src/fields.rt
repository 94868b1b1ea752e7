ghost use Rattle.std.specs.Prelude.{◌≡◌, List, ℕ, map, IfOk};
ghost use Rattle.std.specs.Option.{option_map, unwrap_or};
ghost use Rattle.std.specs.Str.Lossy.{utf8_lossy};
ghost use Rattle.pig_value.specs.Fields.{IsField, entries_by_key};
ghost use Rattle.pig_value.specs.FieldReader.{all_of, case_of, field_value, fields_in, pair_in, pairs_in, row_in, rows_in, value_in};
ghost use Rattle.pig_value.specs.Trees.{v_null, v_tuple, v_bag, v_map, v_bool, v_bytes, v_chars, v_int, v_long, fields_of, tuples_of, entries_of, tree, row_tree, rows_tree, entry_of, kind_tree, kinds_of};
ghost use Rattle.pig_value.specs.Orders.{bag_of};
ghost use Rattle.pig_cast.specs.Keyed.{keyed};

use crate::cutting::{any_items_between, item_at, items_between, key_and_value};
use crate::keys::{in_order, put};
use crate::numbers::{boolean, int, long};
use crate::texts::{lossy_text, lossy_text_over};
use pig_value::{Blob, Kind, Pairs, Rows, Seq, Text, Tuple, Value, bag};
use std::alloc::{AllocError, Global};
use std::collections::BTreeMap;

/// The value of a field's bytes at a kind: null where they are empty, or no text of the kind.
pub fn read_field(alloc: Global, bytes: &[u8], k: &Kind) -> Result<Value, AllocError>
    ensures { IfOk result (λ v. IsField (kind_tree k.now) bytes.now (tree v)) }
{
    let value = read_value(alloc, bytes, k)?;
    Ok(value)
}

/// The value of a field's bytes at a kind, as [`read_field`] has it, in the place of another value: where both are
/// texts or both are bytes, the new one takes the memory of the old.
pub fn read_field_over(
    alloc: Global,
    bytes: &[u8],
    k: &Kind,
    old: Value,
) -> Result<Value, AllocError>
    ensures { IfOk result (λ v. IsField (kind_tree k.now) bytes.now (tree v)) }
{
    let value = value_over(alloc, bytes, k, old)?;
    Ok(value)
}

fn value_over(alloc: Global, bytes: &[u8], kind: &Kind, old: Value) -> Result<Value, AllocError>
    ensures { IfOk result (λ v. tree v ≡ field_value (kind_tree kind.now) bytes.now) }
{
    match kind {
        Kind::Chararray if !bytes.is_empty() => chars_over(alloc, bytes, old),
        Kind::Bytearray if !bytes.is_empty() => bytes_over(alloc, bytes, old),
        _ => read_value(alloc, bytes, kind),
    }
}

fn chars_over(alloc: Global, bytes: &[u8], old: Value) -> Result<Value, AllocError>
    ensures { IfOk result (λ v. tree v ≡ v_chars (utf8_lossy bytes.now)) }
{
    let text = match old.into_text() {
        Some(text) => lossy_text_over(text, bytes)?,
        None => lossy_text(alloc, bytes)?,
    };
    Ok(Value::Chars(Text::from_string(text)))
}

fn bytes_over(alloc: Global, bytes: &[u8], old: Value) -> Result<Value, AllocError>
    ensures { IfOk result (λ v. tree v ≡ v_bytes bytes.now) }
{
    match old.into_blob() {
        Some(blob) => Ok(Value::Bytes(refilled(blob, bytes)?)),
        None => Ok(Value::Bytes(Blob::from_slice(alloc, bytes)?)),
    }
}

fn refilled(old: Blob, bytes: &[u8]) -> Result<Blob, AllocError>
    ensures { IfOk result (λ b. b ≡ bytes.now) }
{
    let mut blob = old.into_vec();
    blob.clear();
    blob.extend_from_slice(bytes)?;
    Ok(Blob::from_vec(blob))
}

/// The value of a field's bytes, by the function that gives each field's one value.
#[cycle(read)]
pub(crate) fn read_value(alloc: Global, bytes: &[u8], kind: &Kind) -> Result<Value, AllocError>
    ensures { IfOk result (λ v. tree v ≡ field_value (kind_tree kind.now) bytes.now) }
{
    if bytes.is_empty() {
        return Ok(Value::Null);
    }
    let value = read_case(alloc, bytes, kind)?;
    Ok(value_or_null(value))
}

fn value_or_null(value: Option<Value>) -> Value
    ensures { tree result ≡ unwrap_or (option_map tree value) v_null }
{
    match value {
        Some(value) => value,
        None => Value::Null,
    }
}

// The value of bytes that are a text of the kind.
#[cycle(read)]
fn read_case(alloc: Global, bytes: &[u8], kind: &Kind) -> Result<Option<Value>, AllocError>
    ensures { IfOk result (λ v. option_map tree v ≡ case_of (kind_tree kind.now) bytes.now) }
{
    match kind {
        Kind::Boolean => Ok(bool_value(boolean(bytes))),
        Kind::Int => Ok(int_value(int(bytes))),
        Kind::Long => Ok(long_value(long(bytes))),
        Kind::Chararray => {
            let text = lossy_text(alloc, bytes)?;
            Ok(Some(Value::Chars(Text::from_string(text))))
        }
        Kind::Bytearray => {
            let copied = Blob::from_slice(alloc, bytes)?;
            Ok(Some(Value::Bytes(copied)))
        }
        Kind::Tuple(kinds) => {
            let row = read_row(alloc, bytes, kinds.as_slice())?;
            Ok(tuple_value(row))
        }
        Kind::Bag(kinds) => {
            let rows = read_rows(alloc, bytes, kinds.as_slice())?;
            Ok(bag_value(rows))
        }
        Kind::Map(of) => {
            let pairs = read_pairs(alloc, bytes, of.get())?;
            Ok(map_value(pairs))
        }
    }
}

fn bool_value(read: Option<bool>) -> Option<Value>
    ensures { option_map tree result ≡ option_map v_bool read }
{
    match read {
        Some(read) => Some(Value::Bool(read)),
        None => None,
    }
}

fn int_value(read: Option<i32>) -> Option<Value>
    ensures { option_map tree result ≡ option_map v_int read }
{
    match read {
        Some(read) => Some(Value::Int(read)),
        None => None,
    }
}

fn long_value(read: Option<i64>) -> Option<Value>
    ensures { option_map tree result ≡ option_map v_long read }
{
    match read {
        Some(read) => Some(Value::Long(read)),
        None => None,
    }
}

fn tuple_value(row: Option<Tuple>) -> Option<Value>
    ensures { option_map tree result ≡ option_map
        (λ r. v_tuple (fields_of r)) (option_map row_tree row) }
{
    match row {
        Some(row) => Some(Value::Tuple(row)),
        None => None,
    }
}

fn bag_value(rows: Option<Rows>) -> Option<Value>
    ensures { option_map tree result ≡ option_map
        (λ rs. v_bag (tuples_of (bag_of rs))) (option_map rows_tree rows) }
{
    match rows {
        Some(rows) => Some(Value::Bag(bag(rows))),
        None => None,
    }
}

fn map_value(pairs: Option<Pairs>) -> Option<Value>
    ensures { option_map tree result ≡ option_map
        (λ ps. v_map (entries_of ps)) (option_map (map entry_of) pairs) }
{
    match pairs {
        Some(pairs) => Some(Value::Map(pairs)),
        None => None,
    }
}

// The fields of a tuple text.
#[cycle(read)]
fn read_row(alloc: Global, bytes: &[u8], kinds: &[Kind]) -> Result<Option<Tuple>, AllocError>
    ensures { IfOk result (λ row. option_map row_tree row
        ≡ row_in (fields_in (kinds_of (map kind_tree kinds.now))) bytes.now) }
{
    match items_between(alloc, bytes, b'(', b')')? {
        Some(texts) => {
            let row = read_fields(alloc, texts.as_slice(), kinds)?;
            Ok(Some(row))
        }
        None => Ok(None),
    }
}

// The items in turn, each by its kind.
#[cycle(read)]
fn read_fields(alloc: Global, texts: &[&[u8]], kinds: &[Kind]) -> Result<Tuple, AllocError>
    ensures { IfOk result (λ row. row_tree row
        ≡ fields_in (kinds_of (map kind_tree kinds.now)) (map (λ text. text.now) texts.now)) }
{
    let mut row = Vec::with_capacity(alloc, kinds.len())?;
    for i in 0..kinds.len() {
        let value = read_value(alloc, item_at(texts, i), &kinds[i])?;
        row.push(value)?;
    }
    Ok(Seq::from_vec(row))
}

// The rows of a bag text, before they are sorted.
#[cycle(read)]
fn read_rows(alloc: Global, bytes: &[u8], kinds: &[Kind]) -> Result<Option<Rows>, AllocError>
    ensures { IfOk result (λ rows. option_map rows_tree rows
        ≡ rows_in (row_in (fields_in (kinds_of (map kind_tree kinds.now)))) bytes.now) }
{
    match any_items_between(alloc, bytes, b'{', b'}')? {
        Some(texts) => read_each_row(alloc, texts, kinds),
        None => Ok(None),
    }
}

#[cycle(read)]
fn read_each_row(
    alloc: Global,
    texts: Vec<&[u8]>,
    kinds: &[Kind],
) -> Result<Option<Rows>, AllocError>
    ensures { IfOk result (λ rows. option_map rows_tree rows
        ≡ all_of (row_in (fields_in (kinds_of (map kind_tree kinds.now))))
        (map (λ text. text.now) texts.entry.items)) }
{
    let mut rows = Vec::with_capacity(alloc, texts.len())?;
    for i in 0..texts.len() {
        match read_row(alloc, texts[i], kinds)? {
            Some(row) => rows.push(row)?,
            None => return Ok(None),
        }
    }
    Ok(Some(Seq::from_vec(rows)))
}

// The pairs of a map text by ascending keys, of equal keys the last.
#[cycle(read)]
fn read_pairs(alloc: Global, bytes: &[u8], kind: &Kind) -> Result<Option<Pairs>, AllocError>
    ensures { IfOk result (λ pairs. option_map (map entry_of) pairs ≡ option_map entries_by_key
        (pairs_in (pair_in (value_in (case_of (kind_tree kind.now)))) bytes.now)) }
{
    match any_items_between(alloc, bytes, b'[', b']')? {
        Some(texts) => read_each_pair(alloc, texts, kind),
        None => Ok(None),
    }
}

#[cycle(read)]
fn read_each_pair(
    alloc: Global,
    texts: Vec<&[u8]>,
    kind: &Kind,
) -> Result<Option<Pairs>, AllocError>
    ensures { IfOk result (λ pairs. option_map (map entry_of) pairs
        ≡ option_map entries_by_key (all_of (pair_in (value_in (case_of (kind_tree kind.now))))
        (map (λ text. text.now) texts.entry.items))) }
{
    let mut entries = BTreeMap::new(alloc);
    for i in 0..texts.len() {
        match read_pair(alloc, texts[i], kind)? {
            Some((key, value)) => put(&mut entries, key, value)?,
            None => return Ok(None),
        }
    }
    let pairs = in_order(alloc, entries)?;
    Ok(Some(pairs))
}

// The pair of a key, `#` and a value.
#[cycle(read)]
fn read_pair(alloc: Global, item: &[u8], kind: &Kind) -> Result<Option<(String, Value)>, AllocError>
    ensures { IfOk result (λ pair. option_map keyed pair
        ≡ pair_in (value_in (case_of (kind_tree kind.now))) item.now) }
{
    match key_and_value(item) {
        Some((key, text)) => {
            let key = lossy_text(alloc, key)?;
            let value = read_value(alloc, text, kind)?;
            Ok(Some((key, value)))
        }
        None => Ok(None),
    }
}
