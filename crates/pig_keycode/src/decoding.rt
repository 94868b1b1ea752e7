ghost use Rattle.std.specs.Prelude.{◌≡◌, ◌^◌, [], ◌∷◌, ◌++◌, length, map, ◌↔◌, IsTrue, IfOk, IfSome, MatchOption, FitsSigned, option_map, Some, IfErr, OnOk, List};
ghost use Rattle.std.specs.Int.{w32, w64, to_be_bytes};
ghost use Rattle.std.specs.Str.{IsUtf8};
ghost use Rattle.pig_value.specs.Trees.{Tree, v_chars, v_tuple, fields_of, tree, row_tree, rows_tree, entry_of};
ghost use Rattle.pig_value.specs.Orders.{row_cmp};
ghost use Rattle.pig_value.specs.Sorts.{Ascends, Rises};
ghost use Rattle.pig_value.specs.Leaves.{AreBytes};
ghost use Rattle.pig_value.specs.Valid.{TextsAscend, IsValue, IsRow, AreRows};
ghost use Rattle.pig_keycode.specs.declared.decoding.ReadFault.TheVariants.{OutOfMemory};
ghost use Rattle.pig_keycode.specs.Codes.{biased, text_code, code};
ghost use Rattle.pig_keycode.specs.Codable.{IsCodeOf, IsCodeOfRow};
ghost use Rattle.pig_keycode.specs.Reading.{Reads, StandsFirst, NoneFirst, mark_code, AnyMark, byte_code, IsByteOrEnd, row_code, fields_part, rows_part, pair_code, IsCodedPair, pairs_part, AreCodedPairs, pair_keys, KeyRises};

use crate::tags::{
    BAG, BOOL, BYTES, CHARS, END, ESCAPED, INT, ITEM, LISTED, LONG, MAP, NULL, TUPLE,
};
use crate::zeros::plain_length;
use pig_value::{Blob, Pair, Pairs, Rows, Seq, Text, Tuple, Value, known_bytes, order_rows};
use std::alloc::{AllocError, Global};
use std::cmp::Ordering;

/// Why no part is read.
#[derive(Debug, Drop)]
pub(crate) enum ReadFault {
    /// The bytes are off the grammar.
    Off,
    OutOfMemory,
}

impl From<AllocError> for ReadFault {
    ghost use Rattle.std.specs.Prelude.{◌≡◌};
    ghost use Rattle.pig_keycode.specs.declared.decoding.ReadFault.TheVariants.{OutOfMemory};

    ghost from_gives = { λ _ e. e ≡ OutOfMemory };

    fn from(_: AllocError) -> Self {
        ReadFault::OutOfMemory
    }
}

// A mark: whether another item stands in a list; also a truth value.
fn read_mark(bytes: &[u8]) -> Result<(bool, &[u8]), ReadFault>
    ensures { Reads (λ b. b) mark_code AnyMark bytes.now result }
{
    match bytes {
        [END, rest @ ..] => Ok((false, rest)),
        [ITEM, rest @ ..] => Ok((true, rest)),
        _ => Err(ReadFault::Off),
    }
}

// A byte of a text, or none at its end.
fn read_byte(bytes: &[u8]) -> Result<(Option<u8>, &[u8]), ReadFault>
    ensures { Reads (λ b. b) byte_code IsByteOrEnd bytes.now result }
{
    match bytes {
        [0, 0, rest @ ..] => Ok((None, rest)),
        [0, ESCAPED, rest @ ..] => Ok((Some(0), rest)),
        [0, ..] | [] => Err(ReadFault::Off),
        [byte, rest @ ..] => Ok((Some(*byte), rest)),
    }
}

// The bytes of a text up to the mark of its end.
fn read_text(alloc: Global, bytes: &[u8]) -> Result<(Vec<u8>, &[u8]), ReadFault>
    ensures { Reads (λ text. text.items) text_code AreBytes bytes.now result }
{
    let mut text = Vec::new(alloc);
    let mut rest = bytes;
    loop {
        let here = known_bytes(rest);
        let (plain, more) = here.split_at(plain_length(here));
        text.extend_from_slice(plain)?;
        let (byte, left) = read_byte(more)?;
        match byte {
            Some(byte) => push_byte(byte, &mut text)?,
            None => return Ok((text, left)),
        }
        rest = left;
    }
}

fn push_byte(byte: u8, text: &mut Vec<u8>) -> Result<(), AllocError>
    ensures { OnOk result (text.new.items ≡ text.old.items ++ byte ∷ []) }
{
    text.push(byte)?;
    Ok(())
}

fn read_int(bytes: &[u8]) -> Result<(i32, &[u8]), ReadFault>
    ensures { Reads (λ z. z) (λ z. to_be_bytes w32 (biased (2 ^ 31) z))
        (FitsSigned w32) bytes.now result }
{
    match bytes.split_first_chunk::<4>() {
        Some((number, rest)) => Ok((unbiased_int(u32::from_be_bytes(*number)), rest)),
        None => Err(ReadFault::Off),
    }
}

fn read_long(bytes: &[u8]) -> Result<(i64, &[u8]), ReadFault>
    ensures { Reads (λ z. z) (λ z. to_be_bytes w64 (biased (2 ^ 63) z))
        (FitsSigned w64) bytes.now result }
{
    match bytes.split_first_chunk::<8>() {
        Some((number, rest)) => Ok((unbiased_long(u64::from_be_bytes(*number)), rest)),
        None => Err(ReadFault::Off),
    }
}

fn unbiased_int(number: u32) -> i32
    ensures is { biased (2 ^ 31) result ≡ number }
    ensures fits { FitsSigned w32 result }
{
    number.wrapping_sub(1 << 31).cast_signed()
}

fn unbiased_long(number: u64) -> i64
    ensures is { biased (2 ^ 63) result ≡ number }
    ensures fits { FitsSigned w64 result }
{
    number.wrapping_sub(1 << 63).cast_signed()
}

// The text of bytes, if they are UTF-8.
fn utf8(bytes: Vec<u8>) -> Option<Text>
    ensures { MatchOption result (¬ IsUtf8 bytes.items)
        (λ text. (text ≡ bytes.items) × IsUtf8 bytes.items) }
{
    match String::from_utf8(bytes) {
        Ok(text) => Some(Text::from_string(text)),
        Err(_) => None,
    }
}

// The text of a chararray, up to the mark of its end.
fn read_chars(alloc: Global, bytes: &[u8]) -> Result<(Text, &[u8]), ReadFault>
    ensures { Reads (λ text. text) text_code IsUtf8 bytes.now result }
{
    let (text, rest) = read_text(alloc, bytes)?;
    match utf8(text) {
        Some(text) => Ok((text, rest)),
        None => Err(ReadFault::Off),
    }
}

// A key of a map.
fn read_key(alloc: Global, bytes: &[u8]) -> Result<(Text, &[u8]), ReadFault>
    ensures { Reads (λ text. text) (λ text. code (v_chars text)) IsUtf8 bytes.now result }
{
    match bytes {
        [CHARS, content @ ..] => read_chars(alloc, content),
        _ => Err(ReadFault::Off),
    }
}

// How many values may stand inside one another in a value that is read.
const LEVELS: u32 = 256;

// The levels that are left inside a value.
fn inner(levels: u32) -> Result<u32, ReadFault>
    ensures { IfErr result (λ fault. fault ≡ OutOfMemory) }
{
    match levels.checked_sub(1) {
        Some(left) => Ok(left),
        None => Err(ReadFault::OutOfMemory),
    }
}

// A value, by its tag; one that nests deeper than `levels` is answered as want of memory.
#[cycle(read)]
fn read_value(alloc: Global, levels: u32, bytes: &[u8]) -> Result<(Value, &[u8]), ReadFault>
    ensures { Reads tree code IsValue bytes.now result }
{
    match bytes.split_first() {
        Some((tag, content)) => read_content(alloc, inner(levels)?, *tag, content),
        None => Err(ReadFault::Off),
    }
}

#[cycle(read)]
fn read_content(
    alloc: Global,
    levels: u32,
    tag: u8,
    content: &[u8],
) -> Result<(Value, &[u8]), ReadFault>
    ensures { Reads tree code IsValue (tag ∷ content.now) result }
{
    match tag {
        NULL => Ok((Value::Null, content)),
        BOOL => read_bool_value(content),
        INT => read_int_value(content),
        LONG => read_long_value(content),
        CHARS => read_chars_value(alloc, content),
        BYTES => read_bytes_value(alloc, content),
        TUPLE => read_tuple_value(alloc, levels, content),
        BAG => read_bag_value(alloc, levels, content),
        LISTED => read_listed_value(alloc, levels, content),
        MAP => read_map_value(alloc, levels, content),
        _ => Err(ReadFault::Off),
    }
}

// The values of each form, behind their tags.
fn read_bool_value(content: &[u8]) -> Result<(Value, &[u8]), ReadFault>
    ensures { Reads tree code IsValue (1 ∷ content.now) result }
{
    let (truth, rest) = read_mark(content)?;
    Ok((Value::Bool(truth), rest))
}

fn read_int_value(content: &[u8]) -> Result<(Value, &[u8]), ReadFault>
    ensures { Reads tree code IsValue (2 ∷ content.now) result }
{
    let (number, rest) = read_int(content)?;
    Ok((Value::Int(number), rest))
}

fn read_long_value(content: &[u8]) -> Result<(Value, &[u8]), ReadFault>
    ensures { Reads tree code IsValue (3 ∷ content.now) result }
{
    let (number, rest) = read_long(content)?;
    Ok((Value::Long(number), rest))
}

fn read_chars_value(alloc: Global, content: &[u8]) -> Result<(Value, &[u8]), ReadFault>
    ensures { Reads tree code IsValue (4 ∷ content.now) result }
{
    let (text, rest) = read_chars(alloc, content)?;
    Ok((Value::Chars(text), rest))
}

fn read_bytes_value(alloc: Global, content: &[u8]) -> Result<(Value, &[u8]), ReadFault>
    ensures { Reads tree code IsValue (5 ∷ content.now) result }
{
    let (bytes, rest) = read_text(alloc, content)?;
    Ok((Value::Bytes(Blob::from_vec(bytes)), rest))
}

#[cycle(read)]
fn read_tuple_value(alloc: Global, levels: u32, content: &[u8]) -> Result<(Value, &[u8]), ReadFault>
    ensures { Reads tree code IsValue (6 ∷ content.now) result }
{
    let (fields, rest) = read_fields(alloc, levels, content)?;
    Ok((Value::Tuple(fields), rest))
}

#[cycle(read)]
fn read_bag_value(alloc: Global, levels: u32, content: &[u8]) -> Result<(Value, &[u8]), ReadFault>
    ensures { Reads tree code IsValue (7 ∷ content.now) result }
{
    let (rows, rest) = read_rows(alloc, levels, content)?;
    if is_bag(rows.as_slice()) {
        Ok((Value::Bag(rows), rest))
    } else {
        Err(ReadFault::Off)
    }
}

#[cycle(read)]
fn read_listed_value(
    alloc: Global,
    levels: u32,
    content: &[u8],
) -> Result<(Value, &[u8]), ReadFault>
    ensures { Reads tree code IsValue (8 ∷ content.now) result }
{
    let (rows, rest) = read_rows(alloc, levels, content)?;
    Ok((Value::Listed(rows), rest))
}

#[cycle(read)]
fn read_map_value(alloc: Global, levels: u32, content: &[u8]) -> Result<(Value, &[u8]), ReadFault>
    ensures { Reads tree code IsValue (9 ∷ content.now) result }
{
    let (pairs, rest) = read_pairs(alloc, levels, content)?;
    if keys_ascend(pairs.as_slice()) {
        Ok((Value::Map(pairs), rest))
    } else {
        Err(ReadFault::Off)
    }
}

// Lists, each to the mark behind its last item.
#[cycle(read)]
fn read_fields(alloc: Global, levels: u32, bytes: &[u8]) -> Result<(Tuple, &[u8]), ReadFault>
    ensures { Reads row_tree fields_part IsRow bytes.now result }
{
    let mut fields = Seq::new(alloc);
    let mut rest = bytes;
    loop {
        let (more, item) = read_mark(rest)?;
        if !more {
            return Ok((fields, item));
        }
        let (value, after) = read_value(alloc, levels, item)?;
        fields.push(value)?;
        rest = after;
    }
}

#[cycle(read)]
fn read_rows(alloc: Global, levels: u32, bytes: &[u8]) -> Result<(Rows, &[u8]), ReadFault>
    ensures { Reads rows_tree rows_part AreRows bytes.now result }
{
    let mut rows = Seq::new(alloc);
    let mut rest = bytes;
    loop {
        let (more, item) = read_mark(rest)?;
        if !more {
            return Ok((rows, item));
        }
        let (row, after) = read_row(alloc, levels, item)?;
        rows.push(row)?;
        rest = after;
    }
}

#[cycle(read)]
fn read_pairs(alloc: Global, levels: u32, bytes: &[u8]) -> Result<(Pairs, &[u8]), ReadFault>
    ensures { Reads (map entry_of) pairs_part AreCodedPairs bytes.now result }
{
    let mut pairs = Seq::new(alloc);
    let mut rest = bytes;
    loop {
        let (more, item) = read_mark(rest)?;
        if !more {
            return Ok((pairs, item));
        }
        let (pair, after) = read_pair(alloc, levels, item)?;
        pairs.push(pair)?;
        rest = after;
    }
}

// A tuple of a bag.
#[cycle(read)]
fn read_row(alloc: Global, levels: u32, bytes: &[u8]) -> Result<(Tuple, &[u8]), ReadFault>
    ensures { Reads row_tree row_code IsRow bytes.now result }
{
    match bytes {
        [TUPLE, content @ ..] => read_fields(alloc, levels, content),
        _ => Err(ReadFault::Off),
    }
}

// A key of a map with its value.
#[cycle(read)]
fn read_pair(alloc: Global, levels: u32, bytes: &[u8]) -> Result<(Pair, &[u8]), ReadFault>
    ensures { Reads entry_of pair_code IsCodedPair bytes.now result }
{
    let (key, after) = read_key(alloc, bytes)?;
    let (value, rest) = read_value(alloc, levels, after)?;
    Ok((Pair { key, value }, rest))
}

// Whether rows stand in the order of a bag.
fn is_bag(rows: &[Tuple]) -> bool
    ensures { IsTrue result ↔ Ascends row_cmp (rows_tree rows.now) }
{
    let mut rest = rows;
    while let [row, others @ ..] = rest {
        if !rises(row, others) {
            return false;
        }
        rest = others;
    }
    true
}

// Whether a row is not greater than the first of those behind it.
fn rises(row: &Tuple, others: &[Tuple]) -> bool
    ensures { IsTrue result ↔ Rises row_cmp (row_tree row.now) (rows_tree others.now) }
{
    match others {
        [next, ..] => order_rows(row, next) != Ordering::Greater,
        [] => true,
    }
}

// Whether the keys of a map ascend and differ.
fn keys_ascend(pairs: &[Pair]) -> bool
    ensures { IsTrue result ↔ TextsAscend (pair_keys (map entry_of pairs.now)) }
{
    let mut rest = pairs;
    while let [pair, others @ ..] = rest {
        if !key_rises(pair, others) {
            return false;
        }
        rest = others;
    }
    true
}

// Whether a key stands before the first of those behind it.
fn key_rises(pair: &Pair, others: &[Pair]) -> bool
    ensures { IsTrue result ↔ KeyRises pair.now.key (pair_keys (map entry_of others.now)) }
{
    match others {
        [next, ..] => pair.key.as_bytes().cmp(next.key.as_bytes()) == Ordering::Less,
        [] => true,
    }
}

/// The value of an ascending code, or none where the bytes are not the code of a value in the grammar: texts
/// in UTF-8, bags in their order, the keys of a map ascending and different, and nothing behind the code.
///
/// Bytes in which more than 256 values stand inside one another are answered as want of memory, so that the calls
/// nest no deeper.
pub fn decode(alloc: Global, bytes: &[u8]) -> Result<Option<Value>, AllocError>
    ensures value { IfOk result (λ found. MatchOption found ((v : Tree)
        → ¬ (IsCodeOf bytes.now v)) (λ v. IsCodeOf bytes.now (tree v))) }
    ensures round_trip { (v : Tree) → IsCodeOf bytes.now v
        → IfOk result (λ found. option_map tree found ≡ Some v) }
{
    match read_value(alloc, LEVELS, bytes) {
        Ok((value, rest)) => Ok(whole(value, rest)),
        Err(ReadFault::Off) => Ok(None),
        Err(ReadFault::OutOfMemory) => Err(AllocError),
    }
}

/// The row of the ascending code of a tuple, or none where [`decode`] finds no tuple.
pub fn decode_row(alloc: Global, bytes: &[u8]) -> Result<Option<Tuple>, AllocError>
    ensures row { IfOk result (λ found. MatchOption found ((row : List Tree)
        → ¬ (IsCodeOfRow bytes.now row)) (λ row. IsCodeOfRow bytes.now (row_tree row))) }
    ensures round_trip { (row : List Tree) → IsCodeOfRow bytes.now row
        → IfOk result (λ found. option_map row_tree found ≡ Some row) }
{
    match decode(alloc, bytes) {
        Ok(Some(value)) => Ok(value.into_tuple()),
        Ok(None) => Ok(None),
        Err(fault) => Err(fault),
    }
}

/// The value whose ascending code the bytes begin with, and the bytes behind it; none where they begin with no code.
/// The limit of [`decode`] holds.
pub fn read_code(alloc: Global, bytes: &[u8]) -> Result<Option<(Value, &[u8])>, AllocError>
    ensures { IfOk result (λ found. MatchOption found (NoneFirst code IsValue bytes.now)
        (λ read. StandsFirst code IsValue bytes.now (tree read.0) read.1.now)) }
{
    match read_value(alloc, LEVELS, bytes) {
        Ok(read) => Ok(Some(read)),
        Err(ReadFault::Off) => Ok(None),
        Err(ReadFault::OutOfMemory) => Err(AllocError),
    }
}

// A value behind which nothing is left.
fn whole(value: Value, rest: &[u8]) -> Option<Value>
    ensures { MatchOption result (¬ (rest.now ≡ [])) (λ v. (v ≡ value) × (rest.now ≡ [])) }
{
    if rest.is_empty() { Some(value) } else { None }
}
