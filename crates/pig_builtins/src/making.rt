ghost use Rattle.std.specs.Prelude.{◌≡◌, [], ◌∷◌, ◌==◌, if◌then◌else◌, IfOk, length, Some, None};
ghost use Rattle.std.proofs.Math.ListN.{replicate};
ghost use Rattle.std.specs.List.{concat};
ghost use Rattle.std.specs.Option.{option_map};
ghost use Rattle.pig_value.specs.FieldReader.{all_of};
ghost use Rattle.pig_value.specs.Functions.{bytes_in, concat_tree, row_from, text_in, tobag_tree, totuple_tree};
ghost use Rattle.pig_value.specs.Trees.{rows_tree, row_tree, tree, v_null};

use pig_value::{Blob, Rows, Seq, Text, Tuple, Value, bag, copy, copy_row};
use std::alloc::{AllocError, Global};

// CONCAT.
#[tactic(auto, using(crate::proofs::Joined::concat_few, crate::proofs::Joined::concat_texts, crate::proofs::Joined::concat_bytes, crate::proofs::Joined::concat_none))]
pub fn concat(alloc: Global, args: &[Value]) -> Result<Value, AllocError>
    ensures { IfOk result (λ v. tree v ≡ concat_tree (row_tree args.now)) }
{
    if args.len() < 2 {
        return Ok(Value::Null);
    }
    if let Some(text) = join_texts(alloc, args)? {
        return Ok(Value::Chars(text));
    }
    match join_bytes(alloc, args)? {
        Some(bytes) => Ok(Value::Bytes(bytes)),
        None => Ok(Value::Null),
    }
}

// The chararrays joined, where all are such.
fn join_texts(alloc: Global, args: &[Value]) -> Result<Option<Text>, AllocError>
    ensures { IfOk result (λ joined. joined
        ≡ option_map concat (all_of text_in (row_tree args.now))) }
{
    let mut joined = String::new(alloc);
    for arg in args {
        match text_of(arg) {
            Some(text) => joined.push_str(text.as_str())?,
            None => return Ok(None),
        }
    }
    Ok(Some(Text::from_string(joined)))
}

fn text_of(v: &Value) -> Option<&Text>
    ensures { option_map (λ text. text.now) result ≡ text_in (tree v.now) }
{
    match v {
        Value::Chars(text) => Some(text),
        _ => None,
    }
}

// The bytearrays joined, where all are such.
fn join_bytes(alloc: Global, args: &[Value]) -> Result<Option<Blob>, AllocError>
    ensures { IfOk result (λ joined. joined
        ≡ option_map concat (all_of bytes_in (row_tree args.now))) }
{
    let mut joined = Vec::new(alloc);
    for arg in args {
        match bytes_of(arg) {
            Some(bytes) => joined.extend_from_slice(bytes.as_slice())?,
            None => return Ok(None),
        }
    }
    Ok(Some(Blob::from_vec(joined)))
}

fn bytes_of(v: &Value) -> Option<&Blob>
    ensures { option_map (λ bytes. bytes.now) result ≡ bytes_in (tree v.now) }
{
    match v {
        Value::Bytes(bytes) => Some(bytes),
        _ => None,
    }
}

// TOTUPLE.
#[tactic(auto, using(crate::proofs::Trees::tuple_made))]
pub fn to_tuple(alloc: Global, args: &Tuple) -> Result<Value, AllocError>
    ensures { IfOk result (λ v. tree v ≡ totuple_tree (row_tree args.now)) }
{
    if args.is_empty() {
        Ok(Value::Null)
    } else {
        Ok(Value::Tuple(copy_row(alloc, args)?))
    }
}

// TOBAG.
#[tactic(auto, using(crate::proofs::Joined::tobag_some, crate::proofs::Joined::tobag_none))]
pub fn to_bag(alloc: Global, width: Option<u32>, args: &[Value]) -> Result<Value, AllocError>
    ensures { IfOk result (λ v. tree v ≡ tobag_tree width (row_tree args.now)) }
{
    if args.is_empty() {
        return Ok(Value::Null);
    }
    match rows_from(alloc, width, args)? {
        Some(rows) => Ok(Value::Bag(bag(rows))),
        None => Ok(Value::Null),
    }
}

// A row for each argument, where each gives one.
fn rows_from(alloc: Global, width: Option<u32>, args: &[Value]) -> Result<Option<Rows>, AllocError>
    ensures { IfOk result (λ rows. option_map rows_tree rows
        ≡ all_of (row_from width) (row_tree args.now)) }
{
    let mut rows = Seq::new(alloc);
    for arg in args {
        match row_from(alloc, width, arg)? {
            Some(row) => rows.push(row)?,
            None => return Ok(None),
        }
    }
    Ok(Some(rows))
}

// The row of an argument: its fields where tuples are wanted, and else the one field that it is.
#[tactic(auto, using(crate::proofs::Trees::tuple_row))]
fn row_from(alloc: Global, width: Option<u32>, arg: &Value) -> Result<Option<Tuple>, AllocError>
    ensures { IfOk result (λ row. option_map row_tree row ≡ row_from width (tree arg.now)) }
{
    match (width, arg) {
        (None, Value::Tuple(_)) => Ok(None),
        (None, _) => Ok(Some(alone(alloc, arg)?)),
        (Some(width), Value::Null) => Ok(Some(nulls(alloc, width)?)),
        (Some(width), Value::Tuple(fields)) => as_wide(alloc, width, fields),
        (Some(_), _) => Ok(None),
    }
}

// The fields, where there are as many as wanted.
fn as_wide(alloc: Global, width: u32, fields: &Tuple) -> Result<Option<Tuple>, AllocError>
    ensures { IfOk result (λ row. option_map row_tree row
        ≡ (if length fields.now == width then Some (row_tree fields.now) else None)) }
{
    if fields.len() == width as usize {
        Ok(Some(copy_row(alloc, fields)?))
    } else {
        Ok(None)
    }
}

fn alone(alloc: Global, v: &Value) -> Result<Tuple, AllocError>
    ensures { IfOk result (λ row. row_tree row ≡ tree v.now ∷ []) }
{
    let mut row = Seq::new(alloc);
    row.push(copy(alloc, v)?)?;
    Ok(row)
}

fn nulls(alloc: Global, width: u32) -> Result<Tuple, AllocError>
    ensures { IfOk result (λ row. row_tree row ≡ replicate width v_null) }
{
    let mut row = Seq::new(alloc);
    for _i in 0..width {
        row.push(Value::Null)?;
    }
    Ok(row)
}
