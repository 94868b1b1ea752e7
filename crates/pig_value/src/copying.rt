ghost use Rattle.std.specs.Prelude.{◌≡◌, IfOk};

use crate::{Boxed, Kind, Kinds, Pair, Pairs, Rows, Seq, Tuple, Value};
use std::alloc::{AllocError, Global};

/// A copy of a value, which holds memory of its own.
#[cycle(copy)]
pub fn copy(alloc: Global, v: &Value) -> Result<Value, AllocError>
    ensures { IfOk result (λ w. w ≡ v.now) }
{
    match v {
        Value::Null => Ok(Value::Null),
        Value::Bool(b) => Ok(Value::Bool(*b)),
        Value::Int(n) => Ok(Value::Int(*n)),
        Value::Long(n) => Ok(Value::Long(*n)),
        Value::Chars(text) => Ok(Value::Chars(text.copy(alloc)?)),
        Value::Bytes(bytes) => Ok(Value::Bytes(bytes.copy(alloc)?)),
        Value::Tuple(fields) => Ok(Value::Tuple(copy_values(alloc, fields.as_slice())?)),
        Value::Bag(rows) => Ok(Value::Bag(copy_rows(alloc, rows.as_slice())?)),
        Value::Listed(rows) => Ok(Value::Listed(copy_rows(alloc, rows.as_slice())?)),
        Value::Map(pairs) => Ok(Value::Map(copy_pairs(alloc, pairs.as_slice())?)),
    }
}

/// A copy of a row, which holds memory of its own.
pub fn copy_row(alloc: Global, r: &Tuple) -> Result<Tuple, AllocError>
    ensures { IfOk result (λ w. w ≡ r.now) }
{
    copy_values(alloc, r.as_slice())
}

#[cycle(copy)]
fn copy_values(alloc: Global, values: &[Value]) -> Result<Tuple, AllocError>
    ensures { IfOk result (λ w. w ≡ values.now) }
{
    let mut made = Vec::with_capacity(alloc, values.len())?;
    for value in values {
        made.push(copy(alloc, value)?)?;
    }
    Ok(Seq::from_vec(made))
}

#[cycle(copy)]
fn copy_rows(alloc: Global, rows: &[Tuple]) -> Result<Rows, AllocError>
    ensures { IfOk result (λ w. w ≡ rows.now) }
{
    let mut made = Vec::with_capacity(alloc, rows.len())?;
    for row in rows {
        made.push(copy_values(alloc, row.as_slice())?)?;
    }
    Ok(Seq::from_vec(made))
}

#[cycle(copy)]
fn copy_pairs(alloc: Global, pairs: &[Pair]) -> Result<Pairs, AllocError>
    ensures { IfOk result (λ w. w ≡ pairs.now) }
{
    let mut made = Vec::with_capacity(alloc, pairs.len())?;
    for pair in pairs {
        let key = pair.key.copy(alloc)?;
        let value = copy(alloc, &pair.value)?;
        made.push(Pair { key, value })?;
    }
    Ok(Seq::from_vec(made))
}

/// A copy of a kind, which holds memory of its own.
#[cycle(copy_kind)]
pub fn copy_kind(alloc: Global, k: &Kind) -> Result<Kind, AllocError>
    ensures { IfOk result (λ c. c ≡ k.now) }
{
    match k {
        Kind::Boolean => Ok(Kind::Boolean),
        Kind::Int => Ok(Kind::Int),
        Kind::Long => Ok(Kind::Long),
        Kind::Chararray => Ok(Kind::Chararray),
        Kind::Bytearray => Ok(Kind::Bytearray),
        Kind::Tuple(kinds) => Ok(Kind::Tuple(copy_kinds(alloc, kinds.as_slice())?)),
        Kind::Bag(kinds) => Ok(Kind::Bag(copy_kinds(alloc, kinds.as_slice())?)),
        Kind::Map(of) => {
            let of = copy_kind(alloc, of.get())?;
            Ok(Kind::Map(Boxed::new(alloc, of)?))
        }
    }
}

/// A copy of kinds, which holds memory of its own.
#[cycle(copy_kind)]
pub fn copy_kinds(alloc: Global, kinds: &[Kind]) -> Result<Kinds, AllocError>
    ensures { IfOk result (λ c. c ≡ kinds.now) }
{
    let mut made = Vec::with_capacity(alloc, kinds.len())?;
    for kind in kinds {
        made.push(copy_kind(alloc, kind)?)?;
    }
    Ok(Seq::from_vec(made))
}
