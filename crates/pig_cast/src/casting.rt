ghost use Rattle.std.specs.Prelude.{◌≡◌, IfOk, cond};
ghost use Rattle.std.specs.Fmt.{signed_decimal};
ghost use Rattle.std.specs.Int.{w32, int_wrap};
ghost use Rattle.pig_value.specs.Casts.{cast_of};
ghost use Rattle.pig_value.specs.Kinds.{is_of_kind};
ghost use Rattle.pig_value.specs.Texts.{bool_text};
ghost use Rattle.pig_value.specs.Trees.{tree, kind_tree, v_null, v_chars};

use crate::fields::read_value;
use itoa::Buffer;
use pig_value::{Kind, Text, Value, copy, is_of};
use std::alloc::{AllocError, Global};

/// The value as one of a kind: a bytearray and a chararray are read as a field is, a long keeps its low 32
/// bits as an int, a boolean and a number become their texts, a value of the kind is copied, and what may not
/// be cast (`CanCast` of pig_value) gives null.
pub fn cast(alloc: Global, v: &Value, k: &Kind) -> Result<Value, AllocError>
    ensures { IfOk result (λ w. tree w ≡ cast_of (kind_tree k.now) (tree v.now)) }
{
    match (v, k) {
        (Value::Bytes(_), Kind::Bytearray) => copy(alloc, v),
        (Value::Bytes(bytes), _) => read_value(alloc, bytes.as_slice(), k),
        (Value::Chars(text), Kind::Boolean) => read_value(alloc, text.as_bytes(), k),
        (Value::Chars(text), Kind::Int) => read_value(alloc, text.as_bytes(), k),
        (Value::Chars(text), Kind::Long) => read_value(alloc, text.as_bytes(), k),
        (Value::Int(n), Kind::Long) => Ok(Value::Long(i64::from(*n))),
        (Value::Long(n), Kind::Int) => Ok(Value::Int(low_bits(*n))),
        (Value::Bool(b), Kind::Chararray) => truth(alloc, *b),
        (Value::Int(n), Kind::Chararray) => decimal(alloc, i64::from(*n)),
        (Value::Long(n), Kind::Chararray) => decimal(alloc, *n),
        _ => stays(alloc, v, k),
    }
}

// A value of the kind stays as it is, and any other gives null.
fn stays(alloc: Global, v: &Value, k: &Kind) -> Result<Value, AllocError>
    ensures { IfOk result (λ w. tree w ≡ cond (is_of_kind (tree v.now) (kind_tree k.now))
        (tree v.now) v_null) }
{
    if is_of(v, k) {
        copy(alloc, v)
    } else {
        Ok(Value::Null)
    }
}

// The low 32 bits of a long, as an int.
fn low_bits(n: i64) -> i32
    ensures { result ≡ int_wrap w32 n }
{
    let low = n.rem_euclid(0x1_0000_0000) as u32;
    low.cast_signed()
}

fn truth(alloc: Global, b: bool) -> Result<Value, AllocError>
    ensures { IfOk result (λ w. tree w ≡ v_chars (bool_text b)) }
{
    let text = if b { "true" } else { "false" };
    Ok(Value::Chars(Text::from_str(alloc, text)?))
}

fn decimal(alloc: Global, n: i64) -> Result<Value, AllocError>
    ensures { IfOk result (λ w. tree w ≡ v_chars (signed_decimal n)) }
{
    let mut buffer = Buffer::new();
    let text = Text::from_str(alloc, buffer.format(n))?;
    Ok(Value::Chars(text))
}
