ghost use Rattle.std.specs.Prelude.{◌≡◌, [], ◌∷◌, length, nat_eq, pos, unsigned_abs};
ghost use Rattle.std.specs.Int.{w32, w64, int_wrap};
ghost use Rattle.std.specs.Option.{option_map};
ghost use Rattle.std.specs.Str.{chars};
ghost use Rattle.pig_value.specs.Functions.{abs_tree, isempty_tree, long_of, argument_rows, size_tree};
ghost use Rattle.pig_value.specs.Trees.{rows_tree, tree, v_bool};

use pig_value::{Rows, Value};

// The rows of a bag, also of a listed one.
#[tactic(auto, using(crate::proofs::Trees::bag_rows, crate::proofs::Trees::listed_rows))]
pub fn rows_of(v: &Value) -> Option<&Rows>
    ensures { option_map (λ rows. rows_tree rows.now) result
        ≡ argument_rows (tree v.now ∷ []) }
{
    match v {
        Value::Bag(rows) | Value::Listed(rows) => Some(rows),
        _ => None,
    }
}

// SIZE.
#[tactic(auto, using(crate::proofs::Trees::tuple_size, crate::proofs::Trees::bag_size, crate::proofs::Trees::listed_size, crate::proofs::Trees::map_size))]
pub fn size(v: &Value) -> Value
    ensures { tree result ≡ size_tree (tree v.now ∷ []) }
{
    match v {
        Value::Null => Value::Null,
        Value::Bool(_) | Value::Int(_) | Value::Long(_) => Value::Long(1),
        Value::Chars(text) => length_value(characters(text.as_str())),
        Value::Bytes(bytes) => length_value(bytes.len()),
        Value::Tuple(fields) => length_value(fields.len()),
        Value::Bag(rows) | Value::Listed(rows) => length_value(rows.len()),
        Value::Map(pairs) => length_value(pairs.len()),
    }
}

// IsEmpty.
#[tactic(auto, using(crate::proofs::Trees::bag_is_empty, crate::proofs::Trees::listed_is_empty, crate::proofs::Trees::map_is_empty))]
pub fn is_empty(v: &Value) -> Value
    ensures { tree result ≡ isempty_tree (tree v.now ∷ []) }
{
    match v {
        Value::Bag(rows) | Value::Listed(rows) => is_zero(rows.len()),
        Value::Map(pairs) => is_zero(pairs.len()),
        _ => Value::Null,
    }
}

// ABS.
pub fn abs(v: &Value) -> Value
    ensures { tree result ≡ abs_tree (tree v.now ∷ []) }
{
    match v {
        Value::Int(n) => Value::Int(int_magnitude(*n)),
        Value::Long(n) => Value::Long(long_magnitude(*n)),
        _ => Value::Null,
    }
}

// The magnitude of a number; the least one stays.
#[tactic(auto, using(crate::proofs::Sums::int_magnitude))]
fn int_magnitude(n: i32) -> i32
    ensures { result ≡ int_wrap w32 (pos (unsigned_abs n)) }
{
    n.wrapping_abs()
}

#[tactic(auto, using(crate::proofs::Sums::long_magnitude))]
fn long_magnitude(n: i64) -> i64
    ensures { result ≡ int_wrap w64 (pos (unsigned_abs n)) }
{
    n.wrapping_abs()
}

// The number of characters of a text.
pub fn characters(text: &str) -> usize
    ensures { result ≡ length (chars text.now) }
{
    text.chars().count()
}

// Whether a length is that of nothing.
fn is_zero(n: usize) -> Value
    ensures { tree result ≡ v_bool (nat_eq n 0) }
{
    Value::Bool(n == 0)
}

// A length as a long.
fn length_value(n: usize) -> Value
    ensures { tree result ≡ long_of (pos n) }
{
    Value::Long(as_long(n))
}

#[tactic(auto, using(crate::proofs::Sums::long_length))]
fn as_long(n: usize) -> i64
    ensures { result ≡ int_wrap w64 (pos n) }
{
    (n as u64).cast_signed()
}
