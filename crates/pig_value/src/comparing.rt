ghost use Rattle.std.specs.Prelude.{◌≡◌, ℕ, map, ◌↔◌, IsTrue};
ghost use Rattle.pig_value.specs.Trees.{tree, entry_of};
ghost use Rattle.pig_value.specs.Orders.{rank as rank_of, tree_cmp, row_cmp, rows_cmp, pair_cmp, pairs_cmp};

use crate::{Pair, Tuple, Value};
use std::cmp::Ordering;

/// The total order of values: first the rank of the form, then the rule within the form.
///
/// Forms rank as null, boolean, int, long, chararray, bytearray, tuple, bag, listed bag, map. False stands
/// before true; numbers go by value, texts and bytes by their bytes, tuples and bags like words in a
/// lexicon, maps as their pairs.
#[cycle(order)]
pub fn order(a: &Value, b: &Value) -> Ordering
    ensures { result ≡ tree_cmp (tree a.now) (tree b.now) }
{
    match (a, b) {
        (Value::Bool(x), Value::Bool(y)) => x.cmp(y),
        (Value::Int(x), Value::Int(y)) => x.cmp(y),
        (Value::Long(x), Value::Long(y)) => x.cmp(y),
        (Value::Chars(x), Value::Chars(y)) => x.as_str().cmp(y.as_str()),
        (Value::Bytes(x), Value::Bytes(y)) => x.as_slice().cmp(y.as_slice()),
        (Value::Tuple(x), Value::Tuple(y)) => order_values(x.as_slice(), y.as_slice()),
        (Value::Bag(x), Value::Bag(y)) => order_tuples(x.as_slice(), y.as_slice()),
        (Value::Listed(x), Value::Listed(y)) => order_tuples(x.as_slice(), y.as_slice()),
        (Value::Map(x), Value::Map(y)) => order_pairs(x.as_slice(), y.as_slice()),
        _ => rank(a).cmp(&rank(b)),
    }
}

/// The total order of rows: like words in a lexicon, a proper prefix first.
pub fn order_rows(a: &Tuple, b: &Tuple) -> Ordering
    ensures { result ≡ row_cmp (map tree a.now) (map tree b.now) }
{
    order_values(a.as_slice(), b.as_slice())
}

/// Whether two values are the same.
pub fn same(a: &Value, b: &Value) -> bool
    ensures { IsTrue result ↔ (tree a.now ≡ tree b.now) }
{
    order(a, b) == Ordering::Equal
}

// The rank of a value's form.
fn rank(value: &Value) -> u8
    ensures { result ≡ rank_of (tree value.now) }
{
    match value {
        Value::Null => 0,
        Value::Bool(_) => 1,
        Value::Int(_) => 2,
        Value::Long(_) => 3,
        Value::Chars(_) => 4,
        Value::Bytes(_) => 5,
        Value::Tuple(_) => 6,
        Value::Bag(_) => 7,
        Value::Listed(_) => 8,
        Value::Map(_) => 9,
    }
}

#[cycle(order)]
fn order_values(a: &[Value], b: &[Value]) -> Ordering
    ensures { result ≡ row_cmp (map tree a.now) (map tree b.now) }
{
    let shorter = a.len().min(b.len());
    for i in 0..shorter {
        match order(&a[i], &b[i]) {
            Ordering::Equal => {}
            found => return found,
        }
    }
    a.len().cmp(&b.len())
}

#[cycle(order)]
fn order_tuples(a: &[Tuple], b: &[Tuple]) -> Ordering
    ensures { result ≡ rows_cmp (map (map tree) a.now) (map (map tree) b.now) }
{
    let shorter = a.len().min(b.len());
    for i in 0..shorter {
        match order_values(a[i].as_slice(), b[i].as_slice()) {
            Ordering::Equal => {}
            found => return found,
        }
    }
    a.len().cmp(&b.len())
}

#[cycle(order)]
fn order_pair(a: &Pair, b: &Pair) -> Ordering
    ensures { result ≡ pair_cmp (entry_of a.now) (entry_of b.now) }
{
    match a.key.as_str().cmp(b.key.as_str()) {
        Ordering::Equal => order(&a.value, &b.value),
        found => found,
    }
}

#[cycle(order)]
fn order_pairs(a: &[Pair], b: &[Pair]) -> Ordering
    ensures { result ≡ pairs_cmp (map entry_of a.now) (map entry_of b.now) }
{
    let shorter = a.len().min(b.len());
    for i in 0..shorter {
        match order_pair(&a[i], &b[i]) {
            Ordering::Equal => {}
            found => return found,
        }
    }
    a.len().cmp(&b.len())
}
