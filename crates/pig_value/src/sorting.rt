ghost use Rattle.std.specs.Prelude.{◌≡◌, IsPermutation};
ghost use Rattle.pig_value.specs.Trees.{rows_tree};
ghost use Rattle.pig_value.specs.Orders.{bag_of};

use crate::{Rows, Seq, Tuple, Value, order_rows};

// A shorter list is sorted by its rows at once.
const MIN_FRONTED_LEN: usize = 256;

/// The rows of a bag in its normal form: sorted by the total order of rows, each as often as before.
///
/// The rows are sorted in place. A long list is brought near its order by numbers first, where there is memory
/// for these, since a row's fields lie apart from it.
pub fn bag(rows: Rows) -> Rows
    ensures { rows_tree result ≡ bag_of (rows_tree rows) }
{
    let rows = sorted(rows.into_vec());
    Seq::from_vec(rows)
}

fn sorted(rows: Vec<Tuple>) -> Vec<Tuple>
    ensures { rows_tree result.items ≡ bag_of (rows_tree rows.items) }
{
    let mut rows = rows;
    bring_near(&mut rows);
    rows.sort_unstable_by(|a, b| order_rows(a, b));
    rows
}

// Brings many rows near their order. A refusal leaves them as they were.
fn bring_near(rows: &mut Vec<Tuple>)
    ensures { IsPermutation rows.old.items rows.new.items }
{
    if rows.len() >= MIN_FRONTED_LEN {
        let _ = rows.sort_by_cached_key(fronts);
    }
}

// The fronts of a row's first two fields: most rows that differ stand in the order of these.
fn fronts(row: &Tuple) -> (u64, u64) {
    (front(row.get(0)), front(row.get(1)))
}

// A number that mostly goes with the order of the values of one form.
fn front(field: Option<&Value>) -> u64 {
    match field {
        Some(Value::Bool(yes)) => u64::from(*yes),
        Some(Value::Int(number)) => number_front(i64::from(*number)),
        Some(Value::Long(number)) => number_front(*number),
        Some(Value::Chars(text)) => text_front(text.as_bytes()),
        Some(Value::Bytes(bytes)) => text_front(bytes.as_slice()),
        _ => 0,
    }
}

fn number_front(number: i64) -> u64 {
    number.cast_unsigned() ^ (1 << 63)
}

// The first eight bytes as a number; of four to seven bytes the first four, of two or three the first two.
fn text_front(text: &[u8]) -> u64 {
    match text {
        [a, b, c, d, e, f, g, h, ..] => u64::from_be_bytes([*a, *b, *c, *d, *e, *f, *g, *h]),
        [a, b, c, d, ..] => u64::from_be_bytes([*a, *b, *c, *d, 0, 0, 0, 0]),
        [a, b, ..] => u64::from_be_bytes([*a, *b, 0, 0, 0, 0, 0, 0]),
        [a] => u64::from_be_bytes([*a, 0, 0, 0, 0, 0, 0, 0]),
        [] => 0,
    }
}
