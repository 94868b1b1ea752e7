ghost use Rattle.std.specs.Prelude.{◌≡◌};
ghost use Rattle.std.specs.List.{list_all};
ghost use Rattle.pig_value.specs.Orders.{tree_cmp};
ghost use Rattle.pig_value.specs.Trees.{field_tree, row_tree};
ghost use Rattle.pig_rank.specs.Walks.{found_row, goes_on, has_same_field};

use pig_typed::{SortKey, SortKeys};
use pig_value::{Tuple, Value, field_at, order};
use std::cmp::Ordering;

/// Whether a row has the key of the last row before it.
#[tactic(auto, using(crate::proofs::Keys::fields_tie))]
pub(crate) fn goes_on(last: Option<&Tuple>, row: &Tuple, keys: &SortKeys) -> bool
    ensures { result ≡ goes_on keys.now (found_row last.entry) (row_tree row.now) }
{
    match last {
        Some(last) => have_same_key(last, row, keys.as_slice()),
        None => false,
    }
}

// Whether two rows have the same value in each field to sort by, whatever its direction.
fn have_same_key(a: &Tuple, b: &Tuple, keys: &[SortKey]) -> bool
    ensures { result ≡ list_all (has_same_field (row_tree a.now) (row_tree b.now)) keys.now }
{
    let mut left = keys;
    while let [key, rest @ ..] = left {
        if !have_same_field(a, b, *key) {
            return false;
        }
        left = rest;
    }
    true
}

fn have_same_field(a: &Tuple, b: &Tuple, key: SortKey) -> bool
    ensures { result ≡ has_same_field (row_tree a.now) (row_tree b.now) key }
{
    let a = field_at(a, key.position);
    let b = field_at(b, key.position);
    order_found(a, b) == Ordering::Equal
}

// The order of two fields, where one that is missing is null.
fn order_found(a: Option<&Value>, b: Option<&Value>) -> Ordering
    ensures { result ≡ tree_cmp (field_tree a.entry) (field_tree b.entry) }
{
    match (a, b) {
        (Some(a), Some(b)) => order(a, b),
        (Some(a), None) => order(a, &Value::Null),
        (None, Some(b)) => order(&Value::Null, b),
        (None, None) => Ordering::Equal,
    }
}
