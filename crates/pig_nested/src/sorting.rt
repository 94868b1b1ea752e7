ghost use Rattle.std.specs.Prelude.{◌≡◌};
ghost use Rattle.pig_value.specs.Orders.{dir_cmp, tree_cmp};
ghost use Rattle.pig_value.specs.Sorts.{sort};
ghost use Rattle.pig_value.specs.Trees.{at, field_tree, row_tree, rows_tree};
ghost use Rattle.pig_typed.specs.Blocks.{keys_cmp};
ghost use Rattle.pig_nested.specs.SortedBy.{by_keys_cmp};

use pig_typed::{SortKey, SortKeys};
use pig_value::{Dir, Rows, Seq, Tuple, Value, field_at, order, order_rows};
use std::cmp::Ordering;

/// The rows sorted by the keys, and where these are equal by the order of rows.
///
/// The rows are sorted in place.
pub fn sort_by_keys(rows: Rows, keys: &SortKeys) -> Rows
    ensures { rows_tree result ≡ sort (keys_cmp keys.now) (rows_tree rows) }
{
    let rows = sorted(rows.into_vec(), keys);
    Seq::from_vec(rows)
}

fn sorted(rows: Vec<Tuple>, keys: &SortKeys) -> Vec<Tuple>
    ensures { rows_tree result.items ≡ sort (keys_cmp keys.now) (rows_tree rows.items) }
{
    let mut rows = rows;
    rows.sort_unstable_by(|a, b| order_by(keys, a, b));
    rows
}

fn order_by(keys: &SortKeys, a: &Tuple, b: &Tuple) -> Ordering
    ensures { result ≡ keys_cmp keys.now (row_tree a.now) (row_tree b.now) }
{
    match compare_by_keys(keys, a, b) {
        Ordering::Equal => order_rows(a, b),
        found => found,
    }
}

/// The order of two rows by the keys alone, each in its direction. A key that a row lacks is null.
pub fn compare_by_keys(keys: &SortKeys, a: &Tuple, b: &Tuple) -> Ordering
    ensures { result ≡ by_keys_cmp keys.now (row_tree a.now) (row_tree b.now) }
{
    for key in keys.as_slice() {
        match order_fields(*key, a, b) {
            Ordering::Equal => {}
            found => return found,
        }
    }
    Ordering::Equal
}

fn order_fields(key: SortKey, a: &Tuple, b: &Tuple) -> Ordering
    ensures { result
        ≡ dir_cmp key.dir (at key.position (row_tree a.now)) (at key.position (row_tree b.now)) }
{
    let a = field_at(a, key.position);
    let b = field_at(b, key.position);
    match key.dir {
        Dir::Asc => order_found(a, b),
        Dir::Desc => order_found(b, a),
    }
}

// The order of two fields, where one that is missing is null.
fn order_found(a: Option<&Value>, b: Option<&Value>) -> Ordering
    ensures { result ≡ tree_cmp (field_tree a.entry) (field_tree b.entry) }
{
    match (a, b) {
        (Some(a), Some(b)) => order(a, b),
        (Some(a), None) => order(a, &Value::Null),
        (None, Some(b)) => order(&Value::Null, b),
        (None, None) => Ordering::Equal,
    }
}
