ghost use Rattle.std.specs.Prelude.{◌≡◌, ◌≢◌, ◌<◌, [], length, map, MatchOption};
ghost use Rattle.std.specs.List.{AllByRecursion};
ghost use Rattle.std.specs.Ordering.{is_eq};
ghost use Rattle.pig_value.specs.Orders.{tree_cmp};
ghost use Rattle.pig_value.specs.Trees.{rows_tree, tree};
ghost use Rattle.pig_keycode.specs.Codes.{code};
ghost use Rattle.pig_replicated.specs.Codes.{IsGroupOf, inner_code, key_code, row_codes};
ghost use Rattle.pig_replicated.specs.Grouped.{AreGrouped, held_in};
ghost use Rattle.pig_replicated.specs.Holding.{rows_under};

use crate::coding::RowCodes;
use crate::groups::Group;
use indexmap::IndexSet;
use pig_value::{Value, order};

// The group of a key, which is compared where it stands.
pub fn found<'g>(groups: &'g [Group], key: &Value) -> Option<&'g Group>
    requires { AreGrouped groups.now }
    ensures { MatchOption result (rows_under (tree key.now) (held_in groups.now) ≡ [])
        (λ group. rows_under (tree key.now) (held_in groups.now) ≡ rows_tree group.now.rows) }
{
    match place(groups, key) {
        Some(at) => Some(&groups[at]),
        None => None,
    }
}

fn place(groups: &[Group], key: &Value) -> Option<usize>
    requires { AreGrouped groups.now }
    ensures { MatchOption result (rows_under (tree key.now) (held_in groups.now) ≡ [])
        (IsGroupOf (tree key.now) groups.now) }
{
    match groups.binary_search_by(|group| order(&group.key, key)) {
        Ok(at) => Some(at),
        Err(_) => None,
    }
}

// The place of the group of a key, by the code of the key.
fn coded_place(
    groups: &[Group],
    codes: &IndexSet<Vec<u8>>,
    key: &Value,
    bytes: &[u8],
) -> Option<usize>
    requires groups { AreGrouped groups.now }
    requires codes { map (λ k. k.items) codes.now.keys ≡ map key_code groups.now }
    requires bytes { bytes.now ≡ code (tree key.now) }
    ensures { MatchOption result (rows_under (tree key.now) (held_in groups.now) ≡ [])
        (IsGroupOf (tree key.now) groups.now) }
{
    match place_of(codes, bytes) {
        Some(at) => compared_place(groups, at, key),
        None => None,
    }
}

// The place of a code.
fn place_of(codes: &IndexSet<Vec<u8>>, bytes: &[u8]) -> Option<usize>
    ensures { MatchOption result
        (AllByRecursion (λ k. k ≢ bytes.now) (map (λ k. k.items) codes.now.keys))
        (λ at. at < length (map (λ k. k.items) codes.now.keys)) }
{
    codes.get_index_of(bytes)
}

// The place, where the group there has the key. It has the key wherever both keys are values, which nothing owes here.
fn compared_place(groups: &[Group], at: usize, key: &Value) -> Option<usize>
    requires groups { AreGrouped groups.now }
    requires within { at < length groups.now }
    ensures { MatchOption result (rows_under (tree key.now) (held_in groups.now) ≡ [])
        (IsGroupOf (tree key.now) groups.now) }
{
    if has_key(&groups[at], key) {
        return Some(at);
    }
    place(groups, key)
}

fn has_key(group: &Group, key: &Value) -> bool
    ensures { result ≡ is_eq (tree_cmp (tree group.now.key) (tree key.now)) }
{
    order(&group.key, key).is_eq()
}

// The codes of the rows of a key, by the code of the key.
pub fn coded_rows<'c>(
    groups: &[Group],
    places: &IndexSet<Vec<u8>>,
    codes: &'c [RowCodes],
    key: &Value,
    bytes: &[u8],
) -> &'c [Vec<u8>]
    requires groups { AreGrouped groups.now }
    requires places { map (λ k. k.items) places.now.keys ≡ map key_code groups.now }
    requires codes { map (λ rows. map (λ row. row.items) rows.items) codes.now
        ≡ map row_codes groups.now }
    requires bytes { bytes.now ≡ code (tree key.now) }
    ensures { map (λ row. row.items) result.now
        ≡ map inner_code (rows_under (tree key.now) (held_in groups.now)) }
{
    match coded_place(groups, places, key, bytes) {
        Some(at) => codes[at].as_slice(),
        None => &[],
    }
}
