use crate::building::grouped;
use crate::coding::{RowCodes, codes_of_groups, key_codes};
use crate::finding::{coded_rows, found};
use crate::groups::Group;
use crate::nulls::has_null;
use indexmap::IndexSet;
use pig_typed::TExprs;
use pig_value::{Rows, Seq, Value};
use std::alloc::{AllocError, Global};
use std::marker::Model;

/// The rows of one input of a replicated JOIN by their keys, each a copy.
///
/// Contracts see the list of these rows with their keys, in order.
#[derive(Drop)]
pub struct Lookup {
    groups: Vec<Group>,
    // The code of each group's key, and those of its rows, at the place of the group.
    places: IndexSet<Vec<u8>>,
    codes: Vec<RowCodes>,
    // No rows, for what is not found.
    none: Rows,
}

/// The lookups of the inputs behind the first, in order.
pub type Lookups = Seq<Lookup>;

impl Model for Lookup {
    ghost use Rattle.std.specs.Prelude.{◌≡◌, List, [], map};
    ghost use Rattle.std.specs.Coded.{coded_list};
    ghost use Rattle.pig_replicated.specs.Codes.{key_code, row_codes};
    ghost use Rattle.pig_replicated.specs.Grouped.{AreGrouped, held_in};
    ghost use Rattle.pig_replicated.specs.Holding.{KeyedRow, coded_keyed_row};

    ghost Value = { List KeyedRow };

    ghost coded = { coded_list coded_keyed_row };

    ghost view = { λ l. held_in l.groups.items };

    ghost invariant = { λ l. AreGrouped l.groups.items × (l.none ≡ [])
        × (map (λ k. k.items) l.places.keys ≡ map key_code l.groups.items)
        × (map (λ rows. map (λ row. row.items) rows.items) l.codes.items
        ≡ map row_codes l.groups.items) };
}

impl Lookup {
    ghost use Rattle.std.specs.Prelude.{◌≡◌, map, IfOk};
    ghost use Rattle.pig_value.specs.Trees.{rows_tree, tree};
    ghost use Rattle.pig_keycode.specs.Codes.{code};
    ghost use Rattle.pig_typed.specs.Typed.{typed};
    ghost use Rattle.pig_replicated.specs.Codes.{inner_code};
    ghost use Rattle.pig_replicated.specs.Holding.{lookup_of, matches_in, rows_under};

    /// The lookup of rows by these keys, made in the time of a sort. The rows are copied.
    ///
    /// Nothing owes a kind: see [`key_value`](crate::key_value). Only memory can be wanting.
    pub fn build(alloc: Global, keys: &TExprs, rows: &Rows) -> Result<Lookup, AllocError>
        ensures { IfOk result (λ lookup. lookup
            ≡ lookup_of (map typed keys.now) (rows_tree rows.now)) }
    {
        let groups = grouped(alloc, keys.as_slice(), rows.as_slice())?;
        let places = key_codes(alloc, groups.as_slice())?;
        let codes = codes_of_groups(alloc, groups.as_slice())?;
        let none = Rows::new(alloc);
        Ok(Lookup {
            groups,
            places,
            codes,
            none,
        })
    }

    /// The rows with a key, sorted; none where the key is null or a tuple that holds a null.
    ///
    /// This takes no memory: the key is compared where it stands.
    pub fn matches(&self, key: &Value) -> &Rows
        ensures { rows_tree result.now ≡ matches_in self.now (tree key.now) }
    {
        if has_null(key) {
            return &self.none;
        }
        self.rows_under(key)
    }

    /// The codes of the rows that [`Lookup::matches`] finds for a key, for each row those of its fields behind one
    /// another.
    ///
    /// The key is found by its code, in constant time, and compared once. This takes no memory.
    pub fn coded_matches(&self, key: &Value, bytes: &[u8]) -> &[Vec<u8>]
        requires { bytes.now ≡ code (tree key.now) }
        ensures { map (λ row. row.items) result.now
            ≡ map inner_code (matches_in self.now (tree key.now)) }
    {
        if !has_null(key) {
            return self.codes_under(key, bytes);
        }
        &[]
    }

    // The codes of the rows with a key.
    fn codes_under(&self, key: &Value, bytes: &[u8]) -> &[Vec<u8>]
        requires { bytes.now ≡ code (tree key.now) }
        ensures { map (λ row. row.items) result.now
            ≡ map inner_code (rows_under (tree key.now) self.now) }
    {
        coded_rows(
            self.groups.as_slice(),
            &self.places,
            self.codes.as_slice(),
            key,
            bytes,
        )
    }

    // The rows with a key.
    fn rows_under(&self, key: &Value) -> &Rows
        ensures { rows_tree result.now ≡ rows_under (tree key.now) self.now }
    {
        match found(self.groups.as_slice(), key) {
            Some(group) => &group.rows,
            None => &self.none,
        }
    }
}
