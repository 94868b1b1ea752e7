ghost use Rattle.std.specs.Prelude.{IfOk, length};
ghost use Rattle.pig_schema.specs.FieldTrees.{named_tree, schema_tree};
ghost use Rattle.pig_typing.specs.Results.{IfRefused, Tells};
ghost use Rattle.pig_syntax.specs.declared.trees.FieldRef.TheVariants.{Position};
ghost use Rattle.pig_blocks.specs.SortKeys.{SortsBy, SortsByNot, as_key, fields_in, key_of, keys_of, some_keys, sorted_by};

use pig_schema::{Field, Schema};
use pig_syntax::{FieldRef, OrderField, OrderKeys};
use pig_typed::{SortKey, SortKeys};
use pig_typing::{CheckKind, TypeFault, narrow, refer};
use pig_value::{Dir, Seq, holds_bag_or_map};
use std::alloc::Global;

/// The places of the fields that rows of these columns are sorted by, each with its direction, one at least. `*` stands
/// for all fields.
///
/// # Errors
///
/// `Refused` exactly where there are none, with a kind whose condition holds: what is due of a reference that means no
/// field, or BadKey where a field holds a bag or a map, or where no field is meant.
pub fn sort_keys(alloc: Global, keys: &OrderKeys, columns: &Schema) -> Result<SortKeys, TypeFault>
    ensures typed { IfOk result (SortsBy (schema_tree columns.now) keys.now) }
    ensures refused { IfRefused result (SortsByNot (schema_tree columns.now) keys.now) }
    ensures told { Tells (λ ks. ks) (sorted_by (schema_tree columns.now) keys.now) result }
{
    keys_told(alloc, keys, columns)
}

#[tactic(auto, unfolding(crate::specs::SortKeys::sorted_by))]
fn keys_told(alloc: Global, keys: &OrderKeys, columns: &Schema) -> Result<SortKeys, TypeFault>
    ensures { Tells (λ ks. ks) (sorted_by (schema_tree columns.now) keys.now) result }
{
    let made = match keys {
        OrderKeys::All(dir) => of_all(alloc, *dir, columns)?,
        OrderKeys::Fields(fields) => of_fields(alloc, fields.as_slice(), columns)?,
    };
    some(made)
}

fn some(keys: SortKeys) -> Result<SortKeys, TypeFault>
    ensures { Tells (λ ks. ks) (some_keys keys) result }
{
    if keys.is_empty() {
        Err(TypeFault::Refused(CheckKind::BadKey))
    } else {
        Ok(keys)
    }
}

#[tactic(auto, unfolding(crate::specs::SortKeys::keys_of))]
fn of_all(alloc: Global, dir: Dir, columns: &Schema) -> Result<SortKeys, TypeFault>
    ensures { Tells (λ ks. ks) (keys_of (schema_tree columns.now)
        (fields_in dir 0 (length columns.now))) result }
{
    let count = columns.len();
    let mut made = Seq::with_capacity(alloc, count)?;
    for place in 0..count {
        let key = at(columns, place, dir)?;
        made.push(key)?;
    }
    Ok(made)
}

fn at(columns: &Schema, place: usize, dir: Dir) -> Result<SortKey, TypeFault>
    ensures { Tells (λ k. k) (key_of (schema_tree columns.now) (Position place) dir) result }
{
    let place = narrow(place)?;
    one(columns, &FieldRef::Position(place), dir)
}

#[tactic(auto, unfolding(crate::specs::SortKeys::keys_of))]
fn of_fields(alloc: Global, fields: &[OrderField], columns: &Schema) -> Result<SortKeys, TypeFault>
    ensures { Tells (λ ks. ks) (keys_of (schema_tree columns.now) fields.now) result }
{
    let mut made = Seq::with_capacity(alloc, fields.len())?;
    for order in fields {
        let key = one(columns, &order.field, order.dir)?;
        made.push(key)?;
    }
    Ok(made)
}

#[tactic(auto, unfolding(crate::specs::SortKeys::key_of))]
fn one(columns: &Schema, field: &FieldRef, dir: Dir) -> Result<SortKey, TypeFault>
    ensures { Tells (λ k. k) (key_of (schema_tree columns.now) field.now dir) result }
{
    let (place, column) = refer(columns, field)?;
    as_key(place, column, dir)
}

#[tactic(auto, unfolding(crate::specs::SortKeys::as_key))]
fn as_key(place: usize, column: &Field, dir: Dir) -> Result<SortKey, TypeFault>
    ensures { Tells (λ k. k) (as_key (place, named_tree column.now) dir) result }
{
    if holds_bag_or_map(&column.kind) {
        return Err(TypeFault::Refused(CheckKind::BadKey));
    }
    let position = narrow(place)?;
    Ok(SortKey { position, dir })
}
