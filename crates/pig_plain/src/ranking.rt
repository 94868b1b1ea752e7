ghost use Rattle.std.specs.Prelude.{◌≡◌, ◌∷◌, Bool, List, slice_get, IfOk, IfSome};
ghost use Rattle.std.specs.Option.{ForSome, option_map};
ghost use Rattle.std.specs.declared.cmp.Ordering.TheVariants.{Equal};
ghost use Rattle.pig_value.specs.Trees.{Tree, at, row_tree, rows_tree, tree};
ghost use Rattle.pig_plan.specs.Operators.{key_fields, rank_of, rank_rows, sort_keys_cmp};
ghost use Rattle.pig_plain.specs.Coming.{coming, seen_rows};
ghost use Rattle.pig_plain.specs.Known.{AreKnown};
ghost use Rattle.pig_plain.specs.Tables.{HasFound, rows_of};

use crate::copies::copied;
use crate::relation::{Relation, Seen, collected};
use crate::table::Table;
use crate::walking::Walk;
use pig_nested::{compare_by_keys, sort_by_keys};
use pig_rank::{Start, rank_rows};
use pig_typed::SortKeys;
use pig_value::{Rows, Tuple, Value, copy, copy_row, field_at};
use std::alloc::{AllocError, Global};
use std::cmp::Ordering;

// RANK: each row behind its rank.
pub fn ranked<'p>(
    alloc: Global,
    table: &mut Table<'p>,
    input: u32,
    keys: &SortKeys,
    dense: bool,
) -> Result<Relation<'p>, AllocError>
    ensures { IfOk result (HasFound (rank_rows keys.now dense (rows_of table.old input))
        table.old table.new) }
{
    let taken = table.take_input(alloc, input)?;
    let seen = table.seen_at(input, taken);
    let rows = ranked_seen(alloc, seen, keys, dense)?;
    Ok(Relation::Standing(rows))
}

fn ranked_seen(alloc: Global, seen: Seen, keys: &SortKeys, dense: bool) -> Result<Rows, AllocError>
    ensures { IfOk result (λ made. rows_tree made
        ≡ rank_rows keys.now dense (seen_rows seen.entry)) }
{
    match seen {
        Seen::Whole(rows) => ranked_rows(alloc, rows, keys, dense),
        Seen::Walked(walk) => ranked_coming(alloc, walk, keys, dense),
    }
}

fn ranked_coming(
    alloc: Global,
    walk: Walk,
    keys: &SortKeys,
    dense: bool,
) -> Result<Rows, AllocError>
    ensures { IfOk result (λ made. rows_tree made
        ≡ rank_rows keys.now dense (coming walk.entry)) }
{
    let rows = collected(alloc, walk)?;
    ranked_rows(alloc, rows.as_slice(), keys, dense)
}

// Of each row the rank is found by its keys, among all rows sorted.
fn ranked_rows(
    alloc: Global,
    rows: &[Tuple],
    keys: &SortKeys,
    dense: bool,
) -> Result<Rows, AllocError>
    ensures { IfOk result (λ made. rows_tree made
        ≡ rank_rows keys.now dense (rows_tree rows.now)) }
{
    let known = known_ranks(alloc, rows, keys, dense)?;
    let mut made = Rows::with_capacity(alloc, rows.len())?;
    for row in rows {
        made.push(ranked_row(alloc, &known, keys, row)?)?;
    }
    Ok(made)
}

// Rows sorted by keys, and the same rows, each behind its rank.
#[derive(Drop)]
struct Known {
    sorted: Rows,
    ranked: Rows,
}

fn known_ranks(
    alloc: Global,
    rows: &[Tuple],
    keys: &SortKeys,
    dense: bool,
) -> Result<Known, AllocError>
    ensures { IfOk result (AreKnown keys.now dense (rows_tree rows.now)) }
{
    let sorted = sort_by_keys(copied(alloc, rows)?, keys);
    let start = Start {
        rank: 0,
        dense: 0,
        last: None,
        tail: 0,
    };
    let ranked = rank_rows(alloc, &sorted, keys, &start, dense)?;
    Ok(Known { sorted, ranked })
}

fn ranked_row(
    alloc: Global,
    known: &Known,
    keys: &SortKeys,
    row: &Tuple,
) -> Result<Tuple, AllocError>
    ensures { (dense : Bool) (rows : List (List Tree)) → AreKnown keys.now dense rows known.now
        → IfOk result (λ made. row_tree made
        ≡ rank_of keys.now dense rows (row_tree row.now) ∷ row_tree row.now) }
{
    let mut made = Tuple::new(alloc);
    made.push(rank(alloc, known, keys, row)?)?;
    made.extend(copy_row(alloc, row)?)?;
    Ok(made)
}

// The rank of a row, which is that of any row with its keys.
fn rank(alloc: Global, known: &Known, keys: &SortKeys, row: &Tuple) -> Result<Value, AllocError>
    ensures { (dense : Bool) (rows : List (List Tree)) → AreKnown keys.now dense rows known.now
        → IfOk result (λ v. tree v ≡ rank_of keys.now dense rows (row_tree row.now)) }
{
    // It is one of those that were sorted.
    let Some(place) = place_of(known.sorted.as_slice(), keys, row) else {
        return Err(AllocError);
    };
    match row_at(known.ranked.as_slice(), place) {
        Some(found) => field(alloc, found, 0),
        None => Err(AllocError),
    }
}

fn row_at(rows: &[Tuple], place: usize) -> Option<&Tuple>
    ensures { option_map (λ row. row_tree row.now) result ≡ slice_get (rows_tree rows.now) place }
{
    rows.get(place)
}

// The place of a row that has the keys of a row.
fn place_of(sorted: &[Tuple], keys: &SortKeys, row: &Tuple) -> Option<usize>
    ensures { IfSome result (λ place. ForSome (slice_get (rows_tree sorted.now) place)
        (λ other. sort_keys_cmp keys.now other (row_tree row.now) ≡ Equal)) }
{
    match sorted.binary_search_by(|other| order_of(keys, other, row)) {
        Ok(place) => Some(place),
        Err(_) => None,
    }
}

#[tactic(auto, using(crate::proofs::Ranks::same_order))]
fn order_of(keys: &SortKeys, other: &Tuple, row: &Tuple) -> Ordering
    ensures { result ≡ sort_keys_cmp keys.now (row_tree other.now) (row_tree row.now) }
{
    compare_by_keys(keys, other, row)
}

// Copies of the fields that keys name; one that the row lacks is null.
pub fn key_values(alloc: Global, keys: &SortKeys, row: &Tuple) -> Result<Tuple, AllocError>
    ensures { IfOk result (λ made. row_tree made ≡ key_fields keys.now (row_tree row.now)) }
{
    let mut made = Tuple::with_capacity(alloc, keys.len())?;
    for key in keys.as_slice() {
        made.push(field(alloc, row, key.position)?)?;
    }
    Ok(made)
}

fn field(alloc: Global, row: &Tuple, position: u32) -> Result<Value, AllocError>
    ensures { IfOk result (λ v. tree v ≡ at position (row_tree row.now)) }
{
    match field_at(row, position) {
        Some(v) => copy(alloc, v),
        None => Ok(Value::Null),
    }
}
