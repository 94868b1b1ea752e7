ghost use Rattle.std.specs.Prelude.{◌≡◌, bytes_eq, map, ⊤, if◌then◌else◌, IfOk, MatchOption};
ghost use Rattle.std.specs.List.{find};
ghost use Rattle.std.specs.Option.{option_copied, option_map};
ghost use Rattle.pig_value.specs.Functions.{bag_tree};
ghost use Rattle.pig_value.specs.Trees.{at, entry_of, field_tree, fields_of, row_tree, rows_tree, tree, tuples_of, v_listed, v_tuple};
ghost use Rattle.pig_typed.specs.Operators.{look_tree, pick, project_tree};
ghost use Rattle.pig_eval.specs.SeenValues.{seen_tree};

use crate::seen::{Seen, copied, lent_or_null};
use pig_value::{Pairs, Positions, Rows, Seq, Text, Tuple, Value, bag, field_at};
use std::alloc::{AllocError, Global};

// A projection; the one field of a lent tuple is lent.
pub fn project<'a>(
    alloc: Global,
    seen: Seen<'a>,
    fields: &Positions,
    single: bool,
) -> Result<Seen<'a>, AllocError>
    ensures { IfOk result (λ s. seen_tree s ≡ project_tree fields.now single
        (seen_tree seen.entry)) }
{
    match &seen {
        Seen::Lent(v) => project_lent(alloc, *v, fields, single),
        Seen::Made(v) => Ok(Seen::Made(projected(alloc, v, fields, single)?)),
    }
}

fn project_lent<'a>(
    alloc: Global,
    v: &'a Value,
    fields: &Positions,
    single: bool,
) -> Result<Seen<'a>, AllocError>
    ensures { IfOk result (λ s. seen_tree s ≡ project_tree fields.now single (tree v.now)) }
{
    match lent_field(v, fields, single) {
        Some(seen) => Ok(seen),
        None => Ok(Seen::Made(projected(alloc, v, fields, single)?)),
    }
}

// The one field of a tuple.
#[tactic(auto, using(crate::proofs::Projections::of_tuple))]
fn lent_field<'a>(v: &'a Value, fields: &Positions, single: bool) -> Option<Seen<'a>>
    ensures { MatchOption result ⊤ (λ s. seen_tree s
        ≡ project_tree fields.now single (tree v.now)) }
{
    if !single {
        return None;
    }
    match v {
        Value::Tuple(row) => Some(lent_or_null(first_picked(row, fields))),
        _ => None,
    }
}

// A projection with memory of its own: of a tuple a field or a tuple, of a bag a bag.
#[tactic(auto, using(crate::proofs::Projections::of_tuple, crate::proofs::Projections::of_bag, crate::proofs::Projections::of_listed))]
pub fn projected(
    alloc: Global,
    v: &Value,
    fields: &Positions,
    single: bool,
) -> Result<Value, AllocError>
    ensures { IfOk result (λ w. tree w ≡ project_tree fields.now single (tree v.now)) }
{
    match v {
        Value::Tuple(row) => part_of_tuple(alloc, row, fields, single),
        Value::Bag(rows) => part_of_bag(alloc, rows, fields),
        Value::Listed(rows) => part_of_listed(alloc, rows, fields),
        _ => Ok(Value::Null),
    }
}

#[tactic(auto, using(crate::proofs::Projections::tuple_is))]
fn part_of_tuple(
    alloc: Global,
    row: &Tuple,
    fields: &Positions,
    single: bool,
) -> Result<Value, AllocError>
    ensures { IfOk result (λ w. tree w ≡ (if single then at 0 (pick fields.now
        (row_tree row.now)) else v_tuple (fields_of (pick fields.now (row_tree row.now))))) }
{
    if single {
        copied(alloc, first_picked(row, fields))
    } else {
        Ok(Value::Tuple(pick_row(alloc, row, fields)?))
    }
}

#[tactic(auto, using(pig_builtins::proofs::Trees::bag_made))]
fn part_of_bag(alloc: Global, rows: &Rows, fields: &Positions) -> Result<Value, AllocError>
    ensures { IfOk result (λ w. tree w ≡ bag_tree (map (pick fields.now) (rows_tree rows.now))) }
{
    let picked = pick_rows(alloc, rows, fields)?;
    Ok(Value::Bag(bag(picked)))
}

#[tactic(auto, using(crate::proofs::Projections::listed_is))]
fn part_of_listed(alloc: Global, rows: &Rows, fields: &Positions) -> Result<Value, AllocError>
    ensures { IfOk result (λ w. tree w ≡ v_listed
        (tuples_of (map (pick fields.now) (rows_tree rows.now)))) }
{
    let picked = pick_rows(alloc, rows, fields)?;
    Ok(Value::Listed(picked))
}

// The field that the first position names.
fn first_picked<'a>(row: &'a Tuple, fields: &Positions) -> Option<&'a Value>
    ensures { field_tree result ≡ at 0 (pick fields.now (row_tree row.now)) }
{
    match fields.as_slice() {
        [n, ..] => field_at(row, *n),
        [] => None,
    }
}

// The fields at these positions.
fn pick_row(alloc: Global, row: &Tuple, fields: &Positions) -> Result<Tuple, AllocError>
    ensures { IfOk result (λ w. row_tree w ≡ pick fields.now (row_tree row.now)) }
{
    let fields = fields.as_slice();
    let mut made = Vec::with_capacity(alloc, fields.len())?;
    for n in fields {
        made.push(copied(alloc, field_at(row, *n))?)?;
    }
    Ok(Seq::from_vec(made))
}

fn pick_rows(alloc: Global, rows: &Rows, fields: &Positions) -> Result<Rows, AllocError>
    ensures { IfOk result (λ w. rows_tree w ≡ map (pick fields.now) (rows_tree rows.now)) }
{
    let rows = rows.as_slice();
    let mut made = Vec::with_capacity(alloc, rows.len())?;
    for row in rows {
        made.push(pick_row(alloc, row, fields)?)?;
    }
    Ok(Seq::from_vec(made))
}

// What a map has under a key; of a lent map it is lent.
pub fn look_up<'a>(alloc: Global, seen: Seen<'a>, key: &Text) -> Result<Seen<'a>, AllocError>
    ensures { IfOk result (λ s. seen_tree s ≡ look_tree key.now (seen_tree seen.entry)) }
{
    match &seen {
        Seen::Lent(v) => Ok(lent_or_null(found(*v, key))),
        Seen::Made(v) => Ok(Seen::Made(copied(alloc, found(v, key))?)),
    }
}

#[tactic(auto, using(crate::proofs::Projections::of_map))]
fn found<'a>(v: &'a Value, key: &Text) -> Option<&'a Value>
    ensures { field_tree result ≡ look_tree key.now (tree v.now) }
{
    match v {
        Value::Map(pairs) => value_under(pairs, key),
        _ => None,
    }
}

#[tactic(auto, using(pig_value::proofs::TreeLaws::entry_is))]
fn value_under<'a>(pairs: &'a Pairs, key: &Text) -> Option<&'a Value>
    ensures { option_map tree (option_copied result)
        ≡ option_map (λ p. p.1) (find (λ p. bytes_eq p.0 key.now) (map entry_of pairs.now)) }
{
    for pair in pairs.as_slice() {
        if pair.key.as_str() == key.as_str() {
            return Some(&pair.value);
        }
    }
    None
}
