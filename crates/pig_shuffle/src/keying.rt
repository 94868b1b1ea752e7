ghost use Rattle.std.specs.Prelude.{◌≡◌, ◌≢◌, [], ◌∷◌, ◌++◌, List, codes, length, map, IfOk, OnOk};
ghost use Rattle.pig_value.specs.Trees.{Tree, at, fields_of, row_tree, tree, v_chars, v_null, v_tuple};
ghost use Rattle.pig_value.specs.Valid.{IsRow, IsValue};
ghost use Rattle.pig_typed.specs.Typed.{typed};
ghost use Rattle.pig_plan.specs.ByKey.{key_of};
ghost use Rattle.pig_plan.specs.Entries.{key_at, keyed_at, sort_key_of};
ghost use Rattle.pig_plan.specs.Operators.{key_fields, keys_of};
ghost use Rattle.pig_plan.specs.Plans.{keyed_of, op_of};
ghost use Rattle.pig_shuffle.specs.Held.{FitsIn, HoldsOneMore, dirs_in, entry_under, held_in, key_by};

use crate::parts::Parts;
use pig_eval::{eval, look, value};
use pig_plan::{KeyedInput, NodeOp};
use pig_typed::{SortKey, TExpr};
use pig_value::{Text, Tuple, Value, copy, field_at};
use std::alloc::{AllocError, Global};

// How rows come under their keys.
pub enum Keying<'p> {
    // All under one key.
    One(Value),
    // Each under the value of an expression, or under the tuple of several.
    By(&'p [TExpr]),
    // Each under its fields to sort by.
    Fields(&'p [SortKey]),
    // Each under itself.
    Row,
}

// A drop that is written is one call wherever a shuffle ends.
impl Drop for Keying<'_> {
    fn drop(self) {
        match self {
            Keying::One(key) => drop(key),
            Keying::By(_) | Keying::Fields(_) | Keying::Row => {}
        }
    }
}

// How the rows of an operator's input come under their keys. Where the operator has none, all stand
// under null.
pub fn keying_of<'p>(alloc: Global, op: &'p NodeOp, input: u32) -> Result<Keying<'p>, AllocError>
    ensures { IfOk result (λ keying. (row : List Tree) → key_by keying row
        ≡ key_at (op_of op.now) input row) }
{
    match op {
        NodeOp::GroupAll { .. } => all_rows(alloc),
        NodeOp::Group { inputs } => Ok(keys_of_input(inputs.as_slice(), input)),
        NodeOp::Join { inputs, .. } => Ok(keys_of_input(inputs.as_slice(), input)),
        NodeOp::Distinct { .. } => Ok(Keying::Row),
        NodeOp::Order { keys, .. } => Ok(Keying::Fields(keys.as_slice())),
        NodeOp::Rank { keys, .. } => Ok(Keying::Fields(keys.as_slice())),
        NodeOp::Load { .. } => Ok(Keying::One(Value::Null)),
        NodeOp::Filter { .. } => Ok(Keying::One(Value::Null)),
        NodeOp::Foreach { .. } => Ok(Keying::One(Value::Null)),
        NodeOp::Union { .. } => Ok(Keying::One(Value::Null)),
        NodeOp::Limit { .. } => Ok(Keying::One(Value::Null)),
        NodeOp::Store { .. } => Ok(Keying::One(Value::Null)),
        NodeOp::Assert { .. } => Ok(Keying::One(Value::Null)),
    }
}

fn all_rows<'p>(alloc: Global) -> Result<Keying<'p>, AllocError>
    ensures { IfOk result (λ keying. (row : List Tree) → key_by keying row
        ≡ v_chars (codes "all")) }
{
    Ok(Keying::One(Value::Chars(Text::from_str(alloc, "all")?)))
}

fn keys_of_input<'p>(inputs: &'p [KeyedInput], input: u32) -> Keying<'p>
    ensures { (row : List Tree) → key_by result row
        ≡ keyed_at (map keyed_of inputs.now) input row }
{
    match inputs.get(input as usize) {
        Some(keyed) => Keying::By(keyed.keys.as_slice()),
        None => Keying::One(Value::Null),
    }
}

// Adds a row under its key, which is evaluated once.
pub fn add_row(
    alloc: Global,
    keying: &Keying,
    input: u32,
    row: &Tuple,
    parts: &mut Parts,
) -> Result<(), AllocError>
    requires key { IsValue (key_by keying.now (row_tree row.now)) }
    requires fits { FitsIn parts.old.runs.items (key_by keying.now (row_tree row.now)) }
    requires row { IsRow (row_tree row.now) }
    ensures dirs { dirs_in parts.new.runs.items ≡ dirs_in parts.old.runs.items }
    ensures added { OnOk result (HoldsOneMore
        (entry_under (key_by keying.now (row_tree row.now)) input (row_tree row.now))
        (held_in parts.old) (held_in parts.new)) }
{
    match keying {
        Keying::One(key) => parts.add(key, input, row),
        Keying::By(keys) => add_by_values(alloc, keys, input, row, parts),
        Keying::Fields(keys) => {
            let key = fields_key(alloc, keys, row)?;
            parts.add(&key, input, row)
        }
        Keying::Row => parts.add_row(alloc, input, row),
    }
}

// One key is looked at where it stands; several, or none, are a tuple.
fn add_by_values(
    alloc: Global,
    keys: &[TExpr],
    input: u32,
    row: &Tuple,
    parts: &mut Parts,
) -> Result<(), AllocError>
    requires key { IsValue (key_of (keys_of (map typed keys.now) (row_tree row.now))) }
    requires fits { FitsIn parts.old.runs.items
        (key_of (keys_of (map typed keys.now) (row_tree row.now))) }
    requires row { IsRow (row_tree row.now) }
    ensures dirs { dirs_in parts.new.runs.items ≡ dirs_in parts.old.runs.items }
    ensures added { OnOk result (HoldsOneMore
        (entry_under (key_of (keys_of (map typed keys.now) (row_tree row.now))) input
        (row_tree row.now)) (held_in parts.old) (held_in parts.new)) }
{
    if let [key] = keys {
        return add_by_one(alloc, key, input, row, parts);
    }
    let key = values_key(alloc, keys, row)?;
    parts.add(&key, input, row)
}

fn add_by_one(
    alloc: Global,
    key: &TExpr,
    input: u32,
    row: &Tuple,
    parts: &mut Parts,
) -> Result<(), AllocError>
    requires key { IsValue (key_of (keys_of (typed key.now ∷ []) (row_tree row.now))) }
    requires fits { FitsIn parts.old.runs.items
        (key_of (keys_of (typed key.now ∷ []) (row_tree row.now))) }
    requires row { IsRow (row_tree row.now) }
    ensures dirs { dirs_in parts.new.runs.items ≡ dirs_in parts.old.runs.items }
    ensures added { OnOk result (HoldsOneMore
        (entry_under (key_of (keys_of (typed key.now ∷ []) (row_tree row.now))) input
        (row_tree row.now)) (held_in parts.old) (held_in parts.new)) }
{
    let none = Tuple::new(alloc);
    let seen = look(alloc, key, row, &none)?;
    parts.add(value(&seen), input, row)
}

fn values_key(alloc: Global, keys: &[TExpr], row: &Tuple) -> Result<Value, AllocError>
    requires several { length keys.now ≢ 1 }
    ensures { IfOk result (λ key. tree key
        ≡ key_of (keys_of (map typed keys.now) (row_tree row.now))) }
{
    Ok(Value::Tuple(values(alloc, keys, row)?))
}

fn values(alloc: Global, keys: &[TExpr], row: &Tuple) -> Result<Tuple, AllocError>
    ensures { IfOk result (λ vs. row_tree vs ≡ keys_of (map typed keys.now) (row_tree row.now)) }
{
    let none = Tuple::new(alloc);
    let mut found = Tuple::with_capacity(alloc, keys.len())?;
    for key in keys {
        found.push(eval(alloc, key, row, &none)?)?;
    }
    Ok(found)
}

fn fields_key(alloc: Global, keys: &[SortKey], row: &Tuple) -> Result<Value, AllocError>
    ensures { IfOk result (λ key. tree key ≡ sort_key_of keys.now (row_tree row.now)) }
{
    Ok(Value::Tuple(fields(alloc, keys, row)?))
}

fn fields(alloc: Global, keys: &[SortKey], row: &Tuple) -> Result<Tuple, AllocError>
    ensures { IfOk result (λ vs. row_tree vs ≡ key_fields keys.now (row_tree row.now)) }
{
    let mut found = Tuple::with_capacity(alloc, keys.len())?;
    for key in keys {
        found.push(field(alloc, row, key.position)?)?;
    }
    Ok(found)
}

// A copy of a field; one that the row lacks is null.
fn field(alloc: Global, row: &Tuple, position: u32) -> Result<Value, AllocError>
    ensures { IfOk result (λ v. tree v ≡ at position (row_tree row.now)) }
{
    match field_at(row, position) {
        Some(v) => copy(alloc, v),
        None => Ok(Value::Null),
    }
}
