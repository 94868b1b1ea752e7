ghost use Rattle.std.specs.Prelude.{◌≡◌, ◌∷◌, [], map, IfOk};
ghost use Rattle.std.specs.Option.{option_map};
ghost use Rattle.std.specs.List.{flat_map, list_all};
ghost use Rattle.pig_value.specs.FieldReader.{all_of};
ghost use Rattle.pig_value.specs.Kinds.{kinds_eq};
ghost use Rattle.pig_value.specs.Trees.{kind_tree, kinds_of};
ghost use Rattle.pig_typed.specs.Typed.{typed};
ghost use Rattle.pig_plan.specs.Given.{before_of, keyed_row};
ghost use Rattle.pig_plan.specs.NodeKinds.{all_keyed, group_kind, group_kinds, key_kind, key_kinds, keyed_kinds, keys_agree};
ghost use Rattle.pig_plan.specs.Plans.{keyed_of};

use crate::given::{Given, rows_before};
use crate::{KeyedInput, KeyedInputs};
use pig_typed::{TExpr, TExprs, kind_of};
use pig_value::{Kind, Kinds, copy_kind, copy_kinds, holds_bag_or_map, same_kinds};
use std::alloc::{AllocError, Global};

// The kinds of the rows of an input by key, and of its keys.
#[derive(Debug, Drop)]
pub struct KeyedRows<'p> {
    pub row: &'p Kinds,
    pub keys: Kinds,
}

// The kinds of the inputs by key, where each has a relation and keys of one kind with the first one's.
pub fn keyed_rows<'p>(
    alloc: Global,
    before: &'p [Given],
    inputs: &KeyedInputs,
) -> Result<Option<Vec<KeyedRows<'p>>>, AllocError>
    ensures { IfOk result (λ found. option_map (λ f. map keyed_row f.items) found
        ≡ all_keyed (before_of before.now) (map keyed_of inputs.now)) }
{
    let Some(found) = each_keyed(alloc, before, inputs)? else {
        return Ok(None);
    };
    if !agree(found.as_slice()) {
        return Ok(None);
    }
    Ok(Some(found))
}

fn each_keyed<'p>(
    alloc: Global,
    before: &'p [Given],
    inputs: &KeyedInputs,
) -> Result<Option<Vec<KeyedRows<'p>>>, AllocError>
    ensures { IfOk result (λ found. option_map (λ f. map keyed_row f.items) found
        ≡ all_of (keyed_kinds (before_of before.now)) (map keyed_of inputs.now)) }
{
    let mut found = Vec::with_capacity(alloc, inputs.len())?;
    for input in inputs.as_slice() {
        match one_keyed(alloc, before, input)? {
            Some(rows) => found.push(rows)?,
            None => return Ok(None),
        }
    }
    Ok(Some(found))
}

fn one_keyed<'p>(
    alloc: Global,
    before: &'p [Given],
    input: &KeyedInput,
) -> Result<Option<KeyedRows<'p>>, AllocError>
    ensures { IfOk result (λ found. option_map keyed_row found
        ≡ keyed_kinds (before_of before.now) (keyed_of input.now)) }
{
    let Some(row) = rows_before(before, input.input) else {
        return Ok(None);
    };
    let Some(keys) = kinds_of_keys(alloc, row, &input.keys)? else {
        return Ok(None);
    };
    Ok(Some(KeyedRows { row, keys }))
}

fn kinds_of_keys(alloc: Global, row: &Kinds, keys: &TExprs) -> Result<Option<Kinds>, AllocError>
    ensures { IfOk result (λ ks. option_map (map kind_tree) ks
        ≡ key_kinds (map kind_tree row.now) (map typed keys.now)) }
{
    let Some(found) = each_key(alloc, row, keys)? else {
        return Ok(None);
    };
    if found.is_empty() {
        return Ok(None);
    }
    Ok(Some(found))
}

fn each_key(alloc: Global, row: &Kinds, keys: &TExprs) -> Result<Option<Kinds>, AllocError>
    ensures { IfOk result (λ ks. option_map (map kind_tree) ks
        ≡ all_of (key_kind (map kind_tree row.now)) (map typed keys.now)) }
{
    let mut found = Vec::with_capacity(alloc, keys.len())?;
    for key in keys.as_slice() {
        match kind_of_key(alloc, row, key)? {
            Some(kind) => found.push(kind)?,
            None => return Ok(None),
        }
    }
    Ok(Some(Kinds::from_vec(found)))
}

fn kind_of_key(alloc: Global, row: &Kinds, key: &TExpr) -> Result<Option<Kind>, AllocError>
    ensures { IfOk result (λ k. option_map kind_tree k
        ≡ key_kind (map kind_tree row.now) (typed key.now)) }
{
    let none = Kinds::new(alloc);
    let Some(kind) = kind_of(alloc, key, row, &none)? else {
        return Ok(None);
    };
    if holds_bag_or_map(&kind) {
        return Ok(None);
    }
    Ok(Some(kind))
}

fn agree(found: &[KeyedRows]) -> bool
    ensures { result ≡ keys_agree (map keyed_row found.now) }
{
    match found {
        [first, others @ ..] => all_like(&first.keys, others),
        [] => false,
    }
}

fn all_like(keys: &Kinds, others: &[KeyedRows]) -> bool
    ensures { result ≡ list_all (λ other. kinds_eq (kinds_of (map kind_tree keys.now))
        (kinds_of other.keys)) (map keyed_row others.now) }
{
    let mut left = others;
    while let [other, rest @ ..] = left {
        if !same_kinds(keys.as_slice(), other.keys.as_slice()) {
            return false;
        }
        left = rest;
    }
    true
}

// The kinds of the rows of GROUP and COGROUP: that of the key, and of each input's bag.
pub fn group_row(alloc: Global, found: &[KeyedRows]) -> Result<Kinds, AllocError>
    ensures { IfOk result (λ kinds. map kind_tree kinds ≡ group_kinds (map keyed_row found.now)) }
{
    let mut kinds = Vec::with_capacity(alloc, found.len().saturating_add(1))?;
    if let [first, ..] = found {
        kinds.push(key_row(alloc, &first.keys)?)?;
    }
    for input in found {
        kinds.push(Kind::Bag(copy_kinds(alloc, input.row.as_slice())?))?;
    }
    Ok(Kinds::from_vec(kinds))
}

fn key_row(alloc: Global, keys: &Kinds) -> Result<Kind, AllocError>
    ensures { IfOk result (λ k. kind_tree k ≡ group_kind (map kind_tree keys.now)) }
{
    match keys.as_slice() {
        [key] => copy_kind(alloc, key),
        several => Ok(Kind::Tuple(copy_kinds(alloc, several)?)),
    }
}

// The kinds of the rows of a JOIN: those of its inputs in turn.
pub fn joined_row(alloc: Global, found: &[KeyedRows]) -> Result<Kinds, AllocError>
    ensures { IfOk result (λ kinds. map kind_tree kinds
        ≡ flat_map (λ input. input.row) (map keyed_row found.now)) }
{
    let mut kinds = Kinds::new(alloc);
    for input in found {
        kinds.extend(copy_kinds(alloc, input.row.as_slice())?)?;
    }
    Ok(kinds)
}
