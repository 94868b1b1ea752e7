ghost use Rattle.std.specs.Prelude.{◌≡◌, [], map, IfOk, Some};
ghost use Rattle.std.specs.Option.{option_map, option_copied};
ghost use Rattle.pig_value.specs.Trees.{kind_tree};
ghost use Rattle.pig_typed.specs.Typed.{typed};
ghost use Rattle.pig_plan.specs.Given.{before_of, kinds_of_given};
ghost use Rattle.pig_plan.specs.NodeKinds.{ascend, is_sorting, is_test, same_gives, stands_first};

use crate::shared::SharedKinds;
use pig_typed::{SortKeys, TExpr, are_sort_keys, kind_of};
use pig_value::{Column, Kind, Kinds, copy_kind};
use std::alloc::{AllocError, Global};

// What a node gives: rows whose fields are of these kinds, or nothing, as a STORE, which no node may name.
#[derive(Debug, Drop)]
pub enum Given {
    Rows(SharedKinds),
    Nothing,
}

// The kinds of the rows of the node numbered `input`, where it is a relation among the nodes before.
pub fn rows_before(before: &[Given], input: u32) -> Option<&Kinds>
    ensures { option_map (map kind_tree) (option_copied result) ≡ before_of before.now input }
{
    match before.get(input as usize) {
        Some(Given::Rows(kinds)) => Some(kinds.get()),
        _ => None,
    }
}

// Rows of the same kinds as those of the node numbered `input`, where it is a relation among the nodes before.
pub fn same_rows(before: &[Given], input: u32) -> Result<Option<Given>, AllocError>
    ensures { IfOk result (λ g. option_map kinds_of_given g
        ≡ same_gives (before_of before.now) input) }
{
    match before.get(input as usize) {
        Some(Given::Rows(kinds)) => Ok(Some(Given::Rows(kinds.share()?))),
        _ => Ok(None),
    }
}

// Rows of these kinds, which no other node shares yet.
pub fn rows_of(alloc: Global, kinds: Kinds) -> Result<Option<Given>, AllocError>
    ensures { IfOk result (λ g. option_map kinds_of_given g ≡ Some (Some (map kind_tree kinds))) }
{
    Ok(Some(Given::Rows(SharedKinds::new(alloc, kinds)?)))
}

// Whether the condition is boolean on rows of these kinds.
pub fn is_condition(alloc: Global, row: &Kinds, cond: &TExpr) -> Result<bool, AllocError>
    ensures { IfOk result (λ b. b ≡ is_test (map kind_tree row.now) (typed cond.now)) }
{
    let none = Kinds::new(alloc);
    let kind = kind_of(alloc, cond, row, &none)?;
    Ok(matches!(&kind, Some(Kind::Boolean)))
}

// Whether the columns stand in ascending order of their positions, which differ.
pub fn columns_ascend(columns: &[Column]) -> bool
    ensures { result ≡ ascend columns.now }
{
    let mut left = columns;
    while let [first, rest @ ..] = left {
        if !stands_before(first, rest) {
            return false;
        }
        left = rest;
    }
    true
}

fn stands_before(column: &Column, others: &[Column]) -> bool
    ensures { result ≡ stands_first column.now others.now }
{
    match others {
        [next, ..] => column.position < next.position,
        [] => true,
    }
}

// The kinds of columns, in order.
pub fn column_kinds(alloc: Global, columns: &[Column]) -> Result<Kinds, AllocError>
    ensures { IfOk result (λ kinds. map kind_tree kinds
        ≡ map (λ column. kind_tree column.kind) columns.now) }
{
    let mut kinds = Vec::with_capacity(alloc, columns.len())?;
    for column in columns {
        kinds.push(copy_kind(alloc, &column.kind)?)?;
    }
    Ok(Kinds::from_vec(kinds))
}

// Whether rows of these kinds may be sorted by the keys, of which there is one at least.
pub fn sorts_by(row: &Kinds, keys: &SortKeys) -> bool
    ensures { result ≡ is_sorting (map kind_tree row.now) keys.now }
{
    !keys.is_empty() && are_sort_keys(row, keys)
}
