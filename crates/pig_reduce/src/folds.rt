//! GROUP that folds: the parts of each key, of all tasks, are finished to the row of its FOREACH.
ghost use Rattle.std.specs.Prelude.{◌≡◌, ◌<◌, ◌≤◌, ◌+◌, ◌++◌, [], ◌∷◌, length, map, IfOk, OnOk};
ghost use Rattle.std.specs.List.{AllByRecursion};
ghost use Rattle.pig_value.specs.Functions.{column_tree};
ghost use Rattle.pig_value.specs.Trees.{Tree, at as at_of, row_tree, rows_tree, tree};
ghost use Rattle.pig_value.specs.Valid.{AreRows, IsRow, IsValue};
ghost use Rattle.pig_typed.specs.Evaluation.{ev};
ghost use Rattle.pig_typed.specs.Literals.{LiteralsAre};
ghost use Rattle.pig_typed.specs.Typed.{block_typed, typed};
ghost use Rattle.pig_algebra.specs.Combining.{finished, folded};
ghost use Rattle.pig_algebra.specs.Cuts.{cut_typed, cuts_in};
ghost use Rattle.pig_algebra.specs.Parts.{merging as merging_of};
ghost use Rattle.pig_operators.specs.Groups.{IsGroup, first_key, rows_at};
ghost use Rattle.pig_packed.specs.Growth.{and_row, and_rows};
ghost use Rattle.pig_reduce.specs.Made.{AreOfFirst, IsKeyed, folds_to_come, item_at, places_of};

use crate::groups::group_end;
use crate::reading::{key_of, rows_of};
use pig_algebra::{Cut, Cuts, combinable};
use pig_builtins::apply_column;
use pig_eval::eval;
use pig_packed::PackedBuilder;
use pig_runs::Merged;
use pig_typed::{Block, TExpr};
use pig_value::{Function, Rows, Seq, Tuple, Value, copy, field_at};
use std::alloc::{AllocError, Global};

/// Adds the FOREACH's row of each key of entries whose rows are parts.
pub fn add_folded(
    alloc: Global,
    block: &Block,
    entries: &Merged,
    built: &mut PackedBuilder,
) -> Result<(), AllocError>
    requires ascending { entries.now.dirs ≡ [] }
    requires first { AreOfFirst entries.now.entries }
    requires none_begun { built.old.begun ≡ [] }
    ensures { OnOk result (built.new
        ≡ and_rows (folded (block_typed block.now) entries.now.entries) built.old) }
{
    let cuts = cuts_of(alloc, block)?;
    add_groups(alloc, cuts.as_slice(), entries, built)
}

// The cuts of a block, and none of one that is not cut.
fn cuts_of(alloc: Global, block: &Block) -> Result<Cuts, AllocError>
    ensures is { IfOk result (λ cuts. map cut_typed cuts ≡ cuts_in (block_typed block.now)) }
{
    match combinable(alloc, block)? {
        Some(cuts) => Ok(cuts),
        None => Ok(Seq::new(alloc)),
    }
}

// Adds the row of each group.
fn add_groups(
    alloc: Global,
    cuts: &[Cut],
    entries: &Merged,
    built: &mut PackedBuilder,
) -> Result<(), AllocError>
    requires cuts { AllByRecursion IsKeyed (map cut_typed cuts.now) }
    requires ascending { entries.now.dirs ≡ [] }
    requires first { AreOfFirst entries.now.entries }
    requires none_begun { built.old.begun ≡ [] }
    ensures { OnOk result (built.new
        ≡ and_rows (folds_to_come (map cut_typed cuts.now) entries.now 0) built.old) }
{
    let mut from = 0;
    'groups: while from < entries.len() {
        from = add_next(alloc, cuts, entries, from, built)?;
    }
    Ok(())
}

// Adds the row of the group that begins at a place, and says where it ends.
fn add_next(
    alloc: Global,
    cuts: &[Cut],
    entries: &Merged,
    from: usize,
    built: &mut PackedBuilder,
) -> Result<usize, AllocError>
    requires cuts { AllByRecursion IsKeyed (map cut_typed cuts.now) }
    requires ascending { entries.now.dirs ≡ [] }
    requires first { AreOfFirst entries.now.entries }
    requires none_begun { built.old.begun ≡ [] }
    requires within { from < length entries.now.entries }
    ensures rows { IfOk result (λ end.
        built.old.rows ++ folds_to_come (map cut_typed cuts.now) entries.now from
        ≡ built.new.rows ++ folds_to_come (map cut_typed cuts.now) entries.now end) }
    ensures none_begun { IfOk result (λ end. built.new.begun ≡ []) }
    ensures order { IfOk result (λ end. from < end) }
    ensures within { IfOk result (λ end. end ≤ length entries.now.entries) }
{
    entries.len();
    let end = group_end(entries, from);
    add_group(alloc, cuts, entries, from, end, built)?;
    Ok(end)
}

// Adds the row of a group: its rows are decoded, of which each task handed on one.
fn add_group(
    alloc: Global,
    cuts: &[Cut],
    entries: &Merged,
    from: usize,
    end: usize,
    built: &mut PackedBuilder,
) -> Result<(), AllocError>
    requires cuts { AllByRecursion IsKeyed (map cut_typed cuts.now) }
    requires ascending { entries.now.dirs ≡ [] }
    requires group { IsGroup entries.now from end }
    requires none_begun { built.old.begun ≡ [] }
    ensures { OnOk result (built.new ≡ and_row (finished (map cut_typed cuts.now)
        (first_key entries.now from) (rows_at entries.now from end)) built.old) }
{
    let key = key_of(alloc, entries, from)?;
    let rows = rows_of(alloc, entries, from, end)?;
    let row = finish(alloc, cuts, key, &rows)?;
    built.push_row(&row)
}

// The row that cuts give of a key and the rows of its parts.
fn finish(alloc: Global, cuts: &[Cut], key: Value, rows: &Rows) -> Result<Tuple, AllocError>
    requires cuts { AllByRecursion IsKeyed (map cut_typed cuts.now) }
    requires key { IsValue (tree key) }
    requires rows { AreRows (rows_tree rows.now) }
    ensures is { IfOk result (λ row. row_tree row
        ≡ finished (map cut_typed cuts.now) (tree key) (rows_tree rows.now)) }
    ensures values { IfOk result (λ row. IsRow (row_tree row)) }
{
    let keyed = alone(alloc, key)?;
    items_of(alloc, cuts, &keyed, rows)
}

// The row of one field.
fn alone(alloc: Global, key: Value) -> Result<Tuple, AllocError>
    ensures { IfOk result (λ row. row_tree row ≡ tree key ∷ []) }
{
    let mut row = Tuple::with_capacity(alloc, 1)?;
    row.push(key)?;
    Ok(row)
}

// The items of cuts, in their order.
fn items_of(alloc: Global, cuts: &[Cut], keyed: &Tuple, rows: &Rows) -> Result<Tuple, AllocError>
    requires cuts { AllByRecursion IsKeyed (map cut_typed cuts.now) }
    requires key { IsRow (row_tree keyed.now) }
    requires rows { AreRows (rows_tree rows.now) }
    ensures is { (key : Tree) → row_tree keyed.now ≡ key ∷ [] → IfOk result (λ row. row_tree row
        ≡ finished (map cut_typed cuts.now) key (rows_tree rows.now)) }
    ensures values { IfOk result (λ row. IsRow (row_tree row)) }
{
    let mut row = Tuple::with_capacity(alloc, cuts.len())?;
    let mut place = 0;
    for cut in cuts {
        row.push(item_of(alloc, cut, keyed, rows, place)?)?;
        place = place_behind(cut, place)?;
    }
    Ok(row)
}

// What a cut gives of a key and of the parts at a place.
fn item_of(
    alloc: Global,
    cut: &Cut,
    keyed: &Tuple,
    rows: &Rows,
    place: u32,
) -> Result<Value, AllocError>
    requires cut { IsKeyed (cut_typed cut.now) }
    requires key { IsRow (row_tree keyed.now) }
    requires rows { AreRows (rows_tree rows.now) }
    ensures is { IfOk result (λ v. tree v
        ≡ item_at (cut_typed cut.now) (row_tree keyed.now) (rows_tree rows.now) place) }
    ensures value { IfOk result (λ v. IsValue (tree v)) }
{
    match cut {
        Cut::Key(e) => key_item(alloc, e, keyed),
        Cut::Part { function, .. } => part_item(alloc, *function, rows, place),
        Cut::Row => key_copy(alloc, keyed),
    }
}

// What an expression gives of the key alone.
fn key_item(alloc: Global, e: &TExpr, keyed: &Tuple) -> Result<Value, AllocError>
    requires literals { LiteralsAre IsValue (typed e.now) }
    requires key { IsRow (row_tree keyed.now) }
    ensures is { IfOk result (λ v. tree v ≡ ev (typed e.now) (row_tree keyed.now) []) }
    ensures value { IfOk result (λ v. IsValue (tree v)) }
{
    let none = Tuple::new(alloc);
    eval(alloc, e, keyed, &none)
}

// The parts at a place, of all rows, brought together.
fn part_item(
    alloc: Global,
    function: Function,
    rows: &Rows,
    place: u32,
) -> Result<Value, AllocError>
    requires rows { AreRows (rows_tree rows.now) }
    ensures is { IfOk result (λ v. tree v
        ≡ column_tree (merging_of function) (map (at_of place) (rows_tree rows.now))) }
    ensures value { IfOk result (λ v. IsValue (tree v)) }
{
    apply_column(alloc, merging(function), rows.as_slice(), place)
}

// The function that brings the parts of a function together.
fn merging(function: Function) -> Function
    ensures { result ≡ merging_of function }
{
    match function {
        Function::Count => Function::Sum,
        Function::CountStar => Function::Sum,
        _ => function,
    }
}

// The first field of a row.
fn key_copy(alloc: Global, keyed: &Tuple) -> Result<Value, AllocError>
    requires { IsRow (row_tree keyed.now) }
    ensures is { IfOk result (λ v. tree v ≡ at_of 0 (row_tree keyed.now)) }
    ensures value { IfOk result (λ v. IsValue (tree v)) }
{
    match field_at(keyed, 0) {
        Some(key) => copy(alloc, key),
        None => Ok(Value::Null),
    }
}

// The place of the next part. Parts are numbered in 32 bits.
fn place_behind(cut: &Cut, place: u32) -> Result<u32, AllocError>
    ensures { IfOk result (λ next. next ≡ place + places_of (cut_typed cut.now)) }
{
    match cut {
        Cut::Key(_) => Ok(place),
        Cut::Part { .. } => next_place(place),
        Cut::Row => next_place(place),
    }
}

fn next_place(place: u32) -> Result<u32, AllocError>
    ensures { IfOk result (λ next. next ≡ place + 1) }
{
    match place.checked_add(1) {
        Some(next) => Ok(next),
        None => Err(AllocError),
    }
}
