ghost use Rattle.std.specs.Prelude.{◌≡◌, ◌≢◌, ◌++◌, [], ◌∷◌, codes, length, map, IfOk, OnOk};
ghost use Rattle.std.specs.List.{AllByRecursion};
ghost use Rattle.pig_value.specs.Trees.{fields_of, row_tree, rows_tree, tree, v_chars, v_tuple};
ghost use Rattle.pig_value.specs.Valid.{AreRows, IsRow, IsValue};
ghost use Rattle.pig_typed.specs.Literals.{LiteralsAre};
ghost use Rattle.pig_typed.specs.Typed.{typed};
ghost use Rattle.pig_plan.specs.Operators.{keys_of};
ghost use Rattle.pig_runs.specs.Entries.{and_entries};
ghost use Rattle.pig_operators.specs.Keying.{all_rows_keyed, keyed_rows};

use pig_eval::{eval, look, value};
use pig_runs::RunBuilder;
use pig_typed::TExpr;
use pig_value::{Text, Tuple, Value};
use std::alloc::{AllocError, Global};

/// Adds rows of the input of a number, each under the value of its key, or under the tuple of its keys.
pub fn add_rows(
    alloc: Global,
    keys: &[TExpr],
    number: u32,
    rows: &[Tuple],
    builder: &mut RunBuilder,
) -> Result<(), AllocError>
    requires ascending { builder.old.dirs ≡ [] }
    requires rows { AreRows (rows_tree rows.now) }
    requires literals { AllByRecursion (LiteralsAre IsValue) (map typed keys.now) }
    ensures { OnOk result (builder.new
        ≡ and_entries (keyed_rows (map typed keys.now) number (rows_tree rows.now)) builder.old) }
{
    let mut left = rows;
    'rows: while let [row, rest @ ..] = left {
        add_row(alloc, keys, number, row, builder)?;
        left = rest;
    }
    Ok(())
}

/// Adds one row so.
pub fn add_row(
    alloc: Global,
    keys: &[TExpr],
    number: u32,
    row: &Tuple,
    builder: &mut RunBuilder,
) -> Result<(), AllocError>
    requires ascending { builder.old.dirs ≡ [] }
    requires row { IsRow (row_tree row.now) }
    requires literals { AllByRecursion (LiteralsAre IsValue) (map typed keys.now) }
    ensures { OnOk result (builder.new
        ≡ and_entries (keyed_rows (map typed keys.now) number
        (row_tree row.now ∷ [])) builder.old) }
{
    if let [key] = keys {
        return add_by_one(alloc, key, number, row, builder);
    }
    add_by_several(alloc, keys, number, row, builder)
}

// One key is looked at where it stands.
fn add_by_one(
    alloc: Global,
    key: &TExpr,
    number: u32,
    row: &Tuple,
    builder: &mut RunBuilder,
) -> Result<(), AllocError>
    requires ascending { builder.old.dirs ≡ [] }
    requires row { IsRow (row_tree row.now) }
    requires literals { LiteralsAre IsValue (typed key.now) }
    ensures { OnOk result (builder.new
        ≡ and_entries (keyed_rows (typed key.now ∷ []) number
        (row_tree row.now ∷ [])) builder.old) }
{
    let none = Tuple::new(alloc);
    let seen = look(alloc, key, row, &none)?;
    add_under(value(&seen), number, row, builder)
}

// Several keys, or none, are a tuple.
fn add_by_several(
    alloc: Global,
    keys: &[TExpr],
    number: u32,
    row: &Tuple,
    builder: &mut RunBuilder,
) -> Result<(), AllocError>
    requires ascending { builder.old.dirs ≡ [] }
    requires row { IsRow (row_tree row.now) }
    requires literals { AllByRecursion (LiteralsAre IsValue) (map typed keys.now) }
    requires several { length keys.now ≢ 1 }
    ensures { OnOk result (builder.new
        ≡ and_entries (keyed_rows (map typed keys.now) number
        (row_tree row.now ∷ [])) builder.old) }
{
    let key = tuple_of(alloc, keys, row)?;
    add_under(&key, number, row, builder)
}

/// Adds rows of GROUP ALL, all under one key.
pub fn add_all_rows(
    alloc: Global,
    rows: &[Tuple],
    builder: &mut RunBuilder,
) -> Result<(), AllocError>
    requires ascending { builder.old.dirs ≡ [] }
    requires rows { AreRows (rows_tree rows.now) }
    ensures { OnOk result (builder.new
        ≡ and_entries (all_rows_keyed (rows_tree rows.now)) builder.old) }
{
    let key = all_key(alloc)?;
    add_all_under(&key, rows, builder)
}

fn add_all_under(key: &Value, rows: &[Tuple], builder: &mut RunBuilder) -> Result<(), AllocError>
    requires ascending { builder.old.dirs ≡ [] }
    requires key { tree key.now ≡ v_chars (codes "all") }
    requires valid { IsValue (tree key.now) }
    requires rows { AreRows (rows_tree rows.now) }
    ensures { OnOk result (builder.new
        ≡ and_entries (all_rows_keyed (rows_tree rows.now)) builder.old) }
{
    let mut left = rows;
    'rows: while let [row, rest @ ..] = left {
        add_under(key, 0, row, builder)?;
        left = rest;
    }
    Ok(())
}

fn all_key(alloc: Global) -> Result<Value, AllocError>
    ensures key { IfOk result (λ key. tree key ≡ v_chars (codes "all")) }
    ensures valid { IfOk result (λ key. IsValue (tree key)) }
{
    Ok(Value::Chars(Text::from_str(alloc, "all")?))
}

// Adds a row under its key.
fn add_under(
    key: &Value,
    number: u32,
    row: &Tuple,
    builder: &mut RunBuilder,
) -> Result<(), AllocError>
    requires ascending { builder.old.dirs ≡ [] }
    requires key { IsValue (tree key.now) }
    requires row { IsRow (row_tree row.now) }
    ensures { OnOk result (builder.new ≡ and_entries
        (record { key = tree key.now; input = number; row = row_tree row.now } ∷ []) builder.old) }
{
    builder.add(key, number, row)
}

fn tuple_of(alloc: Global, keys: &[TExpr], row: &Tuple) -> Result<Value, AllocError>
    requires row { IsRow (row_tree row.now) }
    requires literals { AllByRecursion (LiteralsAre IsValue) (map typed keys.now) }
    ensures key { IfOk result (λ key. tree key
        ≡ v_tuple (fields_of (keys_of (map typed keys.now) (row_tree row.now)))) }
    ensures valid { IfOk result (λ key. IsValue (tree key)) }
{
    Ok(Value::Tuple(values(alloc, keys, row)?))
}

// The values of keys on a row.
fn values(alloc: Global, keys: &[TExpr], row: &Tuple) -> Result<Tuple, AllocError>
    ensures { IfOk result (λ vs. row_tree vs ≡ keys_of (map typed keys.now) (row_tree row.now)) }
{
    let mut found = Tuple::with_capacity(alloc, keys.len())?;
    for key in keys {
        add_value(alloc, key, row, &mut found)?;
    }
    Ok(found)
}

fn add_value(alloc: Global, key: &TExpr, row: &Tuple, found: &mut Tuple) -> Result<(), AllocError>
    ensures { OnOk result (row_tree found.new
        ≡ row_tree found.old ++ keys_of (typed key.now ∷ []) (row_tree row.now)) }
{
    let none = Tuple::new(alloc);
    found.push(eval(alloc, key, row, &none)?)
}
