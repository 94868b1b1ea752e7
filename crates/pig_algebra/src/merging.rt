ghost use Rattle.std.specs.Prelude.{◌≡◌, ◌+ℤ◌, [], ◌∷◌, IfOk, cond};
ghost use Rattle.std.specs.Int.{int_wrap, w64};
ghost use Rattle.std.specs.Option.{option_map};
ghost use Rattle.std.specs.Ordering.{is_gt};
ghost use Rattle.pig_value.specs.Functions.{column_tree, is_present as is_present_tree};
ghost use Rattle.pig_value.specs.Orders.{dir_cmp};
ghost use Rattle.pig_value.specs.Trees.{field_tree, or_null as or_null_tree, row_tree, tree, v_long};
ghost use Rattle.pig_value.specs.declared.functions.Function.TheVariants.{Sum};
ghost use Rattle.pig_builtins.specs.Folds.{add_tree, first_of};
ghost use Rattle.pig_algebra.specs.Parts.{either_part, initial_part, merge_parts, part_found};

use pig_builtins::{Fold, looked_at};
use pig_value::{Dir, Function, Tuple, Value, order};
use std::alloc::{AllocError, Global};
use std::cmp::Ordering;

// What an algebraic function gives of one value, where none stands for null.
fn of_one(alloc: Global, function: Function, field: Option<&Value>) -> Result<Value, AllocError>
    ensures { IfOk result (λ v. tree v ≡ column_tree function (field_tree field.entry ∷ [])) }
{
    match Fold::start(function) {
        Some(fold) => fold.add(field).end(alloc),
        None => Ok(Value::Null),
    }
}

// What a function gives of one row.
pub fn of_row(alloc: Global, function: Function, row: &Tuple) -> Result<Value, AllocError>
    ensures { IfOk result (λ v. tree v ≡ initial_part function (row_tree row.now)) }
{
    of_one(alloc, function, looked_at(function, row))
}

// What two parts of a function give together.
pub fn merged(function: Function, a: Value, b: Value) -> Value
    ensures { tree result ≡ merge_parts function (tree a) (tree b) }
{
    match function {
        Function::Min => better(Dir::Asc, a, b),
        Function::Max => better(Dir::Desc, a, b),
        Function::Count
        | Function::CountStar
        | Function::Sum
        | Function::Size
        | Function::Concat
        | Function::IsEmpty
        | Function::Tokenize
        | Function::Substring
        | Function::StartsWith
        | Function::EndsWith
        | Function::IndexOf
        | Function::Abs
        | Function::ToTuple
        | Function::ToBag { .. } => added(a, b),
    }
}

// The sum of two numbers, either of which may be null.
fn added(a: Value, b: Value) -> Value
    ensures { tree result ≡ merge_parts Sum (tree a) (tree b) }
{
    match (found(a), found(b)) {
        (None, b) => or_null(b),
        (a, None) => or_null(a),
        (Some(a), Some(b)) => sum(&a, &b),
    }
}

// Of two values the first in the direction; null stands for none.
fn better(dir: Dir, a: Value, b: Value) -> Value
    ensures { tree result
        ≡ or_null_tree (first_of dir (part_found (tree a)) (part_found (tree b))) }
{
    match (found(a), found(b)) {
        (None, b) => or_null(b),
        (a, None) => or_null(a),
        (Some(a), Some(b)) => first(dir, a, b),
    }
}

// The first of two parts that is no null.
pub fn either(a: Value, b: Value) -> Value
    ensures { tree result ≡ either_part (tree a) (tree b) }
{
    if is_present(&a) { a } else { b }
}

// What a part has found.
fn found(part: Value) -> Option<Value>
    ensures { option_map tree result ≡ part_found (tree part) }
{
    if is_present(&part) { Some(part) } else { None }
}

// Whether a value is no null.
fn is_present(v: &Value) -> bool
    ensures { result ≡ is_present_tree (tree v.now) }
{
    !matches!(v, Value::Null)
}

fn or_null(found: Option<Value>) -> Value
    ensures { tree result ≡ or_null_tree (option_map tree found) }
{
    match found {
        Some(part) => part,
        None => Value::Null,
    }
}

fn sum(a: &Value, b: &Value) -> Value
    ensures { tree result ≡ add_tree (tree a.now) (tree b.now) }
{
    match a {
        Value::Long(a) => sum_with(*a, b),
        _ => Value::Null,
    }
}

fn sum_with(a: i64, b: &Value) -> Value
    ensures { tree result ≡ add_tree (v_long a) (tree b.now) }
{
    match b {
        Value::Long(b) => Value::Long(plus(a, *b)),
        _ => Value::Null,
    }
}

#[tactic(auto, using(std::proofs::lemmas::Int::wrapping_add_is))]
fn plus(a: i64, b: i64) -> i64
    ensures { result ≡ int_wrap w64 (a +ℤ b) }
{
    a.wrapping_add(b)
}

fn first(dir: Dir, a: Value, b: Value) -> Value
    ensures { tree result ≡ cond (is_gt (dir_cmp dir (tree a) (tree b))) (tree b) (tree a) }
{
    if is_behind(dir, &a, &b) { b } else { a }
}

// Whether the first value stands behind the second in the direction.
fn is_behind(dir: Dir, a: &Value, b: &Value) -> bool
    ensures { result ≡ is_gt (dir_cmp dir (tree a.now) (tree b.now)) }
{
    let found = match dir {
        Dir::Asc => order(a, b),
        Dir::Desc => order(b, a),
    };
    found == Ordering::Greater
}
