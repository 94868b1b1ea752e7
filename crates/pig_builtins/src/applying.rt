ghost use Rattle.std.specs.Prelude.{◌≡◌, [], ◌∷◌, true, false, IfOk};
ghost use Rattle.pig_value.specs.Functions.{aggregate, apply_tree, endswith_tree, indexof_tree, startswith_tree, substring_tree, tokenize_tree};
ghost use Rattle.pig_value.specs.Trees.{row_tree, tree, v_chars};
ghost use Rattle.pig_builtins.specs.Arities.{is_variadic as is_variadic_function};

use crate::folding::apply_rows;
use crate::making::{concat, to_bag, to_tuple};
use crate::sizes::{abs, is_empty, rows_of, size};
use crate::texts::{ends_with, index_of, starts_with, substring};
use crate::tokens::tokenize;
use pig_value::{Function, Text, Tuple, Value};
use std::alloc::{AllocError, Global};

/// What a function gives of its arguments; null where it takes no arguments of this number or of these kinds.
///
/// Each function is one pass over what it looks at. COUNT, COUNT_STAR, SUM, SIZE, IsEmpty, STARTSWITH, ENDSWITH,
/// INDEXOF and ABS take no memory, MIN and MAX that of the one value that they give.
#[tactic(auto, using(crate::proofs::Arity::null_of_others))]
pub fn apply(alloc: Global, function: Function, args: &Tuple) -> Result<Value, AllocError>
    ensures { IfOk result (λ v. tree v ≡ apply_tree function (row_tree args.now)) }
{
    if is_variadic(function) {
        return apply_variadic(alloc, function, args);
    }
    match args.as_slice() {
        [a] => apply_one(alloc, function, a),
        [a, b] => Ok(apply_two(function, a, b)),
        [a, b, c] => apply_three(alloc, function, a, b, c),
        _ => Ok(Value::Null),
    }
}

/// Whether a function takes any number of arguments: CONCAT, TOTUPLE and TOBAG do.
pub fn is_variadic(function: Function) -> bool
    ensures { result ≡ is_variadic_function function }
{
    matches!(
        function,
        Function::Concat | Function::ToTuple | Function::ToBag { .. }
    )
}

fn apply_variadic(alloc: Global, function: Function, args: &Tuple) -> Result<Value, AllocError>
    requires { is_variadic_function function ≡ true }
    ensures { IfOk result (λ v. tree v ≡ apply_tree function (row_tree args.now)) }
{
    match function {
        Function::Concat => concat(alloc, args.as_slice()),
        Function::ToTuple => to_tuple(alloc, args),
        Function::ToBag { width } => to_bag(alloc, width, args.as_slice()),
        Function::Count
        | Function::CountStar
        | Function::Sum
        | Function::Min
        | Function::Max
        | Function::Size
        | Function::IsEmpty
        | Function::Tokenize
        | Function::Substring
        | Function::StartsWith
        | Function::EndsWith
        | Function::IndexOf
        | Function::Abs => Ok(Value::Null),
    }
}

/// What a function gives of one argument, which is read in place.
#[tactic(auto, using(crate::proofs::Arity::substring_one, crate::proofs::Arity::startswith_one, crate::proofs::Arity::endswith_one, crate::proofs::Arity::indexof_one))]
pub fn apply_one(alloc: Global, function: Function, a: &Value) -> Result<Value, AllocError>
    requires { is_variadic_function function ≡ false }
    ensures { IfOk result (λ v. tree v ≡ apply_tree function (tree a.now ∷ [])) }
{
    match function {
        Function::Count | Function::CountStar | Function::Sum | Function::Min | Function::Max => {
            over_rows(alloc, function, a)
        }
        Function::Size => Ok(size(a)),
        Function::IsEmpty => Ok(is_empty(a)),
        Function::Abs => Ok(abs(a)),
        Function::Tokenize => tokens(alloc, a),
        Function::Concat
        | Function::Substring
        | Function::StartsWith
        | Function::EndsWith
        | Function::IndexOf
        | Function::ToTuple
        | Function::ToBag { .. } => Ok(Value::Null),
    }
}

// An algebraic function of a bag.
fn over_rows(alloc: Global, function: Function, a: &Value) -> Result<Value, AllocError>
    ensures { IfOk result (λ v. tree v ≡ aggregate function (tree a.now ∷ [])) }
{
    match rows_of(a) {
        Some(rows) => apply_rows(alloc, function, rows.as_slice()),
        None => Ok(Value::Null),
    }
}

fn tokens(alloc: Global, a: &Value) -> Result<Value, AllocError>
    ensures { IfOk result (λ v. tree v ≡ tokenize_tree (tree a.now ∷ [])) }
{
    match a {
        Value::Chars(text) => tokenize(alloc, text),
        _ => Ok(Value::Null),
    }
}

/// What a function gives of two arguments, which are read in place.
pub fn apply_two(function: Function, a: &Value, b: &Value) -> Value
    requires { is_variadic_function function ≡ false }
    ensures { tree result ≡ apply_tree function (tree a.now ∷ tree b.now ∷ []) }
{
    match a {
        Value::Chars(a) => behind_text(function, a, b),
        _ => Value::Null,
    }
}

fn behind_text(function: Function, a: &Text, b: &Value) -> Value
    requires { is_variadic_function function ≡ false }
    ensures { tree result ≡ apply_tree function (v_chars a.now ∷ tree b.now ∷ []) }
{
    match b {
        Value::Chars(b) => of_texts(function, a, b),
        _ => Value::Null,
    }
}

fn of_texts(function: Function, a: &Text, b: &Text) -> Value
    requires { is_variadic_function function ≡ false }
    ensures { tree result ≡ apply_tree function (v_chars a.now ∷ v_chars b.now ∷ []) }
{
    match function {
        Function::StartsWith => starts_with(a, b),
        Function::EndsWith => ends_with(a, b),
        Function::IndexOf => index_of(a, b),
        Function::Count
        | Function::CountStar
        | Function::Sum
        | Function::Min
        | Function::Max
        | Function::Size
        | Function::Concat
        | Function::IsEmpty
        | Function::Tokenize
        | Function::Substring
        | Function::Abs
        | Function::ToTuple
        | Function::ToBag { .. } => Value::Null,
    }
}

/// What a function gives of three arguments, which are read in place.
pub fn apply_three(
    alloc: Global,
    function: Function,
    a: &Value,
    b: &Value,
    c: &Value,
) -> Result<Value, AllocError>
    requires { is_variadic_function function ≡ false }
    ensures { IfOk result (λ v. tree v
        ≡ apply_tree function (tree a.now ∷ tree b.now ∷ tree c.now ∷ [])) }
{
    match function {
        Function::Substring => part_of(alloc, a, b, c),
        Function::Count
        | Function::CountStar
        | Function::Sum
        | Function::Min
        | Function::Max
        | Function::Size
        | Function::Concat
        | Function::IsEmpty
        | Function::Tokenize
        | Function::StartsWith
        | Function::EndsWith
        | Function::IndexOf
        | Function::Abs
        | Function::ToTuple
        | Function::ToBag { .. } => Ok(Value::Null),
    }
}

fn part_of(alloc: Global, a: &Value, b: &Value, c: &Value) -> Result<Value, AllocError>
    ensures { IfOk result (λ v. tree v
        ≡ substring_tree (tree a.now ∷ tree b.now ∷ tree c.now ∷ [])) }
{
    match (a, b, c) {
        (Value::Chars(text), Value::Int(start), Value::Int(stop)) => {
            substring(alloc, text, *start, *stop)
        }
        _ => Ok(Value::Null),
    }
}
