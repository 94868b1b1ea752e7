ghost use Rattle.std.specs.Prelude.{◌≡◌, [], ◌∷◌, false, ⊤, List, IfOk, MatchOption};
ghost use Rattle.std.specs.Option.{option_map};
ghost use Rattle.pig_value.specs.Functions.{apply_tree, argument_rows, one_field};
ghost use Rattle.pig_value.specs.Trees.{Tree, at, rows_tree, tree};
ghost use Rattle.pig_builtins.specs.Arities.{is_variadic as is_variadic_function};
ghost use Rattle.pig_typed.specs.Operators.{pick, project_tree};
ghost use Rattle.pig_eval.specs.Columned.{ReadsColumn, counts_rows as counts_rows_of};

use crate::projecting::projected;
use pig_builtins::{apply_column, apply_one};
use pig_value::{Function, Positions, Rows, Value};
use std::alloc::{AllocError, Global};

// A function of one argument, of a projection. Of a bag nothing is projected: the rows are read in place.
pub fn apply_projected(
    alloc: Global,
    function: Function,
    v: &Value,
    fields: &Positions,
    single: bool,
) -> Result<Value, AllocError>
    requires { is_variadic_function function ≡ false }
    ensures { IfOk result (λ w. tree w ≡ apply_tree function
        (project_tree fields.now single (tree v.now) ∷ [])) }
{
    let Some(rows) = rows_of(v) else {
        return apply_made(alloc, function, v, fields, single);
    };
    if counts_rows(function) {
        return apply_one(alloc, function, v);
    }
    match column(function, fields) {
        Some(n) => apply_column(alloc, function, rows.as_slice(), n),
        None => apply_made(alloc, function, v, fields, single),
    }
}

// The same by way of the projection.
fn apply_made(
    alloc: Global,
    function: Function,
    v: &Value,
    fields: &Positions,
    single: bool,
) -> Result<Value, AllocError>
    requires { is_variadic_function function ≡ false }
    ensures { IfOk result (λ w. tree w ≡ apply_tree function
        (project_tree fields.now single (tree v.now) ∷ [])) }
{
    let made = projected(alloc, v, fields, single)?;
    apply_one(alloc, function, &made)
}

// The rows of a bag, also of a listed one.
#[tactic(auto, using(pig_builtins::proofs::Trees::bag_rows, pig_builtins::proofs::Trees::listed_rows))]
fn rows_of(v: &Value) -> Option<&Rows>
    ensures { option_map (λ rows. rows_tree rows.now) result ≡ argument_rows (tree v.now ∷ []) }
{
    match v {
        Value::Bag(rows) => Some(rows),
        Value::Listed(rows) => Some(rows),
        _ => None,
    }
}

// Whether a function of a bag looks at nothing but how many rows there are.
fn counts_rows(function: Function) -> bool
    ensures { result ≡ counts_rows_of function }
{
    match function {
        Function::Size | Function::IsEmpty => true,
        Function::Count
        | Function::CountStar
        | Function::Sum
        | Function::Min
        | Function::Max
        | Function::Concat
        | Function::Tokenize
        | Function::Substring
        | Function::StartsWith
        | Function::EndsWith
        | Function::IndexOf
        | Function::Abs
        | Function::ToTuple
        | Function::ToBag { .. } => false,
    }
}

// The column that an algebraic function of a projection reads, where it reads one.
fn column(function: Function, fields: &Positions) -> Option<u32>
    ensures { MatchOption result ⊤ (λ n. ReadsColumn function fields.now n) }
{
    match function {
        Function::Count | Function::CountStar => first(fields),
        Function::Sum | Function::Min | Function::Max => only(fields),
        Function::Size
        | Function::Concat
        | Function::IsEmpty
        | Function::Tokenize
        | Function::Substring
        | Function::StartsWith
        | Function::EndsWith
        | Function::IndexOf
        | Function::Abs
        | Function::ToTuple
        | Function::ToBag { .. } => None,
    }
}

// The position of the first field.
fn first(fields: &Positions) -> Option<u32>
    ensures { MatchOption result ⊤ (λ n. (row : List Tree)
        → at 0 (pick fields.now row) ≡ at n row) }
{
    match fields.as_slice() {
        [n, ..] => Some(*n),
        [] => None,
    }
}

// The position of the one field.
fn only(fields: &Positions) -> Option<u32>
    ensures { MatchOption result ⊤ (λ n. (row : List Tree)
        → one_field (pick fields.now row) ≡ at n row) }
{
    match fields.as_slice() {
        [n] => Some(*n),
        _ => None,
    }
}
