ghost use Rattle.std.specs.Prelude.{◌≡◌, ◌≢◌, [], length, map, IfOk};
ghost use Rattle.pig_value.specs.Trees.{row_tree, tree};
ghost use Rattle.pig_typed.specs.Evaluation.{ev};
ghost use Rattle.pig_typed.specs.Typed.{typed};
ghost use Rattle.pig_plan.specs.Operators.{keys_of};
ghost use Rattle.pig_replicated.specs.Holding.{key_in};

use pig_eval::eval;
use pig_typed::TExpr;
use pig_value::{Tuple, Value};
use std::alloc::{AllocError, Global};

/// The key of a row: the value of the one key expression, or the tuple of the values of several.
///
/// Nothing owes a kind, as in [`eval`]: a part is null where an expression meets a value of another kind than it takes.
pub fn key_value(alloc: Global, keys: &[TExpr], row: &Tuple) -> Result<Value, AllocError>
    ensures { IfOk result (λ key. tree key ≡ key_in (map typed keys.now) (row_tree row.now)) }
{
    if let [key] = keys {
        return part_value(alloc, key, row);
    }
    tuple_value(alloc, keys, row)
}

fn part_value(alloc: Global, key: &TExpr, row: &Tuple) -> Result<Value, AllocError>
    ensures { IfOk result (λ v. tree v ≡ ev (typed key.now) (row_tree row.now) []) }
{
    let none = Tuple::new(alloc);
    eval(alloc, key, row, &none)
}

// Several keys, or none, are a tuple.
fn tuple_value(alloc: Global, keys: &[TExpr], row: &Tuple) -> Result<Value, AllocError>
    requires several { length keys.now ≢ 1 }
    ensures { IfOk result (λ key. tree key ≡ key_in (map typed keys.now) (row_tree row.now)) }
{
    Ok(Value::Tuple(part_values(alloc, keys, row)?))
}

fn part_values(alloc: Global, keys: &[TExpr], row: &Tuple) -> Result<Tuple, AllocError>
    ensures { IfOk result (λ vs. row_tree vs ≡ keys_of (map typed keys.now) (row_tree row.now)) }
{
    let mut values = Tuple::with_capacity(alloc, keys.len())?;
    for key in keys {
        values.push(part_value(alloc, key, row)?)?;
    }
    Ok(values)
}
