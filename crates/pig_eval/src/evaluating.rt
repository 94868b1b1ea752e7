ghost use Rattle.std.specs.Prelude.{◌≡◌, List, Some, IfOk};
ghost use Rattle.pig_value.specs.Kinds.{IsOf, IsRowOf};
ghost use Rattle.pig_value.specs.Texts.{IsLineFree, IsLineFreeRow};
ghost use Rattle.pig_value.specs.Trees.{KindTree, row_tree, tree};
ghost use Rattle.pig_value.specs.Valid.{IsRow, IsValue};
ghost use Rattle.pig_typed.specs.Evaluation.{ev, passes};
ghost use Rattle.pig_typed.specs.ExprKinds.{expr_kind};
ghost use Rattle.pig_typed.specs.Literals.{LiteralsAre};
ghost use Rattle.pig_typed.specs.Operators.{is_true};
ghost use Rattle.pig_typed.specs.Premises.{IsLineFreeValue};
ghost use Rattle.pig_typed.specs.Typed.{typed};

use crate::looking::{look, truth};
use crate::seen::owned;
use pig_typed::TExpr;
use pig_value::{Seq, Tuple, Value};
use std::alloc::{AllocError, Global};

/// The value of an expression on a row and on the values of a block's earlier steps. It is null where an
/// expression meets a value of another kind than it takes.
///
/// Where the expression has a kind on rows and locals of these kinds, the value is of that kind. Out of values it is a
/// value, and where no text in the row, the locals and the literals has an LF, it is free of them too.
pub fn eval(alloc: Global, e: &TExpr, row: &Tuple, locals: &Tuple) -> Result<Value, AllocError>
    ensures value { IfOk result (λ v. tree v ≡ ev (typed e.now) (row_tree row.now)
        (row_tree locals.now)) }
    ensures kind { (kinds more : List KindTree) (k : KindTree)
        → IsRowOf (row_tree row.now) kinds → IsRowOf (row_tree locals.now) more
        → expr_kind (typed e.now) kinds more ≡ Some k
        → IfOk result (λ v. IsOf (tree v) k) }
    ensures valid { LiteralsAre IsValue (typed e.now) → IsRow (row_tree row.now)
        → IsRow (row_tree locals.now)
        → IfOk result (λ v. IsValue (tree v)) }
    ensures line_free { LiteralsAre IsLineFreeValue (typed e.now) → IsRow (row_tree row.now)
        → IsLineFreeRow (row_tree row.now)
        → IsRow (row_tree locals.now) → IsLineFreeRow (row_tree locals.now)
        → IfOk result (λ v. IsLineFree (tree v)) }
{
    made(alloc, e, row, locals)
}

fn made(alloc: Global, e: &TExpr, row: &Tuple, locals: &Tuple) -> Result<Value, AllocError>
    ensures { IfOk result (λ v. tree v ≡ ev (typed e.now) (row_tree row.now)
        (row_tree locals.now)) }
{
    let seen = look(alloc, e, row, locals)?;
    owned(alloc, seen)
}

/// Whether a row meets a condition, which sees nothing but the row: a null and whatever is no boolean is not met.
pub fn holds(alloc: Global, cond: &TExpr, row: &Tuple) -> Result<bool, AllocError>
    ensures { IfOk result (λ met. met ≡ passes (typed cond.now) (row_tree row.now)) }
{
    let none = Seq::new(alloc);
    let truth = truth(alloc, cond, row, &none)?;
    Ok(truth == Some(true))
}
