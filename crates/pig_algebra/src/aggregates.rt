ghost use Rattle.std.specs.Prelude.{◌≡◌, ⊤, true, [], ◌∷◌, refl};
ghost use Rattle.pig_value.specs.Functions.{looked_at};
ghost use Rattle.pig_value.specs.Trees.{tree};
ghost use Rattle.pig_value.specs.declared.functions.Function.{Function};
ghost use Rattle.pig_value.specs.declared.functions.Function.TheVariants as f;
ghost use Rattle.pig_builtins.specs.Folds.{is_algebraic};
ghost use Rattle.pig_algebra.specs.Parts.{AreOfOne, AreOne, IsPart, IsRowPart, is_none, is_row, parts_of, row_parts, the_row, value_of};
ghost use Rattle.pig_algebra.specs.PartLaws.{column_part, part_merged, parts_any_way, parts_associate, parts_commute, unit_stays};
ghost use Rattle.pig_algebra.specs.RowLaws.{row_any_way, row_associates, row_commutes, row_merged};

use crate::Algebraic;
use crate::merging::{either, merged, of_row};
use pig_value::{Function, Tuple, Value, copy_row};
use std::alloc::{AllocError, Global};

/// A function whose part is what it gives of some of the rows.
pub trait Aggregate: Copy {
    /// Which function it is.
    ghost function: { Function };

    ghost algebraic: { is_algebraic function ≡ true };

    /// The function.
    fn function(&self) -> Function
        ensures { result ≡ function };
}

impl<F: Aggregate> Algebraic for F {
    type Part = Value;

    ghost seen = { tree };

    ghost parts = { parts_of F.function };

    ghost is_part = { IsPart F.function };

    ghost go_together = { λ a b. ⊤ };

    ghost are_rows = { λ rows. ⊤ };

    ghost value = { value_of F.function };

    fn initial(&self, alloc: Global, row: &Tuple) -> Result<Value, AllocError> {
        of_row(alloc, self.function(), row)
    }

    fn merge(&self, _alloc: Global, a: Value, b: Value) -> Result<Value, AllocError> {
        Ok(merged(self.function(), a, b))
    }

    fn finish(&self, _alloc: Global, part: Value) -> Result<Value, AllocError> {
        Ok(part)
    }

    ghost unit_part = { column_part F.function F.algebraic [] };

    ghost initial_part = { λ row. column_part F.function F.algebraic (looked_at F.function row ∷ []) };

    ghost merged_part = { λ a b p q h. part_merged F.function F.algebraic a b p q };

    ghost unit = { unit_stays F.function };

    ghost commutes = { λ a b p q h. parts_commute F.function a b p q };

    ghost associates = { parts_associate F.function };

    ghost any_way = { λ way rows h k. parts_any_way F.function F.algebraic way rows h };
}

/// Parts of COUNT: how many rows have a first field that is not null, as a long.
#[derive(Clone, Copy, Drop)]
pub struct CountPart;

impl Aggregate for CountPart {
    ghost function = { f.Count };

    ghost algebraic = { refl };

    fn function(&self) -> Function {
        Function::Count
    }
}

/// Parts of COUNT_STAR: how many rows there are, as a long.
#[derive(Clone, Copy, Drop)]
pub struct StarPart;

impl Aggregate for StarPart {
    ghost function = { f.CountStar };

    ghost algebraic = { refl };

    fn function(&self) -> Function {
        Function::CountStar
    }
}

/// Parts of SUM: the sum of the numbers as a long, or null where there is none.
#[derive(Clone, Copy, Drop)]
pub struct SumPart;

impl Aggregate for SumPart {
    ghost function = { f.Sum };

    ghost algebraic = { refl };

    fn function(&self) -> Function {
        Function::Sum
    }
}

/// Parts of MIN: the least value, or null where there is none.
#[derive(Clone, Copy, Drop)]
pub struct MinPart;

impl Aggregate for MinPart {
    ghost function = { f.Min };

    ghost algebraic = { refl };

    fn function(&self) -> Function {
        Function::Min
    }
}

/// Parts of MAX: the greatest value, or null where there is none.
#[derive(Clone, Copy, Drop)]
pub struct MaxPart;

impl Aggregate for MaxPart {
    ghost function = { f.Max };

    ghost algebraic = { refl };

    fn function(&self) -> Function {
        Function::Max
    }
}

/// Parts of DISTINCT, of equal rows: the row as a tuple, or null where there is none.
#[derive(Clone, Copy, Drop)]
pub struct DistinctPart;

impl Algebraic for DistinctPart {
    type Part = Value;

    ghost seen = { tree };

    ghost parts = { row_parts };

    ghost is_part = { IsRowPart };

    ghost go_together = { AreOfOne };

    ghost are_rows = { AreOne };

    ghost value = { the_row };

    fn initial(&self, alloc: Global, row: &Tuple) -> Result<Value, AllocError> {
        Ok(Value::Tuple(copy_row(alloc, row)?))
    }

    fn merge(&self, _alloc: Global, a: Value, b: Value) -> Result<Value, AllocError> {
        Ok(either(a, b))
    }

    fn finish(&self, _alloc: Global, part: Value) -> Result<Value, AllocError> {
        Ok(part)
    }

    ghost unit_part = { is_none };

    ghost initial_part = { λ row. is_row row };

    ghost merged_part = { λ a b p q h. row_merged a b p q };

    ghost unit = { λ a p. refl };

    ghost commutes = { row_commutes };

    ghost associates = { row_associates };

    ghost any_way = { row_any_way };
}
