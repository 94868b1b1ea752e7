ghost use Rattle.std.specs.Prelude.{◌≡◌, ◌++◌, ◌+ℤ◌, [], ◌∷◌, List, false, map, pos, None, Some, IfOk, MatchOption};
ghost use Rattle.std.specs.Int.{w64, int_wrap};
ghost use Rattle.std.specs.List.{filter, filter_map};
ghost use Rattle.std.specs.Option.{option_map};
ghost use Rattle.pig_value.specs.Functions.{column_found, column_tree, first_found, is_present, length_of, looked_at as looked_at_of, whole_of, one_field, sum_found};
ghost use Rattle.pig_value.specs.Trees.{Tree, at, field_tree, or_null, rows_tree, tree, v_long};
ghost use Rattle.pig_value.specs.declared.functions.Function.TheVariants.{Sum};
ghost use Rattle.pig_value.specs.declared.operators.Dir.TheVariants.{Asc, Desc};
ghost use Rattle.pig_builtins.specs.Folds.{first_of, lent_tree, fold_found, fold_function, is_algebraic, merge_found};

use pig_value::{Dir, Function, Tuple, Value, copy, field_at, order};
use std::alloc::{AllocError, Global};
use std::cmp::Ordering;

/// What an algebraic function has found so far in the values of a column, taken one at a time.
///
/// COUNT, COUNT_STAR and SUM hold a number, reduced modulo 2 to the 64 into the signed range; SUM holds none
/// before the first number. MIN and MAX lend the best value so far.
#[derive(Clone, Copy, Drop)]
pub enum Fold<'a> {
    Count(i64),
    CountStar(i64),
    Sum(Option<i64>),
    Min(Option<&'a Value>),
    Max(Option<&'a Value>),
}

impl<'a> Fold<'a> {
    /// The fold of a function over no value yet; none where the function is not algebraic.
    #[tactic(auto, using(crate::proofs::Sums::zero_is))]
    pub fn start(function: Function) -> Option<Fold<'a>>
        ensures { MatchOption result (is_algebraic function ≡ false)
            (λ fold. (fold_function fold ≡ function)
            × (fold_found fold ≡ column_found function [])) }
    {
        match function {
            Function::Count => Some(Fold::Count(0)),
            Function::CountStar => Some(Fold::CountStar(0)),
            Function::Sum => Some(Fold::Sum(None)),
            Function::Min => Some(Fold::Min(None)),
            Function::Max => Some(Fold::Max(None)),
            Function::Size
            | Function::Concat
            | Function::IsEmpty
            | Function::Tokenize
            | Function::Substring
            | Function::StartsWith
            | Function::EndsWith
            | Function::IndexOf
            | Function::Abs
            | Function::ToTuple
            | Function::ToBag { .. } => None,
        }
    }

    /// The fold with one more value, where none stands for null.
    pub fn add(self, field: Option<&'a Value>) -> Fold<'a>
        ensures function { fold_function result ≡ fold_function self.entry }
        ensures found { (vs : List Tree)
            → fold_found self.entry ≡ column_found (fold_function self.entry) vs
            → fold_found result
            ≡ column_found (fold_function self.entry) (vs ++ field_tree field.entry ∷ []) }
    {
        self.step(field)
    }

    // What the fold and the one value find together.
    fn step(self, field: Option<&'a Value>) -> Fold<'a>
        ensures function { fold_function result ≡ fold_function self.entry }
        ensures found { fold_found result
            ≡ merge_found (fold_function self.entry) (fold_found self.entry)
            (column_found (fold_function self.entry) (field_tree field.entry ∷ [])) }
    {
        match self {
            Fold::Count(n) => Fold::Count(plus(n, count(field))),
            Fold::CountStar(n) => Fold::CountStar(plus(n, 1)),
            Fold::Sum(total) => Fold::Sum(plus_some(total, number(field))),
            Fold::Min(best) => Fold::Min(better(Dir::Asc, best, ranked(field))),
            Fold::Max(best) => Fold::Max(better(Dir::Desc, best, ranked(field))),
        }
    }

    /// The function's value.
    pub fn end(self, alloc: Global) -> Result<Value, AllocError>
        ensures { IfOk result (λ v. tree v ≡ or_null (fold_found self.entry)) }
    {
        match self {
            Fold::Count(n) | Fold::CountStar(n) | Fold::Sum(Some(n)) => Ok(Value::Long(n)),
            Fold::Min(Some(best)) | Fold::Max(Some(best)) => copy(alloc, best),
            Fold::Sum(None) | Fold::Min(None) | Fold::Max(None) => Ok(Value::Null),
        }
    }
}

#[tactic(auto, using(std::proofs::lemmas::Int::wrapping_add_is))]
fn plus(a: i64, b: i64) -> i64
    ensures { result ≡ int_wrap w64 (a +ℤ b) }
{
    a.wrapping_add(b)
}

// The sum of two numbers, either of which may be missing.
fn plus_some(a: Option<i64>, b: Option<i64>) -> Option<i64>
    ensures { option_map v_long result
        ≡ merge_found Sum (option_map v_long a) (option_map v_long b) }
{
    match (a, b) {
        (None, b) => b,
        (a, None) => a,
        (Some(a), Some(b)) => Some(plus(a, b)),
    }
}

// 1 for a value, 0 for null.
#[tactic(auto, using(crate::proofs::Sums::zero_is, crate::proofs::Sums::one_is))]
fn count(field: Option<&Value>) -> i64
    ensures { v_long result ≡ length_of (filter is_present (field_tree field.entry ∷ [])) }
{
    match field {
        None | Some(Value::Null) => 0,
        Some(_) => 1,
    }
}

// The number that a value is.
fn number(field: Option<&Value>) -> Option<i64>
    ensures { option_map v_long result
        ≡ sum_found (filter_map whole_of (field_tree field.entry ∷ [])) }
{
    match field {
        Some(Value::Int(n)) => Some(long(i64::from(*n))),
        Some(Value::Long(n)) => Some(long(*n)),
        _ => None,
    }
}

// A number as it stands, which is the sum of it alone.
#[tactic(auto, using(crate::proofs::Sums::sum_alone))]
fn long(n: i64) -> i64
    ensures { result ≡ int_wrap w64 (n +ℤ pos 0) }
{
    n
}

// The value, where MIN and MAX choose among such.
fn ranked<'a>(field: Option<&'a Value>) -> Option<&'a Value>
    ensures asc { lent_tree result ≡ first_found Asc (field_tree field.entry ∷ []) }
    ensures desc { lent_tree result ≡ first_found Desc (field_tree field.entry ∷ []) }
{
    match field {
        Some(Value::Int(_) | Value::Long(_) | Value::Chars(_)) => field,
        _ => None,
    }
}

// Of two values the first in the direction.
fn better<'a>(dir: Dir, a: Option<&'a Value>, b: Option<&'a Value>) -> Option<&'a Value>
    ensures { lent_tree result ≡ first_of dir (lent_tree a.entry) (lent_tree b.entry) }
{
    match (a, b) {
        (None, b) => b,
        (a, None) => a,
        (Some(v), Some(w)) => {
            let found = match dir {
                Dir::Asc => order(v, w),
                Dir::Desc => order(w, v),
            };
            if found == Ordering::Greater { b } else { a }
        }
    }
}

/// The field that a function of a bag looks at in each row: of SUM, MIN and MAX the only one, where there is one alone, of
/// any other function the first.
pub fn looked_at(function: Function, row: &Tuple) -> Option<&Value>
    ensures { field_tree result ≡ looked_at_of function (map tree row.now) }
{
    match function {
        Function::Sum | Function::Min | Function::Max => only_field(row),
        Function::Count
        | Function::CountStar
        | Function::Size
        | Function::Concat
        | Function::IsEmpty
        | Function::Tokenize
        | Function::Substring
        | Function::StartsWith
        | Function::EndsWith
        | Function::IndexOf
        | Function::Abs
        | Function::ToTuple
        | Function::ToBag { .. } => field_at(row, 0),
    }
}

fn only_field(row: &Tuple) -> Option<&Value>
    ensures { field_tree result ≡ one_field (map tree row.now) }
{
    match row.as_slice() {
        [value] => Some(value),
        _ => None,
    }
}

/// What an algebraic function gives of the values of a column, the field at a position of each row; null where
/// the function is not algebraic. The rows are read in place.
pub fn apply_column(
    alloc: Global,
    function: Function,
    rows: &[Tuple],
    position: u32,
) -> Result<Value, AllocError>
    ensures { IfOk result (λ v. tree v
        ≡ column_tree function (map (at position) (rows_tree rows.now))) }
{
    match Fold::start(function) {
        Some(start) => {
            let mut fold = start;
            for row in rows {
                fold = fold.add(field_at(row, position));
            }
            fold.end(alloc)
        }
        None => Ok(Value::Null),
    }
}

/// The same of what the function looks at in each row of a bag.
pub fn apply_rows(alloc: Global, function: Function, rows: &[Tuple]) -> Result<Value, AllocError>
    ensures { IfOk result (λ v. tree v
        ≡ column_tree function (map (looked_at_of function) (rows_tree rows.now))) }
{
    match Fold::start(function) {
        Some(start) => {
            let mut fold = start;
            for row in rows {
                fold = fold.add(looked_at(function, row));
            }
            fold.end(alloc)
        }
        None => Ok(Value::Null),
    }
}
