ghost use Rattle.std.specs.Prelude.{◌≡◌, ◌++◌, ◌+ℤ◌, [], ◌∷◌, List, pos, cond, IfOk, IfSome, OnOk};
ghost use Rattle.std.specs.Int.{int_wrap, w64};
ghost use Rattle.std.specs.List.{filter, filter_map};
ghost use Rattle.std.specs.Option.{option_map, option_or};
ghost use Rattle.std.specs.Ordering.{is_gt};
ghost use Rattle.pig_value.specs.Functions.{column_found, first_found, is_present, length_of, looked_at as looked_at_of, one_field, sum_found, whole_of};
ghost use Rattle.pig_value.specs.Orders.{dir_cmp};
ghost use Rattle.pig_value.specs.Trees.{Tree, at, field_tree, row_tree, tree, v_long};
ghost use Rattle.pig_value.specs.Valid.{IsRow, IsValue};
ghost use Rattle.pig_value.specs.declared.functions.Function.TheVariants.{Max, Min, Sum};
ghost use Rattle.pig_value.specs.declared.operators.Dir.TheVariants.{Asc, Desc};
ghost use Rattle.pig_builtins.specs.Folds.{first_of, is_algebraic, lent_tree, merge_found};
ghost use Rattle.pig_typed.specs.Operators.{pick};
ghost use Rattle.pig_algebra.specs.Cuts.{cut_typed};
ghost use Rattle.pig_combine.specs.Tallies.{IsHeld, IsHeldNext, found_by, part_told, seen_row, t_found, t_other, told, told_after, told_more, told_next};

use crate::tally::Tally;
use pig_algebra::Cut;
use pig_value::{Boxed, Dir, Function, Positions, Tuple, Value, copy, field_at, order};
use std::alloc::{AllocError, Global};
use std::cmp::Ordering;

impl Tally {
    // The tally of a cut in no rows.
    pub fn start(cut: &Cut) -> Tally
        ensures told { told result ≡ found_by [] (cut_typed cut.now) }
        ensures held { IsHeld result }
    {
        match cut {
            Cut::Key(_) => Tally::Key,
            Cut::Part { function, .. } => Tally::of(*function),
            Cut::Row => Tally::Row,
        }
    }

    #[tactic(auto, using(pig_builtins::proofs::Sums::zero_is))]
    fn of(function: Function) -> Tally
        ensures told { told result ≡ cond (is_algebraic function)
            (t_found function (column_found function [])) t_other }
        ensures held { IsHeld result }
    {
        match function {
            Function::Count => Tally::Count(0),
            Function::CountStar => Tally::CountStar(0),
            Function::Sum => Tally::NoSum,
            Function::Min => Tally::NoMin,
            Function::Max => Tally::NoMax,
            _ => Tally::Other,
        }
    }

    // The tally with one more row, where the row changes it.
    pub fn next(&self, alloc: Global, cut: &Cut, row: &Tuple) -> Result<Option<Tally>, AllocError>
        ensures told { (rows : List (List Tree)) → told self.now ≡ found_by rows (cut_typed cut.now)
            → IfOk result (λ next. told_next self.now next
            ≡ found_by (rows ++ row_tree row.now ∷ []) (cut_typed cut.now)) }
        ensures held { IsRow (row_tree row.now) → IfOk result IsHeldNext }
    {
        match cut {
            Cut::Part { function, columns } => self.with(alloc, looked_at(*function, columns, row)),
            Cut::Key(_) | Cut::Row => Ok(None),
        }
    }

    // The tally with one more value, where none stands for null.
    #[tactic(auto, using(pig_builtins::proofs::Sums::one_is))]
    fn with(&self, alloc: Global, value: Option<&Value>) -> Result<Option<Tally>, AllocError>
        ensures told { IfOk result (λ next. told_next self.now next
            ≡ told_more (told self.now) (field_tree value.entry)) }
        ensures held { IsValue (field_tree value.entry) → IfOk result IsHeldNext }
    {
        match self {
            Tally::Count(n) => Ok(Some(Tally::Count(plus(*n, count(value))))),
            Tally::CountStar(n) => Ok(Some(Tally::CountStar(plus(*n, 1)))),
            Tally::NoSum => Ok(Some(sum_of(plus_some(None, number(value))))),
            Tally::Sum(total) => Ok(Some(sum_of(plus_some(Some(*total), number(value))))),
            Tally::NoMin => least(alloc, None, value),
            Tally::Min(best) => least(alloc, Some(best.get()), value),
            Tally::NoMax => greatest(alloc, None, value),
            Tally::Max(best) => greatest(alloc, Some(best.get()), value),
            Tally::Key | Tally::Row | Tally::Other => Ok(None),
        }
    }

    // Puts a change, if there is one, in the tally's place.
    pub fn settle(&mut self, next: Option<Tally>)
        ensures told { told self.new ≡ told_next self.old next }
        ensures held { IsHeld self.old → IsHeldNext next → IsHeld self.new }
    {
        if let Some(next) = next {
            *self = next;
        }
    }
}

// Adds a value to a row.
pub fn push_value(row: &mut Tuple, value: Value) -> Result<(), AllocError>
    ensures row { OnOk result (row_tree row.new ≡ row_tree row.old ++ tree value ∷ []) }
    ensures values { IsValue (tree value) → IsRow (row_tree row.old)
        → OnOk result (IsRow (row_tree row.new)) }
{
    row.push(value)
}

// The tally of a sum, of which there may be none.
fn sum_of(total: Option<i64>) -> Tally
    ensures told { told result ≡ t_found Sum (option_map v_long total) }
    ensures held { IsHeld result }
{
    match total {
        Some(n) => Tally::Sum(n),
        None => Tally::NoSum,
    }
}

// The tally of MIN with one more value, where it stands before the best so far.
fn least(
    alloc: Global,
    best: Option<&Value>,
    value: Option<&Value>,
) -> Result<Option<Tally>, AllocError>
    ensures told { IfOk result (λ next. told_after (t_found Min (lent_tree best.entry)) next
        ≡ t_found Min (first_of Asc (lent_tree best.entry)
        (first_found Asc (field_tree value.entry ∷ [])))) }
    ensures held { IsValue (field_tree value.entry) → IfOk result IsHeldNext }
{
    match before(Dir::Asc, best, value) {
        Some(first) => Ok(Some(Tally::Min(boxed(alloc, first)?))),
        None => Ok(None),
    }
}

// The same of MAX.
fn greatest(
    alloc: Global,
    best: Option<&Value>,
    value: Option<&Value>,
) -> Result<Option<Tally>, AllocError>
    ensures told { IfOk result (λ next. told_after (t_found Max (lent_tree best.entry)) next
        ≡ t_found Max (first_of Desc (lent_tree best.entry)
        (first_found Desc (field_tree value.entry ∷ [])))) }
    ensures held { IsValue (field_tree value.entry) → IfOk result IsHeldNext }
{
    match before(Dir::Desc, best, value) {
        Some(first) => Ok(Some(Tally::Max(boxed(alloc, first)?))),
        None => Ok(None),
    }
}

// A copy of a value in a box.
fn boxed(alloc: Global, value: &Value) -> Result<Boxed<Value>, AllocError>
    ensures { IfOk result (λ copied. tree copied ≡ tree value.now) }
{
    Boxed::new(alloc, copy(alloc, value)?)
}

// The field that a function looks at in a row, or in these columns of it.
fn looked_at<'r>(
    function: Function,
    columns: &Option<Positions>,
    row: &'r Tuple,
) -> Option<&'r Value>
    ensures field { field_tree result
        ≡ looked_at_of function (seen_row columns.now (row_tree row.now)) }
    ensures value { IsRow (row_tree row.now) → IsValue (field_tree result) }
{
    match columns {
        None => field_of_row(function, row),
        Some(fields) => field_of_columns(function, fields.as_slice(), row),
    }
}

fn field_of_row(function: Function, row: &Tuple) -> Option<&Value>
    ensures field { field_tree result ≡ looked_at_of function (row_tree row.now) }
    ensures value { IsRow (row_tree row.now) → IsValue (field_tree result) }
{
    if !takes_one_field(function) {
        return value_at(row, 0);
    }
    match row.as_slice() {
        [value] => Some(value),
        _ => None,
    }
}

fn field_of_columns<'r>(function: Function, fields: &[u32], row: &'r Tuple) -> Option<&'r Value>
    ensures field { field_tree result
        ≡ looked_at_of function (pick fields.now (row_tree row.now)) }
    ensures value { IsRow (row_tree row.now) → IsValue (field_tree result) }
{
    match fields {
        [] => None,
        [field] => value_at(row, *field),
        [field, ..] => {
            if takes_one_field(function) {
                None
            } else {
                value_at(row, *field)
            }
        }
    }
}

// The field of a row at a place, which is a value where the row is of values.
fn value_at(row: &Tuple, place: u32) -> Option<&Value>
    ensures field { field_tree result ≡ at place (row_tree row.now) }
    ensures value { IsRow (row_tree row.now) → IsValue (field_tree result) }
{
    field_at(row, place)
}

// Whether a function looks at a row of one field alone, as SUM, MIN and MAX do.
fn takes_one_field(function: Function) -> bool
    ensures { (row : List Tree) → looked_at_of function row
        ≡ cond result (one_field row) (at 0 row) }
{
    matches!(function, Function::Sum | Function::Min | Function::Max)
}

#[tactic(auto, using(std::proofs::lemmas::Int::wrapping_add_is))]
fn plus(a: i64, b: i64) -> i64
    ensures { result ≡ int_wrap w64 (a +ℤ b) }
{
    a.wrapping_add(b)
}

// The sum of two numbers, either of which may be missing.
fn plus_some(a: Option<i64>, b: Option<i64>) -> Option<i64>
    ensures { option_map v_long result
        ≡ merge_found Sum (option_map v_long a) (option_map v_long b) }
{
    match (a, b) {
        (Some(a), Some(b)) => Some(plus(a, b)),
        (Some(n), None) | (None, Some(n)) => Some(n),
        (None, None) => None,
    }
}

// 1 for a value, 0 for null.
#[tactic(auto, using(pig_builtins::proofs::Sums::zero_is, pig_builtins::proofs::Sums::one_is))]
fn count(value: Option<&Value>) -> i64
    ensures { v_long result ≡ length_of (filter is_present (field_tree value.entry ∷ [])) }
{
    match value {
        None | Some(Value::Null) => 0,
        Some(_) => 1,
    }
}

// The number that a value is.
fn number(value: Option<&Value>) -> Option<i64>
    ensures { option_map v_long result
        ≡ sum_found (filter_map whole_of (field_tree value.entry ∷ [])) }
{
    match value? {
        Value::Int(n) => Some(alone(i64::from(*n))),
        Value::Long(n) => Some(alone(*n)),
        _ => None,
    }
}

// A number as it stands, which is the sum of it alone.
#[tactic(auto, using(pig_builtins::proofs::Sums::sum_alone))]
fn alone(n: i64) -> i64
    ensures { result ≡ int_wrap w64 (n +ℤ pos 0) }
{
    n
}

// The value, where MIN and MAX choose among such and it stands before the best so far in the direction.
fn before<'v>(dir: Dir, best: Option<&Value>, value: Option<&'v Value>) -> Option<&'v Value>
    ensures first { option_or (lent_tree result) (lent_tree best.entry)
        ≡ first_of dir (lent_tree best.entry) (first_found dir (field_tree value.entry ∷ [])) }
    ensures value { IfSome result (λ v. tree v.now ≡ field_tree value.entry) }
{
    let value = ranked(dir, value?)?;
    match best {
        Some(best) => {
            if stands_before(dir, value, best) {
                Some(value)
            } else {
                None
            }
        }
        None => Some(value),
    }
}

// The value, where MIN and MAX choose among such.
fn ranked(dir: Dir, value: &Value) -> Option<&Value>
    ensures found { lent_tree result ≡ first_found dir (tree value.now ∷ []) }
    ensures value { IfSome result (λ v. v.now ≡ value.now) }
{
    match value {
        Value::Int(_) | Value::Long(_) | Value::Chars(_) => Some(value),
        _ => None,
    }
}

fn stands_before(dir: Dir, value: &Value, best: &Value) -> bool
    ensures { result ≡ is_gt (dir_cmp dir (tree best.now) (tree value.now)) }
{
    let found = match dir {
        Dir::Asc => order(best, value),
        Dir::Desc => order(value, best),
    };
    found == Ordering::Greater
}
