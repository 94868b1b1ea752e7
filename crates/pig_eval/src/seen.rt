ghost use Rattle.std.specs.Prelude.{◌≡◌, ⊤, IfOk, MatchOption, MatchResult};
ghost use Rattle.pig_value.specs.Trees.{at, field_tree, row_tree, tree, v_null};
ghost use Rattle.pig_typed.specs.Evaluation.{ev};
ghost use Rattle.pig_typed.specs.Typed.{typed};
ghost use Rattle.pig_eval.specs.SeenValues.{seen_tree};

use pig_typed::TExpr;
use pig_value::{Tuple, Value, copy, field_at};
use std::alloc::{AllocError, Global};

/// A value that stands in the row, the locals or the expression, or one that was made.
pub enum Seen<'a> {
    Lent(&'a Value),
    Made(Value),
}

// A drop that is written is one call wherever a value ends; a derived one is taken apart there.
impl Drop for Seen<'_> {
    fn drop(self) {
        match self {
            Seen::Lent(_) => {}
            Seen::Made(v) => drop(v),
        }
    }
}

impl<'a> Seen<'a> {
    /// The value where it was made, or else the one that is lent.
    pub fn into_made(self) -> Result<Value, &'a Value>
        ensures { MatchResult result (λ v. tree v ≡ seen_tree self.entry)
            (λ v. tree v.now ≡ seen_tree self.entry) }
    {
        match self {
            Seen::Lent(v) => Err(v),
            Seen::Made(v) => Ok(v),
        }
    }
}

/// The value to look at.
pub fn value<'b, 'a>(seen: &'b Seen<'a>) -> &'b Value
    ensures { tree result.now ≡ seen_tree seen.now }
{
    match seen {
        Seen::Lent(v) => *v,
        Seen::Made(v) => v,
    }
}

/// The value with memory of its own.
pub fn owned(alloc: Global, seen: Seen) -> Result<Value, AllocError>
    ensures { IfOk result (λ v. tree v ≡ seen_tree seen.entry) }
{
    match seen.into_made() {
        Ok(v) => Ok(v),
        Err(v) => copy(alloc, v),
    }
}

// The value that was looked for, null where there is none.
pub fn lent_or_null<'a>(found: Option<&'a Value>) -> Seen<'a>
    ensures { seen_tree result ≡ field_tree found.entry }
{
    match found {
        Some(v) => Seen::Lent(v),
        None => Seen::Made(Value::Null),
    }
}

// A copy of the value that was looked for, null where there is none.
pub fn copied(alloc: Global, found: Option<&Value>) -> Result<Value, AllocError>
    ensures { IfOk result (λ v. tree v ≡ field_tree found.entry) }
{
    match found {
        Some(v) => copy(alloc, v),
        None => Ok(Value::Null),
    }
}

// The value of an expression that is a field or a local which is there.
pub fn peek<'a>(e: &TExpr, row: &'a Tuple, locals: &'a Tuple) -> Option<&'a Value>
    ensures { MatchOption result ⊤ (λ v. tree v.now
        ≡ ev (typed e.now) (row_tree row.now) (row_tree locals.now)) }
{
    match e {
        TExpr::Field(n) => lent_at(row, *n),
        TExpr::Local(n) => lent_at(locals, *n),
        _ => None,
    }
}

fn lent_at(row: &Tuple, n: u32) -> Option<&Value>
    ensures { MatchOption result ⊤ (λ v. tree v.now ≡ at n (row_tree row.now)) }
{
    match field_at(row, n) {
        Some(v) => Some(v),
        None => None,
    }
}
