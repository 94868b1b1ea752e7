ghost use Rattle.std.specs.Prelude.{◌≡◌, ⊤, MatchOption};
ghost use Rattle.pig_value.specs.Orders.{tree_cmp};
ghost use Rattle.pig_value.specs.Trees.{row_tree, tree, v_bool, v_chars, v_int, v_long};
ghost use Rattle.pig_typed.specs.Evaluation.{ev};
ghost use Rattle.pig_typed.specs.Typed.{typed};
ghost use Rattle.pig_eval.specs.Truths.{compare_truth, mirror};

use crate::operators::is_present;
use crate::seen::peek;
use pig_typed::TExpr;
use pig_value::{Rel, Text, Tuple, Value, order};
use std::cmp::Ordering;

// A comparison of two values.
pub fn compared(op: Rel, a: &Value, b: &Value) -> Option<bool>
    ensures { result ≡ compare_truth op (tree a.now) (tree b.now) }
{
    if is_present(a) && is_present(b) {
        Some(op.holds(order(a, b)))
    } else {
        None
    }
}

// A comparison of two expressions, where one is a field or a local and the other is such or a literal; no
// value is made of the literal.
pub fn compare_peeked(
    op: Rel,
    a: &TExpr,
    b: &TExpr,
    row: &Tuple,
    locals: &Tuple,
) -> Option<Option<bool>>
    ensures { MatchOption result ⊤ (λ t. t ≡ compare_truth op
        (ev (typed a.now) (row_tree row.now) (row_tree locals.now))
        (ev (typed b.now) (row_tree row.now) (row_tree locals.now))) }
{
    match peek(a, row, locals) {
        Some(v) => compare_beside(op, v, b, row, locals),
        None => match peek(b, row, locals) {
            Some(w) => compare_before(op, a, w, row, locals),
            None => None,
        },
    }
}

// A comparison of a value with a literal, or with a field or a local that is there.
pub fn compare_beside(
    op: Rel,
    v: &Value,
    e: &TExpr,
    row: &Tuple,
    locals: &Tuple,
) -> Option<Option<bool>>
    ensures { MatchOption result ⊤ (λ t. t ≡ compare_truth op (tree v.now)
        (ev (typed e.now) (row_tree row.now) (row_tree locals.now))) }
{
    match e {
        TExpr::Bool(b) => Some(with_bool(op, v, *b)),
        TExpr::Int(n) => Some(with_int(op, v, *n)),
        TExpr::Long(n) => Some(with_long(op, v, *n)),
        TExpr::Chars(text) => Some(with_text(op, v, text)),
        _ => match peek(e, row, locals) {
            Some(w) => Some(compared(op, v, w)),
            None => None,
        },
    }
}

// The same with the value on the right.
#[tactic(auto, using(crate::proofs::TruthLaws::mirrored_is))]
fn compare_before(
    op: Rel,
    e: &TExpr,
    w: &Value,
    row: &Tuple,
    locals: &Tuple,
) -> Option<Option<bool>>
    ensures { MatchOption result ⊤ (λ t. t ≡ compare_truth op
        (ev (typed e.now) (row_tree row.now) (row_tree locals.now)) (tree w.now)) }
{
    match compare_beside(mirrored(op), w, e, row, locals) {
        Some(truth) => Some(truth),
        None => None,
    }
}

fn mirrored(op: Rel) -> Rel
    ensures { result ≡ mirror op }
{
    match op {
        Rel::Eq => Rel::Eq,
        Rel::Ne => Rel::Ne,
        Rel::Lt => Rel::Gt,
        Rel::Le => Rel::Ge,
        Rel::Gt => Rel::Lt,
        Rel::Ge => Rel::Le,
    }
}

fn with_bool(op: Rel, v: &Value, b: bool) -> Option<bool>
    ensures { result ≡ compare_truth op (tree v.now) (v_bool b) }
{
    if is_present(v) {
        Some(op.holds(order_bool(v, b)))
    } else {
        None
    }
}

fn with_int(op: Rel, v: &Value, n: i32) -> Option<bool>
    ensures { result ≡ compare_truth op (tree v.now) (v_int n) }
{
    if is_present(v) {
        Some(op.holds(order_int(v, n)))
    } else {
        None
    }
}

fn with_long(op: Rel, v: &Value, n: i64) -> Option<bool>
    ensures { result ≡ compare_truth op (tree v.now) (v_long n) }
{
    if is_present(v) {
        Some(op.holds(order_long(v, n)))
    } else {
        None
    }
}

fn with_text(op: Rel, v: &Value, text: &Text) -> Option<bool>
    ensures { result ≡ compare_truth op (tree v.now) (v_chars text.now) }
{
    if is_present(v) {
        Some(op.holds(order_text(v, text)))
    } else {
        None
    }
}

fn order_bool(v: &Value, b: bool) -> Ordering
    ensures { result ≡ tree_cmp (tree v.now) (v_bool b) }
{
    match v {
        Value::Bool(a) => a.cmp(&b),
        Value::Null => Ordering::Less,
        Value::Int(_) | Value::Long(_) | Value::Chars(_) | Value::Bytes(_) => Ordering::Greater,
        Value::Tuple(_) | Value::Bag(_) | Value::Listed(_) | Value::Map(_) => Ordering::Greater,
    }
}

fn order_int(v: &Value, n: i32) -> Ordering
    ensures { result ≡ tree_cmp (tree v.now) (v_int n) }
{
    match v {
        Value::Int(m) => m.cmp(&n),
        Value::Null | Value::Bool(_) => Ordering::Less,
        Value::Long(_) | Value::Chars(_) | Value::Bytes(_) => Ordering::Greater,
        Value::Tuple(_) | Value::Bag(_) | Value::Listed(_) | Value::Map(_) => Ordering::Greater,
    }
}

fn order_long(v: &Value, n: i64) -> Ordering
    ensures { result ≡ tree_cmp (tree v.now) (v_long n) }
{
    match v {
        Value::Long(m) => m.cmp(&n),
        Value::Null | Value::Bool(_) | Value::Int(_) => Ordering::Less,
        Value::Chars(_) | Value::Bytes(_) => Ordering::Greater,
        Value::Tuple(_) | Value::Bag(_) | Value::Listed(_) | Value::Map(_) => Ordering::Greater,
    }
}

fn order_text(v: &Value, text: &Text) -> Ordering
    ensures { result ≡ tree_cmp (tree v.now) (v_chars text.now) }
{
    match v {
        Value::Chars(a) => a.as_str().cmp(text.as_str()),
        Value::Null | Value::Bool(_) | Value::Int(_) | Value::Long(_) => Ordering::Less,
        Value::Bytes(_) => Ordering::Greater,
        Value::Tuple(_) | Value::Bag(_) | Value::Listed(_) | Value::Map(_) => Ordering::Greater,
    }
}
