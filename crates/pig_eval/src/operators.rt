ghost use Rattle.std.specs.Prelude.{◌≡◌};
ghost use Rattle.std.specs.Int.{w32, w64};
ghost use Rattle.std.specs.Option.{option_map};
ghost use Rattle.pig_value.specs.Functions.{is_present as is_present_of};
ghost use Rattle.pig_value.specs.Trees.{or_null, tree, v_int, v_long};
ghost use Rattle.pig_value.specs.declared.operators.ChainOp.TheVariants.{Div, Rem};
ghost use Rattle.pig_typed.specs.Operators.{and_truth, arithmetic as arithmetic_of, chain_tree, minus_tree, number_by, or_truth, truth_of, truth_tree};
ghost use Rattle.pig_eval.specs.Truths.{chain_truth, is_logical as is_logical_op};

use pig_value::{ChainOp, Value};

// True, false or unknown, which a null is and whatever is no boolean.
pub fn truth_value(v: &Value) -> Option<bool>
    ensures { result ≡ truth_of (tree v.now) }
{
    match v {
        Value::Bool(b) => Some(*b),
        _ => None,
    }
}

// The boolean of a truth, null where it is unknown.
pub fn boolean(truth: Option<bool>) -> Value
    ensures { tree result ≡ truth_tree truth }
{
    match truth {
        Some(b) => Value::Bool(b),
        None => Value::Null,
    }
}

pub fn and(a: Option<bool>, b: Option<bool>) -> Option<bool>
    ensures { result ≡ and_truth a b }
{
    match (a, b) {
        (Some(false), _) => Some(false),
        (_, Some(false)) => Some(false),
        (Some(true), Some(true)) => Some(true),
        _ => None,
    }
}

pub fn or(a: Option<bool>, b: Option<bool>) -> Option<bool>
    ensures { result ≡ or_truth a b }
{
    match (a, b) {
        (Some(true), _) => Some(true),
        (_, Some(true)) => Some(true),
        (Some(false), Some(false)) => Some(false),
        _ => None,
    }
}

// The truth of an operator of a chain.
pub fn joined(op: ChainOp, a: Option<bool>, b: Option<bool>) -> Option<bool>
    ensures { result ≡ chain_truth op a b }
{
    match op {
        ChainOp::Or => or(a, b),
        ChainOp::And => and(a, b),
        ChainOp::Add | ChainOp::Sub | ChainOp::Mul | ChainOp::Div | ChainOp::Rem => None,
    }
}

// Whether an operator is AND or OR.
pub fn is_logical(op: ChainOp) -> bool
    ensures { result ≡ is_logical_op op }
{
    match op {
        ChainOp::Or | ChainOp::And => true,
        ChainOp::Add | ChainOp::Sub | ChainOp::Mul | ChainOp::Div | ChainOp::Rem => false,
    }
}

// Whether a value is no null.
pub fn is_present(v: &Value) -> bool
    ensures { result ≡ is_present_of (tree v.now) }
{
    match v {
        Value::Null => false,
        _ => true,
    }
}

// An operator of a chain.
pub fn step(op: ChainOp, a: &Value, b: &Value) -> Value
    ensures { tree result ≡ chain_tree op (tree a.now) (tree b.now) }
{
    match op {
        ChainOp::Or => boolean(or(truth_value(a), truth_value(b))),
        ChainOp::And => boolean(and(truth_value(a), truth_value(b))),
        ChainOp::Add | ChainOp::Sub | ChainOp::Mul | ChainOp::Div | ChainOp::Rem => {
            arithmetic(op, a, b)
        }
    }
}

fn arithmetic(op: ChainOp, a: &Value, b: &Value) -> Value
    ensures { tree result ≡ arithmetic_of op (tree a.now) (tree b.now) }
{
    match (a, b) {
        (Value::Int(a), Value::Int(b)) => int(ints(op, *a, *b)),
        (Value::Int(a), Value::Long(b)) => long(longs(op, i64::from(*a), *b)),
        (Value::Long(a), Value::Int(b)) => long(longs(op, *a, i64::from(*b))),
        (Value::Long(a), Value::Long(b)) => long(longs(op, *a, *b)),
        _ => Value::Null,
    }
}

fn int(n: Option<i32>) -> Value
    ensures { tree result ≡ or_null (option_map v_int n) }
{
    match n {
        Some(n) => Value::Int(n),
        None => Value::Null,
    }
}

fn long(n: Option<i64>) -> Value
    ensures { tree result ≡ or_null (option_map v_long n) }
{
    match n {
        Some(n) => Value::Long(n),
        None => Value::Null,
    }
}

fn ints(op: ChainOp, a: i32, b: i32) -> Option<i32>
    ensures { result ≡ number_by op w32 a b }
{
    match op {
        ChainOp::Add => Some(a.wrapping_add(b)),
        ChainOp::Sub => Some(a.wrapping_sub(b)),
        ChainOp::Mul => Some(a.wrapping_mul(b)),
        ChainOp::Div => int_quotient(a, b),
        ChainOp::Rem => int_remainder(a, b),
        ChainOp::Or | ChainOp::And => None,
    }
}

fn int_quotient(a: i32, by: i32) -> Option<i32>
    ensures { result ≡ number_by Div w32 a by }
{
    if by == 0 {
        return None;
    }
    Some(a.wrapping_div(by))
}

fn int_remainder(a: i32, of: i32) -> Option<i32>
    ensures { result ≡ number_by Rem w32 a of }
{
    if of == 0 {
        return None;
    }
    Some(a.wrapping_rem(of))
}

fn longs(op: ChainOp, x: i64, y: i64) -> Option<i64>
    ensures { result ≡ number_by op w64 x y }
{
    match op {
        ChainOp::Add => Some(x.wrapping_add(y)),
        ChainOp::Sub => Some(x.wrapping_sub(y)),
        ChainOp::Mul => Some(x.wrapping_mul(y)),
        ChainOp::Div => long_quotient(x, y),
        ChainOp::Rem => long_remainder(x, y),
        ChainOp::Or | ChainOp::And => None,
    }
}

fn long_quotient(x: i64, y: i64) -> Option<i64>
    ensures { result ≡ number_by Div w64 x y }
{
    if y == 0 {
        return None;
    }
    Some(x.wrapping_div(y))
}

fn long_remainder(x: i64, y: i64) -> Option<i64>
    ensures { result ≡ number_by Rem w64 x y }
{
    if y == 0 {
        return None;
    }
    Some(x.wrapping_rem(y))
}

// Unary minus.
pub fn minus(v: &Value) -> Value
    ensures { tree result ≡ minus_tree (tree v.now) }
{
    match v {
        Value::Int(n) => Value::Int(n.wrapping_neg()),
        Value::Long(n) => Value::Long(n.wrapping_neg()),
        _ => Value::Null,
    }
}
