ghost use Rattle.std.specs.Prelude.{◌≡◌};
ghost use Rattle.std.specs.Option.{option_map};
ghost use Rattle.pig_value.specs.Trees.{kind_tree};
ghost use Rattle.pig_typed.specs.ExprKinds.{chain_kind, choose_kind, compare_kind, is_equated, is_ranged, may_compare, minus_kind, not_kind, number_kind, truth_kind};

use pig_value::{ChainOp, Kind, Rel, same_kind};

// The kind of an operator of a chain on two kinds.
pub fn chained(op: ChainOp, a: &Kind, b: &Kind) -> Option<Kind>
    ensures { option_map kind_tree result ≡ chain_kind op (kind_tree a.now) (kind_tree b.now) }
{
    match op {
        ChainOp::Or | ChainOp::And => truth(a, b),
        ChainOp::Add | ChainOp::Sub | ChainOp::Mul | ChainOp::Div | ChainOp::Rem => number(a, b),
    }
}

fn truth(a: &Kind, b: &Kind) -> Option<Kind>
    ensures { option_map kind_tree result ≡ truth_kind (kind_tree a.now) (kind_tree b.now) }
{
    match (a, b) {
        (Kind::Boolean, Kind::Boolean) => Some(Kind::Boolean),
        _ => None,
    }
}

fn number(a: &Kind, b: &Kind) -> Option<Kind>
    ensures { option_map kind_tree result ≡ number_kind (kind_tree a.now) (kind_tree b.now) }
{
    match (a, b) {
        (Kind::Int, Kind::Int) => Some(Kind::Int),
        (Kind::Int, Kind::Long) => Some(Kind::Long),
        (Kind::Long, Kind::Int) => Some(Kind::Long),
        (Kind::Long, Kind::Long) => Some(Kind::Long),
        _ => None,
    }
}

// The kind of NOT of a kind.
pub fn negated(a: &Kind) -> Option<Kind>
    ensures { option_map kind_tree result ≡ not_kind (kind_tree a.now) }
{
    match a {
        Kind::Boolean => Some(Kind::Boolean),
        _ => None,
    }
}

// The kind of unary minus of a kind.
pub fn minus(a: &Kind) -> Option<Kind>
    ensures { option_map kind_tree result ≡ minus_kind (kind_tree a.now) }
{
    match a {
        Kind::Int => Some(Kind::Int),
        Kind::Long => Some(Kind::Long),
        _ => None,
    }
}

// The kind of a comparison of two kinds.
pub fn compared(op: Rel, a: &Kind, b: &Kind) -> Option<Kind>
    ensures { option_map kind_tree result ≡ compare_kind op (kind_tree a.now) (kind_tree b.now) }
{
    if same_kind(a, b) && is_compared(op, a) {
        Some(Kind::Boolean)
    } else {
        None
    }
}

fn is_compared(op: Rel, a: &Kind) -> bool
    ensures { result ≡ may_compare op (kind_tree a.now) }
{
    match op {
        Rel::Eq | Rel::Ne => equated(a),
        Rel::Lt | Rel::Le | Rel::Gt | Rel::Ge => ranged(a),
    }
}

fn equated(a: &Kind) -> bool
    ensures { result ≡ is_equated (kind_tree a.now) }
{
    match a {
        Kind::Bag(_) => false,
        _ => true,
    }
}

fn ranged(a: &Kind) -> bool
    ensures { result ≡ is_ranged (kind_tree a.now) }
{
    match a {
        Kind::Int => true,
        Kind::Long => true,
        Kind::Chararray => true,
        Kind::Bytearray => true,
        _ => false,
    }
}
