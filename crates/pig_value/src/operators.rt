ghost use Rattle.std.specs.Prelude.{◌≡◌};
ghost use Rattle.pig_value.specs.Orders.{rel_holds};

use crate::Seq;
use std::cmp::Ordering;

/// A direction of sorting.
#[derive(Debug, Clone, Copy, PartialEq, Eq, Drop)]
pub enum Dir {
    Asc,
    Desc,
}

/// Directions, one for each key.
pub type Dirs = Seq<Dir>;

/// A comparison of two values.
#[derive(Debug, Clone, Copy, PartialEq, Eq, Drop)]
pub enum Rel {
    Eq,
    Ne,
    Lt,
    Le,
    Gt,
    Ge,
}

impl Rel {
    /// Whether the comparison holds where the first operand stands so to the second.
    pub fn holds(self, found: Ordering) -> bool
        ensures { result ≡ rel_holds self found }
    {
        match self {
            Rel::Eq => found == Ordering::Equal,
            Rel::Ne => found != Ordering::Equal,
            Rel::Lt => found == Ordering::Less,
            Rel::Le => found != Ordering::Greater,
            Rel::Gt => found == Ordering::Greater,
            Rel::Ge => found != Ordering::Less,
        }
    }
}

/// Which sides of a join keep tuples without a partner.
#[derive(Debug, Clone, Copy, PartialEq, Eq, Drop)]
pub enum Side {
    Inner,
    Left,
    Right,
    Full,
}

/// An operator of a chain that is read from left to right.
#[derive(Debug, Clone, Copy, PartialEq, Eq, Drop)]
pub enum ChainOp {
    Or,
    And,
    Add,
    Sub,
    Mul,
    Div,
    Rem,
}
