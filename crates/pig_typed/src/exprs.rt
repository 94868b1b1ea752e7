use pig_value::{Boxed, ChainOp, Function, Kind, Positions, Rel, Seq, Text};

/// Typed expressions in order, as the arguments of a function or the keys of a relation.
pub type TExprs = Seq<TExpr>;
/// The links of a chain, from left to right.
pub type TLinks = Seq<TLink>;

/// An expression with its fields by position and every cast written out.
///
/// It is evaluated on a row and, within a nested block, on the values of the block's earlier steps.
#[cycle(typed)]
#[derive(Debug)]
pub enum TExpr {
    Null,
    Bool(bool),
    Int(i32),
    Long(i64),
    Chars(Text),
    /// The row's field at a position.
    Field(u32),
    /// The value of a nested step, by its number from 0.
    Local(u32),
    /// Operators of one rule, taken from left to right.
    Chain {
        first: Boxed<TExpr>,
        rest: TLinks,
    },
    Compare {
        op: Rel,
        a: Boxed<TExpr>,
        b: Boxed<TExpr>,
    },
    /// `IS NULL`, or with `not` `IS NOT NULL`.
    IsNull {
        a: Boxed<TExpr>,
        not: bool,
    },
    Not(Boxed<TExpr>),
    Minus(Boxed<TExpr>),
    /// `(cond ? yes : no)`.
    Choose {
        cond: Boxed<TExpr>,
        yes: Boxed<TExpr>,
        no: Boxed<TExpr>,
    },
    Cast {
        to: Kind,
        a: Boxed<TExpr>,
    },
    /// `a.f`, with `single`, or `a.(f,g)`, of a tuple or a bag.
    Project {
        a: Boxed<TExpr>,
        fields: Positions,
        single: bool,
    },
    /// The value of a map's key.
    Look {
        a: Boxed<TExpr>,
        key: Text,
    },
    Call {
        function: Function,
        args: TExprs,
    },
}

/// An operator of a chain with its right operand.
#[cycle(typed)]
#[derive(Debug, Drop)]
pub struct TLink {
    pub op: ChainOp,
    pub a: TExpr,
}

// How expressions end. A derived drop is taken apart, variant by variant, at each place where a value ends; one that is
// written is one call there. So every function that lets one go is cheap to prove.

impl Drop for TExpr {
    #[cycle(drop_expr)]
    fn drop(self) {
        match self {
            TExpr::Null
            | TExpr::Bool(_)
            | TExpr::Int(_)
            | TExpr::Long(_)
            | TExpr::Field(_)
            | TExpr::Local(_) => {}
            TExpr::Chars(text) => drop(text),
            TExpr::Chain { first, rest } => {
                drop(first);
                drop(rest);
            }
            TExpr::Compare { op: _, a, b } => {
                drop(a);
                drop(b);
            }
            TExpr::IsNull { a, not: _ } | TExpr::Not(a) | TExpr::Minus(a) => drop(a),
            TExpr::Choose { cond, yes, no } => {
                drop(cond);
                drop(yes);
                drop(no);
            }
            TExpr::Cast { to, a } => {
                drop(to);
                drop(a);
            }
            TExpr::Project {
                a,
                fields,
                single: _,
            } => {
                drop(a);
                drop(fields);
            }
            TExpr::Look { a, key } => {
                drop(a);
                drop(key);
            }
            TExpr::Call { function: _, args } => drop(args),
        }
    }
}
