use crate::TExpr;
use pig_value::{Dir, Seq};

/// The nested steps of a block, in order.
pub type BlockSteps = Seq<BlockStep>;
/// The items that a block generates, in order.
pub type BlockItems = Seq<BlockItem>;
/// The keys of an ORDER, the first of them first.
pub type SortKeys = Seq<SortKey>;

/// What FOREACH makes of each row: nested steps, and the items of GENERATE.
#[derive(Debug, Drop)]
pub struct Block {
    pub steps: BlockSteps,
    pub items: BlockItems,
}

/// A nested step, which makes a bag of a bag of the row or of an earlier step.
#[derive(Debug)]
pub enum BlockStep {
    /// `cond` sees the fields of the bag alone.
    Filter { from: TExpr, cond: TExpr },
    Order { from: TExpr, keys: SortKeys },
    Limit { from: TExpr, count: u64 },
    Distinct { from: TExpr },
    Take { from: TExpr },
}

/// An item of GENERATE. `width` is the number of fields that it gives.
#[derive(Debug, Drop)]
pub struct BlockItem {
    pub value: TExpr,
    pub flatten: bool,
    pub width: u32,
}

/// A field that rows are sorted by, and its direction.
#[derive(Debug, Clone, Copy, PartialEq, Eq, Drop)]
pub struct SortKey {
    pub position: u32,
    pub dir: Dir,
}

// How steps end. A derived drop is taken apart, variant by variant, at each place where a value ends; one that is
// written is one call there. So every function that lets one go is cheap to prove.

impl Drop for BlockStep {
    fn drop(self) {
        match self {
            BlockStep::Filter { from, cond } => {
                drop(from);
                drop(cond);
            }
            BlockStep::Order { from, keys } => {
                drop(from);
                drop(keys);
            }
            BlockStep::Limit { from, count: _ }
            | BlockStep::Distinct { from }
            | BlockStep::Take { from } => drop(from),
        }
    }
}
