use crate::tallies::push_value;
use pig_value::{Boxed, Tuple, Value, copy};
use smallvec::SmallVec;
use std::alloc::{AllocError, Global};

// What is found so far for a cut in the rows of a key.
//
// It takes two words: what takes more stands in a box, and what may be missing is a form of its own.
#[derive(Debug)]
pub enum Tally {
    /// Nothing: the item is made of the key alone.
    Key,
    /// The row itself, which is the key.
    Row,
    Count(i64),
    CountStar(i64),
    NoSum,
    Sum(i64),
    NoMin,
    Min(Boxed<Value>),
    NoMax,
    Max(Boxed<Value>),
    /// Nothing: the function is not algebraic.
    Other,
}

// So many tallies stand in the group itself, beside its key.
const INLINE: usize = 3;

// The tally of each cut.
pub type Tallies = SmallVec<Tally, INLINE>;

// A key with the tally of each cut.
#[derive(Debug, Drop)]
pub struct Group {
    pub key: Value,
    pub tallies: Tallies,
}

// A drop that is written is one call wherever a tally ends.
impl Drop for Tally {
    fn drop(self) {
        match self {
            Tally::Min(best) | Tally::Max(best) => drop(best),
            Tally::Key
            | Tally::Row
            | Tally::Count(_)
            | Tally::CountStar(_)
            | Tally::NoSum
            | Tally::Sum(_)
            | Tally::NoMin
            | Tally::NoMax
            | Tally::Other => {}
        }
    }
}

// Stands in a place without a tally.
impl Default for Tally {
    fn default() -> Tally {
        Tally::Other
    }
}

impl Tally {
    ghost use Rattle.std.specs.Prelude.{◌≡◌, ◌++◌, OnOk};
    ghost use Rattle.pig_value.specs.Trees.{row_tree, tree};
    ghost use Rattle.pig_value.specs.Valid.{IsRow, IsValue};
    ghost use Rattle.pig_combine.specs.Tallies.{IsHeld, part_told, told};

    // Adds the part that the tally gives, if any, to a row.
    pub fn push_part(&self, alloc: Global, key: &Value, row: &mut Tuple) -> Result<(), AllocError>
        ensures part { OnOk result (row_tree row.new
            ≡ row_tree row.old ++ part_told (tree key.now) (told self.now)) }
        ensures values { IsValue (tree key.now) → IsHeld self.now → IsRow (row_tree row.old)
            → OnOk result (IsRow (row_tree row.new)) }
    {
        match self {
            Tally::Key => Ok(()),
            Tally::Row => push_value(row, copy(alloc, key)?),
            Tally::Count(n) => push_value(row, Value::Long(*n)),
            Tally::CountStar(n) => push_value(row, Value::Long(*n)),
            Tally::Sum(total) => push_value(row, Value::Long(*total)),
            Tally::Min(best) => push_value(row, copy(alloc, best.get())?),
            Tally::Max(best) => push_value(row, copy(alloc, best.get())?),
            Tally::NoSum | Tally::NoMin | Tally::NoMax | Tally::Other => {
                push_value(row, Value::Null)
            }
        }
    }
}
