//! Parts of the algebraic functions: what they find in some of the rows of a bag, and how such parts are brought
//! together.
#![tactic(auto)]

mod aggregates;
mod algebraic;
mod combining;
mod cuts;
mod merging;

pub use aggregates::{Aggregate, CountPart, DistinctPart, MaxPart, MinPart, StarPart, SumPart};
pub use algebraic::Algebraic;
pub use combining::{combinable, parts_make_the_rows};
pub use cuts::{Cut, Cuts};
