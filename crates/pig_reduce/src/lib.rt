//! Reduce tasks: one partition of a boundary node, brought together from what the tasks of a wave
//! handed on; and rank tasks: the rows of such a partition, each behind its rank.
//!
//! Runs stay where they stand and are lent; rows are written as their codes. Decoded are the keys and
//! the parts of a GROUP that folds, group by group, and a key that is a tuple where an operator asks
//! whether it holds a null.
#![tactic(auto)]

mod bringing;
mod choosing;
mod folds;
mod groups;
mod keys;
mod lending;
mod limits;
mod ranking;
mod reading;
mod reducing;

pub use bringing::add_brought;
pub use folds::add_folded;
pub use lending::entries_of;
pub use limits::first_rows;
pub use ranking::{rank_attempt, rank_starts};
pub use reducing::{reduce_attempt, reduce_task};
