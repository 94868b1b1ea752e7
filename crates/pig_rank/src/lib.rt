//! RANK over the partitions of a sorted list.
//!
//! Rows of one key may lie in several partitions. So [`sum_up`] tells what counts of each partition, [`find_starts`] what
//! stands before each of them, and [`rank_rows`] puts each row of one behind its rank among all. `specs/Ranks` has the
//! definitions, and [`ranks_go_by_partitions`] says that the ranked partitions are in turn the ranked rows of the list.
#![tactic(auto)]

mod laws;
mod parts;
mod passing;
mod ranking;
mod same;
mod starting;
mod summing;
mod threads;

pub use laws::{ordered_rows_are_sorted, ranks_go_by_partitions, ranks_see_bags};
pub use parts::{Start, Starts, Summaries, Summary};
pub use ranking::rank_rows;
pub use starting::find_starts;
pub use summing::sum_up;
pub use threads::parts_cross_threads;
