//! The table that folds rows under keys into parts, as they come.
#![tactic(auto)]

mod groups;
mod keys;
mod names;
mod table;
mod tallies;
mod tally;

pub use table::Table;
