//! How many entries the map tasks of a run hand on, told by their rows: laws alone.
#![tactic(auto)]

mod laws;

pub use laws::{entries_are_due, entries_count_rows};
