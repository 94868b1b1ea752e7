//! Replicated joins: every input but the first is held in memory, and the rows of the first come one by one.
//!
//! A [`Lookup`] holds the rows of one input, each under its key. [`probe`] gives what a row of the first input is
//! joined to. [`probes_are_joins`] says that all these rows together are the JOIN, however the first input is cut.
#![tactic(auto)]

mod building;
mod coding;
mod finding;
mod groups;
mod keys;
mod laws;
mod lookup;
mod nulls;
mod probing;
mod threads;

pub use keys::key_value;
pub use laws::{lookups_find_rows, probes_are_joins};
pub use lookup::{Lookup, Lookups};
pub use probing::probe;
pub use threads::lookups_cross_threads;
