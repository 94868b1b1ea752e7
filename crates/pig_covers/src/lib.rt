//! What is needed of a plan's rows is left of them.
#![tactic(auto)]

mod laws;

pub use laws::needs_are_seen;
