//! Numbers that follow from a first one. It is for tests: no crate of the program stands on it.
#![tactic(auto)]

mod chance;

pub use chance::Chance;
