//! The plan of a script's text. It is for tests: no crate of the program stands on it.
#![tactic(auto)]

mod scripts;

pub use scripts::plan_of;
