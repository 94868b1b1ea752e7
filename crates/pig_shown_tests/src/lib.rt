//! Shown trees and printed plans as tests compare them. It is for tests: no crate of the program
//! stands on it.
#![tactic(auto)]

mod printed;
mod trees;

pub use printed::shown_nodes;
pub use trees::plain;
