//! The demonstration: a script over an input that is made from numbers, and devices of its own in memory.
//!
//! [`OwnDepot`] holds the script and the input, [`OwnHost`] the same input; no call of either fails. `specs/Scene` says what
//! the script and the input are.
#![tactic(auto)]

mod depots;
mod hosts;
mod visits;

pub use depots::{OwnDepot, SCRIPT_PATH, TOP_PATH};
pub use hosts::{OwnHost, own_hosts};
