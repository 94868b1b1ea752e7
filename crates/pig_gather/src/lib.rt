//! The operators by key over runs that are lent: of a node's entries, the rows that the node gives, written as their codes.
//!
//! Nothing is decoded but a key that is a tuple, where an operator asks whether it holds a null. Each function adds rows to
//! a [`pig_packed::PackedBuilder`] behind those that stand there; where memory is wanting, some of them may stand there.
#![tactic(auto)]

mod by_key;
mod cogrouping;
mod groups;
mod joining;
mod key_nulls;
mod lent;
mod outer;
mod pieces;
mod whole;

pub use by_key::add_gathered;
pub use whole::{add_distinct, add_first, add_limited, add_ordered};
