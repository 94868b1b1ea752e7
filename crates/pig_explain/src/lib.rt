//! The text of plans and of their waves, node by node and expression by expression.
//!
//! [`explain`] appends the whole of it to a buffer, part by part and without a text for any of them.
#![tactic(auto)]

mod blocks;
mod explaining;
mod exprs;
mod kinds;
mod nodes;
mod numbering;
mod puts;
mod waves;

pub use explaining::explain;
