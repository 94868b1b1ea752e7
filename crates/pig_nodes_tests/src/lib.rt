//! Nodes of plans, made by hand from short words and from their parts. It is for tests: no crate of
//! the program stands on it.
#![tactic(auto)]

mod adding;
mod numbers;
mod parts;
mod words;

pub use adding::add_fitting;
pub use numbers::{digit, lettered};
pub use parts::{above, call, flat, item, keyed, load, sort_keys, store};
pub use words::operator;
