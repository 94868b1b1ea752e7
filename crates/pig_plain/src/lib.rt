//! The plain answer: what a plan means over inputs, node by node, on one thread.
//!
//! [`answer`] gives the rows of each STORE, and what each bare LIMIT kept. [`answers_are_stored_lines`] says that their texts
//! are lines.
#![tactic(auto)]

mod answering;
mod copies;
mod each_row;
mod entering;
mod keyed;
mod laws;
mod loading;
mod operating;
mod ranking;
mod reading;
mod relation;
mod rowwise;
mod sorting;
mod table;
mod uses;
mod walking;

pub use answering::{Answers, Relations, answer};
pub use laws::{answers_are_stored_lines, inputs_are_of_bytes};
