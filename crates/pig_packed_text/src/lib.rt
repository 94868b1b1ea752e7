//! The text of packed rows, told from their codes: a text within a row is lent and no value is made of it.
#![tactic(auto)]

mod fields;
mod reading;
mod writing;

pub use writing::packed_text;
