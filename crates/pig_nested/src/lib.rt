//! What FOREACH makes of a row: nested steps, and the rows that the items of GENERATE give together.
//!
//! [`foreach`] gives the rows that pig_typed's `specs/Blocks` defines, in their order. [`sort_by_keys`],
//! [`compare_by_keys`] and [`distinct_rows`] order the rows of whole relations and take their repeats out.
#![tactic(auto)]

mod distinct;
mod generating;
mod items;
mod joining;
mod sorting;
mod steps;

pub use distinct::distinct_rows;
pub use generating::foreach;
pub use sorting::{compare_by_keys, sort_by_keys};
