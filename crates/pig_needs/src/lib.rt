//! What is needed of the rows of a plan's nodes: which fields, and of bags which columns.
#![tactic(auto)]

mod blocks;
mod lists;
mod marks;
mod names;
mod uses;
mod walking;

pub use lists::{Need, NeedList, Part, Use, Uses};
pub use marks::{Marks, column_marks, item_marks};
pub use walking::needs;
