//! How a plan is cut into tasks, and that the values of its tasks give what it means.
#![tactic(auto)]

mod counting;
mod cut;
mod feeding;
mod laws;
mod listing;
mod reading;
mod tracing;
mod weighing;

pub use cut::{CutFault, cut_plan};
pub use laws::stages_give_meaning;
