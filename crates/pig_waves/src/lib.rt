//! What the tasks of a plan's waves give together: laws on the way from tasks to the meaning of a plan.
#![tactic(auto)]

mod laws;

pub use laws::{parts_are_counted, probes_stand_in_turn, waves_stand_in_turn};
