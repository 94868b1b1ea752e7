//! A wave of stages as work for a pool of hosts.
#![tactic(auto)]

mod attempts;
mod running;
mod work;

pub use running::run_stage;
pub use work::{Setting, Shared, StageWork};
