//! The waves of stages, run one after the other.
#![tactic(auto)]

mod between;
mod handing;
mod laws;
mod leaving;
mod running;
mod slicing;

pub use laws::{
    few_tasks_fit, waves_find_what_they_name, waves_read_told_inputs, what_is_left_stands,
};
pub use running::{JobEnds, Ran, StagesFault, run_stages};
pub use slicing::slice_outputs;
