//! What the outputs of all waves of a run give its answer.
#![tactic(auto)]

mod collecting;
mod counts;
mod kept;
mod laws;
mod lines;
mod parts;
mod unmet;

pub use collecting::{Collected, collect};
pub use laws::{runs_read_lines, runs_tell_the_first_unmet, what_is_left_tells_the_same};
pub use lines::stored_lines;
