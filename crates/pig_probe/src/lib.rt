//! Rows of the first input of a replicated JOIN, joined as they come with the rows of the others, which are held.
#![tactic(auto)]

mod joined;
mod joining;
mod keys;
mod pieces;
mod probed;
mod sides;
mod threads;

pub use joined::JoinedRows;
pub use probed::ProbedRows;
pub use sides::Sides;
pub use threads::sides_cross_threads;
