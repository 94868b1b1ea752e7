//! Plans without the nodes that no STORE reaches.
#![tactic(auto)]

mod dropping;
mod laws;

pub use dropping::without_dead;
pub use laws::live_plans_mean_the_same;
