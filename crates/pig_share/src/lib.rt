//! Two nodes of a plan that do the same to the same inputs become one.
#![tactic(auto)]

mod apart;
mod blocks;
mod exprs;
mod hashing;
mod kinds;
mod laws;
mod mixing;
mod ops;
mod renaming;
mod sharing;

pub use laws::{ordered_plans_share_all, shared_nodes_are_once, shared_plans_mean_the_same};
pub use renaming::renamed_node;
pub use sharing::share;
