//! Plans whose LOADs read no column and whose FOREACHs make no item that nothing needs.
#![tactic(auto)]

mod cutting;
mod finding;
mod fitting;
mod laws;
mod operators;
mod pruning;
mod staying;

pub use laws::pruned_plans_mean_the_same;
pub use pruning::prune;
