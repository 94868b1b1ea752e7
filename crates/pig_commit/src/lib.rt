//! Directories that are stored whole, one after the other.
#![tactic(auto)]

mod commit;
mod parts;

pub use commit::commit_stores;
pub use parts::{CommitFault, StorePart, StoreParts};
