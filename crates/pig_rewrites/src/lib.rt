//! The one plan that is cut into tasks: the checked plan, in which nodes that do the same become
//! one, conditions move towards the sources, and what nothing needs goes.
//!
//! [`rewrite`] makes it. `specs/Reached` says what it is, `specs/Alike` that its runs do the same.
#![tactic(auto)]

mod comparing;
mod rewriting;

pub use rewriting::rewrite;
