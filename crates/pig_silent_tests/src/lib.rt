//! Hosts that tell nothing of their inputs, so that a run asks nothing of them: over bytes that are
//! lent, and two that meet. It is for tests: no crate of the program stands on it.
#![tactic(auto)]

mod meeting;
mod reading;
mod silent;

pub use meeting::{Meeting, make_meeting};
pub use reading::{fail, fill};
pub use silent::{Held, Silent};
