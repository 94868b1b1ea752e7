//! What the STOREs of a plan reach.
//!
//! [`live_numbers`] are the nodes that a STORE reaches, [`live_paths`] the paths of the inputs that are read, and
//! [`stores`] the STOREs; [`lines_read`] tells how many lines of the inputs come to a use. `specs/Reach` has the definitions.
#![tactic(auto)]

mod paths;
mod reads;
mod storing;

pub use paths::live_paths;
pub use pig_plan::live_numbers;
pub use reads::lines_read;
pub use storing::{Store, Stores, stores};
