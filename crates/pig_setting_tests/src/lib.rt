//! What the rows of the whole share: a scene, which is a script, its inputs and which calls of the
//! devices fail, and what the top call leaves of it, as one text. It is for tests: no crate of the
//! program stands on it.
#![tactic(auto)]

mod devices;
mod running;
mod scene;
mod telling;

pub use devices::{depot_of, hosts_of, words_of};
pub use running::{told, told_on, told_on_silent};
pub use scene::{Fault, Scene, Show};
