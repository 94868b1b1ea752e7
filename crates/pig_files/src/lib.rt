//! The real devices: files and folders as the depot and the hosts, and standard output as the console.
//!
//! They are proved against the traits of pig_outside, and tell no contents: what stands in real files no contract can
//! say. Each counts its failures as the traits ask. The depot tells its calls and a host its attempts, which are no
//! contents.
#![tactic(auto)]

mod console;
mod depot;
mod errors;
mod host;
mod pieces;

pub use console::StdConsole;
pub use depot::FileDepot;
pub use host::FileHost;

fn crosses<T: Send>() {}

// Shows that a host over files is `Send`, since workers are handed it.
fn hosts_cross_threads() {
    crosses::<FileHost<HostRuntime>>();
}
