//! What the program meets outside itself: the depot that keeps scripts, inputs and outputs, the hosts on which
//! workers read, and the console. By a `Stop` an attempt on a host asks whether its task is won.
//!
//! Each is a trait whose ghost members say what it holds and what it was asked, where it tells that, and how often it
//! has failed. The count of failures never falls, and rises in each call that answers Failed, so a caller can't blame a
//! device that did what it was asked; a depot counts the failures of `create`, `put` and `finish` apart. A device whose
//! count can't go on answers want of memory in the place of Failed.
//!
//! The definitions that the clauses cite stand in specs/Shelf.antt (what a depot holds, and what each call leaves),
//! specs/Calls.antt (what was asked) and specs/Faults.antt (the counts), the laws that callers need in
//! proofs/ShelfLaws.antt and proofs/RangeLaws.antt.
#![tactic(auto)]

mod console;
mod contents;
mod counts;
mod depot;
mod failing;
mod faults;
mod history;
mod host;
mod laws;
mod lookups;
mod memory_console;
mod memory_depot;
mod memory_host;
mod stop;

pub use console::Console;
pub use contents::{DirState, Parts, Source, Sources};
pub use counts::FaultCounts;
pub use depot::Depot;
pub use failing::{Call, Calls, Method};
pub use faults::{AttemptFault, Failed, OutsideError};
pub use history::{Asked, History};
pub use host::Host;
pub use laws::inputs_are_of_bytes;
pub use memory_console::MemoryConsole;
pub use memory_depot::MemoryDepot;
pub use memory_host::MemoryHost;
pub use stop::Stop;

fn crosses<T: Send>() {}

// Shows that what workers are handed and hand back is `Send`: hosts, and their errors.
fn hosts_cross_threads() {
    crosses::<MemoryHost>();
    crosses::<Failed>();
    crosses::<OutsideError>();
    crosses::<AttemptFault>();
}
