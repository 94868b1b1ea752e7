//! Sorted runs.
#![tactic(auto)]

mod blocks;
mod builder;
mod cutting;
mod entries;
mod fronts;
mod heads;
mod joining;
mod keys;
mod laws;
mod laying;
mod lent;
mod merged;
mod packing;
mod parts;
mod run;
mod run_parts;
mod selecting;
mod slots;
mod sorting;
mod stretches;
mod walk;

pub use builder::RunBuilder;
pub use cutting::{CutPoints, cuts, slice};
pub use entries::{Entries, Entry};
pub use keys::KeysBuilder;
pub use laws::{run_laws, runs_cross_threads};
pub use lent::Lent;
pub use merged::{Merged, merge_lent};
pub use parts::{part_of, part_of_row};
pub use run::{Run, Runs};
pub use run_parts::{RunPart, merge_parts, part_between, whole_run};
pub use sorting::{merge, sort_run};
pub use walk::Walk;
