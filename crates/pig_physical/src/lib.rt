//! Stages: the waves of tasks that a plan is cut into, and what each task must give.
#![tactic(auto)]

mod folding;
mod listing;
mod namings;
mod outputs;
mod parts;
mod slicing;
mod splitting;
mod staged;
mod threads;
mod waves;

pub use folding::{Folders, which_fold};
pub use listing::heads;
pub use outputs::{Out, OutForm, OutRuns, Outs};
pub use parts::{MapTask, Part, Path, ReduceTask, Task, Tasks, Way, Ways};
pub use slicing::{SlicedRun, Stretch};
pub use splitting::{split_count, splits};
pub use staged::{Size, Sizes, Stages, Wave, Waves, lengths_in};
pub use threads::{outputs_cross_threads, stages_cross_threads};
pub use waves::{WaveHead, WaveHeads, WaveKind};
