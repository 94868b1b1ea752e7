//! Rows on their way, a batch at a time, through the nodes of a plan that work row by row.
//!
//! A [`Batch`] holds some rows. A [`Source`] fills it: the [`Lines`] of a [`Window`], which is handed the bytes of a range of a
//! piece block by block, or [`Unpacked`] rows. [`Steps`] take it through FILTER, FOREACH and ASSERT in place, and note which
//! ASSERTs some row did not meet. A [`Sink`] takes what is left: a [`RowList`], the [`FirstRows`], [`PackedRows`]
//! or [`StoredText`]. [`drive`]
//! does all this until no row comes.
#![tactic(auto)]

mod batch;
mod buffer;
mod driving;
mod first;
mod laws;
mod lines;
mod listed;
mod packing;
mod sink;
mod source;
mod steps;
mod text;
mod unpacking;
mod window;
mod words;

pub use batch::Batch;
pub use driving::{drive, drive_batch};
pub use first::FirstRows;
pub use laws::{marks_stand_for_what_folds, steps_join_batches, takings_join};
pub use lines::Lines;
pub use listed::RowList;
pub use packing::PackedRows;
pub use sink::Sink;
pub use source::Source;
pub use steps::Steps;
pub use text::StoredText;
pub use unpacking::Unpacked;
pub use window::Window;
