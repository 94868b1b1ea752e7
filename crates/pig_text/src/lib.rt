//! The text of values, told piece by piece to anything that takes bytes. The walk takes no memory.
//!
//! [`tell_value`] and [`tell_row`] go over any [`TextSink`]. [`text_hash`] tells a value's text to a hash, and
//! [`write_row`] a row's to a buffer.
#![tactic(auto)]

mod buffers;
mod hashing;
mod sinks;
mod telling;

pub use buffers::write_row;
pub use hashing::{TextHash, text_hash};
pub use sinks::TextSink;
pub use telling::{tell_row, tell_value};
