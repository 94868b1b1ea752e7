//! The values of Pig Latin, and the small types that every layer shares.
//!
//! A [`Value`] is null, a boolean, an int, a long, a chararray, a bytearray, a tuple, a bag, an ordered
//! bag or a map; a [`Kind`] is what a column is declared as. Lists and texts are types of this crate that
//! contracts see as mathematical lists, so that two values are equal in a clause exactly where they hold
//! the same data.
//!
//! The definitions stand in `specs/`: `Trees` (values as trees, the view that clauses use), `Orders` (the
//! total order, also in directions), `Sorts` and `Gathering` (sorted lists, lists without repetition, lists by
//! key), `Kinds` and `Casts` (which values are of a kind, which kinds cast to which), `Leaves` and `Valid` (what
//! is asked of the texts in a value, and what makes a tree a value), `Functions`, `Lines`, `Fields` and `Texts`
//! (PigStorage text).
//!
//! What follows from them stands in public modules of `proofs/`, for the crates above: `TreeLaws`, `OrderLaws`,
//! `KindLaws`, `ValidLaws`, `LeafLaws`, and in `list_laws` what holds over lists of any element. [`order_laws`],
//! [`row_order_laws`], [`direction_laws`], [`bag_laws`] and [`cast_laws`] state those of them that are promised.
#![tactic(auto)]

mod boxes;
mod comparing;
mod copying;
mod delimiters;
mod functions;
mod inputs;
mod kinds;
mod laws;
mod lists;
mod narrowing;
mod operators;
mod outcomes;
mod sorting;
mod texts;
mod threads;
mod values;
mod waiting;

pub use boxes::Boxed;
pub use comparing::{order, order_rows, same};
pub use copying::{copy, copy_kind, copy_kinds, copy_row};
pub use delimiters::{BadDelimiter, Delim};
pub use functions::Function;
pub use inputs::{Column, Columns, Input, Inputs};
pub use kinds::{casts_to, holds_bag_or_map, is_of, kind_depth, kind_width, same_kind, same_kinds};
pub use laws::{bag_laws, cast_laws, direction_laws, order_laws, row_order_laws};
pub use lists::Seq;
pub use narrowing::narrow;
pub use operators::{ChainOp, Dir, Dirs, Rel, Side};
pub use outcomes::{Kept, KeptList, WordFault};
pub use sorting::bag;
pub use texts::{Blob, Text, known_bytes};
pub use threads::values_cross_threads;
pub use values::{Kind, Kinds, Pair, Pairs, Rows, Tuple, Value, field_at};
pub use waiting::{beside, failed};

/// A list of texts.
pub type Texts = Seq<Text>;
/// The words of a command line.
pub type Words = Seq<Text>;
/// A list of numbers, as those of nodes.
pub type Numbers = Seq<u32>;
/// A list of places in a row, counted from 0.
pub type Positions = Seq<u32>;
/// What the tasks of a wave gave, in their order.
pub type OutList<O> = Seq<O>;
/// A list of byte strings, as the pieces of an input or the parts of an output.
pub type Blobs = Seq<Blob>;
/// A list of lengths in bytes.
pub type Lengths = Seq<u64>;
