//! What a map task hands on of its rows: sorted runs, one for each partition of the keys, or one in
//! all where rows are sorted.
//!
//! A [`Shuffle`] takes the rows of one input of a node. It brings each row under its key and keeps it
//! as bytes in its partition; of a GROUP that folds, in a table that has each key once; and of a
//! DISTINCT the code of the key alone, from which the run is made at the end.
#![tactic(auto)]

mod keying;
mod laws;
mod making;
mod parts;
mod shuffle;

pub use laws::runs_are_of_the_node;
pub use shuffle::Shuffle;
