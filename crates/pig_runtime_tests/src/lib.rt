//! Tests of the public calls of the crates that run attempts: the job, the board and the pool. One file for each crate.
//! Their values are written by hand.
#![tactic(auto)]

#[cfg(test)]
mod boards;
#[cfg(test)]
mod jobs;
