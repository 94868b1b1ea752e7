//! What a pass knows.

use pig_job::Attempt;
use std::collections::LinkedList;

/// What a pass has drawn and tried, what it noted, its room, and how often it failed in a row. It exists in proofs alone; no value of it is made.
pub struct View {
    /// The numbers that it drew.
    pub drawn: LinkedList<u32>,
    /// Its attempts.
    pub tried: LinkedList<Attempt>,
    /// So many numbers are known to be drawn.
    pub known: u64,
    /// Tasks that it knows to be won, each with the attempt that won.
    pub winners: LinkedList<(u32, u32)>,
    /// Counts of failures that it saw, each with its task.
    pub counts: LinkedList<(u32, u32)>,
    /// So many more draws, begins and fails it may make.
    pub room: u64,
    /// Its fails since its last commit.
    pub streak: u32,
}
