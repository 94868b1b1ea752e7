//! Worked rows of what is collected of a run. It has tests alone.
#![tactic(auto)]

#[cfg(test)]
mod lines;
