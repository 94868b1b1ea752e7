//! Worked rows of commits, written by hand from the definitions. It has tests alone.
#![tactic(auto)]

#[cfg(test)]
mod commits;
