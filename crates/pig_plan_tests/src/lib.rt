//! Worked rows of plans, written by hand from the definitions. It has tests alone, one file for each crate.
#![tactic(auto)]

#[cfg(test)]
mod plans;
