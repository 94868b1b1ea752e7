//! Worked rows of sorted runs, each against an order written by hand. It has tests alone.
#![tactic(auto)]

#[cfg(test)]
mod runs;
