//! Rows of text that a shuffle takes, and the runs that it hands on. It has tests alone.
#![tactic(auto)]

#[cfg(test)]
mod plans;
#[cfg(test)]
mod runs;
