//! Rows that are added to a table, and the run of their parts. It has tests alone.
#![tactic(auto)]

#[cfg(test)]
mod tables;
