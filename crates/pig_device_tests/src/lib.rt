//! Worked rows of the devices in memory, written by hand from the definitions. It has tests alone.
#![tactic(auto)]

#[cfg(test)]
mod outside;
