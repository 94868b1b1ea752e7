//! Ranks of small lists in partitions, written by hand from the definitions. It has tests alone.
#![tactic(auto)]

#[cfg(test)]
mod making;
#[cfg(test)]
mod ranked;
