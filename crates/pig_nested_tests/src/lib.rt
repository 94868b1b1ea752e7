//! Worked rows of blocks and of the order of keys, each against rows written by hand from the definitions. It has tests
//! alone.
#![tactic(auto)]

#[cfg(test)]
mod blocks;
#[cfg(test)]
mod making;
#[cfg(test)]
mod relations;
