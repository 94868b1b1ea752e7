//! Worked rows of cubes and rollups, written by hand from the definitions. It has tests alone.
#![tactic(auto)]

#[cfg(test)]
mod cubes;
#[cfg(test)]
mod making;
#[cfg(test)]
mod nodes;
