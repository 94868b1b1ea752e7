//! Worked rows run by several workers, with few and many partitions, and over inputs that are cut
//! in several splits. It has tests alone; their values are written by hand from the definitions.
#![tactic(auto)]

#[cfg(test)]
mod limits;
#[cfg(test)]
mod parts;
#[cfg(test)]
mod rows;
#[cfg(test)]
mod turns;
