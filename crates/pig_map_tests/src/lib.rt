//! Map tasks over small pieces, in splits and blocks of all sizes, on hosts that fail or give other bytes. It has tests
//! alone; their values are written by hand from the definitions.
#![tactic(auto)]

#[cfg(test)]
mod faults;
#[cfg(test)]
mod hosts;
#[cfg(test)]
mod lines;
#[cfg(test)]
mod rows;
#[cfg(test)]
mod standing;
#[cfg(test)]
mod waves;
