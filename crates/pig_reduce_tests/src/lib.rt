//! Worked rows of what reduce tasks bring together, each against rows written by hand from the
//! definitions. It has tests alone.
#![tactic(auto)]

#[cfg(test)]
mod empty;
#[cfg(test)]
mod given;
#[cfg(test)]
mod reducing;
