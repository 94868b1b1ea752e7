//! Runs in which a device fails at each call in turn, or which are too large. It has tests alone;
//! their values are written by hand from the definitions.
#![tactic(auto)]

#[cfg(test)]
mod calls;
#[cfg(test)]
mod rows;
#[cfg(test)]
mod sizes;
#[cfg(test)]
mod table;
#[cfg(test)]
mod turns;
