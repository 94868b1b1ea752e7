//! Worked rows of the operators by key, each against rows written by hand from the definitions. It has tests alone.
#![tactic(auto)]

#[cfg(test)]
mod given;
#[cfg(test)]
mod lent;
#[cfg(test)]
mod operators;
