//! Worked rows of the plain answer, each against text written by hand from the definitions. It has tests alone.
#![tactic(auto)]

#[cfg(test)]
mod answers;
