//! Replicated joins of small relations, written by hand from the definitions. It has tests alone.
#![tactic(auto)]

#[cfg(test)]
mod joins;
