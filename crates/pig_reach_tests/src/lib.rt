//! What the STOREs of plans reach, written by hand from the definitions. It has tests alone.
#![tactic(auto)]

#[cfg(test)]
mod reached;
