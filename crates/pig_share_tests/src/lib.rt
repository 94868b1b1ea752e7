//! Plans that share their nodes, written by hand from the definitions. It has tests alone.
#![tactic(auto)]

#[cfg(test)]
mod shared;
