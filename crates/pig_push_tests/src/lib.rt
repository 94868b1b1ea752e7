//! Plans whose conditions move, written by hand from the definitions. It has tests alone.
#![tactic(auto)]

#[cfg(test)]
mod moved;
