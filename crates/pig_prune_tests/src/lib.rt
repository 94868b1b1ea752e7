//! Plans of scripts once they are pruned, written by hand from the definitions. It has tests alone.
#![tactic(auto)]

#[cfg(test)]
mod pruned;
