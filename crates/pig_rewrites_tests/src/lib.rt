//! Plans of scripts as they are cut into tasks, by hand from the definitions. It has tests alone.
#![tactic(auto)]

#[cfg(test)]
mod rewritten;
