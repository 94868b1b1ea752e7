//! Plans that are cut, their waves and tasks written by hand from the definitions. It has tests alone.
#![tactic(auto)]

#[cfg(test)]
mod waves;
