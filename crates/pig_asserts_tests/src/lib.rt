//! ASSERTs that are met and that are not, through the top call. It has tests alone; their values
//! are written by hand from the definitions.
#![tactic(auto)]

#[cfg(test)]
mod asserts;
