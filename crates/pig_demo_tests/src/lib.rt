//! Demonstrations over devices that fail at each call. It has tests alone; their values are written by
//! hand from the definitions.
#![tactic(auto)]

#[cfg(test)]
mod demos;
