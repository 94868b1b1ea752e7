//! Worked rows of key codes, written by hand from the table of codes. It has tests alone.
#![tactic(auto)]

#[cfg(test)]
mod keycodes;
