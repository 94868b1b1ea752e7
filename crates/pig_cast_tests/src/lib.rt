//! Worked rows of numbers, fields and casts, against values written by hand from the definitions. It has tests alone.
#![tactic(auto)]

#[cfg(test)]
mod casts;
