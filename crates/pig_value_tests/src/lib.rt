//! Worked rows of values, each against values written by hand from the definitions. It has tests alone.
#![tactic(auto)]

#[cfg(test)]
mod values;
