//! Worked rows of the functions, each against a value written by hand from the definitions. It has tests alone.
#![tactic(auto)]

#[cfg(test)]
mod functions;
