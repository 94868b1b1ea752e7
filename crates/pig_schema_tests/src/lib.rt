//! Worked rows of schemas and names, written by hand from the definitions. It has tests alone.
#![tactic(auto)]

#[cfg(test)]
mod schemas;
