//! Worked rows of lines, of stored rows and of the texts of values, written by hand from the definitions. It has tests
//! alone.
#![tactic(auto)]

#[cfg(test)]
mod storage;
#[cfg(test)]
mod text;
