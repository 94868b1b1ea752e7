//! Worked rows of expressions, each against values written by hand from the definitions. It has tests alone.
#![tactic(auto)]

#[cfg(test)]
mod expressions;
