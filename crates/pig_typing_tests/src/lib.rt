//! Tests of the typing of expressions, of items of GENERATE, and of nested blocks. Their values are written by hand.
#![tactic(auto)]

#[cfg(test)]
mod blocks;
#[cfg(test)]
mod exprs;
#[cfg(test)]
mod inside;
#[cfg(test)]
mod items;
#[cfg(test)]
mod limits;
#[cfg(test)]
mod shared;
