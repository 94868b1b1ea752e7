//! Tests of the public calls of the crates that read scripts: the lexer, the parser. Their values are written by
//! hand.
#![tactic(auto)]

#[cfg(test)]
mod depths;
#[cfg(test)]
mod reading;
#[cfg(test)]
mod tokens;
#[cfg(test)]
mod trees;
