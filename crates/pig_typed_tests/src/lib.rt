//! Worked rows of typed expressions and blocks: their kinds, written by hand from the definitions, and copies. It has
//! tests alone.
#![tactic(auto)]

#[cfg(test)]
mod blocks;
#[cfg(test)]
mod crossing;
#[cfg(test)]
mod expressions;
#[cfg(test)]
mod large;
#[cfg(test)]
mod showing;
#[cfg(test)]
mod writing;
