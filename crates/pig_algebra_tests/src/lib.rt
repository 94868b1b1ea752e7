//! Parts that are merged in each order, and blocks that have cuts or none. It has tests alone.
#![tactic(auto)]

#[cfg(test)]
mod blocks;
#[cfg(test)]
mod parts;
