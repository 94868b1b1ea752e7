//! Rows packed in each way, lent and read back. It has tests alone.
#![tactic(auto)]

#[cfg(test)]
mod packing;
#[cfg(test)]
mod text;
