//! Rows that go through steps, from lines and from packed rows. It has tests alone.
#![tactic(auto)]

#[cfg(test)]
mod paths;
#[cfg(test)]
mod plans;
#[cfg(test)]
mod ranges;
#[cfg(test)]
mod words;
