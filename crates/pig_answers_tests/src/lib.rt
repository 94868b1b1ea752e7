//! What scripts store, by crews of hosts of which some begins fail: the same bytes by each crew, and the lines of the plain
//! answer. It has tests alone.
#![tactic(auto)]

#[cfg(test)]
mod crews;
#[cfg(test)]
mod large;
#[cfg(test)]
mod plain;
#[cfg(test)]
mod worked;
