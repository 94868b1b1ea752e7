//! Runs on hosts that fail, that tell nothing, that wait for each other, and whose bytes show which
//! task read them. It has tests alone; their values are written by hand from the definitions.
#![tactic(auto)]

#[cfg(test)]
mod failing;
#[cfg(test)]
mod meeting;
#[cfg(test)]
mod numbered;
#[cfg(test)]
mod several;
