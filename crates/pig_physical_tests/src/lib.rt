//! Waves and splits of plans, and what tasks hand on, written by hand from the definitions. It has tests alone.
#![tactic(auto)]

#[cfg(test)]
mod cut;
#[cfg(test)]
mod outputs;
