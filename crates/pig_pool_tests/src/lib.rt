//! Tests of waves on hosts. Their values are written by hand.
#![tactic(auto)]

#[cfg(test)]
mod hosts;
#[cfg(test)]
mod waves;
#[cfg(test)]
mod work;
