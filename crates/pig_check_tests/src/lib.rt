//! Tests of the checker: plans of whole scripts, and each kind of refusal. Their values are written by hand.
#![tactic(auto)]

#[cfg(test)]
mod asserted;
#[cfg(test)]
mod blocks;
#[cfg(test)]
mod cubed;
#[cfg(test)]
mod joined;
#[cfg(test)]
mod kinds;
#[cfg(test)]
mod plans;
#[cfg(test)]
mod ranked;
#[cfg(test)]
mod shared;
