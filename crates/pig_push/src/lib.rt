//! Conditions move towards the sources.
#![tactic(auto)]

mod clearing;
mod finding;
mod merging;
mod moving;
mod pushing;
mod readers;
mod reading;
mod rooming;
mod splitting;
mod sweeping;
mod uniting;

pub use pushing::push;
