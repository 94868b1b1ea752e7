//! Worked rows of the devices over files, over real files that each test writes. It has tests alone.
#![tactic(auto)]

#[cfg(test)]
mod files;
