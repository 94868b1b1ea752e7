//! Scripts and command lines with parameters, written by hand from the definitions. It has tests alone.
#![tactic(auto)]

#[cfg(test)]
mod scripts;
#[cfg(test)]
mod shared;
#[cfg(test)]
mod words;
