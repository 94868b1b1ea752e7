//! Worked rows of the whole: scripts, inputs and failing devices, each with what the top call is to
//! answer and to store. It has tests alone; their values are written by hand from the definitions.
#![tactic(auto)]

#[cfg(test)]
mod files;
#[cfg(test)]
mod params;
#[cfg(test)]
mod refusals;
#[cfg(test)]
mod runs;
#[cfg(test)]
mod words;
