//! Worked rows through all waves of tasks, on one thread, in splits and blocks of several sizes, each against lines that are written
//! by hand. It has tests alone.
#![tactic(auto)]

#[cfg(test)]
mod attempts;
#[cfg(test)]
mod rows;
#[cfg(test)]
mod running;
#[cfg(test)]
mod sorting;
#[cfg(test)]
mod standing;
#[cfg(test)]
mod stored;
