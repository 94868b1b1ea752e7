//! The top call of the program: it reads the words and the script, runs it, stores what it means, and says so.
//!
//! [`pig_main`] does all that the program does, over a depot, hosts and a console that are handed in. It answers
//! what is due of the words and of the depot's shelf, or the fault of a device, or want of memory; where it
//! answers that the run is done, the directory of each STORE holds the lines of the script's meaning, whatever the
//! number of workers, the order of their steps, and attempts that failed or were made twice.
//! [`one_verdict`] says that exactly one thing is due of words that are no demonstration.
//!
//! `specs/Due` says what is due, stage by stage, with `specs/Reading` for what a script is found to be and
//! `specs/Refusals` for what may be refused; `specs/Ends` how a call may end and how the console changes that,
//! `specs/Outputs` what is stored, `specs/Texts` what is printed, `specs/Told` all of it together, and `specs/Blame`
//! what the hosts and the waves show of it, `specs/Demonstration` what a `demo` does. The other files of `specs/` are how the code's steps speak of each other; only private functions cite them.
#![tactic(auto)]

mod commands;
mod demonstrating;
mod finding;
mod line;
mod looking;
mod outcome;
mod progress;
mod reading;
mod running;
mod storing;
mod texts;
mod top;

pub use outcome::{Counts, Outcome, RunFault, TooLarge, Waves};
pub use top::{one_verdict, pig_main};
