//! A wave of tasks on hosts: each host makes attempts in a thread of its own, until every task is won or one has
//! failed as often as a limit says.
//!
//! A worker draws tasks in turn and tries each until it has a winner. When none is left to draw, it goes once through
//! all tasks, and makes backup attempts at those without a winner. Workers meet on a board (`pig_board`) alone: none
//! waits for another, and there is no lock. Each keeps the outputs with which it won, and hands them over at the end.
//! An attempt may ask whether its task is won already, and stop. A worker that fails three times in a row is put aside;
//! where all are, and work is left, they make a second round, in which none is.
//!
//! `run_wave` ends well exactly where every task has a winner, and then has one right output for each task, in order.
//! `specs/Workers.antt` says what a worker's steps do, `specs/Begins.antt` what hosts tell of their begins,
//! `specs/Crew.antt` what all workers together do, and `specs/Wave.antt` what a wave gives.
#![tactic(auto)]

mod crew;
mod outputs;
mod shared;
mod stops;
mod tries;
mod wave;
mod work;
mod worker;

pub use wave::{WaveEnd, WaveFault, run_wave};
pub use work::Work;
