//! The board of a job: a row of atomic words that many workers step on at once, without a lock.
//!
//! One word counts the drawn tasks, and each task has three: the attempts begun, the failures, and the winner. A
//! worker steps with a `Pass`, which carries what the worker has drawn, tried and noted, and its room: how many
//! draws, begins and fails it may still make. A pass is split for another worker, and joined again.
//!
//! The board's rule is that of a job (`pig_job`), over the words and the entries of all passes together. It holds
//! between any two steps, whatever threads make them: each number is drawn once, each attempt has a number of its
//! own, each failure is counted, a task has one winner, and no word wraps. `Board::close` gives the end of the job,
//! which is that of the entries of the one pass that is left.
//!
//! `specs/View.antt` says what a pass knows and what each call makes of it, `specs/Rule.antt` has the board's rule,
//! `specs/Told.antt` what a step on a word tells, `specs/Pass.antt` the words for a pass and its board,
//! `specs/End.antt` the end of a job, and `specs/Laws.antt` the laws: every board that meets the rule is a job which
//! its own steps reach (`board_is_reached`), and the end of a job tells what the last pass won, failed and noted
//! (`an_end_tells`).
#![tactic(auto)]

mod board;
mod calls;
mod end;
mod laws;
mod rule;
mod view;

pub use board::{Board, Pass};
pub use end::{JobEnd, TaskEnd};
pub use laws::{an_end_tells, board_is_reached, cross_threads};
pub use view::View;
