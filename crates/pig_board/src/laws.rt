//! The laws of boards, each as the contract of a function that does nothing, and what threads may do with them.

ghost use Rattle.pig_board.specs.Laws.{BoardIsReached, AnEndTells, StepsKeepNotes};

use crate::board::{Board, Pass};

/// At each moment the words and the entries of all passes are those of a job that is reached from its opening by
/// steps, since the rule of the board holds between any two steps.
pub fn board_is_reached()
    ensures { BoardIsReached }
{}

/// What the end of a job says of the pass that was left, and that no call takes a note from a pass: what a worker
/// noted is still so at the end.
pub fn an_end_tells()
    ensures end { AnEndTells }
    ensures notes { StepsKeepNotes }
{}

fn is_shared<T: Send + Sync>(_thing: &T) {}

fn is_sent<T: Send>(_thing: &T) {}

/// Threads may share a board, and may send boards and passes to one another.
pub fn cross_threads(board: &Board, pass: &Pass) {
    is_shared(board);
    is_sent(pass);
}
