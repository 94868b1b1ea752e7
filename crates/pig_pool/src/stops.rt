//! How an attempt learns that its task is won.

ghost use Rattle.std.specs.Prelude.{◌≡◌, ◌<◌, true};
ghost use Rattle.pig_board.specs.View.{knows_winner};
ghost use Rattle.pig_board.specs.Pass.{tasks_of, view_of, is_firm, OnBoard};
ghost use Rattle.pig_pool.specs.Workers.{beside, Held};

use pig_board::{Board, Pass};
use pig_outside::Stop;

// Asks the board, and notes the winner on the pass.
pub struct TaskStop<'a> {
    pub task: u32,
    pub board: &'a Board,
    pub pass: &'a mut Pass,
    ghost here: { OnBoard board.now pass.now },
    ghost below: { task < tasks_of board.now },
}

impl Stop for TaskStop<'_> {
    ghost Kept = { Held };

    ghost kept = { λ s. record {
      board = s.board.now;
      task = s.task;
      reference = s.pass.ghost_name;
      firm = is_firm s.pass.now;
      view = beside s.task (view_of s.pass.now);
    } };

    ghost won = { λ s. knows_winner s.task (view_of s.pass.now) ≡ true };

    fn is_won(&mut self) -> bool {
        self.board.closed(self.pass, self.task).is_some()
    }
}
