//! What all workers of a wave share.

ghost use Rattle.std.specs.Prelude.{◌≡◌, ◌≤◌};
ghost use Rattle.pig_board.specs.Pass.{tasks_of};

use crate::work::Work;
use pig_board::Board;

// The work of a wave, the board where its workers meet, the number of the wave, and how often a task may fail.
#[derive(Drop)]
pub struct Shared<'a, W: Work> {
    pub work: &'a W,
    pub board: &'a Board,
    pub wave: u32,
    pub limit: u32,
    ghost tasks: { tasks_of board.now ≡ W.count work.now },
    ghost few: { tasks_of board.now ≤ 65536 },
    ghost limited: { limit ≤ 16 },
    ghost wave_is: { W.wave work.now ≡ wave },
}
