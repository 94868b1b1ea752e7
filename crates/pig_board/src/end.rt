//! The end of a job.

ghost use Rattle.std.specs.Prelude.{◌≡◌, ◌<◌, length};
ghost use Rattle.pig_board.specs.End.{end_of};

use std::marker::Model;

/// What stands of a task when its job ends: its attempts, those that failed, and the attempt that won.
#[derive(Clone, Copy, Debug, PartialEq)]
pub struct TaskEnd {
    pub attempts: u32,
    pub failed: u32,
    pub winner: Option<u32>,
}

/// The end of a job. Contracts see it as the list of its tasks' ends. Only `Board::close` makes one.
#[derive(Drop)]
pub struct JobEnd {
    pub(crate) ends: Vec<TaskEnd>,
}

impl Model for JobEnd {
    ghost use Rattle.std.specs.Prelude.{List, length, ◌≤◌};
    ghost use Rattle.pig_board.specs.declared.end.TaskEnd.{TaskEnd};

    ghost Value = { List TaskEnd };

    ghost view = { λ e. e.ends.items };

    ghost invariant = { λ e. length e.ends.items ≤ 65536 };
}

impl JobEnd {
    /// The end of task `t`.
    pub fn task(&self, t: u32) -> TaskEnd
        requires { t < length self.now }
        ensures { result ≡ end_of self.now t }
    {
        self.ends[t as usize]
    }

    /// The number of tasks.
    pub fn len(&self) -> u32
        ensures { result ≡ length self.now }
    {
        self.ends.len() as u32
    }
}
