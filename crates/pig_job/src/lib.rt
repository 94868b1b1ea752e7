//! The core of a job: the tasks of a wave, the workers that make attempts at them, and which step may come when.
//!
//! A worker draws tasks in order, begins attempts at tasks that were drawn, and ends each attempt: it wins its
//! task, comes late after another has won, or fails. A worker may leave once every task is won or some task has
//! failed as often as the job's limit says. It may be put aside once three of its attempts have failed, and it may
//! abort at any time.
//!
//! `Core` holds such a job, and `Core::step` takes exactly the events that are steps of the job as it stands. It
//! refuses each other one, and leaves the job as it was. Two laws hold of the definitions (`steps_keep_rule` and
//! `kept_is_reached`): every list of steps from an opening keeps the rule of a job, and every job that meets the
//! rule, while all its workers run, is reached by such a list. So the rule says exactly which jobs there can be.
//!
//! `specs/Rule.antt` has the rule of a job's words and entries, which whatever keeps them elsewhere can cite;
//! `specs/Job.antt` the states, which events are steps (`allows`) and what they do (`after`); `specs/Laws.antt`
//! the two laws.
#![tactic(auto)]

ghost use Rattle.std.specs.Prelude.{◌≡◌};
ghost use Rattle.pig_job.specs.Job.{has_winner, is_given_up};
ghost use Rattle.pig_job.specs.Rule.{is_unended, has_failed, is_open};

mod job;
mod laws;
mod worker;

pub use job::{Core, JobFault};
pub use laws::{kept_is_reached, steps_keep_rule};

/// How an attempt ended, if it has.
#[derive(Clone, Copy, Debug, PartialEq)]
pub enum Fate {
    Unended,
    Won,
    Late,
    Failed,
}

impl Fate {
    /// Whether it has not ended.
    pub fn is_unended(self) -> bool
        ensures { result ≡ is_unended self }
    {
        matches!(self, Fate::Unended)
    }

    /// Whether it ended as a failure.
    pub fn has_failed(self) -> bool
        ensures { result ≡ has_failed self }
    {
        matches!(self, Fate::Failed)
    }
}

/// An attempt at a task. The attempts at one task are numbered from 0, whoever makes them.
#[derive(Clone, Copy, Debug)]
pub struct Attempt {
    pub task: u32,
    pub number: u32,
    pub fate: Fate,
}

impl Attempt {
    /// Whether this is the attempt `number` at `task`, and still under way.
    pub fn is_open(&self, task: u32, number: u32) -> bool
        ensures { result ≡ is_open task number self.now }
    {
        self.fate.is_unended() && self.task == task && self.number == number
    }
}

/// What is known of a task: attempts begun, attempts failed, and the number of the attempt that won.
#[derive(Clone, Copy, Debug)]
pub struct Task {
    pub begun: u32,
    pub failed: u32,
    pub winner: Option<u32>,
}

impl Task {
    /// Whether one of its attempts was committed.
    pub fn has_winner(&self) -> bool
        ensures { result ≡ has_winner self.now }
    {
        self.winner.is_some()
    }

    /// Whether the task has failed `limit` times, or more often.
    pub fn is_given_up(&self, limit: u32) -> bool
        ensures { result ≡ is_given_up limit self.now }
    {
        self.failed >= limit
    }
}

/// Whether a worker still runs. Only a running one takes steps.
#[derive(Clone, Copy, Debug)]
pub enum Status {
    Running,
    Left,
    PutAside,
    Aborted,
}

/// A step of one worker.
#[derive(Clone, Copy, Debug)]
pub enum Event {
    Draw {
        worker: u32,
    },
    Begin {
        worker: u32,
        task: u32,
    },
    Commit {
        worker: u32,
        task: u32,
        attempt: u32,
    },
    Late {
        worker: u32,
        task: u32,
        attempt: u32,
    },
    Fail {
        worker: u32,
        task: u32,
        attempt: u32,
    },
    Leave {
        worker: u32,
    },
    Aside {
        worker: u32,
    },
    Abort {
        worker: u32,
    },
}
