//! One worker of a job.

ghost use Rattle.std.specs.Prelude.{◌≡◌, [], ◌∷◌, ◌++◌, OnOk, OnErr, position, count_by};
ghost use Rattle.std.specs.List.{list_any};
ghost use Rattle.pig_job.specs.Job.{fresh, is_running, settled};
ghost use Rattle.pig_job.specs.Rule.{is_unended, has_failed, is_open};

use crate::{Attempt, Fate, Status};
use std::alloc::{AllocError, Global};
use std::marker::Model;

#[derive(Drop)]
pub struct Worker {
    drawn: Vec<u32>,
    tried: Vec<Attempt>,
    status: Status,
}

impl Model for Worker {
    ghost use Rattle.pig_job.specs.Job.{WorkerState};

    ghost Value = { WorkerState };

    ghost view = { λ w. record { drawn = w.drawn.items; tried = w.tried.items; status = w.status } };
}

impl Worker {
    pub fn new(alloc: Global) -> Self
        ensures { result ≡ fresh }
    {
        Worker {
            drawn: Vec::new(alloc),
            tried: Vec::new(alloc),
            status: Status::Running,
        }
    }

    pub fn is_running(&self) -> bool
        ensures { result ≡ is_running self.now.status }
    {
        matches!(self.status, Status::Running)
    }

    pub fn is_busy(&self) -> bool
        ensures { result ≡ list_any (λ x. is_unended x.fate) self.now.tried }
    {
        self.tried.iter().any(|x| x.fate.is_unended())
    }

    // How many of this worker's attempts have failed.
    pub fn failures(&self) -> usize
        ensures { result ≡ count_by (λ x. has_failed x.fate) self.now.tried }
    {
        self.tried.iter().filter(|x| x.fate.has_failed()).count()
    }

    // Whether the attempt `number` at `task` is this worker's, and under way.
    pub fn holds(&self, task: u32, number: u32) -> bool
        ensures { result ≡ list_any (is_open task number) self.now.tried }
    {
        self.tried.iter().any(|x| x.is_open(task, number))
    }

    pub fn draw(&mut self, number: u32) -> Result<(), AllocError>
        ensures ok { OnOk result (self.new ≡ record self.old {
          drawn = self.old.drawn
              ++ number ∷ [];
        }) }
        ensures err { OnErr result (self.new ≡ self.old) }
    {
        self.drawn.push(number)?;
        Ok(())
    }

    pub fn begin(&mut self, attempt: Attempt) -> Result<(), AllocError>
        ensures ok { OnOk result (self.new ≡ record self.old {
          tried = self.old.tried
              ++ attempt ∷ [];
        }) }
        ensures err { OnErr result (self.new ≡ self.old) }
    {
        self.tried.push(attempt)?;
        Ok(())
    }

    fn place_of(&self, task: u32, number: u32) -> Option<usize>
        ensures { result ≡ position (is_open task number) self.now.tried }
    {
        self.tried.iter().position(|x| x.is_open(task, number))
    }

    // Ends the attempt `number` at `task` in `fate`, if it is this worker's and under way.
    pub fn settle(&mut self, task: u32, number: u32, fate: Fate)
        ensures { self.new ≡ settled self.old task number fate }
    {
        if let Some(at) = self.place_of(task, number) {
            self.tried[at].fate = fate;
        }
    }

    pub fn stop(&mut self, status: Status)
        ensures { self.new ≡ record self.old { status = status } }
    {
        self.status = status;
    }
}
