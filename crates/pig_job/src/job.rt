//! The state of a job, and its steps.

ghost use Rattle.std.specs.Prelude.{◌≡◌, ◌<◌, ◌↔◌, ◌&&◌, false, length, OnOk, OnErr, IfOk, IsErrOf, is_some, nat_lt};
ghost use Rattle.std.specs.List.{list_all, list_any};
ghost use Rattle.pig_job.specs.Job.{opening, allows, after, runs, has_room, holds, is_busy, is_failing, has_winner, is_given_up, is_over, task_of, IsStep};

use crate::worker::Worker;
use crate::{Attempt, Event, Fate, Status, Task};
use std::alloc::{AllocError, Global};
use std::marker::Model;

// So much may be drawn, begun and failed in one job, all together.
const STEP_LIMIT: u32 = 2_147_483_648;

// A worker with so many failed attempts may be put aside.
const ASIDE_LIMIT: usize = 3;

/// Why a step was refused. The job is then as it was.
#[derive(Clone, Copy, Debug, PartialEq)]
pub enum JobFault {
    /// The event is no step of the job as it stands.
    NotNow,
    OutOfMemory,
}

/// A job: its tasks, how often one of them may fail, and its workers. Contracts see it as a `Job`.
#[derive(Drop)]
pub struct Core {
    tasks: Vec<Task>,
    limit: u32,
    next: u32,
    workers: Vec<Worker>,
    total: u32,
}

impl Model for Core {
    ghost use Rattle.std.specs.Prelude.{◌≡◌, ◌≤◌, ◌^◌};
    ghost use Rattle.pig_job.specs.Job.{Job, total_of};

    ghost Value = { Job };

    ghost view = { λ c. record { tasks = c.tasks.items; limit = c.limit; next = c.next; workers = c.workers.items } };

    ghost invariant = { λ c. (c.total ≡ total_of (record { tasks = c.tasks.items; limit = c.limit; next = c.next; workers = c.workers.items })) × (c.total ≤ 2 ^ 31) × (1 ≤ c.limit) };
}

impl Core {
    /// A job of `tasks` tasks, of which none was drawn, and `workers` workers, numbered from 0. It ends where one
    /// task has failed `limit` times.
    pub fn open(alloc: Global, tasks: u32, workers: u32, limit: u32) -> Result<Core, AllocError>
        requires { 0 < limit }
        ensures { IfOk result (λ job. job ≡ opening tasks workers limit) }
    {
        let untried = Task {
            begun: 0,
            failed: 0,
            winner: None,
        };
        let list = vec![in alloc; untried; tasks as usize]?;
        let mut crew = Vec::new(alloc);
        for _ in 0..workers {
            crew.push(Worker::new(alloc))?;
        }
        Ok(Core {
            tasks: list,
            limit,
            next: 0,
            workers: crew,
            total: 0,
        })
    }

    /// Takes the step that `event` names.
    pub fn step(&mut self, event: &Event) -> Result<(), JobFault>
        ensures refused { IsErrOf result JobFault.NotNow ↔ (allows self.old event.now ≡ false) }
        ensures taken { OnOk result (IsStep self.old event.now self.new) }
        ensures unchanged { OnErr result (self.new ≡ self.old) }
    {
        match *event {
            Event::Draw { worker } => self.draw(worker),
            Event::Begin { worker, task } => self.begin(worker, task),
            Event::Commit {
                worker,
                task,
                attempt,
            } => self.commit(worker, task, attempt),
            Event::Late {
                worker,
                task,
                attempt,
            } => self.late(worker, task, attempt),
            Event::Fail {
                worker,
                task,
                attempt,
            } => self.fail(worker, task, attempt),
            Event::Leave { worker } => self.leave(worker),
            Event::Aside { worker } => self.put_aside(worker),
            Event::Abort { worker } => self.abort(worker),
        }
    }

    fn runs(&self, worker: u32) -> bool
        ensures { result ≡ runs self.now worker }
    {
        match self.workers.get(worker as usize) {
            Some(found) => found.is_running(),
            None => false,
        }
    }

    fn has_room(&self) -> bool
        ensures { result ≡ has_room self.now }
    {
        self.total < STEP_LIMIT
    }

    fn is_drawn(&self, task: u32) -> bool
        ensures { result ≡ (nat_lt task (length self.now.tasks) && nat_lt task self.now.next) }
    {
        (task as usize) < self.tasks.len() && task < self.next
    }

    fn holds(&self, worker: u32, task: u32, attempt: u32) -> bool
        ensures { result ≡ holds self.now worker task attempt }
    {
        match self.workers.get(worker as usize) {
            Some(found) => found.holds(task, attempt),
            None => false,
        }
    }

    fn is_busy(&self, worker: u32) -> bool
        ensures { result ≡ is_busy self.now worker }
    {
        match self.workers.get(worker as usize) {
            Some(found) => found.is_busy(),
            None => false,
        }
    }

    fn is_failing(&self, worker: u32) -> bool
        ensures { result ≡ is_failing self.now worker }
    {
        match self.workers.get(worker as usize) {
            Some(found) => found.failures() >= ASIDE_LIMIT,
            None => false,
        }
    }

    fn is_won(&self, task: u32) -> bool
        ensures { result ≡ is_some (task_of self.now task).winner }
    {
        match self.tasks.get(task as usize) {
            Some(found) => found.winner.is_some(),
            None => false,
        }
    }

    fn is_over(&self) -> bool
        ensures { result ≡ is_over self.now }
    {
        self.is_all_won() || self.is_some_given_up()
    }

    fn is_all_won(&self) -> bool
        ensures { result ≡ list_all has_winner self.now.tasks }
    {
        self.tasks.iter().all(|task| task.has_winner())
    }

    fn is_some_given_up(&self) -> bool
        ensures { result ≡ list_any (is_given_up self.now.limit) self.now.tasks }
    {
        let limit = self.limit;
        self.tasks.iter().any(|task| task.is_given_up(limit))
    }

    fn draw(&mut self, worker: u32) -> Result<(), JobFault>
        ensures refused { IsErrOf result JobFault.NotNow
            ↔ (allows self.old (Event.Draw worker) ≡ false) }
        ensures taken { OnOk result (self.new ≡ after self.old (Event.Draw worker)) }
        ensures unchanged { OnErr result (self.new ≡ self.old) }
    {
        if !self.runs(worker) || !self.has_room() {
            return Err(JobFault::NotNow);
        }
        let number = self.next;
        self.workers[worker as usize]
            .draw(number)
            .map_err(|_| JobFault::OutOfMemory)?;
        self.next = number + 1;
        self.total += 1;
        Ok(())
    }

    fn begin(&mut self, worker: u32, task: u32) -> Result<(), JobFault>
        ensures refused { IsErrOf result JobFault.NotNow
            ↔ (allows self.old (Event.Begin worker task) ≡ false) }
        ensures taken { OnOk result (self.new ≡ after self.old (Event.Begin worker task)) }
        ensures unchanged { OnErr result (self.new ≡ self.old) }
    {
        if !self.runs(worker) || !self.has_room() || !self.is_drawn(task) {
            return Err(JobFault::NotNow);
        }
        let number = self.tasks[task as usize].begun;
        let attempt = Attempt {
            task,
            number,
            fate: Fate::Unended,
        };
        self.workers[worker as usize]
            .begin(attempt)
            .map_err(|_| JobFault::OutOfMemory)?;
        self.tasks[task as usize].begun = number + 1;
        self.total += 1;
        Ok(())
    }

    fn commit(&mut self, worker: u32, task: u32, attempt: u32) -> Result<(), JobFault>
        ensures refused { IsErrOf result JobFault.NotNow
            ↔ (allows self.old (Event.Commit worker task attempt) ≡ false) }
        ensures taken { OnOk result (self.new ≡ after self.old (Event.Commit worker task attempt)) }
        ensures unchanged { OnErr result (self.new ≡ self.old) }
    {
        if !self.runs(worker) || !self.holds(worker, task, attempt) || self.is_won(task) {
            return Err(JobFault::NotNow);
        }
        if let Some(won) = self.tasks.get_mut(task as usize) {
            won.winner = Some(attempt);
        }
        self.workers[worker as usize].settle(task, attempt, Fate::Won);
        Ok(())
    }

    fn late(&mut self, worker: u32, task: u32, attempt: u32) -> Result<(), JobFault>
        ensures refused { IsErrOf result JobFault.NotNow
            ↔ (allows self.old (Event.Late worker task attempt) ≡ false) }
        ensures taken { OnOk result (self.new ≡ after self.old (Event.Late worker task attempt)) }
        ensures unchanged { OnErr result (self.new ≡ self.old) }
    {
        if !self.runs(worker) || !self.holds(worker, task, attempt) || !self.is_won(task) {
            return Err(JobFault::NotNow);
        }
        self.workers[worker as usize].settle(task, attempt, Fate::Late);
        Ok(())
    }

    fn fail(&mut self, worker: u32, task: u32, attempt: u32) -> Result<(), JobFault>
        ensures refused { IsErrOf result JobFault.NotNow
            ↔ (allows self.old (Event.Fail worker task attempt) ≡ false) }
        ensures taken { OnOk result (self.new ≡ after self.old (Event.Fail worker task attempt)) }
        ensures unchanged { OnErr result (self.new ≡ self.old) }
    {
        if !self.runs(worker) || !self.has_room() || !self.holds(worker, task, attempt) {
            return Err(JobFault::NotNow);
        }
        if let Some(failing) = self.tasks.get_mut(task as usize) {
            failing.failed += 1;
            self.total += 1;
        }
        self.workers[worker as usize].settle(task, attempt, Fate::Failed);
        Ok(())
    }

    fn leave(&mut self, worker: u32) -> Result<(), JobFault>
        ensures refused { IsErrOf result JobFault.NotNow
            ↔ (allows self.old (Event.Leave worker) ≡ false) }
        ensures taken { OnOk result (self.new ≡ after self.old (Event.Leave worker)) }
        ensures unchanged { OnErr result (self.new ≡ self.old) }
    {
        if !self.runs(worker) || self.is_busy(worker) || !self.is_over() {
            return Err(JobFault::NotNow);
        }
        self.workers[worker as usize].stop(Status::Left);
        Ok(())
    }

    fn put_aside(&mut self, worker: u32) -> Result<(), JobFault>
        ensures refused { IsErrOf result JobFault.NotNow
            ↔ (allows self.old (Event.Aside worker) ≡ false) }
        ensures taken { OnOk result (self.new ≡ after self.old (Event.Aside worker)) }
        ensures unchanged { OnErr result (self.new ≡ self.old) }
    {
        if !self.runs(worker) || self.is_busy(worker) || !self.is_failing(worker) {
            return Err(JobFault::NotNow);
        }
        self.workers[worker as usize].stop(Status::PutAside);
        Ok(())
    }

    fn abort(&mut self, worker: u32) -> Result<(), JobFault>
        ensures refused { IsErrOf result JobFault.NotNow
            ↔ (allows self.old (Event.Abort worker) ≡ false) }
        ensures taken { OnOk result (self.new ≡ after self.old (Event.Abort worker)) }
        ensures unchanged { OnErr result (self.new ≡ self.old) }
    {
        if !self.runs(worker) {
            return Err(JobFault::NotNow);
        }
        self.workers[worker as usize].stop(Status::Aborted);
        Ok(())
    }
}
