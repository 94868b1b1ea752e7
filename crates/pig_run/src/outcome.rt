ghost use Rattle.std.specs.Prelude.{◌≡◌, Some};
ghost use Rattle.pig_run.specs.Outputs.{no_counts};
ghost use Rattle.pig_run.specs.Refusals.{status_of};
ghost use Rattle.pig_run.specs.declared.outcome.RunFault.TheVariants as fault;

use pig_driver::JobEnds;
use pig_typing::CheckKind;
use pig_value::{KeptList, Text};
use std::alloc::{AllocError, AllocFailed};

/// Why a run did not end well.
#[derive(Debug, Drop)]
pub enum RunFault {
    /// The words are no command: `run`, `explain` or `check` and the path of one script, or `demo` and a number, and options.
    Usage,
    /// The depot has no such script.
    NoScript,
    /// At this offset of the script as it was read, the first such, a name has no value, or a `%declare` or `%default`
    /// begins that isn't whole.
    Param { offset: u64 },
    /// At this offset of the script with the values of parameters in it, the first such, no token begins.
    Lex { offset: u64 },
    /// The statement of this number, counted from 1, is the first that is off the grammar.
    Syntax { statement: u32 },
    /// The statement of this number is the first without a typing, and the condition of this kind holds there.
    Check { statement: u32, kind: CheckKind },
    /// The depot has no input at the path of a LOAD that a STORE reaches, the first such.
    NoInput { path: Text },
    /// The depot has the directory of a STORE already, of the first such.
    OutputExists { dir: Text },
    /// The depot failed, and has counted it; `store` is the number of the STORE whose directory was being
    /// made, from 1, and none before.
    DepotFault { store: Option<u32> },
    /// A wave failed: this task has failed so often, as the hosts have counted, and a task has no winner.
    TaskFailed { wave: u32, task: u32, failed: u32 },
    /// The ASSERT of the statement of this number is the first that is not met.
    AssertFailed { statement: u32 },
    /// Memory was wanting.
    OutOfMemory,
    /// The console failed at the text of a run that stored all, and has counted it.
    ConsoleFault,
    /// A counted size passes its limit.
    TooLarge { which: TooLarge },
}

/// What passes its limit.
#[derive(Debug, Clone, Copy, PartialEq, Eq, Drop)]
pub enum TooLarge {
    /// The script has more than 1,048,576 bytes, as it was read or with the values of parameters in it.
    Script,
    /// The script has more than 4,096 statements, empty ones included.
    Statements,
    /// More than 64 brackets are open at a token of a statement.
    Depth,
    /// The inputs that a STORE reaches have more than 67,108,864 bytes in all.
    Input,
    /// A wave of the plan has more than 65,536 tasks that read, and ways to them.
    Tasks,
}

impl RunFault {
    /// The exit status.
    pub fn status(&self) -> u8
        ensures { result ≡ status_of (Some self.now) }
    {
        match self {
            RunFault::Usage => 1,
            RunFault::NoScript => 2,
            RunFault::Param { .. }
            | RunFault::Lex { .. }
            | RunFault::Syntax { .. }
            | RunFault::Check { .. } => 3,
            RunFault::NoInput { .. } => 4,
            RunFault::OutputExists { .. } => 5,
            RunFault::DepotFault { .. } => 6,
            RunFault::TaskFailed { .. } => 7,
            RunFault::AssertFailed { .. } => 8,
            RunFault::OutOfMemory => 9,
            RunFault::ConsoleFault => 10,
            RunFault::TooLarge { .. } => 11,
        }
    }
}

impl From<AllocError> for RunFault {
    ghost from_gives = { λ _ e. e ≡ fault.OutOfMemory };

    fn from(_: AllocError) -> Self {
        RunFault::OutOfMemory
    }
}

impl<T: Drop> From<AllocFailed<T>> for RunFault {
    ghost from_gives = { λ _ e. e ≡ fault.OutOfMemory };

    fn from(_: AllocFailed<T>) -> Self {
        RunFault::OutOfMemory
    }
}

/// The numbers of a run, each reduced modulo 2 to the 64.
#[derive(Debug, Clone, Copy, PartialEq, Eq, Drop)]
pub struct Counts {
    /// Lines that were read.
    pub read: u64,
    /// Entries that map tasks handed on.
    pub shuffled: u64,
    /// Lines that were stored.
    pub stored: u64,
}

impl Counts {
    /// The numbers where no run ended well.
    pub fn none() -> Counts
        ensures { result ≡ no_counts }
    {
        Counts {
            read: 0,
            shuffled: 0,
            stored: 0,
        }
    }
}

/// What stands of the tasks of waves.
pub type Waves = JobEnds;

/// What a run answers.
#[derive(Drop)]
pub struct Outcome {
    /// The exit status: 0 where there is no fault.
    pub status: u8,
    /// Why the run did not end well.
    pub fault: Option<RunFault>,
    /// The rows that each bare LIMIT kept.
    pub kept: KeptList,
    /// What stands of the tasks of each wave that ended, the failed one included.
    pub waves: Waves,
    /// The numbers of the run.
    pub counts: Counts,
}
