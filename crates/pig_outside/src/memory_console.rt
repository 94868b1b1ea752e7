// A console in memory.
ghost use Rattle.std.specs.Prelude.{◌≡◌, ◌++◌, [], OnOk, OnErr};
ghost use Rattle.std.specs.Option.{option_map};

use crate::failing::{Calls, Failing, Method};
use crate::{Console, OutsideError};
use std::alloc::Global;

/// A console in memory. It tells its text, and fails at the calls that it was given, and at no other. A write that
/// fails leaves the text as it was.
#[derive(Debug, Drop)]
pub struct MemoryConsole {
    text: Vec<u8>,
    failing: Failing,
}

impl MemoryConsole {
    ghost use Rattle.pig_outside.specs.Failing.{IsUncalled, fails_from};
    ghost use Rattle.pig_outside.specs.Memory.{console_text, console_failing};

    /// A console with no text. It takes no memory.
    pub fn new(alloc: Global, failing: Calls) -> MemoryConsole
        ensures text { console_text result ≡ [] }
        ensures failing { IsUncalled failing (console_failing result) }
    {
        MemoryConsole {
            text: Vec::new(alloc),
            failing: Failing::new(failing),
        }
    }

    /// From this write on, counted from 1, each write fails.
    pub fn fail_from(&mut self, number: u64)
        ensures text { console_text self.new ≡ console_text self.old }
        ensures failing { console_failing self.new ≡ fails_from number (console_failing self.old) }
    {
        self.failing.fail_from(number);
    }

    /// What was written to it.
    pub fn text(&self) -> &[u8]
        ensures { result.now ≡ console_text self.now }
    {
        self.text.as_slice()
    }
}

impl Console for MemoryConsole {
    ghost use Rattle.pig_outside.specs.Faults.{HasConsoleCause};
    ghost use Rattle.pig_outside.specs.Text.{LeftPrefix};
    ghost use Rattle.pig_outside.specs.Memory.{told_text, console_failing, console_faults};
    ghost use Rattle.pig_outside.specs.Failing.{EndsAsDue};

    ghost text = { told_text };

    ghost faults = { console_faults };

    fn write(&mut self, bytes: &[u8]) -> Result<(), OutsideError>
        ensures written { OnOk result (told_text self.new
            ≡ option_map (λ t. t ++ bytes.now) (told_text self.old)) }
        ensures err { OnErr result (LeftPrefix bytes.now (told_text self.old)
            (told_text self.new)) }
        ensures cause { HasConsoleCause (console_faults self.old) (console_faults self.new) result }
        ensures as_before { OnErr result (told_text self.new ≡ told_text self.old) }
        ensures due { EndsAsDue Method.Write (console_failing self.old)
            (console_failing self.new) result }
    {
        self.failing.call(Method::Write)?;
        self.text.extend_from_slice(bytes)?;
        Ok(())
    }
}
