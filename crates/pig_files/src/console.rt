// Standard output as the console.
ghost use Rattle.std.specs.Prelude.{◌≡◌, None};
ghost use Rattle.pig_outside.specs.Counts.{all_faults};

use crate::errors::answer;
use pig_outside::{Console, FaultCounts, OutsideError};
use std::io::{self, Write};

/// Standard output as the console.
#[derive(Drop)]
pub struct StdConsole<R: Print + Drop> {
    rt: R,
    faults: FaultCounts,
}

impl<R: Print + Drop> StdConsole<R> {
    /// It has not failed yet.
    pub fn new(rt: R) -> StdConsole<R>
        ensures { all_faults result.faults ≡ 0 }
    {
        StdConsole {
            rt,
            faults: FaultCounts::new(),
        }
    }
}

impl<R: Print + Drop> Console for StdConsole<R> {
    ghost text = { λ _. None };

    ghost faults = { λ c. all_faults c.faults };

    fn write(&mut self, bytes: &[u8]) -> Result<(), OutsideError> {
        match io::writer(&self.rt).write_all(bytes) {
            Ok(()) => Ok(()),
            Err(error) => Err(answer(&mut self.faults, error)),
        }
    }
}
