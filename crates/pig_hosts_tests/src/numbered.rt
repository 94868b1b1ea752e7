// A host whose bytes show which task read them.
ghost use Rattle.std.specs.Prelude.{None};

use pig_outside::{Failed, Host, OutsideError};
use pig_silent_tests::{fail, fill};

/// It has one piece, whatever the path, and in the place of each `0` it gives the digit of the task
/// last begun.
#[derive(Drop)]
pub struct Numbered<'b> {
    bytes: &'b [u8],
    task: u32,
    faults: u64,
}

impl<'b> Numbered<'b> {
    pub fn new(bytes: &'b [u8]) -> Self {
        Numbered {
            bytes,
            task: 0,
            faults: 0,
        }
    }
}

/// The digit of a number below ten, and `9` of any other.
fn digit(number: u32) -> u8 {
    "0123456789"
        .as_bytes()
        .get(number as usize)
        .copied()
        .unwrap_or(b'9')
}

impl Host for Numbered<'_> {
    ghost inputs = { λ _. None };

    ghost begun = { λ _. None };

    ghost faults = { λ h. h.faults };

    fn tells_bytes(&self) {}

    fn begin(&mut self, _wave: u32, task: u32, _attempt: u32) -> Result<(), Failed> {
        self.task = task;
        Ok(())
    }

    fn read(
        &mut self,
        _path: &str,
        _piece: u32,
        from: u64,
        into: &mut [u8],
    ) -> Result<(), OutsideError> {
        if !fill(self.bytes, from, into) {
            return fail(&mut self.faults);
        }
        let digit = digit(self.task);
        for byte in into.iter_mut() {
            if *byte == b'0' {
                *byte = digit;
            }
        }
        Ok(())
    }
}
