// A host in memory.
ghost use Rattle.std.specs.Prelude.{◌≡◌, ◌≤◌, ◌+◌, [], Some, None, Err, OnOk, OnErr, length};
ghost use Rattle.std.specs.Option.{ForSome, option_copied};
ghost use Rattle.pig_outside.specs.Shelf.{piece_of, HasRange, range_of};

use crate::failing::{Calls, Failing, Method};
use crate::history::{Asked, History};
use crate::laws::inputs_are_of_bytes;
use crate::lookups::find;
use crate::{Failed, Host, OutsideError};
use pig_value::{Blob, Input, Inputs};

/// A host in memory. It tells its inputs and the attempts that it was told of, and fails at the calls that it was
/// given, and at no other. A read that fails leaves the buffer as it was.
#[derive(Drop)]
pub struct MemoryHost {
    inputs: Inputs,
    failing: Failing,
    history: History,
}

impl MemoryHost {
    ghost use Rattle.pig_outside.specs.Failing.{IsUncalled, fails_from, calls_made};
    ghost use Rattle.pig_outside.specs.Memory.{host_inputs, host_begun, host_failing};

    /// A host with these inputs. It takes no memory.
    pub fn new(inputs: Inputs, failing: Calls) -> MemoryHost
        ensures inputs { host_inputs result ≡ inputs }
        ensures begun { host_begun result ≡ [] }
        ensures failing { IsUncalled failing (host_failing result) }
    {
        MemoryHost {
            inputs,
            failing: Failing::new(failing),
            history: History::new(),
        }
    }

    /// From this call on, counted from 1 over both its methods, each call fails.
    pub fn fail_from(&mut self, number: u64)
        ensures inputs { host_inputs self.new ≡ host_inputs self.old }
        ensures begun { host_begun self.new ≡ host_begun self.old }
        ensures failing { host_failing self.new ≡ fails_from number (host_failing self.old) }
    {
        self.failing.fail_from(number);
    }

    /// How often `begin` was called.
    pub fn begun(&self) -> u64
        ensures { result ≡ calls_made Method.Begin (host_failing self.now) }
    {
        self.failing.made(Method::Begin)
    }
}

impl Host for MemoryHost {
    ghost use Rattle.std.specs.Prelude.{◌<◌};
    ghost use Rattle.std.specs.Option.{option_map};
    ghost use Rattle.pig_outside.specs.Calls.{and_attempt};
    ghost use Rattle.pig_outside.specs.Faults.{HasCause, count_end};
    ghost use Rattle.pig_outside.specs.Memory.{told_inputs, told_begun, host_failing, host_faults};
    ghost use Rattle.pig_outside.specs.Failing.{BeginsAsDue, EndsAsDue};

    ghost inputs = { told_inputs };

    ghost begun = { told_begun };

    ghost faults = { host_faults };

    fn tells_bytes(&self) {
        inputs_are_of_bytes(self.inputs.as_slice());
    }

    fn begin(&mut self, wave: u32, task: u32, attempt: u32) -> Result<(), Failed>
        ensures inputs { told_inputs self.new ≡ told_inputs self.old }
        ensures begun { told_begun self.new
            ≡ option_map (and_attempt wave task attempt (host_faults self.old))
            (told_begun self.old) }
        ensures later { host_faults self.old ≤ host_faults self.new }
        ensures failed { OnErr result (host_faults self.old < host_faults self.new) }
        ensures due { BeginsAsDue (host_failing self.old) (host_failing self.new) result }
    {
        self.history = self.history.and(&Asked::Begin {
            wave,
            task,
            attempt,
            faults: self.failing.faults(),
        });
        match self.failing.call(Method::Begin) {
            Err(OutsideError::Failed) => Err(Failed),
            _ => Ok(()),
        }
    }

    fn read(
        &mut self,
        path: &str,
        piece: u32,
        from: u64,
        into: &mut [u8],
    ) -> Result<(), OutsideError>
        requires { ForSome (told_inputs self.old) (HasRange path.now piece from (length into.old)) }
        ensures filled { ForSome (told_inputs self.old)
            (λ i. OnOk result (into.new ≡ range_of path.now piece from (length into.old) i)) }
        ensures as_before { OnErr result (into.new ≡ into.old) }
        ensures inputs { told_inputs self.new ≡ told_inputs self.old }
        ensures begun { told_begun self.new ≡ told_begun self.old }
        ensures cause { HasCause (host_faults self.old) (host_faults self.new) result }
        ensures due { EndsAsDue Method.Read (host_failing self.old)
            (host_failing self.new) result }
        ensures full { result ≡ Err OutsideError.OutOfMemory → host_faults self.old ≡ count_end }
    {
        self.failing.call(Method::Read)?;
        read_range(self.inputs.as_slice(), path, piece, from, into);
        Ok(())
    }
}

// Fills the buffer from that piece.
fn read_range(inputs: &[Input], path: &str, piece: u32, from: u64, into: &mut [u8])
    requires { HasRange path.now piece from (length into.old) inputs.now }
    ensures { into.new ≡ range_of path.now piece from (length into.old) inputs.now }
{
    let Some(bytes) = find_piece(inputs, path, piece) else {
        unreachable!();
    };
    let start = from as usize;
    into.copy_from_slice(&bytes.as_slice()[start..start + into.len()]);
}

// That piece of the input.
fn find_piece<'a>(inputs: &'a [Input], path: &str, piece: u32) -> Option<&'a Blob>
    ensures { option_copied result ≡ piece_of path.now piece inputs.now }
{
    match find(inputs, path) {
        Some(input) => input.pieces.get(piece as usize),
        None => None,
    }
}
