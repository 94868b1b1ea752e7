// A host, by the inputs that it reads.
ghost use Rattle.std.specs.Prelude.{◌≡◌, ◌≤◌, ◌<◌, ℕ, List, Option, OnOk, OnErr, length};
ghost use Rattle.std.specs.Option.{ForSome, option_map};
ghost use Rattle.pig_value.specs.declared.inputs.Input.{Input};
ghost use Rattle.pig_outside.specs.Calls.{Attempt, and_attempt};
ghost use Rattle.pig_outside.specs.Faults.{HasCause};
ghost use Rattle.pig_outside.specs.Shelf.{AreOfBytes, HasRange, range_of};

use crate::{Failed, OutsideError};

/// Where a worker makes its attempts, and reads.
pub trait Host {
    /// The inputs, or none where it doesn't tell. No call changes them.
    ghost inputs: { Self → Option (List Input) };

    /// The attempts that it was told of so far, the oldest first, each with the count of failures before it, or none
    /// where it doesn't tell.
    ghost begun: { Self → Option (List Attempt) };

    /// How often it has failed.
    ghost faults: { Self → ℕ };

    /// The inputs that it tells are of bytes. It does nothing: what a proof needs of them is known once it was called.
    fn tells_bytes(&self)
        ensures { ForSome (inputs self.now) AreOfBytes };

    /// An attempt starts. Failed: this attempt is lost. It takes no memory.
    fn begin(&mut self, wave: u32, task: u32, attempt: u32) -> Result<(), Failed>
        ensures inputs { inputs self.new ≡ inputs self.old }
        ensures begun { begun self.new
            ≡ option_map (and_attempt wave task attempt (faults self.old)) (begun self.old) }
        ensures later { faults self.old ≤ faults self.new }
        ensures failed { OnErr result (faults self.old < faults self.new) };

    /// Fills the whole buffer with the bytes of that piece from that place on. A piece that ends early is Failed.
    fn read(
        &mut self,
        path: &str,
        piece: u32,
        from: u64,
        into: &mut [u8],
    ) -> Result<(), OutsideError>
        requires { ForSome (inputs self.old) (HasRange path.now piece from (length into.old)) }
        ensures filled { ForSome (inputs self.old)
            (λ i. OnOk result (into.new ≡ range_of path.now piece from (length into.old) i)) }
        ensures inputs { inputs self.new ≡ inputs self.old }
        ensures begun { begun self.new ≡ begun self.old }
        ensures cause { HasCause (faults self.old) (faults self.new) result };
}
