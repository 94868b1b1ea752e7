// A console, by the text that was written to it.
ghost use Rattle.std.specs.Prelude.{◌≡◌, ◌++◌, ℕ, List, Option, OnOk, OnErr};
ghost use Rattle.std.specs.Option.{option_map};
ghost use Rattle.pig_outside.specs.Faults.{HasConsoleCause};
ghost use Rattle.pig_outside.specs.Text.{LeftPrefix};

use crate::OutsideError;

/// Where answers are printed.
pub trait Console {
    /// What was written to it, or none where it doesn't tell.
    ghost text: { Self → Option (List ℕ) };

    /// How often it has failed.
    ghost faults: { Self → ℕ };

    /// Appends all the bytes; after an error, a prefix of them.
    fn write(&mut self, bytes: &[u8]) -> Result<(), OutsideError>
        ensures written { OnOk result (text self.new
            ≡ option_map (λ t. t ++ bytes.now) (text self.old)) }
        ensures err { OnErr result (LeftPrefix bytes.now (text self.old) (text self.new)) }
        ensures cause { HasConsoleCause (faults self.old) (faults self.new) result };
}
