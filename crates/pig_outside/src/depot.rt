// A depot, by what is on its shelf.
ghost use Rattle.std.specs.Prelude.{◌≡◌, ◌++◌, ℕ, List, Option, Ok, false, IfOk, OnOk, OnErr, is_some};
ghost use Rattle.std.specs.Option.{ForSome, option_map};
ghost use Rattle.pig_outside.specs.Calls.{DepotCall, and_call, and_script};
ghost use Rattle.pig_outside.specs.Faults.{HasCause};
ghost use Rattle.pig_outside.specs.Shelf.{Shelf, script_of, script_bytes, lengths_at, has_dir, with_new, with_part, with_mark, Grows, CanCreate, CanPut, CanFinish, LeftUnmarked, LeftAbsentOrEmpty};

use crate::{Method, OutsideError};
use pig_value::Lengths;

/// Where scripts and inputs come from, and where outputs go.
///
/// Inputs and scripts never change. No call, whatever it answers, changes more of the shelf than its clauses say.
pub trait Depot {
    /// What it holds, or none where it doesn't tell.
    ghost shelf: { Self → Option Shelf };

    /// What it was asked so far, the oldest call first, or none where it doesn't tell.
    ghost calls: { Self → Option (List DepotCall) };

    /// How often it has failed.
    ghost faults: { Self → ℕ };

    /// How often `create`, `put` or `finish` has failed.
    ghost store_faults: { Self → ℕ };

    /// Appends the first `most` bytes of the script, or all where it is shorter. False: there is no such script.
    fn script(&mut self, path: &str, most: u64, into: &mut Vec<u8>) -> Result<bool, OutsideError>
        ensures there { ForSome (shelf self.old)
            (λ s. IfOk result (λ there. there ≡ is_some (script_of path.now s))) }
        ensures read { ForSome (shelf self.old)
            (λ s. OnOk result (into.new.items ≡ into.old.items ++ script_bytes path.now most s)) }
        ensures grows { OnOk result (Grows most into.old.items into.new.items) }
        ensures absent { result ≡ Ok false → into.new.items ≡ into.old.items }
        ensures err { OnErr result (into.new.items ≡ into.old.items) }
        ensures shelf { shelf self.new ≡ shelf self.old }
        ensures calls { calls self.new ≡ option_map (and_script path.now most) (calls self.old) }
        ensures cause { HasCause (faults self.old) (faults self.new) result }
        ensures store_faults { store_faults self.new ≡ store_faults self.old };

    /// The lengths of the input's pieces in order, in bytes. None: there is no such input.
    fn pieces(&mut self, path: &str) -> Result<Option<Lengths>, OutsideError>
        ensures lengths { ForSome (shelf self.old)
            (λ s. IfOk result (λ found. found ≡ lengths_at path.now s)) }
        ensures shelf { shelf self.new ≡ shelf self.old }
        ensures calls { calls self.new ≡ option_map (and_call Method.Pieces path.now)
            (calls self.old) }
        ensures cause { HasCause (faults self.old) (faults self.new) result }
        ensures store_faults { store_faults self.new ≡ store_faults self.old };

    /// Whether it has the directory.
    fn exists(&mut self, dir: &str) -> Result<bool, OutsideError>
        ensures there { ForSome (shelf self.old)
            (λ s. IfOk result (λ there. there ≡ has_dir dir.now s)) }
        ensures shelf { shelf self.new ≡ shelf self.old }
        ensures calls { calls self.new ≡ option_map (and_call Method.Exists dir.now)
            (calls self.old) }
        ensures cause { HasCause (faults self.old) (faults self.new) result }
        ensures store_faults { store_faults self.new ≡ store_faults self.old };

    /// Makes an empty, unmarked directory.
    fn create(&mut self, dir: &str) -> Result<(), OutsideError>
        requires { ForSome (shelf self.old) (CanCreate dir.now) }
        ensures created { OnOk result (shelf self.new
            ≡ option_map (with_new dir.now) (shelf self.old)) }
        ensures err { OnErr result (LeftAbsentOrEmpty dir.now (shelf self.old) (shelf self.new)) }
        ensures calls { calls self.new ≡ option_map (and_call Method.Create dir.now)
            (calls self.old) }
        ensures cause { HasCause (faults self.old) (faults self.new) result }
        ensures store_cause { HasCause (store_faults self.old) (store_faults self.new) result };

    /// Appends one whole part.
    fn put(&mut self, dir: &str, part: u32, bytes: &[u8]) -> Result<(), OutsideError>
        requires { ForSome (shelf self.old) (CanPut dir.now part) }
        ensures put { OnOk result (shelf self.new
            ≡ option_map (with_part dir.now bytes.now) (shelf self.old)) }
        ensures err { OnErr result (LeftUnmarked dir.now (shelf self.old) (shelf self.new)) }
        ensures calls { calls self.new ≡ option_map (and_call Method.Put dir.now) (calls self.old) }
        ensures cause { HasCause (faults self.old) (faults self.new) result }
        ensures store_cause { HasCause (store_faults self.old) (store_faults self.new) result };

    /// Sets the directory's marker: it is whole.
    fn finish(&mut self, dir: &str) -> Result<(), OutsideError>
        requires { ForSome (shelf self.old) (CanFinish dir.now) }
        ensures marked { OnOk result (shelf self.new
            ≡ option_map (with_mark dir.now) (shelf self.old)) }
        ensures err { OnErr result (LeftUnmarked dir.now (shelf self.old) (shelf self.new)) }
        ensures calls { calls self.new ≡ option_map (and_call Method.Finish dir.now)
            (calls self.old) }
        ensures cause { HasCause (faults self.old) (faults self.new) result }
        ensures store_cause { HasCause (store_faults self.old) (store_faults self.new) result };
}
