// A depot in memory.
ghost use Rattle.std.specs.Prelude.{◌≡◌, ◌∷◌, ◌++◌, [], Some, Err, IfOk, OnOk, OnErr, take, is_some, IsSome};
ghost use Rattle.std.specs.Option.{ForSome, option_map, option_copied};
ghost use Rattle.pig_outside.specs.Places.{IsPlace};
ghost use Rattle.pig_outside.specs.Faults.{HasCause};
ghost use Rattle.pig_outside.specs.Shelf.{lengths_of, state_of, parts_in, set_dir, open_state, whole_state, IsOpenIn, script_of, script_bytes, lengths_at, has_dir, with_new, with_part, with_mark, Grows, CanCreate, CanPut, CanFinish, LeftUnmarked, LeftAbsentOrEmpty};

use crate::contents::Directory;
use crate::failing::{Calls, Failing, Method};
use crate::history::{Asked, History};
use crate::lookups::{find, place};
use crate::{Depot, DirState, OutsideError, Parts, Sources};
use pig_value::{Blob, Inputs, Lengths, Seq, Text};
use std::alloc::{AllocError, Global};

/// A depot in memory. It tells its shelf and what it was asked, and fails at the calls that it was given, and at no
/// other. A call that is to fail does nothing else.
#[derive(Drop)]
pub struct MemoryDepot {
    alloc: Global,
    scripts: Sources,
    inputs: Inputs,
    dirs: Vec<Directory>,
    failing: Failing,
    history: History,
}

impl MemoryDepot {
    ghost use Rattle.pig_outside.specs.Failing.{IsUncalled, EndsAsDue, StoreCause, fails_from, fails_once};
    ghost use Rattle.pig_outside.specs.Faults.{HasConsoleCause, count_end};
    ghost use Rattle.pig_outside.specs.Calls.{and_call};
    ghost use Rattle.pig_outside.specs.Memory.{depot_shelf, depot_calls, depot_failing, depot_faults, depot_store_faults};

    /// A depot with these scripts and inputs, and no directory. It takes no memory.
    pub fn new(alloc: Global, scripts: Sources, inputs: Inputs, failing: Calls) -> MemoryDepot
        ensures shelf { depot_shelf result
            ≡ record { scripts = scripts; inputs = inputs; dirs = [] } }
        ensures calls { depot_calls result ≡ [] }
        ensures failing { IsUncalled failing (depot_failing result) }
    {
        MemoryDepot {
            alloc,
            scripts,
            inputs,
            dirs: Vec::new(alloc),
            failing: Failing::new(failing),
            history: History::new(),
        }
    }

    /// From this call on, counted from 1 over all its methods, each call fails.
    pub fn fail_from(&mut self, number: u64)
        ensures shelf { depot_shelf self.new ≡ depot_shelf self.old }
        ensures calls { depot_calls self.new ≡ depot_calls self.old }
        ensures failing { depot_failing self.new ≡ fails_from number (depot_failing self.old) }
    {
        self.failing.fail_from(number);
    }

    /// This call, counted from 1 over all its methods, fails.
    pub fn fail_once(&mut self, number: u64)
        ensures shelf { depot_shelf self.new ≡ depot_shelf self.old }
        ensures calls { depot_calls self.new ≡ depot_calls self.old }
        ensures failing { depot_failing self.new ≡ fails_once number (depot_failing self.old) }
    {
        self.failing.fail_once(number);
    }

    // A call is made, and fails where it is to fail.
    fn call(&mut self, method: Method, path: &str) -> Result<(), OutsideError>
        ensures shelf { depot_shelf self.new ≡ depot_shelf self.old }
        ensures calls { depot_calls self.new ≡ and_call method path.now (depot_calls self.old) }
        ensures due { EndsAsDue method (depot_failing self.old)
            (depot_failing self.new) result }
        ensures cause { HasConsoleCause (depot_faults self.old) (depot_faults self.new) result }
        ensures stores { StoreCause method (depot_store_faults self.old)
            (depot_store_faults self.new) result }
        ensures full { result ≡ Err OutsideError.OutOfMemory → depot_faults self.old ≡ count_end }
    {
        self.history = self.history.and(&Asked::Call { method, path });
        self.failing.call(method)
    }

    /// The directory of that path. None: there is none.
    pub fn dir(&self, dir: &str) -> Option<&DirState>
        ensures { option_copied result ≡ state_of dir.now (depot_shelf self.now).dirs }
    {
        match find(self.dirs.as_slice(), dir) {
            Some(found) => Some(&found.state),
            None => None,
        }
    }
}

impl Depot for MemoryDepot {
    ghost use Rattle.std.specs.Prelude.{Ok, false};
    ghost use Rattle.pig_outside.specs.Calls.{and_call, and_script};
    ghost use Rattle.pig_outside.specs.Memory.{told_shelf, told_calls, depot_failing, depot_faults, depot_store_faults};
    ghost use Rattle.pig_outside.specs.Failing.{EndsAsDue};

    ghost shelf = { told_shelf };

    ghost calls = { told_calls };

    ghost faults = { depot_faults };

    ghost store_faults = { depot_store_faults };

    fn script(&mut self, path: &str, most: u64, into: &mut Vec<u8>) -> Result<bool, OutsideError>
        ensures there { ForSome (told_shelf self.old)
            (λ s. IfOk result (λ there. there ≡ is_some (script_of path.now s))) }
        ensures read { ForSome (told_shelf self.old)
            (λ s. OnOk result (into.new.items ≡ into.old.items ++ script_bytes path.now most s)) }
        ensures grows { OnOk result (Grows most into.old.items into.new.items) }
        ensures absent { result ≡ Ok false → into.new.items ≡ into.old.items }
        ensures err { OnErr result (into.new.items ≡ into.old.items) }
        ensures shelf { told_shelf self.new ≡ told_shelf self.old }
        ensures calls { told_calls self.new ≡ option_map (and_script path.now most)
            (told_calls self.old) }
        ensures cause { HasCause (depot_faults self.old) (depot_faults self.new) result }
        ensures store_faults { depot_store_faults self.new ≡ depot_store_faults self.old }
        ensures due { EndsAsDue Method.Script (depot_failing self.old)
            (depot_failing self.new) result }
    {
        self.history = self.history.and(&Asked::Script { path, most });
        self.failing.call(Method::Script)?;
        match find(self.scripts.as_slice(), path) {
            Some(source) => {
                append_front(source.bytes.as_slice(), most, into)?;
                Ok(true)
            }
            None => Ok(false),
        }
    }

    fn pieces(&mut self, path: &str) -> Result<Option<Lengths>, OutsideError>
        ensures lengths { ForSome (told_shelf self.old)
            (λ s. IfOk result (λ found. found ≡ lengths_at path.now s)) }
        ensures shelf { told_shelf self.new ≡ told_shelf self.old }
        ensures calls { told_calls self.new ≡ option_map (and_call Method.Pieces path.now)
            (told_calls self.old) }
        ensures cause { HasCause (depot_faults self.old) (depot_faults self.new) result }
        ensures store_faults { depot_store_faults self.new ≡ depot_store_faults self.old }
        ensures due { EndsAsDue Method.Pieces (depot_failing self.old)
            (depot_failing self.new) result }
    {
        self.call(Method::Pieces, path)?;
        match find(self.inputs.as_slice(), path) {
            Some(input) => Ok(Some(lengths(self.alloc, input.pieces.as_slice())?)),
            None => Ok(None),
        }
    }

    fn exists(&mut self, dir: &str) -> Result<bool, OutsideError>
        ensures there { ForSome (told_shelf self.old)
            (λ s. IfOk result (λ there. there ≡ has_dir dir.now s)) }
        ensures shelf { told_shelf self.new ≡ told_shelf self.old }
        ensures calls { told_calls self.new ≡ option_map (and_call Method.Exists dir.now)
            (told_calls self.old) }
        ensures cause { HasCause (depot_faults self.old) (depot_faults self.new) result }
        ensures store_faults { depot_store_faults self.new ≡ depot_store_faults self.old }
        ensures due { EndsAsDue Method.Exists (depot_failing self.old)
            (depot_failing self.new) result }
    {
        self.call(Method::Exists, dir)?;
        Ok(find(self.dirs.as_slice(), dir).is_some())
    }

    fn create(&mut self, dir: &str) -> Result<(), OutsideError>
        requires { ForSome (told_shelf self.old) (CanCreate dir.now) }
        ensures created { OnOk result (told_shelf self.new
            ≡ option_map (with_new dir.now) (told_shelf self.old)) }
        ensures err { OnErr result (LeftAbsentOrEmpty dir.now (told_shelf self.old)
            (told_shelf self.new)) }
        ensures as_before { OnErr result (told_shelf self.new ≡ told_shelf self.old) }
        ensures calls { told_calls self.new ≡ option_map (and_call Method.Create dir.now)
            (told_calls self.old) }
        ensures cause { HasCause (depot_faults self.old) (depot_faults self.new) result }
        ensures store_cause { HasCause (depot_store_faults self.old)
            (depot_store_faults self.new) result }
        ensures due { EndsAsDue Method.Create (depot_failing self.old)
            (depot_failing self.new) result }
    {
        self.call(Method::Create, dir)?;
        add_dir(self.alloc, &mut self.dirs, dir)
    }

    fn put(&mut self, dir: &str, part: u32, bytes: &[u8]) -> Result<(), OutsideError>
        requires { ForSome (told_shelf self.old) (CanPut dir.now part) }
        ensures put { OnOk result (told_shelf self.new
            ≡ option_map (with_part dir.now bytes.now) (told_shelf self.old)) }
        ensures err { OnErr result (LeftUnmarked dir.now (told_shelf self.old)
            (told_shelf self.new)) }
        ensures as_before { OnErr result (told_shelf self.new ≡ told_shelf self.old) }
        ensures calls { told_calls self.new ≡ option_map (and_call Method.Put dir.now)
            (told_calls self.old) }
        ensures cause { HasCause (depot_faults self.old) (depot_faults self.new) result }
        ensures store_cause { HasCause (depot_store_faults self.old)
            (depot_store_faults self.new) result }
        ensures due { EndsAsDue Method.Put (depot_failing self.old)
            (depot_failing self.new) result }
    {
        self.call(Method::Put, dir)?;
        let _ = part;
        add_part(self.alloc, &mut self.dirs, dir, bytes)
    }

    fn finish(&mut self, dir: &str) -> Result<(), OutsideError>
        requires { ForSome (told_shelf self.old) (CanFinish dir.now) }
        ensures marked { OnOk result (told_shelf self.new
            ≡ option_map (with_mark dir.now) (told_shelf self.old)) }
        ensures err { OnErr result (LeftUnmarked dir.now (told_shelf self.old)
            (told_shelf self.new)) }
        ensures as_before { OnErr result (told_shelf self.new ≡ told_shelf self.old) }
        ensures calls { told_calls self.new ≡ option_map (and_call Method.Finish dir.now)
            (told_calls self.old) }
        ensures cause { HasCause (depot_faults self.old) (depot_faults self.new) result }
        ensures store_cause { HasCause (depot_store_faults self.old)
            (depot_store_faults self.new) result }
        ensures due { EndsAsDue Method.Finish (depot_failing self.old)
            (depot_failing self.new) result }
    {
        self.call(Method::Finish, dir)?;
        mark(&mut self.dirs, dir);
        Ok(())
    }
}

// Appends the first `most` bytes, or all where there are fewer.
fn append_front(bytes: &[u8], most: u64, into: &mut Vec<u8>) -> Result<(), AllocError>
    ensures ok { OnOk result (into.new.items ≡ into.old.items ++ take most bytes.now) }
    ensures err { OnErr result (into.new.items ≡ into.old.items) }
{
    let count = most.min(bytes.len() as u64) as usize;
    into.extend_from_slice(&bytes[..count])
}

// The lengths of the pieces.
fn lengths(alloc: Global, pieces: &[Blob]) -> Result<Lengths, AllocError>
    ensures { IfOk result (λ l. l ≡ lengths_of pieces.now) }
{
    let lengths = pieces
        .iter()
        .map(|piece| piece.len() as u64)
        .collect(alloc)?;
    Ok(Seq::from_vec(lengths))
}

// Makes an empty directory behind the others.
fn add_dir(alloc: Global, dirs: &mut Vec<Directory>, dir: &str) -> Result<(), OutsideError>
    ensures ok { OnOk result (dirs.new.items ≡ dirs.old.items
        ++ record { path = dir.now; state = open_state [] } ∷ []) }
    ensures err { OnErr result (dirs.new.items ≡ dirs.old.items) }
    ensures memory { result ≡ Err OutsideError.Failed → ⊥ }
{
    let directory = Directory {
        path: Text::from_str(alloc, dir)?,
        state: DirState {
            parts: Parts::new(alloc),
            marked: false,
        },
    };
    dirs.push(directory)?;
    Ok(())
}

// Appends a part in that directory.
fn add_part(
    alloc: Global,
    dirs: &mut Vec<Directory>,
    dir: &str,
    bytes: &[u8],
) -> Result<(), OutsideError>
    requires { IsOpenIn dir.now (parts_in dir.now dirs.old.items) dirs.old.items }
    ensures ok { OnOk result (dirs.new.items ≡ set_dir dir.now
        (open_state (parts_in dir.now dirs.old.items ++ bytes.now ∷ [])) dirs.old.items) }
    ensures err { OnErr result (dirs.new.items ≡ dirs.old.items) }
    ensures memory { result ≡ Err OutsideError.Failed → ⊥ }
{
    let bytes = Blob::from_slice(alloc, bytes)?;
    let at = existing(dirs.as_slice(), dir);
    dirs[at].state.parts.push(bytes)?;
    Ok(())
}

// Sets the marker of that directory.
fn mark(dirs: &mut Vec<Directory>, dir: &str)
    requires { IsOpenIn dir.now (parts_in dir.now dirs.old.items) dirs.old.items }
    ensures { dirs.new.items ≡ set_dir dir.now
        (whole_state (parts_in dir.now dirs.old.items)) dirs.old.items }
{
    let at = existing(dirs.as_slice(), dir);
    dirs[at].state.marked = true;
}

// The place of a directory that is there.
fn existing(dirs: &[Directory], dir: &str) -> usize
    requires { IsSome (state_of dir.now dirs.now) }
    ensures { IsPlace dir.now dirs.now result }
{
    let Some(at) = place(dirs, dir) else {
        unreachable!();
    };
    at
}
