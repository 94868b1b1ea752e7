// The depot of the demonstration.
ghost use Rattle.std.specs.Prelude.{◌≡◌, [], ◌∷◌, IfOk};
ghost use Rattle.std.specs.Option.{option_copied};
ghost use Rattle.pig_outside.specs.declared.memory_depot.MemoryDepot.{MemoryDepot};
ghost use Rattle.pig_outside.specs.Memory.{depot_calls, depot_failing, depot_shelf, told_calls, told_shelf};
ghost use Rattle.pig_outside.specs.Shelf.{state_of};
ghost use Rattle.pig_demo.specs.Faultless.{IsFaultless};
ghost use Rattle.pig_demo.specs.Scene.{demo_script, demo_shelf, script_path};

use crate::visits::demo_inputs;
use pig_outside::{Calls, Depot, DirState, MemoryDepot, OutsideError, Source, Sources};
use pig_value::{Blob, Lengths, Text};
use std::alloc::{AllocError, Global};
use std::marker::Model;

/// The path of the script.
pub const SCRIPT_PATH: &str = "demo";

/// The directory of the script's one STORE.
pub const TOP_PATH: &str = "top";

const SCRIPT: &str = "v = LOAD 'visits' AS (user:chararray, page:chararray, time:int);\n\
    g = GROUP v BY user;\n\
    c = FOREACH g GENERATE group, COUNT(v) AS n, SUM(v.time) AS t;\n\
    o = ORDER c BY n DESC, $0;\n\
    top = LIMIT o 10;\n\
    STORE top INTO 'top';\n";

// The script, alone.
fn demo_scripts(alloc: Global) -> Result<Sources, AllocError>
    ensures { IfOk result (λ scripts. scripts
        ≡ record { path = script_path; bytes = demo_script } ∷ []) }
{
    let source = Source {
        path: Text::from_str(alloc, SCRIPT_PATH)?,
        bytes: Blob::from_slice(alloc, SCRIPT.as_bytes())?,
    };
    let mut scripts = Sources::new(alloc);
    scripts.push(source)?;
    Ok(scripts)
}

/// A depot in memory of which no call fails. Contracts see the depot itself.
#[derive(Drop)]
pub struct OwnDepot {
    inner: MemoryDepot,
}

impl Model for OwnDepot {
    ghost Value = { MemoryDepot };

    ghost view = { λ depot. depot.inner };

    ghost invariant = { λ depot. IsFaultless (depot_failing depot.inner) };
}

impl OwnDepot {
    /// The depot of the demonstration over so many visits, which was asked nothing yet.
    pub fn new(alloc: Global, count: u32) -> Result<OwnDepot, AllocError>
        ensures shelf { IfOk result (λ depot. depot_shelf depot ≡ demo_shelf count) }
        ensures calls { IfOk result (λ depot. depot_calls depot ≡ []) }
    {
        let scripts = demo_scripts(alloc)?;
        let inputs = demo_inputs(alloc, count)?;
        Ok(OwnDepot {
            inner: MemoryDepot::new(alloc, scripts, inputs, Calls::new(alloc)),
        })
    }

    /// The directory of that path. None: there is none.
    pub fn dir(&self, dir: &str) -> Option<&DirState>
        ensures { option_copied result ≡ state_of dir.now (depot_shelf self.now).dirs }
    {
        self.inner.dir(dir)
    }
}

impl Depot for OwnDepot {
    ghost shelf = { told_shelf };

    ghost calls = { told_calls };

    ghost faults = { λ _. 0 };

    ghost store_faults = { λ _. 0 };

    fn script(&mut self, path: &str, most: u64, into: &mut Vec<u8>) -> Result<bool, OutsideError> {
        self.inner.script(path, most, into)
    }

    fn pieces(&mut self, path: &str) -> Result<Option<Lengths>, OutsideError> {
        self.inner.pieces(path)
    }

    fn exists(&mut self, dir: &str) -> Result<bool, OutsideError> {
        self.inner.exists(dir)
    }

    fn create(&mut self, dir: &str) -> Result<(), OutsideError> {
        self.inner.create(dir)
    }

    fn put(&mut self, dir: &str, part: u32, bytes: &[u8]) -> Result<(), OutsideError> {
        self.inner.put(dir, part, bytes)
    }

    fn finish(&mut self, dir: &str) -> Result<(), OutsideError> {
        self.inner.finish(dir)
    }
}
