ghost use Rattle.std.specs.Prelude.{◌≡◌, map, IfOk};
ghost use Rattle.std.specs.List.{AllByRecursion};
ghost use Rattle.pig_runs.specs.Entries.{keyed, AreKeyed, run_of, entries_of_all};

use crate::builder::RunBuilder;
use crate::entries::Entries;
use crate::joining::merge_slots;
use crate::run::{Run, Runs};
use pig_value::Dirs;
use std::alloc::{AllocError, Global};

/// The sorted run of these entries. A refusal gives up the entries.
pub fn sort_run(alloc: Global, entries: Entries, dirs: Dirs) -> Result<Run, AllocError>
    requires { AreKeyed dirs (map keyed entries) }
    ensures { IfOk result (λ run. run ≡ run_of dirs (map keyed entries)) }
{
    let mut builder = RunBuilder::new(alloc, dirs);
    for entry in entries.as_slice() {
        builder.add(&entry.key, entry.input, &entry.row)?;
    }
    Ok(builder.finish())
}

/// The sorted run of the entries of all runs. A refusal gives up the runs.
pub fn merge(alloc: Global, runs: Runs, dirs: Dirs) -> Result<Run, AllocError>
    requires { AllByRecursion (λ run. run.dirs ≡ dirs) runs }
    ensures { IfOk result (λ run. run ≡ run_of dirs (entries_of_all runs)) }
{
    let mut bytes = Vec::new(alloc);
    let mut lists = Vec::new(alloc);
    for run in runs.as_slice() {
        run.as_builder().join_to(alloc, &mut bytes, &mut lists)?;
    }
    let slots = merge_slots(alloc, bytes.as_slice(), lists)?;
    Ok(Run::from_sorted(RunBuilder::from_slots(dirs, bytes, slots)))
}
