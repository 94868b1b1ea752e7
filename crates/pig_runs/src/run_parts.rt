ghost use Rattle.std.specs.Prelude.{◌≡◌, ◌≤◌, ◌++◌, List, length, map, IfOk, OnOk};
ghost use Rattle.std.specs.List.{AllByRecursion, flat_map};
ghost use Rattle.pig_value.specs.Gathering.{Entry};
ghost use Rattle.pig_runs.specs.Cutting.{slice_of};
ghost use Rattle.pig_runs.specs.Entries.{run_of};
ghost use Rattle.pig_runs.specs.Packed.{Joins};
ghost use Rattle.pig_runs.specs.RunParts.{part_entries};

use crate::builder::RunBuilder;
use crate::cutting::CutPoints;
use crate::joining::merge_slots;
use crate::run::Run;
use crate::slots::Slot;
use pig_value::Dirs;
use std::alloc::{AllocError, Global};

/// The entries of a run from a place on, up to another, where there are any.
#[derive(Clone, Copy, Drop)]
pub struct RunPart<'r> {
    pub run: &'r Run,
    pub from: usize,
    pub end: usize,
}

/// All entries of a run.
pub fn whole_run<'r>(run: &'r Run) -> RunPart<'r>
    ensures entries { part_entries result ≡ run.now.entries }
    ensures within { result.end ≤ length run.now.entries }
    ensures run { result.run.now ≡ run.now }
{
    RunPart {
        run,
        from: 0,
        end: run.len(),
    }
}

/// The entries of a run in a slice by points, as `slice` gives them. They are found by halving, and none is copied.
pub fn part_between<'r>(run: &'r Run, points: &CutPoints, part: u32) -> RunPart<'r>
    requires within { part ≤ length points.now.points }
    requires alike { points.now.dirs ≡ run.now.dirs }
    ensures entries { part_entries result
        ≡ slice_of run.now.dirs points.now.points part run.now.entries }
    ensures within { result.end ≤ length run.now.entries }
    ensures run { result.run.now ≡ run.now }
{
    let from = points.count_before(run, part);
    let end = points.count_below(run, part);
    RunPart { run, from, end }
}

/// The sorted run of the entries of parts of runs, which stay as they are. Each entry's bytes are copied once or twice, and
/// nothing is decoded.
pub fn merge_parts(alloc: Global, parts: &[RunPart], dirs: Dirs) -> Result<Run, AllocError>
    requires alike { AllByRecursion (λ part. part.run.now.dirs ≡ dirs) parts.now }
    requires within { AllByRecursion (λ part. part.end ≤ length part.run.now.entries) parts.now }
    ensures { IfOk result (λ run. run ≡ run_of dirs (flat_map part_entries parts.now)) }
{
    let mut bytes = Vec::new(alloc);
    let mut lists = Vec::new(alloc);
    for part in parts {
        join_part(alloc, part, &mut bytes, &mut lists)?;
    }
    let slots = merge_slots(alloc, bytes.as_slice(), lists)?;
    Ok(Run::from_sorted(RunBuilder::from_slots(dirs, bytes, slots)))
}

// Adds the bytes and the slots of a part's entries to those of others. Only of a part of a run they are copied before.
fn join_part(
    alloc: Global,
    part: &RunPart,
    bytes: &mut Vec<u8>,
    lists: &mut Vec<Vec<Slot>>,
) -> Result<(), AllocError>
    requires { part.now.end ≤ length part.now.run.now.entries }
    ensures { (es : List Entry) → Joins part.now.run.now.dirs es bytes.old.items
        (map (λ list. list.items) lists.old.items)
        → OnOk result (Joins part.now.run.now.dirs (es ++ part_entries part.now) bytes.new.items
        (map (λ list. list.items) lists.new.items)) }
{
    let entries = part.run.as_builder();
    if part.from == 0 && part.end == entries.len() {
        return entries.join_to(alloc, bytes, lists);
    }
    let copy = entries.between(alloc, part.from, part.end)?;
    copy.join_to(alloc, bytes, lists)
}
