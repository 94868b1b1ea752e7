//! The entries of a partition, lent by the outputs that hold them.
ghost use Rattle.std.specs.Prelude.{◌≡◌, ◌≤◌, ◌++◌, ⊤, List, length, map, slice_get, IfOk, OnOk, MatchOption};
ghost use Rattle.std.specs.List.{AllByRecursion, flat_map};
ghost use Rattle.std.specs.Option.{option_map};
ghost use Rattle.pig_value.specs.declared.operators.Dir.{Dir};
ghost use Rattle.pig_plan.specs.Plans.{op_of};
ghost use Rattle.pig_runs.specs.Entries.{run_of};
ghost use Rattle.pig_runs.specs.RunParts.{part_entries, part_run};
ghost use Rattle.pig_physical.specs.Fitting.{run_dirs};
ghost use Rattle.pig_physical.specs.Handed.{form_of, out_of, outs_of};
ghost use Rattle.pig_physical.specs.Outs.{entries_at, outs_at as outs_at_wave, runs_in};
ghost use Rattle.pig_reduce.specs.Made.{HasDirs};

use crate::bringing::directions;
use pig_physical::{Out, Outs};
use pig_plan::NodeOp;
use pig_runs::{Merged, RunPart, merge_lent};
use std::alloc::{AllocError, Global};

// The outputs of a wave.
pub(crate) fn outs_at(prior: &Outs, wave: u32) -> &[Out]
    ensures { map out_of result.now ≡ outs_at_wave (outs_of prior.now) wave }
{
    match prior.get(wave as usize) {
        Some(outs) => outs.as_slice(),
        None => &[],
    }
}

/// The entries of a partition of all outputs, in one order. Nothing is copied; an output that holds no
/// such run has none.
pub fn entries_of<'o>(
    alloc: Global,
    op: &NodeOp,
    outs: &'o [Out],
    part: u32,
) -> Result<Merged<'o>, AllocError>
    requires { AllByRecursion (HasDirs (run_dirs (op_of op.now)) part) (map out_of outs.now) }
    ensures { IfOk result (λ all. all ≡ run_of (run_dirs (op_of op.now))
        (flat_map (entries_at part) (map out_of outs.now))) }
{
    let dirs = directions(alloc, op)?;
    let parts = parts_of(alloc, outs, part as usize)?;
    merge_lent(alloc, parts.as_slice(), dirs)
}

// What each output has of a partition; one that has none is left out.
fn parts_of<'o>(alloc: Global, outs: &'o [Out], part: usize) -> Result<Vec<RunPart<'o>>, AllocError>
    ensures entries { IfOk result (λ parts. flat_map part_entries parts.items
        ≡ flat_map (entries_at part) (map out_of outs.now)) }
    ensures within { IfOk result (λ parts.
        AllByRecursion (λ p. p.end ≤ length p.run.now.entries) parts.items) }
    ensures alike { (ds : List Dir) → AllByRecursion (HasDirs ds part) (map out_of outs.now)
        → IfOk result (λ parts. AllByRecursion (λ p. p.run.now.dirs ≡ ds) parts.items) }
{
    let mut parts = Vec::with_capacity(alloc, outs.len())?;
    for out in outs {
        add_part(out, part, &mut parts)?;
    }
    Ok(parts)
}

// Adds what an output has of a partition.
fn add_part<'o>(out: &'o Out, part: usize, parts: &mut Vec<RunPart<'o>>) -> Result<(), AllocError>
    ensures entries { OnOk result (flat_map part_entries parts.new.items
        ≡ flat_map part_entries parts.old.items ++ entries_at part (out_of out.now)) }
    ensures within { AllByRecursion (λ p. p.end ≤ length p.run.now.entries) parts.old.items
        → OnOk result (AllByRecursion (λ p. p.end ≤ length p.run.now.entries) parts.new.items) }
    ensures alike { (ds : List Dir) → HasDirs ds part (out_of out.now)
        → AllByRecursion (λ p. p.run.now.dirs ≡ ds) parts.old.items
        → OnOk result (AllByRecursion (λ p. p.run.now.dirs ≡ ds) parts.new.items) }
{
    match part_of(out, part) {
        Some(found) => {
            parts.push(found)?;
            Ok(())
        }
        None => Ok(()),
    }
}

fn part_of(out: &Out, part: usize) -> Option<RunPart>
    ensures is { option_map part_run result ≡ slice_get (runs_in (form_of out.now.form)) part }
    ensures within { MatchOption result ⊤ (λ p. p.end ≤ length p.run.now.entries) }
{
    match out.form.runs() {
        Some(runs) => runs.part(part),
        None => None,
    }
}
