//! What tasks hand on.
ghost use Rattle.std.specs.Prelude.{◌≡◌, ◌≤◌, ⊤, None, length, slice_get, MatchOption, if◌then◌else◌};
ghost use Rattle.std.specs.Option.{option_map};
ghost use Rattle.pig_runs.specs.RunParts.{part_run};
ghost use Rattle.pig_physical.specs.Combining.{only};
ghost use Rattle.pig_physical.specs.Handed.{form_of, lone_run, runs_of_out};
ghost use Rattle.pig_physical.specs.Outs.{bytes_held, rows_held, runs_held};

use crate::slicing::SlicedRun;
use pig_packed::Packed;
use pig_runs::{Run, RunPart, Runs, whole_run};
use pig_value::{Blob, Numbers, OutList, Seq};

/// What a task hands on, how many lines it read from its split, and the statements of the ASSERTs on its path that its rows
/// don't meet.
#[derive(Drop)]
pub struct Out {
    pub form: OutForm,
    pub lines: u64,
    pub unmet: Numbers,
}

/// The outputs of each wave that ended, in the order of its tasks.
pub type Outs = Seq<OutList<Out>>;

/// Rows, sorted runs by partition, or the bytes of a STORE's part.
pub enum OutForm {
    Rows(Packed),
    Runs(OutRuns),
    Parts(Blob),
}

/// Sorted runs: several, or the slices of one that stand in its place.
pub enum OutRuns {
    Several(Runs),
    Slices(SlicedRun),
}

// How outputs end: by one call.

impl Drop for OutForm {
    fn drop(self) {
        match self {
            OutForm::Rows(rows) => drop(rows),
            OutForm::Runs(runs) => drop(runs),
            OutForm::Parts(bytes) => drop(bytes),
        }
    }
}

impl Drop for OutRuns {
    fn drop(self) {
        match self {
            OutRuns::Several(runs) => drop(runs),
            OutRuns::Slices(slices) => drop(slices),
        }
    }
}

impl OutForm {
    /// The rows, where it holds such.
    pub fn rows(&self) -> Option<&Packed>
        ensures { option_map (λ rows. rows.now) result ≡ rows_held (form_of self.now) }
    {
        match self {
            OutForm::Rows(rows) => Some(rows),
            OutForm::Runs(_) => None,
            OutForm::Parts(_) => None,
        }
    }

    /// The runs, where it holds such.
    pub fn runs(&self) -> Option<&OutRuns>
        ensures { option_map (λ runs. runs_of_out runs.now) result ≡ runs_held (form_of self.now) }
    {
        match self {
            OutForm::Rows(_) => None,
            OutForm::Runs(runs) => Some(runs),
            OutForm::Parts(_) => None,
        }
    }

    /// The runs, without a copy, where it holds such.
    pub fn into_runs(self) -> Option<OutRuns>
        ensures { option_map runs_of_out result ≡ runs_held (form_of self) }
    {
        match self {
            OutForm::Rows(rows) => nothing(rows),
            OutForm::Runs(runs) => Some(runs),
            OutForm::Parts(bytes) => nothing(bytes),
        }
    }

    /// The bytes, without a copy, where it holds such.
    pub fn into_bytes(self) -> Option<Blob>
        ensures { result ≡ bytes_held (form_of self) }
    {
        match self {
            OutForm::Rows(rows) => nothing(rows),
            OutForm::Runs(runs) => nothing(runs),
            OutForm::Parts(bytes) => Some(bytes),
        }
    }
}

// Lets a value go.
fn nothing<T: Drop, F>(left: T) -> Option<F>
    ensures { result ≡ None }
{
    drop(left);
    None
}

impl OutRuns {
    /// The number of runs.
    pub fn len(&self) -> usize
        ensures { result ≡ length (runs_of_out self.now) }
    {
        match self {
            OutRuns::Several(runs) => runs.len(),
            OutRuns::Slices(slices) => slices.len(),
        }
    }

    /// A run, by its number; nothing is copied.
    pub fn part(&self, at: usize) -> Option<RunPart>
        ensures is { option_map part_run result ≡ slice_get (runs_of_out self.now) at }
        ensures within { MatchOption result ⊤ (λ part. part.end ≤ length part.run.now.entries) }
    {
        match self {
            OutRuns::Several(runs) => whole_at(runs, at),
            OutRuns::Slices(slices) => slices.part(at),
        }
    }

    /// The only run, without a copy, where there is just one that is not cut.
    pub fn into_run(self) -> Option<Run>
        ensures { result ≡ lone_run self }
    {
        match self {
            OutRuns::Several(runs) => only(runs),
            OutRuns::Slices(slices) => nothing(slices),
        }
    }
}

fn whole_at(runs: &Runs, at: usize) -> Option<RunPart>
    ensures is { option_map part_run result ≡ slice_get runs.now at }
    ensures within { MatchOption result ⊤ (λ part. part.end ≤ length part.run.now.entries) }
{
    match runs.get(at) {
        Some(run) => Some(whole_run(run)),
        None => None,
    }
}

fn only(runs: Runs) -> Option<Run>
    ensures { result ≡ only runs }
{
    let mut runs = runs;
    let last = runs.pop();
    where_alone(last, runs.is_empty())
}

fn where_alone(last: Option<Run>, is_alone: bool) -> Option<Run>
    ensures { result ≡ (if is_alone then last else None) }
{
    if is_alone { last } else { nothing(last) }
}
