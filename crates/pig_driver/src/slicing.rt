//! The runs of a node that sorts, cut between its map tasks and its reduce tasks.
ghost use Rattle.std.specs.Prelude.{◌≡◌, ◌<◌, ◌+◌, length, map, slice_get, IfOk};
ghost use Rattle.std.specs.List.{AllByRecursion};
ghost use Rattle.std.specs.Option.{option_copied};
ghost use Rattle.pig_physical.specs.Handed.{form_of, out_of};
ghost use Rattle.pig_driver.specs.Slicing.{AreDirected, AreSliced, IsNotedAs, form_in, lone_form, note_of, noted, sliced_outs};

use pig_physical::{Out, OutForm, OutRuns, SlicedRun};
use pig_runs::{CutPoints, Run, Runs, cuts};
use pig_value::{Numbers, OutList, Seq};
use std::alloc::{AllocError, Global};

// What a task handed on beside its run.
#[derive(Drop)]
pub struct Note {
    pub lines: u64,
    pub unmet: Numbers,
}

// The runs of tasks, and what they handed on beside these.
#[derive(Drop)]
struct Taken {
    runs: Runs,
    notes: Seq<Note>,
}

/// The outputs with the slices of their runs, which are cut at the same points into so many parts.
///
/// An output that is not one run, which no map task of a node that sorts hands on, is answered as want of memory.
pub fn slice_outputs(
    alloc: Global,
    outs: OutList<Out>,
    parts: u32,
) -> Result<OutList<Out>, AllocError>
    requires some { 0 < parts }
    requires directed { AreDirected (map out_of outs) }
    ensures { IfOk result (λ news. AreSliced parts (map out_of outs) (map out_of news)) }
{
    let Taken { runs, notes } = take_all(alloc, outs)?;
    let points = cuts(alloc, &runs, parts)?;
    put_slices(alloc, runs, notes.as_slice(), &points, parts)
}

// The runs are taken out of outputs.
fn take_all(alloc: Global, outs: OutList<Out>) -> Result<Taken, AllocError>
    ensures runs { IfOk result (λ taken. map form_in outs ≡ map lone_form taken.runs) }
    ensures notes { IfOk result (λ taken. map note_of outs ≡ taken.notes) }
{
    let mut runs = Runs::new(alloc);
    let mut notes = Seq::new(alloc);
    for out in outs.into_vec() {
        let Out { form, lines, unmet } = out;
        runs.push(lone(form)?)?;
        notes.push(Note { lines, unmet })?;
    }
    Ok(Taken { runs, notes })
}

// The only run, where there is one that is not cut.
fn lone(form: OutForm) -> Result<Run, AllocError>
    ensures { IfOk result (λ run. form_of form ≡ lone_form run) }
{
    let Some(runs) = form.into_runs() else {
        return Err(AllocError);
    };
    match runs.into_run() {
        Some(run) => Ok(run),
        None => Err(AllocError),
    }
}

// Each run is cut, and put with what stood beside it.
fn put_slices(
    alloc: Global,
    runs: Runs,
    notes: &[Note],
    points: &CutPoints,
    parts: u32,
) -> Result<OutList<Out>, AllocError>
    requires alike { AllByRecursion (λ run. points.now.dirs ≡ run.dirs) runs }
    requires count { length points.now.points + 1 ≡ parts }
    ensures { IfOk result (λ news. map out_of news
        ≡ sliced_outs parts points.now.points runs (map noted notes.now)) }
{
    let mut news = OutList::new(alloc);
    for run in runs.into_vec() {
        let sliced = SlicedRun::of(alloc, run, points, parts)?;
        let out = with_slices(alloc, sliced, note_at(notes, news.len()))?;
        news.push(out)?;
    }
    Ok(news)
}

fn note_at(notes: &[Note], place: usize) -> Option<&Note>
    ensures { option_copied result ≡ slice_get notes.now place }
{
    notes.get(place)
}

// The slices with a note, which there is.
fn with_slices(alloc: Global, sliced: SlicedRun, note: Option<&Note>) -> Result<Out, AllocError>
    ensures { IfOk result (λ out. IsNotedAs (option_copied note.entry) sliced out) }
{
    let Some(note) = note else {
        return Err(AllocError);
    };
    Ok(Out {
        form: OutForm::Runs(OutRuns::Slices(sliced)),
        lines: note.lines,
        unmet: copy(alloc, &note.unmet)?,
    })
}

fn copy(alloc: Global, numbers: &Numbers) -> Result<Numbers, AllocError>
    ensures { IfOk result (λ copy. copy ≡ numbers.now) }
{
    let mut copy = Numbers::new(alloc);
    for number in numbers.as_slice() {
        copy.push(*number)?;
    }
    Ok(copy)
}
