//! What tasks hand on: rows, runs, the slices of one, bytes. Where memory is wanting the process ends.
ghost use Rattle.std.specs.Prelude.{◌≡◌, []};

use pig_packed::PackedBuilder;
use pig_physical::{Out, OutForm, OutRuns, SlicedRun, outputs_cross_threads};
use pig_runs::{Run, RunBuilder, Runs, cuts};
use pig_value::{Blob, Dirs, Numbers, Tuple, Value};
use std::alloc::Global;
use std::process::Abort;

/// Adds an entry of an input, with a null key and a row without fields.
fn add<R: Abort>(rt: &R, alloc: Global, built: &mut RunBuilder, input: u32)
    requires { built.old.dirs ≡ [] }
    ensures { built.new.dirs ≡ [] }
{
    let row = Tuple::new(alloc);
    built.add(&Value::Null, input, &row).expect(rt, "memory");
    drop(row);
}

/// A run of an entry from each of three inputs.
fn run<R: Abort>(rt: &R, alloc: Global) -> Run
    ensures { result.dirs ≡ [] }
{
    let mut built = RunBuilder::new(alloc, Dirs::new(alloc));
    add(rt, alloc, &mut built, 2);
    add(rt, alloc, &mut built, 0);
    add(rt, alloc, &mut built, 1);
    built.finish()
}

fn alone<R: Abort>(rt: &R, alloc: Global) -> Runs {
    let mut runs = Runs::new(alloc);
    runs.push(run(rt, alloc)).expect(rt, "memory");
    runs
}

/// The run, cut into three.
fn sliced<R: Abort>(rt: &R, alloc: Global) -> SlicedRun {
    let mut runs = Runs::new(alloc);
    runs.push(run(rt, alloc)).expect(rt, "memory");
    let points = cuts(alloc, &runs, 3).expect(rt, "memory");
    let found = SlicedRun::of(alloc, run(rt, alloc), &points, 3).expect(rt, "memory");
    drop((runs, points));
    found
}

/// Where the runs with these numbers stand, and the inputs of their entries.
fn told<R: Abort>(rt: &R, alloc: Global, runs: &OutRuns, count: usize) -> String {
    let mut told = String::new(alloc);
    for at in 0..count {
        match runs.part(at) {
            Some(part) => {
                for place in part.from..part.end {
                    let input = part.run.input(place);
                    let word = format!(in alloc; "{input}").expect(rt, "memory");
                    told.push_str(word.as_str()).expect(rt, "memory");
                }
                told.push_str(";").expect(rt, "memory");
            }
            None => told.push_str("-").expect(rt, "memory"),
        }
    }
    told
}

fn out(alloc: Global, form: OutForm) -> Out {
    let unmet = Numbers::new(alloc);
    Out {
        form,
        lines: 7,
        unmet,
    }
}

fn told_of<R: Abort>(rt: &R, alloc: Global, runs: OutRuns) -> String {
    let out = out(alloc, OutForm::Runs(runs));
    let told = match out.form.runs() {
        Some(runs) => told(rt, alloc, runs, runs.len().saturating_add(1)),
        None => String::new(alloc),
    };
    drop(out);
    told
}

#[test]
fn runs_are_lent_whole_or_in_slices(rt: HostRuntime) {
    let alloc = rt.alloc();
    let whole = told_of(&rt, alloc, OutRuns::Several(alone(&rt, alloc)));
    assert_eq!(rt; whole.as_str(), "012;-");
    let slices = told_of(&rt, alloc, OutRuns::Slices(sliced(&rt, alloc)));
    assert_eq!(rt; slices.as_str(), "0;1;2;-");
}

/// How many entries the only run has, or none where there is no such run.
fn only(runs: OutRuns) -> Option<usize> {
    let run = runs.into_run()?;
    let count = run.len();
    drop(run);
    Some(count)
}

#[test]
fn one_run_that_is_not_cut_is_given_back(rt: HostRuntime) {
    let alloc = rt.alloc();
    assert_eq!(rt; only(OutRuns::Several(alone(&rt, alloc))), Some(3));
    assert_eq!(rt; only(OutRuns::Several(Runs::new(alloc))), None);
    assert_eq!(rt; only(OutRuns::Slices(sliced(&rt, alloc))), None);
}

/// How many bytes a form has, or none where it holds no bytes.
fn bytes(form: OutForm) -> Option<usize> {
    let bytes = form.into_bytes()?;
    let count = bytes.len();
    drop(bytes);
    Some(count)
}

#[test]
fn bytes_and_rows_are_told_apart(rt: HostRuntime) {
    let alloc = rt.alloc();
    let rows = OutForm::Rows(PackedBuilder::new(alloc).finish());
    assert_eq!(rt; rows.rows().is_some(), true);
    assert_eq!(rt; rows.runs().is_some(), false);
    assert_eq!(rt; bytes(rows), None);
    assert_eq!(rt; bytes(OutForm::Parts(Blob::new(alloc))), Some(0));
    outputs_cross_threads();
}
