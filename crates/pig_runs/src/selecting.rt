ghost use Rattle.std.specs.Prelude.{◌≡◌, ◌<◌, ◌≤◌, ◌+◌, ◌-◌, ◌*◌, ◌/◌, true, ⊤, take, drop, length, slice_get, Some, MatchOption, IsTrue, IfOk};
ghost use Rattle.std.specs.List.{AllByRecursion, filter};
ghost use Rattle.pig_value.specs.Gathering.{Entry};
ghost use Rattle.pig_value.specs.Sorts.{sort};
ghost use Rattle.pig_runs.specs.Cutting.{HaveDirections, dirs_of_all, is_up_to, picked};
ghost use Rattle.pig_runs.specs.Entries.{and_entries, entries_of_all, no_entries_in, run_cmp};

use crate::builder::RunBuilder;
use crate::run::{Run, Runs};
use pig_value::Dirs;
use std::alloc::{AllocError, Global};

// A search for an entry gives up after so many rounds, of which each leaves out half of the entries of a run.
const ROUNDS: u32 = 10_000;

// An entry: the number of its run, and its place there.
#[derive(Debug, Clone, Copy, Drop)]
struct Spot {
    run: usize,
    at: usize,
}

// In a search, the places of a run between which an entry is looked for.
#[derive(Debug, Clone, Copy, Drop)]
struct Bounds {
    low: usize,
    high: usize,
}

// The points that cut all entries into `n` slices, each found by counting, where all of them are found so.
pub(crate) fn chosen_points(
    alloc: Global,
    runs: &Runs,
    n: u32,
    dirs: Dirs,
) -> Result<Option<RunBuilder>, AllocError>
    requires some { 0 < n }
    requires dirs { dirs ≡ dirs_of_all runs.now }
    requires alike { HaveDirections (dirs_of_all runs.now) runs.now }
    ensures { IfOk result (λ found. MatchOption found ⊤ (λ built.
        (0 < length (entries_of_all runs.now))
        × (built ≡ and_entries (picked n
        (sort (run_cmp (dirs_of_all runs.now)) (entries_of_all runs.now)) (n - 1))
        (no_entries_in (dirs_of_all runs.now))))) }
{
    let Some(total) = count_entries(runs) else {
        return Ok(None);
    };
    if total == 0 {
        return Ok(None);
    }
    let mut built = RunBuilder::new(alloc, dirs);
    for k in 0..n - 1 {
        if !add_chosen(alloc, runs, place(k, n, total), &mut built)? {
            return Ok(None);
        }
    }
    Ok(Some(built))
}

// The place of the point numbered `k`, of those that cut `m` entries into `n` slices.
pub(crate) fn place(k: u32, n: u32, m: usize) -> usize
    requires later { k + 1 < n }
    requires some { 0 < m }
    ensures is { result ≡ ((k + 1) * m) / n }
    ensures within { result < m }
{
    let product = (k as u128 + 1) * m as u128;
    (product / n as u128) as usize
}

// The number of all entries.
fn count_entries(runs: &Runs) -> Option<usize>
    ensures { MatchOption result ⊤ (λ total. total ≡ length (entries_of_all runs.now)) }
{
    let mut total: usize = 0;
    for run in runs.as_slice() {
        total = total.checked_add(run.len())?;
    }
    Some(total)
}

// Adds the entry at a place of all entries in order, where it is found by counting.
fn add_chosen(
    alloc: Global,
    runs: &Runs,
    place: usize,
    built: &mut RunBuilder,
) -> Result<bool, AllocError>
    requires alike { HaveDirections built.old.dirs runs.now }
    ensures added { IfOk result (λ found. found ≡ true → built.new ≡ and_entries
        (take 1 (drop place (sort (run_cmp built.old.dirs) (entries_of_all runs.now)))) built.old) }
    ensures dirs { built.new.dirs ≡ built.old.dirs }
{
    let Some(spot) = find(alloc, runs, place)? else {
        return Ok(false);
    };
    let Some(run) = run_at(runs, spot.run) else {
        return Ok(false);
    };
    if spot.at >= run.len() || !stands_at(runs, run, spot.at, place) {
        return Ok(false);
    }
    built.copy_entry(run.as_builder(), spot.at)?;
    Ok(true)
}

// Whether an entry stands at a place of all entries in order: at most so many stand before it, and more are no greater.
fn stands_at(runs: &Runs, run: &Run, at: usize, place: usize) -> bool
    requires alike { HaveDirections run.now.dirs runs.now }
    requires within { at < length run.now.entries }
    ensures { IsTrue result → (f : Entry) → slice_get run.now.entries at ≡ Some f → slice_get
        (sort (run_cmp run.now.dirs) (entries_of_all runs.now)) place ≡ Some f }
{
    let Some(before) = count_all(runs, run, at, false) else {
        return false;
    };
    let Some(up_to) = count_all(runs, run, at, true) else {
        return false;
    };
    if before > place {
        return false;
    }
    if place >= up_to {
        return false;
    }
    true
}

// How many of all entries stand before an entry, or are no greater.
fn count_all(runs: &Runs, other: &Run, at: usize, equal: bool) -> Option<usize>
    requires alike { HaveDirections other.now.dirs runs.now }
    requires within { at < length other.now.entries }
    ensures { (f : Entry) → slice_get other.now.entries at ≡ Some f → MatchOption result ⊤
        (λ total. total ≡ length (filter (λ e. is_up_to equal (run_cmp other.now.dirs e f))
        (entries_of_all runs.now))) }
{
    let mut total: usize = 0;
    for run in runs.as_slice() {
        let count = run.as_builder().count_up_to(other.as_builder(), at, equal);
        total = total.checked_add(count)?;
    }
    Some(total)
}

fn run_at(runs: &Runs, number: usize) -> Option<&Run>
    ensures { MatchOption result ⊤ (λ run. slice_get runs.now number ≡ Some run.now) }
{
    runs.as_slice().get(number)
}

// Looks for the entry at a place of all entries in order. It promises nothing: what it finds is to be checked.
fn find(alloc: Global, runs: &Runs, place: usize) -> Result<Option<Spot>, AllocError>
    requires { HaveDirections (dirs_of_all runs.now) runs.now }
{
    let mut bounds = whole_bounds(alloc, runs)?;
    for _round in 0..ROUNDS {
        let Some(spot) = widest(bounds.as_slice()) else {
            return Ok(None);
        };
        let before = counts(alloc, runs, bounds.as_slice(), spot, false)?;
        if sum(before.as_slice()) > place {
            set_highs(&mut bounds, before.as_slice());
            continue;
        }
        let up_to = counts(alloc, runs, bounds.as_slice(), spot, true)?;
        if sum(up_to.as_slice()) > place {
            return Ok(Some(spot));
        }
        set_lows(&mut bounds, up_to.as_slice());
    }
    Ok(None)
}

fn whole_bounds(alloc: Global, runs: &Runs) -> Result<Vec<Bounds>, AllocError> {
    let mut bounds = Vec::new(alloc);
    for run in runs.as_slice() {
        bounds.push(Bounds {
            low: 0,
            high: run.len(),
        })?;
    }
    Ok(bounds)
}

// The middle of the run in which most places are left.
fn widest(bounds: &[Bounds]) -> Option<Spot> {
    let mut widest = 0;
    let mut found = None;
    for run in 0..bounds.len() {
        let Bounds { low, high } = bounds[run];
        let width = high.saturating_sub(low);
        if width > widest {
            widest = width;
            found = Some(Spot {
                run,
                at: low.saturating_add(width / 2),
            });
        }
    }
    found
}

// How many entries of each run stand before an entry, or are no greater, by a search between the run's bounds.
fn counts(
    alloc: Global,
    runs: &Runs,
    bounds: &[Bounds],
    spot: Spot,
    equal: bool,
) -> Result<Vec<usize>, AllocError>
    requires { HaveDirections (dirs_of_all runs.now) runs.now }
{
    let mut counts = Vec::with_capacity(alloc, bounds.len())?;
    let Some(other) = run_at(runs, spot.run) else {
        return Ok(counts);
    };
    if spot.at >= other.len() {
        return Ok(counts);
    }
    for number in 0..bounds.len() {
        counts.push(count_between(runs, number, bounds[number], other, spot.at, equal))?;
    }
    Ok(counts)
}

fn count_between(
    runs: &Runs,
    number: usize,
    bounds: Bounds,
    other: &Run,
    at: usize,
    equal: bool,
) -> usize
    requires alike { HaveDirections other.now.dirs runs.now }
    requires within { at < length other.now.entries }
{
    let Some(run) = run_at(runs, number) else {
        return 0;
    };
    let high = bounds.high.min(run.len());
    let low = bounds.low.min(high);
    run.as_builder()
        .count_between(low, high, other.as_builder(), at, equal)
}

fn sum(counts: &[usize]) -> usize {
    let mut sum: usize = 0;
    for count in counts {
        sum = sum.saturating_add(*count);
    }
    sum
}

fn set_highs(bounds: &mut Vec<Bounds>, counts: &[usize]) {
    for number in 0..bounds.len().min(counts.len()) {
        bounds[number].high = counts[number];
    }
}

fn set_lows(bounds: &mut Vec<Bounds>, counts: &[usize]) {
    for number in 0..bounds.len().min(counts.len()) {
        bounds[number].low = counts[number];
    }
}
