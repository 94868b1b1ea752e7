ghost use Rattle.std.specs.Prelude.{◌≡◌, List, ◌<◌, ◌≤◌, ◌+◌, ◌-◌, ◌*◌, ◌/◌, length, map, take, drop, slice_get, Some, OnOk, IfOk};
ghost use Rattle.pig_value.specs.Gathering.{Entry};
ghost use Rattle.pig_value.specs.Sorts.{sort};
ghost use Rattle.pig_runs.specs.Cutting.{Divides, Leads, HaveDirections, cut_points, dirs_of_all, is_below, is_from, picked, slice_of};
ghost use Rattle.pig_runs.specs.Entries.{and_entries, entries_of_all, run_cmp};
ghost use Rattle.pig_runs.specs.Packed.{Held, Stand, packed_lent};

use crate::builder::RunBuilder;
use crate::lent::Lent;
use crate::packing::sort_lent;
use crate::run::{Run, Runs};
use crate::selecting::{chosen_points, place};
use pig_value::Dirs;
use std::alloc::{AllocError, Global};
use std::marker::Model;

/// Points that cut runs into slices: entries, or ends behind every entry, with the runs' directions.
#[derive(Debug, Drop)]
pub struct CutPoints {
    built: RunBuilder,
    ends: u32,
}

impl Model for CutPoints {
    ghost use Rattle.pig_runs.specs.Cutting.{Points, coded_points, points_at};

    ghost Value = { Points };

    ghost coded = { coded_points };

    ghost view = { λ p. record { dirs = p.built.dirs; points = points_at p.built.entries p.ends } };
}

impl CutPoints {
    // How many entries of a run stand before the point numbered `k`, or before the end where there is none.
    pub(crate) fn count_below(&self, run: &Run, k: u32) -> usize
        requires { self.now.dirs ≡ run.now.dirs }
        ensures bound { result ≤ length run.now.entries }
        ensures parts { Divides (is_below run.now.dirs self.now.points k) run.now.entries result }
    {
        let entries = run.as_builder();
        let place = k as usize;
        if place < self.built.len() {
            entries.count_before(&self.built, place)
        } else {
            entries.len()
        }
    }

    // How many entries of a run stand before a slice.
    pub(crate) fn count_before(&self, run: &Run, part: u32) -> usize
        requires within { part ≤ length self.now.points }
        requires alike { self.now.dirs ≡ run.now.dirs }
        ensures { Leads (is_from run.now.dirs self.now.points part) run.now.entries result }
    {
        if part == 0 {
            0
        } else {
            self.count_below(run, part - 1)
        }
    }
}

/// The points that cut the entries of all runs into `n` slices of about one size.
///
/// Of m entries in all, the point numbered k, from 0, is the entry at place (k + 1) * m / n of the sorted run of all
/// entries, rounded down; where there is no entry, it is the end. Each is looked for by counting in each run, and only where
/// that finds none all entries are put in order.
pub fn cuts(alloc: Global, runs: &Runs, n: u32) -> Result<CutPoints, AllocError>
    requires some { 0 < n }
    requires alike { HaveDirections (dirs_of_all runs.now) runs.now }
    ensures { IfOk result
        (λ found. found ≡ record {
          dirs = dirs_of_all runs.now;
          points = cut_points n
              (sort (run_cmp (dirs_of_all runs.now)) (entries_of_all runs.now));
        }) }
{
    let dirs = dirs_of(alloc, runs)?;
    if let Some(built) = chosen_points(alloc, runs, n, dirs)? {
        return Ok(CutPoints { built, ends: 0 });
    }
    cuts_in_order(alloc, runs, n)
}

// The same, by all entries in order.
fn cuts_in_order(alloc: Global, runs: &Runs, n: u32) -> Result<CutPoints, AllocError>
    requires some { 0 < n }
    requires alike { HaveDirections (dirs_of_all runs.now) runs.now }
    ensures { IfOk result
        (λ found. found ≡ record {
          dirs = dirs_of_all runs.now;
          points = cut_points n
              (sort (run_cmp (dirs_of_all runs.now)) (entries_of_all runs.now));
        }) }
{
    let dirs = dirs_of(alloc, runs)?;
    let order = in_order(alloc, runs)?;
    let mut built = RunBuilder::new(alloc, dirs);
    if order.is_empty() {
        return Ok(CutPoints { built, ends: n - 1 });
    }
    pick(&mut built, order.as_slice(), n)?;
    Ok(CutPoints { built, ends: 0 })
}

fn dirs_of(alloc: Global, runs: &Runs) -> Result<Dirs, AllocError>
    ensures { IfOk result (λ dirs. dirs ≡ dirs_of_all runs.now) }
{
    match runs.as_slice() {
        [first, ..] => first.as_builder().copy_dirs(alloc),
        [] => Ok(Dirs::new(alloc)),
    }
}

// The bytes of the entries of all runs, in order.
fn in_order<'r>(alloc: Global, runs: &'r Runs) -> Result<Vec<Lent<'r>>, AllocError>
    requires { HaveDirections (dirs_of_all runs.now) runs.now }
    ensures { IfOk result (λ order. Stand (dirs_of_all runs.now) (sort
        (run_cmp (dirs_of_all runs.now)) (entries_of_all runs.now)) (map packed_lent order.items)) }
{
    let mut all = all_lent(alloc, runs)?;
    sort_lent(&mut all);
    Ok(all)
}

fn all_lent<'r>(alloc: Global, runs: &'r Runs) -> Result<Vec<Lent<'r>>, AllocError>
    requires { HaveDirections (dirs_of_all runs.now) runs.now }
    ensures { IfOk result (λ all. Stand (dirs_of_all runs.now) (entries_of_all runs.now)
        (map packed_lent all.items)) }
{
    let mut all = Vec::new(alloc);
    for run in runs.as_slice() {
        run.as_builder().lend_all(&mut all)?;
    }
    Ok(all)
}

// Adds the points that cut sorted entries into `n` slices.
fn pick(points: &mut RunBuilder, order: &[Lent], n: u32) -> Result<(), AllocError>
    requires some { 0 < n }
    requires entries { 0 < length order.now }
    requires held { ∥ Held points.old.dirs (map packed_lent order.now) ∥₁ }
    ensures { (es : List Entry) → Stand points.old.dirs es (map packed_lent order.now)
        → OnOk result (points.new ≡ and_entries (picked n es (n - 1)) points.old) }
{
    for k in 0..n - 1 {
        pick_one(points, order, k, n)?;
    }
    Ok(())
}

fn pick_one(points: &mut RunBuilder, order: &[Lent], k: u32, n: u32) -> Result<(), AllocError>
    requires later { k + 1 < n }
    requires entries { 0 < length order.now }
    requires held { ∥ Held points.old.dirs (map packed_lent order.now) ∥₁ }
    ensures ok { (es : List Entry) → Stand points.old.dirs es (map packed_lent order.now)
        → OnOk result (points.new ≡ and_entries
        (take 1 (drop (((k + 1) * length es) / n) es)) points.old) }
    ensures dirs { points.new.dirs ≡ points.old.dirs }
{
    let lent = lent_at(order, place(k, n, order.len()));
    points.add_lent(lent)
}

fn lent_at<'r>(order: &[Lent<'r>], at: usize) -> Lent<'r>
    requires { at < length order.now }
    ensures { slice_get order.now at ≡ Some result }
{
    order[at]
}

/// The entries of a run that stand before the point numbered `part`, and not before the one in front of it.
///
/// Points are numbered from 0, and a missing point is no bound.
pub fn slice(alloc: Global, run: &Run, points: &CutPoints, part: u32) -> Result<Run, AllocError>
    requires within { part ≤ length points.now.points }
    requires alike { points.now.dirs ≡ run.now.dirs }
    ensures { IfOk result
        (λ found. found
        ≡ record {
          dirs = run.now.dirs;
          entries = slice_of run.now.dirs points.now.points part run.now.entries;
        }) }
{
    let entries = run.as_builder();
    let from = points.count_before(run, part);
    let end = points.count_below(run, part);
    let slice = entries.between(alloc, from, end)?;
    Ok(Run::from_sorted(slice))
}
