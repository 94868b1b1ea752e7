//! A sorted run that is cut where it stands.
ghost use Rattle.std.specs.Prelude.{◌≡◌, ◌≤◌, ◌+◌, ⊤, length, map, slice_get, IfOk, MatchOption};
ghost use Rattle.std.specs.List.{AllByRecursion};
ghost use Rattle.std.specs.Option.{option_map};
ghost use Rattle.pig_runs.specs.Cutting.{slice_of};
ghost use Rattle.pig_runs.specs.RunParts.{part_run};
ghost use Rattle.pig_physical.specs.Sliced.{slice_seen, slices_of};

use pig_runs::{CutPoints, Run, RunPart, part_between};
use std::alloc::{AllocError, Global};
use std::marker::Model;

/// A part of a run, by places among its entries.
#[derive(Debug, Clone, Copy, Drop)]
pub struct Stretch {
    pub from: usize,
    pub end: usize,
}

/// A run with the places at which it is cut. Nothing of it is copied.
///
/// Contracts see the list of the slices, each as a run.
#[derive(Drop)]
pub struct SlicedRun {
    run: Run,
    places: Vec<Stretch>,
}

impl Model for SlicedRun {
    ghost use Rattle.std.specs.Prelude.{◌≤◌, List, length, map};
    ghost use Rattle.std.specs.Coded.{coded_list};
    ghost use Rattle.std.specs.List.{AllByRecursion};
    ghost use Rattle.pig_runs.specs.Entries.{InDirections, coded_in_directions};
    ghost use Rattle.pig_physical.specs.Sliced.{slice_seen};

    ghost Value = { List InDirections };

    ghost coded = { coded_list coded_in_directions };

    ghost view = { λ s. map (slice_seen s.run) s.places.items };

    ghost invariant = { λ s. AllByRecursion (λ place. place.end ≤ length s.run.entries) s.places.items };
}

impl SlicedRun {
    /// The slices of a run between points, of which there is one less than slices.
    pub fn of(
        alloc: Global,
        run: Run,
        points: &CutPoints,
        count: u32,
    ) -> Result<SlicedRun, AllocError>
        requires alike { points.now.dirs ≡ run.dirs }
        requires count { length points.now.points + 1 ≡ count }
        ensures { IfOk result (λ found. found ≡ slices_of run points.now.points count) }
    {
        let places = stretches(alloc, &run, points, count)?;
        Ok(SlicedRun { run, places })
    }

    /// The number of slices.
    pub fn len(&self) -> usize
        ensures { result ≡ length self.now }
    {
        self.places.as_slice().len()
    }

    /// A slice, by its number.
    pub fn part(&self, at: usize) -> Option<RunPart>
        ensures is { option_map part_run result ≡ slice_get self.now at }
        ensures within { MatchOption result ⊤ (λ part. part.end ≤ length part.run.now.entries) }
    {
        match self.places.get(at) {
            Some(place) => Some(RunPart {
                run: &self.run,
                from: place.from,
                end: place.end,
            }),
            None => None,
        }
    }
}

// Where the slices stand in the run.
fn stretches(
    alloc: Global,
    run: &Run,
    points: &CutPoints,
    count: u32,
) -> Result<Vec<Stretch>, AllocError>
    requires alike { points.now.dirs ≡ run.now.dirs }
    requires count { length points.now.points + 1 ≡ count }
    ensures slices { IfOk result (λ found. map (slice_seen run.now) found.items
        ≡ slices_of run.now points.now.points count) }
    ensures within { IfOk result (λ found.
        AllByRecursion (λ place. place.end ≤ length run.now.entries) found.items) }
{
    let mut found = Vec::new(alloc);
    for part in 0..count {
        found.push(stretch_of(run, points, part))?;
    }
    Ok(found)
}

// Where a slice stands in the run.
fn stretch_of(run: &Run, points: &CutPoints, part: u32) -> Stretch
    requires within { part ≤ length points.now.points }
    requires alike { points.now.dirs ≡ run.now.dirs }
    ensures slice { slice_seen run.now result ≡ record {
      dirs = run.now.dirs;
      entries = slice_of run.now.dirs points.now.points part run.now.entries;
    } }
    ensures within { result.end ≤ length run.now.entries }
{
    let found = part_between(run, points, part);
    Stretch {
        from: found.from,
        end: found.end,
    }
}
