ghost use Rattle.std.specs.Prelude.{◌≡◌, ◌<◌, ◌≤◌, List, length, map, option_map, slice_get, Some, IfOk, OnOk};
ghost use Rattle.std.specs.Bool.{Decides};
ghost use Rattle.std.specs.List.{AllByRecursion, flat_map};
ghost use Rattle.pig_value.specs.Gathering.{Entry};
ghost use Rattle.pig_value.specs.Sorts.{Ascends, sort};
ghost use Rattle.pig_value.specs.declared.operators.Dir.{Dir};
ghost use Rattle.pig_runs.specs.Entries.{AreKeyed, key_at, run_cmp, run_of};
ghost use Rattle.pig_runs.specs.Packed.{Held, Stand, held_prop, packed, packed_cmp, packed_lent};
ghost use Rattle.pig_runs.specs.Places.{AreStretches, found_in_all, found_place, lists_of_heads};
ghost use Rattle.pig_runs.specs.RunParts.{part_entries};

use crate::heads::Heads;
use crate::lent::Lent;
use crate::run_parts::RunPart;
use crate::stretches::{Head, Place, Stretch, compare_heads, lend_place, lists_of_heads};
use itertools::Itertools;
use pig_value::Dirs;
use std::alloc::{AllocError, Global};
use std::marker::Model;

/// The entries of parts of runs in order, which are lent: of each it keeps the place alone, in eight bytes.
///
/// Contracts see the directions and the entries.
#[derive(Debug, Drop)]
pub struct Merged<'r> {
    dirs: Dirs,
    stretches: Vec<Stretch<'r>>,
    places: Vec<Place>,
    ghost held: { Held dirs (map (found_place stretches.items) places.items) } by { held_prop dirs (map (found_place stretches.items) places.items) },
}

impl<'r> Model for Merged<'r> {
    ghost use Rattle.pig_runs.specs.Entries.{InDirections, coded_in_directions, run_cmp};
    ghost use Rattle.pig_value.specs.Sorts.{Ascends};

    ghost Value = { InDirections };

    ghost coded = { coded_in_directions };

    ghost view = { λ m. record { dirs = m.dirs; entries = m.held.0 } };

    ghost invariant = { λ m. ∥ Ascends (run_cmp m.dirs) m.held.0 ∥₁ };
}

/// The sorted entries of parts of runs, which stay as they are. Nothing is copied or decoded; each entry takes eight
/// bytes, and as many again until this returns.
pub fn merge_lent<'r>(
    alloc: Global,
    parts: &[RunPart<'r>],
    dirs: Dirs,
) -> Result<Merged<'r>, AllocError>
    requires alike { AllByRecursion (λ part. part.run.now.dirs ≡ dirs) parts.now }
    requires within { AllByRecursion (λ part. part.end ≤ length part.run.now.entries) parts.now }
    ensures { IfOk result (λ all. all ≡ run_of dirs (flat_map part_entries parts.now)) }
{
    let stretches = stretches_of(alloc, parts)?;
    let lists = lists_of_heads(alloc, stretches.as_slice())?;
    let places = merge_places(alloc, stretches.as_slice(), lists)?;
    Ok(Merged::from_places(dirs, stretches, places))
}

// The stretches of parts, in turn.
fn stretches_of<'r>(alloc: Global, parts: &[RunPart<'r>]) -> Result<Vec<Stretch<'r>>, AllocError>
    ensures sound { IfOk result (λ found. AreStretches found.items) }
    ensures stand { (ds : List Dir) → AllByRecursion (λ part. part.run.now.dirs ≡ ds) parts.now
        → IfOk result (λ found. Stand ds (flat_map part_entries parts.now)
        (found_in_all found.items)) }
{
    let mut found = Vec::with_capacity(alloc, parts.len())?;
    for part in parts {
        found.push(part.run.as_builder().stretch(part.from, part.end))?;
    }
    Ok(found)
}

// The places of the heads of sorted lists, in one sorted list.
fn merge_places(
    alloc: Global,
    stretches: &[Stretch],
    lists: Vec<Heads>,
) -> Result<Vec<Place>, AllocError>
    requires stretches { AreStretches stretches.now }
    requires lists { lists.items ≡ lists_of_heads stretches.now }
    ensures { IfOk result (λ all. map (found_place stretches.now) all.items
        ≡ sort packed_cmp (found_in_all stretches.now)) }
{
    let merged = lists.into_iter().kmerge_by(alloc, |a: &Head, b: &Head| {
        compare_heads(stretches, a, b).is_lt()
    })?;
    merged.map(place_of).collect_vec(alloc)
}

fn place_of(head: Head) -> Place
    ensures { result ≡ head.place }
{
    head.place
}

impl<'r> Merged<'r> {
    fn from_places(dirs: Dirs, stretches: Vec<Stretch<'r>>, places: Vec<Place>) -> Merged<'r>
        requires { ∥ ((es : List Entry) × (Stand dirs es (map (found_place stretches.items)
            places.items) × Ascends (run_cmp dirs) es)) ∥₁ }
        ensures { (es : List Entry) → Stand dirs es (map (found_place stretches.entry.items)
            places.items) → result ≡ record { dirs = dirs; entries = es } }
    {
        Merged {
            dirs,
            stretches,
            places,
        }
    }

    /// The number of entries.
    pub fn len(&self) -> usize
        ensures count { result ≡ length self.now.entries }
        ensures sorted { ∥ Ascends (run_cmp self.now.dirs) self.now.entries ∥₁ }
        ensures values { ∥ AreKeyed self.now.dirs self.now.entries ∥₁ }
    {
        self.places.as_slice().len()
    }

    /// The bytes of an entry.
    pub fn lend(&self, at: usize) -> Lent<'r>
        requires { at < length self.now.entries }
        ensures is { option_map (packed self.now.dirs) (slice_get self.now.entries at)
            ≡ Some (packed_lent result) }
        ensures values { ∥ AreKeyed self.now.dirs self.now.entries ∥₁ }
    {
        let place = place_at(self.places.as_slice(), at);
        lend_place(self.stretches.as_slice(), place)
    }

    /// The number of the input of an entry.
    pub fn input(&self, at: usize) -> u32
        requires { at < length self.now.entries }
        ensures { option_map (λ e. e.input) (slice_get self.now.entries at) ≡ Some result }
    {
        self.lend(at).input
    }

    /// Whether two entries have the same key. Their bytes are compared, and nothing is decoded.
    pub fn same_key(&self, at: usize, other: usize) -> bool
        requires here { at < length self.now.entries }
        requires there { other < length self.now.entries }
        ensures { Decides result (key_at self.now at ≡ key_at self.now other) }
    {
        same_key(self.lend(at), self.lend(other))
    }
}

fn place_at(places: &[Place], at: usize) -> Place
    requires { at < length places.now }
    ensures { slice_get places.now at ≡ Some result }
{
    places[at]
}

// Whether two keys have the same bytes.
fn same_key(a: Lent, b: Lent) -> bool
    ensures { Decides result (a.entry.key.now ≡ b.entry.key.now) }
{
    a.key == b.key
}
