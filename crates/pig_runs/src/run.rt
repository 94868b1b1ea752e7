ghost use Rattle.std.specs.Prelude.{◌≡◌, ◌<◌, [], length, option_map, slice_get, Some, IfOk};
ghost use Rattle.pig_value.specs.Sorts.{Ascends};
ghost use Rattle.pig_runs.specs.Entries.{run_cmp};

use crate::builder::RunBuilder;
use pig_value::{Seq, Tuple, Value};
use std::alloc::{AllocError, Global};
use std::marker::Model;

/// A sorted list of entries, kept as bytes: by key in the run's directions, then by input, then by row.
///
/// Contracts see the directions and the entries.
#[derive(Debug, Drop)]
pub struct Run {
    built: RunBuilder,
    ghost up: { ∥ Ascends (run_cmp built.dirs) built.entries ∥₁ },
}

/// A list of runs.
pub type Runs = Seq<Run>;

impl Model for Run {
    ghost use Rattle.pig_runs.specs.Entries.{InDirections, coded_in_directions};

    ghost Value = { InDirections };

    ghost coded = { coded_in_directions };

    ghost view = { λ r. r.built };
}

impl Run {
    ghost use Rattle.std.specs.Bool.{Decides};
    ghost use Rattle.pig_value.specs.Trees.{tree, row_tree};
    ghost use Rattle.pig_keycode.specs.Keys.{key_code};
    ghost use Rattle.pig_keycode.specs.Reading.{row_code};
    ghost use Rattle.pig_runs.specs.Entries.{key_at, AreKeyed};

    pub(crate) fn from_sorted(built: RunBuilder) -> Run
        requires { Ascends (run_cmp built.dirs) built.entries }
        ensures { result ≡ built }
    {
        Run { built }
    }

    // The entries, in order.
    pub(crate) fn as_builder(&self) -> &RunBuilder
        ensures is { result.now ≡ self.now }
        ensures sorted { ∥ Ascends (run_cmp self.now.dirs) self.now.entries ∥₁ }
    {
        &self.built
    }

    /// The number of entries.
    pub fn len(&self) -> usize
        ensures count { result ≡ length self.now.entries }
        ensures sorted { ∥ Ascends (run_cmp self.now.dirs) self.now.entries ∥₁ }
        ensures values { ∥ AreKeyed self.now.dirs self.now.entries ∥₁ }
    {
        self.built.len()
    }

    /// The number of the input of an entry.
    pub fn input(&self, at: usize) -> u32
        requires { at < length self.now.entries }
        ensures { option_map (λ e. e.input) (slice_get self.now.entries at) ≡ Some result }
    {
        self.built.input(at)
    }

    /// The row of an entry.
    pub fn row(&self, alloc: Global, at: usize) -> Result<Tuple, AllocError>
        requires { at < length self.now.entries }
        ensures { IfOk result (λ row. option_map (λ e. e.row) (slice_get self.now.entries at)
            ≡ Some (row_tree row)) }
    {
        self.built.row(alloc, at)
    }

    /// The key of an entry, where the run has no directions.
    pub fn key(&self, alloc: Global, at: usize) -> Result<Value, AllocError>
        requires within { at < length self.now.entries }
        requires ascending { self.now.dirs ≡ [] }
        ensures { IfOk result (λ key. key_at self.now at ≡ Some (tree key)) }
    {
        self.built.key(alloc, at)
    }

    /// Whether two entries have the same key. Their bytes are compared, and nothing is decoded.
    pub fn same_key(&self, at: usize, other: usize) -> bool
        requires here { at < length self.now.entries }
        requires there { other < length self.now.entries }
        ensures { Decides result (key_at self.now at ≡ key_at self.now other) }
    {
        self.built.same_key(at, other)
    }

    /// The bytes of an entry's key, its code in the run's directions.
    pub fn key_bytes(&self, at: usize) -> &[u8]
        requires { at < length self.now.entries }
        ensures { option_map (λ e. key_code self.now.dirs e.key) (slice_get self.now.entries at)
            ≡ Some result.now }
    {
        self.built.lend(at).key
    }

    /// The bytes of an entry's row, its code as a tuple.
    pub fn row_bytes(&self, at: usize) -> &[u8]
        requires { at < length self.now.entries }
        ensures { option_map (λ e. row_code e.row) (slice_get self.now.entries at)
            ≡ Some result.now }
    {
        self.built.lend(at).row
    }
}
