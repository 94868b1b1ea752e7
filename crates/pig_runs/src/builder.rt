ghost use Rattle.std.specs.List.{AllByRecursion};
ghost use Rattle.std.specs.Prelude.{◌≡◌, ◌<◌, ◌≤◌, List, [], ◌∷◌, ◌++◌, length, map, take, drop, option_map, slice_get, Some, OnOk, OnErr, IfOk};
ghost use Rattle.pig_runs.specs.Entries.{run_of};
ghost use Rattle.pig_runs.specs.Places.{IsStretch, found_in};
ghost use Rattle.pig_runs.specs.Packed.{found_at, packed, packed_lent, Held, held_prop, IsPlaced, Joins, Stand};

use crate::laying::sort_laid;
use crate::lent::{Lent, stands_up_to};
use crate::packing::{
    add_entry, add_lent, join_slots, lend, lend_slots, read_key, read_row, same_key_bytes, slot_at,
    sort_slots,
};
use crate::run::Run;
use crate::slots::Slot;
use crate::stretches::{Stretch, slots_between};
use pig_value::{Dirs, Tuple, Value, known_bytes};
use std::alloc::{AllocError, Global};
use std::marker::Model;

/// Entries that a run will be made of, kept as bytes.
///
/// Contracts see the directions of their keys, and the entries in the order in which they were added.
#[derive(Debug, Drop)]
pub struct RunBuilder {
    pub(crate) dirs: Dirs,
    pub(crate) bytes: Vec<u8>,
    pub(crate) slots: Vec<Slot>,
    pub(crate) ghost held: { Held dirs (map (found_at bytes.items) slots.items) } by { held_prop dirs (map (found_at bytes.items) slots.items) },
}

impl Model for RunBuilder {
    ghost use Rattle.std.specs.List.{AllByRecursion};
    ghost use Rattle.pig_runs.specs.Entries.{InDirections, coded_in_directions};
    ghost use Rattle.pig_runs.specs.Packed.{IsPlaced};

    ghost Value = { InDirections };

    ghost coded = { coded_in_directions };

    ghost view = { λ b. record { dirs = b.dirs; entries = b.held.0 } };

    ghost invariant = { λ b. AllByRecursion (IsPlaced b.bytes.items) b.slots.items };
}

impl RunBuilder {
    ghost use Rattle.pig_runs.specs.Cutting.{Divides, IsHalved, is_up_to};
    ghost use Rattle.pig_runs.specs.Entries.{IsEntry, AreKeyed, no_entries_in, and_entries, key_at, run_cmp};
    ghost use Rattle.pig_value.specs.Gathering.{Entry};
    ghost use Rattle.pig_value.specs.Sorts.{Ascends};
    ghost use Rattle.std.specs.Ordering.{is_lt};
    ghost use Rattle.std.specs.Bool.{Decides};
    ghost use Rattle.pig_keycode.specs.Keys.{IsKey};
    ghost use Rattle.pig_value.specs.Trees.{tree, row_tree};
    ghost use Rattle.pig_value.specs.Valid.{IsRow};

    /// No entries yet, which takes no memory; their keys will be compared in these directions.
    pub fn new(alloc: Global, dirs: Dirs) -> RunBuilder
        ensures { result ≡ no_entries_in dirs }
    {
        RunBuilder {
            dirs,
            bytes: Vec::new(alloc),
            slots: Vec::new(alloc),
        }
    }

    /// Adds a row under its key, encoding both at once. Where memory is wanting, the entries stay as they were.
    pub fn add(&mut self, key: &Value, input: u32, row: &Tuple) -> Result<(), AllocError>
        requires key { IsKey self.old.dirs (tree key.now) }
        requires row { IsRow (row_tree row.now) }
        ensures ok { OnOk result (self.new ≡ and_entries
            (record { key = tree key.now; input = input; row = row_tree row.now } ∷ []) self.old) }
        ensures err { OnErr result (self.new ≡ self.old) }
    {
        add_entry(
            &self.dirs,
            &mut self.bytes,
            &mut self.slots,
            key,
            input,
            row,
        )
    }

    // Adds the bytes and the slots of the entries, which are sorted, to those of others.
    pub(crate) fn join_to(
        &self,
        alloc: Global,
        bytes: &mut Vec<u8>,
        lists: &mut Vec<Vec<Slot>>,
    ) -> Result<(), AllocError>
        requires sorted { ∥ Ascends (run_cmp self.now.dirs) self.now.entries ∥₁ }
        ensures { (es : List Entry)
            → Joins self.now.dirs es bytes.old.items (map (λ list. list.items) lists.old.items)
            → OnOk result (Joins self.now.dirs (es ++ self.now.entries) bytes.new.items
            (map (λ list. list.items) lists.new.items)) }
    {
        let more = self.bytes.as_slice();
        join_slots(alloc, bytes, lists, more, self.slots.as_slice())
    }

    // The entries that slots find in the bytes.
    pub(crate) fn from_slots(dirs: Dirs, bytes: Vec<u8>, slots: Vec<Slot>) -> RunBuilder
        requires placed { AllByRecursion (IsPlaced bytes.items) slots.items }
        requires held { ∥ Held dirs (map (found_at bytes.items) slots.items) ∥₁ }
        ensures { (es : List Entry) → Stand dirs es (map (found_at bytes.items) slots.items)
            → result ≡ record { dirs = dirs; entries = es } }
    {
        RunBuilder { dirs, bytes, slots }
    }

    /// The sorted run of the entries.
    pub fn finish(self) -> Run
        ensures { result ≡ run_of self.dirs self.entries }
    {
        let mut built = self;
        built.sort();
        Run::from_sorted(built)
    }

    fn sort(&mut self)
        ensures { self.new ≡ run_of self.old.dirs self.old.entries }
    {
        sort_laid(&mut self.bytes, &mut self.slots);
    }

    // Sorts the entries, whose codes stay where they are.
    pub(crate) fn put_in_order(&mut self)
        ensures { self.new ≡ run_of self.old.dirs self.old.entries }
    {
        sort_slots(self.bytes.as_slice(), &mut self.slots);
    }

    /// The number of entries.
    pub fn len(&self) -> usize
        ensures count { result ≡ length self.now.entries }
        ensures values { ∥ AreKeyed self.now.dirs self.now.entries ∥₁ }
    {
        self.slots.len()
    }

    // The number of the input of an entry.
    pub(crate) fn input(&self, at: usize) -> u32
        requires { at < length self.now.entries }
        ensures { option_map (λ e. e.input) (slice_get self.now.entries at) ≡ Some result }
    {
        let slot = slot_at(self.slots.as_slice(), at);
        slot.input
    }

    // The row of an entry.
    pub(crate) fn row(&self, alloc: Global, at: usize) -> Result<Tuple, AllocError>
        requires { at < length self.now.entries }
        ensures { IfOk result (λ row. option_map (λ e. e.row) (slice_get self.now.entries at)
            ≡ Some (row_tree row)) }
    {
        let slot = slot_at(self.slots.as_slice(), at);
        read_row(alloc, self.bytes.as_slice(), slot)
    }

    // The key of an entry, where keys have no directions.
    pub(crate) fn key(&self, alloc: Global, at: usize) -> Result<Value, AllocError>
        requires within { at < length self.now.entries }
        requires ascending { self.now.dirs ≡ [] }
        ensures { IfOk result (λ key. key_at self.now at ≡ Some (tree key)) }
    {
        let slot = slot_at(self.slots.as_slice(), at);
        read_key(alloc, self.bytes.as_slice(), slot)
    }

    // Whether two entries have the same key.
    pub(crate) fn same_key(&self, at: usize, other: usize) -> bool
        requires here { at < length self.now.entries }
        requires there { other < length self.now.entries }
        ensures { Decides result (key_at self.now at ≡ key_at self.now other) }
    {
        let slots = self.slots.as_slice();
        same_key_bytes(
            self.bytes.as_slice(),
            slot_at(slots, at),
            slot_at(slots, other),
        )
    }

    // A copy of the directions.
    pub(crate) fn copy_dirs(&self, alloc: Global) -> Result<Dirs, AllocError>
        ensures { IfOk result (λ dirs. dirs ≡ self.now.dirs) }
    {
        let mut copy = Vec::with_capacity(alloc, self.dirs.len())?;
        copy.extend_from_slice(self.dirs.as_slice())?;
        Ok(Dirs::from_vec(copy))
    }

    // The bytes of an entry.
    pub(crate) fn lend(&self, at: usize) -> Lent<'_>
        requires { at < length self.now.entries }
        ensures is { option_map (packed self.now.dirs) (slice_get self.now.entries at)
            ≡ Some (packed_lent result) }
        ensures good { ∥ AreKeyed self.now.dirs self.now.entries ∥₁ }
    {
        let slot = slot_at(self.slots.as_slice(), at);
        lend(self.bytes.as_slice(), slot)
    }

    // Adds the bytes of all entries to a list.
    pub(crate) fn lend_all<'r>(&'r self, all: &mut Vec<Lent<'r>>) -> Result<(), AllocError>
        ensures told { OnOk result (map packed_lent all.new.items
            ≡ map packed_lent all.old.items ++ map (packed self.now.dirs) self.now.entries) }
        ensures good { ∥ AreKeyed self.now.dirs self.now.entries ∥₁ }
    {
        lend_slots(self.bytes.as_slice(), self.slots.as_slice(), all)
    }

    // The entries from a place on, up to another, where there are any: their slots, of which none is copied.
    pub(crate) fn stretch(&self, from: usize, end: usize) -> Stretch<'_>
        requires { ∥ Ascends (run_cmp self.now.dirs) self.now.entries ∥₁ }
        ensures sound { IsStretch result }
        ensures found { found_in result ≡ map (packed self.now.dirs)
            (drop from (take end self.now.entries)) }
        ensures good { ∥ AreKeyed self.now.dirs self.now.entries ∥₁ }
    {
        Stretch {
            bytes: known_bytes(self.bytes.as_slice()),
            slots: slots_between(self.slots.as_slice(), from, end),
        }
    }

    // Adds an entry that is lent. Where memory is wanting, the entries stay as they were.
    pub(crate) fn add_lent(&mut self, lent: Lent) -> Result<(), AllocError>
        requires { ∥ Held self.old.dirs (packed_lent lent ∷ []) ∥₁ }
        ensures ok { (e : Entry) → IsEntry self.old.dirs e → packed self.old.dirs e
            ≡ packed_lent lent.entry → OnOk result (self.new ≡ and_entries (e ∷ []) self.old) }
        ensures err { OnErr result (self.new ≡ self.old) }
        ensures dirs { self.new.dirs ≡ self.old.dirs }
    {
        add_lent(&mut self.bytes, &mut self.slots, lent)
    }

    // Adds a copy of an entry of others.
    pub(crate) fn copy_entry(&mut self, other: &RunBuilder, at: usize) -> Result<(), AllocError>
        requires within { at < length other.now.entries }
        requires alike { other.now.dirs ≡ self.old.dirs }
        ensures ok { OnOk result (self.new ≡ and_entries
            (take 1 (drop at other.now.entries)) self.old) }
        ensures err { OnErr result (self.new ≡ self.old) }
    {
        self.add_lent(other.lend(at))
    }

    // Adds copies of the entries of others from a place on, up to another.
    pub(crate) fn copy_between(
        &mut self,
        other: &RunBuilder,
        from: usize,
        end: usize,
    ) -> Result<(), AllocError>
        requires order { from ≤ end }
        requires within { end ≤ length other.now.entries }
        requires alike { other.now.dirs ≡ self.old.dirs }
        ensures { OnOk result (self.new ≡ and_entries
            (drop from (take end other.now.entries)) self.old) }
    {
        for at in from..end {
            self.copy_entry(other, at)?;
        }
        Ok(())
    }

    // The entries from a place on, up to another, where there are any.
    pub(crate) fn between(
        &self,
        alloc: Global,
        from: usize,
        end: usize,
    ) -> Result<RunBuilder, AllocError>
        requires { end ≤ length self.now.entries }
        ensures { IfOk result (λ found. found
            ≡ record { dirs = self.now.dirs; entries = drop from (take end self.now.entries) }) }
    {
        let mut found = RunBuilder::new(alloc, self.copy_dirs(alloc)?);
        if from < end {
            found.copy_between(self, from, end)?;
            return Ok(found);
        }
        Ok(found)
    }

    // Whether an entry stands before an entry of others, or is no greater, where `equal` asks for that.
    fn is_up_to(&self, at: usize, other: &RunBuilder, there: usize, equal: bool) -> bool
        requires here { at < length self.now.entries }
        requires there { there < length other.now.entries }
        requires alike { other.now.dirs ≡ self.now.dirs }
        ensures { (e f : Entry) → slice_get self.now.entries at ≡ Some e
            → slice_get other.now.entries there ≡ Some f
            → result ≡ is_up_to equal (run_cmp self.now.dirs e f) }
    {
        stands_up_to(&self.lend(at), &other.lend(there), equal)
    }

    // How many entries, which are sorted, stand before an entry of others.
    pub(crate) fn count_before(&self, other: &RunBuilder, there: usize) -> usize
        requires there { there < length other.now.entries }
        requires alike { other.now.dirs ≡ self.now.dirs }
        requires sorted { ∥ Ascends (run_cmp self.now.dirs) self.now.entries ∥₁ }
        ensures bound { result ≤ length self.now.entries }
        ensures parts { (f : Entry) → slice_get other.now.entries there ≡ Some f
            → Divides (λ e. is_lt (run_cmp self.now.dirs e f)) self.now.entries result }
    {
        self.count_up_to(other, there, false)
    }

    // How many entries, which are sorted, stand before an entry of others, or are no greater.
    pub(crate) fn count_up_to(&self, other: &RunBuilder, there: usize, equal: bool) -> usize
        requires there { there < length other.now.entries }
        requires alike { other.now.dirs ≡ self.now.dirs }
        requires sorted { ∥ Ascends (run_cmp self.now.dirs) self.now.entries ∥₁ }
        ensures bound { result ≤ length self.now.entries }
        ensures parts { (f : Entry) → slice_get other.now.entries there ≡ Some f
            → Divides (λ e. is_up_to equal (run_cmp self.now.dirs e f)) self.now.entries result }
    {
        self.count_between(0, self.len(), other, there, equal)
    }

    // The same, where it is known that there are so many at least, and no more than so many.
    pub(crate) fn count_between(
        &self,
        least: usize,
        most: usize,
        other: &RunBuilder,
        there: usize,
        equal: bool,
    ) -> usize
        requires order { least ≤ most }
        requires within { most ≤ length self.now.entries }
        requires there { there < length other.now.entries }
        requires alike { other.now.dirs ≡ self.now.dirs }
        requires sorted { ∥ Ascends (run_cmp self.now.dirs) self.now.entries ∥₁ }
        ensures bound { result ≤ most }
        ensures parts { IsHalved
            equal self.now.dirs self.now.entries other.now.entries there least most
            → (f : Entry) → slice_get other.now.entries there ≡ Some f
            → Divides (λ e. is_up_to equal (run_cmp self.now.dirs e f)) self.now.entries result }
    {
        let mut low = least;
        let mut high = most;
        'halves: while low < high {
            let middle = low + (high - low) / 2;
            if self.is_up_to(middle, other, there, equal) {
                low = middle + 1;
            } else {
                high = middle;
            }
        }
        low
    }
}
