ghost use Rattle.std.specs.Prelude.{◌≡◌, ◌<◌, ◌++◌, [], ◌∷◌, List, length, map, slice_get, slice_set, Some, None, IfOk, IfSome, OnOk, OnErr};
ghost use Rattle.std.specs.List.{AllByRecursion};
ghost use Rattle.pig_value.specs.Gathering.{Entry};
ghost use Rattle.pig_value.specs.Trees.{Tree, row_tree, tree};
ghost use Rattle.pig_value.specs.Valid.{IsRow, IsValue};
ghost use Rattle.pig_algebra.specs.Combining.{combined, parts_by};
ghost use Rattle.pig_algebra.specs.Cuts.{cut_typed};
ghost use Rattle.pig_runs.specs.Entries.{run_of};
ghost use Rattle.pig_combine.specs.Holdings.{AreGroups, AreHeld, HasAdded, IsHeldGroup, IsNew, cuts_held, entry_of, entry_told, group_told, groups_held};
ghost use Rattle.pig_combine.specs.Names.{name};
ghost use Rattle.pig_combine.specs.Tallies.{found_by, told};

use crate::groups::{add_to, group_with, parts_of};
use crate::keys::{KeyName, Sought};
use crate::names::plain_text;
use crate::tally::Group;
use indexmap::IndexSet;
use pig_algebra::{Cut, Cuts};
use pig_keycode::encode;
use pig_runs::{Run, RunBuilder};
use pig_value::{Dir, Seq, Tuple, Value};
use std::alloc::{AllocError, Global};
use std::marker::Model;

/// Rows that come under keys, folded into the parts of each key as they come.
///
/// Contracts say what was added to a table (`HasAdded`): there is one group for each key, and of each cut it tells
/// what is found in all rows under the key. A key is found by its text or its code in constant time.
#[derive(Drop)]
pub struct Table {
    alloc: Global,
    cuts: Cuts,
    // What each group's key is found by, at the place of the group.
    places: IndexSet<KeyName>,
    groups: Vec<Group>,
    // Where the code of the next key is written.
    code: Vec<u8>,
}

impl Model for Table {
    ghost use Rattle.std.specs.Prelude.{map};
    ghost use Rattle.std.specs.Coded.{codes};
    ghost use Rattle.pig_value.specs.contracts.values.Value as value;
    ghost use Rattle.pig_typed.specs.contracts.exprs.TExpr as expr;
    ghost use Rattle.pig_algebra.specs.contracts.cuts.Cut as cut;
    ghost use Rattle.pig_combine.specs.Holdings.{AreHeld, Holding};

    ghost Value = { Holding };

    ghost coded = { Prim.hlevel (codes, value.the_row.coded, cut.the_row.coded) };

    ghost view = { λ t. (t.cuts, t.groups.items) };

    ghost invariant = { λ t. AreHeld (map (λ k. k.bytes.items) t.places.keys) t.groups.items };
}

impl Table {
    /// A table with nothing added, which makes the parts of these cuts.
    pub fn new(alloc: Global, cuts: Cuts) -> Result<Table, AllocError>
        ensures cuts { IfOk result (λ table. cuts_held table ≡ map cut_typed cuts) }
        ensures none { IfOk result (HasAdded []) }
    {
        let code = Vec::with_capacity(alloc, 64)?;
        Ok(Table {
            alloc,
            cuts,
            places: IndexSet::new(alloc),
            groups: Vec::new(alloc),
            code,
        })
    }

    /// Adds a row under its key. Where memory is wanting the table stays as it was.
    pub fn add(&mut self, key: &Value, row: &Tuple) -> Result<(), AllocError>
        requires key { IsValue (tree key.now) }
        requires row { IsRow (row_tree row.now) }
        ensures added { (added : List Entry) → HasAdded added self.old → OnOk result (HasAdded
            (added ++ entry_of (tree key.now) (row_tree row.now) ∷ []) self.new) }
        ensures cuts { cuts_held self.new ≡ cuts_held self.old }
        ensures err { OnErr result (groups_held self.new ≡ groups_held self.old) }
    {
        match plain_text(key) {
            Some(text) => add_under(
                self.alloc,
                self.cuts.as_slice(),
                &mut self.places,
                &mut self.groups,
                text,
                key,
                row,
            ),
            None => {
                self.code.clear();
                encode(key, Dir::Asc, &mut self.code)?;
                add_under(
                    self.alloc,
                    self.cuts.as_slice(),
                    &mut self.places,
                    &mut self.groups,
                    self.code.as_slice(),
                    key,
                    row,
                )
            }
        }
    }

    /// The run of the parts: one entry for each key that was added, ascending, whose row is the parts of all rows
    /// under it, in the order of the cuts. A refusal gives up the table.
    pub fn flush(self) -> Result<Run, AllocError>
        ensures dirs { IfOk result (λ run. run.dirs ≡ []) }
        ensures run { (added : List Entry) → HasAdded added self
            → IfOk result (λ run. run ≡ run_of [] (combined (parts_by (cuts_held self)) added)) }
    {
        let Table {
            alloc,
            cuts: _cuts,
            places: _places,
            groups,
            code: _code,
        } = self;
        run_of_groups(alloc, groups)
    }
}

// Adds a row under the key of this name.
fn add_under(
    alloc: Global,
    cuts: &[Cut],
    names: &mut IndexSet<KeyName>,
    groups: &mut Vec<Group>,
    bytes: &[u8],
    key: &Value,
    row: &Tuple,
) -> Result<(), AllocError>
    requires bytes { bytes.now ≡ name (tree key.now) }
    requires key { IsValue (tree key.now) }
    requires row { IsRow (row_tree row.now) }
    requires held { AreHeld (map (λ k. k.bytes.items) names.old.keys) groups.old.items }
    ensures held { AreHeld (map (λ k. k.bytes.items) names.new.keys) groups.new.items }
    ensures added { (added : List Entry)
        → AreGroups (map cut_typed cuts.now) added (map group_told groups.old.items)
        → OnOk result (AreGroups (map cut_typed cuts.now)
        (added ++ entry_of (tree key.now) (row_tree row.now) ∷ [])
        (map group_told groups.new.items)) }
    ensures err { OnErr result (map group_told groups.new.items ≡ map group_told groups.old.items) }
{
    match place_of(names, bytes) {
        Some(at) => add_at(alloc, cuts, groups, at, row),
        None => {
            let group = group_with(alloc, cuts, key, row)?;
            let copied = KeyName::copy(alloc, bytes)?;
            put(names, groups, copied, group)
        }
    }
}

// The place of a name.
fn place_of(names: &IndexSet<KeyName>, bytes: &[u8]) -> Option<usize>
    ensures found { IfSome result (λ at. slice_get (map (λ k. k.bytes.items) names.now.keys) at
        ≡ Some bytes.now) }
    ensures none { result ≡ None → IsNew bytes.now (map (λ k. k.bytes.items) names.now.keys) }
{
    names.get_index_of(Sought { bytes })
}

// Adds a row to the group at a place.
fn add_at(
    alloc: Global,
    cuts: &[Cut],
    groups: &mut Vec<Group>,
    at: usize,
    row: &Tuple,
) -> Result<(), AllocError>
    requires { at < length groups.old.items }
    ensures names { map (λ g. name (tree g.key)) groups.new.items
        ≡ map (λ g. name (tree g.key)) groups.old.items }
    ensures told { (g : Group) (rows : List (List Tree)) → slice_get groups.old.items at ≡ Some g
        → map told g.tallies.items ≡ map (found_by rows) (map cut_typed cuts.now)
        → OnOk result (map group_told groups.new.items
        ≡ slice_set (map group_told groups.old.items) at (record {
          key = tree g.key;
          told = map (found_by (rows ++ row_tree row.now ∷ [])) (map cut_typed cuts.now);
        })) }
    ensures held { IsRow (row_tree row.now) → AllByRecursion IsHeldGroup groups.old.items
        → AllByRecursion IsHeldGroup groups.new.items }
    ensures err { OnErr result (map group_told groups.new.items ≡ map group_told groups.old.items) }
{
    add_to(alloc, cuts, &mut groups[at], row)
}

// Adds a group under the name of its key, which has none yet.
fn put(
    names: &mut IndexSet<KeyName>,
    groups: &mut Vec<Group>,
    copied: KeyName,
    group: Group,
) -> Result<(), AllocError>
    requires { IsNew copied.bytes.items (map (λ k. k.bytes.items) names.old.keys) }
    ensures names { OnOk result (map (λ k. k.bytes.items) names.new.keys
        ≡ map (λ k. k.bytes.items) names.old.keys ++ copied.bytes.items ∷ []) }
    ensures groups { OnOk result (groups.new.items ≡ groups.old.items ++ group ∷ []) }
    ensures kept { OnErr result (map (λ k. k.bytes.items) names.new.keys
        ≡ map (λ k. k.bytes.items) names.old.keys) }
    ensures err { OnErr result (groups.new.items ≡ groups.old.items) }
{
    groups.push(group)?;
    match add_name(names, copied) {
        Ok(()) => Ok(()),
        Err(refused) => {
            groups.pop();
            Err(refused)
        }
    }
}

fn add_name(names: &mut IndexSet<KeyName>, copied: KeyName) -> Result<(), AllocError>
    requires { IsNew copied.bytes.items (map (λ k. k.bytes.items) names.old.keys) }
    ensures ok { OnOk result (map (λ k. k.bytes.items) names.new.keys
        ≡ map (λ k. k.bytes.items) names.old.keys ++ copied.bytes.items ∷ []) }
    ensures err { OnErr result (map (λ k. k.bytes.items) names.new.keys
        ≡ map (λ k. k.bytes.items) names.old.keys) }
{
    names.insert(copied)?;
    Ok(())
}

fn run_of_groups(alloc: Global, groups: Vec<Group>) -> Result<Run, AllocError>
    requires { AllByRecursion IsHeldGroup groups.items }
    ensures { IfOk result (λ run. run
        ≡ run_of [] (map entry_told (map group_told groups.items))) }
{
    let mut builder = RunBuilder::new(alloc, Seq::new(alloc));
    for group in groups {
        let row = parts_of(alloc, &group)?;
        builder.add(&group.key, 0, &row)?;
    }
    Ok(builder.finish())
}
