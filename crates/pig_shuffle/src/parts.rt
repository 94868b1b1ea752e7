ghost use Rattle.std.specs.Prelude.{◌≡◌, ◌≢◌, ◌<◌, [], ◌∷◌, List, ℕ, Option, true, length, map, IfOk, OnOk};
ghost use Rattle.pig_value.specs.Elementwise.{Each};
ghost use Rattle.pig_value.specs.Gathering.{Entry};
ghost use Rattle.pig_value.specs.Trees.{fields_of, row_tree, tree, v_tuple};
ghost use Rattle.pig_value.specs.Valid.{IsRow, IsValue};
ghost use Rattle.pig_typed.specs.declared.blocks.SortKey.{SortKey};
ghost use Rattle.pig_algebra.specs.Cuts.{TypedCut};
ghost use Rattle.pig_runs.specs.Alone.{alone_once};
ghost use Rattle.pig_runs.specs.Entries.{run_of};
ghost use Rattle.pig_runs.specs.Parts.{pn};
ghost use Rattle.pig_shuffle.specs.Held.{ChangedAt, FitsIn, GotEntry, GotKey, Hold, HoldsOneMore, IsFlushed, TookEntry, dirs_in, entry_under, held_in, runs_held};

use pig_combine::Table;
use pig_runs::{KeysBuilder, RunBuilder, Runs, part_of, part_of_row};
use pig_value::{Tuple, Value, copy_row};
use std::alloc::{AllocError, Global};

// What is held of rows, by the partition of their keys: the rows; where they are combined a table;
// or the keys, where these are all that is handed on. All but one of the lists are empty.
#[derive(Drop)]
pub struct Parts {
    pub count: u32,
    pub runs: Vec<RunBuilder>,
    pub tables: Vec<Table>,
    pub keys: Vec<KeysBuilder>,
}

impl Parts {
    // Adds a row under its key, in the partition of the key.
    pub fn add(&mut self, key: &Value, input: u32, row: &Tuple) -> Result<(), AllocError>
        requires key { IsValue (tree key.now) }
        requires fits { FitsIn self.old.runs.items (tree key.now) }
        requires row { IsRow (row_tree row.now) }
        ensures dirs { dirs_in self.new.runs.items ≡ dirs_in self.old.runs.items }
        ensures added { OnOk result (HoldsOneMore
            (entry_under (tree key.now) input (row_tree row.now))
            (held_in self.old) (held_in self.new)) }
    {
        if self.count == 0 {
            return Ok(());
        }
        let part = part_among(key, self.count) as usize;
        add_to_runs(&mut self.runs, part, key, input, row)?;
        add_to_tables(&mut self.tables, part, key, row)?;
        add_to_keys(&mut self.keys, part, key)
    }

    // Adds a row under itself, in the partition of that key. Among keys it is not copied.
    pub fn add_row(&mut self, alloc: Global, input: u32, row: &Tuple) -> Result<(), AllocError>
        requires fits { FitsIn self.old.runs.items (v_tuple (fields_of (row_tree row.now))) }
        requires row { IsRow (row_tree row.now) }
        ensures dirs { dirs_in self.new.runs.items ≡ dirs_in self.old.runs.items }
        ensures added { OnOk result (HoldsOneMore
            (entry_under (v_tuple (fields_of (row_tree row.now))) input (row_tree row.now))
            (held_in self.old) (held_in self.new)) }
    {
        if !self.holds_keys() {
            let key = row_key(alloc, row)?;
            return self.add(&key, input, row);
        }
        let part = part_of_key_row(row, self.count) as usize;
        add_row_to_keys(&mut self.keys, part, row)
    }

    // Whether keys are all that is held.
    fn holds_keys(&self) -> bool
        ensures some { result ≡ true → self.now.keys.items ≢ [] }
        ensures count { result ≡ true → 0 < self.now.count }
    {
        self.count > 0 && !self.keys.is_empty()
    }

    // The sorted runs of what is held. A refusal gives it up.
    pub fn finish(self, alloc: Global) -> Result<Runs, AllocError>
        ensures { (cuts : Option (List TypedCut)) (sorting : Option (List SortKey)) (n : ℕ)
            (entries : List Entry) → Hold cuts sorting n entries (held_in self)
            → IfOk result (λ runs. runs ≡ runs_held cuts sorting n entries) }
    {
        let Parts {
            count: _count,
            runs,
            tables,
            keys,
        } = self;
        if !keys.is_empty() {
            return key_runs(alloc, keys);
        }
        if tables.is_empty() {
            return sorted_runs(alloc, runs);
        }
        flushed_runs(alloc, tables)
    }
}

// The partition of a key. Where there is one, the key is not looked at.
fn part_among(key: &Value, count: u32) -> u32
    requires { 0 < count }
    ensures { result ≡ pn (tree key.now) count }
{
    if count == 1 {
        return 0;
    }
    part_of(key, count)
}

// The same of a row that is a key.
fn part_of_key_row(row: &Tuple, count: u32) -> u32
    requires { 0 < count }
    ensures { result ≡ pn (v_tuple (fields_of (row_tree row.now))) count }
{
    if count == 1 {
        return 0;
    }
    part_of_row(row, count)
}

// A copy of a row as a key.
fn row_key(alloc: Global, row: &Tuple) -> Result<Value, AllocError>
    ensures { IfOk result (λ key. tree key ≡ v_tuple (fields_of (row_tree row.now))) }
{
    Ok(Value::Tuple(copy_row(alloc, row)?))
}

fn add_to_runs(
    runs: &mut Vec<RunBuilder>,
    part: usize,
    key: &Value,
    input: u32,
    row: &Tuple,
) -> Result<(), AllocError>
    requires fits { FitsIn runs.old.items (tree key.now) }
    requires row { IsRow (row_tree row.now) }
    ensures dirs { dirs_in runs.new.items ≡ dirs_in runs.old.items }
    ensures added { OnOk result (ChangedAt part
        (GotEntry (entry_under (tree key.now) input (row_tree row.now)))
        runs.old.items runs.new.items) }
{
    if part >= runs.len() {
        return Ok(());
    }
    add_to_run(runs, part, key, input, row)
}

fn add_to_run(
    runs: &mut Vec<RunBuilder>,
    part: usize,
    key: &Value,
    input: u32,
    row: &Tuple,
) -> Result<(), AllocError>
    requires within { part < length runs.old.items }
    requires fits { FitsIn runs.old.items (tree key.now) }
    requires row { IsRow (row_tree row.now) }
    ensures dirs { dirs_in runs.new.items ≡ dirs_in runs.old.items }
    ensures added { OnOk result (ChangedAt part
        (GotEntry (entry_under (tree key.now) input (row_tree row.now)))
        runs.old.items runs.new.items) }
{
    runs[part].add(key, input, row)
}

fn add_to_tables(
    tables: &mut Vec<Table>,
    part: usize,
    key: &Value,
    row: &Tuple,
) -> Result<(), AllocError>
    requires key { IsValue (tree key.now) }
    requires row { IsRow (row_tree row.now) }
    ensures { OnOk result (ChangedAt part (TookEntry (tree key.now) (row_tree row.now))
        tables.old.items tables.new.items) }
{
    if part >= tables.len() {
        return Ok(());
    }
    add_to_table(tables, part, key, row)
}

fn add_to_table(
    tables: &mut Vec<Table>,
    part: usize,
    key: &Value,
    row: &Tuple,
) -> Result<(), AllocError>
    requires within { part < length tables.old.items }
    requires key { IsValue (tree key.now) }
    requires row { IsRow (row_tree row.now) }
    ensures { OnOk result (ChangedAt part (TookEntry (tree key.now) (row_tree row.now))
        tables.old.items tables.new.items) }
{
    tables[part].add(key, row)
}

fn add_to_keys(keys: &mut Vec<KeysBuilder>, part: usize, key: &Value) -> Result<(), AllocError>
    requires { IsValue (tree key.now) }
    ensures { OnOk result (ChangedAt part (GotKey (tree key.now)) keys.old.items keys.new.items) }
{
    if part >= keys.len() {
        return Ok(());
    }
    add_key(keys, part, key)
}

fn add_key(keys: &mut Vec<KeysBuilder>, part: usize, key: &Value) -> Result<(), AllocError>
    requires within { part < length keys.old.items }
    requires key { IsValue (tree key.now) }
    ensures { OnOk result (ChangedAt part (GotKey (tree key.now)) keys.old.items keys.new.items) }
{
    keys[part].add(key)
}

fn add_row_to_keys(keys: &mut Vec<KeysBuilder>, part: usize, row: &Tuple) -> Result<(), AllocError>
    requires { IsRow (row_tree row.now) }
    ensures { OnOk result (ChangedAt part (GotKey (v_tuple (fields_of (row_tree row.now))))
        keys.old.items keys.new.items) }
{
    if part >= keys.len() {
        return Ok(());
    }
    add_key_row(keys, part, row)
}

fn add_key_row(keys: &mut Vec<KeysBuilder>, part: usize, row: &Tuple) -> Result<(), AllocError>
    requires within { part < length keys.old.items }
    requires row { IsRow (row_tree row.now) }
    ensures { OnOk result (ChangedAt part (GotKey (v_tuple (fields_of (row_tree row.now))))
        keys.old.items keys.new.items) }
{
    keys[part].add_row(row)
}

fn sorted_runs(alloc: Global, builders: Vec<RunBuilder>) -> Result<Runs, AllocError>
    ensures { IfOk result (λ runs. runs ≡ map (λ b. run_of b.dirs b.entries) builders.items) }
{
    let mut runs = Runs::with_capacity(alloc, builders.len())?;
    for builder in builders {
        runs.push(builder.finish())?;
    }
    Ok(runs)
}

fn flushed_runs(alloc: Global, tables: Vec<Table>) -> Result<Runs, AllocError>
    ensures { IfOk result (λ runs. Each IsFlushed tables.items runs) }
{
    let mut runs = Runs::with_capacity(alloc, tables.len())?;
    for table in tables {
        runs.push(table.flush()?)?;
    }
    Ok(runs)
}

fn key_runs(alloc: Global, builders: Vec<KeysBuilder>) -> Result<Runs, AllocError>
    ensures { IfOk result (λ runs. runs
        ≡ map (λ keys. run_of [] (alone_once keys)) builders.items) }
{
    let mut runs = Runs::with_capacity(alloc, builders.len())?;
    for builder in builders {
        runs.push(builder.finish(alloc)?)?;
    }
    Ok(runs)
}
