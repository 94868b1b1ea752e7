ghost use Rattle.std.specs.Prelude.{◌≡◌, ◌<◌, ◌+◌, true, [], ◌∷◌, ◌++◌, length, IfOk, OnOk, OnErr};
ghost use Rattle.std.specs.Bool.{Decides};
ghost use Rattle.pig_value.specs.Sorts.{Ascends};
ghost use Rattle.pig_value.specs.Trees.{Tree, fields_of, row_tree, tree, v_tuple};
ghost use Rattle.pig_value.specs.Valid.{IsRow, IsValue};
ghost use Rattle.pig_runs.specs.Alone.{IsKeyCode, SameKeys, TookKey, alone, alone_once, bare, keys_in};
ghost use Rattle.pig_runs.specs.Entries.{and_entries, key_at, run_cmp, run_of};

use crate::builder::RunBuilder;
use crate::fronts::front;
use crate::lent::Lent;
use crate::run::Run;
use pig_keycode::{encode, encode_row};
use pig_value::{Dir, Dirs, Tuple, Value};
use std::alloc::{AllocError, Global};
use std::marker::Model;

// The code of a row without fields, and what stands round that of a key in a row of the key alone.
const NO_FIELDS: [u8; 2] = [6, 0];

const BEFORE_KEY: [u8; 2] = [6, 1];

const BEHIND_KEY: [u8; 1] = [0];

// How many keys are remembered by where they stand, as many as so many bits count.
const REMEMBERED_BITS: u32 = 12;

// Where a key may stand whose code has this hash.
#[derive(Debug, Clone, Copy, Drop)]
struct Remembered {
    hash: u64,
    place: usize,
}

const NOTHING: Remembered = Remembered {
    hash: 0,
    place: usize::MAX,
};

/// Keys that a run will be made of, in which each stands once, with itself as its row.
///
/// Contracts see keys that are the same as those that were added, however often each (`SameKeys`):
/// one that was added a short while ago is not kept once more.
#[derive(Debug, Drop)]
pub struct KeysBuilder {
    // Each key with a row without fields.
    built: RunBuilder,
    // Where the code of the next key is written.
    code: Vec<u8>,
    // Where keys stand that were added, by a hash of their codes. Only speed hangs on these.
    places: Vec<Remembered>,
}

impl Model for KeysBuilder {
    ghost use Rattle.std.specs.Prelude.{◌≡◌, [], List};
    ghost use Rattle.std.specs.Coded.{coded_list};
    ghost use Rattle.pig_value.specs.Trees.{Tree};
    ghost use Rattle.pig_value.specs.TreeCode.{coded_tree};
    ghost use Rattle.pig_runs.specs.Alone.{keys_in};

    ghost Value = { List Tree };

    ghost coded = { coded_list coded_tree };

    ghost view = { λ k. keys_in k.built.entries };

    ghost invariant = { λ k. k.built.dirs ≡ [] };
}

impl KeysBuilder {
    /// No keys yet.
    pub fn new(alloc: Global) -> Result<KeysBuilder, AllocError>
        ensures { IfOk result (λ keys. keys ≡ []) }
    {
        Ok(KeysBuilder {
            built: RunBuilder::new(alloc, Dirs::new(alloc)),
            code: Vec::new(alloc),
            places: vec![in alloc; NOTHING; 1 << REMEMBERED_BITS]?,
        })
    }

    /// Adds a key. Where memory is wanting, the keys stay as they were.
    pub fn add(&mut self, key: &Value) -> Result<(), AllocError>
        requires { IsValue (tree key.now) }
        ensures ok { OnOk result (SameKeys (self.old ++ tree key.now ∷ []) self.new) }
        ensures err { OnErr result (self.new ≡ self.old) }
    {
        self.code.clear();
        encode(key, Dir::Asc, &mut self.code)?;
        add_code(&mut self.built, &mut self.places, self.code.as_slice())
    }

    /// Adds a row as a key, which is the tuple of its fields. Where memory is wanting, the keys stay
    /// as they were.
    pub fn add_row(&mut self, row: &Tuple) -> Result<(), AllocError>
        requires { IsRow (row_tree row.now) }
        ensures ok { OnOk result (SameKeys
            (self.old ++ v_tuple (fields_of (row_tree row.now)) ∷ []) self.new) }
        ensures err { OnErr result (self.new ≡ self.old) }
    {
        self.code.clear();
        encode_row(row, &mut self.code)?;
        add_code(&mut self.built, &mut self.places, self.code.as_slice())
    }

    /// The sorted run of the keys, each once, with itself as its row. A refusal gives up the keys.
    pub fn finish(self, alloc: Global) -> Result<Run, AllocError>
        ensures { IfOk result (λ run. run ≡ run_of [] (alone_once self)) }
    {
        let KeysBuilder {
            built,
            code: _code,
            places: _places,
        } = self;
        let mut sorted = built;
        sorted.put_in_order();
        run_of_keys(alloc, &sorted)
    }
}

// Adds the key of a code, unless it is known where it stands.
fn add_code(
    built: &mut RunBuilder,
    places: &mut Vec<Remembered>,
    bytes: &[u8],
) -> Result<(), AllocError>
    requires dirs { built.old.dirs ≡ [] }
    requires key { ∥ ((key : Tree) × IsKeyCode bytes.now key) ∥₁ }
    ensures ok { (key : Tree) → IsKeyCode bytes.now key → OnOk result (SameKeys
        (keys_in built.old.entries ++ key ∷ []) (keys_in built.new.entries)) }
    ensures err { OnErr result (built.new ≡ built.old) }
    ensures dirs { built.new.dirs ≡ built.old.dirs }
{
    let hash = hash_of_code(bytes);
    if stands_at(built, place_of(places.as_slice(), hash), bytes) {
        return Ok(());
    }
    remember(places, hash, built.len());
    add_bare(built, bytes)
}

// A hash of a code by both of its ends: codes that differ between them alone are kept each time.
fn hash_of_code(bytes: &[u8]) -> u64 {
    let first = front(bytes);
    let last = match bytes.get(bytes.len().saturating_sub(16)..) {
        Some(end) => front(end),
        None => first,
    };
    (first.low ^ last.high.rotate_left(23) ^ last.low.rotate_left(41))
        .wrapping_add(first.high)
        .wrapping_mul(0x9e37_79b9_7f4a_7c15)
}

fn index_of(hash: u64) -> usize {
    (hash >> (64 - REMEMBERED_BITS)) as usize
}

// Where the key of this hash may stand; where none is remembered, a place at which no key stands.
fn place_of(places: &[Remembered], hash: u64) -> usize {
    match places.get(index_of(hash)) {
        Some(found) if found.hash == hash => found.place,
        _ => usize::MAX,
    }
}

// Puts a key in the place of another that shares the first bits of its hash.
fn remember(places: &mut Vec<Remembered>, hash: u64, place: usize) {
    if let Some(here) = places.get_mut(index_of(hash)) {
        *here = Remembered { hash, place };
    }
}

// Whether there is a key at a place, and has this code.
fn stands_at(built: &RunBuilder, at: usize, bytes: &[u8]) -> bool
    requires { built.now.dirs ≡ [] }
    ensures { result ≡ true → (key : Tree) → IsKeyCode bytes.now key
        → SameKeys (keys_in built.now.entries ++ key ∷ []) (keys_in built.now.entries) }
{
    if at >= built.len() {
        return false;
    }
    is_same_code(built.lend(at).key, bytes)
}

fn is_same_code(code: &[u8], other: &[u8]) -> bool
    ensures { result ≡ true → code.now ≡ other.now }
{
    code == other
}

// Adds the key of a code, with a row without fields.
fn add_bare(built: &mut RunBuilder, bytes: &[u8]) -> Result<(), AllocError>
    requires dirs { built.old.dirs ≡ [] }
    requires key { ∥ ((key : Tree) × IsKeyCode bytes.now key) ∥₁ }
    ensures ok { (key : Tree) → IsKeyCode bytes.now key
        → OnOk result (built.new ≡ and_entries (bare key ∷ []) built.old) }
    ensures err { OnErr result (built.new ≡ built.old) }
    ensures dirs { built.new.dirs ≡ built.old.dirs }
{
    built.add_lent(Lent {
        key: bytes,
        input: 0,
        row: &NO_FIELDS,
    })
}

// The run of the keys of sorted entries, each once.
fn run_of_keys(alloc: Global, sorted: &RunBuilder) -> Result<Run, AllocError>
    requires dirs { sorted.now.dirs ≡ [] }
    requires sorted { Ascends (run_cmp []) sorted.now.entries }
    ensures { IfOk result (λ run. run ≡ run_of [] (alone_once (keys_in sorted.now.entries))) }
{
    let mut found = RunBuilder::new(alloc, Dirs::new(alloc));
    let mut row = Vec::new(alloc);
    'entries: for at in 0..sorted.len() {
        take_key(sorted, at, &mut found, &mut row)?;
    }
    Ok(Run::from_sorted(found))
}

// Adds the key of an entry, unless it is that of the next one too. The code of its row is written
// into the memory that is lent.
fn take_key(
    sorted: &RunBuilder,
    at: usize,
    found: &mut RunBuilder,
    row: &mut Vec<u8>,
) -> Result<(), AllocError>
    requires within { at < length sorted.now.entries }
    requires dirs { sorted.now.dirs ≡ [] }
    requires sorted { Ascends (run_cmp []) sorted.now.entries }
    requires alike { found.old.dirs ≡ [] }
    ensures { OnOk result (TookKey at sorted.now.entries found.old found.new) }
{
    if stands_again(sorted, at) {
        return Ok(());
    }
    add_alone(found, sorted.lend(at).key, row)
}

// Whether the key of an entry is that of the next one too.
fn stands_again(sorted: &RunBuilder, at: usize) -> bool
    requires { at < length sorted.now.entries }
    ensures { Decides result (key_at sorted.now at ≡ key_at sorted.now (at + 1)) }
{
    let last = sorted.len() - 1;
    if at == last {
        return false;
    }
    sorted.same_key(at, at + 1)
}

// Adds the key of a code, with itself as its row.
fn add_alone(found: &mut RunBuilder, bytes: &[u8], row: &mut Vec<u8>) -> Result<(), AllocError>
    requires dirs { found.old.dirs ≡ [] }
    requires key { ∥ ((key : Tree) × IsKeyCode bytes.now key) ∥₁ }
    ensures { (key : Tree) → IsKeyCode bytes.now key
        → OnOk result (found.new ≡ and_entries (alone key ∷ []) found.old) }
{
    write_alone(bytes, row)?;
    found.add_lent(Lent {
        key: bytes,
        input: 0,
        row: row.as_slice(),
    })
}

// Writes the code of a row of a key alone, given the key's.
fn write_alone(key: &[u8], row: &mut Vec<u8>) -> Result<(), AllocError>
    ensures { OnOk result (row.new.items ≡ 6 ∷ 1 ∷ (key.now ++ 0 ∷ [])) }
{
    row.clear();
    row.extend_from_slice(&BEFORE_KEY)?;
    row.extend_from_slice(key)?;
    row.extend_from_slice(&BEHIND_KEY)?;
    Ok(())
}
