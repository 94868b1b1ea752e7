ghost use Rattle.std.specs.Prelude.{◌≡◌, ◌<◌, ◌≤◌, ◌^◌, ◌++◌, ◌∷◌, [], ◌+◌, ◌-◌, List, Some, slice_get, length, map, drop, OnOk, OnErr, IfOk, IsPermutation};
ghost use Rattle.std.specs.Bool.{Decides};
ghost use Rattle.std.specs.List.{AllByRecursion};
ghost use Rattle.std.specs.Ordering.{ordering_then, nat_cmp};
ghost use Rattle.pig_value.specs.Sorts.{sort};
ghost use Rattle.pig_value.specs.Trees.{Tree, tree, row_tree};
ghost use Rattle.pig_keycode.specs.Codable.{IsCodeOf, IsCodeOfRow};
ghost use Rattle.pig_keycode.specs.Keys.{key_code};
ghost use Rattle.pig_keycode.specs.Reading.{row_code};
ghost use Rattle.pig_value.specs.Orders.{text_cmp};
ghost use Rattle.pig_runs.specs.Fronts.{against, behind_cmp, front_len, fronted_cmp, sided_cmp, side_of, told_len, untold};
ghost use Rattle.pig_runs.specs.Packed.{part, found_at, fronted_at, fronted_entry_cmp, fronted_key, fronted_row, packed_cmp, packed_lent, row_at, row_untold, sided_at, slot_of, moved, untold_len, IsPlaced};

use crate::fronts::{compare_behind, compare_fronts, compare_lens, end_within, front};
use crate::lent::{Lent, compare_lent};
use crate::slots::Slot;
use pig_keycode::{decode, decode_row, encode_key, encode_row};
use pig_value::{Dirs, Seq, Tuple, Value, narrow};
use std::alloc::{AllocError, Global};
use std::cmp::Ordering;

// What stands in the code of a row before its first field.
const BEFORE_FIELD: [u8; 2] = [6, 1];

// The side of the rows whose first field is the key.
const AMONG: u32 = 1;

// So many bytes from a place on.
pub(crate) fn part(bytes: &[u8], at: usize, len: usize) -> &[u8]
    ensures { result.now ≡ part bytes.now at len }
{
    match bytes.get(at..) {
        Some(rest) => match rest.get(..len) {
            Some(part) => part,
            None => rest,
        },
        None => &[],
    }
}

// The bytes from a place on.
fn from_place(bytes: &[u8], at: usize) -> &[u8]
    ensures { result.now ≡ drop at bytes.now }
{
    match bytes.get(at..) {
        Some(rest) => rest,
        None => &[],
    }
}

// The code of a slot's key.
fn key_of<'r>(bytes: &'r [u8], slot: &Slot) -> &'r [u8]
    ensures { result.now ≡ part bytes.now slot.now.at slot.now.key_len }
{
    part(bytes, slot.at, slot.key_len as usize)
}

// The code of a slot's row, which stands right behind that of its key.
fn row_of<'r>(bytes: &'r [u8], slot: &Slot) -> &'r [u8]
    ensures { result.now ≡ part bytes.now (row_at slot.now) slot.now.row_len }
{
    let behind = from_place(bytes, slot.at);
    part(behind, slot.key_len as usize, slot.row_len as usize)
}

// What its side doesn't tell of a slot's row.
fn row_untold<'r>(bytes: &'r [u8], slot: &Slot) -> &'r [u8]
    ensures { result.now ≡ row_untold bytes.now slot.now }
{
    untold(slot.side, slot.key_len, row_of(bytes, slot))
}

// What a side doesn't tell of a row, under a key of so many bytes.
fn untold(side: u32, len: u32, row: &[u8]) -> &[u8]
    ensures { result.now ≡ untold side len row.now }
{
    from_place(row, told_len(side, len))
}

// How many bytes of a row are told by its side and a key of so many.
fn told_len(side: u32, len: u32) -> usize
    ensures { result ≡ told_len side len }
{
    if side == AMONG {
        len as usize + BEFORE_FIELD.len()
    } else {
        0
    }
}

// How many bytes of a slot's row its side doesn't tell.
fn untold_len(slot: &Slot) -> usize
    ensures { result ≡ untold_len slot.now }
{
    (slot.row_len as usize).saturating_sub(told_len(slot.side, slot.key_len))
}

// How two entries in the same bytes stand.
pub(crate) fn compare(bytes: &[u8], a: &Slot, b: &Slot) -> Ordering
    ensures { result ≡ fronted_entry_cmp (fronted_at bytes.now a.now) (fronted_at bytes.now b.now) }
{
    match compare_fronts(a.key_front, b.key_front) {
        Ordering::Equal => compare_alike(bytes, a, bytes, b),
        found => found,
    }
}

// How two entries stand the fronts of whose keys are the same: by what the slots keep, and by the bytes only where that
// doesn't tell.
#[inline(never)]
pub(crate) fn compare_alike(bytes: &[u8], a: &Slot, with: &[u8], b: &Slot) -> Ordering
    ensures { result
        ≡ ordering_then (behind_cmp (fronted_key bytes.now a.now) (fronted_key with.now b.now))
        (ordering_then (nat_cmp a.now.input b.now.input)
        (sided_cmp (sided_at bytes.now a.now) (sided_at with.now b.now))) }
{
    match compare_keys(bytes, a, with, b) {
        Ordering::Equal => compare_rows(bytes, a, with, b),
        found => found,
    }
}

fn compare_keys(bytes: &[u8], a: &Slot, with: &[u8], b: &Slot) -> Ordering
    ensures { result ≡ behind_cmp (fronted_key bytes.now a.now) (fronted_key with.now b.now) }
{
    match compare_lens(a.key_len as usize, b.key_len as usize) {
        Ordering::Equal => compare_key_ends(bytes, a, with, b),
        found => found,
    }
}

fn compare_key_ends(bytes: &[u8], a: &Slot, with: &[u8], b: &Slot) -> Ordering
    ensures { result ≡ text_cmp (drop front_len (part bytes.now a.now.at a.now.key_len))
        (drop front_len (part with.now b.now.at b.now.key_len)) }
{
    if end_within(a.key_len as usize, b.key_len as usize) {
        return Ordering::Equal;
    }
    compare_behind(key_of(bytes, a), key_of(with, b))
}

fn compare_rows(bytes: &[u8], a: &Slot, with: &[u8], b: &Slot) -> Ordering
    ensures { result ≡ ordering_then (nat_cmp a.now.input b.now.input)
        (sided_cmp (sided_at bytes.now a.now) (sided_at with.now b.now)) }
{
    match a.input.cmp(&b.input) {
        Ordering::Equal => compare_sided(bytes, a, with, b),
        found => found,
    }
}

fn compare_sided(bytes: &[u8], a: &Slot, with: &[u8], b: &Slot) -> Ordering
    ensures { result ≡ sided_cmp (sided_at bytes.now a.now) (sided_at with.now b.now) }
{
    match a.side.cmp(&b.side) {
        Ordering::Equal => compare_untold(bytes, a, with, b),
        found => found,
    }
}

fn compare_untold(bytes: &[u8], a: &Slot, with: &[u8], b: &Slot) -> Ordering
    ensures { result ≡ fronted_cmp (fronted_row bytes.now a.now) (fronted_row with.now b.now) }
{
    match compare_fronts(a.row_front, b.row_front) {
        Ordering::Equal => compare_row_lens(bytes, a, with, b),
        found => found,
    }
}

fn compare_row_lens(bytes: &[u8], a: &Slot, with: &[u8], b: &Slot) -> Ordering
    ensures { result ≡ behind_cmp (fronted_row bytes.now a.now) (fronted_row with.now b.now) }
{
    match compare_lens(untold_len(a), untold_len(b)) {
        Ordering::Equal => compare_row_ends(bytes, a, with, b),
        found => found,
    }
}

fn compare_row_ends(bytes: &[u8], a: &Slot, with: &[u8], b: &Slot) -> Ordering
    ensures { result ≡ text_cmp (drop front_len (row_untold bytes.now a.now))
        (drop front_len (row_untold with.now b.now)) }
{
    if end_within(untold_len(a), untold_len(b)) {
        return Ordering::Equal;
    }
    compare_behind(row_untold(bytes, a), row_untold(with, b))
}

// On which side a row stands of those whose first field is the key.
fn side_of(key: &[u8], row: &[u8]) -> u32
    ensures { result ≡ side_of key.now row.now }
{
    match against(key, row) {
        Ordering::Less => 0,
        Ordering::Equal => AMONG,
        Ordering::Greater => 2,
    }
}

fn against(key: &[u8], row: &[u8]) -> Ordering
    ensures { result ≡ against key.now row.now }
{
    match part(row, 0, 2).cmp(BEFORE_FIELD.as_slice()) {
        Ordering::Equal => part(row, 2, key.len()).cmp(key),
        found => found,
    }
}

// Adds the slot of an entry whose codes begin at a place.
fn push_slot(
    at: usize,
    key: &[u8],
    row: &[u8],
    input: u32,
    slots: &mut Vec<Slot>,
) -> Result<(), AllocError>
    ensures ok { OnOk result (slots.new.items
        ≡ slots.old.items ++ slot_of at key.now row.now input ∷ []) }
    ensures err { OnErr result (slots.new.items ≡ slots.old.items) }
{
    let key_len = narrow(key.len())?;
    let row_len = narrow(row.len())?;
    let side = side_of(key, row);
    slots.push(Slot {
        key_front: front(key),
        row_front: front(untold(side, key_len, row)),
        side,
        at,
        key_len,
        row_len,
        input,
    })?;
    Ok(())
}

// Adds the slot of an entry whose codes end the bytes, that of its row from the second place on.
fn push_last(
    bytes: &[u8],
    at: usize,
    middle: usize,
    input: u32,
    slots: &mut Vec<Slot>,
) -> Result<(), AllocError>
    requires { at ≤ middle }
    ensures ok { OnOk result (slots.new.items
        ≡ slots.old.items ++ slot_of at (part bytes.now at (middle - at))
        (drop middle bytes.now) input ∷ []) }
    ensures err { OnErr result (slots.new.items ≡ slots.old.items) }
{
    let key = part(bytes, at, middle - at);
    push_slot(at, key, from_place(bytes, middle), input, slots)
}

// Appends the codes of an entry, and says where that of its row begins.
//
// Where memory is wanting, the bytes stay as they were.
fn write_codes(
    dirs: &Dirs,
    bytes: &mut Vec<u8>,
    key: &Value,
    row: &Tuple,
) -> Result<usize, AllocError>
    ensures bytes { OnOk result (bytes.new.items
        ≡ bytes.old.items ++ (key_code dirs.now (tree key.now) ++ row_code (row_tree row.now))) }
    ensures place { IfOk result (λ middle. middle
        ≡ length bytes.old.items + length (key_code dirs.now (tree key.now))) }
    ensures err { OnErr result (bytes.new.items ≡ bytes.old.items) }
{
    let at = bytes.len();
    encode_key(key, dirs, bytes)?;
    let middle = bytes.len();
    match encode_row(row, bytes) {
        Ok(()) => Ok(middle),
        Err(fault) => {
            bytes.truncate(at);
            Err(fault)
        }
    }
}

// Appends an entry and its slot. Where memory is wanting, both stay as they were.
pub(crate) fn add_entry(
    dirs: &Dirs,
    bytes: &mut Vec<u8>,
    slots: &mut Vec<Slot>,
    key: &Value,
    input: u32,
    row: &Tuple,
) -> Result<(), AllocError>
    ensures bytes { OnOk result (bytes.new.items
        ≡ bytes.old.items ++ (key_code dirs.now (tree key.now) ++ row_code (row_tree row.now))) }
    ensures slots { OnOk result (slots.new.items
        ≡ slots.old.items ++ slot_of (length bytes.old.items) (key_code dirs.now (tree key.now))
        (row_code (row_tree row.now)) input ∷ []) }
    ensures err_bytes { OnErr result (bytes.new.items ≡ bytes.old.items) }
    ensures err_slots { OnErr result (slots.new.items ≡ slots.old.items) }
{
    let start = bytes.len();
    let middle = write_codes(dirs, bytes, key, row)?;
    match push_last(bytes.as_slice(), start, middle, input, slots) {
        Ok(()) => Ok(()),
        Err(fault) => {
            bytes.truncate(start);
            Err(fault)
        }
    }
}

// Sorts slots by their entries.
pub(crate) fn sort_slots(bytes: &[u8], slots: &mut Vec<Slot>)
    requires { AllByRecursion (IsPlaced bytes.now) slots.old.items }
    ensures order { map (found_at bytes.now) slots.new.items
        ≡ sort packed_cmp (map (found_at bytes.now) slots.old.items) }
    ensures same { IsPermutation slots.old.items slots.new.items }
{
    slots.sort_unstable_by(|a, b| compare(bytes, a, b));
}

pub(crate) fn slot_at(slots: &[Slot], at: usize) -> Slot
    requires { at < length slots.now }
    ensures { slice_get slots.now at ≡ Some result }
{
    slots[at]
}

// The row of a slot.
pub(crate) fn read_row(alloc: Global, bytes: &[u8], slot: Slot) -> Result<Tuple, AllocError>
    ensures { (row : List Tree) → IsCodeOfRow (part bytes.now (row_at slot) slot.row_len) row
        → IfOk result (λ found. row_tree found ≡ row) }
{
    match decode_row(alloc, row_of(bytes, &slot)) {
        Ok(Some(row)) => Ok(row),
        Ok(None) => Ok(Seq::new(alloc)),
        Err(fault) => Err(fault),
    }
}

// The key of a slot.
pub(crate) fn read_key(alloc: Global, bytes: &[u8], slot: Slot) -> Result<Value, AllocError>
    ensures { (key : Tree) → IsCodeOf (part bytes.now slot.at slot.key_len) key
        → IfOk result (λ found. tree found ≡ key) }
{
    match decode(alloc, key_of(bytes, &slot)) {
        Ok(Some(key)) => Ok(key),
        Ok(None) => Ok(Value::Null),
        Err(fault) => Err(fault),
    }
}

// A slot whose bytes are moved behind others.
fn moved(slot: Slot, base: usize) -> Slot
    requires { base + slot.at < 2 ^ 64 }
    ensures { result ≡ moved base slot }
{
    Slot {
        at: base + slot.at,
        ..slot
    }
}

// Slots whose bytes are moved behind others, which then end at a place.
fn all_moved(
    alloc: Global,
    slots: &[Slot],
    base: usize,
    end: usize,
) -> Result<Vec<Slot>, AllocError>
    requires { AllByRecursion (λ s. base + s.at ≤ end) slots.now }
    ensures { IfOk result (λ all. all.items ≡ map (moved base) slots.now) }
{
    let mut all = Vec::with_capacity(alloc, slots.len())?;
    for slot in slots {
        all.push(moved(*slot, base))?;
    }
    Ok(all)
}

fn extend_bytes(bytes: &mut Vec<u8>, more: &[u8]) -> Result<(), AllocError>
    ensures ok { OnOk result (bytes.new.items ≡ bytes.old.items ++ more.now) }
    ensures err { OnErr result (bytes.new.items ≡ bytes.old.items) }
{
    bytes.extend_from_slice(more)?;
    Ok(())
}

fn extend_slots(slots: &mut Vec<Slot>, more: &[Slot]) -> Result<(), AllocError>
    ensures ok { OnOk result (slots.new.items ≡ slots.old.items ++ more.now) }
    ensures err { OnErr result (slots.new.items ≡ slots.old.items) }
{
    slots.extend_from_slice(more)?;
    Ok(())
}

// Appends the bytes of other entries, and their slots. Where memory is wanting, both stay as they were.
fn append_entries(
    bytes: &mut Vec<u8>,
    slots: &mut Vec<Slot>,
    more: &[u8],
    more_slots: &[Slot],
) -> Result<(), AllocError>
    requires { AllByRecursion (IsPlaced more.now) more_slots.now }
    ensures bytes { OnOk result (bytes.new.items ≡ bytes.old.items ++ more.now) }
    ensures slots { OnOk result (slots.new.items
        ≡ slots.old.items ++ map (moved (length bytes.old.items)) more_slots.now) }
    ensures err_bytes { OnErr result (bytes.new.items ≡ bytes.old.items) }
    ensures err_slots { OnErr result (slots.new.items ≡ slots.old.items) }
{
    let base = bytes.len();
    extend_bytes(bytes, more)?;
    match push_moved(slots, more_slots, base, bytes.len()) {
        Ok(()) => Ok(()),
        Err(fault) => {
            bytes.truncate(base);
            Err(fault)
        }
    }
}

fn push_moved(
    slots: &mut Vec<Slot>,
    more: &[Slot],
    base: usize,
    end: usize,
) -> Result<(), AllocError>
    requires { AllByRecursion (λ s. base + s.at ≤ end) more.now }
    ensures ok { OnOk result (slots.new.items ≡ slots.old.items ++ map (moved base) more.now) }
    ensures err { OnErr result (slots.new.items ≡ slots.old.items) }
{
    let alloc = *slots.allocator();
    let more = all_moved(alloc, more, base, end)?;
    extend_slots(slots, more.as_slice())
}

// Adds bytes to others, and a list of the slots that find there what they found.
pub(crate) fn join_slots(
    alloc: Global,
    bytes: &mut Vec<u8>,
    lists: &mut Vec<Vec<Slot>>,
    more: &[u8],
    slots: &[Slot],
) -> Result<(), AllocError>
    requires { AllByRecursion (IsPlaced more.now) slots.now }
    ensures bytes { OnOk result (bytes.new.items ≡ bytes.old.items ++ more.now) }
    ensures lists { OnOk result (map (λ list. list.items) lists.new.items
        ≡ map (λ list. list.items) lists.old.items
        ++ map (moved (length bytes.old.items)) slots.now ∷ []) }
{
    let mut list = Vec::new(alloc);
    append_entries(bytes, &mut list, more, slots)?;
    lists.push(list)?;
    Ok(())
}

// Whether the keys of two slots have the same bytes.
pub(crate) fn same_key_bytes(bytes: &[u8], a: Slot, b: Slot) -> bool
    ensures { Decides result (part bytes.now a.at a.key_len ≡ part bytes.now b.at b.key_len) }
{
    key_of(bytes, &a) == key_of(bytes, &b)
}

// What a slot finds.
pub(crate) fn lend(bytes: &[u8], slot: Slot) -> Lent<'_>
    ensures { packed_lent result ≡ found_at bytes.now slot }
{
    Lent {
        key: key_of(bytes, &slot),
        input: slot.input,
        row: row_of(bytes, &slot),
    }
}

// Adds what slots find to a list. Where memory is wanting, a part of it may stand there.
pub(crate) fn lend_slots<'r>(
    bytes: &'r [u8],
    slots: &[Slot],
    all: &mut Vec<Lent<'r>>,
) -> Result<(), AllocError>
    ensures { OnOk result (map packed_lent all.new.items
        ≡ map packed_lent all.old.items ++ map (found_at bytes.now) slots.now) }
{
    for slot in slots {
        all.push(lend(bytes, *slot))?;
    }
    Ok(())
}

// Sorts entries that are lent.
pub(crate) fn sort_lent(all: &mut Vec<Lent>)
    ensures { map packed_lent all.new.items ≡ sort packed_cmp (map packed_lent all.old.items) }
{
    all.sort_unstable_by(|a, b| compare_lent(a, b));
}

// Appends the bytes of an entry that is lent. Where memory is wanting, the bytes stay as they were.
fn write_lent(bytes: &mut Vec<u8>, lent: Lent) -> Result<(), AllocError>
    ensures ok { OnOk result (bytes.new.items
        ≡ bytes.old.items ++ (lent.entry.key.now ++ lent.entry.row.now)) }
    ensures err { OnErr result (bytes.new.items ≡ bytes.old.items) }
{
    let start = bytes.len();
    extend_bytes(bytes, lent.key)?;
    match extend_bytes(bytes, lent.row) {
        Ok(()) => Ok(()),
        Err(fault) => {
            bytes.truncate(start);
            Err(fault)
        }
    }
}

// Appends an entry that is lent, and its slot. Where memory is wanting, both stay as they were.
pub(crate) fn add_lent(
    bytes: &mut Vec<u8>,
    slots: &mut Vec<Slot>,
    lent: Lent,
) -> Result<(), AllocError>
    ensures bytes { OnOk result (bytes.new.items
        ≡ bytes.old.items ++ (lent.entry.key.now ++ lent.entry.row.now)) }
    ensures slots { OnOk result (slots.new.items ≡ slots.old.items ++ slot_of
        (length bytes.old.items) lent.entry.key.now lent.entry.row.now lent.entry.input ∷ []) }
    ensures err_bytes { OnErr result (bytes.new.items ≡ bytes.old.items) }
    ensures err_slots { OnErr result (slots.new.items ≡ slots.old.items) }
{
    let start = bytes.len();
    write_lent(bytes, lent)?;
    match push_slot(start, lent.key, lent.row, lent.input, slots) {
        Ok(()) => Ok(()),
        Err(fault) => {
            bytes.truncate(start);
            Err(fault)
        }
    }
}
