ghost use Rattle.std.specs.Prelude.{◌≡◌, drop, take, slice_get, IfOk};
ghost use Rattle.pig_runs.specs.Packed.{fronted_entry_cmp, packed_lent};
ghost use Rattle.pig_runs.specs.Places.{bytes_of, found_place, fronted_head, lists_of_heads, slot_of, slots_in};

use crate::fronts::compare_fronts;
use crate::heads::Heads;
use crate::lent::Lent;
use crate::packing::{compare_alike, lend};
use crate::slots::{Front, Slot};
use pig_value::narrow;
use std::alloc::{AllocError, Global};
use std::cmp::Ordering;

// A part of a run: its slots, which stand in the bytes of the run.
#[derive(Debug, Clone, Copy, Drop)]
pub(crate) struct Stretch<'r> {
    pub(crate) bytes: &'r [u8],
    pub(crate) slots: &'r [Slot],
}

// The place of an entry: the number of its stretch, and that of its slot there.
#[derive(Debug, Clone, Copy, Drop)]
pub(crate) struct Place {
    pub(crate) stretch: u32,
    pub(crate) slot: u32,
}

// A slot with its place, as a merge compares it: a copy, so that fronts are looked at nowhere else.
#[derive(Debug, Clone, Copy, Drop)]
pub(crate) struct Head {
    pub(crate) slot: Slot,
    pub(crate) place: Place,
}

// What a place shows that is none.
static NO_SLOT: Slot = Slot {
    key_front: Front { high: 0, low: 0 },
    row_front: Front { high: 0, low: 0 },
    side: 0,
    at: 0,
    key_len: 0,
    row_len: 0,
    input: 0,
};

// The slots from a place on, up to another, where there are any.
pub(crate) fn slots_between(slots: &[Slot], from: usize, end: usize) -> &[Slot]
    ensures { result.now ≡ drop from (take end slots.now) }
{
    let front = match slots.get(..end) {
        Some(front) => front,
        None => slots,
    };
    match front.get(from..) {
        Some(rest) => rest,
        None => &[],
    }
}

// The bytes in which the slot of a place stands.
fn bytes_of<'r>(stretches: &[Stretch<'r>], place: Place) -> &'r [u8]
    ensures { result.now ≡ bytes_of stretches.now place }
{
    match stretches.get(place.stretch as usize) {
        Some(stretch) => stretch.bytes,
        None => &[],
    }
}

fn slot_of<'r>(stretches: &[Stretch<'r>], place: Place) -> &'r Slot
    ensures { result.now ≡ slot_of stretches.now place }
{
    match stretches.get(place.stretch as usize) {
        Some(stretch) => match stretch.slots.get(place.slot as usize) {
            Some(slot) => slot,
            None => &NO_SLOT,
        },
        None => &NO_SLOT,
    }
}

// What a place finds.
pub(crate) fn lend_place<'r>(stretches: &[Stretch<'r>], place: Place) -> Lent<'r>
    ensures { packed_lent result ≡ found_place stretches.now place }
{
    lend(bytes_of(stretches, place), *slot_of(stretches, place))
}

// How the entries of two heads stand: by the fronts of their keys alone, where these tell.
#[inline]
pub(crate) fn compare_heads(stretches: &[Stretch], a: &Head, b: &Head) -> Ordering
    ensures { result ≡ fronted_entry_cmp (fronted_head stretches.now a.now)
        (fronted_head stretches.now b.now) }
{
    match compare_fronts(a.slot.key_front, b.slot.key_front) {
        Ordering::Equal => {
            let bytes = bytes_of(stretches, a.place);
            let with = bytes_of(stretches, b.place);
            compare_alike(bytes, &a.slot, with, &b.slot)
        }
        found => found,
    }
}

// The slots of a stretch.
fn slots_in<'r>(stretches: &[Stretch<'r>], stretch: u32) -> &'r [Slot]
    ensures { result.now ≡ slots_in (slice_get stretches.now stretch) }
{
    match stretches.get(stretch as usize) {
        Some(stretch) => stretch.slots,
        None => &[],
    }
}

// The heads of each stretch.
pub(crate) fn lists_of_heads<'r>(
    alloc: Global,
    stretches: &[Stretch<'r>],
) -> Result<Vec<Heads<'r>>, AllocError>
    ensures { IfOk result (λ lists. lists.items ≡ lists_of_heads stretches.now) }
{
    let count = narrow(stretches.len())?;
    let mut lists = Vec::new(alloc);
    for stretch in 0..count {
        lists.push(Heads::new(stretch, slots_in(stretches, stretch))?)?;
    }
    Ok(lists)
}
