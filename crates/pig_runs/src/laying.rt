ghost use Rattle.std.specs.Prelude.{◌≡◌, ◌<◌, ◌≤◌, ◌^◌, ◌+◌, ◌++◌, length, map, take, drop, true, IfOk};
ghost use Rattle.std.specs.List.{AllByRecursion, flat_map, list_all};
ghost use Rattle.pig_value.specs.Sorts.{sort};
ghost use Rattle.pig_runs.specs.InTurn.{AreLaid, all_put, behind, behind_all, codes_at, codes_within, put_within, spares};
ghost use Rattle.pig_runs.specs.Packed.{found_at, packed_cmp, IsPlaced};

use crate::blocks::Block;
use crate::packing::{part, sort_slots};
use crate::slots::Slot;
use std::alloc::{AllocError, Global};

// More bytes than these stay where they are, since each block wants a look at all slots.
const MOST_LAID: usize = 1 << 27;

// The least bytes of a block but the last. A copy of one block is made at a time.
const BLOCK: usize = 1 << 24;

// Sorts slots by their entries, and lays the codes of these out in that order.
//
// Entries that are read in turn then stand side by side within a block.
pub(crate) fn sort_laid(bytes: &mut Vec<u8>, slots: &mut Vec<Slot>)
    requires { AllByRecursion (IsPlaced bytes.old.items) slots.old.items }
    ensures order { map (found_at bytes.new.items) slots.new.items
        ≡ sort packed_cmp (map (found_at bytes.old.items) slots.old.items) }
    ensures placed { AllByRecursion (IsPlaced bytes.new.items) slots.new.items }
{
    let ends = block_ends(*bytes.allocator(), slots.as_slice(), bytes.len());
    sort_slots(bytes.as_slice(), slots);
    if let Ok(ends) = ends {
        lay_out(bytes, slots, ends.as_slice());
    }
}

// Where blocks of the codes of slots end, which stand in the order of these codes.
//
// Only speed hangs on where.
fn block_ends(alloc: Global, slots: &[Slot], len: usize) -> Result<Vec<usize>, AllocError> {
    let mut ends = Vec::new(alloc);
    let mut begin = 0;
    if len <= MOST_LAID {
        for slot in slots {
            if slot.at.saturating_sub(begin) >= BLOCK {
                begin = slot.at;
                ends.push(begin)?;
            }
        }
        ends.push(len)?;
    }
    Ok(ends)
}

// Lays the codes of entries out in the order of their slots, block by block. What the slots find stays.
fn lay_out(bytes: &mut Vec<u8>, slots: &mut Vec<Slot>, ends: &[usize])
    requires { AllByRecursion (IsPlaced bytes.old.items) slots.old.items }
    ensures found { map (found_at bytes.new.items) slots.new.items
        ≡ map (found_at bytes.old.items) slots.old.items }
    ensures placed { AllByRecursion (IsPlaced bytes.new.items) slots.new.items }
{
    let mut begin = 0;
    for end in ends {
        lay_block(bytes, slots, Block { begin, end: *end });
        begin = *end;
    }
}

// Lays the codes of a block out, where there is memory for a copy and no entry is cut in two.
fn lay_block(bytes: &mut Vec<u8>, slots: &mut Vec<Slot>, block: Block)
    requires { AllByRecursion (IsPlaced bytes.old.items) slots.old.items }
    ensures { AreLaid bytes.old.items bytes.new.items slots.old.items slots.new.items }
{
    let alloc = *bytes.allocator();
    if block.begin <= block.end
        && block.end <= bytes.len()
        && all_spared(slots.as_slice(), block)
        && let Ok(laid) = codes_in_turn(alloc, bytes.as_slice(), slots.as_slice(), block)
        && laid.len() == block.end - block.begin
    {
        put_in_turn(slots, block);
        put_bytes(bytes, block.begin, laid.as_slice());
    }
}

// Whether a block cuts the codes of no slot in two.
fn all_spared(slots: &[Slot], block: Block) -> bool
    ensures { result ≡ list_all (spares block) slots.now }
{
    slots.iter().all(|slot| block.spares(slot))
}

// The codes within a block, in the order of their slots.
fn codes_in_turn(
    alloc: Global,
    bytes: &[u8],
    slots: &[Slot],
    block: Block,
) -> Result<Vec<u8>, AllocError>
    ensures { IfOk result (λ laid. laid.items ≡ flat_map (codes_within bytes.now block) slots.now) }
{
    let mut laid = Vec::with_capacity(alloc, block.end.saturating_sub(block.begin))?;
    for slot in slots {
        laid.extend_from_slice(codes_within(bytes, block, slot))?;
    }
    Ok(laid)
}

// The codes of a slot's key and row, where they stand within a block.
fn codes_within<'r>(bytes: &'r [u8], block: Block, slot: &Slot) -> &'r [u8]
    ensures { result.now ≡ codes_within bytes.now block slot.now }
{
    if block.has(slot) {
        part(bytes, slot.at, slot.len())
    } else {
        &[]
    }
}

// Sets the places of the slots within a block so that their codes stand one behind another and fill it.
fn put_in_turn(slots: &mut Vec<Slot>, block: Block)
    requires { behind_all block block.begin slots.old.items ≡ block.end }
    ensures { slots.new.items ≡ all_put block block.begin slots.old.items }
{
    let mut at = block.begin;
    for slot in slots.iter_mut() {
        at = put_within(slot, block, at);
    }
}

// Sets the place of a slot that is within a block, and says which place is behind.
fn put_within(slot: &mut Slot, block: Block, at: usize) -> usize
    requires { behind block at slot.old < 2 ^ 64 }
    ensures slot { slot.new ≡ put_within block at slot.old }
    ensures behind { result ≡ behind block at slot.old }
{
    if block.has(slot) {
        slot.at = at;
        at + slot.len()
    } else {
        at
    }
}

// Puts bytes over as many, from a place on.
fn put_bytes(bytes: &mut Vec<u8>, begin: usize, laid: &[u8])
    requires { begin + length laid.now ≤ length bytes.old.items }
    ensures { bytes.new.items ≡ take begin bytes.old.items
        ++ (laid.now ++ drop (begin + length laid.now) bytes.old.items) }
{
    bytes.as_mut_slice()[begin..begin + laid.len()].copy_from_slice(laid);
}
