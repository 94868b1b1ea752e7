ghost use Rattle.std.specs.Prelude.{◌≡◌, IfOk};
ghost use Rattle.std.specs.Iterator.{YieldsFirst, item_count};
ghost use Rattle.pig_runs.specs.Places.{heads_from};

use crate::slots::Slot;
use crate::stretches::{Head, Place};
use std::alloc::AllocError;
use std::marker::Model;

// The slots of a stretch with their places. Each is made as it is asked for.
//
// Contracts see those that are still to come.
#[derive(Debug, Drop)]
pub(crate) struct Heads<'r> {
    slots: &'r [Slot],
    stretch: u32,
    // The number of the first of the slots.
    slot: u32,
}

impl<'r> Model for Heads<'r> {
    ghost use Rattle.std.specs.Prelude.{◌<◌, ◌+◌, ◌^◌, List, length};
    ghost use Rattle.pig_runs.specs.Places.{heads_from};
    ghost use Rattle.pig_runs.specs.declared.stretches.Head.{Head};

    ghost Value = { List Head };

    ghost view = { λ h. heads_from h.stretch h.slot h.slots.now };

    ghost invariant = { λ h. h.slot + length h.slots.now < 2 ^ 32 };
}

impl<'r> Heads<'r> {
    // All slots are still to come. For more than fit a place there is no memory.
    pub(crate) fn new(stretch: u32, slots: &'r [Slot]) -> Result<Heads<'r>, AllocError>
        ensures { IfOk result (λ heads. heads ≡ heads_from stretch 0 slots.now) }
    {
        if slots.len() > u32::MAX as usize {
            return Err(AllocError);
        }
        Ok(Heads {
            slots,
            stretch,
            slot: 0,
        })
    }
}

impl<'r> Iterator for Heads<'r> {
    type Item = Head;

    ghost next_gives = { YieldsFirst (λ heads. heads) };

    ghost remaining = { item_count (λ heads. heads) };

    fn next(&mut self) -> Option<Head> {
        match self.slots {
            [slot, rest @ ..] => {
                let place = Place {
                    stretch: self.stretch,
                    slot: self.slot,
                };
                self.slots = rest;
                self.slot += 1;
                Some(Head { slot: *slot, place })
            }
            [] => None,
        }
    }
}
