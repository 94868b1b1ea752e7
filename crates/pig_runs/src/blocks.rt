ghost use Rattle.std.specs.Prelude.{◌≡◌};
ghost use Rattle.pig_runs.specs.InTurn.{is_apart, is_within, spares};

use crate::slots::Slot;

// A run of bytes, from a place up to another.
#[derive(Debug, Clone, Copy, Drop)]
pub(crate) struct Block {
    pub(crate) begin: usize,
    pub(crate) end: usize,
}

impl Block {
    // Whether the codes of a slot stand within the block.
    pub(crate) fn has(self, slot: &Slot) -> bool
        ensures { result ≡ is_within self slot.now }
    {
        self.begin <= slot.at && slot.at <= self.end && slot.len() <= self.end - slot.at
    }

    // Whether they stand before it or behind it.
    fn is_apart(self, slot: &Slot) -> bool
        ensures { result ≡ is_apart self slot.now }
    {
        self.end <= slot.at || slot.at <= self.begin && slot.len() <= self.begin - slot.at
    }

    // Whether it cuts no codes of a slot in two.
    pub(crate) fn spares(self, slot: &Slot) -> bool
        ensures { result ≡ spares self slot.now }
    {
        self.has(slot) || self.is_apart(slot)
    }
}
