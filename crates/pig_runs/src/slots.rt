ghost use Rattle.std.specs.Prelude.{◌≡◌};
ghost use Rattle.pig_runs.specs.InTurn.{codes_len};

// The front of a text: its first sixteen bytes as two numbers of eight, where those that are missing are 0.
#[derive(Debug, Clone, Copy, Drop)]
pub(crate) struct Front {
    pub(crate) high: u64,
    pub(crate) low: u64,
}

// Where an entry stands in the bytes of its run: the code of its key, and right behind it that of
// its row.
#[derive(Debug, Clone, Copy, Drop)]
pub(crate) struct Slot {
    // The front of the code of its key, and of its row that of what its side doesn't tell.
    pub(crate) key_front: Front,
    pub(crate) row_front: Front,
    // On which side its row stands of those whose first field is the key.
    pub(crate) side: u32,
    // The place of the code of its key.
    pub(crate) at: usize,
    // The lengths of both codes.
    pub(crate) key_len: u32,
    pub(crate) row_len: u32,
    pub(crate) input: u32,
}

impl Slot {
    // How many bytes both codes take.
    pub(crate) fn len(&self) -> usize
        ensures { result ≡ codes_len self.now }
    {
        self.key_len as usize + self.row_len as usize
    }
}
