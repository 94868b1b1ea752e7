ghost use Rattle.pig_run.specs.Running.{IsFresh};

use crate::Waves;
use pig_value::{KeptList, Seq, Text};
use std::alloc::Global;

// A directory that is to be made, and the number of its lines.
#[derive(Drop)]
pub struct Noted {
    pub dir: Text,
    pub lines: u64,
}

// Directories that are to be made, in order.
pub type Notes = Seq<Noted>;

// How far a run has come, which stands whatever ends it.
#[derive(Drop)]
pub struct Progress {
    // What the bare LIMITs kept.
    pub kept: KeptList,
    // Whether what they kept is shown: the making of directories was begun, or an ASSERT failed.
    pub stands: bool,
    // The number of lines that were read, modulo 2 to the 64.
    pub read: u64,
    // The number of entries that map tasks handed on, modulo 2 to the 64.
    pub shuffled: u64,
    // The waves that ended.
    pub ends: Waves,
    // The directories that are to be made, each with its number of lines.
    pub notes: Notes,
    // What is said behind the line of a fault.
    pub said: Vec<u8>,
}

impl Progress {
    // Nothing was done yet.
    pub fn new(alloc: Global) -> Progress
        ensures { IsFresh result }
    {
        Progress {
            kept: KeptList::new(alloc),
            stands: false,
            read: 0,
            shuffled: 0,
            ends: Waves::new(alloc),
            notes: Notes::new(alloc),
            said: Vec::new(alloc),
        }
    }
}
