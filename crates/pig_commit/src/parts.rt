//! What is stored, and why it isn't.
ghost use Rattle.std.specs.Prelude.{◌≡◌};
ghost use Rattle.pig_commit.specs.Committed.{fault_of};

use pig_outside::OutsideError;
use pig_value::{Blobs, Seq, Text};
use thiserror::Error;

/// What is to stand in the directory of a STORE: its parts in order, each whole.
#[derive(Drop)]
pub struct StorePart {
    pub statement: u32,
    pub dir: Text,
    pub parts: Blobs,
}

/// One for each STORE.
pub type StoreParts = Seq<StorePart>;

/// Why not all is stored.
#[derive(Debug, Drop, Error)]
pub enum CommitFault {
    /// The depot failed at the STORE of this statement.
    #[error("a directory could not be made")]
    Store { statement: u32 },
    #[error("out of memory")]
    OutOfMemory,
}

// The fault that an error of the depot is, at the STORE of a statement.
pub fn commit_fault(error: OutsideError, statement: u32) -> CommitFault
    ensures { result ≡ fault_of statement error }
{
    match error {
        OutsideError::Failed => CommitFault::Store { statement },
        OutsideError::OutOfMemory => CommitFault::OutOfMemory,
    }
}
