use crate::{Rows, Seq};

/// The rows that a bare LIMIT kept, by the number of its statement.
#[derive(Debug, Drop)]
pub struct Kept {
    pub statement: u32,
    pub rows: Rows,
}

/// What each bare LIMIT kept, by statement number.
pub type KeptList = Seq<Kept>;

/// Why words are no command.
#[derive(Debug, Drop)]
pub enum WordFault {
    Usage,
    OutOfMemory,
}
