ghost use Rattle.std.specs.Prelude.{◌≡◌, ◌++◌, [], OnOk};
ghost use Rattle.pig_value.specs.Texts.{rows_text};
ghost use Rattle.pig_value.specs.Trees.{rows_tree};
ghost use Rattle.pig_stream.specs.Taking.{HasText, text_nothing, text_onwards};

use crate::sink::Sink;
use pig_storage::write_row;
use pig_value::{Delim, Tuple};
use std::alloc::{AllocError, Global};

/// Text that takes rows as the lines of a STORE: their fields' texts with the delimiter between each two, and an LF.
#[derive(Drop)]
pub struct StoredText {
    pub bytes: Vec<u8>,
    pub delim: Delim,
}

impl StoredText {
    /// No line, which takes no memory.
    pub fn new(alloc: Global, delim: Delim) -> StoredText
        ensures bytes { result.bytes.items ≡ [] }
        ensures delim { result.delim ≡ delim }
    {
        StoredText {
            bytes: Vec::new(alloc),
            delim,
        }
    }
}

impl Sink for StoredText {
    ghost after = { λ a rows b. HasText a.bytes.items a.delim rows b.bytes.items b.delim };

    ghost nothing = { λ a. text_nothing a.bytes.items a.delim };

    ghost onwards = { λ a b c xs ys h k. text_onwards a.bytes.items b.bytes.items c.bytes.items a.delim b.delim c.delim xs ys h k };

    fn take(&mut self, _alloc: Global, rows: &[Tuple]) -> Result<(), AllocError> {
        for row in rows {
            write_row(row, self.delim, &mut self.bytes)?;
        }
        Ok(())
    }

    fn has_enough(&self) -> bool {
        false
    }
}
