ghost use Rattle.std.specs.Prelude.{◌≡◌, ◌++◌, [], List, ℕ, OnOk};
ghost use Rattle.pig_value.specs.Trees.{Tree};
ghost use Rattle.pig_value.specs.Valid.{AreRows};

use crate::batch::Batch;
use std::alloc::{AllocError, Global};

/// Something that rows come from, some at a time.
pub trait Source {
    /// The rows that come, where these bytes are handed in later.
    ghost coming: { Self → List ℕ → List (List Tree) };

    /// What stays as it is, however many rows are given.
    ghost Kept: { Type 0 };

    /// What a source has of this.
    ghost kept: { Self → Kept };

    /// No row comes before more bytes are handed in.
    ghost dry: { Self → Type 0 };

    /// Fills a batch with the next rows, and with none only where no row comes before more bytes are handed in.
    fn fill(&mut self, alloc: Global, batch: &mut Batch) -> Result<(), AllocError>
        ensures rows { OnOk result ((later : List ℕ)
            → coming self.old later ≡ batch.new ++ coming self.new later) }
        ensures kept { kept self.new ≡ kept self.old }
        ensures values { OnOk result (AreRows batch.new) }
        ensures dry { OnOk result (batch.new ≡ [] → dry self.new) };
}
