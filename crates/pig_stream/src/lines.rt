ghost use Rattle.std.specs.Prelude.{◌≡◌, ◌++◌, [], Bool, ℕ, List, OnOk};
ghost use Rattle.pig_value.specs.declared.inputs.Column.{Column};
ghost use Rattle.pig_stream.specs.Ranges.{IsDry, lines_coming, rows_of_lines};

use crate::batch::Batch;
use crate::source::Source;
use crate::window::Window;
use pig_value::{Columns, Delim};
use std::alloc::{AllocError, Global};

/// The rows of the lines of a range of bytes, which are handed in to the window block by block.
#[derive(Drop)]
pub struct Lines<'p> {
    pub window: Window,
    pub delim: Delim,
    pub columns: &'p Columns,
}

impl Source for Lines<'_> {
    ghost coming = { λ s later. rows_of_lines s.columns.now s.delim (lines_coming s.window later) };

    ghost Kept = { Bool × ℕ × List Column };

    ghost kept = { λ s. (s.window.ended, s.delim, s.columns.now) };

    ghost dry = { λ s. IsDry s.window };

    fn fill(&mut self, alloc: Global, batch: &mut Batch) -> Result<(), AllocError> {
        self.window.fill(alloc, self.delim, self.columns, batch)
    }
}
