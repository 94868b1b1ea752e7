ghost use Rattle.std.specs.Prelude.{◌≡◌, ◌++◌, [], ◌∷◌, map, IfOk, IfSome, IsNone};
ghost use Rattle.std.specs.List.{flat_map};
ghost use Rattle.pig_value.specs.FieldRows.{row_of};
ghost use Rattle.pig_value.specs.Lines.{lines};
ghost use Rattle.pig_value.specs.Trees.{rows_tree};
ghost use Rattle.pig_plain.specs.Coming.{lines_left, rows_left};

use pig_operators::{Gatherer, Orderer};
use pig_storage::{line_row, next_line};
use pig_value::{Blob, Columns, Delim, Rows};
use std::alloc::{AllocError, Global};

// So many lines are read at once.
const BATCH_LINES: usize = 256;

// The lines of pieces that are not read yet, and the columns at which they are rows.
#[derive(Drop)]
pub struct Lines<'p> {
    /// What is left of the piece that is read.
    piece: &'p [u8],
    /// The pieces behind it.
    pieces: &'p [Blob],
    delim: Delim,
    columns: &'p Columns,
}

impl<'p> Lines<'p> {
    pub fn of(pieces: &'p [Blob], delim: Delim, columns: &'p Columns) -> Lines<'p>
        ensures { rows_left result
            ≡ map (row_of columns.now delim) (flat_map lines pieces.now) }
    {
        Lines {
            piece: &[],
            pieces,
            delim,
            columns,
        }
    }

    // The next line, and none where all are read.
    fn next(&mut self) -> Option<&'p [u8]>
        ensures line { IfSome result (λ line. lines_left self.old
            ≡ line.now ∷ lines_left self.new) }
        ensures none { IsNone result → lines_left self.old ≡ [] }
        ensures end { IsNone result → lines_left self.new ≡ [] }
        ensures delim { self.new.delim ≡ self.old.delim }
        ensures columns { self.new.columns ≡ self.old.columns }
    {
        'pieces: loop {
            let piece = self.piece;
            if let Some(span) = next_line(piece, 0) {
                self.piece = &piece[span.next..];
                return Some(&piece[span.from..span.to]);
            }
            match self.pieces {
                [first, rest @ ..] => {
                    self.piece = first.as_slice();
                    self.pieces = rest;
                }
                [] => return None,
            }
        }
    }

    // The rows of the next lines, and none only where all are read.
    pub fn next_rows(&mut self, alloc: Global) -> Result<Rows, AllocError>
        ensures rows { IfOk result (λ rows. rows_left self.old
            ≡ rows_tree rows ++ rows_left self.new) }
        ensures end { IfOk result (λ rows. rows_tree rows ≡ [] → rows_left self.new ≡ []) }
    {
        let mut rows = Rows::with_capacity(alloc, BATCH_LINES)?;
        'lines: while rows.len() < BATCH_LINES {
            match self.next() {
                Some(line) => rows.push(line_row(alloc, line, self.delim, self.columns)?)?,
                None => return Ok(rows),
            }
        }
        Ok(rows)
    }
}

// Where rows come from.
pub enum Source<'p> {
    /// Lines that are not read yet.
    Read(Lines<'p>),
    /// The groups of a run.
    Groups(Gatherer),
    /// The entries of ORDER, in their order.
    Ordered(Orderer),
}

// A drop that is written is one call wherever a value ends; a derived one is taken apart there.
impl Drop for Source<'_> {
    fn drop(self) {
        match self {
            Source::Read(lines) => drop(lines),
            Source::Groups(gatherer) => drop(gatherer),
            Source::Ordered(orderer) => drop(orderer),
        }
    }
}
