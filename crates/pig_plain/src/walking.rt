ghost use Rattle.std.specs.Prelude.{◌≡◌, ◌++◌, [], map, IfOk};
ghost use Rattle.std.specs.List.{flat_map};
ghost use Rattle.pig_value.specs.FieldRows.{row_of};
ghost use Rattle.pig_value.specs.Lines.{lines};
ghost use Rattle.pig_value.specs.Trees.{rows_tree};
ghost use Rattle.pig_plain.specs.Coming.{coming, source_rows, step_rows, steps_rows};

use crate::each_row::{generated, passing};
use crate::reading::{Lines, Source};
use pig_operators::{Gatherer, Orderer};
use pig_typed::{Block, TExpr};
use pig_value::{Blob, Column, Columns, Delim, Rows};
use std::alloc::{AllocError, Global};

// What is made of each row of a list.
#[derive(Drop)]
pub enum RowStep<'p> {
    /// The rows of which the condition is true.
    Filter(&'p TExpr),
    /// What the block generates of each row.
    Foreach(&'p Block),
}

// Rows that are made as they are asked for: those of a source, taken through the steps.
pub struct Walk<'p> {
    source: Source<'p>,
    steps: Vec<RowStep<'p>>,
}

// A drop that is written is one call wherever a walk ends; a derived one is taken apart there.
impl Drop for Walk<'_> {
    fn drop(self) {
        let Walk { source, steps } = self;
        drop(source);
        drop(steps);
    }
}

impl<'p> Walk<'p> {
    // The rows of the lines of pieces, at these columns.
    pub fn of(alloc: Global, pieces: &'p [Blob], delim: Delim, columns: &'p Columns) -> Walk<'p>
        ensures { coming result ≡ map (row_of columns.now delim) (flat_map lines pieces.now) }
    {
        let source = Source::Read(Lines::of(pieces, delim, columns));
        let steps = Vec::new(alloc);
        Walk { source, steps }
    }

    // The rows of the groups of a run.
    pub fn of_groups(alloc: Global, groups: Gatherer) -> Walk<'p>
        ensures { coming result ≡ groups }
    {
        let source = Source::Groups(groups);
        let steps = Vec::new(alloc);
        Walk { source, steps }
    }

    // The rows of ORDER over a run.
    pub fn of_ordered(alloc: Global, rows: Orderer) -> Walk<'p>
        ensures { coming result ≡ rows }
    {
        let source = Source::Ordered(rows);
        let steps = Vec::new(alloc);
        Walk { source, steps }
    }

    // One step more behind the others.
    pub fn then(self, step: RowStep<'p>) -> Result<Walk<'p>, AllocError>
        ensures { IfOk result (λ walk. coming walk ≡ step_rows step.entry (coming self.entry)) }
    {
        let mut walk = self;
        walk.steps.push(step)?;
        Ok(walk)
    }

    // The next rows, and none only where no more come.
    pub fn next_batch(&mut self, alloc: Global) -> Result<Rows, AllocError>
        ensures rows { IfOk result (λ rows. coming self.old ≡ rows_tree rows ++ coming self.new) }
        ensures end { IfOk result (λ rows. rows_tree rows ≡ [] → coming self.new ≡ []) }
    {
        // Types behind an enum, of which the check of this loop has to be told.
        let (_pieces, _columns): (&[Blob], &[Column]) = (&[], &[]);
        'reads: loop {
            let rows = self.next_rows(alloc)?;
            let done = rows.is_empty();
            let made = stepped(alloc, self.steps.as_slice(), rows)?;
            if done || !made.is_empty() {
                return Ok(made);
            }
        }
    }

    // The next rows of the source, and none only where no more come.
    fn next_rows(&mut self, alloc: Global) -> Result<Rows, AllocError>
        ensures rows { IfOk result (λ rows. source_rows self.old.source
            ≡ rows_tree rows ++ source_rows self.new.source) }
        ensures end { IfOk result (λ rows. rows_tree rows ≡ []
            → source_rows self.new.source ≡ []) }
        ensures steps { self.new.steps ≡ self.old.steps }
    {
        match &mut self.source {
            Source::Read(lines) => lines.next_rows(alloc),
            Source::Groups(groups) => groups.next_batch(alloc),
            Source::Ordered(rows) => rows.next_batch(alloc),
        }
    }
}

// Rows, taken through the steps one after another.
fn stepped(alloc: Global, steps: &[RowStep], rows: Rows) -> Result<Rows, AllocError>
    ensures { IfOk result (λ made. rows_tree made ≡ steps_rows steps.now (rows_tree rows)) }
{
    let mut made = rows;
    for step in steps {
        made = one_step(alloc, step, made)?;
    }
    Ok(made)
}

fn one_step(alloc: Global, step: &RowStep, rows: Rows) -> Result<Rows, AllocError>
    ensures { IfOk result (λ made. rows_tree made ≡ step_rows step.now (rows_tree rows)) }
{
    match step {
        RowStep::Filter(cond) => passing(alloc, cond, rows),
        RowStep::Foreach(block) => generated(alloc, block, rows.as_slice()),
    }
}
