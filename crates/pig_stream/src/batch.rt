ghost use Rattle.std.specs.Prelude.{◌≡◌, ◌++◌, [], ◌∷◌, IfOk, OnOk};
ghost use Rattle.pig_value.specs.FieldRows.{row_of};
ghost use Rattle.pig_value.specs.Trees.{row_tree, rows_tree};
ghost use Rattle.pig_value.specs.Valid.{AreRows, IsValue};
ghost use Rattle.pig_typed.specs.Blocks.{foreach_all};
ghost use Rattle.pig_typed.specs.Literals.{BlockLiteralsAre};
ghost use Rattle.pig_typed.specs.Typed.{block_typed, typed};
ghost use Rattle.pig_plan.specs.Operators.{filter_rows};

use crate::buffer::Buffer;
use crate::words::words_field;
use pig_nested::foreach;
use pig_typed::{Block, TExpr};
use pig_value::{Columns, Delim, Rows, Tuple};
use std::alloc::{AllocError, Global};
use std::marker::Model;

/// Some rows, which are filled in anew for each batch: a row that is read from a line takes the memory of one of a batch
/// before.
///
/// Contracts see the list of rows.
#[derive(Drop)]
pub struct Batch {
    /// Rows as they were filled in, but for those that a FILTER left out.
    filled: Buffer,
    /// Rows that a FOREACH made of them, where one did.
    made: Buffer,
    is_made: bool,
}

impl Model for Batch {
    ghost use Rattle.std.specs.Prelude.{List, if◌then◌else◌};
    ghost use Rattle.std.specs.Coded.{coded_list};
    ghost use Rattle.pig_value.specs.Trees.{Tree};
    ghost use Rattle.pig_value.specs.TreeCode.{coded_tree};

    ghost Value = { List (List Tree) };

    ghost coded = { coded_list (coded_list coded_tree) };

    ghost view = { λ b. if b.is_made then b.made else b.filled };
}

impl Batch {
    /// No rows, which takes no memory.
    pub fn new(alloc: Global) -> Batch
        ensures { result ≡ [] }
    {
        Batch {
            filled: Buffer::new(alloc),
            made: Buffer::new(alloc),
            is_made: false,
        }
    }

    /// The rows.
    pub fn as_slice(&self) -> &[Tuple]
        ensures { rows_tree result.now ≡ self.now }
    {
        if self.is_made {
            self.made.as_slice()
        } else {
            self.filled.as_slice()
        }
    }

    /// Leaves no rows. Their memory stays for those that come.
    pub fn clear(&mut self)
        ensures { self.new ≡ [] }
    {
        self.filled.clear();
        self.made.clear();
        self.is_made = false;
    }

    /// Adds a row behind the others.
    pub fn push(&mut self, row: Tuple) -> Result<(), AllocError>
        ensures { OnOk result (self.new ≡ self.old ++ row_tree row ∷ []) }
    {
        if self.is_made {
            self.made.push(row)
        } else {
            self.filled.push(row)
        }
    }

    /// Adds the row of a line at these columns.
    pub fn push_line(
        &mut self,
        alloc: Global,
        line: &[u8],
        delim: Delim,
        columns: &Columns,
    ) -> Result<(), AllocError>
        ensures { OnOk result (self.new
            ≡ self.old ++ row_of columns.now delim line.now ∷ []) }
    {
        if self.is_made {
            self.made.push_line(alloc, line, delim, columns)
        } else {
            self.filled.push_line(alloc, line, delim, columns)
        }
    }

    /// FILTER: the rows of which the condition is true.
    pub fn keep(&mut self, alloc: Global, cond: &TExpr) -> Result<(), AllocError>
        ensures { OnOk result (self.new ≡ filter_rows (typed cond.now) self.old) }
    {
        if self.is_made {
            self.made.keep(alloc, cond)
        } else {
            self.filled.keep(alloc, cond)
        }
    }

    /// FOREACH: what the block generates of each row. The rows of which they are made keep their memory for those that come.
    pub fn generate(&mut self, alloc: Global, block: &Block) -> Result<(), AllocError>
        ensures rows { OnOk result (self.new ≡ foreach_all (block_typed block.now) self.old) }
    {
        if self.is_made {
            self.made = Buffer::of(generated(alloc, block, self.made.as_slice())?);
            return Ok(());
        }
        put_generated(alloc, block, self.filled.as_slice(), &mut self.made)?;
        self.is_made = true;
        Ok(())
    }
}

// What the block generates of the rows, in the place of other rows; words in their memory.
fn put_generated(
    alloc: Global,
    block: &Block,
    rows: &[Tuple],
    made: &mut Buffer,
) -> Result<(), AllocError>
    ensures { OnOk result (made.new ≡ foreach_all (block_typed block.now) (rows_tree rows.now)) }
{
    match words_field(block) {
        Some(field) => made.put_words(alloc, rows, field),
        None => {
            *made = Buffer::of(generated(alloc, block, rows)?);
            Ok(())
        }
    }
}

fn generated(alloc: Global, block: &Block, rows: &[Tuple]) -> Result<Rows, AllocError>
    ensures rows { IfOk result (λ made. rows_tree made
        ≡ foreach_all (block_typed block.now) (rows_tree rows.now)) }
{
    let mut made = Rows::with_capacity(alloc, rows.len())?;
    for row in rows {
        made.extend(foreach(alloc, block, row)?)?;
    }
    Ok(made)
}
