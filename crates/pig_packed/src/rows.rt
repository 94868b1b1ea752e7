ghost use Rattle.std.specs.Prelude.{◌≡◌, ◌<◌, ◌≤◌, length, drop, take, option_map, slice_get, Some, IfOk};
ghost use Rattle.pig_packed.specs.RowCodes.{HeldRows, held_rows_prop};

use crate::bytes::{begin_of, between, end_of, read_row};
use pig_value::{Rows, Tuple};
use std::alloc::{AllocError, Global};
use std::marker::Model;

/// Rows, kept as their codes in one list of bytes.
///
/// Contracts see the list of rows.
#[derive(Debug, Drop)]
pub struct Packed {
    pub(crate) bytes: Vec<u8>,
    // The place behind the code of each row.
    pub(crate) ends: Vec<usize>,
    pub(crate) ghost held: { HeldRows bytes.items } by { held_rows_prop bytes.items },
}

impl Model for Packed {
    ghost use Rattle.std.specs.Prelude.{◌≡◌, List};
    ghost use Rattle.std.specs.Coded.{coded_list};
    ghost use Rattle.pig_value.specs.Trees.{Tree};
    ghost use Rattle.pig_value.specs.TreeCode.{coded_tree};
    ghost use Rattle.pig_packed.specs.RowCodes.{ends_from};

    ghost Value = { List (List Tree) };

    ghost coded = { coded_list (coded_list coded_tree) };

    ghost view = { λ p. p.held.0 };

    ghost invariant = { λ p. p.ends.items ≡ ends_from 0 p.held.0 };
}

impl Packed {
    ghost use Rattle.pig_value.specs.Trees.{row_tree, rows_tree};
    ghost use Rattle.pig_value.specs.Valid.{AreRows};
    ghost use Rattle.pig_keycode.specs.Reading.{row_code};

    /// The number of rows.
    pub fn len(&self) -> usize
        ensures count { result ≡ length self.now }
        ensures values { ∥ AreRows self.now ∥₁ }
    {
        self.ends.as_slice().len()
    }

    /// The code of a row.
    pub fn code(&self, at: usize) -> &[u8]
        requires { at < length self.now }
        ensures is { option_map row_code (slice_get self.now at) ≡ Some result.now }
        ensures values { ∥ AreRows self.now ∥₁ }
    {
        let ends = self.ends.as_slice();
        between(self.bytes.as_slice(), begin_of(ends, at), end_of(ends, at))
    }

    /// The row at a place.
    pub fn row(&self, alloc: Global, at: usize) -> Result<Tuple, AllocError>
        requires { at < length self.now }
        ensures { IfOk result (λ row. slice_get self.now at ≡ Some (row_tree row)) }
    {
        read_row(alloc, self.code(at))
    }

    /// The rows from a place on, up to another.
    pub fn between(&self, alloc: Global, from: usize, end: usize) -> Result<Rows, AllocError>
        requires order { from ≤ end }
        requires within { end ≤ length self.now }
        ensures { IfOk result (λ rows. rows_tree rows ≡ drop from (take end self.now)) }
    {
        let mut rows = Rows::with_capacity(alloc, end - from)?;
        for at in from..end {
            rows.push(self.row(alloc, at)?)?;
        }
        Ok(rows)
    }
}
