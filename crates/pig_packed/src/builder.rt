ghost use Rattle.std.specs.Prelude.{◌≡◌, [], length, drop, take, OnOk, OnErr};
ghost use Rattle.pig_packed.specs.RowCodes.{HeldRows, held_rows_prop};

use crate::bytes::{extend, push_end};
use crate::rows::Packed;
use pig_keycode::{encode, encode_row};
use pig_value::{Dir, Tuple, Value};
use std::alloc::{AllocError, Global};
use std::marker::Model;

/// Rows that are added one by one, each whole or in pieces, and kept as their codes.
///
/// Contracts see the rows that are whole, and the bytes of one that is begun.
#[derive(Debug, Drop)]
pub struct PackedBuilder {
    bytes: Vec<u8>,
    // The place behind the code of each row, and so the last of them or 0.
    ends: Vec<usize>,
    done: usize,
    ghost held: { HeldRows (take done bytes.items) } by { held_rows_prop (take done bytes.items) },
}

impl Model for PackedBuilder {
    ghost use Rattle.std.specs.Prelude.{◌≡◌, ◌≤◌, length, drop};
    ghost use Rattle.pig_packed.specs.Growth.{Begun, coded_begun};
    ghost use Rattle.pig_packed.specs.RowCodes.{ends_from};

    ghost Value = { Begun };

    ghost coded = { coded_begun };

    ghost view = { λ b. record { rows = b.held.0; begun = drop b.done b.bytes.items } };

    ghost invariant = { λ b. (b.done ≤ length b.bytes.items) × (b.ends.items ≡ ends_from 0 b.held.0) };
}

impl PackedBuilder {
    ghost use Rattle.std.specs.Prelude.{List};
    ghost use Rattle.pig_value.specs.Trees.{Tree, tree, row_tree};
    ghost use Rattle.pig_value.specs.Valid.{IsRow};
    ghost use Rattle.pig_keycode.specs.Codable.{IsCodeOfRow};
    ghost use Rattle.pig_keycode.specs.Codes.{code};
    ghost use Rattle.pig_keycode.specs.Reading.{row_code};
    ghost use Rattle.pig_packed.specs.Growth.{IsWhole, and_bytes, and_row, whole_rows};

    /// No rows yet, which takes no memory.
    pub fn new(alloc: Global) -> PackedBuilder
        ensures { result ≡ whole_rows [] }
    {
        PackedBuilder {
            bytes: Vec::new(alloc),
            ends: Vec::new(alloc),
            done: 0,
        }
    }

    /// The number of rows that are whole.
    pub fn len(&self) -> usize
        ensures { result ≡ length self.now.rows }
    {
        self.ends.as_slice().len()
    }

    /// Adds bytes to the row that is begun. Where memory is wanting, nothing changes.
    pub fn write(&mut self, more: &[u8]) -> Result<(), AllocError>
        ensures ok { OnOk result (self.new ≡ and_bytes more.now self.old) }
        ensures err { OnErr result (self.new ≡ self.old) }
    {
        extend(&mut self.bytes, more)
    }

    /// Adds the code of a value to the row that is begun. Where memory is wanting, nothing changes.
    pub fn write_value(&mut self, v: &Value) -> Result<(), AllocError>
        ensures ok { OnOk result (self.new ≡ and_bytes (code (tree v.now)) self.old) }
        ensures err { OnErr result (self.new ≡ self.old) }
    {
        encode(v, Dir::Asc, &mut self.bytes)
    }

    fn write_row(&mut self, row: &Tuple) -> Result<(), AllocError>
        ensures ok { OnOk result (self.new ≡ and_bytes (row_code (row_tree row.now)) self.old) }
        ensures err { OnErr result (self.new ≡ self.old) }
    {
        encode_row(row, &mut self.bytes)
    }

    /// Ends the row that is begun, whose bytes are a row's code. Where memory is wanting, nothing changes.
    pub fn end_row(&mut self) -> Result<(), AllocError>
        requires { IsWhole self.old.begun }
        ensures ok { (row : List Tree) → IsCodeOfRow self.old.begun row
            → OnOk result (self.new ≡ and_row row self.old) }
        ensures err { OnErr result (self.new ≡ self.old) }
    {
        let end = self.bytes.as_slice().len();
        push_end(&mut self.ends, end)?;
        self.done = end;
        Ok(())
    }

    /// Takes back the row that is begun.
    pub fn undo(&mut self)
        ensures { self.new ≡ whole_rows self.old.rows }
    {
        self.bytes.truncate(self.done);
    }

    /// Adds a row by its code. Where memory is wanting, nothing changes.
    pub fn push_code(&mut self, code: &[u8]) -> Result<(), AllocError>
        requires none_begun { self.old.begun ≡ [] }
        requires whole { IsWhole code.now }
        ensures ok { (row : List Tree) → IsCodeOfRow code.now row
            → OnOk result (self.new ≡ and_row row self.old) }
        ensures err { OnErr result (self.new ≡ self.old) }
    {
        self.write(code)?;
        self.end_or_undo()
    }

    /// Adds a row of values. Where memory is wanting, nothing changes.
    pub fn push_row(&mut self, row: &Tuple) -> Result<(), AllocError>
        requires none_begun { self.old.begun ≡ [] }
        requires values { IsRow (row_tree row.now) }
        ensures ok { OnOk result (self.new ≡ and_row (row_tree row.now) self.old) }
        ensures err { OnErr result (self.new ≡ self.old) }
    {
        self.write_row(row)?;
        self.end_or_undo()
    }

    // Ends the row that is begun, or takes it back where memory is wanting.
    fn end_or_undo(&mut self) -> Result<(), AllocError>
        requires { IsWhole self.old.begun }
        ensures ok { (row : List Tree) → IsCodeOfRow self.old.begun row
            → OnOk result (self.new ≡ and_row row self.old) }
        ensures err { OnErr result (self.new ≡ whole_rows self.old.rows) }
    {
        match self.end_row() {
            Ok(()) => Ok(()),
            Err(fault) => {
                self.undo();
                Err(fault)
            }
        }
    }

    /// The rows that are whole; one that is begun is left out.
    pub fn finish(self) -> Packed
        ensures { result ≡ self.rows }
    {
        let mut built = self;
        built.undo();
        built.into_packed()
    }

    fn into_packed(self) -> Packed
        requires { self.begun ≡ [] }
        ensures { result ≡ self.rows }
    {
        let PackedBuilder { bytes, ends, .. } = self;
        Packed { bytes, ends }
    }
}
