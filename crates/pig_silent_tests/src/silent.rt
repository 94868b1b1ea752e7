// A host over bytes that are lent.
ghost use Rattle.std.specs.Prelude.{◌≡◌, None};

use crate::reading::{fail, fill};
use pig_outside::{Failed, Host, OutsideError};
use pig_value::{Blob, Input};

/// What a host has.
#[derive(Clone, Copy, Drop)]
pub enum Held<'b> {
    /// One piece, whatever the path.
    Piece(&'b [u8]),
    /// One piece in `b`, and one in any other input.
    Two { a: &'b [u8], b: &'b [u8] },
    /// These inputs.
    Inputs(&'b [Input]),
}

/// A host that tells nothing. It fails where it has no such bytes.
#[derive(Drop)]
pub struct Silent<'b> {
    held: Held<'b>,
    fails: &'b [u64],
    reads: u64,
    faults: u64,
}

impl<'b> Silent<'b> {
    /// A host that fails at these reads too, counted from 1.
    pub fn new(held: Held<'b>, fails: &'b [u64]) -> Silent<'b>
        ensures { result.faults ≡ 0 }
    {
        Silent {
            held,
            fails,
            reads: 0,
            faults: 0,
        }
    }
}

impl Host for Silent<'_> {
    ghost inputs = { λ _. None };

    ghost begun = { λ _. None };

    ghost faults = { λ h. h.faults };

    fn tells_bytes(&self) {}

    fn begin(&mut self, _wave: u32, _task: u32, _attempt: u32) -> Result<(), Failed> {
        Ok(())
    }

    fn read(
        &mut self,
        path: &str,
        piece: u32,
        from: u64,
        into: &mut [u8],
    ) -> Result<(), OutsideError> {
        self.reads = self.reads.saturating_add(1);
        let bytes = bytes_at(self.held, path, piece);
        if !self.fails.contains(&self.reads) && fill(bytes, from, into) {
            return Ok(());
        }
        fail(&mut self.faults)
    }
}

/// The bytes of a piece, and none where there is no such piece.
fn bytes_at<'b>(held: Held<'b>, path: &str, piece: u32) -> &'b [u8] {
    match held {
        Held::Piece(bytes) => bytes,
        Held::Two { a: _, b } if piece == 0 && path == "b" => b,
        Held::Two { a, b: _ } if piece == 0 => a,
        Held::Two { .. } => &[],
        Held::Inputs(inputs) => match piece_of(inputs, path, piece) {
            Some(blob) => blob.as_slice(),
            None => &[],
        },
    }
}

fn piece_of<'b>(inputs: &'b [Input], path: &str, piece: u32) -> Option<&'b Blob> {
    for input in inputs {
        if input.path.as_str() == path {
            return input.pieces.get(piece as usize);
        }
    }
    None
}
