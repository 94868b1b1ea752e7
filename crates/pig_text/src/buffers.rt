ghost use Rattle.std.specs.Prelude.{◌≡◌, [], ◌∷◌, ◌++◌, OnOk, OnErr, true, false};
ghost use Rattle.pig_text.specs.Buffers.{HasTaken, takes_nothing, takes_on};
ghost use Rattle.pig_value.specs.Texts.{row_text};
ghost use Rattle.pig_value.specs.Trees.{row_tree};

use crate::TextSink;
use crate::telling::tell_row;
use pig_value::{Delim, Tuple};
use std::alloc::AllocError;
use std::mem;

// Bytes that grow by what they are told, until memory is wanting.
struct TextBuffer {
    bytes: Vec<u8>,
    wants: bool,
}

impl TextSink for TextBuffer {
    ghost after = { λ a bytes b. HasTaken a.bytes.items a.wants bytes b.bytes.items b.wants };

    ghost nothing = { λ a. takes_nothing a.bytes.items a.wants };

    ghost onwards = { λ a b c xs ys h k. takes_on a.bytes.items b.bytes.items c.bytes.items xs ys a.wants b.wants c.wants h k };

    fn put(&mut self, bytes: &[u8]) {
        if !self.wants {
            self.wants = self.bytes.extend_from_slice(bytes).is_err();
        }
    }
}

/// Appends the text of a row, its fields' texts with the delimiter between each two, and an LF. Where
/// memory is wanting, `out` stays as it was.
pub fn write_row(row: &Tuple, delim: Delim, out: &mut Vec<u8>) -> Result<(), AllocError>
    ensures ok { OnOk result (out.new.items ≡ out.old.items
        ++ (row_text delim (row_tree row.now) ++ 10 ∷ [])) }
    ensures err { OnErr result (out.new.items ≡ out.old.items) }
{
    let length = out.len();
    let alloc = *out.allocator();
    let bytes = mem::replace(out, Vec::new(alloc));
    let told = with_row(row, delim, bytes);
    let TextBuffer { bytes, wants } = told;
    *out = bytes;
    if wants {
        out.truncate(length);
        return Err(AllocError);
    }
    Ok(())
}

// The bytes with the text of a row and an LF behind them.
fn with_row(row: &Tuple, delim: Delim, bytes: Vec<u8>) -> TextBuffer
    ensures { HasTaken bytes.items false (row_text delim (row_tree row.now)
        ++ 10 ∷ []) result.bytes.items result.wants }
{
    let mut told = TextBuffer {
        bytes,
        wants: false,
    };
    tell_row(row, delim, &mut told);
    told
}
