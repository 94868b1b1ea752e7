ghost use Rattle.std.specs.Prelude.{◌≡◌, ◌≤◌, ◌↔◌, length, take, IsNone, IfSome};
ghost use Rattle.std.specs.Str.Lines.{strip_carriage_return};
ghost use Rattle.pig_storage.specs.NextLine.{IsNextLine};

use crate::places::place_of;

/// Where a line stands in the bytes of an input.
#[derive(Debug, Clone, Copy, PartialEq, Eq, Drop)]
pub struct Span {
    /// The place of its first byte.
    pub from: usize,
    /// The place behind its last byte, without a CR that stood at its end.
    pub to: usize,
    /// The place behind its LF, or the end of the bytes where it has none.
    pub next: usize,
}

/// The line at `from`, which is the start of a line or the end of the bytes. There is none exactly at
/// the end: an LF ends a line, and a last line needs none.
pub fn next_line(bytes: &[u8], from: usize) -> Option<Span>
    requires { from ≤ length bytes.now }
    ensures none { IsNone result ↔ (from ≡ length bytes.now) }
    ensures line { IfSome result (λ s. IsNextLine bytes.now from s) }
{
    if from == bytes.len() {
        return None;
    }
    let rest = &bytes[from..];
    let end = place_of(b'\n', rest);
    let length = length_without_cr(&rest[..end]);
    Some(Span {
        from,
        to: from + length,
        next: (from + end + 1).min(bytes.len()),
    })
}

// The length of a piece without the one CR at its end.
fn length_without_cr(piece: &[u8]) -> usize
    ensures within { result ≤ length piece.now }
    ensures is { take result piece.now ≡ strip_carriage_return piece.now }
{
    let length = piece.len();
    if length > 0 && piece[length - 1] == b'\r' {
        length - 1
    } else {
        length
    }
}
