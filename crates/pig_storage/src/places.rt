ghost use Rattle.std.specs.Prelude.{◌≡◌, ◌==◌, ◌≤◌, length};
ghost use Rattle.std.specs.List.{position_or_len};

use bstr::ByteSlice;

/// The place of the first such byte, or the end of the bytes where there is none.
pub(crate) fn place_of(byte: u8, bytes: &[u8]) -> usize
    ensures is { result ≡ position_or_len (λ b. b == byte) bytes.now }
    ensures within { result ≤ length bytes.now }
{
    match bytes.find_byte(byte) {
        Some(at) => at,
        None => bytes.len(),
    }
}
