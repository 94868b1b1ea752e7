ghost use Rattle.std.specs.Prelude.{◌≡◌, ◌≤◌, length};
ghost use Rattle.std.specs.List.{position_or_len};
ghost use Rattle.std.specs.Option.{option_map};
ghost use Rattle.pig_params.specs.Cuts.{cut_at, is_byte};

// The place of the first such byte, or the length where there is none.
fn place_of(byte: u8, bytes: &[u8]) -> usize
    ensures is { result ≡ position_or_len (is_byte byte) bytes.now }
    ensures within { result ≤ length bytes.now }
{
    bytes.iter().take_while(|b| **b != byte).count()
}

/// What stands before the first such byte, and what stands behind it.
pub(crate) fn cut_at(byte: u8, bytes: &[u8]) -> Option<(&[u8], &[u8])>
    ensures { option_map (λ p. (p.0.now, p.1.now)) result ≡ cut_at byte bytes.now }
{
    let place = place_of(byte, bytes);
    if place < bytes.len() {
        Some((&bytes[..place], &bytes[place + 1..]))
    } else {
        None
    }
}
