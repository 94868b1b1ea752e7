ghost use Rattle.std.specs.Prelude.{◌≡◌, ◌<◌, ◌≤◌, ◌+◌, ◌∷◌, ◌++◌, length, take, drop, IfSome, IfNone};
ghost use Rattle.pig_keycode.specs.Reading.{HasNoZero};

use bstr::ByteSlice;

// The place of the first zero byte.
fn zero_at(bytes: &[u8]) -> Option<usize>
    ensures within { IfSome result (λ at. at < length bytes.now) }
    ensures before { IfSome result (λ at. HasNoZero (take at bytes.now)) }
    ensures here { IfSome result (λ at. drop at bytes.now ≡ 0 ∷ drop (at + 1) bytes.now) }
    ensures none { IfNone result (HasNoZero bytes.now) }
{
    bytes.find_byte(0)
}

// The bytes before the first zero byte, and those behind it.
pub(crate) fn cut_at_zero(bytes: &[u8]) -> Option<(&[u8], &[u8])>
    ensures is { IfSome result (λ cut. bytes.now ≡ cut.0.now ++ 0 ∷ cut.1.now) }
    ensures plain { IfSome result (λ cut. HasNoZero cut.0.now) }
    ensures none { IfNone result (HasNoZero bytes.now) }
{
    match zero_at(bytes) {
        Some(at) => {
            let (plain, here) = bytes.split_at(at);
            let (_, rest) = here.split_at(1);
            Some((plain, rest))
        }
        None => None,
    }
}

// The number of bytes before the first zero byte.
pub(crate) fn plain_length(bytes: &[u8]) -> usize
    ensures within { result ≤ length bytes.now }
    ensures plain { HasNoZero (take result bytes.now) }
{
    match zero_at(bytes) {
        Some(at) => at,
        None => bytes.len(),
    }
}
