ghost use Rattle.std.specs.Prelude.{◌≡◌, drop, max, min, nat_le};
ghost use Rattle.std.specs.Ordering.{nat_cmp};
ghost use Rattle.pig_value.specs.Orders.{text_cmp};
ghost use Rattle.pig_runs.specs.Fronts.{first_bytes, front as front_of, front_cmp, front_len};

use crate::slots::Front;
use std::cmp::Ordering;

// The front of a text.
pub(crate) fn front(text: &[u8]) -> Front
    ensures { result ≡ front_of text.now }
{
    Front {
        high: first_eight(text),
        low: first_eight(behind(text, 8)),
    }
}

// The first eight bytes of a text as a number, where those that are missing are 0.
fn first_eight(text: &[u8]) -> u64
    ensures { result ≡ first_bytes 8 text.now }
{
    match text {
        [a, b, c, d, e, f, g, h, ..] => u64::from_be_bytes([*a, *b, *c, *d, *e, *f, *g, *h]),
        [a, b, c, d, e, f, g] => u64::from_be_bytes([*a, *b, *c, *d, *e, *f, *g, 0]),
        [a, b, c, d, e, f] => u64::from_be_bytes([*a, *b, *c, *d, *e, *f, 0, 0]),
        [a, b, c, d, e] => u64::from_be_bytes([*a, *b, *c, *d, *e, 0, 0, 0]),
        [a, b, c, d] => u64::from_be_bytes([*a, *b, *c, *d, 0, 0, 0, 0]),
        [a, b, c] => u64::from_be_bytes([*a, *b, *c, 0, 0, 0, 0, 0]),
        [a, b] => u64::from_be_bytes([*a, *b, 0, 0, 0, 0, 0, 0]),
        [a] => u64::from_be_bytes([*a, 0, 0, 0, 0, 0, 0, 0]),
        [] => 0,
    }
}

// How two texts stand by their fronts.
#[inline]
pub(crate) fn compare_fronts(front: Front, other: Front) -> Ordering
    ensures { result ≡ front_cmp front other }
{
    match front.high.cmp(&other.high) {
        Ordering::Equal => front.low.cmp(&other.low),
        found => found,
    }
}

// How two texts whose fronts are the same stand by how many bytes these are of.
#[inline]
pub(crate) fn compare_lens(len: usize, other: usize) -> Ordering
    ensures { result ≡ nat_cmp (min len front_len) (min other front_len) }
{
    len.min(16).cmp(&other.min(16))
}

// Whether no byte of two texts stands behind their fronts.
#[inline]
pub(crate) fn end_within(len: usize, other: usize) -> bool
    ensures { result ≡ nat_le (max len other) front_len }
{
    len.max(other) <= 16
}

// How two texts stand by the bytes behind their fronts.
pub(crate) fn compare_behind(text: &[u8], with: &[u8]) -> Ordering
    ensures { result ≡ text_cmp (drop front_len text.now) (drop front_len with.now) }
{
    behind(text, 16).cmp(behind(with, 16))
}

// The bytes behind the first so many.
fn behind(text: &[u8], count: usize) -> &[u8]
    ensures { result.now ≡ drop count text.now }
{
    match text.get(count..) {
        Some(behind) => behind,
        None => &[],
    }
}
