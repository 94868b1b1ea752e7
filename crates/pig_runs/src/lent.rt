ghost use Rattle.std.specs.Prelude.{◌≡◌};
ghost use Rattle.std.specs.Ordering.{ordering_then, nat_cmp};
ghost use Rattle.pig_value.specs.Orders.{text_cmp};
ghost use Rattle.pig_runs.specs.Cutting.{is_up_to};
ghost use Rattle.pig_runs.specs.Packed.{packed_cmp, packed_lent};

use std::cmp::Ordering;

/// The bytes of an entry: the code of its key, the number of its input, and the code of its row.
#[derive(Debug, Clone, Copy, Drop)]
pub struct Lent<'r> {
    pub key: &'r [u8],
    pub input: u32,
    pub row: &'r [u8],
}

// How two entries stand.
pub(crate) fn compare_lent(a: &Lent, b: &Lent) -> Ordering
    ensures { result ≡ packed_cmp (packed_lent a.now) (packed_lent b.now) }
{
    match a.key.cmp(b.key) {
        Ordering::Equal => compare_rest(a, b),
        found => found,
    }
}

fn compare_rest(a: &Lent, b: &Lent) -> Ordering
    ensures { result ≡ ordering_then (nat_cmp a.now.input b.now.input)
        (text_cmp a.now.row.now b.now.row.now) }
{
    match a.input.cmp(&b.input) {
        Ordering::Equal => a.row.cmp(b.row),
        found => found,
    }
}

// Whether an entry stands before another, or is no greater, where `equal` asks for that.
pub(crate) fn stands_up_to(a: &Lent, b: &Lent, equal: bool) -> bool
    ensures { result ≡ is_up_to equal (packed_cmp (packed_lent a.now) (packed_lent b.now)) }
{
    let found = compare_lent(a, b);
    if equal { found.is_le() } else { found.is_lt() }
}
