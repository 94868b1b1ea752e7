//! Numbers in ascending order.
ghost use Rattle.std.specs.Prelude.{◌≡◌};
ghost use Rattle.std.specs.Ordering.{nat_cmp};
ghost use Rattle.pig_value.specs.Sorts.{sort};

use pig_value::{Numbers, Seq};

// The numbers, ascending, each as often as before.
pub fn ascending(numbers: Numbers) -> Numbers
    ensures { result ≡ sort nat_cmp numbers }
{
    Seq::from_vec(sorted(numbers.into_vec()))
}

fn sorted(numbers: Vec<u32>) -> Vec<u32>
    ensures { result.items ≡ sort nat_cmp numbers.items }
{
    let mut numbers = numbers;
    numbers.sort_unstable_by(|a, b| a.cmp(b));
    numbers
}
