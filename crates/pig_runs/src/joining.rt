ghost use Rattle.std.specs.Prelude.{◌≡◌, map, IfOk};
ghost use Rattle.std.specs.List.{AllByRecursion};
ghost use Rattle.pig_value.specs.Sorts.{sort};
ghost use Rattle.pig_runs.specs.Packed.{found_at, joined, packed_cmp, IsPart, IsPlaced};

use crate::packing::compare;
use crate::slots::Slot;
use itertools::Itertools;
use std::alloc::{AllocError, Global};

// The slots of sorted lists in one sorted list.
pub(crate) fn merge_slots(
    alloc: Global,
    bytes: &[u8],
    lists: Vec<Vec<Slot>>,
) -> Result<Vec<Slot>, AllocError>
    requires { AllByRecursion (IsPart bytes.now) (map (λ list. list.items) lists.items) }
    ensures order { IfOk result (λ all. map (found_at bytes.now) all.items
        ≡ sort packed_cmp (map (found_at bytes.now)
        (joined (map (λ list. list.items) lists.items)))) }
    ensures placed { IfOk result (λ all. AllByRecursion (IsPlaced bytes.now) all.items) }
{
    let merged = lists.into_iter().kmerge_by(alloc, |a: &Slot, b: &Slot| {
        compare(bytes, a, b).is_lt()
    })?;
    merged.collect_vec(alloc)
}
