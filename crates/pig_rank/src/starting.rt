ghost use Rattle.std.specs.Prelude.{◌≡◌, ◌++◌, List, length, map, IfOk, OnOk};
ghost use Rattle.pig_rank.specs.Ranks.{AreSummariesOf, Rows as RowTrees, start_tree, starts_of, summary_tree};
ghost use Rattle.pig_rank.specs.Walks.{passed_start, starts_on};

use crate::passing::Passed;
use crate::{Starts, Summaries, Summary};
use pig_typed::SortKeys;
use std::alloc::{AllocError, Global};

/// The start of each partition, in order, by the summaries of consecutive partitions of a list that is sorted by the keys.
pub fn find_starts(alloc: Global, parts: &Summaries, keys: &SortKeys) -> Result<Starts, AllocError>
    ensures size { IfOk result (λ starts. length starts ≡ length parts.now) }
    ensures starts { IfOk result (λ starts. (rows : List RowTrees)
        → AreSummariesOf keys.now rows parts.now
        → map start_tree starts ≡ starts_of keys.now rows) }
{
    let mut starts = Starts::with_capacity(alloc, parts.len())?;
    add_starts(
        alloc,
        Passed::nothing(),
        parts.as_slice(),
        keys,
        &mut starts,
    )?;
    Ok(starts)
}

// Adds the starts of further partitions.
fn add_starts<'p>(
    alloc: Global,
    before: Passed<'p>,
    parts: &'p [Summary],
    keys: &SortKeys,
    starts: &mut Starts,
) -> Result<(), AllocError>
    ensures { OnOk result (map start_tree starts.new ≡ map start_tree starts.old
        ++ starts_on keys.now (passed_start before.entry) (map summary_tree parts.now)) }
{
    let mut passed = before;
    for part in parts {
        starts.push(passed.start(alloc)?)?;
        passed = passed.and_part(part, keys);
    }
    Ok(())
}
