ghost use Rattle.std.specs.Prelude.{◌≡◌, IfOk};
ghost use Rattle.pig_value.specs.Trees.{rows_tree};
ghost use Rattle.pig_rank.specs.Ranks.{AreSorted, summary_of, summary_tree};
ghost use Rattle.pig_rank.specs.Walks.{and_rows, passed_start};

use crate::Summary;
use crate::passing::{Passed, copy_found};
use pig_typed::SortKeys;
use pig_value::{Rows, Tuple};
use std::alloc::{AllocError, Global};

/// What counts of a partition, where its rows are sorted by the keys.
///
/// Each row is compared with the one before it alone.
pub fn sum_up(alloc: Global, rows: &Rows, keys: &SortKeys) -> Result<Summary, AllocError>
    ensures { IfOk result (λ summary. AreSorted keys.now (rows_tree rows.now)
        → summary_tree summary ≡ summary_of keys.now (rows_tree rows.now)) }
{
    let rows = rows.as_slice();
    let passed = pass(Passed::nothing(), rows, keys);
    Ok(Summary {
        rows: rows.len() as u64,
        keys: passed.keys,
        first: copy_found(alloc, rows.first())?,
        last: copy_found(alloc, passed.last)?,
        tail: passed.tail,
    })
}

// What stands behind further rows.
fn pass<'r>(before: Passed<'r>, rows: &'r [Tuple], keys: &SortKeys) -> Passed<'r>
    ensures { passed_start result
        ≡ and_rows keys.now (passed_start before.entry) (rows_tree rows.now) }
{
    let mut passed = before;
    for row in rows {
        passed = passed.and_row(row, keys);
    }
    passed
}
