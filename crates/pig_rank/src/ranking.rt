ghost use Rattle.std.specs.Prelude.{◌≡◌, ◌∷◌, pos, IfOk};
ghost use Rattle.std.specs.Int.{int_wrap, w64};
ghost use Rattle.pig_value.specs.Functions.{long_of};
ghost use Rattle.pig_value.specs.Trees.{row_tree, rows_tree};
ghost use Rattle.pig_rank.specs.Ranks.{AreBehindLongs, AreRanked, start_tree};
ghost use Rattle.pig_rank.specs.Walks.{passed_start, ranked_on};

use crate::Start;
use crate::passing::Passed;
use pig_typed::SortKeys;
use pig_value::{Rows, Tuple, Value, copy};
use std::alloc::{AllocError, Global};

/// The rows of a partition, each behind its rank among all, where the partitions are sorted by the keys.
///
/// A rank is 1 more than the number of rows whose keys stand before the row's, with `dense` of such keys, and a long. Each
/// row is compared with the one before it alone, and copied once.
pub fn rank_rows(
    alloc: Global,
    rows: &Rows,
    keys: &SortKeys,
    start: &Start,
    dense: bool,
) -> Result<Rows, AllocError>
    ensures ranked { IfOk result (λ ranked. AreRanked keys.now dense (start_tree start.now)
        (rows_tree rows.now) (rows_tree ranked)) }
    ensures longs { IfOk result (λ ranked. AreBehindLongs (rows_tree rows.now)
        (rows_tree ranked)) }
{
    ranked_behind(alloc, Passed::before(start), rows.as_slice(), keys, dense)
}

// Rows behind their ranks, where so much stands before them.
fn ranked_behind<'r>(
    alloc: Global,
    before: Passed<'r>,
    rows: &'r [Tuple],
    keys: &SortKeys,
    dense: bool,
) -> Result<Rows, AllocError>
    ensures { IfOk result (λ ranked. rows_tree ranked
        ≡ ranked_on keys.now dense (passed_start before.entry) (rows_tree rows.now)) }
{
    let mut ranked = Rows::with_capacity(alloc, rows.len())?;
    let mut passed = before;
    for row in rows {
        passed = passed.and_row(row, keys);
        ranked.push(behind_rank(alloc, passed.rank(dense), row)?)?;
    }
    Ok(ranked)
}

// A copy of a row behind a rank.
fn behind_rank(alloc: Global, rank: u64, row: &Tuple) -> Result<Tuple, AllocError>
    ensures { IfOk result (λ made. row_tree made ≡ long_of (pos rank) ∷ row_tree row.now) }
{
    let fields = row.as_slice();
    let mut made = Tuple::with_capacity(alloc, fields.len().saturating_add(1))?;
    made.push(Value::Long(as_long(rank)))?;
    for field in fields {
        made.push(copy(alloc, field)?)?;
    }
    Ok(made)
}

// The long of the same 64 bits.
#[tactic(auto, using(crate::proofs::Words::long_number))]
fn as_long(number: u64) -> i64
    ensures { result ≡ int_wrap w64 (pos number) }
{
    number.cast_signed()
}
