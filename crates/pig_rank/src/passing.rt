ghost use Rattle.std.specs.Prelude.{◌≡◌, ◌-◌, cond, IfOk};
ghost use Rattle.std.specs.Option.{option_copied};
ghost use Rattle.pig_value.specs.Trees.{row_tree};
ghost use Rattle.pig_rank.specs.Ranks.{start_tree, summary_tree};
ghost use Rattle.pig_rank.specs.Walks.{and_part, and_row, found_row, goes_on, nothing, passed_start, rank_told};

use crate::same::goes_on;
use crate::{Start, Summary};
use pig_typed::SortKeys;
use pig_value::{Tuple, copy_row};
use std::alloc::{AllocError, Global};

/// What stands before a place of a sorted list: how many rows and how many distinct keys, modulo 2 to the 64, the
/// last row, and how many rows have its key.
#[derive(Clone, Copy, Drop)]
pub(crate) struct Passed<'r> {
    pub(crate) rows: u64,
    pub(crate) keys: u64,
    pub(crate) last: Option<&'r Tuple>,
    pub(crate) tail: u64,
}

impl<'r> Passed<'r> {
    /// What stands before the first row.
    pub(crate) fn nothing() -> Passed<'r>
        ensures { passed_start result ≡ nothing }
    {
        Passed {
            rows: 0,
            keys: 0,
            last: None,
            tail: 0,
        }
    }

    /// What stands before a partition.
    pub(crate) fn before(start: &'r Start) -> Passed<'r>
        ensures { passed_start result ≡ start_tree start.now }
    {
        Passed {
            rows: start.rank,
            keys: start.dense,
            last: start.last.as_ref(),
            tail: start.tail,
        }
    }

    /// The same as the start of a partition.
    pub(crate) fn start(self, alloc: Global) -> Result<Start, AllocError>
        ensures { IfOk result (λ start. start_tree start ≡ passed_start self.entry) }
    {
        Ok(Start {
            rank: self.rows,
            dense: self.keys,
            last: copy_found(alloc, self.last)?,
            tail: self.tail,
        })
    }

    /// What stands behind one more row.
    pub(crate) fn and_row(self, row: &'r Tuple, keys: &SortKeys) -> Passed<'r>
        ensures { passed_start result
            ≡ and_row keys.now (passed_start self.entry) (row_tree row.now) }
    {
        let rows = self.rows.wrapping_add(1);
        let last = Some(row);
        if goes_on(self.last, row, keys) {
            let (keys, tail) = (self.keys, self.tail.wrapping_add(1));
            return Passed {
                rows,
                keys,
                last,
                tail,
            };
        }
        let (keys, tail) = (self.keys.wrapping_add(1), 1);
        Passed {
            rows,
            keys,
            last,
            tail,
        }
    }

    /// What stands behind one more partition.
    pub(crate) fn and_part(self, part: &'r Summary, keys: &SortKeys) -> Passed<'r>
        ensures { passed_start result
            ≡ and_part keys.now (passed_start self.entry) (summary_tree part.now) }
    {
        let (Some(first), Some(last)) = (part.first.as_ref(), part.last.as_ref()) else {
            return self;
        };
        Passed {
            rows: self.rows.wrapping_add(part.rows),
            keys: self
                .keys
                .wrapping_add(self.new_keys(first, part.keys, keys)),
            last: Some(last),
            tail: self.held(last, keys).wrapping_add(part.tail),
        }
    }

    // The number of keys that are new where so many follow, of which a row has the first.
    fn new_keys(self, first: &Tuple, count: u64, keys: &SortKeys) -> u64
        ensures { result ≡ cond (goes_on keys.now (found_row self.entry.last) (row_tree first.now))
            (count - 1) count }
    {
        if goes_on(self.last, first, keys) {
            return count.saturating_sub(1);
        }
        count
    }

    // The number of rows that have a row's key, where it stands behind them all.
    fn held(self, row: &Tuple, keys: &SortKeys) -> u64
        ensures { result ≡ cond (goes_on keys.now (found_row self.entry.last) (row_tree row.now))
            self.entry.tail 0 }
    {
        if goes_on(self.last, row, keys) {
            return self.tail;
        }
        0
    }

    /// The rank of the last row, with DENSE that of its key.
    pub(crate) fn rank(self, dense: bool) -> u64
        ensures { result ≡ rank_told dense (passed_start self.entry) }
    {
        if dense {
            return self.keys;
        }
        self.rows.wrapping_sub(self.tail).wrapping_add(1)
    }
}

/// A copy of a row that may be missing.
pub(crate) fn copy_found(alloc: Global, row: Option<&Tuple>) -> Result<Option<Tuple>, AllocError>
    ensures { IfOk result (λ made. made ≡ option_copied row.entry) }
{
    match row {
        Some(row) => Ok(Some(copy_row(alloc, row)?)),
        None => Ok(None),
    }
}
