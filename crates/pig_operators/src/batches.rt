ghost use Rattle.std.specs.Prelude.{◌≡◌, ◌<◌, ◌≤◌, List, [], ◌++◌, IfOk, OnErr};
ghost use Rattle.pig_value.specs.Sorts.{Ascends};
ghost use Rattle.pig_value.specs.Trees.{rows_tree};
ghost use Rattle.pig_typed.specs.declared.blocks.SortKey.{SortKey};
ghost use Rattle.pig_plan.specs.ByKey.{gathered};
ghost use Rattle.pig_plan.specs.Operators.{order_rows};
ghost use Rattle.pig_runs.specs.Entries.{run_cmp};
ghost use Rattle.pig_operators.specs.Given.{IsOrdering, made, run_rows, to_come};

use crate::by_key::{Gathering, add_next};
use crate::groups::rows_of;
use crate::places::Stretch;
use pig_runs::Run;
use pig_value::Rows;
use std::alloc::{AllocError, Global};
use std::marker::Model;

// A batch takes no further row or group where it has so many rows.
const BATCH_ROWS: usize = 512;

// A batch with a row takes no further group where its groups have so many entries, whose rows stand in memory.
const BATCH_ENTRIES: usize = 4_096;

/// The rows of an operator by key over the entries of a run, some groups at a time.
///
/// Contracts see the rows that are still to come.
#[derive(Debug, Drop)]
pub struct Gatherer {
    how: Gathering,
    run: Run,
    // Where the first group begins that is still to come.
    from: usize,
}

impl Model for Gatherer {
    ghost use Rattle.std.specs.Prelude.{◌≡◌, List, []};
    ghost use Rattle.std.specs.Coded.{coded_list};
    ghost use Rattle.pig_value.specs.Trees.{Tree};
    ghost use Rattle.pig_value.specs.TreeCode.{coded_tree};
    ghost use Rattle.pig_operators.specs.Given.{to_come};

    ghost Value = { List (List Tree) };

    ghost coded = { coded_list (coded_list coded_tree) };

    ghost view = { λ g. to_come g.how g.run g.from };

    ghost invariant = { λ g. g.run.dirs ≡ [] };
}

/// The rows of ORDER over the entries of a run, some hundred at a time.
///
/// Contracts see the rows that are still to come.
#[derive(Debug, Drop)]
pub struct Orderer {
    run: Run,
    // The place of the first entry whose row is still to come.
    from: usize,
}

impl Model for Orderer {
    ghost use Rattle.std.specs.Prelude.{◌≤◌, List, drop, length};
    ghost use Rattle.std.specs.Coded.{coded_list};
    ghost use Rattle.pig_value.specs.Trees.{Tree};
    ghost use Rattle.pig_value.specs.TreeCode.{coded_tree};
    ghost use Rattle.pig_operators.specs.Given.{run_rows};

    ghost Value = { List (List Tree) };

    ghost coded = { coded_list (coded_list coded_tree) };

    ghost view = { λ o. drop o.from (run_rows o.run) };

    ghost invariant = { λ o. o.from ≤ length o.run.entries };
}

impl Orderer {
    /// All rows of ORDER are still to come. This takes no memory.
    pub fn new(run: Run) -> Orderer
        ensures rows { result ≡ run_rows run }
        ensures order { (keys : List SortKey) → IsOrdering keys run
            → result ≡ order_rows keys (run_rows run) }
    {
        run.len();
        Orderer { run, from: 0 }
    }

    /// The next rows, some hundred at once. Where there are none, none are still to come.
    ///
    /// Where memory is wanting, all of them are still to come.
    pub fn next_batch(&mut self, alloc: Global) -> Result<Rows, AllocError>
        ensures rows { IfOk result (λ rows. self.old ≡ rows_tree rows ++ self.new) }
        ensures end { IfOk result (λ rows. rows_tree rows ≡ [] → self.new ≡ []) }
        ensures err { OnErr result (self.new ≡ self.old) }
    {
        let end = self.from + (self.run.len() - self.from).min(BATCH_ROWS);
        let batch = Stretch {
            run: &self.run,
            from: self.from,
            end,
        };
        let rows = rows_of(alloc, &batch)?;
        self.from = end;
        Ok(rows)
    }
}

impl Gatherer {
    /// All rows of the operator are still to come. This takes no memory.
    pub fn new(how: Gathering, run: Run) -> Gatherer
        requires { run.dirs ≡ [] }
        ensures { result ≡ gathered (made how) run.entries }
    {
        Gatherer { how, run, from: 0 }
    }

    /// The rows of the next groups, some hundred at once.
    ///
    /// Where there are none, none are still to come. Where memory is wanting, all of them are.
    pub fn next_batch(&mut self, alloc: Global) -> Result<Rows, AllocError>
        ensures rows { IfOk result (λ rows. self.old ≡ rows_tree rows ++ self.new) }
        ensures end { IfOk result (λ rows. rows_tree rows ≡ [] → self.new ≡ []) }
        ensures err { OnErr result (self.new ≡ self.old) }
    {
        let mut rows = Rows::new(alloc);
        self.from = add_batch(alloc, &self.how, &self.run, self.from, &mut rows)?;
        Ok(rows)
    }
}

// Adds the rows of groups from a place on until there are enough of them or of entries, and says where the next begins.
fn add_batch(
    alloc: Global,
    how: &Gathering,
    run: &Run,
    from: usize,
    rows: &mut Rows,
) -> Result<usize, AllocError>
    requires ascending { run.now.dirs ≡ [] }
    ensures rows { IfOk result (λ next. rows_tree rows.old ++ to_come how.now run.now from
        ≡ rows_tree rows.new ++ to_come how.now run.now next) }
    ensures end { IfOk result (λ next. rows_tree rows.new ≡ []
        → to_come how.now run.now next ≡ []) }
{
    let mut next = from;
    'groups: while next < run.len() && (rows.is_empty() || has_room(rows.len(), next - from)) {
        next = add_next(alloc, how, run, next, rows)?;
    }
    Ok(next)
}

// Whether a batch takes a further group.
fn has_room(rows: usize, entries: usize) -> bool {
    rows < BATCH_ROWS && entries < BATCH_ENTRIES
}
