ghost use Rattle.std.specs.Prelude.{◌≡◌, List, [], take, IfOk};
ghost use Rattle.pig_value.specs.Orders.{row_cmp};
ghost use Rattle.pig_value.specs.Sorts.{distinct};
ghost use Rattle.pig_value.specs.Trees.{rows_tree};
ghost use Rattle.pig_typed.specs.declared.blocks.SortKey.{SortKey};
ghost use Rattle.pig_plan.specs.Operators.{order_rows};
ghost use Rattle.pig_operators.specs.Given.{AreKeyedByRow, IsOrdering, run_rows};

use crate::groups::{group_end, rows_of};
use crate::places::Stretch;
use pig_runs::Run;
use pig_value::Rows;
use std::alloc::{AllocError, Global};

/// The rows of ORDER, whose keys are the fields to sort by: those of the entries in their order.
///
/// A refusal gives up the run.
pub fn ordered(alloc: Global, run: Run) -> Result<Rows, AllocError>
    ensures rows { IfOk result (λ rows. rows_tree rows ≡ run_rows run) }
    ensures order { (keys : List SortKey) → IsOrdering keys run
        → IfOk result (λ rows. rows_tree rows ≡ order_rows keys (run_rows run)) }
{
    let all = Stretch {
        run: &run,
        from: 0,
        end: run.len(),
    };
    rows_of(alloc, &all)
}

/// The rows of LIMIT over those of ORDER: the first so many. No other row is made.
///
/// A refusal gives up the run.
pub fn limited(alloc: Global, run: Run, count: u64) -> Result<Rows, AllocError>
    ensures rows { IfOk result (λ rows. rows_tree rows ≡ take count (run_rows run)) }
    ensures order { (keys : List SortKey) → IsOrdering keys run
        → IfOk result (λ rows. rows_tree rows ≡ take count (order_rows keys (run_rows run))) }
{
    let end = run.len().min(count as usize);
    let first = Stretch {
        run: &run,
        from: 0,
        end,
    };
    rows_of(alloc, &first)
}

/// The rows of DISTINCT, each once and in ascending order: the key of an entry is its row.
///
/// A refusal gives up the run.
pub fn distinct_keys(alloc: Global, run: Run) -> Result<Rows, AllocError>
    requires ascending { run.dirs ≡ [] }
    requires keys { AreKeyedByRow run.entries }
    ensures { IfOk result (λ rows. rows_tree rows ≡ distinct row_cmp (run_rows run)) }
{
    let mut rows = Rows::new(alloc);
    let mut from = 0;
    'groups: while from < run.len() {
        rows.push(run.row(alloc, from)?)?;
        from = group_end(&run, from);
    }
    Ok(rows)
}
