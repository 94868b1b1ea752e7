ghost use Rattle.std.specs.Prelude.{◌≡◌, ◌<◌, ◌≤◌, [], ◌∷◌, List, length, map, take, OnOk};
ghost use Rattle.std.specs.List.{flat_map};
ghost use Rattle.pig_value.specs.Orders.{row_cmp};
ghost use Rattle.pig_value.specs.Sorts.{distinct};
ghost use Rattle.pig_typed.specs.declared.blocks.SortKey.{SortKey};
ghost use Rattle.pig_plan.specs.Operators.{order_rows};
ghost use Rattle.pig_packed.specs.Growth.{and_rows};
ghost use Rattle.pig_operators.specs.Given.{AreKeyedByRow, IsOrdering, run_rows};
ghost use Rattle.pig_gather.specs.Lent.{rows_of};

use crate::groups::group_end;
use crate::lent::Stretch;
use pig_packed::{Packed, PackedBuilder};
use pig_runs::Merged;
use std::alloc::AllocError;

/// Adds the rows of ORDER, whose keys are the fields to sort by: those of the entries in their order.
pub fn add_ordered(entries: &Merged, built: &mut PackedBuilder) -> Result<(), AllocError>
    requires { built.old.begun ≡ [] }
    ensures rows { OnOk result (built.new ≡ and_rows (run_rows entries.now) built.old) }
    ensures order { (keys : List SortKey) → IsOrdering keys entries.now
        → OnOk result (built.new ≡ and_rows (order_rows keys (run_rows entries.now)) built.old) }
{
    let all = Stretch {
        entries,
        from: 0,
        end: entries.len(),
    };
    add_between(&all, built)
}

/// Adds the rows of LIMIT over those of ORDER: the first so many.
pub fn add_limited(
    entries: &Merged,
    count: u64,
    built: &mut PackedBuilder,
) -> Result<(), AllocError>
    requires { built.old.begun ≡ [] }
    ensures rows { OnOk result (built.new
        ≡ and_rows (take count (run_rows entries.now)) built.old) }
    ensures order { (keys : List SortKey) → IsOrdering keys entries.now
        → OnOk result (built.new
        ≡ and_rows (take count (order_rows keys (run_rows entries.now))) built.old) }
{
    let first = Stretch {
        entries,
        from: 0,
        end: entries.len().min(count as usize),
    };
    add_between(&first, built)
}

/// Adds the rows of DISTINCT, each once and in ascending order: the key of an entry is its row.
pub fn add_distinct(entries: &Merged, built: &mut PackedBuilder) -> Result<(), AllocError>
    requires none_begun { built.old.begun ≡ [] }
    requires ascending { entries.now.dirs ≡ [] }
    requires keys { AreKeyedByRow entries.now.entries }
    ensures { OnOk result (built.new
        ≡ and_rows (distinct row_cmp (run_rows entries.now)) built.old) }
{
    let mut from = 0;
    'groups: while from < entries.len() {
        built.push_code(entries.lend(from).row)?;
        from = group_end(entries, from);
    }
    Ok(())
}

/// Adds the rows of a LIMIT that is not over those of ORDER: the first so many of these lists, in turn.
pub fn add_first(lists: &[&Packed], count: u64, built: &mut PackedBuilder) -> Result<(), AllocError>
    requires { built.old.begun ≡ [] }
    ensures { OnOk result (built.new
        ≡ and_rows (take count (flat_map (λ list. list.now) lists.now)) built.old) }
{
    let mut left = count;
    for list in lists {
        let some = list.len().min(left as usize);
        add_codes(list, some, built)?;
        left -= some as u64;
    }
    Ok(())
}

// Adds the first so many rows of a list.
fn add_codes(list: &Packed, count: usize, built: &mut PackedBuilder) -> Result<(), AllocError>
    requires none_begun { built.old.begun ≡ [] }
    requires within { count ≤ length list.now }
    ensures { OnOk result (built.new ≡ and_rows (take count list.now) built.old) }
{
    for at in 0..count {
        built.push_code(list.code(at))?;
    }
    Ok(())
}

// Adds the rows of these entries.
fn add_between(stretch: &Stretch<'_, '_>, built: &mut PackedBuilder) -> Result<(), AllocError>
    requires none_begun { built.old.begun ≡ [] }
    ensures { OnOk result (built.new ≡ and_rows (rows_of stretch.now) built.old) }
{
    for at in stretch.from..stretch.end {
        built.push_code(stretch.entries.lend(at).row)?;
    }
    Ok(())
}
