//! What a node makes of the entries of a partition.
ghost use Rattle.std.specs.Prelude.{◌≡◌, [], map, true, Some, IfOk, OnOk};
ghost use Rattle.std.specs.Option.{option_map};
ghost use Rattle.pig_value.specs.Sorts.{sort};
ghost use Rattle.pig_plan.specs.ByKey.{gathered};
ghost use Rattle.pig_plan.specs.Entries.{dirs_of as dirs_of_keys, made_by, sort_keys};
ghost use Rattle.pig_plan.specs.Meaning.{width_at};
ghost use Rattle.pig_plan.specs.Nodes.{op_at};
ghost use Rattle.pig_plan.specs.Plans.{op_of, plan_of};
ghost use Rattle.pig_packed.specs.Growth.{and_rows};
ghost use Rattle.pig_runs.specs.Entries.{run_cmp};
ghost use Rattle.pig_physical.specs.Combining.{groups_one};
ghost use Rattle.pig_physical.specs.Fitting.{run_dirs};
ghost use Rattle.pig_physical.specs.Seen.{staged};
ghost use Rattle.pig_physical.specs.Values.{brought_together, reduced};
ghost use Rattle.pig_reduce.specs.Made.{AreOfFirst, is_distinct};

use crate::choosing::gathering_of;
use crate::folds::add_folded;
use crate::keys::add_keys;
use pig_gather::{add_gathered, add_ordered};
use pig_packed::PackedBuilder;
use pig_physical::Stages;
use pig_plan::{NodeOp, Plan};
use pig_runs::Merged;
use pig_typed::SortKeys;
use pig_value::{Dirs, Seq};
use std::alloc::{AllocError, Global};

// Adds the rows that a node makes of these entries: of a GROUP that folds those of its FOREACH.
pub(crate) fn add_reduced(
    alloc: Global,
    stages: &Stages,
    node: u32,
    op: &NodeOp,
    entries: &Merged,
    built: &mut PackedBuilder,
) -> Result<(), AllocError>
    requires op { op_at (staged stages.now).plan node ≡ Some (op_of op.now) }
    requires dirs { entries.now.dirs ≡ run_dirs (op_of op.now) }
    requires first { groups_one (op_of op.now) ≡ true → AreOfFirst entries.now.entries }
    requires none_begun { built.old.begun ≡ [] }
    ensures { OnOk result (built.new ≡ and_rows
        (reduced (staged stages.now).plan node (op_of op.now) entries.now.entries) built.old) }
{
    match stages.fold_of(node) {
        Some(block) => add_folded(alloc, block, entries, built),
        None => add_brought(alloc, stages.plan(), op, entries, built),
    }
}

/// Adds the rows that an operator makes of these entries, where its node folds nothing.
pub fn add_brought(
    alloc: Global,
    plan: &Plan,
    op: &NodeOp,
    entries: &Merged,
    built: &mut PackedBuilder,
) -> Result<(), AllocError>
    requires dirs { entries.now.dirs ≡ run_dirs (op_of op.now) }
    requires none_begun { built.old.begun ≡ [] }
    ensures { OnOk result (built.new ≡ and_rows (brought_together (width_at (plan_of plan.now))
        (op_of op.now) entries.now.entries) built.old) }
{
    if is_distinct(op) {
        return add_keys(entries, built);
    }
    match sort_keys(op) {
        Some(_keys) => add_sorted(entries, built),
        None => add_by_key(alloc, plan, op, entries, built),
    }
}

fn is_distinct(op: &NodeOp) -> bool
    ensures { result ≡ is_distinct (op_of op.now) }
{
    matches!(op, NodeOp::Distinct { .. })
}

// The fields that an operator sorts by, where it does.
pub(crate) fn sort_keys(op: &NodeOp) -> Option<&SortKeys>
    ensures { option_map (λ keys. keys.now) result ≡ sort_keys (op_of op.now) }
{
    match op {
        NodeOp::Order { keys, .. } => Some(keys),
        NodeOp::Rank { keys, .. } => Some(keys),
        _ => None,
    }
}

// Adds the rows of the entries in their order.
fn add_sorted(entries: &Merged, built: &mut PackedBuilder) -> Result<(), AllocError>
    requires { built.old.begun ≡ [] }
    ensures { OnOk result (built.new ≡ and_rows (map (λ e. e.row)
        (sort (run_cmp entries.now.dirs) entries.now.entries)) built.old) }
{
    entries.len();
    add_ordered(entries, built)
}

// Adds the rows of an operator by key; any other has none here.
fn add_by_key(
    alloc: Global,
    plan: &Plan,
    op: &NodeOp,
    entries: &Merged,
    built: &mut PackedBuilder,
) -> Result<(), AllocError>
    requires ascending { entries.now.dirs ≡ [] }
    requires none_begun { built.old.begun ≡ [] }
    ensures { OnOk result (built.new ≡ and_rows (gathered (made_by (width_at (plan_of plan.now))
        (op_of op.now)) entries.now.entries) built.old) }
{
    match gathering_of(alloc, plan, op)? {
        Some(how) => add_gathered(alloc, &how, entries, built),
        None => Ok(()),
    }
}

// The directions of an operator's runs.
pub(crate) fn directions(alloc: Global, op: &NodeOp) -> Result<Dirs, AllocError>
    ensures { IfOk result (λ dirs. dirs ≡ run_dirs (op_of op.now)) }
{
    match sort_keys(op) {
        Some(keys) => dirs_of(alloc, keys),
        None => Ok(Dirs::new(alloc)),
    }
}

fn dirs_of(alloc: Global, keys: &SortKeys) -> Result<Dirs, AllocError>
    ensures { IfOk result (λ dirs. dirs ≡ dirs_of_keys keys.now) }
{
    let mut dirs = Seq::with_capacity(alloc, keys.len())?;
    for key in keys.as_slice() {
        dirs.push(key.dir)?;
    }
    Ok(dirs)
}
