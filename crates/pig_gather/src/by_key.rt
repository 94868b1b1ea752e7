ghost use Rattle.std.specs.Prelude.{◌≡◌, ◌<◌, ◌≤◌, [], ◌∷◌, ◌++◌, length, IfOk, OnOk};
ghost use Rattle.pig_packed.specs.Growth.{and_rows};
ghost use Rattle.pig_plan.specs.ByKey.{gathered, group_of, join_of};
ghost use Rattle.pig_operators.specs.Given.{made, to_come};
ghost use Rattle.pig_gather.specs.Lent.{bags_in, key_of};

use crate::cogrouping::add_cogrouped;
use crate::groups::{first_end, group_end};
use crate::joining::add_partners;
use crate::key_nulls::key_has_null;
use crate::lent::{Group, Stretch};
use crate::outer::add_outer;
use crate::pieces::{add_bag, begin_by_key, end_fields};
use pig_operators::Gathering;
use pig_packed::PackedBuilder;
use pig_runs::Merged;
use std::alloc::{AllocError, Global};

/// Adds the rows of an operator by key over these entries.
pub fn add_gathered(
    alloc: Global,
    how: &Gathering,
    entries: &Merged,
    built: &mut PackedBuilder,
) -> Result<(), AllocError>
    requires ascending { entries.now.dirs ≡ [] }
    requires none_begun { built.old.begun ≡ [] }
    ensures { OnOk result (built.new
        ≡ and_rows (gathered (made how.now) entries.now.entries) built.old) }
{
    let mut from = 0;
    'groups: while from < entries.len() {
        from = add_next(alloc, how, entries, from, built)?;
    }
    Ok(())
}

// Adds the rows of the group that begins at a place, and says where it ends.
fn add_next(
    alloc: Global,
    how: &Gathering,
    entries: &Merged,
    from: usize,
    built: &mut PackedBuilder,
) -> Result<usize, AllocError>
    requires ascending { entries.now.dirs ≡ [] }
    requires none_begun { built.old.begun ≡ [] }
    requires within { from < length entries.now.entries }
    ensures rows { IfOk result (λ end. built.old.rows ++ to_come how.now entries.now from
        ≡ built.new.rows ++ to_come how.now entries.now end) }
    ensures none_begun { IfOk result (λ end. built.new.begun ≡ []) }
    ensures order { IfOk result (λ end. from < end) }
    ensures within { IfOk result (λ end. end ≤ length entries.now.entries) }
{
    entries.len();
    let end = group_end(entries, from);
    let group = Group { entries, from, end };
    add_group(alloc, how, &group, built)?;
    Ok(end)
}

// Adds the rows of a group.
fn add_group(
    alloc: Global,
    how: &Gathering,
    group: &Group<'_, '_>,
    built: &mut PackedBuilder,
) -> Result<(), AllocError>
    requires none_begun { built.old.begun ≡ [] }
    ensures { OnOk result (built.new
        ≡ and_rows (made how.now (key_of group.now) (bags_in group.now)) built.old) }
{
    match how {
        Gathering::Group => add_group_row(group, built),
        Gathering::Join { inputs } => add_joined(alloc, group, *inputs, built),
        Gathering::Cogroup { inner } => add_cogrouped(alloc, group, inner.as_slice(), built),
        Gathering::Outer { side, left, right } => {
            add_outer(alloc, group, *side, *left, *right, built)
        }
    }
}

// Adds the key of a group and the bag of its rows.
fn add_group_row(group: &Group<'_, '_>, built: &mut PackedBuilder) -> Result<(), AllocError>
    requires none_begun { built.old.begun ≡ [] }
    ensures { OnOk result (built.new
        ≡ and_rows (group_of (key_of group.now) (bags_in group.now)) built.old) }
{
    let bag = Stretch {
        entries: group.entries,
        from: group.from,
        end: first_end(group),
    };
    begin_by_key(group.entries, group.from, built)?;
    add_bag(&bag, built)?;
    end_fields(built)
}

// Adds the joined rows of a group.
fn add_joined(
    alloc: Global,
    group: &Group<'_, '_>,
    inputs: usize,
    built: &mut PackedBuilder,
) -> Result<(), AllocError>
    requires none_begun { built.old.begun ≡ [] }
    ensures { OnOk result (built.new
        ≡ and_rows (join_of inputs (key_of group.now) (bags_in group.now)) built.old) }
{
    let null = key_has_null(alloc, group.entries, group.from)?;
    if null {
        return Ok(());
    }
    add_partners(alloc, group, inputs, built)
}
