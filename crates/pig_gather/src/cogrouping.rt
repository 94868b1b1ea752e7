ghost use Rattle.std.specs.Prelude.{◌≡◌, ◌<◌, [], length, OnOk, if◌then◌else◌};
ghost use Rattle.pig_value.specs.Orders.{bag_of};
ghost use Rattle.pig_packed.specs.Growth.{and_bytes, and_row, and_rows};
ghost use Rattle.pig_plan.specs.ByKey.{all_there, as_bag, bags_of, cogroup_of, kept_where};
ghost use Rattle.pig_operators.specs.Groups.{apart_rows, first_key, lone_rows, rows_alone};
ghost use Rattle.pig_gather.specs.Fields.{field_code};
ghost use Rattle.pig_gather.specs.Lent.{bags_in, key_of, rows_of};

use crate::groups::input_end;
use crate::key_nulls::key_has_null;
use crate::lent::{Group, Stretch};
use crate::pieces::{add_bag, begin_by_key, end_fields};
use pig_operators::{has_own_row, is_missing};
use pig_packed::PackedBuilder;
use std::alloc::{AllocError, Global};

// Adds the rows of COGROUP of a group: a key that holds a null groups apart for each input.
pub(crate) fn add_cogrouped(
    alloc: Global,
    group: &Group<'_, '_>,
    inner: &[bool],
    built: &mut PackedBuilder,
) -> Result<(), AllocError>
    requires none_begun { built.old.begun ≡ [] }
    ensures { OnOk result (built.new ≡ and_rows (cogroup_of inner.now (length inner.now)
        (key_of group.now) (bags_in group.now)) built.old) }
{
    let null = key_has_null(alloc, group.entries, group.from)?;
    if null {
        return add_apart(group, inner, built);
    }
    add_together(group, inner, built)
}

// Adds the key and the bag of each input, where none of an INNER input is empty.
fn add_together(
    group: &Group<'_, '_>,
    inner: &[bool],
    built: &mut PackedBuilder,
) -> Result<(), AllocError>
    requires none_begun { built.old.begun ≡ [] }
    ensures { OnOk result (built.new ≡ and_rows
        (kept_where (all_there inner.now 0 (bags_in group.now))
        (bags_of (length inner.now) (key_of group.now) (bags_in group.now))) built.old) }
{
    let entries = group.entries;
    entries.len();
    begin_by_key(entries, group.from, built)?;
    let mut at = group.from;
    for input in 0..inner.len() {
        let next = input_end(entries, at, group.end, input);
        if is_missing(inner[input], at, next) {
            built.undo();
            return Ok(());
        }
        let bag = Stretch {
            entries,
            from: at,
            end: next,
        };
        add_bag(&bag, built)?;
        at = next;
    }
    end_fields(built)
}

// Adds a row for each input that has rows, with empty bags for the others.
fn add_apart(
    group: &Group<'_, '_>,
    inner: &[bool],
    built: &mut PackedBuilder,
) -> Result<(), AllocError>
    requires none_begun { built.old.begun ≡ [] }
    ensures { OnOk result (built.new ≡ and_rows (apart_rows inner.now (key_of group.now)
        (bags_in group.now) (length inner.now)) built.old) }
{
    let entries = group.entries;
    entries.len();
    let mut at = group.from;
    for input in 0..inner.len() {
        let next = input_end(entries, at, group.end, input);
        let own = Stretch {
            entries,
            from: at,
            end: next,
        };
        add_lone_row(group.from, &own, input, inner, built)?;
        at = next;
    }
    Ok(())
}

// Adds the row of one input alone, where it has rows and no other input is INNER.
fn add_lone_row(
    key: usize,
    own: &Stretch<'_, '_>,
    input: usize,
    inner: &[bool],
    built: &mut PackedBuilder,
) -> Result<(), AllocError>
    requires ascending { own.now.entries.now.dirs ≡ [] }
    requires key { key < length own.now.entries.now.entries }
    requires bag { bag_of (rows_of own.now) ≡ rows_of own.now }
    requires none_begun { built.old.begun ≡ [] }
    ensures { OnOk result (built.new ≡ and_rows (lone_rows inner.now
        (first_key own.now.entries.now key) input (rows_of own.now)) built.old) }
{
    if has_own_row(inner, input, own.from, own.end) {
        return add_lone(key, own, input, inner.len(), built);
    }
    Ok(())
}

// Adds the key of an entry, the bag of the rows of one input, and empty bags for the others.
fn add_lone(
    key: usize,
    own: &Stretch<'_, '_>,
    input: usize,
    inputs: usize,
    built: &mut PackedBuilder,
) -> Result<(), AllocError>
    requires ascending { own.now.entries.now.dirs ≡ [] }
    requires key { key < length own.now.entries.now.entries }
    requires bag { bag_of (rows_of own.now) ≡ rows_of own.now }
    requires none_begun { built.old.begun ≡ [] }
    ensures { OnOk result (built.new ≡ and_row (bags_of inputs
        (first_key own.now.entries.now key) (rows_alone input (rows_of own.now))) built.old) }
{
    own.entries.len();
    begin_by_key(own.entries, key, built)?;
    for i in 0..inputs {
        add_bag_where(i == input, own, built)?;
    }
    end_fields(built)
}

// Adds the bag of these rows, or an empty one.
fn add_bag_where(
    here: bool,
    own: &Stretch<'_, '_>,
    built: &mut PackedBuilder,
) -> Result<(), AllocError>
    ensures { OnOk result (built.new ≡ and_bytes
        (field_code (as_bag (if here then rows_of own.now else []))) built.old) }
{
    if here {
        return add_bag(own, built);
    }
    let none = Stretch {
        entries: own.entries,
        from: own.from,
        end: own.from,
    };
    add_bag(&none, built)
}
