ghost use Rattle.std.specs.Prelude.{◌≡◌, ◌<◌, ◌∷◌, [], List, length, slice_get, Some, OnOk};
ghost use Rattle.pig_value.specs.Gathering.{Entry};
ghost use Rattle.pig_value.specs.Trees.{Tree};
ghost use Rattle.pig_packed.specs.Growth.{and_bytes, and_row};
ghost use Rattle.pig_plan.specs.ByKey.{as_bag};
ghost use Rattle.pig_operators.specs.Groups.{first_key};
ghost use Rattle.pig_gather.specs.Lent.{rows_of};
ghost use Rattle.pig_gather.specs.Fields.{Begins, IsBegun, begun_code, field_code, item_code, items_code};

use crate::lent::Stretch;
use pig_packed::PackedBuilder;
use pig_runs::Merged;
use std::alloc::AllocError;

// Begins a row whose first field is the key of an entry.
pub(crate) fn begin_by_key(
    entries: &Merged,
    at: usize,
    built: &mut PackedBuilder,
) -> Result<(), AllocError>
    requires within { at < length entries.now.entries }
    requires ascending { entries.now.dirs ≡ [] }
    ensures { OnOk result (built.new
        ≡ and_bytes (begun_code (first_key entries.now at ∷ [])) built.old) }
{
    built.write(&[6, 1])?;
    built.write(entries.lend(at).key)
}

// Adds the row of an entry to the bag that is begun.
fn add_item(entries: &Merged, at: usize, built: &mut PackedBuilder) -> Result<(), AllocError>
    requires { at < length entries.now.entries }
    ensures { (e : Entry) → slice_get entries.now.entries at ≡ Some e
        → OnOk result (built.new ≡ and_bytes (item_code e.row) built.old) }
{
    built.write(&[1])?;
    built.write(entries.lend(at).row)
}

// Adds the rows of the entries from a place up to another to the bag that is begun.
fn add_items(stretch: &Stretch<'_, '_>, built: &mut PackedBuilder) -> Result<(), AllocError>
    ensures { OnOk result (built.new ≡ and_bytes (items_code (rows_of stretch.now)) built.old) }
{
    for at in stretch.from..stretch.end {
        add_item(stretch.entries, at, built)?;
    }
    Ok(())
}

// Adds the bag of these rows to the row that is begun.
pub(crate) fn add_bag(
    stretch: &Stretch<'_, '_>,
    built: &mut PackedBuilder,
) -> Result<(), AllocError>
    ensures { OnOk result (built.new
        ≡ and_bytes (field_code (as_bag (rows_of stretch.now))) built.old) }
{
    built.write(&[1, 7])?;
    add_items(stretch, built)?;
    built.write(&[0])
}

// Ends the row that is begun by its fields.
pub(crate) fn end_fields(built: &mut PackedBuilder) -> Result<(), AllocError>
    requires { IsBegun built.old.begun }
    ensures { (row : List Tree) → Begins built.old.begun row
        → OnOk result (built.new ≡ and_row row built.old) }
{
    built.write(&[0])?;
    built.end_row()
}
