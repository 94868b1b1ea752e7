//! DISTINCT of what tasks combined: each different key once, written as a row.
ghost use Rattle.std.specs.Prelude.{◌≡◌, ◌==◌, [], get_or, map, OnOk};
ghost use Rattle.pig_value.specs.Orders.{tree_cmp};
ghost use Rattle.pig_value.specs.Sorts.{distinct};
ghost use Rattle.pig_value.specs.Trees.{Tree};
ghost use Rattle.pig_keycode.specs.Codable.{IsCodeOf};
ghost use Rattle.pig_packed.specs.Growth.{and_row, and_rows};
ghost use Rattle.pig_physical.specs.Values.{key_row};
ghost use Rattle.pig_reduce.specs.Made.{IsSomeCode};

use crate::groups::group_end;
use pig_packed::PackedBuilder;
use pig_runs::Merged;
use std::alloc::AllocError;

// Adds the row of each different key, in ascending order.
pub(crate) fn add_keys(entries: &Merged, built: &mut PackedBuilder) -> Result<(), AllocError>
    requires ascending { entries.now.dirs ≡ [] }
    requires none_begun { built.old.begun ≡ [] }
    ensures { OnOk result (built.new ≡ and_rows (map key_row
        (distinct tree_cmp (map (λ e. e.key) entries.now.entries))) built.old) }
{
    let mut from = 0;
    'groups: while from < entries.len() {
        push_key(entries.lend(from).key, built)?;
        from = group_end(entries, from);
    }
    Ok(())
}

// Adds the row that a key is, by the key's code: that of a tuple is its row's, and another key has no
// fields.
fn push_key(code: &[u8], built: &mut PackedBuilder) -> Result<(), AllocError>
    requires none_begun { built.old.begun ≡ [] }
    requires key { IsSomeCode code.now }
    ensures { (key : Tree) → IsCodeOf code.now key
        → OnOk result (built.new ≡ and_row (key_row key) built.old) }
{
    if is_tuple(code) {
        return built.push_code(code);
    }
    built.push_code(&[6, 0])
}

// Whether a code is that of a tuple.
fn is_tuple(code: &[u8]) -> bool
    ensures { result ≡ (get_or code.now 0 0 == 6) }
{
    match code {
        [tag, ..] => *tag == 6,
        [] => false,
    }
}
