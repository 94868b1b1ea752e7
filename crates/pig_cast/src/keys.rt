ghost use Rattle.std.specs.Prelude.{◌≡◌, map, IfOk, OnOk, string_bytes};
ghost use Rattle.std.specs.BTreeMap.{insert_entry};
ghost use Rattle.pig_value.specs.Orders.{text_cmp};
ghost use Rattle.pig_value.specs.Trees.{entry_of, tree};
ghost use Rattle.pig_cast.specs.Keyed.{keyed};

use pig_value::{Pair, Pairs, Seq, Text, Value};
use std::alloc::{AllocError, Global};
use std::collections::BTreeMap;

/// Puts a value at a key, in the place of an earlier one.
pub(crate) fn put(
    entries: &mut BTreeMap<String, Value>,
    key: String,
    value: Value,
) -> Result<(), AllocError>
    ensures { OnOk result (map keyed entries.new.entries
        ≡ insert_entry text_cmp (map keyed entries.old.entries) (string_bytes key) (tree value)) }
{
    entries.insert(key, value)?;
    Ok(())
}

/// The pairs of a map, by ascending keys.
pub(crate) fn in_order(alloc: Global, entries: BTreeMap<String, Value>) -> Result<Pairs, AllocError>
    ensures { IfOk result (λ pairs. map entry_of pairs ≡ map keyed entries.entries) }
{
    let mut ordered = Vec::with_capacity(alloc, entries.len())?;
    for (key, value) in entries {
        ordered.push(Pair {
            key: Text::from_string(key),
            value,
        })?;
    }
    Ok(Seq::from_vec(ordered))
}
