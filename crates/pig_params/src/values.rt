ghost use Rattle.std.specs.Prelude.{◌≡◌, ℕ, List, Some, None, OnOk, OnErr, if◌then◌else◌};
ghost use Rattle.std.specs.Option.{option_map};
ghost use Rattle.std.specs.Str.{bytes_eq};
ghost use Rattle.pig_params.specs.Tables.{found_in};

use indexmap::IndexMap;
use pig_value::{Seq, Text};
use std::alloc::AllocError;

/// A parameter that the words of a command line give.
#[derive(Debug, Drop)]
pub struct Param {
    /// An ASCII letter or `_`, and then letters, digits and `_`.
    pub name: Text,
    /// What is put for the name; it may be empty.
    pub value: Text,
}

/// Parameters in the order in which they are given. Of two with one name the later counts.
pub type Params = Seq<Param>;

// Values by name, both as they stand in the script or in what is given.
pub(crate) type Table<'a> = IndexMap<&'a [u8], &'a [u8]>;

// Gives a name a value, in the place of one that it had.
pub(crate) fn set<'a>(
    table: &mut Table<'a>,
    name: &'a [u8],
    value: &'a [u8],
) -> Result<(), AllocError>
    ensures ok { OnOk result ((n : List ℕ) → found_in table.new n
        ≡ (if bytes_eq name.entry.now n then Some value.entry.now else found_in table.old n)) }
{
    table.insert(name, value)?;
    Ok(())
}

// The value that a name has.
pub(crate) fn find<'a>(table: &Table<'a>, name: &[u8]) -> Option<&'a [u8]>
    ensures { option_map (λ v. v.now) result ≡ found_in table.now name.now }
{
    table.get(name).copied()
}
