ghost use Rattle.std.specs.Prelude.{◌≡◌, ◌∷◌, ◌++◌, [], ℕ, List, Some, OnOk, IfOk, map, if◌then◌else◌};
ghost use Rattle.std.specs.Option.{option_map};
ghost use Rattle.std.specs.Str.{bytes_eq};
ghost use Rattle.pig_params.specs.Directives.{directive, line_of};
ghost use Rattle.pig_params.specs.Given.{named_of};
ghost use Rattle.pig_params.specs.Known.{AreValues, Passes, value_in};
ghost use Rattle.pig_params.specs.Substitution.{or_else};
ghost use Rattle.pig_params.specs.Tables.{found_in};

use crate::Params;
use crate::directives::Word;
use crate::values::{Table, find, set};
use std::alloc::{AllocError, Global};

// The values that are known at a line of a script.
#[derive(Drop)]
pub(crate) struct Known<'a> {
    // What is given, and what `%declare` set in its place.
    pub(crate) fixed: Table<'a>,
    // What `%default` set.
    pub(crate) defaults: Table<'a>,
}

// The value of a name.
pub(crate) fn value_of<'a>(known: &Known<'a>, name: &[u8]) -> Option<&'a [u8]>
    ensures { option_map (λ v. v.now) result ≡ value_in known.now name.now }
{
    match find(&known.fixed, name) {
        Some(value) => Some(value),
        None => find(&known.defaults, name),
    }
}

// What is known at the first line.
pub(crate) fn known_first<'a>(alloc: Global, given: &'a Params) -> Result<Known<'a>, AllocError>
    ensures { IfOk result (λ k. AreValues (map named_of given.now) [] k) }
{
    let mut known = Known {
        fixed: Table::new(alloc),
        defaults: Table::new(alloc),
    };
    for param in given.as_slice() {
        set(
            &mut known.fixed,
            param.name.as_bytes(),
            param.value.as_bytes(),
        )?;
    }
    Ok(known)
}

// What is known behind a directive.
pub(crate) fn note<'a>(
    known: &mut Known<'a>,
    word: Word,
    name: &'a [u8],
    value: &'a [u8],
) -> Result<(), AllocError>
    ensures { OnOk result ((line : List ℕ)
        → directive word name.entry.now value.entry.now ≡ line_of line
        → Passes line known.old known.new) }
{
    match word {
        Word::Declare => set(&mut known.fixed, name, value),
        Word::Default => set(&mut known.defaults, name, value),
    }
}
