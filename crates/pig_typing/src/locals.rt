ghost use Rattle.std.specs.Prelude.{◌≡◌, ◌++◌, ℕ, List, [], ◌∷◌, Some, OnOk, OnErr, map, string_bytes, if◌then◌else◌};
ghost use Rattle.std.specs.Option.{option_map};
ghost use Rattle.std.specs.Str.{bytes_eq};
ghost use Rattle.indexmap.specs.IndexMap.{get_by_text};
ghost use Rattle.pig_typing.specs.Latest.{IsIndex, latest, local_of, step_tree};

use indexmap::IndexMap;
use pig_schema::Field;
use pig_value::{Seq, Text};
use std::alloc::{AllocError, Global};
use std::marker::Model;

/// A nested alias, with the column that its step gives.
#[derive(Debug, Drop)]
pub struct Local {
    pub alias: Text,
    pub column: Field,
}

/// The nested aliases of a block so far. A later step of an alias hides the earlier ones, and what an alias means is
/// found in constant time.
///
/// Contracts see them as the list of what the steps gave, in turn.
#[derive(Drop)]
pub struct Locals {
    alloc: Global,
    given: Seq<Local>,
    /// The number of the latest step of each alias.
    latest: IndexMap<String, usize>,
}

impl Model for Locals {
    ghost use Rattle.std.specs.Prelude.{List};
    ghost use Rattle.std.specs.Coded.{codes};
    ghost use Rattle.indexmap.specs.IndexMap.{get_by_text};
    ghost use Rattle.pig_value.specs.contracts.values.Kind as kind;
    ghost use Rattle.pig_schema.specs.contracts.schema.Field as field;
    ghost use Rattle.pig_typing.specs.declared.locals.Local.{Local};
    ghost use Rattle.pig_typing.specs.Latest.{IsIndex};

    ghost Value = { List Local };

    ghost coded = { Prim.hlevel (codes, kind.the_row.coded, field.the_row.coded) };

    ghost view = { λ s. s.given };

    ghost invariant = { λ s. IsIndex s.given (λ name. get_by_text s.latest name) };
}

impl Locals {
    /// No alias, which takes no memory; its calls will use `alloc`.
    pub fn new(alloc: Global) -> Locals
        ensures { result ≡ [] }
    {
        Locals {
            alloc,
            given: Seq::new(alloc),
            latest: IndexMap::new(alloc),
        }
    }

    /// One step more. Where memory is wanting the aliases stay as they were.
    pub fn push(&mut self, local: Local) -> Result<(), AllocError>
        ensures ok { OnOk result (self.new ≡ self.old ++ local ∷ []) }
        ensures err { OnErr result (self.new ≡ self.old) }
    {
        note(self.alloc, &mut self.given, &mut self.latest, local)
    }

    /// The number of the latest step of an alias, and its column.
    pub fn latest(&self, alias: &Text) -> Option<(usize, &Field)>
        ensures { option_map step_tree result ≡ latest alias.now (map local_of self.now) }
    {
        let number = *self.latest.get(alias.as_str())?;
        Some((number, &self.given.get(number)?.column))
    }
}

// Adds a step to the list, and its number to the index.
fn note(
    alloc: Global,
    given: &mut Seq<Local>,
    latest: &mut IndexMap<String, usize>,
    local: Local,
) -> Result<(), AllocError>
    ensures ok { OnOk result (given.new ≡ given.old ++ local ∷ []) }
    ensures err { OnErr result (given.new ≡ given.old) }
    ensures index { IsIndex given.old (λ name. get_by_text latest.old name)
        → IsIndex given.new (λ name. get_by_text latest.new name) }
{
    let key = String::from_str(alloc, local.alias.as_str())?;
    let number = given.len();
    given.push(local)?;
    match set_number(latest, key, number) {
        Ok(()) => Ok(()),
        Err(refused) => {
            given.pop();
            Err(refused)
        }
    }
}

fn set_number(
    latest: &mut IndexMap<String, usize>,
    key: String,
    number: usize,
) -> Result<(), AllocError>
    ensures ok { OnOk result ((name : List ℕ) → get_by_text latest.new name
        ≡ (if bytes_eq name (string_bytes key) then Some number else get_by_text latest.old name)) }
    ensures err { OnErr result (latest.new.entries ≡ latest.old.entries) }
{
    latest.insert(key, number)?;
    Ok(())
}
