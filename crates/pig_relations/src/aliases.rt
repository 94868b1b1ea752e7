ghost use Rattle.std.specs.Prelude.{◌≡◌, ◌++◌, ℕ, List, [], ◌∷◌, Some, IfOk, OnOk, OnErr, string_bytes, if◌then◌else◌};
ghost use Rattle.std.specs.Str.{bytes_eq};
ghost use Rattle.std.specs.Option.{option_map};
ghost use Rattle.indexmap.specs.IndexMap.{get_by_text};
ghost use Rattle.pig_typing.specs.Results.{Tells};
ghost use Rattle.pig_relations.specs.Aliases.{IsIndex, aliases_of, relation_at, relation_of, relation_tree};

use crate::shared::SharedSchema;
use indexmap::IndexMap;
use pig_typing::{CheckKind, TypeFault};
use pig_value::{Seq, Text};
use std::alloc::{AllocError, Global};
use std::marker::Model;

/// A relation: the number of its node in the plan, and its columns.
#[derive(Drop)]
pub struct Relation {
    pub node: u32,
    pub columns: SharedSchema,
}

/// A relation with the alias that a statement gives it.
#[derive(Drop)]
pub struct Named {
    pub alias: Text,
    pub relation: Relation,
}

/// The aliases of relations so far. A later statement of an alias hides the earlier ones, and what an alias means is
/// found in constant time.
///
/// Contracts see them as the list of what the statements gave, in turn.
#[derive(Drop)]
pub struct Relations {
    alloc: Global,
    given: Seq<Named>,
    /// Where the latest relation of each alias stands.
    latest: IndexMap<String, usize>,
}

impl Model for Relations {
    ghost use Rattle.std.specs.Prelude.{List};
    ghost use Rattle.std.specs.Coded.{codes};
    ghost use Rattle.indexmap.specs.IndexMap.{get_by_text};
    ghost use Rattle.pig_value.specs.contracts.values.Kind as kind;
    ghost use Rattle.pig_schema.specs.contracts.schema.Field as field;
    ghost use Rattle.pig_relations.specs.declared.aliases.Named.{Named};
    ghost use Rattle.pig_relations.specs.Aliases.{IsIndex};

    ghost Value = { List Named };

    ghost coded = { Prim.hlevel (codes, kind.the_row.coded, field.the_row.coded) };

    ghost view = { λ r. r.given };

    ghost invariant = { λ r. IsIndex r.given (λ name. get_by_text r.latest name) };
}

impl Relations {
    /// No alias, which takes no memory; its calls will use `alloc`.
    pub fn new(alloc: Global) -> Relations
        ensures { result ≡ [] }
    {
        Relations {
            alloc,
            given: Seq::new(alloc),
            latest: IndexMap::new(alloc),
        }
    }

    /// Gives the alias to a relation, and lets the columns go of what it meant before. Where memory is wanting the aliases stay
    /// as they were.
    pub fn put(&mut self, alias: &Text, relation: Relation) -> Result<(), AllocError>
        ensures ok { OnOk result (aliases_of self.new ≡ aliases_of self.old
            ++ (alias.now, relation_tree relation) ∷ []) }
        ensures err { OnErr result (self.new ≡ self.old) }
    {
        self.let_go(alias)?;
        let alias = alias.copy(self.alloc)?;
        note(
            self.alloc,
            &mut self.given,
            &mut self.latest,
            Named { alias, relation },
        )
    }

    /// Lets the columns go of the relation that an alias means, which nothing is to ask for any more.
    pub fn let_go(&mut self, alias: &Text) -> Result<(), AllocError>
        ensures { self.new ≡ self.old }
    {
        if let Some(place) = self.latest.get(alias.as_str()) {
            let_go_at(self.alloc, &mut self.given, *place)?;
        }
        Ok(())
    }

    /// The relation that an alias means: that of its latest statement.
    pub fn latest(&self, alias: &Text) -> Option<&Relation>
        ensures { option_map (λ r. relation_tree r.now) result
            ≡ relation_at alias.now (aliases_of self.now) }
    {
        let place = *self.latest.get(alias.as_str())?;
        Some(&self.given.get(place)?.relation)
    }

    /// The relation that an alias means.
    ///
    /// # Errors
    ///
    /// UnknownAlias exactly where no statement gives the alias.
    #[tactic(auto, unfolding(crate::specs::Aliases::relation_of))]
    pub fn find(&self, alias: &Text) -> Result<&Relation, TypeFault>
        ensures { Tells (λ r. relation_tree r.now) (relation_of (aliases_of self.now) alias.now)
            result }
    {
        match self.latest(alias) {
            Some(relation) => Ok(relation),
            None => Err(TypeFault::Refused(CheckKind::UnknownAlias)),
        }
    }
}

// Lets the columns go of the relation at a place.
fn let_go_at(alloc: Global, given: &mut Seq<Named>, place: usize) -> Result<(), AllocError>
    ensures { given.new ≡ given.old }
{
    let gone = match given.get(place) {
        Some(named) => without_columns(alloc, named)?,
        None => return Ok(()),
    };
    given.replace(place, gone);
    Ok(())
}

// The relation, with columns that are told and not kept.
fn without_columns(alloc: Global, named: &Named) -> Result<Named, AllocError>
    ensures { IfOk result (λ n. n ≡ named.now) }
{
    let alias = named.alias.copy(alloc)?;
    let columns = named.relation.columns.let_go()?;
    let node = named.relation.node;
    let relation = Relation { node, columns };
    Ok(Named { alias, relation })
}

// Adds a relation to the list, and its place to the index.
fn note(
    alloc: Global,
    given: &mut Seq<Named>,
    latest: &mut IndexMap<String, usize>,
    named: Named,
) -> Result<(), AllocError>
    ensures ok { OnOk result (given.new ≡ given.old ++ named ∷ []) }
    ensures err { OnErr result (given.new ≡ given.old) }
    ensures index { IsIndex given.old (λ name. get_by_text latest.old name)
        → IsIndex given.new (λ name. get_by_text latest.new name) }
{
    let key = String::from_str(alloc, named.alias.as_str())?;
    let place = given.len();
    given.push(named)?;
    match set_place(latest, key, place) {
        Ok(()) => Ok(()),
        Err(refused) => {
            given.pop();
            Err(refused)
        }
    }
}

fn set_place(
    latest: &mut IndexMap<String, usize>,
    key: String,
    place: usize,
) -> Result<(), AllocError>
    ensures ok { OnOk result ((name : List ℕ) → get_by_text latest.new name
        ≡ (if bytes_eq name (string_bytes key) then Some place else get_by_text latest.old name)) }
    ensures err { OnErr result (latest.new.entries ≡ latest.old.entries) }
{
    latest.insert(key, place)?;
    Ok(())
}
