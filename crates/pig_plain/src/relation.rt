ghost use Rattle.std.specs.Prelude.{◌≡◌, ◌++◌, IfOk, OnOk};
ghost use Rattle.pig_value.specs.Trees.{rows_tree};
ghost use Rattle.pig_plain.specs.Coming.{coming, relation_rows, seen_rows};

use crate::copies::add_copies;
use crate::walking::Walk;
use pig_value::{Rows, Tuple};
use std::alloc::{AllocError, Global};

// The rows of a relation: as they stand, or as they will come.
#[derive(Drop)]
pub enum Relation<'p> {
    Standing(Rows),
    Coming(Walk<'p>),
}

// The rows of a relation, to be gone through once.
#[derive(Drop)]
pub enum Seen<'t, 'p> {
    Whole(&'t [Tuple]),
    Walked(Walk<'p>),
}

impl<'p> Relation<'p> {
    // The rows, all of them made.
    pub fn into_rows(self, alloc: Global) -> Result<Rows, AllocError>
        ensures { IfOk result (λ rows. rows_tree rows ≡ relation_rows self.entry) }
    {
        match self {
            Relation::Standing(rows) => Ok(rows),
            Relation::Coming(walk) => collected(alloc, walk),
        }
    }
}

// All rows of a walk.
//
// Here and below, a walk is borrowed where it is gone through, so that its owner alone lets it go, by one call.
pub fn collected(alloc: Global, walk: Walk) -> Result<Rows, AllocError>
    ensures { IfOk result (λ rows. rows_tree rows ≡ coming walk.entry) }
{
    let mut walk = walk;
    let mut rows = Rows::new(alloc);
    let added = add_coming(alloc, &mut walk, &mut rows);
    drop(walk);
    added?;
    Ok(rows)
}

// Adds all rows of a walk behind others.
pub fn add_coming(alloc: Global, walk: &mut Walk, made: &mut Rows) -> Result<(), AllocError>
    ensures { OnOk result (rows_tree made.new ≡ rows_tree made.old ++ coming walk.old) }
{
    'batches: loop {
        let rows = walk.next_batch(alloc)?;
        if rows.is_empty() {
            return Ok(());
        }
        made.extend(rows)?;
    }
}

// Adds copies of rows that stand behind others, or those that come.
pub fn add_seen(alloc: Global, seen: Seen, made: &mut Rows) -> Result<(), AllocError>
    ensures { OnOk result (rows_tree made.new ≡ rows_tree made.old ++ seen_rows seen.entry) }
{
    match seen {
        Seen::Whole(rows) => add_copies(alloc, rows, made),
        Seen::Walked(mut walk) => {
            let added = add_coming(alloc, &mut walk, made);
            drop(walk);
            added
        }
    }
}
