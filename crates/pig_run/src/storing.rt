//! STOREs, as they are noted and stored.
ghost use Rattle.std.specs.Prelude.{◌≡◌, map, IfErr, IfOk, OnOk};
ghost use Rattle.std.specs.List.{AllByRecursion, flat_map};
ghost use Rattle.std.specs.Option.{ForSome, option_map};
ghost use Rattle.pig_commit.specs.Calls.{AskedFor, store_calls};
ghost use Rattle.pig_commit.specs.Committed.{AreAbsent, AreApart, HasFewParts, with_stored};
ghost use Rattle.pig_run.specs.Running.{IsBrokenAt, note_of};
ghost use Rattle.pig_run.specs.Steps.{DepotCause, StoreBlame, commit_fault_of};

use crate::RunFault;
use crate::progress::{Noted, Notes};
use pig_collect::stored_lines;
use pig_commit::{CommitFault, StorePart, StoreParts, commit_stores};
use pig_outside::Depot;
use std::alloc::{AllocError, Global};

// The directories that are to be made, each with the number of its lines. Parts that 32 bits don't count are answered as want of
// memory; no wave has so many tasks.
pub fn note_all(alloc: Global, parts: &StoreParts) -> Result<Notes, AllocError>
    ensures notes { IfOk result (λ notes. notes ≡ map note_of parts.now) }
    ensures few { IfOk result (λ _. AllByRecursion HasFewParts parts.now) }
{
    let mut notes = Notes::new(alloc);
    let mut left = parts.as_slice();
    while let [part, rest @ ..] = left {
        notes.push(note(alloc, part)?)?;
        left = rest;
    }
    Ok(notes)
}

fn note(alloc: Global, part: &StorePart) -> Result<Noted, AllocError>
    ensures is { IfOk result (λ noted. noted ≡ note_of part.now) }
    ensures few { IfOk result (λ _. HasFewParts part.now) }
{
    if part.parts.len() as u64 > u64::from(u32::MAX) {
        return Err(AllocError);
    }
    let dir = part.dir.copy(alloc)?;
    let lines = stored_lines(&part.parts)?;
    Ok(Noted { dir, lines })
}

fn commit_fault(fault: CommitFault) -> RunFault
    ensures { result ≡ commit_fault_of fault }
{
    match fault {
        CommitFault::Store { statement } => RunFault::DepotFault {
            store: Some(statement),
        },
        CommitFault::OutOfMemory => RunFault::OutOfMemory,
    }
}

// Makes the directory of each STORE in turn, and marks it.
pub fn store_all<D: Depot>(depot: &mut D, parts: &StoreParts) -> Result<(), RunFault>
    requires absent { ForSome (D.shelf depot.old) (AreAbsent parts.now) }
    requires apart { AreApart parts.now }
    requires few { AllByRecursion HasFewParts parts.now }
    ensures ok { OnOk result (D.shelf depot.new
        ≡ option_map (with_stored parts.now) (D.shelf depot.old)) }
    ensures err { IfErr result (λ f. IsBrokenAt parts.now f
        (D.shelf depot.old) (D.shelf depot.new)) }
    ensures cause { DepotCause (D.faults depot.old) (D.faults depot.new) result }
    ensures stores { StoreBlame (D.store_faults depot.old) (D.store_faults depot.new) result }
    ensures asked { AskedFor (flat_map store_calls parts.now) result
        (D.calls depot.old) (D.calls depot.new) }
{
    match commit_stores(parts, depot) {
        Ok(()) => Ok(()),
        Err(fault) => Err(commit_fault(fault)),
    }
}
