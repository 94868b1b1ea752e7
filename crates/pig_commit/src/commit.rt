//! The commit: each directory is made, filled and marked.
ghost use Rattle.std.specs.Prelude.{◌≡◌, ◌<◌, ◌^◌, [], length, map, IfErr, OnErr, OnOk};
ghost use Rattle.std.specs.List.{AllByRecursion, flat_map};
ghost use Rattle.std.specs.Option.{ForSome, option_map};
ghost use Rattle.pig_outside.specs.Faults.{HasCause};
ghost use Rattle.pig_outside.specs.Shelf.{CanCreate, IsOpen, LeftUnmarked, open_state, whole_state, with_dir};
ghost use Rattle.pig_commit.specs.Committed.{AreAbsent, AreApart, HasFewParts, HasStoreCause, IsFaultAt, IsStoppedAt, LeftOpen, with_stored};
ghost use Rattle.pig_commit.specs.Calls.{AskedFor, calls_of, put_calls, store_calls};

use crate::parts::{CommitFault, StorePart, StoreParts, commit_fault};
use pig_outside::{Depot, OutsideError};
use pig_value::Blob;

/// Makes the directory of each STORE in turn: puts its parts, and marks it behind the last one.
///
/// Where the depot fails, or memory is wanting, the directories before are whole and marked, the one at which it ended is
/// absent or unmarked, those behind it were not made, and all else is as it was.
pub fn commit_stores<D: Depot>(stores: &StoreParts, depot: &mut D) -> Result<(), CommitFault>
    requires absent { ForSome (D.shelf depot.old) (AreAbsent stores.now) }
    requires apart { AreApart stores.now }
    requires few { AllByRecursion HasFewParts stores.now }
    ensures stored { OnOk result (D.shelf depot.new
        ≡ option_map (with_stored stores.now) (D.shelf depot.old)) }
    ensures stopped { IfErr result (λ fault. IsStoppedAt stores.now fault
        (D.shelf depot.old) (D.shelf depot.new)) }
    ensures asked { AskedFor (flat_map store_calls stores.now) result
        (D.calls depot.old) (D.calls depot.new) }
    ensures cause { HasStoreCause (D.faults depot.old) (D.faults depot.new) result }
    ensures store_cause { HasStoreCause
        (D.store_faults depot.old) (D.store_faults depot.new) result }
{
    let stores = stores.as_slice();
    for place in 0..stores.len() {
        commit_store(&stores[place], depot)?;
    }
    Ok(())
}

// One directory.
fn commit_store<D: Depot>(store: &StorePart, depot: &mut D) -> Result<(), CommitFault>
    requires absent { ForSome (D.shelf depot.old) (CanCreate store.now.dir) }
    requires few { HasFewParts store.now }
    ensures stored { OnOk result (D.shelf depot.new
        ≡ option_map (with_dir store.now.dir (whole_state store.now.parts)) (D.shelf depot.old)) }
    ensures opened { OnErr result (LeftOpen store.now.dir
        (D.shelf depot.old) (D.shelf depot.new)) }
    ensures fault { IfErr result (IsFaultAt store.now.statement) }
    ensures asked { AskedFor (store_calls store.now) result
        (D.calls depot.old) (D.calls depot.new) }
    ensures cause { HasStoreCause (D.faults depot.old) (D.faults depot.new) result }
    ensures store_cause { HasStoreCause
        (D.store_faults depot.old) (D.store_faults depot.new) result }
{
    match make(depot, store.dir.as_str(), store.parts.as_slice()) {
        Ok(()) => Ok(()),
        Err(error) => Err(commit_fault(error, store.statement)),
    }
}

fn make<D: Depot>(depot: &mut D, dir: &str, parts: &[Blob]) -> Result<(), OutsideError>
    requires absent { ForSome (D.shelf depot.old) (CanCreate dir.now) }
    requires few { length parts.now < 2 ^ 32 }
    ensures stored { OnOk result (D.shelf depot.new
        ≡ option_map (with_dir dir.now (whole_state parts.now)) (D.shelf depot.old)) }
    ensures opened { OnErr result (LeftOpen dir.now (D.shelf depot.old) (D.shelf depot.new)) }
    ensures asked { AskedFor (calls_of dir.now parts.now) result
        (D.calls depot.old) (D.calls depot.new) }
    ensures cause { HasCause (D.faults depot.old) (D.faults depot.new) result }
    ensures store_cause { HasCause (D.store_faults depot.old) (D.store_faults depot.new) result }
{
    depot.create(dir)?;
    put_parts(depot, dir, parts)?;
    depot.finish(dir)
}

// The parts, in order, of a directory that has none yet.
fn put_parts<D: Depot>(depot: &mut D, dir: &str, parts: &[Blob]) -> Result<(), OutsideError>
    requires begun { ForSome (D.shelf depot.old) (IsOpen dir.now []) }
    requires few { length parts.now < 2 ^ 32 }
    ensures put { OnOk result (D.shelf depot.new
        ≡ option_map (with_dir dir.now (open_state parts.now)) (D.shelf depot.old)) }
    ensures opened { OnErr result (LeftUnmarked dir.now (D.shelf depot.old) (D.shelf depot.new)) }
    ensures asked { AskedFor (put_calls dir.now parts.now) result
        (D.calls depot.old) (D.calls depot.new) }
    ensures cause { HasCause (D.faults depot.old) (D.faults depot.new) result }
    ensures store_cause { HasCause (D.store_faults depot.old) (D.store_faults depot.new) result }
{
    for number in 0..parts.len() {
        depot.put(dir, number as u32, parts[number].as_slice())?;
    }
    Ok(())
}
