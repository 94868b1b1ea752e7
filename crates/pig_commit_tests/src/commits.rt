// Commits over a depot in memory: what stands where a call of the depot fails.
//
// The STORE of statement 3 makes `p` with two parts, by four calls; that of statement 4 makes `q` with none, by two.
ghost use Rattle.std.specs.Prelude.{◌≡◌, ◌++◌, ◌∷◌, []};
ghost use Rattle.pig_outside.specs.Memory.{depot_shelf};
ghost use Rattle.pig_commit_tests.specs.TwoStores.{two_stores};

use pig_commit::{CommitFault, StorePart, StoreParts, commit_stores};
use pig_outside::{Calls, MemoryDepot, Sources};
use pig_value::{Blob, Blobs, Inputs, Text};
use std::alloc::Global;
use std::process::Abort;

/// Both STOREs.
fn two_stores<R: Abort>(rt: &R, alloc: Global) -> StoreParts
    ensures { result ≡ two_stores }
{
    let mut parts = Blobs::new(alloc);
    let first = Blob::from_slice(alloc, b"1\n").expect(rt, "memory");
    parts.push(first).expect(rt, "memory");
    let second = Blob::from_slice(alloc, b"2\n").expect(rt, "memory");
    parts.push(second).expect(rt, "memory");
    let mut stores = StoreParts::new(alloc);
    let p = Text::from_str(alloc, "p").expect(rt, "memory");
    push(rt, &mut stores, 3, p, parts);
    let q = Text::from_str(alloc, "q").expect(rt, "memory");
    push(rt, &mut stores, 4, q, Blobs::new(alloc));
    stores
}

fn push<R: Abort>(rt: &R, stores: &mut StoreParts, statement: u32, dir: Text, parts: Blobs)
    ensures { stores.new ≡ stores.old
        ++ record { statement = statement; dir = dir; parts = parts } ∷ [] }
{
    let store = StorePart {
        statement,
        dir,
        parts,
    };
    stores.push(store).expect(rt, "memory");
}

/// The statement that a commit of both to an empty depot blames, or 0 where it stores both, and 1 where memory is wanting.
fn blamed(depot: &mut MemoryDepot, stores: &StoreParts) -> u32
    requires empty { (depot_shelf depot.old).dirs ≡ [] }
    requires two { stores.now ≡ two_stores }
{
    match commit_stores(stores, depot) {
        Ok(()) => 0,
        Err(CommitFault::Store { statement }) => statement,
        Err(CommitFault::OutOfMemory) => 1,
    }
}

/// How many parts a directory has, and whether it is marked. None: it isn't there.
fn standing(depot: &MemoryDepot, dir: &str) -> Option<(usize, bool)> {
    let state = depot.dir(dir)?;
    Some((state.parts.len(), state.marked))
}

/// Where one call of the depot fails, the STORE whose call it is is blamed; what is before it is whole, and what is
/// behind it isn't there.
#[test]
fn one_call_of_a_depot_fails(rt: HostRuntime) {
    let alloc = rt.alloc();
    let stores = two_stores(&rt, alloc);
    for (number, statement, first, second) in [
        (1, 3, None, None),
        (2, 3, Some((0, false)), None),
        (3, 3, Some((1, false)), None),
        (4, 3, Some((2, false)), None),
        (5, 4, Some((2, true)), None),
        (6, 4, Some((2, true)), Some((0, false))),
        (7, 0, Some((2, true)), Some((0, true))),
    ] {
        let mut depot = MemoryDepot::new(
            alloc,
            Sources::new(alloc),
            Inputs::new(alloc),
            Calls::new(alloc),
        );
        depot.fail_once(number);
        assert_eq!(rt; blamed(&mut depot, &stores), statement);
        assert!(rt; standing(&depot, "p") == first && standing(&depot, "q") == second);
        drop(depot);
    }
    drop(stores);
}

/// The parts stand in their order.
#[test]
fn parts_are_stored_in_order(rt: HostRuntime) {
    let alloc = rt.alloc();
    let stores = two_stores(&rt, alloc);
    let mut depot = MemoryDepot::new(
        alloc,
        Sources::new(alloc),
        Inputs::new(alloc),
        Calls::new(alloc),
    );
    assert_eq!(rt; blamed(&mut depot, &stores), 0);
    let state = depot.dir("p").expect(&rt, "the directory");
    for (number, bytes) in [(0, b"1\n"), (1, b"2\n")] {
        let part = state.parts.get(number).expect(&rt, "the part");
        assert_eq!(rt; part.as_slice(), bytes.as_slice());
    }
    drop((depot, stores));
}
