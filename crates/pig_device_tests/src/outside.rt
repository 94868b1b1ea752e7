// Devices in memory: that each call succeeds with ample memory, and those that are to fail.
//
// Where memory is wanting the process ends: that drops nothing, so its proof is short.
// Trees end by `drop`: one call is cheap to prove, and a tree that dies by name is taken apart variant by variant.
ghost use Rattle.std.specs.Prelude.{◌≡◌, ◌∷◌, []};
ghost use Rattle.pig_outside.specs.Memory.{host_inputs};
ghost use Rattle.pig_device_tests.specs.OneInput.{one_input};

use pig_outside::*;
use pig_value::{Blob, Input, Inputs, Seq, Text};
use std::alloc::Global;
use std::process::Abort;

/// One call that is to fail.
fn failing<R: Abort>(rt: &R, alloc: Global, method: Method, number: u64) -> Calls {
    let mut calls = Calls::new(alloc);
    add_failing(rt, &mut calls, method, number);
    calls
}

/// One call more that is to fail.
fn add_failing<R: Abort>(rt: &R, calls: &mut Calls, method: Method, number: u64) {
    calls.push(Call { method, number }).expect(rt, "memory");
}

/// One input of one piece.
fn inputs<R: Abort>(rt: &R, alloc: Global, path: &str, bytes: &[u8]) -> Inputs
    ensures { result ≡ record { path = path.now; pieces = bytes.now ∷ [] } ∷ [] }
{
    let mut pieces = Seq::new(alloc);
    let piece = Blob::from_slice(alloc, bytes).expect(rt, "memory");
    pieces.push(piece).expect(rt, "memory");
    let path = Text::from_str(alloc, path).expect(rt, "memory");
    let mut inputs = Inputs::new(alloc);
    inputs.push(Input { path, pieces }).expect(rt, "memory");
    inputs
}

/// One script.
fn scripts<R: Abort>(rt: &R, alloc: Global, path: &str, bytes: &[u8]) -> Sources {
    let path = Text::from_str(alloc, path).expect(rt, "memory");
    let bytes = Blob::from_slice(alloc, bytes).expect(rt, "memory");
    let mut scripts = Sources::new(alloc);
    scripts.push(Source { path, bytes }).expect(rt, "memory");
    scripts
}

/// Stores one part in a directory that isn't there, and marks it. False: it is there.
fn store<D: Depot>(depot: &mut D, dir: &str, bytes: &[u8]) -> Result<bool, OutsideError> {
    if depot.exists(dir)? {
        return Ok(false);
    }
    depot.create(dir)?;
    depot.put(dir, 0, bytes)?;
    depot.finish(dir)?;
    Ok(true)
}

/// The lengths of an input's pieces.
fn lengths<R: Abort, D: Depot>(rt: &R, depot: &mut D, path: &str) -> Seq<u64> {
    let found = depot.pieces(path).expect(rt, "an answer");
    found.expect(rt, "the input")
}

/// Whether there is no such input.
fn is_absent<R: Abort, D: Depot>(rt: &R, depot: &mut D, path: &str) -> bool {
    let found = depot.pieces(path).expect(rt, "an answer");
    let is = found.is_none();
    drop(found);
    is
}

/// Whether the depot fails at an input.
fn fails<D: Depot>(depot: &mut D, path: &str) -> bool {
    let found = depot.pieces(path);
    let is = found.is_err();
    drop(found);
    is
}

#[test]
fn a_depot_gives_what_it_has(rt: HostRuntime) {
    let alloc = rt.alloc();
    let scripts = scripts(&rt, alloc, "s", b"abc");
    let inputs = inputs(&rt, alloc, "in", b"xyz");
    let third = failing(&rt, alloc, Method::Pieces, 3);
    let mut depot = MemoryDepot::new(alloc, scripts, inputs, third);
    let mut read = Vec::new(alloc);
    assert_eq!(rt; depot.script("t", 2, &mut read), Ok(false));
    assert_eq!(rt; depot.script("s", 2, &mut read), Ok(true));
    assert_eq!(rt; depot.script("s", 9, &mut read), Ok(true));
    assert_eq!(rt; read.as_slice(), b"ababc".as_slice());
    let lengths = lengths(&rt, &mut depot, "in");
    assert_eq!(rt; lengths.as_slice(), [3].as_slice());
    assert!(rt; is_absent(&rt, &mut depot, "s"));
    assert!(rt; fails(&mut depot, "in"));
    drop(depot);
}

#[test]
fn a_directory_is_unmarked_until_it_is_whole(rt: HostRuntime) {
    let alloc = rt.alloc();
    let scripts = scripts(&rt, alloc, "s", b"abc");
    let inputs = inputs(&rt, alloc, "in", b"xyz");
    let second = failing(&rt, alloc, Method::Finish, 2);
    let mut depot = MemoryDepot::new(alloc, scripts, inputs, second);
    assert_eq!(rt; store(&mut depot, "p", b"1\n"), Ok(true));
    assert_eq!(rt; store(&mut depot, "q", b"2\n"), Err(OutsideError::Failed));
    assert_eq!(rt; store(&mut depot, "p", b"3\n"), Ok(false));
    for (dir, bytes, marked) in [("p", b"1\n", true), ("q", b"2\n", false)] {
        let state = depot.dir(dir).expect(&rt, "the directory");
        assert_eq!(rt; state.marked, marked);
        assert_eq!(rt; state.parts.len(), 1);
        let part = state.parts.get(0).expect(&rt, "the part");
        assert_eq!(rt; part.as_slice(), bytes.as_slice());
    }
    assert!(rt; depot.dir("r").is_none());
    drop(depot);
}

/// A depot that has nothing.
fn empty_depot(alloc: Global, failing: Calls) -> MemoryDepot {
    MemoryDepot::new(alloc, Sources::new(alloc), Inputs::new(alloc), failing)
}

/// Of each method by which a directory is made the second call fails. What stands of the second directory then is
/// whether it is there, and how many parts it has.
#[test]
fn a_second_call_fails(rt: HostRuntime) {
    let alloc = rt.alloc();
    for (method, parts) in [
        (Method::Exists, None),
        (Method::Create, None),
        (Method::Put, Some(0)),
        (Method::Finish, Some(1)),
    ] {
        let mut depot = empty_depot(alloc, failing(&rt, alloc, method, 2));
        assert_eq!(rt; store(&mut depot, "p", b"1\n"), Ok(true));
        assert_eq!(rt; store(&mut depot, "q", b"2\n"), Err(OutsideError::Failed));
        assert!(rt; depot.dir("p").is_some_and(|state| state.marked));
        match depot.dir("q") {
            Some(state) => assert!(rt; !state.marked && parts == Some(state.parts.len())),
            None => assert!(rt; parts.is_none()),
        }
        drop(depot);
    }
}

/// Of both methods that look at what is there the second call fails, and a failed `script` appends nothing.
#[test]
fn a_second_look_fails(rt: HostRuntime) {
    let alloc = rt.alloc();
    let mut second = failing(&rt, alloc, Method::Script, 2);
    add_failing(&rt, &mut second, Method::Pieces, 2);
    let scripts = scripts(&rt, alloc, "s", b"abc");
    let inputs = inputs(&rt, alloc, "in", b"xyz");
    let mut depot = MemoryDepot::new(alloc, scripts, inputs, second);
    let mut read = Vec::new(alloc);
    assert_eq!(rt; depot.script("s", 2, &mut read), Ok(true));
    assert_eq!(rt; depot.script("s", 2, &mut read), Err(OutsideError::Failed));
    assert_eq!(rt; depot.script("s", 1, &mut read), Ok(true));
    assert_eq!(rt; read.as_slice(), b"aba".as_slice());
    assert!(rt; !fails(&mut depot, "in"));
    assert!(rt; fails(&mut depot, "in"));
    assert!(rt; !fails(&mut depot, "in"));
    drop(depot);
}

/// Reads the last two bytes of the input `in`, whose one piece is `xyz`.
fn read_end(host: &mut MemoryHost) -> Result<[u8; 2], OutsideError>
    requires { host_inputs host.old ≡ one_input }
    ensures { host_inputs host.new ≡ host_inputs host.old }
{
    let mut into = [0; 2];
    host.read("in", 0, 1, &mut into)?;
    Ok(into)
}

#[test]
fn a_host_reads_a_range(rt: HostRuntime) {
    let alloc = rt.alloc();
    let mut second = failing(&rt, alloc, Method::Begin, 2);
    add_failing(&rt, &mut second, Method::Read, 2);
    let mut host = MemoryHost::new(inputs(&rt, alloc, "in", b"xyz"), second);
    assert_eq!(rt; host.begin(0, 0, 0), Ok(()));
    assert_eq!(rt; host.begin(0, 0, 1), Err(Failed));
    assert_eq!(rt; host.begin(0, 0, 2), Ok(()));
    assert_eq!(rt; read_end(&mut host), Ok([b'y', b'z']));
    assert_eq!(rt; read_end(&mut host), Err(OutsideError::Failed));
    assert_eq!(rt; read_end(&mut host), Ok([b'y', b'z']));
    drop(host);
}

#[test]
fn a_console_keeps_its_text(rt: HostRuntime) {
    let alloc = rt.alloc();
    let second = failing(&rt, alloc, Method::Write, 2);
    let mut console = MemoryConsole::new(alloc, second);
    assert_eq!(rt; console.write(b"ab"), Ok(()));
    assert_eq!(rt; console.write(b"cd"), Err(OutsideError::Failed));
    assert_eq!(rt; console.write(b"ef"), Ok(()));
    assert_eq!(rt; console.text(), b"abef".as_slice());
    drop(console);
}

/// How many parts a directory has, and whether it is marked. None: it isn't there.
fn standing(depot: &MemoryDepot, dir: &str) -> Option<(usize, bool)> {
    let state = depot.dir(dir)?;
    Some((state.parts.len(), state.marked))
}

/// A directory of one part that is whole.
const WHOLE: Option<(usize, bool)> = Some((1, true));

/// Whether a directory is stored exactly where it stands whole behind that, and otherwise stands so.
fn stores(depot: &mut MemoryDepot, dir: &str, stands: Option<(usize, bool)>) -> bool {
    let ends = if stands == WHOLE {
        Ok(true)
    } else {
        Err(OutsideError::Failed)
    };
    store(depot, dir, b"1\n") == ends && standing(depot, dir) == stands
}

/// To store a directory takes four calls of a depot. Where one call fails, whatever its method, this one alone does.
#[test]
fn one_call_of_a_depot_fails(rt: HostRuntime) {
    let alloc = rt.alloc();
    for (number, first, second) in [
        (1, None, WHOLE),
        (2, None, WHOLE),
        (3, Some((0, false)), WHOLE),
        (4, Some((1, false)), WHOLE),
        (5, WHOLE, None),
        (6, WHOLE, None),
        (7, WHOLE, Some((0, false))),
        (8, WHOLE, Some((1, false))),
        (9, WHOLE, WHOLE),
    ] {
        let mut depot = empty_depot(alloc, Calls::new(alloc));
        depot.fail_once(number);
        assert!(rt; stores(&mut depot, "p", first));
        assert!(rt; stores(&mut depot, "q", second));
        drop(depot);
    }
}

/// Where calls fail from one on, each behind it does too.
#[test]
fn from_one_call_on_a_depot_fails(rt: HostRuntime) {
    let alloc = rt.alloc();
    for (number, first, second) in [
        (1, None, None),
        (2, None, None),
        (3, Some((0, false)), None),
        (4, Some((1, false)), None),
        (5, WHOLE, None),
        (6, WHOLE, None),
        (7, WHOLE, Some((0, false))),
        (8, WHOLE, Some((1, false))),
        (9, WHOLE, WHOLE),
    ] {
        let mut depot = empty_depot(alloc, Calls::new(alloc));
        depot.fail_from(number);
        assert!(rt; stores(&mut depot, "p", first));
        assert!(rt; stores(&mut depot, "q", second));
        assert!(rt; number == 9 || fails(&mut depot, "in"));
        drop(depot);
    }
}

/// A host counts its begins and its reads together, and tells how often it began.
#[test]
fn from_one_call_on_a_host_fails(rt: HostRuntime) {
    let alloc = rt.alloc();
    for number in [1, 2, 3, 4, 5] {
        let mut host = MemoryHost::new(inputs(&rt, alloc, "in", b"xyz"), Calls::new(alloc));
        host.fail_from(number);
        assert!(rt; host.begun() == 0);
        assert!(rt; host.begin(0, 0, 0).is_ok() == (number > 1));
        assert!(rt; read_end(&mut host).is_ok() == (number > 2));
        assert!(rt; host.begin(0, 0, 1).is_ok() == (number > 3));
        assert!(rt; read_end(&mut host).is_ok() == (number > 4));
        assert!(rt; host.begun() == 2);
        drop(host);
    }
}

/// A console that fails from its second write on has what was written before.
#[test]
fn from_one_write_on_a_console_fails(rt: HostRuntime) {
    let alloc = rt.alloc();
    let mut console = MemoryConsole::new(alloc, Calls::new(alloc));
    console.fail_from(2);
    assert_eq!(rt; console.write(b"ab"), Ok(()));
    assert_eq!(rt; console.write(b"cd"), Err(OutsideError::Failed));
    assert_eq!(rt; console.write(b"ef"), Err(OutsideError::Failed));
    assert_eq!(rt; console.text(), b"ab".as_slice());
    drop(console);
}
