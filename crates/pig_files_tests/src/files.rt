// Devices over files: which pieces a folder has, what is read, which files an output has, and what is a failure.
//
// A call that has to succeed ends the process where it doesn't: that drops nothing, so its proof is short.
// Trees end by `drop`: one call is cheap to prove, and a tree that dies by name is taken apart variant by variant.
use pig_files::{FileDepot, FileHost};
use pig_outside::{Depot, Host, OutsideError};
use std::os::fd::AsRawFd;
use std::os::unix::fs::symlink;
use std::process::Abort;
use std::rt::Files;
use std::{fs, io};

fn make_folder<R: Abort + Files>(rt: &R, path: &str) {
    fs::create_dir_all(rt, path).expect(rt, "the folder");
}

fn write<R: Abort + Files>(rt: &R, path: &str, text: &str) {
    fs::write(rt, path, text).expect(rt, "the file");
}

fn link<R: Abort + Files>(rt: &R, to: &str, path: &str) {
    symlink(rt, to, path).expect(rt, "the link");
}

/// Whether the pieces of a folder are so long.
fn has_lengths<R: Abort, D: Depot>(rt: &R, depot: &mut D, path: &str, wanted: &[u64]) -> bool {
    let found = depot.pieces(path).expect(rt, "the pieces");
    let lengths = found.expect(rt, "the folder");
    lengths.as_slice() == wanted
}

/// Whether there is no such input.
fn is_absent<R: Abort, D: Depot>(rt: &R, depot: &mut D, path: &str) -> bool {
    let found = depot.pieces(path).expect(rt, "an answer");
    let is = found.is_none();
    drop(found);
    is
}

/// Whether the depot fails at an input.
fn fails<D: Depot>(depot: &mut D, path: &str) -> bool {
    let found = depot.pieces(path);
    let is = matches!(&found, Err(OutsideError::Failed));
    drop(found);
    is
}

/// Whether the depot gives no answer at an input.
fn has_no_answer<D: Depot>(depot: &mut D, path: &str) -> bool {
    let found = depot.pieces(path);
    let is = found.is_err();
    drop(found);
    is
}

/// The byte of a piece at a place.
fn byte<R: Abort>(
    rt: &R,
    host: &mut FileHost<HostRuntime>,
    path: &str,
    piece: u32,
    from: u64,
) -> u8 {
    let mut into = [0; 1];
    let read = host.read(path, piece, from, &mut into);
    read.expect(rt, "a byte");
    into[0]
}

/// Whether the host fails at a byte of a piece.
fn has_no_byte(host: &mut FileHost<HostRuntime>, path: &str, piece: u32, from: u64) -> bool {
    let mut into = [0; 1];
    host.read(path, piece, from, &mut into) == Err(OutsideError::Failed)
}

#[test]
fn a_folder_is_an_input(rt: HostRuntime) {
    make_folder(&rt, "in/nested.gz");
    write(&rt, "in/b", "7\n");
    write(&rt, "in/a", "5");
    write(&rt, "in/_no", "1");
    write(&rt, "in/.no", "2");
    write(&rt, "in/nested.gz/c", "3");
    let mut depot = FileDepot::new(rt.clone().expect(&rt, "a handle"), rt.alloc());
    assert!(rt; has_lengths(&rt, &mut depot, "in", &[1, 2]));
    let mut host = FileHost::new(rt.clone().expect(&rt, "a handle"), rt.alloc());
    assert!(rt; host.begin(0, 0, 0).is_ok());
    assert!(rt; byte(&rt, &mut host, "in", 0, 0) == b'5');
    assert!(rt; byte(&rt, &mut host, "in", 1, 0) == b'7');
    assert!(rt; byte(&rt, &mut host, "in", 1, 1) == b'\n');
    assert!(rt; has_no_byte(&mut host, "in", 1, 2));
    assert!(rt; has_no_byte(&mut host, "in", 2, 0));
    assert!(rt; byte(&rt, &mut host, "in/b", 0, 0) == b'7');
    assert!(rt; is_absent(&rt, &mut depot, "no"));
    write(&rt, "in/c.gz", "");
    assert!(rt; has_no_answer(&mut depot, "in"));
    drop(depot);
    drop(host);
}

/// What a file holds.
fn text<R: Abort + Files + AllocGlobal>(rt: &R, path: &str) -> String {
    fs::read_to_string(rt, path).expect(rt, "the text")
}

#[test]
fn a_folder_is_an_output(rt: HostRuntime) {
    let mut depot = FileDepot::new(rt.clone().expect(&rt, "a handle"), rt.alloc());
    assert!(rt; depot.exists("made/out") == Ok(false));
    depot.create("made/out").expect(&rt, "the output");
    depot.put("made/out", 0, b"x\n").expect(&rt, "a part");
    depot.put("made/out", 1, b"").expect(&rt, "a part");
    depot.finish("made/out").expect(&rt, "the marker");
    assert!(rt; depot.exists("made/out") == Ok(true));
    assert!(rt; depot.create("made/out") == Err(OutsideError::Failed));
    for (path, wanted) in [
        ("made/out/part-00000", "x\n"),
        ("made/out/part-00001", ""),
        ("made/out/_SUCCESS", ""),
    ] {
        let found = text(&rt, path);
        assert!(rt; found.as_str() == wanted);
    }
    drop(depot);
}

#[test]
fn a_script_is_a_file(rt: HostRuntime) {
    make_folder(&rt, "in");
    write(&rt, "in/b", "7\n");
    let mut depot = FileDepot::new(rt.clone().expect(&rt, "a handle"), rt.alloc());
    let mut script = Vec::new(rt.alloc());
    assert!(rt; depot.script("no", 9, &mut script) == Ok(false));
    assert!(rt; depot.script("in/b", 1, &mut script) == Ok(true));
    assert!(rt; depot.script("in/b", 9, &mut script) == Ok(true));
    assert_eq!(rt; script.as_slice(), b"77\n".as_slice());
    drop(depot);
}

#[test]
fn what_is_no_file_is_a_failure(rt: HostRuntime) {
    for folder in ["device", "dangling", "left"] {
        make_folder(&rt, folder);
    }
    link(&rt, "/dev/null", "device/a");
    link(&rt, "nowhere", "dangling/a");
    link(&rt, "nowhere", "left/_a");
    link(&rt, "/dev/null", "left/.a");
    let mut depot = FileDepot::new(rt.clone().expect(&rt, "a handle"), rt.alloc());
    let mut host = FileHost::new(rt.clone().expect(&rt, "a handle"), rt.alloc());
    for path in ["/dev/null", "device", "dangling"] {
        assert!(rt; fails(&mut depot, path));
        assert!(rt; has_no_byte(&mut host, path, 0, 0));
    }
    assert!(rt; has_lengths(&rt, &mut depot, "left", &[]));
    assert!(rt; has_no_byte(&mut host, "left", 0, 0));
    drop(depot);
    drop(host);
}

#[test]
fn a_pipe_is_a_failure(rt: HostRuntime) {
    let (reader, _writer) = io::pipe(&rt).expect(&rt, "a pipe");
    let pipe = format!(in rt.alloc(); "/proc/self/fd/{}", reader.as_raw_fd());
    let pipe = pipe.expect(&rt, "memory");
    make_folder(&rt, "piped");
    link(&rt, pipe.as_str(), "piped/a");
    let mut depot = FileDepot::new(rt.clone().expect(&rt, "a handle"), rt.alloc());
    let mut host = FileHost::new(rt.clone().expect(&rt, "a handle"), rt.alloc());
    for path in [pipe.as_str(), "piped"] {
        assert!(rt; fails(&mut depot, path));
        assert!(rt; has_no_byte(&mut host, path, 0, 0));
    }
    drop(depot);
    drop(host);
}

#[test]
fn a_host_lists_a_folder_once(rt: HostRuntime) {
    make_folder(&rt, "listed");
    write(&rt, "listed/b", "b");
    write(&rt, "listed/c", "c");
    let mut before = FileHost::new(rt.clone().expect(&rt, "a handle"), rt.alloc());
    assert!(rt; byte(&rt, &mut before, "listed", 0, 0) == b'b');
    // A host that listed it again would find b here.
    write(&rt, "listed/a", "a");
    assert!(rt; byte(&rt, &mut before, "listed", 1, 0) == b'c');
    let mut behind = FileHost::new(rt.clone().expect(&rt, "a handle"), rt.alloc());
    assert!(rt; byte(&rt, &mut behind, "listed", 1, 0) == b'b');
    drop(before);
    drop(behind);
}

/// Whether each call of a depot by which an output is made fails there.
fn makes_nothing(depot: &mut FileDepot<HostRuntime>, dir: &str) -> bool {
    [
        depot.create(dir),
        depot.put(dir, 0, b"x\n"),
        depot.finish(dir),
    ] == [Err(OutsideError::Failed); 3]
}

/// Below a file no output is made, nor below nothing is a part or a marker. A script is no folder.
#[test]
fn each_call_of_a_depot_can_fail(rt: HostRuntime) {
    make_folder(&rt, "kept");
    write(&rt, "kept/file", "7\n");
    let mut depot = FileDepot::new(rt.clone().expect(&rt, "a handle"), rt.alloc());
    for dir in ["kept/file", "kept/file/out"] {
        assert!(rt; makes_nothing(&mut depot, dir));
    }
    assert!(rt; depot.put("kept/no", 0, b"x\n") == Err(OutsideError::Failed));
    assert!(rt; depot.finish("kept/no") == Err(OutsideError::Failed));
    assert!(rt; depot.exists("kept/no") == Ok(false));
    let mut script = Vec::new(rt.alloc());
    assert!(rt; depot.script("kept", 9, &mut script) == Err(OutsideError::Failed));
    assert!(rt; script.is_empty());
    drop(depot);
}

/// Over files no begin fails, whatever the attempt.
#[test]
fn a_host_begins_each_attempt(rt: HostRuntime) {
    let mut host = FileHost::new(rt.clone().expect(&rt, "a handle"), rt.alloc());
    for (wave, task, attempt) in [(0, 0, 0), (0, 0, 1), (0, 1, 0), (1, 0, 0)] {
        assert!(rt; host.begin(wave, task, attempt) == Ok(()));
    }
    drop(host);
}
