// The file system as a depot.
ghost use Rattle.std.specs.Prelude.{◌≡◌, [], None, Some, Ok, false, OnOk, OnErr};
ghost use Rattle.pig_outside.specs.Calls.{and_call};
ghost use Rattle.pig_outside.specs.Counts.{all_faults, stores_failed};
ghost use Rattle.pig_outside.specs.Shelf.{Grows};

use crate::errors::{answer, answer_store, is_absent};
use crate::pieces::{file_length, list_pieces};
use pig_outside::{Asked, Depot, FaultCounts, History, Method, OutsideError};
use pig_value::Lengths;
use std::alloc::Global;
use std::io::Read;
use std::rt::Files;
use std::{fs, io};

/// The file system as a depot: a script and an input are paths, and a directory is a folder of part files. It tells
/// its calls, in proofs alone.
#[derive(Drop)]
pub struct FileDepot<R: Files + AllocGlobal + Clone + Drop> {
    rt: R,
    alloc: Global,
    faults: FaultCounts,
    history: History,
}

impl<R: Files + AllocGlobal + Clone + Drop> FileDepot<R> {
    /// It was asked nothing yet, and has not failed.
    pub fn new(rt: R, alloc: Global) -> FileDepot<R>
        ensures calls { result.history.calls ≡ [] }
        ensures faults { all_faults result.faults ≡ 0 }
        ensures stores { stores_failed result.faults ≡ 0 }
    {
        FileDepot {
            rt,
            alloc,
            faults: FaultCounts::new(),
            history: History::new(),
        }
    }

    // A call is told.
    fn tell(&mut self, method: Method, path: &str)
        ensures calls { self.new.history.calls
            ≡ and_call method path.now self.old.history.calls }
        ensures faults { self.new.faults ≡ self.old.faults }
    {
        self.history = self.history.and(&Asked::Call { method, path });
    }
}

impl<R: Files + AllocGlobal + Clone + Drop> Depot for FileDepot<R> {
    ghost shelf = { λ _. None };

    ghost calls = { λ d. Some d.history.calls };

    ghost faults = { λ d. all_faults d.faults };

    ghost store_faults = { λ d. stores_failed d.faults };

    fn script(&mut self, path: &str, most: u64, into: &mut Vec<u8>) -> Result<bool, OutsideError> {
        self.history = self.history.and(&Asked::Script { path, most });
        match read_front(&self.rt, self.alloc, path, most, into) {
            Ok(there) => Ok(there),
            Err(error) => Err(answer(&mut self.faults, error)),
        }
    }

    fn pieces(&mut self, path: &str) -> Result<Option<Lengths>, OutsideError> {
        self.tell(Method::Pieces, path);
        match piece_lengths(&self.rt, self.alloc, path) {
            Ok(lengths) => Ok(lengths),
            Err(error) => Err(answer(&mut self.faults, error)),
        }
    }

    fn exists(&mut self, dir: &str) -> Result<bool, OutsideError> {
        self.tell(Method::Exists, dir);
        match fs::symlink_metadata(&self.rt, dir) {
            Ok(_) => Ok(true),
            Err(error) if is_absent(&error) => Ok(false),
            Err(error) => Err(answer(&mut self.faults, error)),
        }
    }

    fn create(&mut self, dir: &str) -> Result<(), OutsideError> {
        self.tell(Method::Create, dir);
        match make_folder(&self.rt, dir) {
            Ok(()) => Ok(()),
            Err(error) => Err(answer_store(&mut self.faults, error)),
        }
    }

    fn put(&mut self, dir: &str, part: u32, bytes: &[u8]) -> Result<(), OutsideError> {
        self.tell(Method::Put, dir);
        match write_part(&self.rt, self.alloc, dir, part, bytes) {
            Ok(()) => Ok(()),
            Err(error) => Err(answer_store(&mut self.faults, error)),
        }
    }

    fn finish(&mut self, dir: &str) -> Result<(), OutsideError> {
        self.tell(Method::Finish, dir);
        match write_marker(&self.rt, self.alloc, dir) {
            Ok(()) => Ok(()),
            Err(error) => Err(answer_store(&mut self.faults, error)),
        }
    }
}

// Appends the first `most` bytes of a file. False: there is none.
fn read_front<R: Files>(
    rt: &R,
    alloc: Global,
    path: &str,
    most: u64,
    into: &mut Vec<u8>,
) -> io::Result<bool>
    ensures grows { OnOk result (Grows most into.old.items into.new.items) }
    ensures absent { result ≡ Ok false → into.new.items ≡ into.old.items }
    ensures err { OnErr result (into.new.items ≡ into.old.items) }
{
    let file = match fs::open(rt, path) {
        Ok(file) => file,
        Err(error) if is_absent(&error) => return Ok(false),
        Err(error) => return Err(error),
    };
    let mut bytes = Vec::new(alloc);
    file.take(most).read_to_end(&mut bytes)?;
    let count = bytes.len().min(most as usize);
    into.extend_from_slice(&bytes[..count])?;
    Ok(true)
}

// The lengths of the pieces at a path: a file is one piece, and a folder has its files. None: nothing is there.
fn piece_lengths<R: Files + AllocGlobal + Clone + Drop>(
    rt: &R,
    alloc: Global,
    path: &str,
) -> io::Result<Option<Lengths>> {
    let found = match fs::metadata(rt, path) {
        Ok(found) => found,
        Err(error) if is_absent(&error) => return Ok(None),
        Err(error) => return Err(error),
    };
    let mut lengths = Lengths::new(alloc);
    if !found.is_dir() {
        lengths.push(file_length(&found)?)?;
        return Ok(Some(lengths));
    }
    for piece in list_pieces(rt, alloc, path)?.iter() {
        lengths.push(piece.length)?;
    }
    Ok(Some(lengths))
}

// Makes a folder that isn't there, and its missing parents.
fn make_folder<R: Files>(rt: &R, dir: &str) -> io::Result<()> {
    if let Some((parent, _)) = dir.rsplit_once('/') {
        if !parent.is_empty() {
            fs::create_dir_all(rt, parent)?;
        }
    }
    fs::create_dir(rt, dir)
}

// Writes the file of a part.
fn write_part<R: Files>(
    rt: &R,
    alloc: Global,
    dir: &str,
    part: u32,
    bytes: &[u8],
) -> io::Result<()> {
    let path = format!(in alloc; "{dir}/part-{part:05}")?;
    fs::write(rt, path.as_str(), bytes)
}

// Writes the empty file that marks a whole folder.
fn write_marker<R: Files>(rt: &R, alloc: Global, dir: &str) -> io::Result<()> {
    let path = format!(in alloc; "{dir}/_SUCCESS")?;
    fs::write(rt, path.as_str(), b"".as_slice())
}
