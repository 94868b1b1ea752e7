// The pieces of an input.
use std::alloc::Global;
use std::fs;
use std::io::{self, ErrorKind};
use std::rt::Files;

// How a compressed file's name ends.
const COMPRESSED: [&str; 4] = [".gz", ".bz2", ".lzo", ".zst"];

// The length of a file. A pipe, a device or a folder has none, and is an error.
pub fn file_length(found: &fs::Metadata) -> io::Result<u64> {
    if !found.is_file() {
        return Err(io::Error::from(ErrorKind::InvalidInput));
    }
    Ok(found.len())
}

// A piece of a folder.
#[derive(Drop)]
pub struct FolderPiece {
    pub name: String,
    pub length: u64,
}

// A folder's pieces in ascending byte order of names: its files, without subfolders and without those whose names
// begin with `_` or `.`. A name that isn't text, one of a compressed file, a link to nothing, a pipe and a device
// are errors.
pub fn list_pieces<R: Files + AllocGlobal + Clone + Drop>(
    rt: &R,
    alloc: Global,
    folder: &str,
) -> io::Result<Vec<FolderPiece>> {
    let mut pieces = Vec::new(alloc);
    for entry in fs::read_dir(rt, folder)? {
        let entry = entry?;
        let name = entry.file_name();
        if name.starts_with('_') || name.starts_with('.') {
            continue;
        }
        let found = fs::metadata(rt, entry.path())?;
        if found.is_dir() {
            continue;
        }
        if COMPRESSED.iter().any(|ending| name.ends_with(*ending)) {
            return Err(io::Error::from(ErrorKind::InvalidFilename));
        }
        pieces.push(FolderPiece {
            name: String::from_str(alloc, name)?,
            length: file_length(&found)?,
        })?;
    }
    pieces.sort_by(|a, b| a.name.as_str().cmp(b.name.as_str()))?;
    Ok(pieces)
}
