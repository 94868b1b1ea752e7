// The file system as a host.
ghost use Rattle.std.specs.Prelude.{◌≡◌, [], None, Some};
ghost use Rattle.pig_outside.specs.Counts.{all_faults};

use crate::errors::answer;
use crate::pieces::{FolderPiece, file_length, list_pieces};
use pig_outside::{Asked, Failed, FaultCounts, History, Host, OutsideError};
use pig_value::Text;
use std::alloc::Global;
use std::fs::{self, File};
use std::io::{self, ErrorKind};
use std::os::unix::fs::FileExt;
use std::rt::Files;

/// The file system as a host. The piece that was read last stays open, and a folder is listed once. It tells the
/// attempts that begin, in proofs alone.
#[derive(Drop)]
pub struct FileHost<R: Files<File = File> + AllocGlobal + Clone + Drop> {
    rt: R,
    alloc: Global,
    folders: Vec<Folder>,
    open: Option<OpenPiece>,
    faults: FaultCounts,
    history: History,
}

// A folder that was listed.
#[derive(Drop)]
struct Folder {
    path: Text,
    pieces: Vec<FolderPiece>,
}

// An open piece.
#[derive(Drop)]
struct OpenPiece {
    path: Text,
    piece: u32,
    file: File,
}

impl<R: Files<File = File> + AllocGlobal + Clone + Drop> FileHost<R> {
    /// No attempt began on it yet, and it has not failed.
    pub fn new(rt: R, alloc: Global) -> FileHost<R>
        ensures begun { result.history.begun ≡ [] }
        ensures faults { all_faults result.faults ≡ 0 }
    {
        FileHost {
            rt,
            alloc,
            folders: Vec::new(alloc),
            open: None,
            faults: FaultCounts::new(),
            history: History::new(),
        }
    }

    // Fills the buffer from a piece, which is opened where it isn't open.
    fn read_piece(&mut self, path: &str, piece: u32, from: u64, into: &mut [u8]) -> io::Result<()>
        ensures faults { all_faults self.new.faults ≡ all_faults self.old.faults }
        ensures begun { self.new.history ≡ self.old.history }
    {
        let current = match self.open.take() {
            Some(last) if last.piece == piece && last.path.as_str() == path => last,
            _ => open_piece(&self.rt, self.alloc, &mut self.folders, path, piece)?,
        };
        current.file.read_exact_at(into, from)?;
        self.open = Some(current);
        Ok(())
    }
}

impl<R: Files<File = File> + AllocGlobal + Clone + Drop> Host for FileHost<R> {
    ghost inputs = { λ _. None };

    ghost begun = { λ h. Some h.history.begun };

    ghost faults = { λ h. all_faults h.faults };

    fn tells_bytes(&self) {}

    fn begin(&mut self, wave: u32, task: u32, attempt: u32) -> Result<(), Failed> {
        self.history = self.history.and(&Asked::Begin {
            wave,
            task,
            attempt,
            faults: self.faults.all(),
        });
        Ok(())
    }

    fn read(
        &mut self,
        path: &str,
        piece: u32,
        from: u64,
        into: &mut [u8],
    ) -> Result<(), OutsideError> {
        match self.read_piece(path, piece, from, into) {
            Ok(()) => Ok(()),
            Err(error) => Err(answer(&mut self.faults, error)),
        }
    }
}

// Opens a piece: the file itself, or that one of a folder's pieces. What is neither a file nor a folder is not
// opened, since a pipe would be waited for.
fn open_piece<R: Files<File = File> + AllocGlobal + Clone + Drop>(
    rt: &R,
    alloc: Global,
    folders: &mut Vec<Folder>,
    path: &str,
    piece: u32,
) -> io::Result<OpenPiece> {
    let found = fs::metadata(rt, path)?;
    let file = if found.is_dir() {
        let file = piece_path(rt, alloc, folders, path, piece)?;
        open_file(rt, file.as_str())?
    } else {
        open_file(rt, path)?
    };
    let path = Text::from_str(alloc, path)?;
    Ok(OpenPiece { path, piece, file })
}

// Opens what is a file.
fn open_file<R: Files<File = File>>(rt: &R, path: &str) -> io::Result<File> {
    file_length(&fs::metadata(rt, path)?)?;
    fs::open(rt, path)
}

// The path of a folder's piece. The folder is listed where it was not yet.
fn piece_path<R: Files + AllocGlobal + Clone + Drop>(
    rt: &R,
    alloc: Global,
    folders: &mut Vec<Folder>,
    folder: &str,
    piece: u32,
) -> io::Result<String> {
    if !folders.iter().any(|known| known.path.as_str() == folder) {
        folders.push(Folder {
            path: Text::from_str(alloc, folder)?,
            pieces: list_pieces(rt, alloc, folder)?,
        })?;
    }
    let listed = folders.iter().find(|known| known.path.as_str() == folder);
    match listed.and_then(|known| known.pieces.get(piece as usize)) {
        Some(piece) => Ok(format!(in alloc; "{folder}/{}", piece.name)?),
        None => Err(io::Error::from(ErrorKind::NotFound)),
    }
}
