// What a depot keeps, as values.
use pig_value::{Blob, Blobs, Seq, Text};

/// A script: a file and its bytes.
#[derive(Debug, Drop)]
pub struct Source {
    pub path: Text,
    pub bytes: Blob,
}

/// Scripts.
pub type Sources = Seq<Source>;

/// The parts of a directory, in the order of their numbers.
pub type Parts = Blobs;

/// A directory's parts, and whether its marker stands.
#[derive(Debug, Drop)]
pub struct DirState {
    pub parts: Parts,
    pub marked: bool,
}

// A directory under its path.
#[derive(Debug, Drop)]
pub struct Directory {
    pub path: Text,
    pub state: DirState,
}
