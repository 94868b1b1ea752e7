use crate::{Blobs, Kind, Seq, Text};

/// A column that a LOAD reads: the field at a position of the line, from 0, and its kind.
#[derive(Debug, Drop)]
pub struct Column {
    pub position: u32,
    pub kind: Kind,
}

/// Columns, in the order of a row's fields.
pub type Columns = Seq<Column>;

/// An input by its path, as its pieces in order.
#[derive(Debug, Drop)]
pub struct Input {
    pub path: Text,
    pub pieces: Blobs,
}

/// Inputs, each path once.
pub type Inputs = Seq<Input>;
