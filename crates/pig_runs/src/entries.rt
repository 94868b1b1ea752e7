use pig_value::{Seq, Tuple, Value};

/// A row under its key, with the number of the input that it comes from.
#[derive(Debug, Drop)]
pub struct Entry {
    pub key: Value,
    pub input: u32,
    pub row: Tuple,
}

/// A list of entries.
pub type Entries = Seq<Entry>;
