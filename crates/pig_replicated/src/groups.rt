use pig_value::{Rows, Value};

// Rows that have one key, sorted.
#[derive(Debug, Drop)]
pub struct Group {
    pub key: Value,
    pub rows: Rows,
}
