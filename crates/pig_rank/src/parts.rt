use pig_value::{Seq, Tuple};

/// What counts of a partition, whose rows are sorted by keys.
#[derive(Debug, Drop)]
pub struct Summary {
    /// The number of rows.
    pub rows: u64,
    /// The number of distinct keys.
    pub keys: u64,
    /// The first row; none where there is no row.
    pub first: Option<Tuple>,
    /// The last row; none where there is no row.
    pub last: Option<Tuple>,
    /// The number of rows that have the last row's key.
    pub tail: u64,
}

/// What stands before a partition, that is all rows of the partitions before it. Numbers are reduced modulo 2 to the 64.
#[derive(Debug, Drop)]
pub struct Start {
    /// The number of rows.
    pub rank: u64,
    /// The number of distinct keys.
    pub dense: u64,
    /// The last row; none where there is no row.
    pub last: Option<Tuple>,
    /// The number of rows that have the last row's key.
    pub tail: u64,
}

/// The summaries of consecutive partitions.
pub type Summaries = Seq<Summary>;
/// The starts of consecutive partitions.
pub type Starts = Seq<Start>;
