use pig_value::Seq;

/// A split of an input: the lines that start in it belong to it, and the last of them may end behind it.
#[derive(Debug, Clone, Copy, PartialEq, Eq, Drop)]
pub struct Split {
    /// The number of the input's piece, from 0.
    pub piece: u32,
    /// The place of its first byte in the piece.
    pub from: u64,
    /// The place behind its last byte.
    pub to: u64,
}

/// The splits of an input, piece by piece.
pub type Splits = Seq<Split>;
