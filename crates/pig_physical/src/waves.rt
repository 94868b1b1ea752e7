//! The waves of a plan, which need no sizes.
use pig_value::Seq;

/// What the tasks of a wave do.
#[derive(Clone, Copy)]
pub enum WaveKind {
    /// Put the rows of a path's source through the path, and hand them to a boundary node by partitions.
    Map,
    /// Bring the rows of a partition together.
    Reduce,
    /// Hand on the rows of a replicated join's further inputs.
    Copy,
    /// Join the rows of a replicated join's first input with those that were copied.
    Probe,
    /// Give the rows of a partition their ranks.
    Rank,
    /// Make the parts of the STOREs.
    Store,
}

/// A wave: its kind, the number of its boundary node or of the first live STORE, and whether its tasks fold rows.
#[derive(Clone, Copy)]
pub struct WaveHead {
    pub kind: WaveKind,
    pub node: u32,
    pub combine: bool,
}

/// The heads of waves, in turn.
pub type WaveHeads = Seq<WaveHead>;
