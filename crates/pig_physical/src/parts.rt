//! What tasks are made of: the ways that rows come, and the parts that tasks read.
use pig_storage::Split;
use pig_value::{Numbers, Seq};

/// A way that rows come: from a source through nodes that work row by row, one behind the other, all by their numbers.
#[derive(Drop)]
pub struct Path {
    pub source: u32,
    pub nodes: Numbers,
}

/// A path, and the place that the input which it enters has among those of its node, counted from 0.
#[derive(Drop)]
pub struct Way {
    pub input: u32,
    pub path: Path,
}

/// Ways, in turn.
pub type Ways = Seq<Way>;

/// What a task reads.
#[derive(Clone, Copy, Drop)]
pub enum Part {
    /// A split of the input of a LOAD.
    Split(Split),
    /// What a task of an earlier wave handed on, by the numbers of the wave and of the task within it.
    Output { wave: u32, at: u32 },
}

/// One part of a path's source, put through the path and handed to a node. What a STORE's tasks are, too.
#[derive(Clone, Copy, Drop)]
pub struct MapTask {
    pub node: u32,
    /// The number of its wave, and of its way among those of the wave.
    pub wave: u32,
    pub way: u32,
    pub part: Part,
}

/// One partition of a node: brought together from what the tasks of a wave handed on, or of which a wave gave the rows.
#[derive(Clone, Copy, Drop)]
pub struct ReduceTask {
    pub node: u32,
    /// The number of the wave whose outputs it reads.
    pub wave: u32,
    pub part: u32,
}

/// A task of a wave.
#[derive(Clone, Copy, Drop)]
pub enum Task {
    Map(MapTask),
    /// Bring the entries of a partition together.
    Reduce(ReduceTask),
    /// Give the rows of a partition their ranks among the rows of all.
    Rank(ReduceTask),
}

/// Tasks, in turn.
pub type Tasks = Seq<Task>;
