use pig_typed::{Block, SortKeys, TExpr, TExprs};
use pig_value::{Columns, Delim, Numbers, Seq, Side, Text};

/// The nodes of a plan, each numbered by its place from 0.
pub type Nodes = Seq<Node>;
/// The inputs of an operator by key, in order.
pub type KeyedInputs = Seq<KeyedInput>;

/// An operator of a plan, with the number of the statement that it stands for.
#[derive(Debug, Drop)]
pub struct Node {
    pub op: NodeOp,
    pub statement: u32,
}

/// What a node does with the rows of its inputs, which it names by their numbers.
#[derive(Debug)]
pub enum NodeOp {
    /// The rows of an input's lines, at these columns.
    Load {
        path: Text,
        delim: Delim,
        columns: Columns,
    },
    /// The rows of which the condition is true.
    Filter {
        input: u32,
        cond: TExpr,
    },
    /// What the block generates of each row.
    Foreach {
        input: u32,
        block: Block,
    },
    /// One row with the bag of all rows.
    GroupAll {
        input: u32,
    },
    /// A row for each key, with the bag of its rows in each input.
    Group {
        inputs: KeyedInputs,
    },
    /// The rows of the inputs with equal keys, joined. `replicated` changes no row.
    Join {
        inputs: KeyedInputs,
        side: Side,
        replicated: bool,
    },
    /// The rows of all inputs.
    Union {
        inputs: Numbers,
    },
    /// Each row once.
    Distinct {
        input: u32,
    },
    /// The rows sorted by these fields, and then by the order of values.
    Order {
        input: u32,
        keys: SortKeys,
    },
    /// The first `count` rows of a sorted node, or any `count` rows of another.
    Limit {
        input: u32,
        count: u64,
    },
    /// The rows, stored.
    Store {
        input: u32,
        path: Text,
        delim: Delim,
    },
    /// The rows; the condition is to hold of each.
    Assert {
        input: u32,
        cond: TExpr,
        message: Option<Text>,
    },
    /// Each row behind its rank by these fields.
    Rank {
        input: u32,
        keys: SortKeys,
        dense: bool,
    },
}

/// An input of an operator by key, with its keys. Of a GROUP, `inner` leaves out keys that the input has no row of.
#[derive(Debug, Drop)]
pub struct KeyedInput {
    pub input: u32,
    pub keys: TExprs,
    pub inner: bool,
}

// How operators end. A derived drop is taken apart, variant by variant, at each place where a value ends; one that is
// written is one call there. So every function that lets one go is cheap to prove.

impl Drop for NodeOp {
    fn drop(self) {
        match self {
            NodeOp::Load {
                path,
                delim,
                columns,
            } => drop((path, delim, columns)),
            NodeOp::Filter { input: _, cond } => drop(cond),
            NodeOp::Foreach { input: _, block } => drop(block),
            NodeOp::GroupAll { input: _ }
            | NodeOp::Distinct { input: _ }
            | NodeOp::Limit { input: _, count: _ } => {}
            NodeOp::Group { inputs }
            | NodeOp::Join {
                inputs,
                side: _,
                replicated: _,
            } => drop(inputs),
            NodeOp::Union { inputs } => drop(inputs),
            NodeOp::Order { input: _, keys }
            | NodeOp::Rank {
                input: _,
                keys,
                dense: _,
            } => drop(keys),
            NodeOp::Store {
                input: _,
                path,
                delim,
            } => drop((path, delim)),
            NodeOp::Assert {
                input: _,
                cond,
                message,
            } => drop((cond, message)),
        }
    }
}
