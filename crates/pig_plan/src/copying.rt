ghost use Rattle.std.specs.Prelude.{◌≡◌, IfOk};
ghost use Rattle.pig_plan.specs.declared.nodes.NodeOp.TheVariants as made;

use crate::{KeyedInput, KeyedInputs, Node, NodeOp};
use pig_typed::{Block, SortKeys, TExpr, copy_block, copy_expr, copy_exprs, copy_keys};
use pig_value::{Column, Columns, Delim, Numbers, Seq, Side, Text, copy_kind};
use std::alloc::{AllocError, Global};

/// A copy of a node, which holds memory of its own.
pub fn copy_node(alloc: Global, node: &Node) -> Result<Node, AllocError>
    ensures { IfOk result (λ c. c ≡ node.now) }
{
    Ok(Node {
        op: copy_op(alloc, &node.op)?,
        statement: node.statement,
    })
}

fn copy_op(alloc: Global, op: &NodeOp) -> Result<NodeOp, AllocError>
    ensures { IfOk result (λ c. c ≡ op.now) }
{
    match op {
        NodeOp::Load {
            path,
            delim,
            columns,
        } => load(alloc, path, *delim, columns),
        NodeOp::Filter { input, cond } => filter(alloc, *input, cond),
        NodeOp::Foreach { input, block } => foreach(alloc, *input, block),
        NodeOp::GroupAll { input } => Ok(NodeOp::GroupAll { input: *input }),
        NodeOp::Group { inputs } => group(alloc, inputs),
        NodeOp::Join {
            inputs,
            side,
            replicated,
        } => join(alloc, inputs, *side, *replicated),
        NodeOp::Union { inputs } => union(alloc, inputs),
        NodeOp::Distinct { input } => Ok(NodeOp::Distinct { input: *input }),
        NodeOp::Order { input, keys } => order(alloc, *input, keys),
        NodeOp::Limit { input, count } => Ok(NodeOp::Limit {
            input: *input,
            count: *count,
        }),
        NodeOp::Store { input, path, delim } => store(alloc, *input, path, *delim),
        NodeOp::Assert {
            input,
            cond,
            message,
        } => assert(alloc, *input, cond, message),
        NodeOp::Rank { input, keys, dense } => rank(alloc, *input, keys, *dense),
    }
}

// One function for each operator: what holds memory dies at a `?` there, and not on every path of one large function.

fn load(alloc: Global, path: &Text, delim: Delim, columns: &Columns) -> Result<NodeOp, AllocError>
    ensures { IfOk result (λ c. c ≡ made.Load path.now delim columns.now) }
{
    let path = path.copy(alloc)?;
    let columns = copy_columns(alloc, columns)?;
    Ok(NodeOp::Load {
        path,
        delim,
        columns,
    })
}

fn filter(alloc: Global, input: u32, cond: &TExpr) -> Result<NodeOp, AllocError>
    ensures { IfOk result (λ c. c ≡ made.Filter input cond.now) }
{
    let cond = copy_expr(alloc, cond)?;
    Ok(NodeOp::Filter { input, cond })
}

fn foreach(alloc: Global, input: u32, block: &Block) -> Result<NodeOp, AllocError>
    ensures { IfOk result (λ c. c ≡ made.Foreach input block.now) }
{
    let block = copy_block(alloc, block)?;
    Ok(NodeOp::Foreach { input, block })
}

fn group(alloc: Global, inputs: &KeyedInputs) -> Result<NodeOp, AllocError>
    ensures { IfOk result (λ c. c ≡ made.Group inputs.now) }
{
    let inputs = copy_keyed(alloc, inputs)?;
    Ok(NodeOp::Group { inputs })
}

fn join(
    alloc: Global,
    inputs: &KeyedInputs,
    side: Side,
    replicated: bool,
) -> Result<NodeOp, AllocError>
    ensures { IfOk result (λ c. c ≡ made.Join inputs.now side replicated) }
{
    let inputs = copy_keyed(alloc, inputs)?;
    Ok(NodeOp::Join {
        inputs,
        side,
        replicated,
    })
}

fn union(alloc: Global, inputs: &Numbers) -> Result<NodeOp, AllocError>
    ensures { IfOk result (λ c. c ≡ made.Union inputs.now) }
{
    let inputs = copy_numbers(alloc, inputs.as_slice())?;
    Ok(NodeOp::Union { inputs })
}

fn order(alloc: Global, input: u32, keys: &SortKeys) -> Result<NodeOp, AllocError>
    ensures { IfOk result (λ c. c ≡ made.Order input keys.now) }
{
    let keys = copy_keys(alloc, keys)?;
    Ok(NodeOp::Order { input, keys })
}

fn store(alloc: Global, input: u32, path: &Text, delim: Delim) -> Result<NodeOp, AllocError>
    ensures { IfOk result (λ c. c ≡ made.Store input path.now delim) }
{
    let path = path.copy(alloc)?;
    Ok(NodeOp::Store { input, path, delim })
}

fn assert(
    alloc: Global,
    input: u32,
    cond: &TExpr,
    message: &Option<Text>,
) -> Result<NodeOp, AllocError>
    ensures { IfOk result (λ c. c ≡ made.Assert input cond.now message.now) }
{
    let message = copy_message(alloc, message)?;
    let cond = copy_expr(alloc, cond)?;
    Ok(NodeOp::Assert {
        input,
        cond,
        message,
    })
}

fn rank(alloc: Global, input: u32, keys: &SortKeys, dense: bool) -> Result<NodeOp, AllocError>
    ensures { IfOk result (λ c. c ≡ made.Rank input keys.now dense) }
{
    let keys = copy_keys(alloc, keys)?;
    Ok(NodeOp::Rank { input, keys, dense })
}

fn copy_columns(alloc: Global, columns: &Columns) -> Result<Columns, AllocError>
    ensures { IfOk result (λ c. c ≡ columns.now) }
{
    let columns = columns.as_slice();
    let mut made = Vec::with_capacity(alloc, columns.len())?;
    for column in columns {
        let kind = copy_kind(alloc, &column.kind)?;
        made.push(Column {
            position: column.position,
            kind,
        })?;
    }
    Ok(Seq::from_vec(made))
}

fn copy_keyed(alloc: Global, inputs: &KeyedInputs) -> Result<KeyedInputs, AllocError>
    ensures { IfOk result (λ c. c ≡ inputs.now) }
{
    let inputs = inputs.as_slice();
    let mut made = Vec::with_capacity(alloc, inputs.len())?;
    for input in inputs {
        let keys = copy_exprs(alloc, &input.keys)?;
        made.push(KeyedInput {
            input: input.input,
            keys,
            inner: input.inner,
        })?;
    }
    Ok(Seq::from_vec(made))
}

// A copy of numbers.
pub fn copy_numbers(alloc: Global, numbers: &[u32]) -> Result<Numbers, AllocError>
    ensures { IfOk result (λ c. c ≡ numbers.now) }
{
    let mut made = Vec::with_capacity(alloc, numbers.len())?;
    for number in numbers {
        made.push(*number)?;
    }
    Ok(Seq::from_vec(made))
}

fn copy_message(alloc: Global, message: &Option<Text>) -> Result<Option<Text>, AllocError>
    ensures { IfOk result (λ c. c ≡ message.now) }
{
    match message {
        Some(text) => Ok(Some(text.copy(alloc)?)),
        None => Ok(None),
    }
}
