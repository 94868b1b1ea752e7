//! The texts of nodes, each with its number and those of its inputs.
ghost use Rattle.std.specs.Prelude.{◌≡◌, ◌++◌, [], map, codes, OnOk, if◌then◌else◌};
ghost use Rattle.std.specs.List.{flat_map};
ghost use Rattle.std.specs.Option.{option_map};
ghost use Rattle.pig_plan.specs.Nodes.{op_at};
ghost use Rattle.pig_plan.specs.Plans.{keyed_of, op_of, p_foreach, p_join, p_load, p_rank, p_store, plan_of};
ghost use Rattle.pig_typed.specs.Typed.{block_typed, typed};
ghost use Rattle.pig_explain.specs.ExprTexts.{expr_text};
ghost use Rattle.pig_explain.specs.NodeTexts.{input_text, inputs_text, keyed_text, node_line, node_text, number_text, on_input, op_line, plan_text, side_text};

use crate::blocks::{put_block, put_sort_keys};
use crate::exprs::{put_expr, put_keys};
use crate::kinds::put_columns;
use crate::numbering::place;
use crate::puts::{put, put_hex, put_number, put_quoted};
use pig_plan::{KeyedInput, Node, NodeOp};
use pig_typed::{Block, SortKey, TExpr};
use pig_value::{Column, Delim, Side, Text};
use std::alloc::AllocError;

// Nodes by their numbers, a line for each.
pub fn put_plan(nodes: &[Node], order: &[usize], out: &mut Vec<u8>) -> Result<(), AllocError>
    ensures { OnOk result (out.new.items
        ≡ out.old.items ++ plan_text (plan_of nodes.now) order.now) }
{
    for number in order {
        put_node(nodes, order, *number, out)?;
    }
    Ok(())
}

fn put_node(
    nodes: &[Node],
    order: &[usize],
    number: usize,
    out: &mut Vec<u8>,
) -> Result<(), AllocError>
    ensures { OnOk result (out.new.items
        ≡ out.old.items ++ node_line (plan_of nodes.now) order.now number) }
{
    match operator(nodes, number) {
        Some(op) => put_line(order, number, op, out),
        None => Ok(()),
    }
}

fn operator(nodes: &[Node], number: usize) -> Option<&NodeOp>
    ensures { option_map (λ op. op_of op.now) result ≡ op_at (plan_of nodes.now) number }
{
    match nodes.get(number) {
        Some(node) => Some(&node.op),
        None => None,
    }
}

fn put_line(
    order: &[usize],
    number: usize,
    op: &NodeOp,
    out: &mut Vec<u8>,
) -> Result<(), AllocError>
    ensures { OnOk result (out.new.items
        ≡ out.old.items ++ op_line order.now number (op_of op.now)) }
{
    put_place(order, number, out)?;
    put(b" ", out)?;
    put_op(order, op, out)?;
    put(b"\n", out)
}

// The number that a node is printed by.
pub fn put_place(order: &[usize], number: usize, out: &mut Vec<u8>) -> Result<(), AllocError>
    ensures { OnOk result (out.new.items ≡ out.old.items ++ number_text order.now number) }
{
    put_number(place(order, number) as u64, out)
}

fn put_op(order: &[usize], op: &NodeOp, out: &mut Vec<u8>) -> Result<(), AllocError>
    ensures { OnOk result (out.new.items ≡ out.old.items ++ node_text order.now (op_of op.now)) }
{
    match op {
        NodeOp::Load {
            path,
            delim,
            columns,
        } => put_load(path, *delim, columns.as_slice(), out),
        NodeOp::Filter { input, cond } => put_condition(b"FILTER ", order, *input, cond, out),
        NodeOp::Foreach { input, block } => put_foreach(order, *input, block, out),
        NodeOp::GroupAll { input } => put_on(b"GROUP ", order, *input, b" ALL", out),
        NodeOp::Group { inputs } => {
            put(b"GROUP", out)?;
            put_inputs(order, b"", inputs.as_slice(), out)
        }
        NodeOp::Join {
            inputs,
            side,
            replicated,
        } => put_join(order, inputs.as_slice(), *side, *replicated, out),
        NodeOp::Union { inputs } => {
            put(b"UNION", out)?;
            put_places(order, inputs.as_slice(), out)
        }
        NodeOp::Distinct { input } => put_on(b"DISTINCT ", order, *input, b"", out),
        NodeOp::Order { input, keys } => {
            put_on(b"ORDER ", order, *input, b" ", out)?;
            put_sort_keys(keys.as_slice(), out)
        }
        NodeOp::Limit { input, count } => {
            put_on(b"LIMIT ", order, *input, b" ", out)?;
            put_number(*count, out)
        }
        NodeOp::Store { input, path, delim } => put_store(order, *input, path, *delim, out),
        NodeOp::Assert { input, cond, .. } => {
            put_condition(b"ASSERT ", order, *input, cond, out)
        }
        NodeOp::Rank { input, keys, dense } => {
            put_rank(order, *input, keys.as_slice(), *dense, out)
        }
    }
}

fn put_load(
    path: &Text,
    delim: Delim,
    columns: &[Column],
    out: &mut Vec<u8>,
) -> Result<(), AllocError>
    ensures { OnOk result (out.new.items
        ≡ out.old.items ++ node_text [] (p_load path.now delim columns.now)) }
{
    put(b"LOAD ", out)?;
    put_quoted(path, out)?;
    put(b" ", out)?;
    put_hex(delim, out)?;
    put_columns(columns, out)
}

fn put_foreach(
    order: &[usize],
    input: u32,
    block: &Block,
    out: &mut Vec<u8>,
) -> Result<(), AllocError>
    ensures { OnOk result (out.new.items
        ≡ out.old.items ++ node_text order.now (p_foreach input (block_typed block.now))) }
{
    put_on(b"FOREACH ", order, input, b"", out)?;
    put_block(block, out)
}

fn put_join(
    order: &[usize],
    inputs: &[KeyedInput],
    side: Side,
    replicated: bool,
    out: &mut Vec<u8>,
) -> Result<(), AllocError>
    ensures { OnOk result (out.new.items
        ≡ out.old.items ++ node_text order.now (p_join (map keyed_of inputs.now) side replicated)) }
{
    put(b"JOIN", out)?;
    put_inputs(order, side_word(side), inputs, out)?;
    put(replicated_word(replicated), out)
}

fn put_store(
    order: &[usize],
    input: u32,
    path: &Text,
    delim: Delim,
    out: &mut Vec<u8>,
) -> Result<(), AllocError>
    ensures { OnOk result (out.new.items
        ≡ out.old.items ++ node_text order.now (p_store input path.now delim)) }
{
    put_on(b"STORE ", order, input, b" ", out)?;
    put_quoted(path, out)?;
    put(b" ", out)?;
    put_hex(delim, out)
}

fn put_rank(
    order: &[usize],
    input: u32,
    keys: &[SortKey],
    dense: bool,
    out: &mut Vec<u8>,
) -> Result<(), AllocError>
    ensures { OnOk result (out.new.items
        ≡ out.old.items ++ node_text order.now (p_rank input keys.now dense)) }
{
    put_on(b"RANK ", order, input, b" ", out)?;
    put_sort_keys(keys, out)?;
    put(dense_word(dense), out)
}

// A word, the number of an input, and a condition on its rows.
fn put_condition(
    word: &[u8],
    order: &[usize],
    input: u32,
    cond: &TExpr,
    out: &mut Vec<u8>,
) -> Result<(), AllocError>
    ensures { OnOk result (out.new.items ≡ out.old.items
        ++ on_input word.now order.now input (codes " " ++ expr_text (typed cond.now))) }
{
    put_on(word, order, input, b" ", out)?;
    put_expr(cond, out)
}

// A word, the number of an input, and what stands behind it.
fn put_on(
    word: &[u8],
    order: &[usize],
    input: u32,
    behind: &[u8],
    out: &mut Vec<u8>,
) -> Result<(), AllocError>
    ensures { OnOk result (out.new.items
        ≡ out.old.items ++ on_input word.now order.now input behind.now) }
{
    put(word, out)?;
    put_place(order, input as usize, out)?;
    put(behind, out)
}

// The numbers of inputs, each behind a space.
fn put_places(order: &[usize], inputs: &[u32], out: &mut Vec<u8>) -> Result<(), AllocError>
    ensures { OnOk result (out.new.items ≡ out.old.items
        ++ flat_map (input_text order.now) inputs.now) }
{
    for input in inputs {
        put_input(order, *input, out)?;
    }
    Ok(())
}

fn put_input(order: &[usize], input: u32, out: &mut Vec<u8>) -> Result<(), AllocError>
    ensures { OnOk result (out.new.items ≡ out.old.items ++ input_text order.now input) }
{
    put(b" ", out)?;
    put_place(order, input as usize, out)
}

// Inputs by key: the first behind a space and with its side behind it, and each further one behind a semicolon.
fn put_inputs(
    order: &[usize],
    side: &[u8],
    inputs: &[KeyedInput],
    out: &mut Vec<u8>,
) -> Result<(), AllocError>
    ensures { OnOk result (out.new.items ≡ out.old.items
        ++ inputs_text order.now (codes " ") side.now (map keyed_of inputs.now)) }
{
    let mut before: &[u8] = b" ";
    let mut behind = side;
    for input in inputs {
        put(before, out)?;
        put_keyed(order, input, out)?;
        put(behind, out)?;
        before = b"; ";
        behind = b"";
    }
    Ok(())
}

fn put_keyed(order: &[usize], input: &KeyedInput, out: &mut Vec<u8>) -> Result<(), AllocError>
    ensures { OnOk result (out.new.items
        ≡ out.old.items ++ keyed_text order.now (keyed_of input.now)) }
{
    put_place(order, input.input as usize, out)?;
    put(b" BY ", out)?;
    put_keys(input.keys.as_slice(), out)?;
    put(inner_word(input.inner), out)
}

fn inner_word(inner: bool) -> &'static [u8]
    ensures { result.now ≡ (if inner then codes " INNER" else []) }
{
    if inner { b" INNER" } else { b"" }
}

fn replicated_word(replicated: bool) -> &'static [u8]
    ensures { result.now ≡ (if replicated then codes " USING replicated" else []) }
{
    if replicated {
        b" USING replicated"
    } else {
        b""
    }
}

fn dense_word(dense: bool) -> &'static [u8]
    ensures { result.now ≡ (if dense then codes " DENSE" else []) }
{
    if dense { b" DENSE" } else { b"" }
}

fn side_word(side: Side) -> &'static [u8]
    ensures { result.now ≡ side_text side }
{
    match side {
        Side::Inner => b"",
        Side::Left => b" LEFT",
        Side::Right => b" RIGHT",
        Side::Full => b" FULL",
    }
}
