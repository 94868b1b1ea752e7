ghost use Rattle.std.specs.Prelude.{◌≡◌, map};
ghost use Rattle.pig_value.specs.Trees.{kind_tree, kinds_of};
ghost use Rattle.pig_typed.specs.Typed.{args_of, block_typed, item_typed, link_of, links_of, step_typed, typed};
ghost use Rattle.pig_plan.specs.Plans.{keyed_of, op_of, p_join, p_load};
ghost use Rattle.pig_share.specs.Hashed.{all_hash, args_hash, block_hash, column_hash, expr_hash, item_hash, keyed_hash, kind_hash, kinds_hash, links_hash, message_hash, op_hash, sort_key_hash, step_hash};

use crate::mixing::{
    chain_number, dir_number, mix, mix_bytes, mix_flag, mix_function, mix_numbers, rel_number,
    side_number,
};
use pig_plan::{KeyedInput, KeyedInputs, NodeOp};
use pig_typed::{Block, BlockItem, BlockStep, SortKey, TExpr, TLink};
use pig_value::{Column, Columns, Delim, Kind, Side, Text};

// The hash of an operator: operators that are the same have the same one.
pub fn hash_op(op: &NodeOp) -> u64
    ensures { result ≡ op_hash (op_of op.now) }
{
    match op {
        NodeOp::Load {
            path,
            delim,
            columns,
        } => hash_load(path, *delim, columns),
        NodeOp::Filter { input, cond } => mix_expr(mix(mix(0, 2), u64::from(*input)), cond),
        NodeOp::Foreach { input, block } => mix_block(mix(mix(0, 3), u64::from(*input)), block),
        NodeOp::GroupAll { input } => mix(mix(0, 4), u64::from(*input)),
        NodeOp::Group { inputs } => mix_inputs(mix(0, 5), inputs.as_slice()),
        NodeOp::Join {
            inputs,
            side,
            replicated,
        } => hash_join(inputs, *side, *replicated),
        NodeOp::Union { inputs } => mix_numbers(mix(0, 7), inputs.as_slice()),
        NodeOp::Distinct { input } => mix(mix(0, 8), u64::from(*input)),
        NodeOp::Order { input, keys } => {
            mix_sort_keys(mix(mix(0, 9), u64::from(*input)), keys.as_slice())
        }
        NodeOp::Limit { input, count } => { mix(mix(mix(0, 10), u64::from(*input)), *count) }
        NodeOp::Store { .. } => 0,
        NodeOp::Assert {
            input,
            cond,
            message,
        } => {
            let asked = mix_expr(mix(mix(0, 12), u64::from(*input)), cond);
            mix_message(asked, message)
        }
        NodeOp::Rank { input, keys, dense } => {
            let named = mix(mix(0, 11), u64::from(*input));
            mix_sort_keys(mix_flag(named, *dense), keys.as_slice())
        }
    }
}

fn hash_load(path: &Text, delim: Delim, columns: &Columns) -> u64
    ensures { result ≡ op_hash (p_load path.now delim columns.now) }
{
    let read = mix_bytes(mix(0, 1), path.as_bytes());
    mix_columns(mix(read, u64::from(delim.byte())), columns.as_slice())
}

fn hash_join(inputs: &KeyedInputs, side: Side, replicated: bool) -> u64
    ensures { result ≡ op_hash (p_join (map keyed_of inputs.now) side replicated) }
{
    let sided = mix(mix(0, 6), side_number(side));
    mix_inputs(mix_flag(sided, replicated), inputs.as_slice())
}

fn mix_message(h: u64, message: &Option<Text>) -> u64
    ensures { result ≡ message_hash h message.now }
{
    match message {
        None => mix(h, 1),
        Some(text) => mix_bytes(mix(h, 2), text.as_bytes()),
    }
}

fn mix_columns(h: u64, columns: &[Column]) -> u64
    ensures { result ≡ all_hash column_hash h columns.now }
{
    let mut made = h;
    for column in columns {
        made = mix_kind(mix(made, u64::from(column.position)), &column.kind);
    }
    mix(made, 99)
}

fn mix_inputs(h: u64, inputs: &[KeyedInput]) -> u64
    ensures { result ≡ all_hash keyed_hash h (map keyed_of inputs.now) }
{
    let mut made = h;
    for input in inputs {
        made = mix_input(made, input);
    }
    mix(made, 99)
}

fn mix_input(h: u64, input: &KeyedInput) -> u64
    ensures { result ≡ keyed_hash h (keyed_of input.now) }
{
    let named = mix_flag(mix(h, u64::from(input.input)), input.inner);
    mix_keys(named, input.keys.as_slice())
}

fn mix_keys(h: u64, keys: &[TExpr]) -> u64
    ensures { result ≡ all_hash expr_hash h (map typed keys.now) }
{
    let mut made = h;
    for key in keys {
        made = mix_expr(made, key);
    }
    mix(made, 99)
}

fn mix_sort_keys(h: u64, keys: &[SortKey]) -> u64
    ensures { result ≡ all_hash sort_key_hash h keys.now }
{
    let mut made = h;
    for key in keys {
        made = mix(mix(made, u64::from(key.position)), dir_number(key.dir));
    }
    mix(made, 99)
}

// ---- blocks

fn mix_block(h: u64, block: &Block) -> u64
    ensures { result ≡ block_hash h (block_typed block.now) }
{
    mix_items(mix_steps(h, block.steps.as_slice()), block.items.as_slice())
}

fn mix_steps(h: u64, steps: &[BlockStep]) -> u64
    ensures { result ≡ all_hash step_hash h (map step_typed steps.now) }
{
    let mut made = h;
    for step in steps {
        made = mix_step(made, step);
    }
    mix(made, 99)
}

fn mix_step(h: u64, step: &BlockStep) -> u64
    ensures { result ≡ step_hash h (step_typed step.now) }
{
    match step {
        BlockStep::Filter { from, cond } => mix_expr(mix_expr(mix(h, 1), from), cond),
        BlockStep::Order { from, keys } => {
            mix_sort_keys(mix_expr(mix(h, 2), from), keys.as_slice())
        }
        BlockStep::Limit { from, count } => mix(mix_expr(mix(h, 3), from), *count),
        BlockStep::Distinct { from } => mix_expr(mix(h, 4), from),
        BlockStep::Take { from } => mix_expr(mix(h, 5), from),
    }
}

fn mix_items(h: u64, items: &[BlockItem]) -> u64
    ensures { result ≡ all_hash item_hash h (map item_typed items.now) }
{
    let mut made = h;
    for item in items {
        made = mix_item(made, item);
    }
    mix(made, 99)
}

fn mix_item(h: u64, item: &BlockItem) -> u64
    ensures { result ≡ item_hash h (item_typed item.now) }
{
    let valued = mix_flag(mix_expr(h, &item.value), item.flatten);
    mix(valued, u64::from(item.width))
}

// ---- expressions

#[cycle(mix_expr)]
fn mix_expr(h: u64, e: &TExpr) -> u64
    ensures { result ≡ expr_hash h (typed e.now) }
{
    match e {
        TExpr::Null => mix(h, 1),
        TExpr::Bool(b) => mix_flag(mix(h, 2), *b),
        TExpr::Int(z) => mix(mix(h, 3), i64::from(*z).cast_unsigned()),
        TExpr::Long(z) => mix(mix(h, 4), z.cast_unsigned()),
        TExpr::Chars(text) => mix_bytes(mix(h, 5), text.as_bytes()),
        TExpr::Field(n) => mix(mix(h, 6), u64::from(*n)),
        TExpr::Local(n) => mix(mix(h, 7), u64::from(*n)),
        TExpr::Chain { first, rest } => {
            mix_links(mix_expr(mix(h, 8), first.get()), rest.as_slice())
        }
        TExpr::Compare { op, a, b } => {
            let named = mix(mix(h, 9), rel_number(*op));
            mix_expr(mix_expr(named, a.get()), b.get())
        }
        TExpr::IsNull { a, not } => mix_flag(mix_expr(mix(h, 10), a.get()), *not),
        TExpr::Not(a) => mix_expr(mix(h, 11), a.get()),
        TExpr::Minus(a) => mix_expr(mix(h, 12), a.get()),
        TExpr::Choose { cond, yes, no } => {
            let chosen = mix_expr(mix(h, 13), cond.get());
            mix_expr(mix_expr(chosen, yes.get()), no.get())
        }
        TExpr::Cast { to, a } => mix_expr(mix_kind(mix(h, 14), to), a.get()),
        TExpr::Project { a, fields, single } => {
            let from = mix_expr(mix(h, 15), a.get());
            mix_flag(mix_numbers(from, fields.as_slice()), *single)
        }
        TExpr::Look { a, key } => mix_bytes(mix_expr(mix(h, 16), a.get()), key.as_bytes()),
        TExpr::Call { function, args } => {
            mix_args(mix_function(mix(h, 17), *function), args.as_slice())
        }
    }
}

#[cycle(mix_expr)]
fn mix_links(h: u64, links: &[TLink]) -> u64
    ensures { result ≡ links_hash h (links_of (map link_of links.now)) }
{
    let mut made = h;
    for link in links {
        made = mix_expr(mix(made, chain_number(link.op)), &link.a);
    }
    mix(made, 99)
}

#[cycle(mix_expr)]
fn mix_args(h: u64, args: &[TExpr]) -> u64
    ensures { result ≡ args_hash h (args_of (map typed args.now)) }
{
    let mut made = h;
    for e in args {
        made = mix_expr(made, e);
    }
    mix(made, 99)
}

// ---- kinds

#[cycle(mix_kind)]
fn mix_kind(h: u64, kind: &Kind) -> u64
    ensures { result ≡ kind_hash h (kind_tree kind.now) }
{
    match kind {
        Kind::Boolean => mix(h, 1),
        Kind::Int => mix(h, 2),
        Kind::Long => mix(h, 3),
        Kind::Chararray => mix(h, 4),
        Kind::Bytearray => mix(h, 5),
        Kind::Tuple(kinds) => mix_kinds(mix(h, 6), kinds.as_slice()),
        Kind::Bag(kinds) => mix_kinds(mix(h, 7), kinds.as_slice()),
        Kind::Map(kind) => mix_kind(mix(h, 8), kind.get()),
    }
}

#[cycle(mix_kind)]
fn mix_kinds(h: u64, kinds: &[Kind]) -> u64
    ensures { result ≡ kinds_hash h (kinds_of (map kind_tree kinds.now)) }
{
    let mut made = h;
    for kind in kinds {
        made = mix_kind(made, kind);
    }
    mix(made, 99)
}
