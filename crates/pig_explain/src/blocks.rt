//! The texts of sort keys, items and nested steps.
ghost use Rattle.std.specs.Prelude.{◌≡◌, ◌++◌, [], map, codes, OnOk};
ghost use Rattle.pig_typed.specs.Typed.{block_typed, item_typed, step_typed, typed};
ghost use Rattle.pig_explain.specs.ExprTexts.{block_text, dir_text, expr_text, item_text, named_text, sort_key_text, sort_keys_text, step_text, steps_text};
ghost use Rattle.pig_explain.specs.Joins.{joined};

use crate::exprs::put_expr;
use crate::puts::{put, put_field, put_local, put_number};
use pig_typed::{Block, BlockItem, BlockStep, SortKey, TExpr};
use pig_value::Dir;
use std::alloc::AllocError;

// What a FOREACH has behind its input: nested steps, and items.
pub fn put_block(block: &Block, out: &mut Vec<u8>) -> Result<(), AllocError>
    ensures { OnOk result (out.new.items ≡ out.old.items ++ block_text (block_typed block.now)) }
{
    put_steps(block.steps.as_slice(), out)?;
    put_items(block.items.as_slice(), out)
}

fn put_steps(steps: &[BlockStep], out: &mut Vec<u8>) -> Result<(), AllocError>
    ensures { OnOk result (out.new.items
        ≡ out.old.items ++ steps_text 0 (map step_typed steps.now)) }
{
    for number in 0..steps.len() {
        put_named(number as u64, &steps[number], out)?;
    }
    Ok(())
}

// A nested step behind its name.
fn put_named(number: u64, step: &BlockStep, out: &mut Vec<u8>) -> Result<(), AllocError>
    ensures { OnOk result (out.new.items
        ≡ out.old.items ++ named_text number (step_typed step.now)) }
{
    put(b" ", out)?;
    put_local(number, out)?;
    put(b" = ", out)?;
    put_step(step, out)?;
    put(b";", out)
}

fn put_step(step: &BlockStep, out: &mut Vec<u8>) -> Result<(), AllocError>
    ensures { OnOk result (out.new.items ≡ out.old.items ++ step_text (step_typed step.now)) }
{
    match step {
        BlockStep::Filter { from, cond } => {
            put_on(b"FILTER ", from, b" ", out)?;
            put_expr(cond, out)
        }
        BlockStep::Order { from, keys } => {
            put_on(b"ORDER ", from, b" ", out)?;
            put_sort_keys(keys.as_slice(), out)
        }
        BlockStep::Limit { from, count } => {
            put_on(b"LIMIT ", from, b" ", out)?;
            put_number(*count, out)
        }
        BlockStep::Distinct { from } => put_on(b"DISTINCT ", from, b"", out),
        BlockStep::Take { from } => put_expr(from, out),
    }
}

// A bag with what stands before and behind it.
fn put_on(before: &[u8], from: &TExpr, behind: &[u8], out: &mut Vec<u8>) -> Result<(), AllocError>
    ensures { OnOk result (out.new.items
        ≡ out.old.items ++ before.now ++ expr_text (typed from.now) ++ behind.now) }
{
    put(before, out)?;
    put_expr(from, out)?;
    put(behind, out)
}

// Items, the first behind a space and each further one behind a comma and a space.
fn put_items(items: &[BlockItem], out: &mut Vec<u8>) -> Result<(), AllocError>
    ensures { OnOk result (out.new.items ≡ out.old.items
        ++ joined (codes " ") (codes ", ") (map item_text (map item_typed items.now))) }
{
    let mut before: &[u8] = b" ";
    for item in items {
        put(before, out)?;
        put_item(item, out)?;
        before = b", ";
    }
    Ok(())
}

fn put_item(item: &BlockItem, out: &mut Vec<u8>) -> Result<(), AllocError>
    ensures { OnOk result (out.new.items ≡ out.old.items ++ item_text (item_typed item.now)) }
{
    if item.flatten {
        put_on(b"FLATTEN(", &item.value, b")", out)
    } else {
        put_expr(&item.value, out)
    }
}

// Sort keys with a comma and a space between each two.
pub fn put_sort_keys(keys: &[SortKey], out: &mut Vec<u8>) -> Result<(), AllocError>
    ensures { OnOk result (out.new.items ≡ out.old.items ++ sort_keys_text keys.now) }
{
    let mut before: &[u8] = b"";
    for key in keys {
        put(before, out)?;
        put_sort_key(*key, out)?;
        before = b", ";
    }
    Ok(())
}

fn put_sort_key(key: SortKey, out: &mut Vec<u8>) -> Result<(), AllocError>
    ensures { OnOk result (out.new.items ≡ out.old.items ++ sort_key_text key) }
{
    put_field(key.position, out)?;
    put(dir_word(key.dir), out)
}

fn dir_word(dir: Dir) -> &'static [u8]
    ensures { result.now ≡ dir_text dir }
{
    match dir {
        Dir::Asc => b" ASC",
        Dir::Desc => b" DESC",
    }
}
