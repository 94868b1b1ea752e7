ghost use Rattle.std.specs.Prelude.{◌≡◌, ◌≤◌, ◌+◌, ◌*◌, ◌∷◌, [], IfOk, OnOk, map};
ghost use Rattle.pig_plan.specs.Moves.{fields_in, put};
ghost use Rattle.pig_typed.specs.Typed.{typed};
ghost use Rattle.pig_moves.specs.Depths.{depth, most_levels, most_nodes, size};
ghost use Rattle.pig_moves.specs.Pushed.{from_key, hands_key, names_bag};

use crate::extents::extent_of;
use crate::naming::fields;
use crate::putting::{Instead, put};
use pig_typed::TExpr;
use std::alloc::{AllocError, Global};

// Where the bag stands in the rows of a GROUP of one input. Its key stands before it.
const BAG: u32 = 1;
// So many levels a condition may nest that passed a GROUP, as workers evaluate it on stacks of two MiB.
const MOST_LEVELS: u32 = 2_048;
// So many nodes it may have.
const MOST_NODES: u64 = 1_048_576;

/// Whether there is one key, and a condition on the groups names no bag of theirs.
pub fn hands_key(alloc: Global, keys: &[TExpr], cond: &TExpr) -> Result<bool, AllocError>
    ensures { IfOk result (λ b. b ≡ hands_key (map typed keys.now) (typed cond.now)) }
{
    let [_] = keys else {
        return Ok(false);
    };
    let fields = fields(alloc, cond)?;
    Ok(!names_bag(fields.as_slice()))
}

fn names_bag(fields: &[u32]) -> bool
    ensures { result ≡ names_bag fields.now }
{
    let mut left = fields;
    while let [n, rest @ ..] = left {
        if *n == BAG {
            return true;
        }
        left = rest;
    }
    false
}

/// A condition with the one key in the place of the group.
pub fn put_key(alloc: Global, keys: &[TExpr], cond: &TExpr) -> Result<TExpr, AllocError>
    ensures is { IfOk result (λ c. typed c
        ≡ put (from_key (map typed keys.now)) (typed cond.now)) }
    ensures nests { IfOk result (λ c. depth (typed c) ≤ most_levels) }
    ensures fits { IfOk result (λ c. size (typed c) ≤ most_nodes) }
{
    let [key] = keys else {
        return Err(AllocError);
    };
    put_bounded(alloc, key, cond)
}

// A condition with the key in the place of each column, where it goes not too far so.
fn put_bounded(alloc: Global, key: &TExpr, cond: &TExpr) -> Result<TExpr, AllocError>
    ensures is { IfOk result (λ c. typed c
        ≡ put (from_key (typed key.now ∷ [])) (typed cond.now)) }
    ensures nests { IfOk result (λ c. depth (typed c) ≤ most_levels) }
    ensures fits { IfOk result (λ c. size (typed c) ≤ most_nodes) }
{
    let mentions = fields(alloc, cond)?;
    bounded(mentions.len(), key, cond)?;
    put(alloc, Instead::Key(key), cond)
}

// Nothing, where a condition that mentions the group so often goes not too far with the key in each place. Else there is
// no memory, as `x + x` for `x` in thirty GROUPs in turn makes 2 to the 30 of one mention.
fn bounded(mentions: usize, key: &TExpr, cond: &TExpr) -> Result<(), AllocError>
    ensures levels { OnOk result (depth (typed cond.now) + depth (typed key.now) ≤ most_levels) }
    ensures nodes { OnOk result (size (typed cond.now) + mentions * size (typed key.now)
        ≤ most_nodes + mentions) }
{
    let key = extent_of(key)?;
    let cond = extent_of(cond)?;
    let levels = cond.levels.checked_add(key.levels).ok_or(AllocError)?;
    let mentions = mentions as u64;
    let copies = mentions
        .checked_mul(u64::from(key.nodes))
        .ok_or(AllocError)?;
    let nodes = copies.checked_add(u64::from(cond.nodes)).ok_or(AllocError)?;
    let most = MOST_NODES.checked_add(mentions).ok_or(AllocError)?;
    if levels > MOST_LEVELS || nodes > most {
        return Err(AllocError);
    }
    Ok(())
}
