//! How much waves count against the limit, counted up to it and before any wave is listed.
ghost use Rattle.std.specs.Prelude.{◌≡◌, ◌+◌, min, IfOk};
ghost use Rattle.std.specs.List.{list_any};
ghost use Rattle.pig_plan.specs.Plans.{op_of, plan_of};
ghost use Rattle.pig_plan.specs.Results.{at_place};
ghost use Rattle.pig_cutter.specs.Tables.{is_any_over, is_over, weigh, weight_of, weights_of};

use crate::counting::{count_at, sum_up_to};
use crate::feeding::{Feed, feeds};
use crate::listing::Listing;
use pig_physical::WaveHead;
use pig_plan::NodeOp;
use std::alloc::{AllocError, Global};

// Of each node, in order, how many paths it has and how many parts the sources of these have together, counted up to a
// limit: each UNION may double them.
fn weights(alloc: Global, listing: &Listing, limit: u64) -> Result<Vec<u64>, AllocError>
    ensures { IfOk result (λ found. found.items
        ≡ weights_of limit (at_place 0 listing.now.counts.now) (plan_of listing.now.nodes.now)) }
{
    let mut found = Vec::with_capacity(alloc, listing.nodes.len())?;
    let mut left = listing.nodes;
    while let [node, rest @ ..] = left {
        let count = count_at(listing.counts, found.len());
        let weight = weigh(alloc, &node.op, count, found.as_slice(), limit)?;
        found.push(weight)?;
        left = rest;
    }
    Ok(found)
}

// What a node counts, by what the nodes before it do.
fn weigh(
    alloc: Global,
    op: &NodeOp,
    count: u64,
    weights: &[u64],
    limit: u64,
) -> Result<u64, AllocError>
    ensures { IfOk result (λ weight. weight
        ≡ weigh limit count (op_of op.now) (at_place 0 weights.now)) }
{
    if op.is_source() {
        return Ok(weigh_source(count, limit));
    }
    let inputs = op.inputs(alloc)?;
    Ok(sum_up_to(inputs.as_slice(), weights, limit))
}

// A source is a path, and has so many parts.
fn weigh_source(count: u64, limit: u64) -> u64
    ensures { result ≡ min limit (count + 1) }
{
    limit.min(count.saturating_add(1))
}

// Whether one of these waves counts more than the most.
pub fn is_any_over(
    alloc: Global,
    listing: &Listing,
    heads: &[WaveHead],
    most: u32,
) -> Result<bool, AllocError>
    ensures { IfOk result (λ b. b ≡ is_any_over most (plan_of listing.now.nodes.now)
        listing.now.stores.now (at_place 0 listing.now.counts.now) heads.now) }
{
    let limit = u64::from(most) + 1;
    let weights = weights(alloc, listing, limit)?;
    any_over(alloc, listing, heads, weights.as_slice(), most)
}

fn any_over(
    alloc: Global,
    listing: &Listing,
    heads: &[WaveHead],
    weights: &[u64],
    most: u32,
) -> Result<bool, AllocError>
    ensures { IfOk result (λ b. b ≡ list_any (is_over most (plan_of listing.now.nodes.now)
        listing.now.stores.now (at_place 0 weights.now)) heads.now) }
{
    let mut left = heads;
    while let [head, rest @ ..] = left {
        if is_over(alloc, listing, head, weights, most)? {
            return Ok(true);
        }
        left = rest;
    }
    Ok(false)
}

fn is_over(
    alloc: Global,
    listing: &Listing,
    head: &WaveHead,
    weights: &[u64],
    most: u32,
) -> Result<bool, AllocError>
    ensures { IfOk result (λ b. b ≡ is_over most (plan_of listing.now.nodes.now)
        listing.now.stores.now (at_place 0 weights.now) head.now) }
{
    let feeds = feeds(alloc, listing.nodes, listing.stores, head)?;
    let most = u64::from(most);
    Ok(weight_of(feeds.as_slice(), weights, most + 1) > most)
}

// What these feeds count together, up to a limit.
fn weight_of(feeds: &[Feed], weights: &[u64], limit: u64) -> u64
    ensures { result ≡ weight_of limit (at_place 0 weights.now) feeds.now }
{
    let mut sum: u64 = 0;
    let mut left = feeds;
    while let [feed, rest @ ..] = left {
        sum = limit.min(sum.saturating_add(count_at(weights, feed.from as usize)));
        left = rest;
    }
    sum
}
