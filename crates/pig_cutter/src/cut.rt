//! A plan cut into tasks.
ghost use Rattle.std.specs.Prelude.{◌≡◌, ◌<◌, ◌^◌, true, false, IfOk, IfErr, OnOk};
ghost use Rattle.pig_plan.specs.Plans.{plan_of};
ghost use Rattle.pig_plan.specs.Results.{at_place};
ghost use Rattle.pig_plan.specs.Valid.{IsPlan};
ghost use Rattle.pig_physical.specs.Seen.{cut_of, staged};
ghost use Rattle.pig_cutter.specs.Limits.{has_too_many};
ghost use Rattle.pig_cutter.specs.Listed.{AreListed, CutsInto};
ghost use Rattle.pig_cutter.specs.Tables.{parts_for};
ghost use Rattle.pig_cutter.specs.declared.cut.CutFault.TheVariants as CutFault;

use crate::counting::counts;
use crate::feeding::stores;
use crate::listing::{Listing, waves};
use crate::reading::sources;
use crate::weighing::is_any_over;
use pig_physical::{Sizes, Stages, WaveHead, Waves, heads, which_fold};
use pig_plan::{Plan, live_marks, live_numbers};
use std::alloc::{AllocError, Global};
use thiserror::Error;

// The most that a wave may count: its tasks that are no reduce tasks, and its ways.
const MOST: u32 = 65_536;

// One more than that: no source that is listed has as many parts.
const LIMIT: u64 = 65_537;

/// Why a plan is not cut.
#[derive(Debug, Drop, Error)]
pub enum CutFault {
    /// Some wave has more tasks and ways than it may.
    #[error("too many tasks")]
    TooManyTasks,
    #[error("out of memory")]
    OutOfMemory,
}

impl From<AllocError> for CutFault {
    ghost use Rattle.std.specs.Prelude.{◌≡◌};
    ghost use Rattle.pig_cutter.specs.declared.cut.CutFault.TheVariants.{OutOfMemory};

    ghost from_gives = { λ _ e. e ≡ OutOfMemory };

    fn from(_: AllocError) -> Self {
        CutFault::OutOfMemory
    }
}

/// The stages of a plan: its waves of tasks, by the lengths of its inputs' pieces, the number of reducers and the number
/// of bytes of a split. An input that has no size has no piece.
///
/// `TooManyTasks` is answered exactly where a wave's tasks that are no reduce tasks, and its ways, are together more
/// than 65,536. These are counted before any of them is made.
pub fn cut_plan<'p>(
    alloc: Global,
    plan: &'p Plan,
    sizes: &'p Sizes,
    reducers: u32,
    split: u64,
) -> Result<Stages<'p>, CutFault>
    requires { 0 < split }
    ensures stages { IfOk result (λ stages. stages ≡ cut_of plan.now sizes.now reducers split) }
    ensures few { IfOk result (λ stages.
        has_too_many (staged (cut_of plan.now sizes.now reducers split)) ≡ false) }
    ensures many { IfErr result (λ fault. fault ≡ CutFault.TooManyTasks
        → has_too_many (staged (cut_of plan.now sizes.now reducers split)) ≡ true) }
{
    match cut_waves(alloc, plan, sizes, reducers, split) {
        Ok(Some(waves)) => {
            let folders = which_fold(alloc, plan)?;
            Ok(Stages::of(plan, sizes, reducers, split, waves, folders))
        }
        Ok(None) => Err(CutFault::TooManyTasks),
        Err(_) => Err(CutFault::OutOfMemory),
    }
}

// The waves, or none where one of them is too large.
fn cut_waves(
    alloc: Global,
    plan: &Plan,
    sizes: &Sizes,
    reducers: u32,
    split: u64,
) -> Result<Option<Waves>, AllocError>
    requires { 0 < split }
    ensures { IfOk result (CutsInto (staged (cut_of plan.now sizes.now reducers split))) }
{
    let heads = heads(alloc, plan)?;
    let marks = live_marks(alloc, plan)?;
    let live = live_numbers(alloc, plan)?;
    let nodes = plan.nodes().as_slice();
    let stores = stores(alloc, nodes, live.as_slice())?;
    let pieces = sizes.as_slice();
    let table = counts(alloc, nodes, pieces, reducers, split, LIMIT)?;
    let counts = table.as_slice();
    let sources = sources(alloc, nodes, marks.as_slice(), pieces, counts)?;
    let listing = Listing {
        nodes,
        stores: stores.as_slice(),
        counts,
        sources: sources.as_slice(),
        split,
        reducers,
    };
    list_waves(alloc, &listing, heads.as_slice())
}

// The waves of these heads, where none of them counts more than the most.
fn list_waves(
    alloc: Global,
    listing: &Listing,
    heads: &[WaveHead],
) -> Result<Option<Waves>, AllocError>
    requires valid { IsPlan (plan_of listing.now.nodes.now) }
    requires split { 0 < listing.now.split }
    ensures { IfOk result (AreListed (plan_of listing.now.nodes.now) listing.now.stores.now
        (at_place 0 listing.now.counts.now)
        (parts_for listing.now.split listing.now.sources.now) listing.now.reducers heads.now) }
{
    if is_any_over(alloc, listing, heads, MOST)? {
        return Ok(None);
    }
    let waves = waves(alloc, listing, heads)?;
    few_waves(waves.len())?;
    Ok(Some(waves))
}

// Waves are numbered in 32 bits.
fn few_waves(count: usize) -> Result<(), AllocError>
    ensures { OnOk result (count < 2 ^ 32) }
{
    match u32::try_from(count) {
        Ok(_) => Ok(()),
        Err(_) => Err(AllocError),
    }
}
