//! The parts of STOREs, what bare LIMITs kept, and the numbers of a run, out of the outputs of its
//! waves.
ghost use Rattle.std.specs.Prelude.{◌≡◌, ◌%◌, ◌^◌, length, map, IfOk};
ghost use Rattle.pig_reach.specs.Reach.{stores_of};
ghost use Rattle.pig_physical.specs.Handed.{outs_of};
ghost use Rattle.pig_physical.specs.Running as running;
ghost use Rattle.pig_physical.specs.Running.{AreOutputs, all_unmet};
ghost use Rattle.pig_physical.specs.Seen.{staged};
ghost use Rattle.pig_physical.specs.Stages.{heads, stores as stores_at};
ghost use Rattle.pig_collect.specs.Collecting.{HasStoreOutputs, least, lines_in, part_count, parts_given};

use crate::counts::lines_in;
use crate::kept::kept;
use crate::parts::store_parts;
use crate::unmet::least_unmet;
use pig_commit::StoreParts;
use pig_physical::{Outs, Stages};
use pig_reach::Store;
use pig_value::KeptList;
use std::alloc::{AllocError, Global};

/// What the outputs of all waves hold of a run's answer.
#[derive(Drop)]
pub struct Collected {
    /// The parts of each STORE, in the order of its tasks.
    pub parts: StoreParts,
    /// What the bare LIMITs kept.
    pub kept: KeptList,
    /// The number of lines that tasks read, modulo 2 to the 64.
    pub read: u64,
    /// The statement of the first ASSERT that some task's rows don't meet.
    pub unmet: Option<u32>,
}

/// Takes the parts of each STORE out of the outputs of all waves, without a copy, and finds what
/// the bare LIMITs kept, the numbers of the run, and the first ASSERT that is not met.
pub fn collect(
    alloc: Global,
    stages: &Stages,
    stores: &[Store],
    outs: Outs,
) -> Result<Collected, AllocError>
    requires parts { HasStoreOutputs (staged stages.now) (outs_of outs) }
    requires waves { length outs ≡ length (heads (staged stages.now).plan) }
    requires stores { stores.now ≡ stores_of (staged stages.now).plan }
    ensures statements { IfOk result (λ c. map (λ part. part.statement) c.parts
        ≡ map (λ store. store.statement) stores.now) }
    ensures dirs { IfOk result (λ c. map (λ part. part.dir) c.parts
        ≡ map (λ store. store.dir) stores.now) }
    ensures parts { IfOk result (λ c. map (λ part. part.parts) c.parts
        ≡ map (parts_given (staged stages.now) (outs_of outs))
        (stores_at (staged stages.now).plan)) }
    ensures counts { IfOk result (λ c. map (λ part. length part.parts) c.parts
        ≡ map (part_count (staged stages.now)) (stores_at (staged stages.now).plan)) }
    ensures kept { IfOk result (λ c. AreOutputs (staged stages.now).plan (outs_of outs) c.kept) }
    ensures read { IfOk result (λ c. c.read ≡ lines_in (outs_of outs) % 2 ^ 64) }
    ensures unmet { IfOk result (λ c. c.unmet ≡ least (all_unmet (outs_of outs))) }
{
    let kept = kept(alloc, stages.plan(), outs.as_slice())?;
    let read = lines_in(outs.as_slice());
    let unmet = least_unmet(outs.as_slice());
    let parts = store_parts(alloc, stages, stores, outs)?;
    Ok(Collected {
        parts,
        kept,
        read,
        unmet,
    })
}
