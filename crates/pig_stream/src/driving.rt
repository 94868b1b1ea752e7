ghost use Rattle.std.specs.Prelude.{◌≡◌, ◌<◌, [], length, IfOk, OnOk};
ghost use Rattle.pig_value.specs.Valid.{IsValue};
ghost use Rattle.pig_plan.specs.Laws.{PlanLiteralsAre};
ghost use Rattle.pig_stream.specs.Driving.{HasTaken};
ghost use Rattle.pig_stream.specs.Stepping.{plan_on};

use crate::batch::Batch;
use crate::sink::Sink;
use crate::source::Source;
use crate::steps::Steps;
use std::alloc::{AllocError, Global};

/// Takes the rows of a source through steps into what takes them, a batch at a time, until no row comes before more bytes are
/// handed in. Answers how many rows came. `batch` is the memory for that; what it holds is let go.
///
/// A count that outgrows its type is want of memory.
pub fn drive<S: Source, K: Sink>(
    alloc: Global,
    source: &mut S,
    steps: &mut Steps,
    sink: &mut K,
    batch: &mut Batch,
) -> Result<u64, AllocError>
    requires { PlanLiteralsAre IsValue (plan_on steps.old) }
    ensures taken { IfOk result (λ count. HasTaken (S.coming source.old) (S.coming source.new)
        steps.old steps.new (λ rows. K.after sink.old rows sink.new) count) }
    ensures kept { S.kept source.new ≡ S.kept source.old }
    ensures literals { OnOk result (PlanLiteralsAre IsValue (plan_on steps.new)) }
    ensures dry { OnOk result (S.dry source.new) }
{
    let mut count: u64 = 0;
    'batches: loop {
        let more = drive_batch(alloc, source, steps, sink, batch)?;
        if more == 0 {
            return Ok(count);
        }
        let Some(sum) = count.checked_add(more as u64) else {
            return Err(AllocError);
        };
        count = sum;
    }
}

/// The same of one batch: none came only where no row comes before more bytes are handed in. Once the sink has enough, and no
/// ASSERT stands on the way, rows are counted alone.
pub fn drive_batch<S: Source, K: Sink>(
    alloc: Global,
    source: &mut S,
    steps: &mut Steps,
    sink: &mut K,
    batch: &mut Batch,
) -> Result<usize, AllocError>
    requires { PlanLiteralsAre IsValue (plan_on steps.old) }
    ensures taken { IfOk result (λ count. HasTaken (S.coming source.old) (S.coming source.new)
        steps.old steps.new (λ rows. K.after sink.old rows sink.new) count) }
    ensures kept { S.kept source.new ≡ S.kept source.old }
    ensures literals { OnOk result (PlanLiteralsAre IsValue (plan_on steps.new)) }
    ensures dry { IfOk result (λ count. count ≡ 0 → S.dry source.new) }
{
    source.fill(alloc, batch)?;
    let count = batch.as_slice().len();
    if sink.has_enough() && !steps.has_asserts() {
        return Ok(count);
    }
    steps.apply(alloc, batch)?;
    sink.take(alloc, batch.as_slice())?;
    Ok(count)
}
