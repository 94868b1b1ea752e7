//! The outputs of a wave, in order.

ghost use Rattle.std.specs.Prelude.{◌≡◌, ◌<◌, ◌≤◌, ◌+◌, [], ◌∷◌, ◌++◌, ℕ, Some, None, IfOk, All, length, slice_get, vec_len, vec_capacity, if◌then◌else◌};
ghost use Rattle.pig_job.specs.Rule.{once_below};
ghost use Rattle.pig_pool.specs.Workers.{outputs_of};
ghost use Rattle.pig_pool.specs.Wave.{AreOutputs, ArePlaced};

use crate::work::Work;
use pig_value::{OutList, Seq};
use std::alloc::{AllocError, Global};
use std::collections::LinkedList;

// An empty place for each of so many tasks.
pub fn places<O: Drop>(alloc: Global, tasks: usize) -> Result<Vec<Option<O>>, AllocError>
    ensures { IfOk result (λ v. vec_len v ≡ tasks) }
{
    let mut places = Vec::with_capacity(alloc, tasks)?;
    for _ in 0..tasks {
        places.push_reserved(None);
    }
    Ok(places)
}

// Puts each output at the place of its task.
fn place<W: Work>(
    work: &W,
    places: &mut Vec<Option<W::Out>>,
    mut outputs: LinkedList<(u32, W::Out)>,
)
    requires places { vec_len places.old ≡ W.count work.now }
    requires each { (t : ℕ) → outputs_of t outputs ≡ once_below (W.count work.now) t }
    requires right { All (λ o. W.right work.now o.0 o.1) outputs }
    ensures count { vec_len places.new ≡ W.count work.now }
    ensures placed { ArePlaced (W.right work.now) (W.count work.now) places.new.items }
{
    while let Some((t, output)) = outputs.pop_front() {
        places[t as usize] = Some(output);
    }
}

// The outputs in the order of their tasks. `list` has room for them.
pub fn gather<W: Work>(
    work: &W,
    mut places: Vec<Option<W::Out>>,
    mut list: Vec<W::Out>,
    outputs: LinkedList<(u32, W::Out)>,
) -> OutList<W::Out>
    requires places { vec_len places ≡ W.count work.now }
    requires list { (list.items ≡ []) × (vec_len list ≡ 0)
        × (W.count work.now ≤ vec_capacity list) }
    requires each { (t : ℕ) → outputs_of t outputs ≡ once_below (W.count work.now) t }
    requires right { All (λ o. W.right work.now o.0 o.1) outputs }
    ensures { AreOutputs (W.right work.now) (W.count work.now) result }
{
    place(work, &mut places, outputs);
    for t in 0..work.tasks() {
        let Some(output) = places[t as usize].take() else {
            unreachable!();
        };
        list.push_reserved(output);
    }
    Seq::from_vec(list)
}
