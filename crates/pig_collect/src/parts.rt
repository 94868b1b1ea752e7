//! The parts of STOREs, taken out of the outputs of the last wave.
ghost use Rattle.std.specs.Prelude.{◌≡◌, ◌<◌, ◌+◌, ◌^◌, ◌∷◌, ◌++◌, [], false, true, List, drop, length, map, slice_get, IfOk, OnOk};
ghost use Rattle.std.specs.List.{filter};
ghost use Rattle.std.specs.Option.{option_map_or};
ghost use Rattle.std.specs.Vec.Iter.{into_iter_items};
ghost use Rattle.pig_plan.specs.Nodes.{Entering, is_store, op_at};
ghost use Rattle.pig_plan.specs.Plans.{plan_of};
ghost use Rattle.pig_physical.specs.Handed.{out_of, outs_of};
ghost use Rattle.pig_physical.specs.Outs.{bytes_in, outs_at};
ghost use Rattle.pig_physical.specs.Running.{is_for, store_wave};
ghost use Rattle.pig_physical.specs.Seen.{staged, task_of};
ghost use Rattle.pig_physical.specs.Stages.{heads, stores as stores_at, tasks_in};
ghost use Rattle.pig_reach.specs.Reach.{stores_of};
ghost use Rattle.pig_collect.specs.Collecting.{part_count, parts_given};
ghost use Rattle.pig_collect.specs.Turns.{in_turn, own_front};

use pig_commit::{StorePart, StoreParts};
use pig_physical::{Out, Outs, Stages, Task};
use pig_plan::{Node, Plan, live_numbers};
use pig_reach::Store;
use pig_value::{Blob, Blobs, OutList};
use std::alloc::{AllocError, Global};
use std::vec::IntoIter;

// The parts of each STORE, without a copy, in the order of its tasks.
pub fn store_parts(
    alloc: Global,
    stages: &Stages,
    stores: &[Store],
    outs: Outs,
) -> Result<StoreParts, AllocError>
    requires waves { length outs ≡ length (heads (staged stages.now).plan) }
    requires counts { length (outs_at (outs_of outs) (store_wave (staged stages.now).plan))
        ≡ length (tasks_in (staged stages.now) (store_wave (staged stages.now).plan)) }
    requires stores { stores.now ≡ stores_of (staged stages.now).plan }
    ensures statements { IfOk result (λ parts. map (λ part. part.statement) parts
        ≡ map (λ store. store.statement) stores.now) }
    ensures dirs { IfOk result (λ parts. map (λ part. part.dir) parts
        ≡ map (λ store. store.dir) stores.now) }
    ensures parts { IfOk result (λ parts. map (λ part. part.parts) parts
        ≡ map (parts_given (staged stages.now) (outs_of outs))
        (stores_at (staged stages.now).plan)) }
    ensures counts { IfOk result (λ parts. map (λ part. length part.parts) parts
        ≡ map (part_count (staged stages.now)) (stores_at (staged stages.now).plan)) }
{
    let mut outs = outs;
    let numbers = store_numbers(alloc, stages.plan())?;
    match outs.pop() {
        Some(last) => parts_in_turn(alloc, stages, stores, numbers.as_slice(), last),
        None => Ok(StoreParts::new(alloc)),
    }
}

// The numbers of the STOREs among nodes, in order.
fn store_numbers(alloc: Global, plan: &Plan) -> Result<Vec<usize>, AllocError>
    ensures { IfOk result (λ numbers. numbers.items ≡ stores_at (plan_of plan.now)) }
{
    let live = live_numbers(alloc, plan)?;
    let nodes = plan.nodes().as_slice();
    let mut numbers = Vec::new(alloc);
    let mut ahead = live.as_slice();
    while let [number, rest @ ..] = ahead {
        note_store(nodes, *number, &mut numbers)?;
        ahead = rest;
    }
    Ok(numbers)
}

// Adds the number of a node where it is a STORE.
fn note_store(nodes: &[Node], number: usize, numbers: &mut Vec<usize>) -> Result<(), AllocError>
    ensures { OnOk result (numbers.new.items ≡ numbers.old.items
        ++ filter (λ k. option_map_or is_store (op_at (plan_of nodes.now) k) false) (number ∷ [])) }
{
    if !is_store(nodes, number) {
        return Ok(());
    }
    numbers.push(number)?;
    Ok(())
}

fn is_store(nodes: &[Node], number: usize) -> bool
    ensures { result ≡ option_map_or is_store (op_at (plan_of nodes.now) number) false }
{
    match nodes.get(number) {
        Some(node) => node.op.is_store(),
        None => false,
    }
}

// The outputs of the last wave go to the STOREs in turn, since its tasks stand in this order.
fn parts_in_turn(
    alloc: Global,
    stages: &Stages,
    stores: &[Store],
    numbers: &[usize],
    outs: OutList<Out>,
) -> Result<StoreParts, AllocError>
    requires some { 0 < length (heads (staged stages.now).plan) }
    requires count { length outs
        ≡ length (tasks_in (staged stages.now) (store_wave (staged stages.now).plan)) }
    requires same { length numbers.now ≡ length stores.now }
    ensures statements { IfOk result (λ parts. map (λ part. part.statement) parts
        ≡ map (λ store. store.statement) stores.now) }
    ensures dirs { IfOk result (λ parts. map (λ part. part.dir) parts
        ≡ map (λ store. store.dir) stores.now) }
    ensures parts { IfOk result (λ parts. map (λ part. part.parts) parts
        ≡ in_turn numbers.now (tasks_in (staged stages.now) (store_wave (staged stages.now).plan))
        (map out_of outs)) }
{
    let wave = stages.waves() - 1;
    let mut left = outs.into_vec().into_iter();
    let mut parts = StoreParts::new(alloc);
    let mut at = 0;
    for place in 0..stores.len() {
        let own = own_parts(alloc, stages, wave, at, numbers[place], &mut left)?;
        at += own.len();
        let part = part_of(alloc, &stores[place], own)?;
        parts.push(part)?;
    }
    Ok(parts)
}

fn part_of(alloc: Global, store: &Store, parts: Blobs) -> Result<StorePart, AllocError>
    ensures statement { IfOk result (λ part. part.statement ≡ store.now.statement) }
    ensures dir { IfOk result (λ part. part.dir ≡ store.now.dir) }
    ensures parts { IfOk result (λ part. part.parts ≡ parts) }
{
    Ok(StorePart {
        statement: store.statement,
        dir: store.dir.copy(alloc)?,
        parts,
    })
}

// The bytes of the tasks from one on that are for a STORE, up to the first one that is not.
fn own_parts(
    alloc: Global,
    stages: &Stages,
    wave: u32,
    at: usize,
    number: usize,
    left: &mut IntoIter<Out>,
) -> Result<Blobs, AllocError>
    requires wave { wave < length (heads (staged stages.now).plan) }
    requires count { at + length (into_iter_items left.old)
        ≡ length (tasks_in (staged stages.now) wave) }
    ensures own { IfOk result (λ own. own ≡ own_front number
        (drop at (tasks_in (staged stages.now) wave)) (map out_of (into_iter_items left.old))) }
    ensures left { IfOk result (λ own. into_iter_items left.new
        ≡ drop (length own) (into_iter_items left.old)) }
    ensures count { IfOk result (λ own. at + length own + length (into_iter_items left.new)
        ≡ length (tasks_in (staged stages.now) wave)) }
{
    let mut own = Blobs::new(alloc);
    let mut at = at;
    'taking: while is_for(stages, wave, at, number) {
        let Some(out) = left.next() else {
            return Ok(own);
        };
        own.push(bytes_of(alloc, out))?;
        at += 1;
    }
    Ok(own)
}

// Whether there is such a task, which is for a STORE.
fn is_for(stages: &Stages, wave: u32, at: usize, number: usize) -> bool
    requires { wave < length (heads (staged stages.now).plan) }
    ensures is { result ≡ option_map_or (is_for number)
        (slice_get (tasks_in (staged stages.now) wave) at) false }
    ensures few { result ≡ true → at < 2 ^ 32 }
{
    if at >= stages.tasks(wave) as usize {
        return false;
    }
    is_node(stages.task_at(wave, at as u32), number)
}

fn is_node(task: &Task, number: usize) -> bool
    ensures { (ways : List Entering) → result ≡ is_for number (task_of ways task.now) }
{
    match task {
        Task::Map(task) => task.node as usize == number,
        Task::Reduce(_) => false,
        Task::Rank(_) => false,
    }
}

// The bytes of an output; none of another form, which no task of a STORE hands on.
fn bytes_of(alloc: Global, out: Out) -> Blob
    ensures { result ≡ bytes_in (out_of out).form }
{
    let Out { form, .. } = out;
    match form.into_bytes() {
        Some(bytes) => bytes,
        None => Blob::new(alloc),
    }
}
