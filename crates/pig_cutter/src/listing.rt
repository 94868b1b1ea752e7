//! The waves with their ways and tasks, as they are listed.
ghost use Rattle.std.specs.Prelude.{◌≡◌, ◌<◌, ◌≤◌, ◌-◌, ◌^◌, ◌++◌, Some, slice_get, length, map, drop, IfOk, OnOk};
ghost use Rattle.std.specs.List.{range_with_len};
ghost use Rattle.pig_plan.specs.Plans.{op_of, plan_of};
ghost use Rattle.pig_plan.specs.Valid.{IsPlan};
ghost use Rattle.pig_physical.specs.Seen.{entering_of};
ghost use Rattle.pig_physical.specs.declared.parts.Part.TheVariants as parts;
ghost use Rattle.pig_storage.specs.Splits.{splits_of};
ghost use Rattle.pig_cutter.specs.Feeds.{IsCut, made_on, partition_count, partition_task, partitions_of, tasks_along, ways_on};
ghost use Rattle.pig_cutter.specs.Listed.{AreCut, AreFed};
ghost use Rattle.pig_cutter.specs.Tables.{parts_for, parts_read, reading_of};

use crate::feeding::{Feed, feeds, next, operator};
use crate::reading::{Source, reduce_count};
use crate::tracing::add_ways;
use pig_physical::{
    MapTask, Part, ReduceTask, Task, Tasks, Wave, WaveHead, WaveKind, Waves, Way, Ways, splits,
};
use pig_plan::{Node, NodeOp};
use pig_value::Lengths;
use std::alloc::{AllocError, Global};

// What waves are listed from: the nodes, the live STOREs, how many parts each node has, up to a limit, what these are read
// from, and the numbers of bytes of a split and of reducers.
#[derive(Drop)]
pub struct Listing<'p> {
    pub nodes: &'p [Node],
    pub stores: &'p [u32],
    pub counts: &'p [u64],
    pub sources: &'p [Source<'p>],
    pub split: u64,
    pub reducers: u32,
}

// The waves of these heads, in order.
pub fn waves(alloc: Global, listing: &Listing, heads: &[WaveHead]) -> Result<Waves, AllocError>
    requires valid { IsPlan (plan_of listing.now.nodes.now) }
    requires split { 0 < listing.now.split }
    ensures { IfOk result (AreCut (plan_of listing.now.nodes.now) listing.now.stores.now
        (parts_for listing.now.split listing.now.sources.now) listing.now.reducers heads.now) }
{
    let mut found = Waves::new(alloc);
    for number in 0..heads.len() {
        let wave_number = in_32_bits(number)?;
        let wave = wave(alloc, listing, wave_number, head_at(heads, number))?;
        found.push(wave)?;
    }
    Ok(found)
}

fn head_at(heads: &[WaveHead], number: usize) -> WaveHead
    requires { number < length heads.now }
    ensures { slice_get heads.now number ≡ Some result }
{
    heads[number]
}

// Waves, ways and tasks are numbered in 32 bits.
fn in_32_bits(number: usize) -> Result<u32, AllocError>
    ensures { IfOk result (λ n. n ≡ number) }
{
    match u32::try_from(number) {
        Ok(found) => Ok(found),
        Err(_) => Err(AllocError),
    }
}

fn wave(alloc: Global, listing: &Listing, number: u32, head: WaveHead) -> Result<Wave, AllocError>
    requires valid { IsPlan (plan_of listing.now.nodes.now) }
    requires split { 0 < listing.now.split }
    ensures { IfOk result (IsCut (plan_of listing.now.nodes.now) listing.now.stores.now
        (parts_for listing.now.split listing.now.sources.now) listing.now.reducers number head) }
{
    let feeds = feeds(alloc, listing.nodes, listing.stores, &head)?;
    let mut ways = Ways::new(alloc);
    let mut tasks = Tasks::new(alloc);
    add_feeds(
        alloc,
        listing,
        number,
        feeds.as_slice(),
        &mut ways,
        &mut tasks,
    )?;
    add_partitions(listing, number, &head, &mut tasks)?;
    counted(Wave { head, ways, tasks })
}

// A wave, where its tasks can be numbered.
fn counted(wave: Wave) -> Result<Wave, AllocError>
    ensures same { IfOk result (λ counted. counted ≡ wave) }
    ensures few { IfOk result (λ counted. length counted.tasks < 2 ^ 32) }
{
    match in_32_bits(wave.tasks.len()) {
        Ok(_) => Ok(wave),
        Err(fault) => Err(fault),
    }
}

// Adds the ways and the tasks of feeds, in turn.
fn add_feeds(
    alloc: Global,
    listing: &Listing,
    wave: u32,
    feeds: &[Feed],
    ways: &mut Ways,
    tasks: &mut Tasks,
) -> Result<(), AllocError>
    requires valid { IsPlan (plan_of listing.now.nodes.now) }
    requires split { 0 < listing.now.split }
    ensures { OnOk result (AreFed (plan_of listing.now.nodes.now)
        (parts_for listing.now.split listing.now.sources.now) wave feeds.now
        ways.old ways.new tasks.old tasks.new) }
{
    let mut left = feeds;
    while let [feed, rest @ ..] = left {
        add_feed(alloc, listing, wave, feed, ways, tasks)?;
        left = rest;
    }
    Ok(())
}

// Adds the ways of a feed, and the tasks on these.
fn add_feed(
    alloc: Global,
    listing: &Listing,
    wave: u32,
    feed: &Feed,
    ways: &mut Ways,
    tasks: &mut Tasks,
) -> Result<(), AllocError>
    requires valid { IsPlan (plan_of listing.now.nodes.now) }
    requires split { 0 < listing.now.split }
    ensures ways { OnOk result (map entering_of ways.new
        ≡ map entering_of ways.old ++ ways_on (plan_of listing.now.nodes.now) feed.now) }
    ensures tasks { OnOk result (tasks.new
        ≡ tasks.old ++ tasks_along (parts_for listing.now.split listing.now.sources.now)
        feed.now.node wave (length ways.old)
        (ways_on (plan_of listing.now.nodes.now) feed.now)) }
{
    let begin = ways.len();
    add_ways(alloc, listing.nodes, feed, ways)?;
    add_tasks(
        alloc,
        listing,
        feed.node,
        wave,
        begin,
        ways.as_slice(),
        tasks,
    )
}

// Adds the tasks on the ways from a number on.
fn add_tasks(
    alloc: Global,
    listing: &Listing,
    node: u32,
    wave: u32,
    begin: usize,
    ways: &[Way],
    tasks: &mut Tasks,
) -> Result<(), AllocError>
    requires begin { begin ≤ length ways.now }
    requires split { 0 < listing.now.split }
    ensures { OnOk result (tasks.new
        ≡ tasks.old ++ tasks_along (parts_for listing.now.split listing.now.sources.now)
        node wave begin (map entering_of (drop begin ways.now))) }
{
    let mut number = in_32_bits(begin)?;
    let mut left = &ways[begin..];
    while let [way, rest @ ..] = left {
        add_way_tasks(alloc, listing, way.path.source, node, wave, number, tasks)?;
        number = next(number)?;
        left = rest;
    }
    Ok(())
}

// Adds a task on a way for each part of its source.
fn add_way_tasks(
    alloc: Global,
    listing: &Listing,
    source: u32,
    node: u32,
    wave: u32,
    way: u32,
    tasks: &mut Tasks,
) -> Result<(), AllocError>
    requires { 0 < listing.now.split }
    ensures { OnOk result (tasks.new ≡ tasks.old ++ map (made_on node wave way)
        (parts_for listing.now.split listing.now.sources.now source)) }
{
    match listing.sources.get(source as usize) {
        Some(source) => add_parts(alloc, listing.split, source, node, wave, way, tasks),
        None => Ok(()),
    }
}

fn add_parts(
    alloc: Global,
    split: u64,
    source: &Source,
    node: u32,
    wave: u32,
    way: u32,
    tasks: &mut Tasks,
) -> Result<(), AllocError>
    requires { 0 < split }
    ensures { OnOk result (tasks.new ≡ tasks.old ++ map (made_on node wave way)
        (parts_read split (reading_of source.now))) }
{
    match source {
        Source::Nothing => Ok(()),
        Source::Splits(lengths) => add_splits(alloc, split, lengths, node, wave, way, tasks),
        Source::Outputs { wave: from, count } => add_outputs(*from, *count, node, wave, way, tasks),
    }
}

fn add_splits(
    alloc: Global,
    split: u64,
    lengths: &Lengths,
    node: u32,
    wave: u32,
    way: u32,
    tasks: &mut Tasks,
) -> Result<(), AllocError>
    requires { 0 < split }
    ensures { OnOk result (tasks.new ≡ tasks.old ++ map (made_on node wave way)
        (map parts.Split (splits_of split lengths.now))) }
{
    let found = splits(alloc, lengths, split)?;
    let mut left = found.as_slice();
    while let [split, rest @ ..] = left {
        tasks.push(made_on(node, wave, way, Part::Split(*split)))?;
        left = rest;
    }
    Ok(())
}

fn made_on(node: u32, wave: u32, way: u32, part: Part) -> Task
    ensures { result ≡ made_on node wave way part }
{
    Task::Map(MapTask {
        node,
        wave,
        way,
        part,
    })
}

fn add_outputs(
    from: u32,
    count: u64,
    node: u32,
    wave: u32,
    way: u32,
    tasks: &mut Tasks,
) -> Result<(), AllocError>
    ensures { OnOk result (tasks.new ≡ tasks.old
        ++ map (λ at. made_on node wave way (parts.Output from at)) (range_with_len 0 count)) }
{
    for at in 0..count {
        let part = output(from, at)?;
        tasks.push(made_on(node, wave, way, part))?;
    }
    Ok(())
}

// An output of a wave: tasks are numbered in 32 bits.
fn output(wave: u32, at: u64) -> Result<Part, AllocError>
    ensures { IfOk result (λ part. part ≡ parts.Output wave at) }
{
    match u32::try_from(at) {
        Ok(at) => Ok(Part::Output { wave, at }),
        Err(_) => Err(AllocError),
    }
}

// Adds a task for each partition, in a wave that has such.
fn add_partitions(
    listing: &Listing,
    wave: u32,
    head: &WaveHead,
    tasks: &mut Tasks,
) -> Result<(), AllocError>
    ensures { OnOk result (tasks.new ≡ tasks.old ++ map (partition_task head.now.kind)
        (partitions_of (plan_of listing.now.nodes.now) listing.now.reducers wave head.now)) }
{
    match operator(listing.nodes, head.node) {
        Some(op) => {
            let count = partition_count(head.kind, op, listing.reducers);
            add_partition_tasks(head.kind, head.node, wave_before(wave), count, tasks)
        }
        None => Ok(()),
    }
}

// The wave whose outputs a partition is read from; the first wave has none before it.
fn wave_before(wave: u32) -> u32
    ensures { result ≡ wave - 1 }
{
    wave.saturating_sub(1)
}

fn partition_count(kind: WaveKind, op: &NodeOp, reducers: u32) -> u32
    ensures { result ≡ partition_count reducers kind (op_of op.now) }
{
    match kind {
        WaveKind::Reduce => reduce_count(op, reducers),
        WaveKind::Rank => reduce_count(op, reducers),
        WaveKind::Map => 0,
        WaveKind::Copy => 0,
        WaveKind::Probe => 0,
        WaveKind::Store => 0,
    }
}

fn add_partition_tasks(
    kind: WaveKind,
    node: u32,
    wave: u32,
    count: u32,
    tasks: &mut Tasks,
) -> Result<(), AllocError>
    ensures { OnOk result (tasks.new ≡ tasks.old
        ++ map (λ p. partition_task kind (record { node = node; wave = wave; part = p }))
        (range_with_len 0 count)) }
{
    for part in 0..count {
        tasks.push(partition_task(kind, ReduceTask { node, wave, part }))?;
    }
    Ok(())
}

// What is done to a partition in a wave.
fn partition_task(kind: WaveKind, task: ReduceTask) -> Task
    ensures { result ≡ partition_task kind task }
{
    match kind {
        WaveKind::Rank => Task::Rank(task),
        WaveKind::Reduce => Task::Reduce(task),
        WaveKind::Map => Task::Reduce(task),
        WaveKind::Copy => Task::Reduce(task),
        WaveKind::Probe => Task::Reduce(task),
        WaveKind::Store => Task::Reduce(task),
    }
}
