//! The rows of a task's part, taken through steps.
ghost use Rattle.std.specs.Prelude.{◌≡◌, ◌<◌, ◌≤◌, [], get_or, map, slice_get, IfSome, OnOk};
ghost use Rattle.std.specs.Option.{ForSome, option_map, option_map_or};
ghost use Rattle.pig_value.specs.Valid.{IsValue};
ghost use Rattle.pig_plan.specs.Laws.{OpLiteralsAre};
ghost use Rattle.pig_plan.specs.Nodes.{op_at};
ghost use Rattle.pig_plan.specs.Plans.{op_of};
ghost use Rattle.pig_physical.specs.Handed.{out_of, outs_of};
ghost use Rattle.pig_physical.specs.Outs.{rows_at, rows_in};
ghost use Rattle.pig_physical.specs.Seen.{staged};
ghost use Rattle.pig_map.specs.Making.{HasLengths, HasTakenPart, HasTakenRows, load_of, load_parts};
ghost use Rattle.pig_map.specs.Reading.{AreFresh};
ghost use Rattle.pig_map.specs.Working.{Leaves, prior_of, stages_of};

use crate::reading::{Load, Piece, take_lines};
use crate::work::MapWork;
use pig_outside::{Host, OutsideError, Stop};
use pig_packed::Packed;
use pig_physical::{Out, Outs, Part, Stages};
use pig_plan::NodeOp;
use pig_storage::Split;
use pig_stream::{Batch, Sink, Steps, Unpacked, drive};
use pig_value::Text;
use std::alloc::AllocError;

// At least so many bytes are read at once, where a block may be as long.
const LEAST: u32 = 4_096;

// A block that is no longer than a split, whose lines mostly end next to it.
fn block_for(split: Split, block: u32) -> u32
    requires { 0 < block }
    ensures some { 0 < result }
    ensures most { result ≤ block }
{
    let length = split.to.saturating_sub(split.from);
    if length < u64::from(block) {
        (length as u32).max(block.min(LEAST))
    } else {
        block
    }
}

// The operator of the node of a number.
pub fn operator<'p>(stages: &'p Stages, number: u32) -> Option<&'p NodeOp>
    ensures op { option_map (λ op. op_of op.now) result ≡ op_at (staged stages.now).plan number }
    ensures literals { IfSome result (λ op. OpLiteralsAre IsValue (op_of op.now)) }
{
    match stages.plan().nodes().get(number as usize) {
        Some(node) => Some(&node.op),
        None => None,
    }
}

// A LOAD, where the operator is one.
fn as_load(op: &NodeOp) -> Option<Load>
    ensures { option_map (λ load. load_parts load.path.now load.delim load.columns.now)
        result ≡ load_of (op_of op.now) }
{
    match op {
        NodeOp::Load {
            path,
            delim,
            columns,
        } => {
            let delim = *delim;
            Some(Load {
                path,
                delim,
                columns,
            })
        }
        _ => None,
    }
}

// The number of bytes of a piece of an input; none where there is no such.
fn length_of(stages: &Stages, path: &Text, piece: u32) -> u64
    ensures { result ≡ get_or ((staged stages.now).sizing.lengths path.now) piece 0 }
{
    match stages.lengths(path.as_str()) {
        Some(lengths) => number_at(lengths.as_slice(), piece as usize),
        None => 0,
    }
}

fn number_at(numbers: &[u64], at: usize) -> u64
    ensures { result ≡ get_or numbers.now at 0 }
{
    match numbers.get(at) {
        Some(number) => *number,
        None => 0,
    }
}

// Takes the rows of an output of an earlier wave through steps.
fn take_output<K: Sink>(
    work: &MapWork,
    wave: u32,
    at: u32,
    steps: &mut Steps,
    sink: &mut K,
) -> Result<(), AllocError>
    requires { AreFresh steps.old }
    ensures { OnOk result (HasTakenRows (rows_at (prior_of work.now) wave at)
        steps.old steps.new (λ rows. K.after sink.old rows sink.new)) }
{
    let Some(rows) = rows_of(work.prior, wave, at) else {
        return Ok(());
    };
    let mut batch = Batch::new(work.alloc);
    let mut source = Unpacked::of(rows);
    drive(work.alloc, &mut source, steps, sink, &mut batch)?;
    Ok(())
}

// The rows of an output, where it holds such.
pub fn rows_of(prior: &Outs, wave: u32, at: u32) -> Option<&Packed>
    ensures { option_map_or (λ rows. rows.now) result [] ≡ rows_at (outs_of prior.now) wave at }
{
    match prior.get(wave as usize) {
        Some(outs) => rows_in(outs.as_slice(), at as usize),
        None => None,
    }
}

fn rows_in(outs: &[Out], at: usize) -> Option<&Packed>
    ensures { option_map_or (λ rows. rows.now) result []
        ≡ option_map_or (λ out. rows_in out.form) (slice_get (map out_of outs.now) at) [] }
{
    match outs.get(at) {
        Some(out) => out.form.rows(),
        None => None,
    }
}

// A piece of a LOAD's input, as the lines of a split are read from it.
fn piece_of<'l>(work: &MapWork, load: &'l Load, split: Split) -> Piece<'l>
    ensures path { result.path.now ≡ load.now.path.now }
    ensures number { result.number ≡ split.piece }
    ensures length { result.length
        ≡ get_or ((stages_of work.now).sizing.lengths load.now.path.now) split.piece 0 }
{
    Piece {
        path: load.path.as_str(),
        number: split.piece,
        length: length_of(work.stages, load.path, split.piece),
        block: block_for(split, work.block),
    }
}

// Takes the rows of a task's part of a source through steps into what takes them. None: the stop told that the task is won.
// Answers how many lines came.
pub fn take_part<H: Host, S: Stop, K: Sink>(
    work: &MapWork,
    source: u32,
    host: &mut H,
    stop: &mut S,
    steps: &mut Steps,
    sink: &mut K,
) -> Result<Option<u64>, OutsideError>
    requires lengths { ForSome (H.inputs host.old) (HasLengths (stages_of work.now) source) }
    requires fresh { AreFresh steps.old }
    ensures { Leaves H.inputs H.begun H.faults S.kept S.won host.old host.new stop.old stop.new
        result (HasTakenPart (stages_of work.now) (H.inputs host.old) (prior_of work.now) source
        work.now.task.now.part steps.old steps.new (λ rows. K.after sink.old rows sink.new)) }
{
    let Some(op) = operator(work.stages, source) else {
        return Ok(Some(0));
    };
    match work.task.part {
        Part::Split(split) => {
            let Some(load) = as_load(op) else {
                return Ok(Some(0));
            };
            let piece = piece_of(work, &load, split);
            take_lines(work.alloc, host, stop, &piece, split, &load, steps, sink)
        }
        Part::Output { wave, at } => {
            take_output(work, wave, at, steps, sink)?;
            Ok(Some(0))
        }
    }
}
