//! The rows of the lines that start in a split, read from a host in blocks.
ghost use Rattle.std.specs.Prelude.{◌≡◌, ◌≤◌, ◌<◌, ◌+◌, ℕ, List, false, drop, IfOk, OnOk};
ghost use Rattle.std.specs.Option.{ForSome};
ghost use Rattle.pig_value.specs.Lines.{lines_within};
ghost use Rattle.pig_value.specs.Valid.{IsValue};
ghost use Rattle.pig_outside.specs.Shelf.{HasRange, range_of};
ghost use Rattle.pig_plan.specs.Laws.{PlanLiteralsAre};
ghost use Rattle.pig_stream.specs.Ranges.{first_byte, lines_coming};
ghost use Rattle.pig_stream.specs.Stepping.{plan_on};
ghost use Rattle.pig_map.specs.Reading.{AreFresh, HasFed, HasFedAll, HasLines, IsLong, rows_coming};
ghost use Rattle.pig_map.specs.Working.{Leaves, LeavesHost};

use pig_outside::{Host, OutsideError, Stop};
use pig_storage::Split;
use pig_stream::{Batch, Lines, Sink, Steps, Window, drive};
use pig_value::{Columns, Delim, Text};
use std::alloc::{AllocError, Global};

// A piece of an input, the number of its bytes, and how many of these are read at once.
#[derive(Clone, Copy, Drop)]
pub struct Piece<'p> {
    pub path: &'p str,
    pub number: u32,
    pub length: u64,
    pub block: u32,
    ghost some: { 0 < block },
}

// A LOAD: the path of its input, and how lines are made rows.
#[derive(Clone, Copy, Drop)]
pub struct Load<'p> {
    pub path: &'p Text,
    pub delim: Delim,
    pub columns: &'p Columns,
}

// Takes the rows of the lines that start in a split through steps into what takes them, and answers how many lines came. None:
// the stop told that the task is won. Between two blocks it is asked. No block is longer than the piece says, or lies behind the
// piece, and no byte is read twice.
pub fn take_lines<H: Host, S: Stop, K: Sink>(
    alloc: Global,
    host: &mut H,
    stop: &mut S,
    piece: &Piece,
    split: Split,
    load: &Load,
    steps: &mut Steps,
    sink: &mut K,
) -> Result<Option<u64>, OutsideError>
    requires long { ForSome (H.inputs host.old)
        (IsLong piece.now.path.now piece.now.number piece.now.length) }
    requires piece { piece.now.number ≡ split.piece }
    requires fresh { AreFresh steps.old }
    ensures { Leaves H.inputs H.begun H.faults S.kept S.won host.old host.new stop.old stop.new
        result (HasLines (H.inputs host.old) piece.now.path.now split load.now.columns.now
        load.now.delim steps.old steps.new (λ rows. K.after sink.old rows sink.new)) }
{
    let mut lines = Lines {
        window: window_of(alloc, split),
        delim: load.delim,
        columns: load.columns,
    };
    let mut batch = Batch::new(alloc);
    let from = first_place(split);
    let came = feed(
        alloc, host, stop, piece, from, &mut lines, steps, sink, &mut batch,
    );
    drop(batch);
    came
}

// The window of the lines of a split.
fn window_of(alloc: Global, split: Split) -> Window
    ensures lines { (bytes : List ℕ) → lines_coming result (drop (first_byte split.from) bytes)
        ≡ lines_within split.from split.to bytes }
    ensures begun { result.ended ≡ false }
{
    Window::of(alloc, split.from, end_of(split))
}

// The place of the first byte of a split that is read.
fn first_place(split: Split) -> u64
    ensures { result ≡ first_byte split.from }
{
    split.from.saturating_sub(1)
}

// Where a range with the lines of a split ends: never before it begins.
fn end_of(split: Split) -> u64
    ensures behind { split.from ≤ result }
    ensures lines { (bytes : List ℕ) → lines_within split.from result bytes
        ≡ lines_within split.from split.to bytes }
{
    if split.to < split.from {
        return split.from;
    }
    split.to
}

// Hands in the bytes of a piece from a place on, as far as lines of the window come, and takes their rows on.
fn feed<H: Host, S: Stop, K: Sink>(
    alloc: Global,
    host: &mut H,
    stop: &mut S,
    piece: &Piece,
    from: u64,
    lines: &mut Lines,
    steps: &mut Steps,
    sink: &mut K,
    batch: &mut Batch,
) -> Result<Option<u64>, OutsideError>
    requires long { ForSome (H.inputs host.old)
        (IsLong piece.now.path.now piece.now.number piece.now.length) }
    requires begun { lines.old.window.ended ≡ false }
    requires fresh { AreFresh steps.old }
    ensures { Leaves H.inputs H.begun H.faults S.kept S.won host.old host.new stop.old stop.new
        result (HasFedAll (H.inputs host.old) piece.now.path.now piece.now.number from
        (rows_coming lines.old.columns.now lines.old.delim lines.old.window)
        steps.old steps.new (λ rows. K.after sink.old rows sink.new)) }
{
    let mut at = from;
    let mut count: u64 = 0;
    'blocks: while at < piece.length {
        if lines.window.is_past() {
            return Ok(Some(count));
        }
        if stop.is_won() {
            return Ok(None);
        }
        let size = block_at(piece, at);
        let came = feed_block(alloc, host, piece, at, size, lines, steps, sink, batch)?;
        count = sum(count, came)?;
        at += u64::from(size);
    }
    lines.window.end();
    let came = drive(alloc, lines, steps, sink, batch)?;
    Ok(Some(sum(count, came)?))
}

// The number of bytes that are read at once from a place on.
fn block_at(piece: &Piece, at: u64) -> u32
    requires { at < piece.now.length }
    ensures some { 0 < result }
    ensures most { result ≤ piece.now.block }
    ensures within { at + result ≤ piece.now.length }
{
    let left = piece.length - at;
    if left < u64::from(piece.block) {
        left as u32
    } else {
        piece.block
    }
}

fn sum(a: u64, b: u64) -> Result<u64, AllocError>
    ensures { IfOk result (λ c. c ≡ a + b) }
{
    match a.checked_add(b) {
        Some(c) => Ok(c),
        None => Err(AllocError),
    }
}

// Reads the next bytes of a piece, and takes the rows of the lines that end in them on. Answers how many came.
fn feed_block<H: Host, K: Sink>(
    alloc: Global,
    host: &mut H,
    piece: &Piece,
    at: u64,
    size: u32,
    lines: &mut Lines,
    steps: &mut Steps,
    sink: &mut K,
    batch: &mut Batch,
) -> Result<u64, OutsideError>
    requires range { ForSome (H.inputs host.old)
        (HasRange piece.now.path.now piece.now.number at size) }
    requires begun { lines.old.window.ended ≡ false }
    requires literals { PlanLiteralsAre IsValue (plan_on steps.old) }
    ensures fed { IfOk result (HasFed (H.inputs host.old) piece.now.path.now piece.now.number
        at (at + size)
        (rows_coming lines.old.columns.now lines.old.delim lines.old.window)
        (rows_coming lines.new.columns.now lines.new.delim lines.new.window)
        steps.old steps.new (λ rows. K.after sink.old rows sink.new)) }
    ensures open { OnOk result (lines.new.window.ended ≡ false) }
    ensures literals { OnOk result (PlanLiteralsAre IsValue (plan_on steps.new)) }
    ensures read { LeavesHost H.inputs H.begun H.faults host.old host.new result }
{
    let bytes = read_block(alloc, host, piece, at, size)?;
    lines.window.hand_in(bytes.as_slice())?;
    Ok(drive(alloc, lines, steps, sink, batch)?)
}

// So many bytes of a piece from a place on.
fn read_block<H: Host>(
    alloc: Global,
    host: &mut H,
    piece: &Piece,
    at: u64,
    size: u32,
) -> Result<Vec<u8>, OutsideError>
    requires { ForSome (H.inputs host.old)
        (HasRange piece.now.path.now piece.now.number at size) }
    ensures filled { ForSome (H.inputs host.old) (λ i. IfOk result (λ bytes. bytes.items
        ≡ range_of piece.now.path.now piece.now.number at size i)) }
    ensures read { LeavesHost H.inputs H.begun H.faults host.old host.new result }
{
    let mut bytes = vec![in alloc; 0u8; size as usize]?;
    host.read(piece.path, piece.number, at, bytes.as_mut_slice())?;
    Ok(bytes)
}
