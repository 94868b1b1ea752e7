//! What the tasks of a script's first two waves hand on, as text. Where memory is wanting the process ends.
ghost use Rattle.std.specs.Prelude.{◌≡◌, ◌<◌, ◌∷◌, [], length};
ghost use Rattle.pig_physical.specs.Fitting.{Fits, HasAll, HasRead};
ghost use Rattle.pig_physical.specs.Handed.{out_of, outs_of};
ghost use Rattle.pig_physical.specs.Seen.{IsTaskOf, map_task_of, staged};
ghost use Rattle.pig_physical.specs.Stages.{heads, t_map, tasks_in};
ghost use Rattle.pig_physical.specs.declared.parts.Task.TheVariants as tasks;
ghost use Rattle.pig_map_tests.specs.First.{FitsFirst};

use crate::hosts::{Pieces, World};
use crate::standing::{reads_copies, reads_split};
use pig_cutter::cut_plan;
use pig_keycode::{decode, decode_row};
use pig_map::{map_task, map_task_blocks, path_rows};
use pig_outside::AttemptFault;
use pig_packed::Packed;
use pig_physical::{MapTask, Out, OutForm, OutRuns, Outs, Size, Sizes, Stages, Task};
use pig_runs::{Run, RunPart};
use pig_script_tests::plan_of;
use pig_text::write_row;
use pig_value::{Delim, Lengths, OutList, Text, Tuple};
use std::alloc::Global;
use std::process::Abort;

/// The calls that make a task.
#[derive(Clone, Copy, PartialEq, Eq, Drop)]
pub enum Call {
    /// In blocks of so many bytes.
    Blocks(u32),
    Whole,
    Rows,
}

/// How the tasks of a script are made, each by a host of its own.
#[derive(Clone, Copy, Drop)]
pub struct Making<'b> {
    pub script: &'b str,
    /// The inputs by which the stages are cut, and those that hosts have.
    pub told: World<'b>,
    pub held: World<'b>,
    pub split: u64,
    pub call: Call,
    /// Whether the tasks of the second wave are told, behind a first one of one task.
    pub second: bool,
    /// What hosts fail at, and give.
    pub most: usize,
    pub fails: u64,
    pub other: Option<u8>,
}

impl<'b> Making<'b> {
    /// The tasks of a script over pieces, by hosts that don't fail.
    pub fn new(script: &'b str, world: World<'b>, split: u64, call: Call) -> Making<'b> {
        Making {
            script,
            told: world,
            held: world,
            split,
            call,
            second: false,
            most: usize::MAX,
            fails: 0,
            other: None,
        }
    }
}

/// What tasks hand on, and how many lines they read by how many reads.
#[derive(Drop)]
pub struct Told {
    pub text: Vec<u8>,
    pub lines: u64,
    pub reads: u64,
}

/// Adds to a text.
fn add<R: Abort>(rt: &R, into: &mut Vec<u8>, text: &[u8]) {
    into.extend_from_slice(text).expect(rt, "memory");
}

/// Adds a row, with its line end; `?` where there is none.
fn add_row<R: Abort>(rt: &R, into: &mut Vec<u8>, row: Option<&Tuple>) {
    match row {
        Some(row) => write_row(row, Delim::tab(), into).expect(rt, "memory"),
        None => add(rt, into, b"?\n"),
    }
}

/// The key of an entry as a row, where its code ascends.
fn key_of<R: Abort>(rt: &R, alloc: Global, bytes: &[u8]) -> Option<Tuple> {
    let key = decode(alloc, bytes).expect(rt, "memory")?;
    let mut row = Tuple::new(alloc);
    row.push(key).expect(rt, "memory");
    Some(row)
}

/// Adds an entry of a run: its input, and behind colons its key and its row.
fn add_entry<R: Abort>(rt: &R, alloc: Global, into: &mut Vec<u8>, run: &Run, at: usize) {
    if at >= run.len() {
        return;
    }
    let input = run.input(at);
    let text = format!(in alloc; " {input}:").expect(rt, "memory");
    add(rt, into, text.as_bytes());
    let key = key_of(rt, alloc, run.key_bytes(at));
    add_row(rt, into, key.as_ref());
    drop(key);
    into.pop();
    add(rt, into, b":");
    let row = decode_row(alloc, run.row_bytes(at)).expect(rt, "memory");
    add_row(rt, into, row.as_ref());
    drop(row);
}

fn add_part<R: Abort>(rt: &R, alloc: Global, into: &mut Vec<u8>, at: &str, part: RunPart) {
    for entry in part.from..part.end {
        add(rt, into, at.as_bytes());
        add_entry(rt, alloc, into, part.run, entry);
    }
}

/// Adds the runs of a task, by its number and the partition's.
fn add_runs<R: Abort>(rt: &R, alloc: Global, into: &mut Vec<u8>, at: u32, runs: &OutRuns) {
    for number in 0..runs.len() {
        let place = format!(in alloc; "{at}.{number}").expect(rt, "memory");
        if let Some(part) = runs.part(number) {
            add_part(rt, alloc, into, place.as_str(), part);
        }
    }
}

fn add_rows<R: Abort>(rt: &R, alloc: Global, into: &mut Vec<u8>, packed: &Packed) {
    let rows = packed.between(alloc, 0, packed.len()).expect(rt, "memory");
    for row in rows.as_slice() {
        add_row(rt, into, Some(row));
    }
    drop(rows);
}

/// Adds the bytes of a task, its rows or its runs, where it has some; and the statements that are not met.
fn add_out<R: Abort>(rt: &R, alloc: Global, into: &mut Vec<u8>, at: u32, out: &Out) {
    let place = format!(in alloc; "{at}=").expect(rt, "memory");
    match &out.form {
        OutForm::Runs(runs) => add_runs(rt, alloc, into, at, runs),
        OutForm::Rows(rows) => {
            add(rt, into, place.as_bytes());
            add_rows(rt, alloc, into, rows);
        }
        OutForm::Parts(bytes) => {
            if !bytes.as_slice().is_empty() {
                add(rt, into, place.as_bytes());
                add(rt, into, bytes.as_slice());
            }
        }
    }
    for statement in out.unmet.as_slice() {
        let text = format!(in alloc; "{at} unmet {statement}\n").expect(rt, "memory");
        add(rt, into, text.as_bytes());
    }
}

/// What a call gives of a task.
fn made(
    alloc: Global,
    stages: &Stages,
    task: &MapTask,
    prior: &Outs,
    host: &mut Pieces,
    call: Call,
) -> Result<Out, AttemptFault>
    requires task { IsTaskOf (staged stages.now) task.now.wave (tasks.Map task.now) }
    requires prior { HasRead (staged stages.now) (outs_of prior.now)
        (map_task_of (staged stages.now) task.now) }
{
    match call {
        Call::Blocks(block) => map_task_blocks(alloc, stages, task, prior, host, block.max(1)),
        Call::Whole => map_task(alloc, stages, task, prior, host),
        Call::Rows => path_rows(alloc, stages, task, prior, host),
    }
}

/// What a map task of the first wave gives that reads a split.
fn attempt(
    alloc: Global,
    stages: &Stages,
    at: u32,
    host: &mut Pieces,
    call: Call,
) -> Option<Result<Out, AttemptFault>>
    requires wave { 0 < length (heads (staged stages.now).plan) }
    requires at { at < length (tasks_in (staged stages.now) 0) }
{
    let prior = Outs::new(alloc);
    let task = match stages.task_at(0, at) {
        Task::Map(task) => task,
        Task::Reduce(_) => return None,
        Task::Rank(_) => return None,
    };
    if !reads_split(stages, task) {
        return None;
    }
    let given = made(alloc, stages, task, &prior, host, call);
    drop(prior);
    Some(given)
}

/// What a map task of the second wave gives that reads a split.
fn second_attempt(
    alloc: Global,
    stages: &Stages,
    at: u32,
    prior: &Outs,
    host: &mut Pieces,
    call: Call,
) -> Option<Result<Out, AttemptFault>>
    requires wave { 1 < length (heads (staged stages.now).plan) }
    requires at { at < length (tasks_in (staged stages.now) 1) }
    requires prior { HasAll (staged stages.now) (outs_of prior.now) 0 }
{
    let task = match stages.task_at(1, at) {
        Task::Map(task) => task,
        Task::Reduce(_) => return None,
        Task::Rank(_) => return None,
    };
    if !reads_copies(stages, task) {
        return None;
    }
    Some(made(alloc, stages, task, prior, host, call))
}

/// The output of a task that reads a split.
fn mapped<R: Abort>(
    rt: &R,
    alloc: Global,
    stages: &Stages,
    task: &MapTask,
    host: &mut Pieces,
) -> Out
    requires task { IsTaskOf (staged stages.now) task.now.wave (tasks.Map task.now) }
    ensures { Fits (staged stages.now) (t_map (map_task_of (staged stages.now) task.now))
        (out_of result) }
{
    if !reads_split(stages, task) {
        panic!(rt; "no split");
    }
    let prior = Outs::new(alloc);
    let given = map_task(alloc, stages, task, &prior, host);
    drop(prior);
    given.expect(rt, "an output")
}

/// That of the first task.
fn first_out<R: Abort>(rt: &R, alloc: Global, stages: &Stages, host: &mut Pieces) -> Out
    requires wave { 0 < length (heads (staged stages.now).plan) }
    requires task { 0 < length (tasks_in (staged stages.now) 0) }
    ensures { FitsFirst (staged stages.now) (out_of result) }
{
    match stages.task_at(0, 0) {
        Task::Map(task) => mapped(rt, alloc, stages, task, host),
        Task::Reduce(_) => no_map_task(rt),
        Task::Rank(_) => no_map_task(rt),
    }
}

fn no_map_task<R: Abort>(rt: &R) -> Out
    ensures { ⊥ }
{
    panic!(rt; "no map task");
}

/// The outputs of a first wave that has one.
fn alone<R: Abort>(rt: &R, alloc: Global, out: Out) -> Outs
    ensures { outs_of result ≡ (out_of out ∷ []) ∷ [] }
{
    let mut wave = OutList::new(alloc);
    wave.push(out).expect(rt, "memory");
    let mut outs = Outs::new(alloc);
    outs.push(wave).expect(rt, "memory");
    outs
}

/// The outputs of a first wave of one task.
fn first_outs<R: Abort>(rt: &R, alloc: Global, stages: &Stages, host: &mut Pieces) -> Outs
    requires wave { 0 < length (heads (staged stages.now).plan) }
    ensures { HasAll (staged stages.now) (outs_of result) 0 }
{
    if stages.tasks(0) != 1 {
        panic!(rt; "no wave of one task");
    }
    let out = first_out(rt, alloc, stages, host);
    alone(rt, alloc, out)
}

/// Adds what a task gave.
fn note<R: Abort>(
    rt: &R,
    alloc: Global,
    told: &mut Told,
    at: u32,
    given: Option<Result<Out, AttemptFault>>,
) {
    let text = match &given {
        Some(Ok(out)) => {
            add_out(rt, alloc, &mut told.text, at, out);
            told.lines = u64::saturating_add(told.lines, out.lines);
            ""
        }
        Some(Err(AttemptFault::Lost)) => "lost",
        Some(Err(AttemptFault::OutOfMemory)) => "no memory",
        None => "no split",
    };
    drop(given);
    if text != "" {
        let text = format!(in alloc; "{at} {text}\n").expect(rt, "memory");
        add(rt, &mut told.text, text.as_bytes());
    }
}

impl Told {
    fn new(alloc: Global) -> Told {
        Told {
            text: Vec::new(alloc),
            lines: 0,
            reads: 0,
        }
    }
}

/// A host for one task.
fn host_of<'b>(making: &Making<'b>) -> Pieces<'b> {
    Pieces {
        world: making.held,
        most: making.most,
        fails: making.fails,
        other: making.other,
        reads: 0,
        faults: 0,
    }
}

/// What the tasks of the first wave give.
fn tell<R: Abort>(rt: &R, alloc: Global, stages: &Stages, making: &Making) -> Told {
    let mut told = Told::new(alloc);
    if stages.waves() == 0 {
        return told;
    }
    for at in 0..stages.tasks(0) {
        let mut host = host_of(making);
        let given = attempt(alloc, stages, at, &mut host, making.call);
        told.reads = u64::saturating_add(told.reads, host.reads);
        note(rt, alloc, &mut told, at, given);
    }
    told
}

/// What the tasks of the second wave give, behind a first one of one task.
fn tell_second<R: Abort>(rt: &R, alloc: Global, stages: &Stages, making: &Making) -> Told {
    let mut told = Told::new(alloc);
    if stages.waves() < 2 {
        return told;
    }
    let mut first = host_of(making);
    let prior = first_outs(rt, alloc, stages, &mut first);
    for at in 0..stages.tasks(1) {
        let mut host = host_of(making);
        let given = second_attempt(alloc, stages, at, &prior, &mut host, making.call);
        told.reads = u64::saturating_add(told.reads, host.reads);
        note(rt, alloc, &mut told, at, given);
    }
    drop(prior);
    told
}

/// The lengths of pieces.
fn lengths<R: Abort>(rt: &R, alloc: Global, bytes: &[u8], has_bars: bool) -> Lengths {
    let mut lengths = Lengths::new(alloc);
    if !has_bars {
        lengths.push(bytes.len() as u64).expect(rt, "memory");
        return lengths;
    }
    for piece in bytes.split(|b| *b == b'|') {
        lengths.push(piece.len() as u64).expect(rt, "memory");
    }
    lengths
}

fn size<R: Abort>(rt: &R, alloc: Global, path: &str, lengths: Lengths) -> Size {
    let path = Text::from_str(alloc, path).expect(rt, "memory");
    Size { path, lengths }
}

/// The sizes of inputs.
fn sizes<R: Abort>(rt: &R, alloc: Global, world: World) -> Sizes {
    let a = lengths(rt, alloc, world.a, world.has_bars);
    let b = lengths(rt, alloc, world.b, world.has_bars);
    let mut sizes = Sizes::new(alloc);
    sizes.push(size(rt, alloc, "a", a)).expect(rt, "memory");
    sizes.push(size(rt, alloc, "b", b)).expect(rt, "memory");
    sizes
}

/// What the tasks of a script's first wave give, or those of its second, with three reducers.
pub fn wave<R: Abort>(rt: &R, alloc: Global, making: &Making) -> Told {
    let plan = plan_of(alloc, making.script).expect(rt, "a plan");
    let sizes = sizes(rt, alloc, making.told);
    let Ok(stages) = cut_plan(alloc, &plan, &sizes, 3, making.split.max(1)) else {
        panic!(rt; "stages");
    };
    let told = if making.second {
        tell_second(rt, alloc, &stages, making)
    } else {
        tell(rt, alloc, &stages, making)
    };
    drop(stages);
    drop((plan, sizes));
    told
}
