//! A map or store task, made on a host.
ghost use Rattle.std.specs.Prelude.{◌≡◌, ◌≤◌, ◌<◌, [], if◌then◌else◌, true, Bool, map, List, Some, None, IfOk, IfSome, IfNone, IsErrOf};
ghost use Rattle.std.specs.Option.{ForSome, option_map};
ghost use Rattle.std.specs.Ordering.{nat_cmp};
ghost use Rattle.pig_value.specs.declared.inputs.Input.{Input};
ghost use Rattle.pig_value.specs.declared.operators.Side.{Side};
ghost use Rattle.pig_value.specs.Sorts.{sort};
ghost use Rattle.pig_value.specs.Trees.{Tree};
ghost use Rattle.pig_plan.specs.Laws.{OpLiteralsAre};
ghost use Rattle.pig_plan.specs.Nodes.{op_at};
ghost use Rattle.pig_plan.specs.Plans.{keyed_of, op_of, p_join};
ghost use Rattle.pig_value.specs.Valid.{IsValue};
ghost use Rattle.pig_typed.specs.Typed.{typed};
ghost use Rattle.pig_stream.specs.Stepping.{HaveNoted, unmet_by};
ghost use Rattle.pig_shuffle.specs.Held.{HasShuffled};
ghost use Rattle.pig_shuffle.specs.Shuffling.{shuffling_at};
ghost use Rattle.pig_physical.specs.Fitting.{Fits, HasRead};
ghost use Rattle.pig_physical.specs.Handed.{out_of, outs_of};
ghost use Rattle.pig_physical.specs.Outs.{o_rows};
ghost use Rattle.pig_physical.specs.Seen.{HasSource, IsTaskOf, Reads, map_task_of, staged};
ghost use Rattle.pig_physical.specs.Stages.{is_replicated, t_map};
ghost use Rattle.pig_physical.specs.Values.{IsValue as IsTaskValue};
ghost use Rattle.pig_physical.specs.declared.parts.Task.TheVariants as tasks;
ghost use Rattle.pig_map.specs.Copies.{HasSides, first_keys};
ghost use Rattle.pig_map.specs.Making.{HasMade, HasRun, attempt_fault_of, handing_of, joined_handing};
ghost use Rattle.pig_map.specs.Working.{HandsOn, Leaves, Suits, prior_of, stages_of, task_of};
ghost use Rattle.pig_map.specs.declared.attempt.Handing.TheVariants as handings;

use crate::first::FirstPacked;
use crate::forming::Former;
use crate::lent::lent_out;
use crate::parts::{operator, take_part};
use crate::unmet::ascending;
use crate::work::MapWork;
use pig_fitting::{loads_fit, map_forms_fit, parts_fit};
use pig_outside::{AttemptFault, Host, OutsideError, Stop};
use pig_physical::{MapTask, Out, OutForm, Outs, Stages};
use pig_plan::{KeyedInput, NodeOp};
use pig_probe::{ProbedRows, Sides};
use pig_shuffle::{Shuffle, runs_are_of_the_node};
use pig_stream::{PackedRows, Sink, Steps, StoredText, marks_stand_for_what_folds};
use pig_typed::TExprs;
use pig_value::{Delim, Numbers};
use std::alloc::{AllocError, Global};

// How many lines came, and the statements of the ASSERTs that are not met.
#[derive(Drop)]
struct Ran {
    lines: u64,
    unmet: Numbers,
}

// What a task of a node hands on.
#[derive(Clone, Copy, Drop)]
pub enum Handing {
    Text(Delim),
    First(u64),
    Runs,
    // Rows of a further input of a replicated JOIN.
    Copied,
    // Rows of its first one, joined with the copies.
    Joined,
}

// Takes a task's rows through its path into what takes them. None: the stop told that the task is won.
fn run<H: Host, S: Stop, K: Sink>(
    work: &MapWork,
    host: &mut H,
    stop: &mut S,
    sink: &mut K,
) -> Result<Option<Ran>, OutsideError>
    requires host { Suits work.now (H.inputs host.old) }
    ensures { Leaves H.inputs H.begun H.faults S.kept S.won host.old host.new stop.old stop.new
        result (λ ran. HasRun (stages_of work.now) (H.inputs host.old) (prior_of work.now)
        (task_of work.now) (λ rows. K.after sink.old rows sink.new) ran.lines ran.unmet) }
{
    marks_stand_for_what_folds();
    let alloc = work.alloc;
    let stages = work.stages;
    let way = stages.way_of(work.task);
    let nodes = stages.plan().nodes();
    let path = way.path.nodes.as_slice();
    let mut steps = Steps::new(alloc, nodes.as_slice(), path, stages.folded())?;
    let Some(lines) = take_part(work, way.path.source, host, stop, &mut steps, sink)? else {
        return Ok(None);
    };
    let unmet = unmet_of(alloc, &steps)?;
    Ok(Some(Ran { lines, unmet }))
}

// The statements of the ASSERTs that are not met, ascending.
fn unmet_of(alloc: Global, steps: &Steps) -> Result<Numbers, AllocError>
    ensures { (rows : List (List Tree)) → HaveNoted steps.now rows
        → IfOk result (λ unmet. unmet ≡ sort nat_cmp (unmet_by steps.now rows)) }
{
    let unmet = steps.unmet(alloc)?;
    Ok(ascending(unmet))
}

fn out_with(form: OutForm, ran: Ran) -> Out
    ensures form { result.form ≡ form }
    ensures lines { result.lines ≡ ran.lines }
    ensures unmet { result.unmet ≡ ran.unmet }
{
    let Ran { lines, unmet } = ran;
    Out { form, lines, unmet }
}

// Takes a task's rows through its path, and brings them into a form. None: the stop told that the task is won.
fn handed<H: Host, S: Stop, F: Former + Drop>(
    work: &MapWork,
    host: &mut H,
    stop: &mut S,
    former: F,
) -> Result<Option<Out>, OutsideError>
    requires { Suits work.now (H.inputs host.old) }
    ensures { Leaves H.inputs H.begun H.faults S.kept S.won host.old host.new stop.old stop.new
        result (HandsOn work.now (H.inputs host.old) (F.becomes former)) }
{
    let mut former = former;
    let Some(ran) = run(work, host, stop, &mut former)? else {
        return Ok(None);
    };
    let form = former.into_form(work.alloc)?;
    Ok(Some(out_with(form, ran)))
}

// A task's rows, in order.
pub fn rows_out<H: Host, S: Stop>(
    work: &MapWork,
    host: &mut H,
    stop: &mut S,
) -> Result<Option<Out>, OutsideError>
    requires host { Suits work.now (H.inputs host.old) }
    ensures { Leaves H.inputs H.begun H.faults S.kept S.won host.old host.new stop.old stop.new
        result (HandsOn work.now (H.inputs host.old) (λ rows form. form ≡ o_rows rows)) }
{
    handed(work, host, stop, PackedRows::new(work.alloc))
}

// What a task of a node's input hands on.
fn handing_for(op: &NodeOp, input: u32) -> Handing
    ensures { result ≡ handing_of (op_of op.now) input }
{
    match op {
        NodeOp::Join { replicated, .. } => joined_handing(*replicated, input),
        NodeOp::Limit { count, .. } => Handing::First(*count),
        NodeOp::Store { delim, .. } => Handing::Text(*delim),
        NodeOp::Load { .. }
        | NodeOp::Filter { .. }
        | NodeOp::Foreach { .. }
        | NodeOp::GroupAll { .. }
        | NodeOp::Group { .. }
        | NodeOp::Union { .. }
        | NodeOp::Distinct { .. }
        | NodeOp::Order { .. }
        | NodeOp::Assert { .. }
        | NodeOp::Rank { .. } => Handing::Runs,
    }
}

fn joined_handing(replicated: bool, input: u32) -> Handing
    ensures { result ≡ (if replicated then joined_handing input else handings.Runs) }
{
    if !replicated {
        return Handing::Runs;
    }
    match input {
        0 => Handing::Joined,
        _ => Handing::Copied,
    }
}

// What joins the rows of a replicated JOIN's first input with what was copied of the others.
fn joining<'s>(work: &MapWork, op: &'s NodeOp, sides: &'s Sides) -> ProbedRows<'s>
    requires op { op_at (stages_of work.now).plan work.now.task.now.node ≡ Some (op_of op.now) }
    requires joins { is_replicated (op_of op.now) ≡ true }
    ensures keys { Some (map typed result.keys.now) ≡ first_keys (op_of op.now) }
    ensures sides { result.sides.now ≡ sides.now }
    ensures rows { result.rows ≡ [] }
{
    let _ = work.stages.plan().nodes();
    // A replicated JOIN has two inputs at least.
    let Some(keys) = first_keys(op) else {
        unreachable!();
    };
    ProbedRows::new(work.alloc, keys, sides)
}

// The keys of the first input of a JOIN.
fn first_keys(op: &NodeOp) -> Option<&TExprs>
    ensures { option_map (λ keys. map typed keys.now) result ≡ first_keys (op_of op.now) }
{
    match op {
        NodeOp::Join { inputs, .. } => keys_of_first(inputs.as_slice()),
        NodeOp::Load { .. }
        | NodeOp::Filter { .. }
        | NodeOp::Foreach { .. }
        | NodeOp::GroupAll { .. }
        | NodeOp::Group { .. }
        | NodeOp::Union { .. }
        | NodeOp::Distinct { .. }
        | NodeOp::Order { .. }
        | NodeOp::Limit { .. }
        | NodeOp::Store { .. }
        | NodeOp::Assert { .. }
        | NodeOp::Rank { .. } => None,
    }
}

fn keys_of_first(inputs: &[KeyedInput]) -> Option<&TExprs>
    ensures { (side : Side) → (replicated : Bool) → option_map (λ keys. map typed keys.now) result
        ≡ first_keys (p_join (map keyed_of inputs.now) side replicated) }
{
    match inputs {
        [first, ..] => Some(&first.keys),
        [] => None,
    }
}

// What brings the rows of a task under their keys.
fn shuffle_for<'p>(work: &MapWork, op: &'p NodeOp) -> Result<Shuffle<'p>, AllocError>
    requires { OpLiteralsAre IsValue (op_of op.now) }
    ensures { IfOk result (HasShuffled (shuffling_at (stages_of work.now).plan
        work.now.task.now.node (op_of op.now) (task_of work.now).way.input
        (stages_of work.now).sizing.reducers) []) }
{
    let stages = work.stages;
    let input = stages.way_of(work.task).input;
    let fold = stages.fold_of(work.task.node);
    Shuffle::new(work.alloc, op, fold, input, stages.reducers())
}

// What a task hands on.
fn attempt<H: Host, S: Stop>(
    work: &MapWork,
    sides: &Sides,
    host: &mut H,
    stop: &mut S,
) -> Result<Option<Out>, OutsideError>
    requires host { Suits work.now (H.inputs host.old) }
    requires sides { HasSides (stages_of work.now) (prior_of work.now) (task_of work.now)
        sides.now }
    ensures { Leaves H.inputs H.begun H.faults S.kept S.won host.old host.new stop.old stop.new
        result (λ out. HasMade (stages_of work.now) (H.inputs host.old) (prior_of work.now)
        (task_of work.now) (out_of out)) }
{
    runs_are_of_the_node();
    let Some(op) = operator(work.stages, work.task.node) else {
        return rows_out(work, host, stop);
    };
    let handing = handing_for(op, work.stages.way_of(work.task).input);
    if let Some(out) = lent_out(work, handing)? {
        return Ok(Some(out));
    }
    match handing {
        Handing::Text(delim) => handed(work, host, stop, StoredText::new(work.alloc, delim)),
        Handing::First(count) => handed(work, host, stop, FirstPacked::new(work.alloc, count)),
        Handing::Runs => handed(work, host, stop, shuffle_for(work, op)?),
        Handing::Copied => rows_out(work, host, stop),
        Handing::Joined => handed(work, host, stop, joining(work, op, sides)),
    }
}

pub fn attempt_fault(error: OutsideError) -> AttemptFault
    ensures { result ≡ attempt_fault_of error }
{
    match error {
        OutsideError::Failed => AttemptFault::Lost,
        OutsideError::OutOfMemory => AttemptFault::OutOfMemory,
    }
}

/// An attempt at a map or store task: the rows of its part, taken through its path, in the form in which it hands them on. A
/// split is read in blocks of at most so many bytes, none of them twice, and between two of them the stop is asked: None
/// where it told that the task is won. Lost only where the host has failed. `sides` are what tasks of its wave probe, as
/// [`sides_before`](crate::sides_before) makes them.
pub fn map_attempt<H: Host, S: Stop>(
    alloc: Global,
    stages: &Stages,
    task: &MapTask,
    prior: &Outs,
    sides: &Sides,
    host: &mut H,
    block: u32,
    stop: &mut S,
) -> Result<Option<Out>, AttemptFault>
    requires task { IsTaskOf (staged stages.now) task.now.wave (tasks.Map task.now) }
    requires prior { HasRead (staged stages.now) (outs_of prior.now)
        (map_task_of (staged stages.now) task.now) }
    requires sides { HasSides (staged stages.now) (outs_of prior.now)
        (map_task_of (staged stages.now) task.now) sides.now }
    requires host { ForSome (H.inputs host.old)
        (HasSource (staged stages.now) (map_task_of (staged stages.now) task.now)) }
    requires block { 0 < block }
    ensures value { (inputs : List Input) → Reads (H.inputs host.old) task.now.part inputs
        → IfOk result (λ o. IfSome o (λ out. IsTaskValue (staged stages.now) inputs None
        (outs_of prior.now) (t_map (map_task_of (staged stages.now) task.now)) (out_of out))) }
    ensures fits { IfOk result (λ o. IfSome o (λ out. Fits (staged stages.now)
        (t_map (map_task_of (staged stages.now) task.now)) (out_of out))) }
    ensures stopped { IfOk result (λ o. IfNone o (S.won stop.new)) }
    ensures kept { S.kept stop.new ≡ S.kept stop.old }
    ensures inputs { H.inputs host.new ≡ H.inputs host.old }
    ensures begun { H.begun host.new ≡ H.begun host.old }
    ensures later { H.faults host.old ≤ H.faults host.new }
    ensures lost { IsErrOf result AttemptFault.Lost → H.faults host.old < H.faults host.new }
{
    loads_fit();
    parts_fit();
    map_forms_fit();
    let _ = stages.plan().nodes();
    let work = MapWork {
        alloc,
        stages,
        task,
        prior,
        block,
    };
    match attempt(&work, sides, host, stop) {
        Ok(out) => Ok(out),
        Err(error) => Err(attempt_fault(error)),
    }
}
