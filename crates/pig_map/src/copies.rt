//! What tasks of a wave copied, as the sides of the tasks that probe in the next.
ghost use Rattle.std.specs.Prelude.{◌≡◌, ◌<◌, ◌+◌, ◌++◌, List, Some, length, map, slice_get, IfOk, IsSome, OnOk};
ghost use Rattle.std.specs.List.{AllByRecursion};
ghost use Rattle.pig_value.specs.Trees.{Tree, row_tree, rows_tree};
ghost use Rattle.pig_value.specs.Valid.{AreRows, IsRow};
ghost use Rattle.pig_keycode.specs.Codable.{IsCodeOfRow};
ghost use Rattle.pig_plan.specs.Meaning.{width_at};
ghost use Rattle.pig_plan.specs.Nodes.{op_at};
ghost use Rattle.pig_plan.specs.Plans.{PlanOp, keyed_of, plan_of};
ghost use Rattle.pig_replicated.specs.Holding.{lookup_of};
ghost use Rattle.pig_replicated.specs.Joining.{sides_of};
ghost use Rattle.pig_probe.specs.Probing.{HoldsRows};
ghost use Rattle.pig_physical.specs.Handed.{form_of, out_of, outs_of};
ghost use Rattle.pig_physical.specs.Outs.{outs_at, rows_in};
ghost use Rattle.pig_physical.specs.Seen.{staged};
ghost use Rattle.pig_physical.specs.Stages.{Task as StageTask, heads, tasks_in};
ghost use Rattle.pig_map.specs.Copies.{AreSidesIn, AreSidesOf, IsCopied, none_seen, nulls_for, numbered, rows_of_task, sides_by};
ghost use Rattle.pig_map.specs.Copying.{copied_for};

use crate::parts::operator;
use crate::wave::CopyWave;
use pig_keycode::decode_row;
use pig_packed::Packed;
use pig_physical::{Out, Outs, Stages, Task, WaveKind};
use pig_plan::{KeyedInput, NodeOp, Plan};
use pig_probe::Sides;
use pig_replicated::{Lookup, Lookups};
use pig_value::{Rows, Side, Tuple};
use std::alloc::{AllocError, Global};

/// The sides of the tasks of a wave that probe, made of what the wave before it copied. Tasks of other waves have none.
///
/// One thread makes them, once for all tasks of the wave.
pub fn sides_before(
    alloc: Global,
    stages: &Stages,
    wave: u32,
    prior: &Outs,
) -> Result<Sides, AllocError>
    requires { wave < length (heads (staged stages.now).plan) }
    ensures { IfOk result (AreSidesIn (staged stages.now) (outs_of prior.now) wave) }
{
    match stages.kind(wave) {
        WaveKind::Probe => {
            sides_of_node(
                alloc,
                stages,
                stages.node(wave),
                wave.saturating_sub(1),
                prior,
            )
        }
        WaveKind::Map => Ok(no_sides(alloc)),
        WaveKind::Reduce => Ok(no_sides(alloc)),
        WaveKind::Copy => Ok(no_sides(alloc)),
        WaveKind::Rank => Ok(no_sides(alloc)),
        WaveKind::Store => Ok(no_sides(alloc)),
    }
}

fn no_sides(alloc: Global) -> Sides
    ensures { result ≡ none_seen }
{
    Sides::new(Lookups::new(alloc), None)
}

// The sides of a replicated JOIN, by what this wave copied.
fn sides_of_node(
    alloc: Global,
    stages: &Stages,
    node: u32,
    copies: u32,
    prior: &Outs,
) -> Result<Sides, AllocError>
    requires { IsCopied (staged stages.now) node copies }
    ensures { IfOk result (λ sides. (o : PlanOp) → op_at (staged stages.now).plan node ≡ Some o
        → AreSidesOf (staged stages.now) (outs_of prior.now) node o sides) }
{
    let _ = stages.plan().nodes();
    match operator(stages, node) {
        Some(NodeOp::Join { inputs, side, .. }) => {
            let wave = CopyWave {
                stages,
                number: copies,
                prior,
            };
            joined_sides(alloc, &wave, inputs.as_slice(), *side)
        }
        _ => Ok(no_sides(alloc)),
    }
}

// The lookups of the inputs behind the first.
fn joined_sides(
    alloc: Global,
    wave: &CopyWave,
    inputs: &[KeyedInput],
    side: Side,
) -> Result<Sides, AllocError>
    ensures { IfOk result (λ sides. sides
        ≡ sides_by side (width_at (staged wave.now.stages.now).plan)
        (map keyed_of inputs.now) (copied_for wave.now)) }
{
    let [_first, rest @ ..] = inputs else {
        return Ok(no_sides(alloc));
    };
    let lookups = lookups_of(alloc, wave, rest)?;
    let nulls = nulls_for(wave.stages.plan(), side, inputs)?;
    Ok(Sides::new(lookups, nulls))
}

// So many nulls stand behind a row that a LEFT JOIN of two inputs keeps without a match.
fn nulls_for(plan: &Plan, side: Side, inputs: &[KeyedInput]) -> Result<Option<u32>, AllocError>
    ensures is { IfOk result (λ nulls. nulls
        ≡ nulls_for side (width_at (plan_of plan.now)) (map keyed_of inputs.now)) }
    ensures two { IfOk result (λ nulls. IsSome nulls → length inputs.now ≡ 2) }
{
    match (side, inputs) {
        (Side::Left, [_first, second]) => Ok(Some(width(plan, second.input)?)),
        _ => Ok(None),
    }
}

// How many fields the rows of a node have.
fn width(plan: &Plan, node: u32) -> Result<u32, AllocError>
    ensures { IfOk result (λ width. width ≡ width_at (plan_of plan.now) node) }
{
    match plan.kinds(node) {
        Some(kinds) => u32::try_from(kinds.len()).map_err(|_| AllocError),
        None => Ok(0),
    }
}

// The lookup of each input, by what was copied of it.
fn lookups_of(alloc: Global, wave: &CopyWave, inputs: &[KeyedInput]) -> Result<Lookups, AllocError>
    ensures are { IfOk result (λ lookups. lookups
        ≡ sides_of (numbered 1 (map keyed_of inputs.now)) (copied_for wave.now)) }
    ensures rows { IfOk result (AllByRecursion HoldsRows) }
{
    let mut lookups = Lookups::with_capacity(alloc, inputs.len())?;
    let mut place: u32 = 0;
    let mut left = inputs;
    while let [input, rest @ ..] = left {
        place = sum(place, 1)?;
        lookups.push(lookup_of(alloc, wave, input, place)?)?;
        left = rest;
    }
    Ok(lookups)
}

fn sum(a: u32, b: u32) -> Result<u32, AllocError>
    ensures { IfOk result (λ sum. sum ≡ a + b) }
{
    match a.checked_add(b) {
        Some(sum) => Ok(sum),
        None => Err(AllocError),
    }
}

fn lookup_of(
    alloc: Global,
    wave: &CopyWave,
    input: &KeyedInput,
    place: u32,
) -> Result<Lookup, AllocError>
    ensures is { IfOk result (λ lookup. lookup
        ≡ lookup_of (keyed_of input.now).keys (copied_for wave.now place)) }
    ensures rows { IfOk result HoldsRows }
{
    let rows = copied_rows(alloc, wave, place)?;
    Lookup::build(alloc, &input.keys, &rows)
}

// The rows that a wave copied of the input at a place.
fn copied_rows(alloc: Global, wave: &CopyWave, place: u32) -> Result<Rows, AllocError>
    ensures are { IfOk result (λ rows. rows_tree rows ≡ copied_for wave.now place) }
    ensures values { IfOk result (λ rows. AreRows (rows_tree rows)) }
{
    let outs = outs_at(wave.prior, wave.number);
    let mut rows = Rows::new(alloc);
    for at in 0..wave.stages.tasks(wave.number) {
        let Some(out) = outs.get(at as usize) else {
            return Ok(rows);
        };
        add_copied(alloc, wave, at, out, place, &mut rows)?;
    }
    Ok(rows)
}

// Adds the rows of a task, where they are of the input at the place.
fn add_copied(
    alloc: Global,
    wave: &CopyWave,
    at: u32,
    out: &Out,
    place: u32,
    rows: &mut Rows,
) -> Result<(), AllocError>
    requires { at < length (tasks_in (staged wave.now.stages.now) wave.now.number) }
    ensures more { OnOk result ((task : StageTask)
        → slice_get (tasks_in (staged wave.now.stages.now) wave.now.number) at ≡ Some task
        → rows_tree rows.new ≡ rows_tree rows.old ++ rows_of_task place task (out_of out.now)) }
    ensures values { AreRows (rows_tree rows.old) → OnOk result (AreRows (rows_tree rows.new)) }
{
    match wave.stages.task_at(wave.number, at) {
        Task::Map(task) => {
            if wave.stages.way_of(task).input == place {
                return add_rows(alloc, out, rows);
            }
            Ok(())
        }
        Task::Reduce(_) => Ok(()),
        Task::Rank(_) => Ok(()),
    }
}

// Adds the rows of an output; none where it has no rows.
fn add_rows(alloc: Global, out: &Out, rows: &mut Rows) -> Result<(), AllocError>
    ensures more { OnOk result (rows_tree rows.new
        ≡ rows_tree rows.old ++ rows_in (form_of out.now.form)) }
    ensures values { AreRows (rows_tree rows.old) → OnOk result (AreRows (rows_tree rows.new)) }
{
    match out.form.rows() {
        Some(packed) => add_packed(alloc, packed, rows),
        None => Ok(()),
    }
}

fn add_packed(alloc: Global, packed: &Packed, rows: &mut Rows) -> Result<(), AllocError>
    ensures more { OnOk result (rows_tree rows.new ≡ rows_tree rows.old ++ packed.now) }
    ensures values { AreRows (rows_tree rows.old) → OnOk result (AreRows (rows_tree rows.new)) }
{
    for at in 0..packed.len() {
        rows.push(unpacked_row(alloc, packed, at)?)?;
    }
    Ok(())
}

fn unpacked_row(alloc: Global, packed: &Packed, at: usize) -> Result<Tuple, AllocError>
    requires { at < length packed.now }
    ensures is { IfOk result (λ row. slice_get packed.now at ≡ Some (row_tree row)) }
    ensures values { IfOk result (λ row. IsRow (row_tree row)) }
{
    decoded_row(alloc, packed.code(at))
}

fn decoded_row(alloc: Global, code: &[u8]) -> Result<Tuple, AllocError>
    ensures is { (row : List Tree) → IsCodeOfRow code.now row
        → IfOk result (λ found. row_tree found ≡ row) }
    ensures values { IfOk result (λ found. IsRow (row_tree found)) }
{
    match decode_row(alloc, code)? {
        Some(row) => Ok(row),
        None => Ok(Tuple::new(alloc)),
    }
}

// The outputs of a wave.
fn outs_at(prior: &Outs, wave: u32) -> &[Out]
    ensures { map out_of result.now ≡ outs_at (outs_of prior.now) wave }
{
    match prior.get(wave as usize) {
        Some(outs) => outs.as_slice(),
        None => &[],
    }
}
