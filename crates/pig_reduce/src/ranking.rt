//! The rows of a partition, each behind its rank among the rows of all.
ghost use Rattle.std.specs.Prelude.{◌≡◌, ◌<◌, ◌+◌, true, List, Some, length, map, slice_get, take, IfNone, IfOk, IfSome};
ghost use Rattle.std.specs.Option.{option_and_then, option_map};
ghost use Rattle.pig_value.specs.declared.inputs.Input.{Input};
ghost use Rattle.pig_value.specs.Trees.{row_tree, rows_tree};
ghost use Rattle.pig_value.specs.Valid.{AreRows, IsRow};
ghost use Rattle.pig_plan.specs.Nodes.{op_at as op_of_plan};
ghost use Rattle.pig_plan.specs.Entries.{sort_keys};
ghost use Rattle.pig_plan.specs.Plans.{PlanOp, op_of};
ghost use Rattle.pig_physical.specs.Fitting.{Fits, HasAll};
ghost use Rattle.pig_physical.specs.Handed.{form_of, out_of, outs_of};
ghost use Rattle.pig_physical.specs.Outs.{o_rows, outs_at as outs_at_wave, rows_in};
ghost use Rattle.pig_physical.specs.Seen.{IsTaskOf, staged};
ghost use Rattle.pig_physical.specs.Stages.{t_rank};
ghost use Rattle.pig_physical.specs.Values.{IsRankForm, IsValue, all_rows, rows_of_part};
ghost use Rattle.pig_physical.specs.declared.parts.ReduceTask.{ReduceTask};
ghost use Rattle.pig_physical.specs.declared.parts.Task.TheVariants as tasks;
ghost use Rattle.pig_rank.specs.Ranks.{AreBehindLongs, AreSorted, ranked_among, start_behind, start_tree, summary_of, summary_tree};
ghost use Rattle.pig_waves.specs.Laws.{ranks};
ghost use Rattle.pig_reduce.specs.Made.{AreStartsBy, IsStartBy, IsStartIn, IsStartOf, is_dense};

use crate::bringing::sort_keys;
use crate::lending::outs_at;
use crate::reading::read_row;
use crate::reducing::{op_at, out_with};
use pig_fitting::rank_forms_fit;
use pig_outside::Stop;
use pig_packed::{Packed, PackedBuilder};
use pig_physical::{Out, Outs, ReduceTask, Stages};
use pig_plan::NodeOp;
use pig_rank::{Start, Starts, Summaries, Summary, find_starts, rank_rows, sum_up};
use pig_typed::SortKeys;
use pig_value::{Rows, Tuple};
use std::alloc::{AllocError, Global};

/// What a rank task hands on: the rows of its partition, each behind its rank among the rows of all
/// partitions. `start` is what stands before the partition.
///
/// Where its task is won, it may end with nothing.
pub fn rank_attempt<S: Stop>(
    alloc: Global,
    stages: &Stages,
    task: &ReduceTask,
    prior: &Outs,
    start: &Start,
    stop: &mut S,
) -> Result<Option<Out>, AllocError>
    requires task { IsTaskOf (staged stages.now) (task.now.wave + 1) (tasks.Rank task.now) }
    requires prior { HasAll (staged stages.now) (outs_of prior.now) task.now.wave }
    requires start { IsStartOf (staged stages.now).plan
        (outs_at_wave (outs_of prior.now) task.now.wave) task.now start.now }
    ensures value { IfOk result (λ o. IfSome o (λ out. (inputs : List Input)
        → IsValue (staged stages.now) inputs None (outs_of prior.now) (t_rank task.now)
        (out_of out))) }
    ensures fits { IfOk result (λ o. IfSome o (λ out. Fits (staged stages.now)
        (t_rank task.now) (out_of out))) }
    ensures stopped { IfOk result (λ o. IfNone o (S.won stop.new)) }
    ensures kept { S.kept stop.new ≡ S.kept stop.old }
{
    if stop.is_won() {
        return Ok(None);
    }
    rank_forms_fit();
    stages.plan().nodes();
    match op_at(stages.plan(), task.node) {
        Some(op) => {
            let outs = outs_at(prior, task.wave);
            let ranked = ranked_by(alloc, op, outs, task.part, start)?;
            Ok(Some(out_with(alloc, ranked)))
        }
        None => Ok(Some(out_with(alloc, PackedBuilder::new(alloc).finish()))),
    }
}

// The rows of a partition, as an operator that ranks gives them.
fn ranked_by(
    alloc: Global,
    op: &NodeOp,
    outs: &[Out],
    part: u32,
    start: &Start,
) -> Result<Packed, AllocError>
    requires { ranks (op_of op.now) ≡ true }
    ensures form { IsStartBy (op_of op.now) (map out_of outs.now) part start.now
        → IfOk result (λ rows. IsRankForm (op_of op.now) (map out_of outs.now) part (o_rows rows)) }
    ensures longs { IfOk result (λ rows. AreBehindLongs
        (rows_of_part (map out_of outs.now) part) rows) }
{
    match sort_keys(op) {
        Some(keys) => ranked_part(alloc, outs, part, keys, is_dense(op), start),
        None => Ok(PackedBuilder::new(alloc).finish()),
    }
}

// Whether ranks count keys and not rows.
fn is_dense(op: &NodeOp) -> bool
    ensures { result ≡ is_dense (op_of op.now) }
{
    match op {
        NodeOp::Rank { dense, .. } => *dense,
        _ => false,
    }
}

// The rows of a partition, each behind its rank.
fn ranked_part(
    alloc: Global,
    outs: &[Out],
    part: u32,
    keys: &SortKeys,
    dense: bool,
    start: &Start,
) -> Result<Packed, AllocError>
    ensures ranked { AreSorted keys.now (all_rows (map out_of outs.now))
        → start_tree start.now ≡ start_behind keys.now (all_rows (take part (map out_of outs.now)))
        → IfOk result (λ rows. rows ≡ ranked_among keys.now dense
        (all_rows (map out_of outs.now)) (rows_of_part (map out_of outs.now) part)) }
    ensures longs { IfOk result (λ rows. AreBehindLongs
        (rows_of_part (map out_of outs.now) part) rows) }
{
    let rows = part_rows(alloc, outs, part)?;
    let ranked = rank_rows(alloc, &rows, keys, start, dense)?;
    packed(alloc, &ranked)
}

// The rows of a partition.
fn part_rows(alloc: Global, outs: &[Out], part: u32) -> Result<Rows, AllocError>
    ensures is { IfOk result (λ rows. rows_tree rows
        ≡ rows_of_part (map out_of outs.now) part) }
    ensures values { IfOk result (λ rows. AreRows (rows_tree rows)) }
{
    match outs.get(part as usize) {
        Some(out) => rows_of_out(alloc, out),
        None => Ok(Rows::new(alloc)),
    }
}

// The rows of an output; none where it has no rows.
fn rows_of_out(alloc: Global, out: &Out) -> Result<Rows, AllocError>
    ensures is { IfOk result (λ rows. rows_tree rows ≡ rows_in (form_of out.now.form)) }
    ensures values { IfOk result (λ rows. AreRows (rows_tree rows)) }
{
    match out.form.rows() {
        Some(rows) => unpacked(alloc, rows),
        None => Ok(Rows::new(alloc)),
    }
}

// Packed rows as values.
fn unpacked(alloc: Global, packed: &Packed) -> Result<Rows, AllocError>
    ensures is { IfOk result (λ rows. rows_tree rows ≡ packed.now) }
    ensures values { IfOk result (λ rows. AreRows (rows_tree rows)) }
{
    let mut rows = Rows::with_capacity(alloc, packed.len())?;
    for at in 0..packed.len() {
        rows.push(unpacked_row(alloc, packed, at)?)?;
    }
    Ok(rows)
}

fn unpacked_row(alloc: Global, packed: &Packed, at: usize) -> Result<Tuple, AllocError>
    requires { at < length packed.now }
    ensures is { IfOk result (λ row. slice_get packed.now at ≡ Some (row_tree row)) }
    ensures values { IfOk result (λ row. IsRow (row_tree row)) }
{
    read_row(alloc, packed.code(at))
}

// Values as packed rows.
fn packed(alloc: Global, rows: &Rows) -> Result<Packed, AllocError>
    requires { AreRows (rows_tree rows.now) }
    ensures { IfOk result (λ packed. packed ≡ rows_tree rows.now) }
{
    let mut built = PackedBuilder::new(alloc);
    for row in rows.as_slice() {
        built.push_row(row)?;
    }
    Ok(built.finish())
}

/// What stands before each partition of a node, for its rank tasks, of which `task` is one: one start a partition.
pub fn rank_starts(
    alloc: Global,
    stages: &Stages,
    task: &ReduceTask,
    prior: &Outs,
) -> Result<Starts, AllocError>
    ensures are { IfOk result (λ starts. (t : ReduceTask) → t.node ≡ task.now.node
        → t.wave ≡ task.now.wave → IsStartIn (staged stages.now).plan (outs_of prior.now) t starts) }
    ensures each { IfOk result (λ starts. (o : PlanOp)
        → op_of_plan (staged stages.now).plan task.now.node ≡ Some o → ranks o ≡ true
        → length starts ≡ length (outs_at_wave (outs_of prior.now) task.now.wave)) }
{
    match keys_at(stages, task.node) {
        Some(keys) => partition_starts(alloc, outs_at(prior, task.wave), keys),
        None => Ok(Starts::new(alloc)),
    }
}

// The keys by which a node sorts.
fn keys_at<'s>(stages: &'s Stages<'_>, node: u32) -> Option<&'s SortKeys>
    ensures { option_map (λ keys. keys.now) result
        ≡ option_and_then sort_keys (op_of_plan (staged stages.now).plan node) }
{
    match op_at(stages.plan(), node) {
        Some(op) => sort_keys(op),
        None => None,
    }
}

// What stands before each of the partitions that the tasks of a wave gave, in order, where their rows are sorted by the
// keys.
fn partition_starts(alloc: Global, outs: &[Out], keys: &SortKeys) -> Result<Starts, AllocError>
    ensures are { IfOk result (λ starts. AreStartsBy keys.now (map out_of outs.now) starts) }
    ensures each { IfOk result (λ starts. length starts ≡ length outs.now) }
{
    let mut parts = Summaries::with_capacity(alloc, outs.len())?;
    for out in outs {
        parts.push(summary_of(alloc, out, keys)?)?;
    }
    find_starts(alloc, &parts, keys)
}

// What counts of a partition.
fn summary_of(alloc: Global, out: &Out, keys: &SortKeys) -> Result<Summary, AllocError>
    ensures { IfOk result (λ summary. AreSorted keys.now (rows_in (form_of out.now.form))
        → summary_tree summary ≡ summary_of keys.now (rows_in (form_of out.now.form))) }
{
    let rows = rows_of_out(alloc, out)?;
    sum_up(alloc, &rows, keys)
}
