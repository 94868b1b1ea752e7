//! One partition of a boundary node, brought together from what the tasks of a wave handed on.
ghost use Rattle.std.specs.Prelude.{◌≡◌, ◌+◌, true, List, None, Some, map, IfNone, IfOk, IfSome};
ghost use Rattle.std.specs.List.{AllByRecursion, flat_map};
ghost use Rattle.std.specs.Option.{option_map};
ghost use Rattle.pig_value.specs.declared.inputs.Input.{Input};
ghost use Rattle.pig_plan.specs.Nodes.{op_at as op_of_plan};
ghost use Rattle.pig_plan.specs.Plans.{op_of, plan_of};
ghost use Rattle.pig_physical.specs.Combining.{groups_one};
ghost use Rattle.pig_physical.specs.Fitting.{Fits, HasWave, run_dirs};
ghost use Rattle.pig_physical.specs.Handed.{out_of, outs_of};
ghost use Rattle.pig_physical.specs.Outs.{entries_at};
ghost use Rattle.pig_physical.specs.Seen.{IsTaskOf, staged};
ghost use Rattle.pig_physical.specs.Stages.{t_reduce};
ghost use Rattle.pig_physical.specs.Values.{IsValue, reduced};
ghost use Rattle.pig_physical.specs.declared.parts.Task.TheVariants as tasks;
ghost use Rattle.pig_reduce.specs.Made.{AreOfFirst, HasDirs, IsReduced, limit_of, rows_out};

use crate::bringing::add_reduced;
use crate::lending::{entries_of, outs_at};
use crate::limits::first_rows;
use pig_fitting::reduce_forms_fit;
use pig_outside::Stop;
use pig_packed::{Packed, PackedBuilder};
use pig_physical::{Out, OutForm, Outs, ReduceTask, Stages};
use pig_plan::{NodeOp, Plan};
use pig_runs::Merged;
use pig_value::Numbers;
use std::alloc::{AllocError, Global};

/// What a reduce task hands on: the rows of its node in one partition, as their codes.
///
/// Where its task is won, it may end with nothing. It asks before it merges, and once more before it
/// writes.
pub fn reduce_attempt<S: Stop>(
    alloc: Global,
    stages: &Stages,
    task: &ReduceTask,
    prior: &Outs,
    stop: &mut S,
) -> Result<Option<Out>, AllocError>
    requires task { IsTaskOf (staged stages.now) (task.now.wave + 1) (tasks.Reduce task.now) }
    requires prior { HasWave (staged stages.now) (outs_of prior.now) task.now }
    ensures value { IfOk result (λ o. IfSome o (λ out. (inputs : List Input)
        → IsValue (staged stages.now) inputs None (outs_of prior.now) (t_reduce task.now)
        (out_of out))) }
    ensures fits { IfOk result (λ o. IfSome o (λ out. Fits (staged stages.now)
        (t_reduce task.now) (out_of out))) }
    ensures stopped { IfOk result (λ o. IfNone o (S.won stop.new)) }
    ensures kept { S.kept stop.new ≡ S.kept stop.old }
{
    if stop.is_won() {
        return Ok(None);
    }
    reduce_forms_fit();
    stages.plan().nodes();
    match op_at(stages.plan(), task.node) {
        Some(op) => reduce_op(alloc, stages, task, op, outs_at(prior, task.wave), stop),
        None => Ok(Some(out_with(alloc, PackedBuilder::new(alloc).finish()))),
    }
}

/// The same, whether or not its task is won.
pub fn reduce_task(
    alloc: Global,
    stages: &Stages,
    task: &ReduceTask,
    prior: &Outs,
) -> Result<Out, AllocError>
    requires task { IsTaskOf (staged stages.now) (task.now.wave + 1) (tasks.Reduce task.now) }
    requires prior { HasWave (staged stages.now) (outs_of prior.now) task.now }
    ensures value { IfOk result (λ out. (inputs : List Input)
        → IsValue (staged stages.now) inputs None (outs_of prior.now) (t_reduce task.now)
        (out_of out)) }
    ensures fits { IfOk result (λ out. Fits (staged stages.now) (t_reduce task.now) (out_of out)) }
{
    let mut never = Never;
    match reduce_attempt(alloc, stages, task, prior, &mut never)? {
        Some(out) => Ok(out),
        None => Err(AllocError),
    }
}

// A stop that never says so.
#[derive(Drop)]
struct Never;

impl Stop for Never {
    ghost use Rattle.std.specs.Prelude.{⊤};

    ghost Kept = { ⊤ };

    ghost kept = { λ s. tt };

    ghost won = { λ s. ⊥ };

    fn is_won(&mut self) -> bool {
        false
    }
}

// What a node's operator gives of these outputs.
fn reduce_op<S: Stop>(
    alloc: Global,
    stages: &Stages,
    task: &ReduceTask,
    op: &NodeOp,
    outs: &[Out],
    stop: &mut S,
) -> Result<Option<Out>, AllocError>
    requires op { op_of_plan (staged stages.now).plan task.now.node ≡ Some (op_of op.now) }
    requires dirs { AllByRecursion (HasDirs (run_dirs (op_of op.now)) task.now.part)
        (map out_of outs.now) }
    requires first { groups_one (op_of op.now) ≡ true
        → AreOfFirst (flat_map (entries_at task.now.part) (map out_of outs.now)) }
    ensures value { IfOk result (λ o. IfSome o (λ out. IsReduced (staged stages.now)
        task.now.node (op_of op.now) (map out_of outs.now) task.now.part (out_of out))) }
    ensures stopped { IfOk result (λ o. IfNone o (S.won stop.new)) }
    ensures kept { S.kept stop.new ≡ S.kept stop.old }
{
    match limit_of(op) {
        Some(count) => Ok(Some(out_with(alloc, first_rows(alloc, outs, count)?))),
        None => {
            let entries = entries_of(alloc, op, outs, task.part)?;
            if stop.is_won() {
                return Ok(None);
            }
            Ok(Some(reduced_out(alloc, stages, task.node, op, &entries)?))
        }
    }
}

// What a node makes of the entries of a partition, as an output.
fn reduced_out(
    alloc: Global,
    stages: &Stages,
    node: u32,
    op: &NodeOp,
    entries: &Merged,
) -> Result<Out, AllocError>
    requires op { op_of_plan (staged stages.now).plan node ≡ Some (op_of op.now) }
    requires dirs { entries.now.dirs ≡ run_dirs (op_of op.now) }
    requires first { groups_one (op_of op.now) ≡ true → AreOfFirst entries.now.entries }
    ensures { IfOk result (λ out. out_of out ≡ rows_out
        (reduced (staged stages.now).plan node (op_of op.now) entries.now.entries)) }
{
    let mut built = PackedBuilder::new(alloc);
    add_reduced(alloc, stages, node, op, entries, &mut built)?;
    Ok(out_with(alloc, built.finish()))
}

// Rows as an output, of a task that reads no lines and meets no ASSERT.
pub(crate) fn out_with(alloc: Global, rows: Packed) -> Out
    ensures { out_of result ≡ rows_out rows }
{
    Out {
        form: OutForm::Rows(rows),
        lines: 0,
        unmet: Numbers::new(alloc),
    }
}

// The operator of a node.
pub(crate) fn op_at(plan: &Plan, node: u32) -> Option<&NodeOp>
    ensures { option_map (λ op. op_of op.now) result ≡ op_of_plan (plan_of plan.now) node }
{
    match plan.nodes().get(node as usize) {
        Some(found) => Some(&found.op),
        None => None,
    }
}

// The count of a LIMIT.
fn limit_of(op: &NodeOp) -> Option<u64>
    ensures { result ≡ limit_of (op_of op.now) }
{
    match op {
        NodeOp::Limit { count, .. } => Some(*count),
        _ => None,
    }
}
