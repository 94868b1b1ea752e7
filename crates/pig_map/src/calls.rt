//! Tasks that nothing ends before their time.
ghost use Rattle.std.specs.Prelude.{◌≡◌, ◌≤◌, ◌<◌, List, None, IfOk, IsErrOf};
ghost use Rattle.std.specs.Option.{ForSome};
ghost use Rattle.pig_value.specs.declared.inputs.Input.{Input};
ghost use Rattle.pig_physical.specs.Fitting.{Fits, HasPart, HasRead};
ghost use Rattle.pig_physical.specs.Handed.{out_of, outs_of};
ghost use Rattle.pig_physical.specs.Seen.{HasSource, IsTaskOf, Reads, map_task_of, staged};
ghost use Rattle.pig_physical.specs.Stages.{t_map};
ghost use Rattle.pig_physical.specs.Values.{IsValue};
ghost use Rattle.pig_physical.specs.declared.parts.Task.TheVariants as tasks;
ghost use Rattle.pig_map.specs.Making.{ArePathRows};

use crate::attempt::{attempt_fault, map_attempt, rows_out};
use crate::copies::sides_before;
use crate::never::Never;
use crate::work::MapWork;
use pig_outside::{AttemptFault, Host};
use pig_physical::{MapTask, Out, Outs, Stages};
use std::alloc::Global;

// So many bytes are read at once.
const BLOCK: u32 = 65_536;

/// As [`map_attempt`], in blocks of 65,536 bytes.
pub fn map_task<H: Host>(
    alloc: Global,
    stages: &Stages,
    task: &MapTask,
    prior: &Outs,
    host: &mut H,
) -> Result<Out, AttemptFault>
    requires task { IsTaskOf (staged stages.now) task.now.wave (tasks.Map task.now) }
    requires prior { HasRead (staged stages.now) (outs_of prior.now)
        (map_task_of (staged stages.now) task.now) }
    requires host { ForSome (H.inputs host.old)
        (HasSource (staged stages.now) (map_task_of (staged stages.now) task.now)) }
    ensures value { (inputs : List Input) → Reads (H.inputs host.old) task.now.part inputs
        → IfOk result (λ out. IsValue (staged stages.now) inputs None (outs_of prior.now)
        (t_map (map_task_of (staged stages.now) task.now)) (out_of out)) }
    ensures fits { IfOk result (λ out. Fits (staged stages.now)
        (t_map (map_task_of (staged stages.now) task.now)) (out_of out)) }
    ensures inputs { H.inputs host.new ≡ H.inputs host.old }
    ensures begun { H.begun host.new ≡ H.begun host.old }
    ensures later { H.faults host.old ≤ H.faults host.new }
    ensures lost { IsErrOf result AttemptFault.Lost → H.faults host.old < H.faults host.new }
{
    map_task_blocks(alloc, stages, task, prior, host, BLOCK)
}

/// As [`map_attempt`], in blocks of so many bytes.
pub fn map_task_blocks<H: Host>(
    alloc: Global,
    stages: &Stages,
    task: &MapTask,
    prior: &Outs,
    host: &mut H,
    block: u32,
) -> Result<Out, AttemptFault>
    requires task { IsTaskOf (staged stages.now) task.now.wave (tasks.Map task.now) }
    requires prior { HasRead (staged stages.now) (outs_of prior.now)
        (map_task_of (staged stages.now) task.now) }
    requires host { ForSome (H.inputs host.old)
        (HasSource (staged stages.now) (map_task_of (staged stages.now) task.now)) }
    requires block { 0 < block }
    ensures value { (inputs : List Input) → Reads (H.inputs host.old) task.now.part inputs
        → IfOk result (λ out. IsValue (staged stages.now) inputs None (outs_of prior.now)
        (t_map (map_task_of (staged stages.now) task.now)) (out_of out)) }
    ensures fits { IfOk result (λ out. Fits (staged stages.now)
        (t_map (map_task_of (staged stages.now) task.now)) (out_of out)) }
    ensures inputs { H.inputs host.new ≡ H.inputs host.old }
    ensures begun { H.begun host.new ≡ H.begun host.old }
    ensures later { H.faults host.old ≤ H.faults host.new }
    ensures lost { IsErrOf result AttemptFault.Lost → H.faults host.old < H.faults host.new }
{
    let sides = match sides_before(alloc, stages, task.wave, prior) {
        Ok(sides) => sides,
        Err(_) => return Err(AttemptFault::OutOfMemory),
    };
    let mut never = Never;
    match map_attempt(alloc, stages, task, prior, &sides, host, block, &mut never)? {
        Some(out) => Ok(out),
        None => Err(AttemptFault::OutOfMemory),
    }
}

/// The rows of a task: those of its part, taken through its path, in order; and the lines and ASSERTs as [`map_attempt`] tells
/// them.
pub fn path_rows<H: Host>(
    alloc: Global,
    stages: &Stages,
    task: &MapTask,
    prior: &Outs,
    host: &mut H,
) -> Result<Out, AttemptFault>
    requires task { IsTaskOf (staged stages.now) task.now.wave (tasks.Map task.now) }
    requires prior { HasPart (staged stages.now) (outs_of prior.now) task.now.part }
    requires host { ForSome (H.inputs host.old)
        (HasSource (staged stages.now) (map_task_of (staged stages.now) task.now)) }
    ensures rows { (inputs : List Input) → Reads (H.inputs host.old) task.now.part inputs
        → IfOk result (λ out. ArePathRows (staged stages.now) inputs (outs_of prior.now)
        (map_task_of (staged stages.now) task.now) (out_of out)) }
    ensures inputs { H.inputs host.new ≡ H.inputs host.old }
    ensures begun { H.begun host.new ≡ H.begun host.old }
    ensures later { H.faults host.old ≤ H.faults host.new }
    ensures lost { IsErrOf result AttemptFault.Lost → H.faults host.old < H.faults host.new }
{
    let work = MapWork {
        alloc,
        stages,
        task,
        prior,
        block: BLOCK,
    };
    let mut never = Never;
    match rows_out(&work, host, &mut never) {
        Ok(Some(out)) => Ok(out),
        Ok(None) => Err(AttemptFault::OutOfMemory),
        Err(error) => Err(attempt_fault(error)),
    }
}
