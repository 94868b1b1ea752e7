//! Reduce tasks behind which no map task stands, as those of an input without pieces. Where memory is
//! wanting the process ends.
ghost use Rattle.std.specs.Prelude.{◌<◌, length};
ghost use Rattle.pig_physical.specs.Seen.{IsTaskOf, staged};
ghost use Rattle.pig_physical.specs.Stages.{heads, tasks_in};
ghost use Rattle.pig_physical.specs.declared.parts.Task.TheVariants as tasks;

use pig_cutter::cut_plan;
use pig_physical::{Out, Outs, ReduceTask, Sizes, Stages, Task};
use pig_plan::{Node, NodeOp, Plan};
use pig_reduce::reduce_task;
use pig_value::{Columns, Delim, Text};
use std::alloc::Global;
use std::process::Abort;

fn text<R: Abort>(rt: &R, alloc: Global, text: &str) -> Text {
    Text::from_str(alloc, text).expect(rt, "memory")
}

/// A LOAD, the node of a letter on it, and a STORE.
fn op<R: Abort>(rt: &R, alloc: Global, letter: u8) -> NodeOp {
    let delim = Delim::tab();
    match letter {
        b'd' => NodeOp::Distinct { input: 0 },
        b'g' => NodeOp::GroupAll { input: 0 },
        b'l' => NodeOp::Limit { input: 0, count: 1 },
        b's' => NodeOp::Store {
            input: 1,
            path: text(rt, alloc, "out"),
            delim,
        },
        _ => NodeOp::Load {
            path: text(rt, alloc, "in"),
            delim,
            columns: Columns::new(alloc),
        },
    }
}

fn add<R: Abort>(rt: &R, plan: &mut Plan, statement: u32, op: NodeOp) {
    let node = Node { op, statement };
    let Ok(fits) = plan.fits(&node) else {
        panic!(rt; "memory");
    };
    if fits {
        plan.add(node).expect(rt, "memory");
    } else {
        drop(node);
    }
}

fn plan<R: Abort>(rt: &R, alloc: Global, letter: u8) -> Plan {
    let mut plan = Plan::empty(alloc);
    add(rt, &mut plan, 1, op(rt, alloc, b'a'));
    add(rt, &mut plan, 2, op(rt, alloc, letter));
    add(rt, &mut plan, 3, op(rt, alloc, b's'));
    plan
}

fn has_no_rows(out: &Out) -> bool {
    match out.form.rows() {
        Some(rows) => rows.len() == 0,
        None => false,
    }
}

/// Whether a reduce task that reads a wave of no tasks gives no rows.
fn gives_none<R: Abort>(
    rt: &R,
    alloc: Global,
    stages: &Stages,
    wave: u32,
    task: &ReduceTask,
) -> bool
    requires { IsTaskOf (staged stages.now) wave (tasks.Reduce task.now) }
{
    if task.wave >= wave || wave - task.wave != 1 {
        return false;
    }
    if stages.tasks(task.wave) != 0 {
        return false;
    }
    let prior = Outs::new(alloc);
    let out = reduce_task(alloc, stages, task, &prior).expect(rt, "memory");
    let none = has_no_rows(&out);
    drop((out, prior));
    none
}

/// Whether a task is one that reduces, and gives no rows.
fn is_reduced<R: Abort>(rt: &R, alloc: Global, stages: &Stages, wave: u32, at: u32) -> bool
    requires wave { wave < length (heads (staged stages.now).plan) }
    requires at { at < length (tasks_in (staged stages.now) wave) }
{
    match stages.task_at(wave, at) {
        Task::Map(_) => false,
        Task::Reduce(task) => gives_none(rt, alloc, stages, wave, task),
        Task::Rank(_) => false,
    }
}

/// How many tasks of a wave do.
fn reduced_in<R: Abort>(rt: &R, alloc: Global, stages: &Stages, wave: u32) -> u32
    requires { wave < length (heads (staged stages.now).plan) }
{
    let mut count: u32 = 0;
    for at in 0..stages.tasks(wave) {
        if is_reduced(rt, alloc, stages, wave, at) {
            count = count.saturating_add(1);
        }
    }
    count
}

fn reduced<R: Abort>(rt: &R, alloc: Global, letter: u8) -> u32 {
    let plan = plan(rt, alloc, letter);
    let sizes = Sizes::new(alloc);
    let Ok(stages) = cut_plan(alloc, &plan, &sizes, 3, 10) else {
        panic!(rt; "stages");
    };
    let mut count: u32 = 0;
    for wave in 0..stages.waves() {
        count = count.saturating_add(reduced_in(rt, alloc, &stages, wave));
    }
    drop(stages);
    drop((plan, sizes));
    count
}

#[test]
fn tasks_of_no_outputs_give_no_rows(rt: HostRuntime) {
    assert_eq!(rt; reduced(&rt, rt.alloc(), b'd'), 3);
    assert_eq!(rt; reduced(&rt, rt.alloc(), b'g'), 3);
    assert_eq!(rt; reduced(&rt, rt.alloc(), b'l'), 1);
}
