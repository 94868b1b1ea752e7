// A plan's stages run on hosts in memory, and what their last wave gives. Where memory is wanting the process ends.
// Values end by `drop`: one call is cheap to prove.
use crate::comparing::{add, settled};
use crate::setting::sizes;
use pig_cutter::cut_plan;
use pig_driver::{JobEnds, Ran, StagesFault, few_tasks_fit, run_stages};
use pig_physical::{Out, OutForm, Outs, Stages, Task};
use pig_plan::Plan;
use pig_silent_tests::{Held, Silent};
use pig_value::{Input, Inputs, OutList};
use std::alloc::Global;
use std::process::Abort;
use std::thread::Threads;

/// How a plan is cut and run: the first host fails at these reads.
#[derive(Clone, Copy, Drop)]
pub struct Turn {
    pub hosts: u32,
    pub split: u64,
    pub reducers: u32,
    pub fails: &'static [u64],
}

/// The hosts of a turn with these inputs.
fn hosts<'b, R: Abort>(rt: &R, alloc: Global, inputs: &'b [Input], turn: Turn) -> Vec<Silent<'b>> {
    let mut hosts = Vec::new(alloc);
    for place in 0..turn.hosts {
        let fails = if place == 0 { turn.fails } else { &[] };
        let host = Silent::new(Held::Inputs(inputs), fails);
        hosts.push(host).expect(rt, "memory");
    }
    hosts
}

/// What comes of a plan that is run over inputs: the lines of each STORE, and the statements that are not met.
pub fn by_tasks<R: Threads + Sync + Abort>(
    rt: &R,
    alloc: Global,
    plan: &Plan,
    inputs: &Inputs,
    turn: Turn,
    listed: bool,
) -> String {
    few_tasks_fit();
    if turn.split == 0 || turn.reducers == 0 || turn.reducers > 65536 {
        panic!(rt; "a plan that is not run");
    }
    let _nodes = plan.nodes();
    let inputs = inputs.as_slice();
    let sizes = sizes(rt, alloc, inputs);
    let mut hosts = hosts(rt, alloc, inputs, turn);
    if hosts.is_empty() || hosts.len() > 256 {
        panic!(rt; "a number of hosts");
    }
    let stages = cut_plan(alloc, plan, &sizes, turn.reducers, turn.split).expect(rt, "stages");
    let mut ends = JobEnds::new(alloc);
    let ran = run_stages(rt, alloc, &stages, hosts.as_mut_slice(), 4, &mut ends);
    drop(hosts);
    let told = told(rt, alloc, &stages, &ran, ends.len(), listed);
    drop((ran, ends));
    drop(stages);
    drop(sizes);
    told
}

// What a run gave, of which so many waves ended.
fn told<R: Abort>(
    rt: &R,
    alloc: Global,
    stages: &Stages,
    ran: &Result<Ran, StagesFault>,
    ended: usize,
    listed: bool,
) -> String {
    match ran {
        Ok(ran) => outputs(rt, alloc, stages, &ran.outs, listed),
        Err(StagesFault::TaskFailed { wave, task, failed }) => {
            let told = format!(in alloc;
                "wave {wave} failed at {task}, {failed} times; {ended} ended"
            );
            told.expect(rt, "memory")
        }
        Err(StagesFault::OutOfMemory) => String::from_str(alloc, "no memory").expect(rt, "memory"),
    }
}

// The lines of each STORE, and the statements that are not met.
fn outputs<R: Abort>(rt: &R, alloc: Global, stages: &Stages, outs: &Outs, listed: bool) -> String {
    let mut told = String::new(alloc);
    let mut number = 0;
    for node in stages.plan().nodes().as_slice() {
        if node.op.is_store() {
            let bytes = bytes_for(rt, alloc, stages, outs, number);
            let lines = settled(rt, alloc, bytes.as_slice(), listed);
            add(rt, &mut told, lines.as_str());
        }
        number = u32::saturating_add(number, 1);
    }
    for statement in 1..10 {
        if is_unmet(outs, statement) {
            let word = format!(in alloc; " {statement}").expect(rt, "memory");
            add(rt, &mut told, word.as_str());
        }
    }
    told
}

// What the tasks of a STORE hand on, joined in their order.
fn bytes_for<R: Abort>(rt: &R, alloc: Global, stages: &Stages, outs: &Outs, store: u32) -> Vec<u8> {
    let mut bytes = Vec::new(alloc);
    if stages.waves() == 0 {
        return bytes;
    }
    let wave = stages.waves() - 1;
    let outs = outs.get(wave as usize).expect(rt, "the last wave");
    for at in 0..stages.tasks(wave) {
        if is_for(stages.task_at(wave, at), store) {
            let more = bytes_at(outs, at as usize).expect(rt, "bytes");
            bytes.extend_from_slice(more).expect(rt, "memory");
        }
    }
    bytes
}

fn is_for(task: &Task, store: u32) -> bool {
    match task {
        Task::Map(task) => task.node == store,
        Task::Reduce(_) => false,
        Task::Rank(_) => false,
    }
}

fn bytes_at(outs: &OutList<Out>, at: usize) -> Option<&[u8]> {
    let out = outs.get(at)?;
    match &out.form {
        OutForm::Parts(bytes) => Some(bytes.as_slice()),
        _ => None,
    }
}

// Whether a task tells that its rows don't meet a statement.
fn is_unmet(outs: &Outs, statement: u32) -> bool {
    for wave in outs.as_slice() {
        if wave_tells(wave, statement) {
            return true;
        }
    }
    false
}

fn wave_tells(outs: &OutList<Out>, statement: u32) -> bool {
    for out in outs.as_slice() {
        if out.unmet.as_slice().contains(&statement) {
            return true;
        }
    }
    false
}
