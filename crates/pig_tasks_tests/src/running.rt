//! A script's tasks, wave by wave. What is refused ends the process.
ghost use Rattle.std.specs.Prelude.{◌≡◌, ◌<◌};
ghost use Rattle.pig_physical.specs.Handed.{outs_of};
ghost use Rattle.pig_physical.specs.Seen.{staged};
ghost use Rattle.pig_tasks_tests.specs.Fits.{AllFit};

use crate::attempts::wave_of;
use crate::sorting::cut;
use crate::stored::{told, told_parts};
use pig_cutter::cut_plan;
use pig_physical::{Outs, Size, Sizes, Stages};
use pig_script_tests::plan_of;
use pig_silent_tests::{Held, Silent};
use pig_value::{Lengths, Text};
use std::alloc::Global;
use std::process::Abort;

/// How a script is run over two inputs.
#[derive(Clone, Copy, Drop)]
pub struct Run<'b> {
    pub script: &'b str,
    pub a: &'b [u8],
    pub b: &'b [u8],
    pub split: u64,
    pub block: u32,
}

fn size<R: Abort>(rt: &R, alloc: Global, path: &str, bytes: &[u8]) -> Size {
    let mut lengths = Lengths::new(alloc);
    lengths.push(bytes.len() as u64).expect(rt, "memory");
    let path = Text::from_str(alloc, path).expect(rt, "memory");
    Size { path, lengths }
}

fn sizes<R: Abort>(rt: &R, alloc: Global, run: &Run) -> Sizes {
    let mut sizes = Sizes::new(alloc);
    sizes.push(size(rt, alloc, "a", run.a)).expect(rt, "memory");
    sizes.push(size(rt, alloc, "b", run.b)).expect(rt, "memory");
    sizes
}

/// The outputs of all waves, one after the other.
fn all_waves<R: Abort>(
    rt: &R,
    alloc: Global,
    stages: &Stages,
    host: &mut Silent,
    block: u32,
) -> Outs
    requires block { 0 < block }
{
    let mut outs = Outs::new(alloc);
    for wave in 0..stages.waves() {
        let found = wave_of(rt, alloc, stages, wave, &outs, host, block);
        let found = cut(rt, alloc, stages, wave, found);
        outs.push(found).expect(rt, "memory");
    }
    outs
}

/// What is told of a run.
#[derive(Clone, Copy, PartialEq, Eq, Drop)]
pub enum Telling {
    /// The lines of each STORE, in their order, with a line `.` behind them.
    Lists,
    /// The same in the order of their bytes.
    Bags,
    /// What each task of the last wave hands on, with a bar behind it.
    Parts,
}

/// What a run with three reducers stores.
pub fn stored<R: Abort>(rt: &R, alloc: Global, run: Run, telling: Telling) -> Vec<u8> {
    let plan = plan_of(alloc, run.script).expect(rt, "a plan");
    if run.split == 0 || run.block == 0 {
        panic!(rt; "a plan that is not run");
    }
    let sizes = sizes(rt, alloc, &run);
    let stages = cut_plan(alloc, &plan, &sizes, 3, run.split).expect(rt, "stages");
    let held = Held::Two { a: run.a, b: run.b };
    let mut host = Silent::new(held, &[]);
    let outs = all_waves(rt, alloc, &stages, &mut host, run.block);
    let text = match telling {
        Telling::Parts => told_parts(rt, alloc, &outs),
        _ => told(rt, alloc, &stages, &outs, telling == Telling::Lists),
    };
    drop(outs);
    drop(stages);
    drop((plan, sizes));
    text
}
