//! A map task, with all that its rows come of.
ghost use Rattle.std.specs.Prelude.{◌<◌, length};
ghost use Rattle.pig_physical.specs.Seen.{staged};
ghost use Rattle.pig_physical.specs.Stages.{heads, ways_in};

use pig_physical::{MapTask, Outs, Stages};
use std::alloc::Global;

// A task of stages, what earlier waves put out, and how many bytes of a split are read at once.
#[derive(Drop)]
pub struct MapWork<'t, 'p> {
    pub alloc: Global,
    pub stages: &'t Stages<'p>,
    pub task: &'t MapTask,
    pub prior: &'t Outs,
    pub block: u32,
    ghost wave: { task.now.wave < length (heads (staged stages.now).plan) },
    ghost way: { task.now.way < length (ways_in (staged stages.now).plan task.now.wave) },
    ghost some: { 0 < block },
}
