//! A wave that copied, with what its tasks put out.
ghost use Rattle.std.specs.Prelude.{◌<◌, length};
ghost use Rattle.pig_physical.specs.Seen.{staged};
ghost use Rattle.pig_physical.specs.Stages.{heads};

use pig_physical::{Outs, Stages};

// A wave of stages by its number, and what was put out so far.
#[derive(Drop)]
pub struct CopyWave<'c, 'p> {
    pub stages: &'c Stages<'p>,
    pub number: u32,
    pub prior: &'c Outs,
    ghost within: { number < length (heads (staged stages.now).plan) },
}
