//! A wave of stages as work.
ghost use Rattle.std.specs.Prelude.{◌≡◌, [], List, Option, length};
ghost use Rattle.pig_value.specs.declared.inputs.Input.{Input};
ghost use Rattle.pig_physical.specs.Handed.{out_of, outs_of};
ghost use Rattle.pig_physical.specs.Outs.{Outs as GivenOuts};
ghost use Rattle.pig_physical.specs.Seen.{staged};
ghost use Rattle.pig_physical.specs.Stages.{tasks_in};
ghost use Rattle.pig_work.specs.Working.{IsReady, IsRightAt, IsShared, Suits, Tellings};

use crate::attempts::attempt_at;
use pig_outside::{AttemptFault, Host, Stop};
use pig_physical::{Out, Outs, Stages};
use pig_pool::Work;
use pig_probe::Sides;
use pig_rank::Starts;
use std::alloc::Global;
use std::marker::{Brand, Model, PhantomData};

/// What a wave stands on: the outputs of earlier waves, and what its hosts tell of their inputs.
/// Each wave picks its own.
pub trait Setting {
    ghost outs: { GivenOuts };

    ghost told: { Tellings };
}

impl Setting for Brand {
    ghost outs = { [] };

    ghost told = { [] };
}

/// What the tasks of a wave share: the starts of those that rank, and the sides of those that probe.
#[derive(Drop)]
pub struct Shared {
    pub starts: Starts,
    pub sides: Sides,
}

/// The tasks of a wave, as work for hosts. It lends the stages and the outputs of earlier waves.
///
/// Contracts see what the stages are seen as, and the number of the wave.
#[derive(Drop)]
pub struct StageWork<'w, N: Setting> {
    alloc: Global,
    stages: &'w Stages<'w>,
    prior: &'w Outs,
    wave: u32,
    shared: &'w Shared,
    of: PhantomData<N>,
}

impl<'w, N: Setting> Model for StageWork<'w, N> {
    ghost use Rattle.std.specs.Prelude.{◌≡◌, ℕ, List};
    ghost use Rattle.std.specs.Coded.{codes};
    ghost use Rattle.pig_value.specs.contracts.values.Kind as kind;
    ghost use Rattle.pig_typed.specs.contracts.exprs.TExpr as expr;
    ghost use Rattle.pig_plan.specs.declared.nodes.Node.{Node};
    ghost use Rattle.pig_physical.specs.declared.staged.Size.{Size};
    ghost use Rattle.pig_physical.specs.Handed.{outs_of};
    ghost use Rattle.pig_physical.specs.Seen.{staged};
    ghost use Rattle.pig_work.specs.Working.{IsReady, IsShared};

    ghost Value = { (List Node × (List Size × (ℕ × ℕ))) × ℕ };

    ghost coded = { Prim.hlevel (codes, kind.the_row.coded, expr.the_row.coded) };

    ghost view = { λ w. (w.stages.now, w.wave) };

    ghost invariant = { λ w. (outs_of w.prior.now ≡ N.outs)
        × IsReady (staged w.stages.now) N.outs w.wave
        × IsShared (staged w.stages.now) N.outs w.wave w.shared.now.starts w.shared.now.sides };
}

impl<'w, N: Setting> StageWork<'w, N> {
    /// The tasks of a wave for which all that they name stands, with what they share.
    pub fn new(
        alloc: Global,
        stages: &'w Stages<'w>,
        wave: u32,
        prior: &'w Outs,
        shared: &'w Shared,
    ) -> StageWork<'w, N>
        requires outs { outs_of prior.now ≡ N.outs }
        requires ready { IsReady (staged stages.now) N.outs wave }
        requires shared { IsShared (staged stages.now) N.outs wave shared.now.starts
            shared.now.sides }
        ensures { result ≡ (stages.now, wave) }
    {
        StageWork {
            alloc,
            stages,
            prior,
            wave,
            shared,
            of: PhantomData,
        }
    }
}

impl<'w, N: Setting> Work for StageWork<'w, N> {
    type Out = Out;

    ghost count = { λ w. length (tasks_in (staged w.0) w.1) };

    ghost wave = { λ w. w.1 };

    ghost right = { λ w place out. IsRightAt (staged w.0) N.told N.outs w.1 place (out_of out) };

    ghost suits = { λ w told. Suits (staged w.0) N.told w.1 told };

    fn tasks(&self) -> u32 {
        self.stages.tasks(self.wave)
    }

    fn attempt<H: Host, S: Stop>(
        &self,
        place: u32,
        host: &mut H,
        stop: &mut S,
    ) -> Result<Option<Out>, AttemptFault> {
        attempt_at(
            self.alloc,
            self.stages,
            self.wave,
            place,
            self.prior,
            self.shared,
            host,
            stop,
        )
    }
}
