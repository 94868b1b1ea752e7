//! What a wave works on.

ghost use Rattle.std.specs.Prelude.{◌≡◌, ◌<◌, ◌≤◌, ℕ, List, Option, IfOk, IfSome, IfNone, IsErrOf};
ghost use Rattle.std.specs.Option.{ForSome};
ghost use Rattle.pig_pool.specs.Begins.{TellsLast};
ghost use Rattle.pig_value.specs.declared.inputs.Input.{Input};

use pig_outside::{AttemptFault, Host, Stop};

/// Tasks that are numbered from 0, each of which any host may attempt, any number of times.
pub trait Work {
    /// What a task gives.
    type Out: Send + Drop;

    /// The number of tasks.
    ghost count: { Self → ℕ };

    /// The number of the wave, by which hosts are told of its attempts.
    ghost wave: { Self → ℕ };

    /// What a right output of a task is.
    ghost right: { Self → ℕ → Self.Out → Type 0 };

    /// Which inputs a host must have.
    ghost suits: { Self → Option (List Input) → Type 0 };

    /// How many tasks the wave has.
    fn tasks(&self) -> u32
        ensures { result ≡ count self.now };

    /// Makes an attempt at task `t` on the host, which was told last that it begins. It is lost only where the host has
    /// failed. It gives no output only where `stop` told that the task is won already.
    fn attempt<H: Host, S: Stop>(
        &self,
        t: u32,
        host: &mut H,
        stop: &mut S,
    ) -> Result<Option<Self::Out>, AttemptFault>
        requires task { t < count self.now }
        requires suits { suits self.now (H.inputs host.old) }
        requires told { ForSome (H.begun host.old) (TellsLast (wave self.now) t) }
        ensures right { IfOk result (λ o. IfSome o (right self.now t)) }
        ensures stopped { IfOk result (λ o. IfNone o (S.won stop.new)) }
        ensures kept { S.kept stop.new ≡ S.kept stop.old }
        ensures inputs { H.inputs host.new ≡ H.inputs host.old }
        ensures begun { H.begun host.new ≡ H.begun host.old }
        ensures later { H.faults host.old ≤ H.faults host.new }
        ensures lost { IsErrOf result AttemptFault.Lost → H.faults host.old < H.faults host.new };
}
