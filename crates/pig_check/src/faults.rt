use pig_typing::CheckKind;
use std::alloc::AllocError;

/// Why a script has no plan.
#[derive(Debug, Clone, Copy, PartialEq, Eq, Drop)]
pub enum CheckFault {
    /// The first statement without a typing, by its number from 1, empty statements counted, and a kind of refusal
    /// whose condition holds of it.
    Check { statement: u32, kind: CheckKind },
    OutOfMemory,
}

impl From<AllocError> for CheckFault {
    ghost use Rattle.std.specs.Prelude.{◌≡◌};
    ghost use Rattle.pig_check.specs.declared.faults.CheckFault.TheVariants.{OutOfMemory};

    ghost from_gives = { λ _ e. e ≡ OutOfMemory };

    fn from(_: AllocError) -> Self {
        CheckFault::OutOfMemory
    }
}
