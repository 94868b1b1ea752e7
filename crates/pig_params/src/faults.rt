use std::alloc::AllocError;

/// Why parameters can't be put into a script.
#[derive(Debug, Drop)]
pub enum ParamFault {
    /// The offset of the first place where a value is missing: the `$` of a name that has none, or the `%` of a
    /// `%declare` or `%default` that isn't whole.
    Missing { offset: u64 },
    /// The script with the values in it is longer than it may be.
    TooLong,
    OutOfMemory,
}

impl From<AllocError> for ParamFault {
    ghost use Rattle.std.specs.Prelude.{◌≡◌};
    ghost use Rattle.pig_params.specs.declared.faults.ParamFault.TheVariants.{OutOfMemory};

    ghost from_gives = { λ _ e. e ≡ OutOfMemory };

    fn from(_: AllocError) -> Self {
        ParamFault::OutOfMemory
    }
}
