// The errors of the outside.
ghost use Rattle.std.specs.Prelude.{◌≡◌};
ghost use Rattle.pig_outside.specs.declared.faults.OutsideError.TheVariants.{OutOfMemory};

use std::alloc::{AllocError, AllocFailed};
use thiserror::Error;

/// A call of a device failed.
#[derive(Clone, Copy, Debug, PartialEq, Eq, Error)]
#[error("the device failed")]
pub struct Failed;

/// Why a call of a device did nothing, or not all.
#[derive(Clone, Copy, Debug, PartialEq, Eq, Error)]
pub enum OutsideError {
    /// The device failed, and has counted it.
    #[error("the device failed")]
    Failed,
    /// Memory was wanting.
    #[error("out of memory")]
    OutOfMemory,
}

impl From<AllocError> for OutsideError {
    ghost from_gives = { λ _ e. e ≡ OutOfMemory };

    fn from(_: AllocError) -> Self {
        OutsideError::OutOfMemory
    }
}

impl<T: Drop> From<AllocFailed<T>> for OutsideError {
    ghost from_gives = { λ _ e. e ≡ OutOfMemory };

    fn from(_: AllocFailed<T>) -> Self {
        OutsideError::OutOfMemory
    }
}

/// Why an attempt at a task gave no output.
#[derive(Clone, Copy, Debug, PartialEq, Eq, Error)]
pub enum AttemptFault {
    /// The host failed, so this attempt is lost. Another one may succeed.
    #[error("the attempt is lost")]
    Lost,
    /// Memory was wanting.
    #[error("out of memory")]
    OutOfMemory,
}
