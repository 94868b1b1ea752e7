ghost use Rattle.std.specs.Prelude.{◌≡◌, Err};
ghost use Rattle.pig_typing.specs.Results.{in_memory};
ghost use Rattle.pig_typing.specs.declared.faults.TypeFault.TheVariants.{Refused};

use pig_value::failed;
use std::alloc::AllocError;

/// Why a statement has no typing.
#[derive(Debug, Clone, Copy, PartialEq, Eq, Drop)]
pub enum CheckKind {
    /// An alias of a relation that no earlier statement gives.
    UnknownAlias,
    /// A name that fits no field.
    UnknownField,
    /// A name that fits some field, and means none.
    AmbiguousField,
    /// A position that is at least the number of fields.
    PositionOut,
    /// An operator, a cast or a function on kinds that it does not take.
    TypeMismatch,
    /// A key that holds a bag or a map.
    BadKey,
    /// A number with a point, a type of such numbers or of dates, or the function AVG.
    FloatType,
    /// A function that there is not.
    UnknownFunction,
    /// Another number of arguments than a function takes.
    WrongArguments,
    /// Inputs that do not agree, or another number of names than of fields.
    SchemaMismatch,
    /// A STORE at a path that collides with that of an earlier STORE.
    OutputTwice,
    /// A LOAD or STORE at a path that collides with that of an earlier STORE or LOAD.
    SelfLoad,
    /// A path with the ending of compressed files.
    Compressed,
    /// What the language has and this profile leaves out.
    Unsupported,
    /// More than 512 fields in a tuple, or more than 4096 kinds in all.
    TooWide,
    /// A kind that nests more than 64 deep.
    TooDeep,
}

/// Why an expression is not typed.
#[derive(Debug, Clone, Copy, PartialEq, Eq, Drop)]
pub enum TypeFault {
    /// A kind of refusal whose condition holds of the expression.
    Refused(CheckKind),
    OutOfMemory,
}

impl From<AllocError> for TypeFault {
    ghost use Rattle.std.specs.Prelude.{◌≡◌};
    ghost use Rattle.pig_typing.specs.declared.faults.TypeFault.TheVariants.{OutOfMemory};

    ghost from_gives = { λ _ e. e ≡ OutOfMemory };

    fn from(_: AllocError) -> Self {
        TypeFault::OutOfMemory
    }
}

/// What was made, where memory was there.
pub fn in_memory<T>(made: Result<T, AllocError>) -> Result<T, TypeFault>
    ensures { result ≡ in_memory made }
{
    Ok(made?)
}

/// A refusal, behind which what is left ends.
pub fn refused<L: Drop, T>(left: L, kind: CheckKind) -> Result<T, TypeFault>
    ensures { result ≡ Err (Refused kind) }
{
    failed(left, TypeFault::Refused(kind))
}
