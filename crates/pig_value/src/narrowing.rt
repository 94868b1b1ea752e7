ghost use Rattle.std.specs.Prelude.{◌≡◌, ◌≤◌, ◌^◌, IfOk, OnErr};

use std::alloc::AllocError;

/// A length or a place as a `u32`. No list in memory has more places than that counts, so a greater one is
/// answered as want of memory.
pub fn narrow(len: usize) -> Result<u32, AllocError>
    ensures same { IfOk result (λ n. n ≡ len) }
    ensures long { OnErr result (2 ^ 32 ≤ len) }
{
    match u32::try_from(len) {
        Ok(len) => Ok(len),
        Err(_) => Err(AllocError),
    }
}
