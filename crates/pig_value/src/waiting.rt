//! What waits while another part is made, and what is left of it where that fails.
//!
//! Dropping a value of any type is cheap to prove; a tree that dies by name at a `?` is taken apart variant by
//! variant. So a tree that has to wait is handed to one of these.
ghost use Rattle.std.specs.Prelude.{◌≡◌, Err};
ghost use Rattle.pig_value.specs.Results.{beside};

/// What is kept, beside what was made. It is dropped here where nothing was made.
pub fn beside<K: Drop, T, E>(kept: K, made: Result<T, E>) -> Result<(K, T), E>
    ensures { result ≡ beside kept made }
{
    match made {
        Ok(made) => Ok((kept, made)),
        Err(fault) => Err(fault),
    }
}

/// A fault, in place of what is left.
pub fn failed<L: Drop, T, E>(_left: L, fault: E) -> Result<T, E>
    ensures { result ≡ Err fault }
{
    Err(fault)
}
