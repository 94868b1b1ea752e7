// What a read of bytes that are lent does.
ghost use Rattle.pig_outside.specs.Faults.{HasCause};

use pig_outside::OutsideError;

/// Raises a count of failures, and fails.
pub fn fail(faults: &mut u64) -> Result<(), OutsideError>
    ensures cause { HasCause faults.old faults.new result }
{
    let Some(next) = faults.checked_add(1) else {
        return Err(OutsideError::OutOfMemory);
    };
    *faults = next;
    Err(OutsideError::Failed)
}

/// Fills a buffer from a place on, or tells that there are too few bytes.
pub fn fill(bytes: &[u8], from: u64, into: &mut [u8]) -> bool {
    let left = bytes.get(from as usize..).unwrap_or(&[]);
    if left.len() < into.len() {
        return false;
    }
    into.copy_from_slice(&left[..into.len()]);
    true
}
