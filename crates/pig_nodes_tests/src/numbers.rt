// The numbers that digits are.
use pig_value::Numbers;
use std::alloc::{AllocError, Global};

/// The number that a digit is.
pub fn digit(byte: u8) -> u32 {
    u32::from(byte.saturating_sub(b'0'))
}

/// The numbers that digits are.
pub fn digits(alloc: Global, bytes: &[u8]) -> Result<Numbers, AllocError> {
    let mut numbers = Numbers::new(alloc);
    for byte in bytes {
        numbers.push(digit(*byte))?;
    }
    Ok(numbers)
}

/// The letter that a word begins with, 0 where it is empty, and the numbers behind it.
pub fn lettered(alloc: Global, word: &str) -> Result<(u8, Numbers), AllocError> {
    match word.as_bytes() {
        [letter, rest @ ..] => Ok((*letter, digits(alloc, rest)?)),
        [] => Ok((0, Numbers::new(alloc))),
    }
}
