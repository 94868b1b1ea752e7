//! How many lines stand in a directory.
ghost use Rattle.std.specs.Prelude.{◌≡◌, ◌+◌, length, IfOk, if◌then◌else◌};
ghost use Rattle.std.specs.List.{count_by};
ghost use Rattle.pig_value.specs.Lines as lines;
ghost use Rattle.pig_collect.specs.Collecting.{joined};
ghost use Rattle.pig_collect.specs.Tallies.{open_after};

use memchr::memchr_iter;
use pig_value::Blobs;
use std::alloc::AllocError;

/// The number of the lines that the parts of a directory hold when they are joined. More than 64
/// bits count are answered as want of memory.
pub fn stored_lines(parts: &Blobs) -> Result<u64, AllocError>
    ensures { IfOk result (λ count. count ≡ length (lines.stored_lines (joined parts.now))) }
{
    let mut count: u64 = 0;
    let mut is_open = false;
    let mut left = parts.as_slice();
    while let [part, rest @ ..] = left {
        let Some(more) = count.checked_add(line_ends(part.as_slice())) else {
            return Err(AllocError);
        };
        count = more;
        is_open = open_after(is_open, part.as_slice());
        left = rest;
    }
    with_last(count, is_open)
}

// The number of LFs.
fn line_ends(bytes: &[u8]) -> u64
    ensures { result ≡ count_by lines.is_lf bytes.now }
{
    memchr_iter(b'\n', bytes).count() as u64
}

// Whether bytes stand behind the last LF, where it was known of the bytes before.
fn open_after(was_open: bool, bytes: &[u8]) -> bool
    ensures { result ≡ open_after was_open bytes.now }
{
    match bytes.last() {
        Some(last) => *last != b'\n',
        None => was_open,
    }
}

// The count with a last line that has no LF.
fn with_last(count: u64, is_open: bool) -> Result<u64, AllocError>
    ensures { IfOk result (λ all. all ≡ count + (if is_open then 1 else 0)) }
{
    if !is_open {
        return Ok(count);
    }
    match count.checked_add(1) {
        Some(all) => Ok(all),
        None => Err(AllocError),
    }
}
