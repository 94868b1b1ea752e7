// Two hosts that meet.
ghost use Rattle.std.specs.Prelude.{◌≡◌, None, IfOk, length};

use crate::reading::{fail, fill};
use pig_outside::{Failed, Host, OutsideError};
use std::alloc::{AllocError, Global};
use std::sync::Arc;
use std::sync::atomic::{AtomicBool, Ordering};

/// A host with one piece, whatever the path, that begins an attempt only where another one has begun
/// too.
#[derive(Drop)]
pub struct Meeting<'b> {
    bytes: &'b [u8],
    own: Arc<AtomicBool, Global>,
    other: Arc<AtomicBool, Global>,
    turns: u32,
    faults: u64,
}

/// Whether the flag was set within so many looks.
fn is_set(flag: &AtomicBool, turns: u32) -> bool {
    for _ in 0..turns {
        if flag.load(Ordering::SeqCst) {
            return true;
        }
    }
    false
}

impl Host for Meeting<'_> {
    ghost inputs = { λ _. None };

    ghost begun = { λ _. None };

    ghost faults = { λ h. h.faults };

    fn tells_bytes(&self) {}

    fn begin(&mut self, _wave: u32, _task: u32, _attempt: u32) -> Result<(), Failed> {
        self.own.store(true, Ordering::SeqCst);
        let met = is_set(&self.other, self.turns);
        self.turns = 1;
        if met || self.faults == u64::MAX {
            return Ok(());
        }
        self.faults += 1;
        Err(Failed)
    }

    fn read(
        &mut self,
        _path: &str,
        _piece: u32,
        from: u64,
        into: &mut [u8],
    ) -> Result<(), OutsideError> {
        if fill(self.bytes, from, into) {
            return Ok(());
        }
        fail(&mut self.faults)
    }
}

/// Two hosts that meet: at its first `begin` each waits for the other, for so many looks.
pub fn make_meeting<'b>(
    alloc: Global,
    bytes: &'b [u8],
    turns: u32,
) -> Result<Vec<Meeting<'b>>, AllocError>
    ensures two { IfOk result (λ hosts. length hosts.items ≡ 2) }
{
    let one = Arc::new(alloc, AtomicBool::new(false))?;
    let two = Arc::new(alloc, AtomicBool::new(false))?;
    let first = Meeting {
        bytes,
        own: Arc::try_clone(&one)?,
        other: Arc::try_clone(&two)?,
        turns,
        faults: 0,
    };
    let second = Meeting {
        bytes,
        own: two,
        other: one,
        turns,
        faults: 0,
    };
    let mut hosts = Vec::new(alloc);
    hosts.push(first)?;
    hosts.push(second)?;
    Ok(hosts)
}
