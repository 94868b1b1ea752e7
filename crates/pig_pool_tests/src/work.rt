// A work whose tasks do next to nothing, and a wave of it.
ghost use Rattle.std.specs.Prelude.{◌≡◌, ◌*◌, ⊤, None};

use pig_outside::{AttemptFault, Host, OutsideError, Stop};
use pig_pool::{WaveEnd, WaveFault, Work, run_wave};
use std::alloc::Global;
use std::thread::Threads;

/// Each task gives twice its number, but the task `wants`, which wants memory.
#[derive(Drop)]
pub struct Doubles {
    pub tasks: u32,
    pub wants: u32,
}

impl Work for Doubles {
    type Out = u64;

    ghost count = { λ w. w.tasks };

    ghost wave = { λ _. 0 };

    ghost right = { λ _ t o. o ≡ 2 * t };

    ghost suits = { λ _ _. ⊤ };

    fn tasks(&self) -> u32 {
        self.tasks
    }

    fn attempt<H: Host, S: Stop>(
        &self,
        t: u32,
        _host: &mut H,
        stop: &mut S,
    ) -> Result<Option<u64>, AttemptFault> {
        if t == self.wants {
            return Err(AttemptFault::OutOfMemory);
        }
        if stop.is_won() {
            return Ok(None);
        }
        Ok(Some(2 * t as u64))
    }
}

/// Each task reads a byte, and gives its number. An attempt is lost where the read fails.
#[derive(Drop)]
pub struct Reads {
    pub tasks: u32,
}

impl Work for Reads {
    type Out = u64;

    ghost count = { λ w. w.tasks };

    ghost wave = { λ _. 0 };

    ghost right = { λ _ t o. o ≡ t };

    ghost suits = { λ _ i. i ≡ None };

    fn tasks(&self) -> u32 {
        self.tasks
    }

    fn attempt<H: Host, S: Stop>(
        &self,
        t: u32,
        host: &mut H,
        _stop: &mut S,
    ) -> Result<Option<u64>, AttemptFault> {
        let mut byte = [0u8];
        match host.read("", 0, 0, &mut byte) {
            Ok(()) => Ok(Some(t as u64)),
            Err(OutsideError::Failed) => Err(AttemptFault::Lost),
            Err(OutsideError::OutOfMemory) => Err(AttemptFault::OutOfMemory),
        }
    }
}

/// A wave of these tasks. Too many hosts or tasks, no host, or a limit out of its range are answered as want of memory.
pub fn wave<R: Threads + Sync, H: Host + Send>(
    rt: &R,
    alloc: Global,
    work: &Doubles,
    hosts: &mut [H],
    limit: u32,
) -> Result<WaveEnd<u64>, WaveFault> {
    if hosts.is_empty() || hosts.len() > 256 || work.tasks > 65536 || limit == 0 || limit > 16 {
        return Err(WaveFault::OutOfMemory);
    }
    run_wave(rt, alloc, work, 0, hosts, limit)
}
