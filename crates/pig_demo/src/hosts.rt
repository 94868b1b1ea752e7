// The hosts of the demonstration.
ghost use Rattle.std.specs.Prelude.{◌≡◌, All, IfOk, None, length};
ghost use Rattle.pig_outside.specs.declared.memory_host.MemoryHost.{MemoryHost};
ghost use Rattle.pig_outside.specs.Memory.{host_failing, host_inputs, told_inputs};
ghost use Rattle.pig_demo.specs.Faultless.{IsFaultless};
ghost use Rattle.pig_demo.specs.Scene.{demo_inputs};

use crate::visits::demo_inputs;
use pig_outside::{Calls, Failed, Host, MemoryHost, OutsideError};
use std::alloc::{AllocError, Global};
use std::marker::Model;

/// A host in memory of which no call fails. It tells its inputs, and not what began on it. Contracts see the host itself.
#[derive(Drop)]
pub struct OwnHost {
    inner: MemoryHost,
}

impl Model for OwnHost {
    ghost Value = { MemoryHost };

    ghost view = { λ host. host.inner };

    ghost invariant = { λ host. IsFaultless (host_failing host.inner) };
}

impl OwnHost {
    /// A host with the input of so many visits.
    pub fn new(alloc: Global, count: u32) -> Result<OwnHost, AllocError>
        ensures { IfOk result (λ host. host_inputs host ≡ demo_inputs count) }
    {
        Ok(OwnHost {
            inner: MemoryHost::new(demo_inputs(alloc, count)?, Calls::new(alloc)),
        })
    }
}

impl Host for OwnHost {
    ghost inputs = { told_inputs };

    ghost begun = { λ _. None };

    ghost faults = { λ _. 0 };

    fn tells_bytes(&self) {
        self.inner.tells_bytes();
    }

    fn begin(&mut self, wave: u32, task: u32, attempt: u32) -> Result<(), Failed> {
        self.inner.begin(wave, task, attempt)
    }

    fn read(
        &mut self,
        path: &str,
        piece: u32,
        from: u64,
        into: &mut [u8],
    ) -> Result<(), OutsideError> {
        self.inner.read(path, piece, from, into)
    }
}

/// So many hosts with the input of so many visits.
pub fn own_hosts(alloc: Global, count: u32, number: u32) -> Result<Vec<OwnHost>, AllocError>
    ensures number { IfOk result (λ hosts. length hosts.items ≡ number) }
    ensures inputs { IfOk result
        (λ hosts. All (λ host. host_inputs host ≡ demo_inputs count) hosts.items) }
{
    let mut hosts = Vec::new(alloc);
    for _ in 0..number {
        hosts.push(OwnHost::new(alloc, count)?)?;
    }
    Ok(hosts)
}
