// Hosts in memory.
use pig_outside::{Call, Calls, MemoryHost, Method};
use pig_value::Inputs;
use std::alloc::Global;
use std::process::Abort;

/// These calls of `begin`.
fn begins<R: Abort>(rt: &R, alloc: Global, numbers: &[u64]) -> Calls {
    let mut calls = Calls::new(alloc);
    for number in numbers {
        let call = Call {
            method: Method::Begin,
            number: *number,
        };
        calls.push(call).expect(rt, "memory");
    }
    calls
}

/// So many hosts with no inputs. The first one fails at these calls of `begin`.
pub fn hosts<R: Abort>(rt: &R, alloc: Global, count: u32, fails: &[u64]) -> Vec<MemoryHost> {
    let mut hosts = Vec::new(alloc);
    for place in 0..count {
        let failing = if place == 0 { fails } else { &[] };
        let calls = begins(rt, alloc, failing);
        let host = MemoryHost::new(Inputs::new(alloc), calls);
        hosts.push(host).expect(rt, "memory");
    }
    hosts
}
