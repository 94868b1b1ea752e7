// Devices in memory over the inputs of a scene, and words.
ghost use Rattle.std.specs.Prelude.{◌≡◌, ◌≤◌, ◌∷◌, [], Some, IfOk, All, length};
ghost use Rattle.pig_outside.specs.Memory.{depot_shelf, told_inputs};
ghost use Rattle.pig_setting_tests.specs.Given.{given};

use crate::{Fault, Scene};
use pig_outside::{Call, Calls, MemoryDepot, MemoryHost, Source, Sources};
use pig_value::{Blob, Input, Inputs, Seq, Text, Words};
use std::alloc::{AllocError, Global};

/// The words of a command line, with one space between each two.
pub fn words_of(alloc: Global, line: &str) -> Result<Words, AllocError> {
    let mut words = Words::new(alloc);
    for word in line.split(' ') {
        words.push(Text::from_str(alloc, word)?)?;
    }
    Ok(words)
}

/// An input of one piece.
fn input(alloc: Global, path: &str, bytes: &str) -> Result<Input, AllocError>
    ensures { IfOk result (λ i. i ≡ record { path = path.now; pieces = bytes.now ∷ [] }) }
{
    let mut pieces = Seq::new(alloc);
    pieces.push(Blob::from_slice(alloc, bytes.as_bytes())?)?;
    Ok(Input {
        path: Text::from_str(alloc, path)?,
        pieces,
    })
}

/// The inputs `a` and `b`, of one piece each.
fn inputs(alloc: Global, a: &str, b: &str) -> Result<Inputs, AllocError>
    ensures { IfOk result (λ inputs. inputs ≡ given a.now b.now) }
{
    let mut inputs = Inputs::new(alloc);
    inputs.push(input(alloc, "a", a)?)?;
    inputs.push(input(alloc, "b", b)?)?;
    Ok(inputs)
}

/// The one script, at `s`.
fn scripts(alloc: Global, script: &str) -> Result<Sources, AllocError> {
    let source = Source {
        path: Text::from_str(alloc, "s")?,
        bytes: Blob::from_slice(alloc, script.as_bytes())?,
    };
    let mut scripts = Sources::new(alloc);
    scripts.push(source)?;
    Ok(scripts)
}

/// The calls that are to fail. A device heeds those of its own methods.
pub fn failing(alloc: Global, faults: &[Fault]) -> Result<Calls, AllocError> {
    let mut calls = Calls::new(alloc);
    for (method, number) in faults {
        calls.push(Call {
            method: *method,
            number: *number,
        })?;
    }
    Ok(calls)
}

/// The depot of a scene.
pub fn depot_of(alloc: Global, scene: &Scene) -> Result<MemoryDepot, AllocError>
    ensures inputs { IfOk result
        (λ d. (depot_shelf d).inputs ≡ given scene.now.a.now scene.now.b.now) }
    ensures empty { IfOk result (λ d. (depot_shelf d).dirs ≡ []) }
{
    let inputs = inputs(alloc, scene.a, scene.b)?;
    let scripts = scripts(alloc, scene.script)?;
    let failing = failing(alloc, scene.faults)?;
    Ok(MemoryDepot::new(alloc, scripts, inputs, failing))
}

/// The host of a scene at a place.
fn host(alloc: Global, scene: &Scene, place: usize) -> Result<MemoryHost, AllocError>
    ensures { IfOk result
        (λ h. told_inputs h ≡ Some (given scene.now.a.now scene.now.b.now)) }
{
    let inputs = inputs(alloc, scene.a, scene.b)?;
    let faults = scene.hosts.get(place).copied().unwrap_or(&[]);
    let mut host = MemoryHost::new(inputs, failing(alloc, faults)?);
    let broken = scene.broken.get(place).copied().unwrap_or(0);
    if broken > 0 {
        host.fail_from(broken);
    }
    Ok(host)
}

/// The hosts of a scene.
pub fn hosts_of(alloc: Global, scene: &Scene) -> Result<Vec<MemoryHost>, AllocError>
    ensures some { IfOk result (λ hosts. 1 ≤ length hosts.items) }
    ensures few { IfOk result (λ hosts. length hosts.items ≤ 256) }
    ensures tell { IfOk result (λ hosts.
        All (λ h. told_inputs h ≡ Some (given scene.now.a.now scene.now.b.now)) hosts.items) }
{
    let mut hosts = Vec::new(alloc);
    for place in 0..1 + usize::from(scene.others) {
        hosts.push(host(alloc, scene, place)?)?;
    }
    Ok(hosts)
}
