// What the top call leaves of a scene.
ghost use Rattle.std.specs.Prelude.{◌≡◌, ◌≤◌, Some, None, All, length};
ghost use Rattle.pig_outside.specs.Memory.{depot_shelf, told_inputs, told_shelf};
ghost use Rattle.pig_run.specs.Told.{TellsOf};
ghost use Rattle.pig_setting_tests.specs.Given.{given};

use crate::Scene;
use crate::devices::{depot_of, failing, hosts_of, words_of};
use crate::telling::{tell_answer, tell_outputs, tell_waves};
use pig_outside::{Host, MemoryConsole, MemoryDepot, MemoryHost};
use pig_run::{Outcome, pig_main};
use std::alloc::{AllocError, Global};
use std::thread::Threads;

/// What a scene leaves over a depot and hosts: the status, the number of bare LIMITs whose rows are
/// told and what the console shows; where it is wanted, the ends of the waves; and what then stands
/// in `p` and `q`.
fn told_over<R: Threads + Sync, H: Host + Send>(
    rt: &R,
    alloc: Global,
    scene: &Scene,
    depot: &mut MemoryDepot,
    hosts: &mut Vec<H>,
) -> Result<String, AllocError>
    requires some { 1 ≤ length hosts.old.items }
    requires few { length hosts.old.items ≤ 256 }
    requires tell { All (λ h. TellsOf (told_shelf depot.old) (H.inputs h)) hosts.old.items }
{
    let words = words_of(alloc, scene.line)?;
    let mut console = MemoryConsole::new(alloc, failing(alloc, scene.faults)?);
    let outcome = pig_main(rt, alloc, &words, depot, hosts, &mut console);
    let told = tell_call(alloc, scene, &outcome, console.text());
    drop((outcome, console, words));
    let mut told = told?;
    tell_outputs(alloc, depot, scene.show, &mut told)?;
    Ok(told)
}

/// What is told of the call itself.
fn tell_call(
    alloc: Global,
    scene: &Scene,
    outcome: &Outcome,
    console: &[u8],
) -> Result<String, AllocError> {
    let mut told = String::new(alloc);
    tell_answer(alloc, outcome, console, &mut told)?;
    if scene.waves {
        tell_waves(alloc, &outcome.waves, &mut told)?;
    }
    Ok(told)
}

/// The same over hosts in memory.
pub fn told_on<R: Threads + Sync>(
    rt: &R,
    alloc: Global,
    scene: &Scene,
    depot: &mut MemoryDepot,
    hosts: &mut Vec<MemoryHost>,
) -> Result<String, AllocError>
    requires some { 1 ≤ length hosts.old.items }
    requires few { length hosts.old.items ≤ 256 }
    requires inputs { (depot_shelf depot.old).inputs ≡ given scene.now.a.now scene.now.b.now }
    requires tell { All (λ h. told_inputs h ≡ Some (given scene.now.a.now scene.now.b.now))
        hosts.old.items }
{
    told_over(rt, alloc, scene, depot, hosts)
}

/// The same over hosts that tell nothing.
pub fn told_on_silent<R: Threads + Sync, H: Host + Send>(
    rt: &R,
    alloc: Global,
    scene: &Scene,
    depot: &mut MemoryDepot,
    hosts: &mut Vec<H>,
) -> Result<String, AllocError>
    requires some { 1 ≤ length hosts.old.items }
    requires few { length hosts.old.items ≤ 256 }
    requires silent { (h : H) → H.inputs h ≡ None }
{
    told_over(rt, alloc, scene, depot, hosts)
}

/// What a scene leaves over its own devices.
pub fn told<R: Threads + Sync>(rt: &R, alloc: Global, scene: &Scene) -> Result<String, AllocError> {
    let mut depot = depot_of(alloc, scene)?;
    let mut hosts = hosts_of(alloc, scene)?;
    let told = told_on(rt, alloc, scene, &mut depot, &mut hosts);
    drop((depot, hosts));
    told
}
