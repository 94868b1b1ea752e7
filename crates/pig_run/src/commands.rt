ghost use Rattle.std.specs.Prelude.{◌≡◌, ◌≢◌, length, map, IfErr, MatchResult};
ghost use Rattle.std.specs.Option.{ForSome};
ghost use Rattle.std.specs.List.{AllByRecursion};
ghost use Rattle.pig_outside.specs.Shelf.{AreOfBytes};
ghost use Rattle.pig_words.specs.declared.words.Command.{Command};
ghost use Rattle.pig_run.specs.Blame.{HostsHaveWorked};
ghost use Rattle.pig_run.specs.OwnRun.{DemoEnd};
ghost use Rattle.pig_run.specs.Due.{HasWords, IsDemo, IsDue, IsNoDemo};
ghost use Rattle.pig_run.specs.Looking.{line_given};
ghost use Rattle.pig_run.specs.Orderly.{IsOrderly};
ghost use Rattle.pig_run.specs.Running.{IsFresh, RunTold, found_in, kept_in};
ghost use Rattle.pig_run.specs.Steps.{DepotCause, SaysWords, StoreBlame};
ghost use Rattle.pig_run.specs.Told.{AllTell, TellsOf};
ghost use Rattle.pig_run.specs.declared.outcome.RunFault.TheVariants as fault;

use crate::RunFault;
use crate::demonstrating::demonstrate;
use crate::line::CommandLine;
use crate::looking::read_command;
use crate::progress::Progress;
use crate::running::run_script;
use pig_check::a_script_has_one_plan;
use pig_outside::{Depot, Host};
use pig_value::Blob;
use pig_words::Verb;
use std::alloc::Global;
use std::thread::Threads;

// Reads the words, and does what they say.
pub fn run<R: Threads + Sync, D: Depot, H: Host + Send>(
    rt: &R,
    alloc: Global,
    line: &CommandLine,
    depot: &mut D,
    hosts: &mut [H],
    progress: &mut Progress,
) -> Result<Blob, RunFault>
    requires hosts { length hosts.old ≡ line.now.hosts }
    requires tells { AllByRecursion (TellsOf (D.shelf depot.old)) (map H.inputs hosts.old) }
    requires fresh { IsFresh progress.old }
    ensures told { ForSome (D.shelf depot.old) (λ s. IsNoDemo (line_given line.now)
        → RunTold (IsDue (line_given line.now) s) s
        (AllTell H.inputs (line_given line.now) hosts.old) (D.calls depot.old)
        (D.calls depot.new) (D.shelf depot.new) progress.new result) }
    ensures demo { (command : Command) → IsDemo (line_given line.now) command
        → DemoEnd command progress.new result }
    ensures untouched { (command : Command) → IsDemo (line_given line.now) command
        → depot.new ≡ depot.old }
    ensures fault { IfErr result (λ f. f ≢ fault.ConsoleFault) }
    ensures words { MatchResult result (λ _. HasWords (line_given line.now))
        (SaysWords (line_given line.now)) }
    ensures depot { DepotCause (D.faults depot.old) (D.faults depot.new) result }
    ensures stores { StoreBlame (D.store_faults depot.old) (D.store_faults depot.new) result }
    ensures worked { HostsHaveWorked H.inputs H.faults H.begun (line_given line.now)
        hosts.old hosts.new progress.new.ends (found_in result) }
    ensures asked { IsOrderly (found_in result) (kept_in progress.new)
        (D.calls depot.old) (D.calls depot.new) }
{
    a_script_has_one_plan();
    inputs_are_of_bytes(hosts);
    let command = read_command(alloc, line)?;
    match command.verb {
        Verb::Demo => demonstrate(rt, alloc, &command, progress),
        _ => run_script(rt, alloc, depot, hosts, command, progress),
    }
}

// What hosts tell of their inputs is of bytes.
fn inputs_are_of_bytes<H: Host>(hosts: &[H])
    ensures { AllByRecursion (λ inputs. ForSome inputs AreOfBytes) (map H.inputs hosts.now) }
{
    for host in hosts {
        host.tells_bytes();
    }
}
