//! The verb `demo`.
ghost use Rattle.std.specs.Prelude.{◌≡◌, ◌++◌, [], IfErr, IfOk, MatchResult, None, Some};
ghost use Rattle.std.specs.List.{sum_by};
ghost use Rattle.pig_outside.specs.Memory.{depot_shelf};
ghost use Rattle.pig_outside.specs.Shelf.{parts_of};
ghost use Rattle.pig_collect.specs.Collecting.{joined};
ghost use Rattle.pig_demo.specs.Scene.{top_path};
ghost use Rattle.pig_pool.specs.Wave.{failures_in};
ghost use Rattle.pig_words.specs.CommandWords.{IsCount};
ghost use Rattle.pig_run.specs.Blame.{CommitsEach};
ghost use Rattle.pig_run.specs.Demonstration.{demo_answer, demo_text, script_run, visits_of};
ghost use Rattle.pig_run.specs.OwnRun.{DemoEnd, IsDemoFault};
ghost use Rattle.pig_run.specs.Running.{IsFresh, IsUsable, counts_in, found_in, kept_in};
ghost use Rattle.pig_run.specs.declared.outcome.RunFault.TheVariants as fault;

use crate::progress::Progress;
use crate::running::{counts_of, run_script};
use crate::texts::top_bytes;
use crate::{RunFault, TooLarge};
use pig_check::a_script_has_one_plan;
use pig_demo::{OwnDepot, SCRIPT_PATH, TOP_PATH, own_hosts};
use pig_params::Params;
use pig_value::{Blob, Text};
use pig_words::{Command, Verb};
use std::alloc::{AllocError, Global};
use std::thread::Threads;

// The number of visits that a command asks for.
fn visits_of(command: &Command) -> u32
    requires { IsCount command.now.operand }
    ensures { result ≡ visits_of command.now }
{
    let Ok(visits) = command.operand.as_str().parse() else {
        unreachable!();
    };
    visits
}

// The run of the demonstration's script, with the numbers of a command and no parameters.
fn script_run(alloc: Global, command: &Command) -> Result<Command, AllocError>
    ensures { IfOk result (λ run. run ≡ script_run command.now) }
{
    Ok(Command {
        verb: Verb::Run,
        operand: Text::from_str(alloc, SCRIPT_PATH)?,
        workers: command.workers,
        reducers: command.reducers,
        split: command.split,
        attempts: command.attempts,
        params: Params::new(alloc),
    })
}

// What is answered of how the run ended badly.
fn demo_fault(fault: &RunFault) -> RunFault
    ensures answer { Some result ≡ demo_answer (Some fault.now) }
    ensures kind { IsDemoFault result }
{
    match fault {
        RunFault::TooLarge {
            which: TooLarge::Tasks,
        } => RunFault::TooLarge {
            which: TooLarge::Tasks,
        },
        // No run of this script ends otherwise.
        _ => RunFault::OutOfMemory,
    }
}

// The text of what the run has stored, and of its numbers.
fn print_top(alloc: Global, depot: &OwnDepot, progress: &Progress) -> Result<Blob, RunFault>
    ensures { MatchResult result
        (λ text. text ≡ demo_text (depot_shelf depot.now) (counts_in progress.now) None)
        (λ f. f ≡ fault.OutOfMemory) }
{
    let text = top_bytes(alloc, depot.dir(TOP_PATH), &counts_of(progress))?;
    Ok(Blob::from_vec(text))
}

// Runs the script of the demonstration over devices of its own, and answers the text of what it stored.
pub fn demonstrate<R: Threads + Sync>(
    rt: &R,
    alloc: Global,
    command: &Command,
    progress: &mut Progress,
) -> Result<Blob, RunFault>
    requires count { IsCount command.now.operand }
    requires usable { IsUsable 256 command.now }
    requires fresh { IsFresh progress.old }
    ensures told { DemoEnd command.now progress.new result }
    ensures fault { IfErr result IsDemoFault }
    ensures none_failed { sum_by failures_in progress.new.ends ≡ 0 }
    ensures committed { CommitsEach (found_in result) progress.new.ends }
    ensures kept { kept_in progress.new ≡ [] }
{
    a_script_has_one_plan();
    let visits = visits_of(command);
    let mut depot = OwnDepot::new(alloc, visits)?;
    let mut hosts = own_hosts(alloc, visits, command.workers)?;
    let run = script_run(alloc, command)?;
    let end = run_script(rt, alloc, &mut depot, hosts.as_mut_slice(), run, progress);
    if !progress.kept.is_empty() {
        // The script has no bare LIMIT, so this is never so.
        *progress = Progress::new(alloc);
        return Err(RunFault::OutOfMemory);
    }
    progress.said = Vec::new(alloc);
    match end {
        Ok(_) => print_top(alloc, &depot, progress),
        Err(fault) => Err(demo_fault(&fault)),
    }
}
