ghost use Rattle.std.specs.Prelude.{◌≡◌, ◌≤◌, ◌&&◌, [], List, Some, None, length, map, All, if◌then◌else◌};
ghost use Rattle.pig_outside.specs.Calls.{DepotCall};
ghost use Rattle.pig_outside.specs.Shelf.{Shelf};
ghost use Rattle.pig_run.specs.Decided.{IsDecided};
ghost use Rattle.pig_run.specs.Demonstration.{DemoedOf};
ghost use Rattle.pig_run.specs.Due.{IsDue, IsNoDemo, Line};
ghost use Rattle.pig_run.specs.Ends.{Shown, console_seen, counts_shown, is_unmet, is_wanting, unshown};
ghost use Rattle.pig_run.specs.Reading.{Verdict};
ghost use Rattle.pig_run.specs.Refusals.{status_of};
ghost use Rattle.pig_run.specs.Running.{end_text, found_in};
ghost use Rattle.pig_run.specs.Texts.{fault_text};
ghost use Rattle.pig_run.specs.Blame.{BlamesConsole, BlamesDepot, BlamesLookUp, BlamesStore, CommitsEach, ConsoleIsTold, HostsHaveWorked, OffIsUsage, ShowFailures, Untouched, UsageIsOff};
ghost use Rattle.pig_run.specs.Orderly.{IsOrderly};
ghost use Rattle.pig_run.specs.Told.{AllTell, TellsOf, ToldOf, line_of, seen};

use crate::commands::run;
use crate::line::CommandLine;
use crate::progress::Progress;
use crate::running::counts_of;
use crate::texts::fault_bytes;
use crate::{Counts, Outcome, RunFault};
use pig_check::a_script_has_one_plan;
use pig_outside::{Console, Depot, Host, OutsideError};
use pig_value::{Blob, KeptList, Words};
use std::alloc::Global;
use std::thread::Threads;

// The text of want of memory, which takes none.
const NO_MEMORY: &str = "pig: out of memory\n";

// Prints the text of what was found, and answers what it then is.
fn show<C: Console>(console: &mut C, text: &[u8], found: Option<RunFault>) -> Option<RunFault>
    ensures shown { Shown text.now
        (record { text = C.text console.old; faults = C.faults console.old })
        (record { text = C.text console.new; faults = C.faults console.new }) found result }
    ensures later { C.faults console.old ≤ C.faults console.new }
{
    match console.write(text) {
        Ok(()) => found,
        Err(OutsideError::Failed) => Some(unshown(found)),
        Err(OutsideError::OutOfMemory) => Some(RunFault::OutOfMemory),
    }
}

// The answer where the console failed.
fn unshown(found: Option<RunFault>) -> RunFault
    ensures { result ≡ unshown found }
{
    match found {
        Some(fault) => fault,
        None => RunFault::ConsoleFault,
    }
}

// Prints the text of a fault, with what is said behind its line, and answers what it then is.
fn show_fault<C: Console>(
    alloc: Global,
    console: &mut C,
    fault: RunFault,
    said: &[u8],
) -> Option<RunFault>
    ensures shown { Shown (fault_text said.now fault)
        (record { text = C.text console.old; faults = C.faults console.old })
        (record { text = C.text console.new; faults = C.faults console.new }) (Some fault) result }
    ensures later { C.faults console.old ≤ C.faults console.new }
{
    match fault_bytes(alloc, &fault, said) {
        Ok(text) => show(console, text.as_slice(), Some(fault)),
        Err(_) => show(console, NO_MEMORY.as_bytes(), Some(RunFault::OutOfMemory)),
    }
}

// Prints the text of how a run ended, and answers what it then is.
fn show_end<C: Console>(
    alloc: Global,
    console: &mut C,
    end: Result<Blob, RunFault>,
    said: &[u8],
) -> Option<RunFault>
    ensures shown { Shown (end_text said.now end)
        (record { text = C.text console.old; faults = C.faults console.old })
        (record { text = C.text console.new; faults = C.faults console.new })
        (found_in end) result }
    ensures later { C.faults console.old ≤ C.faults console.new }
{
    match end {
        Ok(text) => show(console, text.as_slice(), None),
        Err(fault) => show_fault(alloc, console, fault, said),
    }
}

// The exit status of an answer.
fn status(fault: &Option<RunFault>) -> u8
    ensures { result ≡ status_of fault.now }
{
    match fault {
        Some(fault) => fault.status(),
        None => 0,
    }
}

// The numbers of an answer, by those of the run.
fn counts_shown(fault: &Option<RunFault>, counts: Counts) -> Counts
    ensures { result ≡ counts_shown fault.now counts }
{
    match fault {
        None | Some(RunFault::ConsoleFault) => counts,
        _ => Counts::none(),
    }
}

// Whether a run ended with an ASSERT that is not met.
fn is_unmet(end: &Result<Blob, RunFault>) -> bool
    ensures { result ≡ is_unmet (found_in end.now) }
{
    match end {
        Err(RunFault::AssertFailed { .. }) => true,
        _ => false,
    }
}

// Whether memory was wanting.
fn is_wanting(fault: &Option<RunFault>) -> bool
    ensures { result ≡ is_wanting fault.now }
{
    match fault {
        Some(RunFault::OutOfMemory) => true,
        _ => false,
    }
}

// Whether memory was wanting for saying which ASSERT is not met.
fn is_hidden(unmet: bool, fault: &Option<RunFault>) -> bool
    ensures { result ≡ (unmet && is_wanting fault.now) }
{
    unmet && is_wanting(fault)
}

// What the bare LIMITs kept, where it stands and is not hidden.
fn kept_shown(alloc: Global, hidden: bool, stands: bool, kept: KeptList) -> KeptList
    ensures { result ≡ if hidden then [] else (if stands then kept else []) }
{
    if hidden {
        return KeptList::new(alloc);
    }
    if stands {
        return kept;
    }
    KeptList::new(alloc)
}

/// Does what the words say, and answers how it ended.
///
/// `words` are the program's words without its name, as [`read_words`](pig_words::read_words) takes them. The depot keeps scripts, inputs
/// and outputs. The first hosts make the attempts of tasks, each in a thread of its own, as many as the words say; the console is shown
/// one text. For `demo` the depot and the hosts are not called: it has its own.
pub fn pig_main<R: Threads + Sync, D: Depot, H: Host + Send, C: Console>(
    rt: &R,
    alloc: Global,
    words: &Words,
    depot: &mut D,
    hosts: &mut Vec<H>,
    console: &mut C,
) -> Outcome
    requires some_hosts { 1 ≤ length hosts.old.items }
    requires few_hosts { length hosts.old.items ≤ 256 }
    requires hosts_tell { All (λ h. TellsOf (D.shelf depot.old) (H.inputs h)) hosts.old.items }
    // The answer, by the words and what the depot tells, and what then stands.
    ensures told { ToldOf (line_of hosts.old.items words.now)
        (AllTell H.inputs (line_of hosts.old.items words.now) hosts.old.items)
        (seen D.shelf D.calls D.faults H.faults C.text C.faults depot.old hosts.old.items
        console.old)
        (seen D.shelf D.calls D.faults H.faults C.text C.faults depot.new hosts.new.items
        console.new) result }
    ensures demo { DemoedOf (line_of hosts.old.items words.now)
        (console_seen C.text C.faults console.old) (console_seen C.text C.faults console.new)
        result }
    ensures usage { UsageIsOff (line_of hosts.old.items words.now) result.fault }
    ensures off_words { OffIsUsage (line_of hosts.old.items words.now) result.fault }
    ensures status { result.status ≡ status_of result.fault }
    // The shelf, whether or not the depot tells it: what was asked, and when it is blamed.
    ensures orderly { IsOrderly result.fault result.kept (D.calls depot.old)
        (D.calls depot.new) }
    ensures depot_fault { BlamesDepot result.fault (D.faults depot.old) (D.faults depot.new) }
    ensures store_fault { BlamesStore result.fault (D.store_faults depot.old)
        (D.store_faults depot.new) }
    ensures lookup_fault { BlamesLookUp result.fault (D.store_faults depot.old)
        (D.store_faults depot.new) }
    ensures depot_stands { D.faults depot.old ≤ D.faults depot.new }
    // The devices that work, and the waves, whatever they tell of their inputs.
    ensures worked { HostsHaveWorked H.inputs H.faults H.begun
        (line_of hosts.old.items words.now) hosts.old.items hosts.new.items
        result.waves result.fault }
    ensures committed { CommitsEach result.fault result.waves }
    ensures failures { ShowFailures H.faults result.waves hosts.old.items hosts.new.items }
    ensures hosts { map H.inputs hosts.new.items ≡ map H.inputs hosts.old.items }
    ensures untouched { Untouched (line_of hosts.old.items words.now) depot.old depot.new
        hosts.old.items hosts.new.items }
    // The console.
    ensures console_stands { C.faults console.old ≤ C.faults console.new }
    ensures console_fault { BlamesConsole result.fault (C.faults console.old)
        (C.faults console.new) }
    ensures console_failed { ConsoleIsTold result.fault (C.faults console.old)
        (C.faults console.new) }
{
    let line = CommandLine {
        words,
        hosts: hosts.len() as u32,
    };
    let mut progress = Progress::new(alloc);
    let end = run(rt, alloc, &line, depot, hosts.as_mut_slice(), &mut progress);
    let unmet = is_unmet(&end);
    let fault = show_end(alloc, console, end, progress.said.as_slice());
    let counts = counts_shown(&fault, counts_of(&progress));
    let hidden = is_hidden(unmet, &fault);
    let Progress {
        kept,
        stands,
        ends,
        ..
    } = progress;
    Outcome {
        status: status(&fault),
        fault,
        kept: kept_shown(alloc, hidden, stands, kept),
        waves: ends,
        counts,
    }
}

/// Something is due of words that are no demonstration's, a number of hosts and a shelf, and they decide one thing: a refusal, which names
/// its statement where one has no typing, or what the command does with a plan. A `check` has one text then. The verdict of a `run` and
/// of an `explain` is one for each plan that the checked one is rewritten to, unless memory is wanting for such a plan. Up to the commits
/// the depot is asked one list of calls, and none of them makes anything.
pub fn one_verdict()
    ensures some { (line : Line) (shelf : Shelf) → IsNoDemo line
        → (calls : List DepotCall) × (verdict : Verdict) × IsDue line shelf calls verdict }
    ensures one { (line : Line) (shelf : Shelf) → IsNoDemo line
        → IsDecided line shelf (IsDue line shelf) }
{
    a_script_has_one_plan();
}
