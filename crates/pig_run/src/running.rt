ghost use Rattle.std.specs.Prelude.{◌≡◌, ◌<◌, ◌≤◌, ◌⊎◌, ◌%◌, ◌^◌, List, [], false, true, length, map, IfErr, IfOk, MatchResult};
ghost use Rattle.std.specs.Option.{ForSome};
ghost use Rattle.std.specs.List.{AllByRecursion, sum_by};
ghost use Rattle.pig_plan.specs.Plans.{PlanNode, plan_of};
ghost use Rattle.pig_physical.specs.Seen.{cut_of, staged};
ghost use Rattle.pig_cutter.specs.Limits.{has_too_many};
ghost use Rattle.pig_driver.specs.Going.{TellSizes};
ghost use Rattle.pig_rewrites.specs.Reached.{IsReached};
ghost use Rattle.pig_explain.specs.Explained.{explain_text};
ghost use Rattle.pig_run.specs.Blame.{CrewHasWorked, HaveWorked};
ghost use Rattle.pig_run.specs.Due.{CommandDue, InputsDue, NamesScript, ScriptDue, TasksDue, given_by};
ghost use Rattle.pig_run.specs.Looking.{IsAbsentIn, IsPrepared, IsReady};
ghost use Rattle.pig_run.specs.Orderly.{IsOrderly, IsOrderlyBehind, Makes};
ghost use Rattle.pig_run.specs.Reading.{IsOfScript, Run};
ghost use Rattle.pig_run.specs.Running.{IsFresh, MayBegin, RunTold, RunsTold, counts_in, found_in, kept_in};
ghost use Rattle.pig_run.specs.Steps.{LeavesDepot};
ghost use Rattle.pig_run.specs.Texts.{ok_text};
ghost use Rattle.pig_run.specs.Told.{CrewTells, TellsInputs, TellsOf};
ghost use Rattle.pig_run.specs.declared.outcome.RunFault.TheVariants as fault;
ghost use Rattle.pig_run.specs.declared.outcome.TooLarge.TheVariants as large;

use crate::finding::find;
use crate::looking::{Prepared, load_script, prepare};
use crate::progress::{Notes, Progress};
use crate::reading::Checked;
use crate::storing::{note_all, store_all};
use crate::texts::{done_bytes, ok_bytes};
use crate::{Counts, RunFault, TooLarge};
use pig_check::a_script_has_one_plan;
use pig_cutter::{CutFault, cut_plan};
use pig_explain::explain;
use pig_outside::{Depot, Host};
use pig_physical::Stages;
use pig_plan::Plan;
use pig_rewrites::rewrite;
use pig_value::Blob;
use pig_words::{Command, Verb};
use std::alloc::Global;
use std::thread::Threads;

// The number of lines of all directories, modulo 2 to the 64.
fn line_sum(notes: &Notes) -> u64
    ensures { result ≡ sum_by (λ note. note.lines) notes.now % 2 ^ 64 }
{
    let mut sum: u64 = 0;
    let mut left = notes.as_slice();
    while let [note, rest @ ..] = left {
        sum = sum.wrapping_add(note.lines);
        left = rest;
    }
    sum
}

// The numbers of a run that has come to its end.
pub fn counts_of(progress: &Progress) -> Counts
    ensures { result ≡ counts_in progress.now }
{
    Counts {
        read: progress.read,
        shuffled: progress.shuffled,
        stored: line_sum(&progress.notes),
    }
}

// Runs stages, stores what they give, and answers the text of what was done.
fn carry_out<R: Threads + Sync, D: Depot, H: Host + Send>(
    rt: &R,
    alloc: Global,
    depot: &mut D,
    hosts: &mut [H],
    prepared: &Prepared,
    stages: &Stages,
    limit: u32,
    progress: &mut Progress,
) -> Result<Blob, RunFault>
    requires hosts { (0 < length hosts.old) × (length hosts.old ≤ 256) }
    requires limit { (0 < limit) × (limit ≤ 16) }
    requires reducers { (0 < (staged stages.now).sizing.reducers)
        × ((staged stages.now).sizing.reducers ≤ 256) }
    requires split { 0 < (staged stages.now).sizing.split }
    requires few { has_too_many (staged stages.now) ≡ false }
    requires sizes { TellSizes (staged stages.now) (map H.inputs hosts.old) }
    requires prepared { IsPrepared prepared.now }
    requires plan { (staged stages.now).plan ≡ plan_of prepared.now.plan }
    requires absent { ForSome (D.shelf depot.old)
        (λ s. AllByRecursion (IsAbsentIn s) prepared.now.stores) }
    requires tells { AllByRecursion (TellsOf (D.shelf depot.old)) (map H.inputs hosts.old) }
    requires fresh { IsFresh progress.old }
    ensures told { ForSome (D.shelf depot.old) (λ s.
        RunsTold (record {
          plan = plan_of prepared.now.checked;
          stages = staged stages.now;
          limit = limit;
        }) s (AllByRecursion TellsInputs (map H.inputs hosts.old)) (D.calls depot.old)
        (D.calls depot.new) (D.shelf depot.new) progress.new result) }
    ensures worked { HaveWorked H.inputs H.faults H.begun limit hosts.old hosts.new
        progress.new.ends (found_in result) }
    ensures left { LeavesDepot D.calls D.faults D.store_faults depot.old depot.new result
        (Makes (map (λ store. store.dir) prepared.now.stores) (found_in result)
        (kept_in progress.new)) }
{
    let Prepared {
        checked,
        stores,
        ..
    } = prepared;
    let parts = find(rt, alloc, checked, stages, stores, hosts, limit, progress)?;
    let notes = note_all(alloc, &parts)?;
    progress.notes = notes;
    progress.stands = true;
    store_all(depot, &parts)?;
    let counts = counts_of(progress);
    let text = done_bytes(alloc, &progress.notes, &counts)?;
    Ok(Blob::from_vec(text))
}

// The stages that a plan is cut into, where no wave has too many tasks.
fn cut<'p>(alloc: Global, command: &Command, prepared: &'p Prepared) -> Result<Stages<'p>, RunFault>
    requires { 0 < command.now.split }
    ensures stages { IfOk result (λ stages. stages ≡ cut_of prepared.now.plan prepared.now.sizes
        command.now.reducers command.now.split) }
    ensures few { IfOk result (λ stages. has_too_many (staged (cut_of prepared.now.plan
        prepared.now.sizes command.now.reducers command.now.split)) ≡ false) }
    ensures fault { IfErr result (λ f. ((f ≡ fault.TooLarge large.Tasks)
        × (has_too_many (staged (cut_of prepared.now.plan prepared.now.sizes
        command.now.reducers command.now.split)) ≡ true)) ⊎ (f ≡ fault.OutOfMemory)) }
{
    let reducers = command.reducers;
    match cut_plan(
        alloc,
        &prepared.plan,
        &prepared.sizes,
        reducers,
        command.split,
    ) {
        Ok(stages) => Ok(stages),
        Err(CutFault::TooManyTasks) => Err(RunFault::TooLarge {
            which: TooLarge::Tasks,
        }),
        Err(CutFault::OutOfMemory) => Err(RunFault::OutOfMemory),
    }
}

// Cuts a plan into tasks, runs these, and stores what they give.
fn perform<R: Threads + Sync, D: Depot, H: Host + Send>(
    rt: &R,
    alloc: Global,
    depot: &mut D,
    hosts: &mut [H],
    command: &Command,
    prepared: &Prepared,
    progress: &mut Progress,
) -> Result<Blob, RunFault>
    requires begins { MayBegin D.shelf H.inputs depot.old hosts.old command.now progress.old }
    requires prepared { IsPrepared prepared.now }
    requires ready { ForSome (D.shelf depot.old) (λ s. IsReady s prepared.now) }
    ensures told { ForSome (D.shelf depot.old) (λ s.
        RunTold (TasksDue command.now s (plan_of prepared.now.checked)) s
        (AllByRecursion TellsInputs (map H.inputs hosts.old)) (D.calls depot.old)
        (D.calls depot.new) (D.shelf depot.new) progress.new result) }
    ensures worked { HaveWorked H.inputs H.faults H.begun command.now.attempts
        hosts.old hosts.new progress.new.ends (found_in result) }
    ensures left { LeavesDepot D.calls D.faults D.store_faults depot.old depot.new result
        (Makes (map (λ store. store.dir) prepared.now.stores) (found_in result)
        (kept_in progress.new)) }
{
    let stages = cut(alloc, command, prepared)?;
    let limit = command.attempts;
    carry_out(rt, alloc, depot, hosts, prepared, &stages, limit, progress)
}

// Looks for what stands in the way of a plan, and runs it.
fn run_plan<R: Threads + Sync, D: Depot, H: Host + Send>(
    rt: &R,
    alloc: Global,
    depot: &mut D,
    hosts: &mut [H],
    command: &Command,
    plan: Plan,
    progress: &mut Progress,
) -> Result<Blob, RunFault>
    requires begins { MayBegin D.shelf H.inputs depot.old hosts.old command.now progress.old }
    requires of_script { IsOfScript (plan_of plan) }
    ensures told { ForSome (D.shelf depot.old) (λ s.
        RunTold (InputsDue command.now s (plan_of plan)) s
        (AllByRecursion TellsInputs (map H.inputs hosts.old)) (D.calls depot.old)
        (D.calls depot.new) (D.shelf depot.new) progress.new result) }
    ensures worked { HaveWorked H.inputs H.faults H.begun command.now.attempts
        hosts.old hosts.new progress.new.ends (found_in result) }
    ensures left { LeavesDepot D.calls D.faults D.store_faults depot.old depot.new result
        (IsOrderlyBehind (found_in result) (kept_in progress.new)) }
{
    let prepared = prepare(alloc, depot, plan)?;
    perform(rt, alloc, depot, hosts, command, &prepared, progress)
}

// Runs a plan on the first hosts, as many as the command says.
fn run_on_crew<R: Threads + Sync, D: Depot, H: Host + Send>(
    rt: &R,
    alloc: Global,
    depot: &mut D,
    hosts: &mut [H],
    command: &Command,
    plan: Plan,
    progress: &mut Progress,
) -> Result<Blob, RunFault>
    requires begins { MayBegin D.shelf H.inputs depot.old hosts.old command.now progress.old }
    requires of_script { IsOfScript (plan_of plan) }
    ensures told { ForSome (D.shelf depot.old) (λ s.
        RunTold (InputsDue command.now s (plan_of plan)) s
        (CrewTells H.inputs command.now hosts.old) (D.calls depot.old)
        (D.calls depot.new) (D.shelf depot.new) progress.new result) }
    ensures worked { CrewHasWorked H.inputs H.faults H.begun command.now hosts.old hosts.new
        progress.new.ends (found_in result) }
    ensures left { LeavesDepot D.calls D.faults D.store_faults depot.old depot.new result
        (IsOrderlyBehind (found_in result) (kept_in progress.new)) }
{
    let (crew, _idle) = hosts.split_at_mut(command.workers as usize);
    run_plan(rt, alloc, depot, crew, command, plan, progress)
}

// The text of a script that was checked, of so many statements.
fn print_check(alloc: Global, statements: u64) -> Result<Blob, RunFault>
    ensures { MatchResult result (λ text. text ≡ ok_text statements) (λ f. f ≡ fault.OutOfMemory) }
{
    let text = ok_bytes(alloc, statements)?;
    Ok(Blob::from_vec(text))
}

// The text of a plan as it was checked and as it was rewritten, and of its waves.
fn print_explain(alloc: Global, plan: &Plan) -> Result<Blob, RunFault>
    requires of_script { IsOfScript (plan_of plan.now) }
    ensures { MatchResult result
        (λ text. ((cut : List PlanNode) × IsReached (plan_of plan.now) cut
        × (text ≡ explain_text (plan_of plan.now) cut)))
        (λ f. f ≡ fault.OutOfMemory) }
{
    let cut = rewrite(alloc, plan)?;
    let mut text = Vec::new(alloc);
    explain(plan, &cut, &mut text)?;
    Ok(Blob::from_vec(text))
}

// A command, and the script that it names, which was checked.
#[derive(Drop)]
struct Request {
    command: Command,
    checked: Checked,
}

// Does with a script that was checked what the command says.
fn obey<R: Threads + Sync, D: Depot, H: Host + Send>(
    rt: &R,
    alloc: Global,
    depot: &mut D,
    hosts: &mut [H],
    request: Request,
    progress: &mut Progress,
) -> Result<Blob, RunFault>
    requires begins { MayBegin D.shelf H.inputs depot.old hosts.old request.command progress.old }
    requires scripted { NamesScript request.command.verb }
    requires of_script { IsOfScript (plan_of request.checked.plan) }
    ensures told { ForSome (D.shelf depot.old) (λ s. RunTold (CommandDue request.command s
        request.checked.statements (plan_of request.checked.plan)) s
        (CrewTells H.inputs request.command hosts.old) (D.calls depot.old)
        (D.calls depot.new) (D.shelf depot.new) progress.new result) }
    ensures worked { CrewHasWorked H.inputs H.faults H.begun request.command hosts.old hosts.new
        progress.new.ends (found_in result) }
    ensures left { LeavesDepot D.calls D.faults D.store_faults depot.old depot.new result
        (IsOrderlyBehind (found_in result) (kept_in progress.new)) }
{
    let Request { command, checked } = request;
    let Checked { plan, statements } = checked;
    match command.verb {
        Verb::Run => run_on_crew(rt, alloc, depot, hosts, &command, plan, progress),
        Verb::Check => print_check(alloc, statements),
        Verb::Explain => print_explain(alloc, &plan),
        // It names no script.
        Verb::Demo => Err(RunFault::OutOfMemory),
    }
}

// Reads the script that a command names, and does with it what the command says.
pub fn run_script<R: Threads + Sync, D: Depot, H: Host + Send>(
    rt: &R,
    alloc: Global,
    depot: &mut D,
    hosts: &mut [H],
    command: Command,
    progress: &mut Progress,
) -> Result<Blob, RunFault>
    requires begins { MayBegin D.shelf H.inputs depot.old hosts.old command progress.old }
    requires scripted { NamesScript command.verb }
    ensures told { ForSome (D.shelf depot.old) (λ s.
        RunTold (ScriptDue (given_by command) command.operand s (CommandDue command s)) s
        (CrewTells H.inputs command hosts.old) (D.calls depot.old)
        (D.calls depot.new) (D.shelf depot.new) progress.new result) }
    ensures worked { CrewHasWorked H.inputs H.faults H.begun command hosts.old hosts.new
        progress.new.ends (found_in result) }
    ensures left { LeavesDepot D.calls D.faults D.store_faults depot.old depot.new result
        (IsOrderly (found_in result) (kept_in progress.new)) }
{
    a_script_has_one_plan();
    let checked = load_script(alloc, depot, &command)?;
    let request = Request { command, checked };
    obey(rt, alloc, depot, hosts, request, progress)
}
