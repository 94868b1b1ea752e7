//! What the waves of stages give a run to store.
ghost use Rattle.std.specs.Prelude.{◌≡◌, ◌≢◌, ◌<◌, ◌≤◌, [], false, length, map, IfOk, MatchResult};
ghost use Rattle.std.specs.List.{AllByRecursion};
ghost use Rattle.std.specs.Option.{option_copied};
ghost use Rattle.pig_plan.specs.Plans.{node_of, op_of, plan_of};
ghost use Rattle.pig_reach.specs.Reach.{stores_of};
ghost use Rattle.pig_physical.specs.Handed.{outs_of};
ghost use Rattle.pig_physical.specs.Seen.{staged};
ghost use Rattle.pig_physical.specs.Stages.{heads};
ghost use Rattle.pig_cutter.specs.Limits.{has_too_many};
ghost use Rattle.pig_driver.specs.Going.{AreWon, TellSizes};
ghost use Rattle.pig_driver.specs.Left.{IsOver};
ghost use Rattle.pig_run.specs.Blame.{HaveWorked};
ghost use Rattle.pig_run.specs.Running.{EndsFinding, HasFailedAssert, HasFound, IsFresh, WavesEnd, found_in};
ghost use Rattle.pig_run.specs.Steps.{stages_fault_of};
ghost use Rattle.pig_run.specs.Texts.{assert_message, asserts_at, message_in, said};

use crate::progress::Progress;
use crate::{RunFault, Waves};
use pig_collect::{
    Collected, collect, runs_read_lines, runs_tell_the_first_unmet, what_is_left_tells_the_same,
};
use pig_commit::StoreParts;
use pig_counts::entries_are_due;
use pig_cutter::stages_give_meaning;
use pig_driver::{Ran, StagesFault, few_tasks_fit, run_stages};
use pig_outside::Host;
use pig_physical::Stages;
use pig_plain::answers_are_stored_lines;
use pig_plan::{Node, NodeOp, Plan};
use pig_reach::{Store, Stores};
use pig_value::Text;
use std::alloc::{AllocError, Global};
use std::thread::Threads;

fn stages_fault(fault: StagesFault) -> RunFault
    ensures { result ≡ stages_fault_of fault }
{
    match fault {
        StagesFault::TaskFailed { wave, task, failed } => {
            RunFault::TaskFailed { wave, task, failed }
        }
        StagesFault::OutOfMemory => RunFault::OutOfMemory,
    }
}

// Runs the waves of stages on hosts.
fn run_waves<R: Threads + Sync, H: Host + Send>(
    rt: &R,
    alloc: Global,
    stages: &Stages,
    hosts: &mut [H],
    limit: u32,
    ends: &mut Waves,
) -> Result<Ran, RunFault>
    requires hosts { (0 < length hosts.old) × (length hosts.old ≤ 256) }
    requires limit { (0 < limit) × (limit ≤ 16) }
    requires reducers { (0 < (staged stages.now).sizing.reducers)
        × ((staged stages.now).sizing.reducers ≤ 256) }
    requires few { has_too_many (staged stages.now) ≡ false }
    requires sizes { TellSizes (staged stages.now) (map H.inputs hosts.old) }
    requires none { ends.old ≡ [] }
    ensures run { IfOk result (λ ran. IsOver (staged stages.now)
        (map H.inputs hosts.old) (outs_of ran.outs) ran.shuffled) }
    ensures ended { MatchResult result
        (λ _. AreWon (staged stages.now) ends.new (length (heads (staged stages.now).plan)))
        (WavesEnd limit (staged stages.now) ends.new) }
    ensures worked { HaveWorked H.inputs H.faults H.begun limit hosts.old hosts.new ends.new
        (found_in result) }
{
    few_tasks_fit();
    stages.plan().nodes();
    match run_stages(rt, alloc, stages, hosts, limit, ends) {
        Ok(ran) => Ok(ran),
        Err(fault) => Err(stages_fault(fault)),
    }
}

// That no STORE's delimiter is an LF, as its type says.
fn know_delimiters(stores: &[Store])
    ensures { AllByRecursion (λ store. store.delim ≢ 10) stores.now }
{
    for store in stores {
        store.delim.byte();
    }
}

// What the waves of stages give to store, for a checked plan whose ASSERTs have their messages. In `progress` stands how far they came, what was kept, and the numbers.
pub fn find<R: Threads + Sync, H: Host + Send>(
    rt: &R,
    alloc: Global,
    checked: &Plan,
    stages: &Stages,
    stores: &Stores,
    hosts: &mut [H],
    limit: u32,
    progress: &mut Progress,
) -> Result<StoreParts, RunFault>
    requires hosts { (0 < length hosts.old) × (length hosts.old ≤ 256) }
    requires limit { (0 < limit) × (limit ≤ 16) }
    requires reducers { (0 < (staged stages.now).sizing.reducers)
        × ((staged stages.now).sizing.reducers ≤ 256) }
    requires split { 0 < (staged stages.now).sizing.split }
    requires few { has_too_many (staged stages.now) ≡ false }
    requires sizes { TellSizes (staged stages.now) (map H.inputs hosts.old) }
    requires stores { stores.now ≡ stores_of (staged stages.now).plan }
    requires fresh { IsFresh progress.old }
    ensures told { MatchResult result
        (λ parts. HasFound (staged stages.now) limit (map H.inputs hosts.old) stores.now parts
        progress.new)
        (EndsFinding (plan_of checked.now) (staged stages.now) limit (map H.inputs hosts.old)
        progress.new) }
    ensures worked { HaveWorked H.inputs H.faults H.begun limit hosts.old hosts.new
        progress.new.ends (found_in result) }
    ensures notes { progress.new.notes ≡ [] }
{
    stages_give_meaning();
    runs_read_lines();
    runs_tell_the_first_unmet();
    entries_are_due();
    answers_are_stored_lines();
    stages.plan().nodes();
    know_delimiters(stores.as_slice());
    what_is_left_tells_the_same();
    let ran = run_waves(rt, alloc, stages, hosts, limit, &mut progress.ends)?;
    let Ran { outs, shuffled } = ran;
    let collected = collect(alloc, stages, stores.as_slice(), outs)?;
    let Collected {
        parts,
        kept,
        read,
        unmet,
    } = collected;
    progress.kept = kept;
    progress.read = read;
    progress.shuffled = shuffled;
    match unmet {
        Some(statement) => Err(fail_assert(alloc, checked, statement, progress)),
        None => Ok(parts),
    }
}

// The fault of an ASSERT that is not met, whose message is said behind its line.
fn fail_assert(alloc: Global, plan: &Plan, statement: u32, progress: &mut Progress) -> RunFault
    ensures { HasFailedAssert (plan_of plan.now) statement progress.old progress.new result }
{
    match message_said(alloc, plan, statement) {
        Ok(said) => {
            progress.said = said;
            progress.stands = true;
            RunFault::AssertFailed { statement }
        }
        Err(_) => RunFault::OutOfMemory,
    }
}

// What is said of an ASSERT behind its line.
fn message_said(alloc: Global, plan: &Plan, statement: u32) -> Result<Vec<u8>, AllocError>
    ensures { IfOk result (λ text. text.items
        ≡ said (assert_message (plan_of plan.now) statement)) }
{
    let mut text = Vec::new(alloc);
    if let Some(message) = assert_message(plan.nodes().as_slice(), statement) {
        text.extend_from_slice(b": ")?;
        text.extend_from_slice(message.as_bytes())?;
    }
    Ok(text)
}

fn assert_message(nodes: &[Node], statement: u32) -> Option<&Text>
    ensures { option_copied result ≡ assert_message (plan_of nodes.now) statement }
{
    let mut left = nodes;
    while let [node, rest @ ..] = left {
        if asserts_at(node, statement) {
            return message_in(&node.op);
        }
        left = rest;
    }
    None
}

fn asserts_at(node: &Node, statement: u32) -> bool
    ensures { result ≡ asserts_at statement (node_of node.now) }
{
    node.statement == statement && matches!(&node.op, NodeOp::Assert { .. })
}

fn message_in(op: &NodeOp) -> Option<&Text>
    ensures { option_copied result ≡ message_in (op_of op.now) }
{
    match op {
        NodeOp::Assert { message, .. } => message.as_ref(),
        _ => None,
    }
}
