ghost use Rattle.std.specs.Prelude.{◌≡◌, ◌+◌, All, IfOk, OnOk};
ghost use Rattle.pig_syntax.specs.Formed.{StmtFormed};
ghost use Rattle.pig_plan.specs.Plans.{plan_of};
ghost use Rattle.pig_check.specs.Scripts.{IfRefusedAt, IsFirstUntyped, IsPlanOf, script_of};
ghost use Rattle.pig_check.specs.States.{IsSound, nothing_yet};
ghost use Rattle.pig_check.specs.Statements.{statement_of};
ghost use Rattle.pig_check.specs.Views.{StepTells, TellsState, fault_at, state_tree};

use crate::faults::CheckFault;
use crate::lasting::Lasting;
use crate::state::{Progress, behind, extend};
use crate::statements::statement;
use pig_plan::Plan;
use pig_relations::Relations;
use pig_syntax::{Stmt, Stmts};
use pig_typing::TypeFault;
use std::alloc::Global;

/// The plan of a script: the nodes that its statements add in turn, also those that no STORE reaches, each with the
/// number of its statement.
///
/// # Errors
///
/// `Check` exactly where a statement has no typing: the number of the first such, counted from 1 with the empty
/// statements, and a kind whose condition holds of it. More than 2^32 statements or nodes are want of memory.
pub fn check(alloc: Global, stmts: &Stmts) -> Result<Plan, CheckFault>
    requires formed { All StmtFormed stmts.now }
    ensures typed { IfOk result (λ plan. IsPlanOf stmts.now (plan_of plan)) }
    ensures refused { IfRefusedAt result (IsFirstUntyped stmts.now) }
{
    match script(alloc, stmts.as_slice()) {
        Ok(state) => Ok(plan_in(state)),
        Err(fault) => Err(fault),
    }
}

fn plan_in(state: Progress) -> Plan
    ensures { result ≡ state.plan }
{
    let Progress { plan, .. } = state;
    plan
}

fn script(alloc: Global, stmts: &[Stmt]) -> Result<Progress, CheckFault>
    requires formed { All StmtFormed stmts.now }
    ensures { TellsState (script_of 1 nothing_yet stmts.now) result }
{
    let lasting = Lasting::of(alloc, stmts)?;
    let mut state = Progress {
        relations: Relations::new(alloc),
        plan: Plan::empty(alloc),
    };
    let mut number = 1;
    for stmt in stmts {
        match step(alloc, &mut state, &lasting, number, stmt) {
            Ok(()) => {}
            Err(fault) => return Err(fault),
        }
        number = behind(number)?;
    }
    Ok(state)
}

fn step(
    alloc: Global,
    state: &mut Progress,
    lasting: &Lasting,
    number: u32,
    stmt: &Stmt,
) -> Result<(), CheckFault>
    requires sound { IsSound number (state_tree state.old) }
    requires formed { StmtFormed stmt.now }
    ensures told { StepTells number (state_tree state.old)
        (statement_of (state_tree state.old) stmt.now) (state_tree state.new) result }
    ensures sound { OnOk result (IsSound (number + 1) (state_tree state.new)) }
{
    let ended = lasting.ended_by(alloc, number, stmt)?;
    let addition = match statement(alloc, state, stmt) {
        Ok(addition) => addition,
        Err(fault) => return Err(at(number, fault)),
    };
    extend(state, number, addition, ended.as_slice())?;
    Ok(())
}

fn at(number: u32, fault: TypeFault) -> CheckFault
    ensures { result ≡ fault_at number fault }
{
    match fault {
        TypeFault::Refused(kind) => CheckFault::Check {
            statement: number,
            kind,
        },
        TypeFault::OutOfMemory => CheckFault::OutOfMemory,
    }
}
