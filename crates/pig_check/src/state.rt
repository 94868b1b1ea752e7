ghost use Rattle.std.specs.Prelude.{◌≡◌, ◌+◌, ◌++◌, IfOk, Ok, OnOk, length, map};
ghost use Rattle.pig_plan.specs.Plans.{op_of, plan_of};
ghost use Rattle.pig_relations.specs.Aliases.{aliases_of};
ghost use Rattle.pig_typing.specs.Results.{Tells};
ghost use Rattle.pig_check.specs.States.{AllFit, after, node_of_statement};
ghost use Rattle.pig_check.specs.Views.{added_tree, state_tree};

use pig_plan::{Node, NodeOp, Plan};
use pig_relations::{Named, Relations};
use pig_typing::TypeFault;
use pig_value::{Seq, Text};
use std::alloc::AllocError;

// Operators of nodes that are not yet in a plan.
pub type NodeOps = Seq<NodeOp>;
// Relations with their aliases.
pub type GivenRelations = Seq<Named>;

// What stands before a statement: the relations that aliases mean, and the nodes so far.
#[derive(Drop)]
pub struct Progress {
    pub relations: Relations,
    pub plan: Plan,
}

// What a statement adds: the operators of its nodes in turn, and the relations that it gives.
#[derive(Drop)]
pub struct Addition {
    pub ops: NodeOps,
    pub given: GivenRelations,
}

// The number of the next node. No plan has more nodes than a u32 counts.
pub fn next_number(plan: &Plan) -> Result<u32, TypeFault>
    ensures { Tells (λ n. n) (Ok (length plan.now)) result }
{
    match u32::try_from(plan.nodes().len()) {
        Ok(number) => Ok(number),
        Err(_) => Err(TypeFault::OutOfMemory),
    }
}

// The next number.
pub fn behind(number: u32) -> Result<u32, AllocError>
    ensures { IfOk result (λ next. next ≡ number + 1) }
{
    match number.checked_add(1) {
        Some(next) => Ok(next),
        None => Err(AllocError),
    }
}

// Adds to the state what a statement of this number adds. The columns of what these aliases mean behind it can go.
pub fn extend(
    state: &mut Progress,
    statement: u32,
    addition: Addition,
    ended: &[&Text],
) -> Result<(), AllocError>
    requires { AllFit statement (plan_of state.old.plan) (map op_of addition.ops) }
    ensures { OnOk result (state_tree state.new
        ≡ after statement (state_tree state.old) (added_tree addition)) }
{
    let Addition { ops, given } = addition;
    add_all(&mut state.plan, statement, ops)?;
    put_all(&mut state.relations, given)?;
    let_go_all(&mut state.relations, ended)
}

fn let_go_all(relations: &mut Relations, aliases: &[&Text]) -> Result<(), AllocError>
    ensures { relations.new ≡ relations.old }
{
    for alias in aliases {
        relations.let_go(*alias)?;
    }
    Ok(())
}

fn add_all(plan: &mut Plan, statement: u32, ops: NodeOps) -> Result<(), AllocError>
    requires { AllFit statement (plan_of plan.old) (map op_of ops) }
    ensures { OnOk result (plan_of plan.new
        ≡ plan_of plan.old ++ map (node_of_statement statement) (map op_of ops)) }
{
    for op in ops.into_vec() {
        plan.add(Node { op, statement })?;
    }
    Ok(())
}

fn put_all(relations: &mut Relations, given: GivenRelations) -> Result<(), AllocError>
    ensures { OnOk result (aliases_of relations.new
        ≡ aliases_of relations.old ++ aliases_of given) }
{
    for named in given.into_vec() {
        let Named { alias, relation } = named;
        relations.put(&alias, relation)?;
    }
    Ok(())
}
