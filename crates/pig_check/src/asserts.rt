ghost use Rattle.std.specs.Prelude.{◌≡◌, IfOk};
ghost use Rattle.pig_typed.specs.Typed.{typed};
ghost use Rattle.pig_typing.specs.Results.{Tells};
ghost use Rattle.pig_relations.specs.Aliases.{relation_tree};
ghost use Rattle.pig_check.specs.Statements.{assert_of, asserted};
ghost use Rattle.pig_check.specs.Views.{added_tree, state_tree};

use crate::operators::condition;
use crate::state::{Addition, Progress, next_number};
use crate::statements::assigned;
use pig_plan::NodeOp;
use pig_relations::{Relation, TypedOp};
use pig_syntax::Expr;
use pig_typed::TExpr;
use pig_typing::TypeFault;
use pig_value::Text;
use std::alloc::{AllocError, Global};

// ASSERT, which gives its alias anew with the columns that it had.
#[tactic(auto, unfolding(crate::specs::Statements::assert_of))]
pub fn assert(
    alloc: Global,
    state: &Progress,
    from: &Text,
    cond: &Expr,
    message: &Option<Text>,
) -> Result<Addition, TypeFault>
    ensures { Tells added_tree (assert_of (state_tree state.now) from.now cond.now message.now)
        result }
{
    let next = next_number(&state.plan)?;
    let relation = state.relations.find(from)?;
    let cond = condition(alloc, relation.columns.get()?, cond)?;
    Ok(asserted(alloc, next, from, relation, cond, message)?)
}

fn asserted(
    alloc: Global,
    next: u32,
    alias: &Text,
    relation: &Relation,
    cond: TExpr,
    message: &Option<Text>,
) -> Result<Addition, AllocError>
    ensures { IfOk result (λ a. added_tree a
        ≡ asserted next alias.now (relation_tree relation.now) (typed cond) message.now) }
{
    let message = copy_message(alloc, message)?;
    let columns = relation.columns.share()?;
    let input = relation.node;
    let op = NodeOp::Assert {
        input,
        cond,
        message,
    };
    assigned(alloc, next, alias, TypedOp { op, columns })
}

fn copy_message(alloc: Global, message: &Option<Text>) -> Result<Option<Text>, AllocError>
    ensures { IfOk result (λ c. c ≡ message.now) }
{
    match message {
        Some(text) => Ok(Some(text.copy(alloc)?)),
        None => Ok(None),
    }
}
