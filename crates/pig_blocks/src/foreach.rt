ghost use Rattle.std.specs.Prelude.{IfOk};
ghost use Rattle.pig_schema.specs.FieldTrees.{schema_tree};
ghost use Rattle.pig_items.specs.Items.{items_of};
ghost use Rattle.pig_typing.specs.Results.{IfRefused, Tells};
ghost use Rattle.pig_items.specs.Views.{generated_tree};
ghost use Rattle.pig_blocks.specs.Foreach.{ForeachFaults, TypesForeach, foreach_of, within_row};
ghost use Rattle.pig_blocks.specs.Steps.{place_behind};
ghost use Rattle.pig_blocks.specs.Views.{foreach_tree, stepped_tree};

use crate::steps::{Stepped, all_steps};
use pig_items::{Generated, type_items};
use pig_schema::Schema;
use pig_syntax::{Item, Step};
use pig_typed::Block;
use pig_typing::{Scope, TypeFault, row_within_limits};
use std::alloc::Global;

/// A typed block, and the columns of the rows that it generates.
#[derive(Debug, Drop)]
pub struct TypedForeach {
    pub block: Block,
    pub columns: Schema,
}

/// The typing of a FOREACH over a row of these columns: of its nested steps in turn, each of which sees those before
/// it, and of the items of its GENERATE over the row and all steps. A nested alias hides a field of its name.
///
/// # Errors
///
/// `Refused` exactly where there is none, with a kind whose condition holds.
pub fn type_foreach(
    alloc: Global,
    steps: &[Step],
    items: &[Item],
    columns: &Schema,
) -> Result<TypedForeach, TypeFault>
    ensures typed { IfOk result (λ f. TypesForeach (schema_tree columns.now) steps.now items.now
        (foreach_tree f)) }
    ensures refused { IfRefused result (ForeachFaults (schema_tree columns.now)
        steps.now items.now) }
    ensures told { Tells foreach_tree
        (foreach_of (schema_tree columns.now) steps.now items.now) result }
{
    foreach_told(alloc, steps, items, columns)
}

#[tactic(auto, unfolding(crate::specs::Foreach::foreach_of))]
fn foreach_told(
    alloc: Global,
    steps: &[Step],
    items: &[Item],
    columns: &Schema,
) -> Result<TypedForeach, TypeFault>
    ensures { Tells foreach_tree
        (foreach_of (schema_tree columns.now) steps.now items.now) result }
{
    let so_far = all_steps(alloc, steps, columns)?;
    let generated = generated(alloc, items, &so_far)?;
    within_row(alloc, so_far, generated)
}

// The items, which see the row and all steps.
fn generated(alloc: Global, items: &[Item], so_far: &Stepped) -> Result<Generated, TypeFault>
    ensures { Tells generated_tree (items_of (place_behind (stepped_tree so_far.now))
        items.now) result }
{
    let scope = Scope {
        columns: so_far.columns,
        locals: &so_far.locals,
    };
    type_items(alloc, items, &scope)
}

#[tactic(auto, unfolding(crate::specs::Foreach::within_row))]
fn within_row(
    alloc: Global,
    so_far: Stepped,
    generated: Generated,
) -> Result<TypedForeach, TypeFault>
    ensures { Tells foreach_tree
        (within_row (stepped_tree so_far.entry) (generated_tree generated)) result }
{
    let Generated { items, columns } = generated;
    row_within_limits(alloc, &columns)?;
    let steps = so_far.steps;
    let block = Block { steps, items };
    Ok(TypedForeach { block, columns })
}
