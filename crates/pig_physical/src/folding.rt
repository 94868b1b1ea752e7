//! Which nodes of a plan combine, and what they fold into.
ghost use Rattle.std.specs.Prelude.{◌≡◌, Some, None, get_or, IfOk};
ghost use Rattle.std.specs.Option.{is_some, option_map};
ghost use Rattle.pig_typed.specs.Typed.{block_typed};
ghost use Rattle.pig_algebra.specs.Cuts.{is_combinable};
ghost use Rattle.pig_plan.specs.Nodes.{op_at};
ghost use Rattle.pig_plan.specs.Plans.{op_of, plan_of};
ghost use Rattle.pig_physical.specs.Combining.{block_at, block_on, combines, folds, groups_one};
ghost use Rattle.pig_physical.specs.Foldings.{AreFolders, IsFolder};
ghost use Rattle.pig_physical.specs.Naming.{AreNamings, block_by, user_of};

use crate::namings::{Naming, naming_at, namings};
use pig_algebra::combinable;
use pig_plan::{Node, NodeOp, Plan, live_numbers};
use pig_typed::Block;
use pig_value::Seq;
use std::alloc::{AllocError, Global};

/// Which nodes fold, by a mark for each, and the number of the FOREACH that each of these folds into.
#[derive(Drop)]
pub struct Folders {
    pub marks: Seq<bool>,
    pub users: Seq<Option<usize>>,
}

/// Which nodes of a plan fold, and into which.
pub fn which_fold(alloc: Global, plan: &Plan) -> Result<Folders, AllocError>
    ensures { IfOk result (AreFolders (plan_of plan.now)) }
{
    let live = live_numbers(alloc, plan)?;
    let nodes = plan.nodes().as_slice();
    let namings = namings(alloc, nodes, live.as_slice())?;
    list_folders(alloc, nodes, namings.as_slice())
}

fn list_folders(alloc: Global, nodes: &[Node], namings: &[Naming]) -> Result<Folders, AllocError>
    requires { AreNamings (plan_of nodes.now) namings.now }
    ensures { IfOk result (AreFolders (plan_of nodes.now)) }
{
    let mut marks = Seq::new(alloc);
    let mut users = Seq::new(alloc);
    for number in 0..nodes.len() {
        let user = folder_at(alloc, nodes, namings, number)?;
        marks.push(user.is_some())?;
        users.push(user)?;
    }
    Ok(Folders { marks, users })
}

fn folder_at(
    alloc: Global,
    nodes: &[Node],
    namings: &[Naming],
    number: usize,
) -> Result<Option<usize>, AllocError>
    requires { AreNamings (plan_of nodes.now) namings.now }
    ensures { IfOk result (IsFolder (plan_of nodes.now) number) }
{
    match nodes.get(number) {
        Some(node) => folder_of(alloc, nodes, namings, number, &node.op),
        None => Ok(None),
    }
}

fn folder_of(
    alloc: Global,
    nodes: &[Node],
    namings: &[Naming],
    number: usize,
    op: &NodeOp,
) -> Result<Option<usize>, AllocError>
    requires namings { AreNamings (plan_of nodes.now) namings.now }
    requires op { op_at (plan_of nodes.now) number ≡ Some (op_of op.now) }
    ensures { IfOk result (IsFolder (plan_of nodes.now) number) }
{
    if !folds(alloc, nodes, namings, number, op)? {
        return Ok(None);
    }
    Ok(user_of(naming_at(namings, number)))
}

fn user_of(naming: Naming) -> Option<usize>
    ensures { result ≡ user_of naming }
{
    match naming {
        Naming::Never => None,
        Naming::Once(user) => Some(user),
        Naming::Often => None,
    }
}

// The block that a node folds into, where it folds.
pub fn block_folded<'p>(nodes: &'p [Node], folders: &Folders, number: usize) -> Option<&'p Block>
    requires { AreFolders (plan_of nodes.now) folders.now }
    ensures { option_map (λ b. block_typed b.now) result ≡ folds (plan_of nodes.now) number }
{
    match user_at(folders.users.as_slice(), number) {
        Some(user) => block_at(nodes, number, user),
        None => None,
    }
}

fn user_at(users: &[Option<usize>], number: usize) -> Option<usize>
    ensures { result ≡ get_or users.now number None }
{
    match users.get(number) {
        Some(user) => *user,
        None => None,
    }
}

// Whether the map tasks of a node combine: those of a DISTINCT, and those of a GROUP that folds. `namings` tell how often
// live nodes name each node.
pub fn combines(
    alloc: Global,
    nodes: &[Node],
    namings: &[Naming],
    number: usize,
    op: &NodeOp,
) -> Result<bool, AllocError>
    requires namings { AreNamings (plan_of nodes.now) namings.now }
    requires op { op_at (plan_of nodes.now) number ≡ Some (op_of op.now) }
    ensures { IfOk result (λ b. b ≡ combines (plan_of nodes.now) number) }
{
    if let NodeOp::Distinct { .. } = op {
        return Ok(true);
    }
    folds(alloc, nodes, namings, number, op)
}

// A node folds where it is a GROUP of one input whose only use is a FOREACH with a block that combines.
fn folds(
    alloc: Global,
    nodes: &[Node],
    namings: &[Naming],
    number: usize,
    op: &NodeOp,
) -> Result<bool, AllocError>
    requires namings { AreNamings (plan_of nodes.now) namings.now }
    requires op { op_at (plan_of nodes.now) number ≡ Some (op_of op.now) }
    ensures { IfOk result (λ b. b ≡ is_some (folds (plan_of nodes.now) number)) }
{
    if !groups_one(op) {
        return Ok(false);
    }
    let naming = naming_at(namings, number);
    match block_by(nodes, number, naming) {
        Some(block) => is_combinable(alloc, block),
        None => Ok(false),
    }
}

// The block of the FOREACH on a node, where it is the one node that names it.
fn block_by<'p>(nodes: &'p [Node], number: usize, naming: Naming) -> Option<&'p Block>
    ensures { option_map (λ b. block_typed b.now) result
        ≡ block_by (plan_of nodes.now) number naming }
{
    match naming {
        Naming::Never => None,
        Naming::Once(user) => block_at(nodes, number, user),
        Naming::Often => None,
    }
}

fn is_combinable(alloc: Global, block: &Block) -> Result<bool, AllocError>
    ensures { IfOk result (λ b. b ≡ is_combinable (block_typed block.now)) }
{
    Ok(combinable(alloc, block)?.is_some())
}

// Each operator stands here, so that a new one is thought of.
fn groups_one(op: &NodeOp) -> bool
    ensures { result ≡ groups_one (op_of op.now) }
{
    match op {
        NodeOp::GroupAll { .. } => true,
        NodeOp::Group { inputs } => matches!(inputs.as_slice(), [_]),
        NodeOp::Load { .. } => false,
        NodeOp::Filter { .. } => false,
        NodeOp::Foreach { .. } => false,
        NodeOp::Join { .. } => false,
        NodeOp::Union { .. } => false,
        NodeOp::Distinct { .. } => false,
        NodeOp::Order { .. } => false,
        NodeOp::Limit { .. } => false,
        NodeOp::Store { .. } => false,
        NodeOp::Assert { .. } => false,
        NodeOp::Rank { .. } => false,
    }
}

fn block_at<'p>(nodes: &'p [Node], number: usize, user: usize) -> Option<&'p Block>
    ensures { option_map (λ b. block_typed b.now) result
        ≡ block_at (plan_of nodes.now) number user }
{
    match nodes.get(user) {
        Some(node) => block_on(number, &node.op),
        None => None,
    }
}

fn block_on(number: usize, op: &NodeOp) -> Option<&Block>
    ensures { option_map (λ b. block_typed b.now) result ≡ block_on number (op_of op.now) }
{
    match op {
        NodeOp::Foreach { input, block } => {
            if *input as usize == number {
                Some(block)
            } else {
                None
            }
        }
        _ => None,
    }
}
