ghost use Rattle.std.specs.Prelude.{◌≡◌, ◌≤◌, ◌<◌, ◌+◌, ◌∷◌, [], map, length, get_or, slice_set, replicate, IfOk, OnOk};
ghost use Rattle.std.specs.List.{range_with_len};
ghost use Rattle.pig_plan.specs.Meaning.{width_at};
ghost use Rattle.pig_plan.specs.Nodes.{live_marks as live_list};
ghost use Rattle.pig_plan.specs.Plans.{node_of, op_of, plan_of};
ghost use Rattle.pig_needs.specs.Found.{AreNeedsFrom, AreUsed};
ghost use Rattle.pig_needs.specs.Needed.{need_of, or_first, uses_of, with_all, with_uses};
ghost use Rattle.pig_needs.specs.declared.lists.Use.{Use};

use crate::lists::add_all;
use crate::names::whole_field;
use crate::uses::uses_of;
use crate::{NeedList, Use};
use pig_plan::{Node, Plan, live_marks};
use std::alloc::{AllocError, Global};

/// Of each node of a plan, in order, what the live nodes that name it need of its rows.
pub fn needs(alloc: Global, plan: &Plan) -> Result<Vec<NeedList>, AllocError>
    ensures { IfOk result (λ found. found.items
        ≡ map (need_of (plan_of plan.now)) (range_with_len 0 (length plan.now))) }
{
    walked(alloc, plan)
}

// The nodes are gone through from the last to the first: what is needed of a node is known once all behind it are done.
fn walked(alloc: Global, plan: &Plan) -> Result<Vec<NeedList>, AllocError>
    ensures { IfOk result (λ found. AreNeedsFrom (plan_of plan.now) 0 found.items) }
{
    let live = live_marks(alloc, plan)?;
    let mut found = no_needs(alloc, plan)?;
    let mut number = plan.nodes().len();
    'nodes: while number > 0 {
        number -= 1;
        walk_node(alloc, plan, live.as_slice(), number, &mut found)?;
    }
    Ok(found)
}

fn walk_node(
    alloc: Global,
    plan: &Plan,
    live: &[bool],
    number: usize,
    found: &mut Vec<NeedList>,
) -> Result<(), AllocError>
    requires live { live.now ≡ live_list (plan_of plan.now) }
    requires so_far { AreNeedsFrom (plan_of plan.now) (number + 1) found.old.items }
    ensures { OnOk result (AreNeedsFrom (plan_of plan.now) number found.new.items) }
{
    let (Some(node), Some(lives)) = (plan.nodes().get(number), live.get(number)) else {
        return Err(AllocError);
    };
    complete(alloc, found, number)?;
    if !*lives {
        return Ok(());
    }
    use_inputs(alloc, plan, node, number, found)
}

// Nothing is needed as yet.
fn no_needs(alloc: Global, plan: &Plan) -> Result<Vec<NeedList>, AllocError>
    ensures { IfOk result (λ found.
        AreNeedsFrom (plan_of plan.now) (length plan.now) found.items) }
{
    empty_lists(alloc, plan.nodes().len())
}

fn empty_lists(alloc: Global, count: usize) -> Result<Vec<NeedList>, AllocError>
    ensures { IfOk result (λ found. found.items ≡ replicate count []) }
{
    let mut found = Vec::with_capacity(alloc, count)?;
    for _place in 0..count {
        found.push(NeedList::new(alloc))?;
    }
    Ok(found)
}

// An empty need is replaced by the first field.
fn complete(alloc: Global, found: &mut Vec<NeedList>, number: usize) -> Result<(), AllocError>
    requires { number < length found.old.items }
    ensures own { OnOk result (found.new.items
        ≡ slice_set found.old.items number (or_first (get_or found.old.items number []))) }
    ensures size { OnOk result (length found.new.items ≡ length found.old.items) }
{
    if !found[number].is_empty() {
        return Ok(());
    }
    let mut first = NeedList::new(alloc);
    first.push(whole_field(0))?;
    found[number] = first;
    Ok(())
}

// Adds what a node names of the nodes before it.
fn use_inputs(
    alloc: Global,
    plan: &Plan,
    node: &Node,
    number: usize,
    found: &mut Vec<NeedList>,
) -> Result<(), AllocError>
    requires { number < length found.old.items }
    ensures { OnOk result (AreUsed number (uses_of (width_at (plan_of plan.now))
        (get_or found.old.items number []) (op_of node.now.op)) found.old.items found.new.items) }
{
    let uses = uses_of(alloc, plan, found[number].as_slice(), &node.op)?;
    add_uses(alloc, uses.as_slice(), number, found)
}

fn add_uses(
    alloc: Global,
    uses: &[Use],
    number: usize,
    found: &mut Vec<NeedList>,
) -> Result<(), AllocError>
    requires { number < length found.old.items }
    ensures { OnOk result (AreUsed number uses.now found.old.items found.new.items) }
{
    let mut left = uses;
    while let [first, rest @ ..] = left {
        add_use(alloc, first, number, found)?;
        left = rest;
    }
    Ok(())
}

// Adds what is named of a node before the one of a number; it names no other.
fn add_use(
    alloc: Global,
    use_of: &Use,
    number: usize,
    found: &mut Vec<NeedList>,
) -> Result<(), AllocError>
    requires { number < length found.old.items }
    ensures { OnOk result (AreUsed number (use_of.now ∷ []) found.old.items found.new.items) }
{
    let input = use_of.input as usize;
    if input >= number {
        return Ok(());
    }
    add_all(alloc, &mut found[input], use_of.named.as_slice())
}
