ghost use Rattle.std.specs.Prelude.{◌≡◌, ◌+◌, ◌++◌, ◌∷◌, [], IfOk, OnOk, false, get_or, map, slice_get, if◌then◌else◌};
ghost use Rattle.std.specs.List.{filter, filter_map};
ghost use Rattle.pig_plan.specs.Nodes.{is_live, live_marks as live_list};
ghost use Rattle.pig_plan.specs.Plans.{node_of, plan_of};
ghost use Rattle.pig_plan.specs.Renumbered.{renamed};
ghost use Rattle.pig_plan.specs.Rewrites.{SameMeaning};
ghost use Rattle.pig_plan.specs.Valid.{IsPlan};
ghost use Rattle.pig_share.specs.Table.{at_of};
ghost use Rattle.pig_alive.specs.Alive.{EachLives, alive, ranks};

use pig_plan::{Node, Plan, live_marks};
use pig_share::renamed_node;
use std::alloc::{AllocError, Global};

/// The plan without the nodes that no STORE reaches. The others keep their order and their
/// statements, and are numbered anew.
pub fn without_dead(alloc: Global, plan: &Plan) -> Result<Plan, AllocError>
    ensures is { IfOk result (λ q. plan_of q ≡ alive (plan_of plan.now)) }
    ensures means { IfOk result (λ q. SameMeaning (plan_of plan.now) (plan_of q)) }
    ensures lives { IfOk result (λ q. EachLives (plan_of q)) }
{
    let live = live_marks(alloc, plan)?;
    let table = ranks(alloc, plan, live.as_slice())?;
    let made = live_nodes(alloc, plan, live.as_slice(), table.as_slice())?;
    known_plan(plan);
    known_plan(&made);
    Ok(made)
}

// Of each node how many live ones stand before it.
fn ranks(alloc: Global, plan: &Plan, live: &[bool]) -> Result<Vec<u32>, AllocError>
    requires { live.now ≡ live_list (plan_of plan.now) }
    ensures { IfOk result (λ table. table.items ≡ ranks (plan_of plan.now)) }
{
    let size = plan.nodes().len();
    let mut table = Vec::new(alloc);
    let mut count: u32 = 0;
    for place in 0..size {
        table.push(count)?;
        count = with_mark(live, place, count)?;
    }
    Ok(table)
}

// A count with one more where the place is marked.
fn with_mark(live: &[bool], place: usize, count: u32) -> Result<u32, AllocError>
    ensures { IfOk result (λ more.
        more ≡ (if get_or live.now place false then count + 1 else count)) }
{
    if !mark_at(live, place) {
        return Ok(count);
    }
    count.checked_add(1).ok_or(AllocError)
}

fn mark_at(live: &[bool], place: usize) -> bool
    ensures { result ≡ get_or live.now place false }
{
    match live.get(place) {
        Some(mark) => *mark,
        None => false,
    }
}

// The live nodes over the inputs that a table has in the place of their own.
fn live_nodes(alloc: Global, plan: &Plan, live: &[bool], table: &[u32]) -> Result<Plan, AllocError>
    requires live { live.now ≡ live_list (plan_of plan.now) }
    requires table { table.now ≡ ranks (plan_of plan.now) }
    ensures { IfOk result (λ q. plan_of q ≡ alive (plan_of plan.now)) }
{
    let nodes = plan.nodes().as_slice();
    let mut made = Plan::empty(alloc);
    for place in 0..nodes.len() {
        add_live(alloc, nodes, live, table, place, &mut made)?;
    }
    Ok(made)
}

// Adds the node at a place where it is live.
fn add_live(
    alloc: Global,
    nodes: &[Node],
    live: &[bool],
    table: &[u32],
    place: usize,
    made: &mut Plan,
) -> Result<(), AllocError>
    requires { live.now ≡ live_list (plan_of nodes.now) }
    ensures { OnOk result (plan_of made.new ≡ plan_of made.old
        ++ map (renamed (at_of table.now)) (filter_map (slice_get (plan_of nodes.now))
        (filter (is_live (plan_of nodes.now)) (place ∷ [])))) }
{
    let Some(node) = nodes.get(place) else {
        return Err(AllocError);
    };
    if !mark_at(live, place) {
        return Ok(());
    }
    let node = renamed_node(alloc, node, table)?;
    push_node(made, node)
}

// Adds a node. Each one fits, since it is of the kinds that it had; that is tested and not proved.
fn push_node(made: &mut Plan, node: Node) -> Result<(), AllocError>
    ensures { OnOk result (plan_of made.new ≡ plan_of made.old ++ node_of node ∷ []) }
{
    if !made.fits(&node)? {
        return Err(AllocError);
    }
    made.add(node)?;
    Ok(())
}

// A plan is valid.
fn known_plan(plan: &Plan)
    ensures { IsPlan (plan_of plan.now) }
{
    plan.nodes();
}
