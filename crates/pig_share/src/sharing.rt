ghost use Rattle.std.specs.Prelude.{◌≡◌, ◌<◌, ◌+◌, ◌&&◌, ◌++◌, ◌∷◌, [], not, IsTrue, IfOk, OnOk, Some, false, length, nat_eq, slice_get, get_or};
ghost use Rattle.indexmap.specs.IndexMap.{get};
ghost use Rattle.pig_plan.specs.Nodes.{is_live, live_marks as live_list};
ghost use Rattle.pig_plan.specs.Plans.{PlanNode, node_of, plan_of};
ghost use Rattle.pig_plan.specs.Rewrites.{SameMeaning};
ghost use Rattle.pig_plan.specs.Valid.{IsPlan};
ghost use Rattle.pig_share.specs.Shared.{EachIsOnce, IsSharable, SharesAll, apart_in};
ghost use Rattle.pig_share.specs.Hashed.{op_hash};
ghost use Rattle.pig_share.specs.Same.{columns_of, same_op};
ghost use Rattle.pig_share.specs.Table.{AreListed, DoesSame, HasKey, IsFound, IsOpen, IsRenamedAt, IsSoFar, KeepsKeys, Shares, apart_list};

use crate::apart::apart_nodes;
use crate::hashing::hash_op;
use crate::ops::is_same_op;
use crate::renaming::{number_at, renamed_node};
use indexmap::IndexMap;
use pig_plan::{Node, Plan, live_marks};
use std::alloc::{AllocError, Global};

// By the hash of an operator, the first node with that hash, of those that are live and don't stay apart.
type Firsts = IndexMap<u64, u32>;

/// A plan of the same meaning in which no two live nodes do the same to the same inputs. Bare LIMITs stay apart, since each
/// keeps the rows of its own statement, and so do STOREs; ASSERTs do so where the nodes don't stand in the order of their
/// statements. Each node stays at its number, with its statement; the first of those that do the same is named in the
/// place of the others, which are dead then. In the order of statements, as in a script's plan, that is the one of the lowest
/// statement, and where no two STOREs have one path bare LIMITs alone stay apart.
pub fn share(alloc: Global, plan: Plan) -> Result<Plan, AllocError>
    ensures means { IfOk result (λ q. SameMeaning (plan_of plan) (plan_of q)) }
    ensures once { IfOk result (λ q. EachIsOnce (plan_of q)) }
    ensures all { IfOk result (λ q. IsSharable (plan_of plan)
        → SharesAll (plan_of plan) (plan_of q)) }
    ensures shares { IfOk result (λ q. Shares (plan_of plan) (plan_of q)) }
{
    let shared = share_nodes(alloc, &plan);
    drop(plan);
    shared
}

fn share_nodes(alloc: Global, plan: &Plan) -> Result<Plan, AllocError>
    ensures means { IfOk result (λ q. SameMeaning (plan_of plan.now) (plan_of q)) }
    ensures once { IfOk result (λ q. EachIsOnce (plan_of q)) }
    ensures all { IfOk result (λ q. IsSharable (plan_of plan.now)
        → SharesAll (plan_of plan.now) (plan_of q)) }
    ensures shares { IfOk result (λ q. Shares (plan_of plan.now) (plan_of q)) }
{
    let live = live_marks(alloc, plan)?;
    let nodes = plan.nodes().as_slice();
    let apart = apart_nodes(alloc, nodes)?;
    let mut made = Plan::empty(alloc);
    let mut table = Vec::new(alloc);
    let mut firsts = IndexMap::new(alloc);
    for own in 0..number_of_nodes(nodes)? {
        share_next(
            alloc,
            nodes,
            live.as_slice(),
            apart.as_slice(),
            own,
            &mut table,
            &mut firsts,
            &mut made,
        )?;
    }
    known_plan(&made);
    Ok(made)
}

// How many nodes there are, as a number of a node.
fn number_of_nodes(nodes: &[Node]) -> Result<u32, AllocError>
    ensures { IfOk result (λ n. n ≡ length nodes.now) }
{
    u32::try_from(nodes.len()).map_err(|_| AllocError)
}

// Names the next node, and adds it over the inputs that stand for its own.
fn share_next(
    alloc: Global,
    nodes: &[Node],
    live: &[bool],
    apart: &[bool],
    own: u32,
    table: &mut Vec<u32>,
    firsts: &mut Firsts,
    made: &mut Plan,
) -> Result<(), AllocError>
    requires valid { IsPlan (plan_of nodes.now) }
    requires live { live.now ≡ live_list (plan_of nodes.now) }
    requires apart { apart.now ≡ apart_list (plan_of nodes.now) }
    requires within { own < length nodes.now }
    requires so_far { IsSoFar (plan_of nodes.now) table.old.items (plan_of made.old) own }
    requires listed { AreListed (plan_of nodes.now) (plan_of made.old) (get nat_eq firsts.old) }
    ensures so_far { OnOk result
        (IsSoFar (plan_of nodes.now) table.new.items (plan_of made.new) (own + 1)) }
    ensures listed { OnOk result
        (AreListed (plan_of nodes.now) (plan_of made.new) (get nat_eq firsts.new)) }
{
    let node = renamed_at(alloc, nodes, own, table.as_slice())?;
    let earlier = made.nodes().as_slice();
    let number = number_of(
        nodes,
        live,
        apart,
        table.as_slice(),
        firsts,
        earlier,
        &node,
        own,
    );
    list_open(nodes, live, apart, own, hash_op(&node.op), firsts)?;
    table.push(number)?;
    push_node(made, node)?;
    Ok(())
}

// The node at a place over the inputs that a table has in the place of its own.
fn renamed_at(alloc: Global, nodes: &[Node], own: u32, table: &[u32]) -> Result<Node, AllocError>
    ensures { IfOk result (λ c. IsRenamedAt (plan_of nodes.now) table.now own (node_of c)) }
{
    match nodes.get(own as usize) {
        Some(node) => renamed_node(alloc, node, table),
        None => Err(AllocError),
    }
}

// Lists a node under the hash of its operator where it is live, doesn't stay apart, and none is listed there.
fn list_open(
    nodes: &[Node],
    live: &[bool],
    apart: &[bool],
    own: u32,
    hash: u64,
    firsts: &mut Firsts,
) -> Result<(), AllocError>
    requires live { live.now ≡ live_list (plan_of nodes.now) }
    requires apart { apart.now ≡ apart_list (plan_of nodes.now) }
    ensures keeps { OnOk result (KeepsKeys (get nat_eq firsts.old) (get nat_eq firsts.new)) }
    ensures has { OnOk result
        (IsOpen (plan_of nodes.now) own → HasKey (get nat_eq firsts.new) hash) }
{
    if !is_open(nodes, live, apart, own) {
        return Ok(());
    }
    list_first(hash, own, firsts)
}

fn list_first(hash: u64, own: u32, firsts: &mut Firsts) -> Result<(), AllocError>
    ensures keeps { OnOk result (KeepsKeys (get nat_eq firsts.old) (get nat_eq firsts.new)) }
    ensures has { OnOk result (HasKey (get nat_eq firsts.new) hash) }
{
    match firsts.get(&hash) {
        Some(_) => Ok(()),
        None => {
            firsts.insert(hash, own)?;
            Ok(())
        }
    }
}

// The number by which a node is named: that of a node before it that does the same, or its own. Only where one is
// listed under the same hash can one do the same.
fn number_of(
    nodes: &[Node],
    live: &[bool],
    apart: &[bool],
    table: &[u32],
    firsts: &Firsts,
    made: &[Node],
    node: &Node,
    own: u32,
) -> u32
    requires live { live.now ≡ live_list (plan_of nodes.now) }
    requires apart { apart.now ≡ apart_list (plan_of nodes.now) }
    requires within { own < length nodes.now }
    requires so_far { IsSoFar (plan_of nodes.now) table.now (plan_of made.now) own }
    requires listed { AreListed (plan_of nodes.now) (plan_of made.now) (get nat_eq firsts.now) }
    requires node { IsRenamedAt (plan_of nodes.now) table.now own (node_of node.now) }
    ensures { IsFound (plan_of nodes.now) table.now own result }
{
    if !is_open(nodes, live, apart, own) {
        return own;
    }
    match firsts.get(&hash_op(&node.op)) {
        None => own,
        Some(first) => number_from(nodes, live, apart, table, made, node, own, *first),
    }
}

// That of the first one with the same hash where it does the same; hashes of operators that differ are rarely the same.
fn number_from(
    nodes: &[Node],
    live: &[bool],
    apart: &[bool],
    table: &[u32],
    made: &[Node],
    node: &Node,
    own: u32,
    first: u32,
) -> u32
    requires live { live.now ≡ live_list (plan_of nodes.now) }
    requires apart { apart.now ≡ apart_list (plan_of nodes.now) }
    requires within { own < length nodes.now }
    requires so_far { IsSoFar (plan_of nodes.now) table.now (plan_of made.now) own }
    requires node { IsRenamedAt (plan_of nodes.now) table.now own (node_of node.now) }
    ensures { IsFound (plan_of nodes.now) table.now own result }
{
    if first < own {
        if does_same(nodes, live, apart, table, made, node, own, first) {
            return number_at(table, first);
        }
    }
    number_of_any(nodes, live, apart, table, made, node, own)
}

// That of the first node before it that does the same, of all of them.
fn number_of_any(
    nodes: &[Node],
    live: &[bool],
    apart: &[bool],
    table: &[u32],
    made: &[Node],
    node: &Node,
    own: u32,
) -> u32
    requires live { live.now ≡ live_list (plan_of nodes.now) }
    requires apart { apart.now ≡ apart_list (plan_of nodes.now) }
    requires within { own < length nodes.now }
    requires so_far { IsSoFar (plan_of nodes.now) table.now (plan_of made.now) own }
    requires node { IsRenamedAt (plan_of nodes.now) table.now own (node_of node.now) }
    ensures { IsFound (plan_of nodes.now) table.now own result }
{
    for j in 0..own {
        if does_same(nodes, live, apart, table, made, node, own, j) {
            return number_at(table, j);
        }
    }
    own
}

// Whether the node at a place before another one does the same to the same inputs, and may be named in its place.
fn does_same(
    nodes: &[Node],
    live: &[bool],
    apart: &[bool],
    table: &[u32],
    made: &[Node],
    node: &Node,
    own: u32,
    place: u32,
) -> bool
    requires live { live.now ≡ live_list (plan_of nodes.now) }
    requires apart { apart.now ≡ apart_list (plan_of nodes.now) }
    requires within { own < length nodes.now }
    requires before { place < own }
    requires so_far { IsSoFar (plan_of nodes.now) table.now (plan_of made.now) own }
    requires node { IsRenamedAt (plan_of nodes.now) table.now own (node_of node.now) }
    ensures yes { IsTrue result → DoesSame (plan_of nodes.now) table.now own place }
    ensures no { DoesSame (plan_of nodes.now) table.now own place → IsTrue result }
{
    let this_open = is_open(nodes, live, apart, own);
    let open = is_open(nodes, live, apart, place);
    let same = is_same_at(made, place, node);
    are_all(this_open, open, same)
}

// Whether a node is live and does not stay apart.
fn is_open(nodes: &[Node], live: &[bool], apart: &[bool], place: u32) -> bool
    requires live { live.now ≡ live_list (plan_of nodes.now) }
    requires apart { apart.now ≡ apart_list (plan_of nodes.now) }
    ensures { (v : PlanNode) → slice_get (plan_of nodes.now) place ≡ Some v
        → result ≡ (is_live (plan_of nodes.now) place
        && not (apart_in (plan_of nodes.now) v.op)) }
{
    let alive = mark_at(live, place);
    let stays = mark_at(apart, place);
    is_live_and_free(alive, stays)
}

fn is_live_and_free(live: bool, apart: bool) -> bool
    ensures { result ≡ (live && not apart) }
{
    live && !apart
}

fn are_all(a: bool, b: bool, c: bool) -> bool
    ensures { result ≡ ((a && b) && c) }
{
    (a && b) && c
}

fn mark_at(marks: &[bool], place: u32) -> bool
    ensures { result ≡ get_or marks.now place false }
{
    match marks.get(place as usize) {
        Some(mark) => *mark,
        None => false,
    }
}

// Whether the node at a place has the same operator as another one.
fn is_same_at(made: &[Node], place: u32, node: &Node) -> bool
    ensures test { (u : PlanNode) → slice_get (plan_of made.now) place ≡ Some u
        → result ≡ same_op u.op (node_of node.now).op }
    ensures columns { (u : PlanNode) → slice_get (plan_of made.now) place ≡ Some u
        → IsTrue result → columns_of u.op ≡ columns_of (node_of node.now).op }
{
    match made.get(place as usize) {
        Some(found) => is_same_op(&found.op, &node.op),
        None => false,
    }
}

// Adds a node, which fits, since the plan is valid that it comes from.
fn push_node(made: &mut Plan, node: Node) -> Result<(), AllocError>
    ensures { OnOk result (plan_of made.new ≡ plan_of made.old ++ node_of node ∷ []) }
{
    if !made.fits(&node)? {
        return Err(AllocError);
    }
    made.add(node)?;
    Ok(())
}

// A plan is valid.
fn known_plan(plan: &Plan)
    ensures { IsPlan (plan_of plan.now) }
{
    plan.nodes();
}
