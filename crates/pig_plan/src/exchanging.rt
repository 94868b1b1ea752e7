ghost use Rattle.std.specs.Prelude.{◌≡◌, ◌<◌, IfOk, OnErr, Some, true, false, length, map, slice_set, take};
ghost use Rattle.std.specs.Option.{option_map};
ghost use Rattle.pig_value.specs.Trees.{kind_tree};
ghost use Rattle.pig_plan.specs.Exchanged.{GivesThere, IsGivenFor, MayBeGiven, MayStand, may_be_twin};
ghost use Rattle.pig_plan.specs.Given.{before_of, kinds_of_given};
ghost use Rattle.pig_plan.specs.NodeKinds.{node_gives};
ghost use Rattle.pig_plan.specs.Plans.{node_of, op_of};

use crate::given::Given;
use crate::literals::op_writes_line_end;
use crate::{Node, NodeOp, Nodes};
use pig_value::{Kinds, same_kinds};
use std::alloc::{AllocError, Global};
use std::mem;

// Whether the node may stand at any place among nodes of which none has a later statement than
// `latest`, where it does as to its inputs and kinds: so it is where it can be no twin.
pub fn may_stand(node: &Node, latest: u32) -> bool
    ensures yes { result ≡ true → MayStand latest (node_of node.now) }
    ensures no { result ≡ false → MayStand latest (node_of node.now) → ⊥ }
{
    !op_writes_line_end(&node.op) && !may_be_twin(&node.op) && node.statement <= latest
}

fn may_be_twin(op: &NodeOp) -> bool
    ensures { result ≡ may_be_twin (op_of op.now) }
{
    matches!(op, NodeOp::Limit { .. } | NodeOp::Assert { .. })
}

// Puts what the lower node gives in the place of what is given there, where the upper one gives
// over it what is given at its number. Otherwise, or where memory is wanting, all stays.
pub fn exchange_given(
    alloc: Global,
    given: &mut Vec<Given>,
    low: u32,
    lower: &NodeOp,
    high: u32,
    upper: &NodeOp,
) -> Result<bool, AllocError>
    ensures yes { IfOk result (λ done. done ≡ true
        → IsGivenFor given.old.items given.new.items low (op_of lower.now) high (op_of upper.now)) }
    ensures no { IfOk result (λ done. done ≡ false → given.new.items ≡ given.old.items) }
    ensures refused { IfOk result (λ done. done ≡ false
        → MayBeGiven given.old.items low (op_of lower.now) high (op_of upper.now) → ⊥) }
    ensures err { OnErr result (given.new.items ≡ given.old.items) }
{
    if high <= low || given.len() <= high as usize {
        return Ok(false);
    }
    let Some(first) = given_at(alloc, given.as_slice(), low, lower)? else {
        return Ok(false);
    };
    put_where(alloc, given, low, first, high, upper)
}

// What an operator gives at a number, over what is given before it.
fn given_at(
    alloc: Global,
    given: &[Given],
    number: u32,
    op: &NodeOp,
) -> Result<Option<Given>, AllocError>
    requires { number < length given.now }
    ensures { IfOk result (λ found. option_map kinds_of_given found
        ≡ node_gives (before_of (take number given.now)) (op_of op.now)) }
{
    crate::checking::given(alloc, &given[..number as usize], op)
}

// Puts what is given in another place, where an operator then gives what is given at its number.
fn put_where(
    alloc: Global,
    given: &mut Vec<Given>,
    place: u32,
    first: Given,
    number: u32,
    op: &NodeOp,
) -> Result<bool, AllocError>
    requires place { place < length given.old.items }
    requires number { number < length given.old.items }
    ensures put { IfOk result (λ done. done ≡ true
        → given.new.items ≡ slice_set given.old.items place first) }
    ensures gives { IfOk result (λ done. done ≡ true
        → GivesThere given.new.items number (op_of op.now)) }
    ensures no { IfOk result (λ done. done ≡ false → given.new.items ≡ given.old.items) }
    ensures refused { IfOk result (λ done. done ≡ false
        → GivesThere (slice_set given.old.items place first) number (op_of op.now) → ⊥) }
    ensures err { OnErr result (given.new.items ≡ given.old.items) }
{
    let before = mem::replace(&mut given[place as usize], first);
    match gives_there(alloc, given.as_slice(), number, op) {
        Ok(true) => Ok(true),
        Ok(false) => {
            given[place as usize] = before;
            Ok(false)
        }
        Err(refused) => {
            given[place as usize] = before;
            Err(refused)
        }
    }
}

// Whether an operator gives at a number what is given there.
fn gives_there(alloc: Global, given: &[Given], number: u32, op: &NodeOp) -> Result<bool, AllocError>
    requires { number < length given.now }
    ensures yes { IfOk result (λ b. b ≡ true → GivesThere given.now number (op_of op.now)) }
    ensures no { IfOk result (λ b. b ≡ false → GivesThere given.now number (op_of op.now) → ⊥) }
{
    let Some(found) = given_at(alloc, given, number, op)? else {
        return Ok(false);
    };
    Ok(are_same(&found, &given[number as usize]))
}

fn are_same(a: &Given, b: &Given) -> bool
    ensures yes { result ≡ true → kinds_of_given a.now ≡ kinds_of_given b.now }
    ensures no { result ≡ false → kinds_of_given a.now ≡ kinds_of_given b.now → ⊥ }
{
    match a {
        Given::Rows(kinds) => are_rows_of(b, kinds.get()),
        Given::Nothing => matches!(b, Given::Nothing),
    }
}

// Whether rows of these kinds are given.
fn are_rows_of(given: &Given, kinds: &Kinds) -> bool
    ensures yes { result ≡ true → kinds_of_given given.now ≡ Some (map kind_tree kinds.now) }
    ensures no { result ≡ false → kinds_of_given given.now ≡ Some (map kind_tree kinds.now) → ⊥ }
{
    match given {
        Given::Rows(found) => same_kinds(kinds.as_slice(), found.get().as_slice()),
        Given::Nothing => false,
    }
}

// Puts two nodes in the place of two others.
pub fn put_two(nodes: &mut Nodes, low: u32, lower: Node, high: u32, upper: Node)
    requires low { low < length nodes.old }
    requires high { high < length nodes.old }
    ensures { nodes.new ≡ slice_set (slice_set nodes.old low lower) high upper }
{
    nodes.replace(low as usize, lower);
    nodes.replace(high as usize, upper);
}
