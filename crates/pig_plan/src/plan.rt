ghost use Rattle.std.specs.Prelude.{◌≡◌, ◌<◌, [], ◌∷◌, ◌++◌, List, None, map, length, true, false, slice_set, IfOk, OnOk, OnErr};
ghost use Rattle.std.specs.List.{list_any};
ghost use Rattle.std.specs.Option.{option_copied, option_map, unwrap_or};
ghost use Rattle.pig_value.specs.Trees.{kind_tree};
ghost use Rattle.pig_plan.specs.Exchanged.{MayExchange};
ghost use Rattle.pig_plan.specs.Given.{before_of, kinds_of_given};
ghost use Rattle.pig_plan.specs.NodeKinds.{kinds_at, node_gives};
ghost use Rattle.pig_plan.specs.declared.given.Given.{Given};
ghost use Rattle.pig_plan.specs.Nodes.{IsOnlyUse};
ghost use Rattle.pig_plan.specs.Plans.{node_of, op_of, plan_of};
ghost use Rattle.pig_plan.specs.Room.{roomy};
ghost use Rattle.pig_plan.specs.Laws.{PlanLiteralsAre};
ghost use Rattle.pig_plan.specs.Valid.{AreUpTo, IsPlan, are_twins, fits, is_twin};
ghost use Rattle.pig_value.specs.Valid.{IsValue};

use crate::checking::given;
use crate::exchanging::{exchange_given, may_stand, put_two};
use crate::given::{Given, rows_before};
use crate::literals::op_writes_line_end;
use crate::rooming::roomy;
use crate::shared::SharedKinds;
use crate::valued::know_literals;
use crate::{Node, NodeOp, Nodes};
use pig_value::Kinds;
use std::alloc::{AllocError, Global};
use std::marker::Model;

/// A list of nodes, each of which is valid behind those before it, numbered from 0.
///
/// Contracts see it as the list of its nodes.
#[derive(Debug, Drop)]
pub struct Plan {
    alloc: Global,
    nodes: Nodes,
    /// What each node gives.
    given: Vec<Given>,
    /// No node has a later statement.
    latest: u32,
}

impl Model for Plan {
    ghost use Rattle.std.specs.Prelude.{◌≡◌, List, map};
    ghost use Rattle.std.specs.Coded.{codes};
    ghost use Rattle.pig_value.specs.contracts.values.Kind as kind;
    ghost use Rattle.pig_typed.specs.contracts.exprs.TExpr as expr;
    ghost use Rattle.pig_plan.specs.Given.{kinds_of_given};
    ghost use Rattle.pig_plan.specs.Laws.{PlanLiteralsAre};
    ghost use Rattle.pig_plan.specs.NodeKinds.{kinds_table};
    ghost use Rattle.pig_value.specs.Valid.{IsValue};
    ghost use Rattle.pig_plan.specs.Plans.{plan_of};
    ghost use Rattle.pig_plan.specs.Valid.{AreUpTo, IsPlan};
    ghost use Rattle.pig_plan.specs.declared.nodes.Node.{Node};

    ghost Value = { List Node };

    ghost coded = { Prim.hlevel (codes, kind.the_row.coded, expr.the_row.coded) };

    ghost view = { λ p. p.nodes };

    ghost invariant = { λ p. IsPlan (plan_of p.nodes) × (map kinds_of_given p.given.items ≡ kinds_table (plan_of p.nodes))
        × PlanLiteralsAre IsValue (plan_of p.nodes) × AreUpTo p.latest (plan_of p.nodes) };
}

impl Plan {
    /// The plan of no node, which takes no memory; its calls will use `alloc`.
    pub fn empty(alloc: Global) -> Plan
        ensures { result ≡ [] }
    {
        Plan {
            alloc,
            nodes: Nodes::new(alloc),
            given: Vec::new(alloc),
            latest: 0,
        }
    }

    /// The nodes, each numbered by its place. What they write out are values.
    pub fn nodes(&self) -> &Nodes
        ensures nodes { result.now ≡ self.now }
        ensures valid { IsPlan (plan_of self.now) }
        ensures literals { PlanLiteralsAre IsValue (plan_of self.now) }
    {
        &self.nodes
    }

    /// The nodes, without a copy.
    pub fn into_nodes(self) -> Nodes
        ensures { result ≡ self }
    {
        let Plan { nodes, .. } = self;
        nodes
    }

    /// The kinds of the rows of a node, where there is such a relation; a STORE is none.
    pub fn kinds(&self, node: u32) -> Option<&Kinds>
        ensures { option_map (map kind_tree) (option_copied result)
            ≡ kinds_at (plan_of self.now) node }
    {
        rows_before(self.given.as_slice(), node)
    }

    /// Whether the node is valid behind the plan's nodes: it names relations of theirs, its expressions and keys are
    /// typed on the kinds of these, no text in them holds a line end, and no other LIMIT, and no other ASSERT, has
    /// its statement. Of a node whose statement is later than the others' this takes no look at them.
    pub fn fits(&self, node: &Node) -> Result<bool, AllocError>
        ensures { IfOk result (λ b. b ≡ fits (plan_of self.now) (node_of node.now)) }
    {
        let given = given(self.alloc, self.given.as_slice(), &node.op)?;
        let typed = given.is_some();
        Ok(
            typed
                && !op_writes_line_end(&node.op)
                && !has_twin(self.nodes.as_slice(), self.latest, node),
        )
    }

    /// Adds a node behind the others, and gives its number. Where memory is wanting the plan stays as it was.
    pub fn add(&mut self, node: Node) -> Result<u32, AllocError>
        requires { fits (plan_of self.old) (node_of node) ≡ true }
        ensures ok { OnOk result (self.new ≡ self.old ++ node ∷ []) }
        ensures number { IfOk result (λ n. n ≡ length self.old) }
        ensures err { OnErr result (self.new ≡ self.old) }
    {
        know_literals(&node.op);
        let number = give(self.alloc, self.nodes.len(), &mut self.given, &node.op)?;
        let latest = self.latest.max(node.statement);
        push_or_take_back(&mut self.nodes, &mut self.given, node)?;
        self.latest = latest;
        Ok(number)
    }

    /// The plan with room for one node before the one numbered `at`: a node that reads nothing stands there, and those
    /// from there on have the next numbers. What the others give is not looked at again. Where memory is wanting, the
    /// plan is gone.
    pub fn with_room(self, at: u32) -> Result<Plan, AllocError>
        requires { at < length self }
        ensures { IfOk result (λ made. plan_of made ≡ roomy at (plan_of self)) }
    {
        let Plan {
            alloc,
            nodes,
            mut given,
            latest,
        } = self;
        let nodes = roomy(alloc, nodes, at)?;
        let none = SharedKinds::new(alloc, Kinds::new(alloc))?;
        given.insert(at as usize, Given::Rows(none))?;
        Ok(Plan {
            alloc,
            nodes,
            given,
            latest,
        })
    }

    /// Puts two nodes in the place of two others, of which the first is read by the second alone, where the second then
    /// gives what was given at its number: so the other nodes see what they saw, and what these two give is all that is
    /// looked at. It puts no LIMIT and no ASSERT, no line end, and no statement later than the others'. It answers true
    /// where these hold, and else false: then, and where memory is wanting, the plan stays as it was.
    pub fn exchange(
        &mut self,
        low: u32,
        lower: Node,
        high: u32,
        upper: Node,
    ) -> Result<bool, AllocError>
        requires only { IsOnlyUse (plan_of self.old) low high }
        ensures exchanged { IfOk result (λ done. done ≡ true
            → self.new ≡ slice_set (slice_set self.old low lower) high upper) }
        ensures kept { IfOk result (λ done. done ≡ false → self.new ≡ self.old) }
        ensures refused { IfOk result (λ done. done ≡ false
            → MayExchange (plan_of self.old) low (node_of lower) high (node_of upper) → ⊥) }
        ensures err { OnErr result (self.new ≡ self.old) }
    {
        know_literals(&lower.op);
        know_literals(&upper.op);
        if !may_stand(&lower, self.latest) {
            return Ok(false);
        }
        if !may_stand(&upper, self.latest) {
            return Ok(false);
        }
        let fit = exchange_given(self.alloc, &mut self.given, low, &lower.op, high, &upper.op)?;
        if !fit {
            return Ok(false);
        }
        put_two(&mut self.nodes, low, lower, high, upper);
        Ok(true)
    }
}

// Adds what a node gives behind `count` others, and answers the node's number; where memory is wanting, nothing is
// added.
fn give(alloc: Global, count: usize, given: &mut Vec<Given>, op: &NodeOp) -> Result<u32, AllocError>
    ensures ok { OnOk result (map kinds_of_given given.new.items
        ≡ map kinds_of_given given.old.items
        ++ unwrap_or (node_gives (before_of given.old.items) (op_of op.now)) None ∷ []) }
    ensures taken { OnOk result ((last : Given)
        × (given.new.items ≡ given.old.items ++ last ∷ [])) }
    ensures number { IfOk result (λ n. n ≡ count) }
    ensures err { OnErr result (given.new.items ≡ given.old.items) }
{
    let Ok(number) = u32::try_from(count) else {
        return Err(AllocError);
    };
    let found = crate::checking::given(alloc, given.as_slice(), op)?;
    given.push(found.unwrap_or(Given::Nothing))?;
    Ok(number)
}

// Adds the node behind the others; where memory is wanting, what it gives is taken back.
fn push_or_take_back(
    nodes: &mut Nodes,
    given: &mut Vec<Given>,
    node: Node,
) -> Result<(), AllocError>
    ensures ok { OnOk result ((nodes.new ≡ nodes.old ++ node ∷ [])
        × (given.new.items ≡ given.old.items)) }
    ensures err { OnErr result ((nodes.new ≡ nodes.old)
        × ((rest : List Given) (last : Given) → given.old.items ≡ rest ++ last ∷ []
        → given.new.items ≡ rest)) }
{
    match nodes.push(node) {
        Ok(()) => Ok(()),
        Err(refused) => {
            given.pop();
            Err(refused)
        }
    }
}

// Whether another LIMIT, for a LIMIT, or another ASSERT, for an ASSERT, has the node's statement, where no node has a
// later one than `latest`: so nodes that come in the order of their statements need no look at the others.
fn has_twin(nodes: &[Node], latest: u32, node: &Node) -> bool
    requires { AreUpTo latest (plan_of nodes.now) }
    ensures { result ≡ list_any (is_twin (node_of node.now)) (plan_of nodes.now) }
{
    if node.statement > latest {
        return false;
    }
    finds_twin(nodes, node)
}

fn finds_twin(nodes: &[Node], node: &Node) -> bool
    ensures { result ≡ list_any (is_twin (node_of node.now)) (plan_of nodes.now) }
{
    for other in nodes {
        if are_both(&node.op, &other.op) && other.statement == node.statement {
            return true;
        }
    }
    false
}

fn are_both(op: &NodeOp, other: &NodeOp) -> bool
    ensures { result ≡ are_twins (op_of op.now) (op_of other.now) }
{
    match op {
        NodeOp::Limit { .. } => matches!(other, NodeOp::Limit { .. }),
        NodeOp::Assert { .. } => matches!(other, NodeOp::Assert { .. }),
        NodeOp::Load { .. }
        | NodeOp::Filter { .. }
        | NodeOp::Foreach { .. }
        | NodeOp::GroupAll { .. }
        | NodeOp::Group { .. }
        | NodeOp::Join { .. }
        | NodeOp::Union { .. }
        | NodeOp::Distinct { .. }
        | NodeOp::Order { .. }
        | NodeOp::Store { .. }
        | NodeOp::Rank { .. } => false,
    }
}
