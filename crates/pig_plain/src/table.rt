ghost use Rattle.std.specs.Prelude.{◌≡◌, ◌≢◌, ◌+◌, ◌==◌, ℕ, [], true, false, get_or, length, slice_set, IfOk, OnOk};
ghost use Rattle.pig_value.specs.Trees.{rows_tree};
ghost use Rattle.pig_value.specs.Valid.{AreRows};
ghost use Rattle.pig_plain.specs.Coming.{relation_rows, seen_rows};
ghost use Rattle.pig_plain.specs.declared.relation.Relation.TheVariants.{Standing};
ghost use Rattle.pig_plain.specs.Operating.{AreValues, standing_rows, table_rows, taken_rows};
ghost use Rattle.pig_plain.specs.Tables.{HasFound, IsLeft, IsUsed, and_relation, put_at, rows_of};

use crate::copies::copied;
use crate::relation::{Relation, Seen};
use crate::walking::Walk;
use pig_plan::{KeyedInput, NodeOp};
use pig_value::{Rows, Tuple};
use std::alloc::{AllocError, Global};
use std::marker::Model;
use std::mem;

// The relations of the nodes so far, and of each node of the plan one more than the number of its last use, or 0.
//
// The next node is the one that uses them: where that is a node's last use, its rows are taken if this saves a copy.
#[derive(Drop)]
pub struct Table<'p> {
    relations: Vec<Relation<'p>>,
    ends: Vec<usize>,
}

impl<'p> Model for Table<'p> {
    ghost use Rattle.std.specs.Coded.{codes};
    ghost use Rattle.pig_value.specs.contracts.values.Kind as kind;
    ghost use Rattle.pig_value.specs.contracts.values.Value as value;
    ghost use Rattle.pig_value.specs.TreeCode.{coded_tree};
    ghost use Rattle.pig_typed.specs.contracts.exprs.TExpr as expr;
    ghost use Rattle.pig_plain.specs.Operating.{AreValues};
    ghost use Rattle.pig_plain.specs.Tables.{Held};

    ghost Value = { Held };

    ghost coded = { Prim.hlevel (
      codes,
      coded_tree,
      kind.the_row.coded,
      expr.the_row.coded,
      value.the_row.coded,
    ) };

    ghost view = { λ t. record { relations = t.relations.items; ends = t.ends.items } };

    ghost invariant = { λ t. AreValues t.relations.items };
}

impl<'p> Table<'p> {
    pub fn new(alloc: Global, ends: Vec<usize>) -> Table<'p>
        ensures { result ≡ record { relations = []; ends = ends.items } }
    {
        Table {
            relations: Vec::new(alloc),
            ends,
        }
    }

    // All rows are of values, whatever was done.
    pub fn are_values(&self)
        ensures { AreValues self.now.relations }
    {
        let _relations = &self.relations;
    }

    // The relation of the next node.
    pub fn push(&mut self, made: Relation<'p>) -> Result<(), AllocError>
        requires { AreRows (relation_rows made) }
        ensures { OnOk result (self.new ≡ and_relation made.entry self.old) }
    {
        self.relations.push(made)?;
        Ok(())
    }

    // Whether the next node is the last to use a node's rows.
    pub fn is_last(&self, node: u32) -> bool
        ensures { result ≡ (get_or self.now.ends node 0 == length self.now.relations + 1) }
    {
        is_end(self.ends.as_slice(), node, self.relations.len())
    }

    // The rows of a node that stand.
    pub fn rows_at(&self, node: u32) -> &[Tuple]
        ensures { rows_tree result.now ≡ standing_rows self.now.relations node }
    {
        rows_standing(self.relations.as_slice(), node)
    }

    // The rows of a node, to be gone through: those of the walk that was taken, or else those that stand.
    pub fn seen_at<'t>(&'t self, node: u32, taken: Option<Walk<'p>>) -> Seen<'t, 'p>
        ensures { seen_rows result ≡ taken_rows taken.entry self.now.relations node }
    {
        match taken {
            Some(walk) => Seen::Walked(walk),
            None => Seen::Whole(self.rows_at(node)),
        }
    }

    // Takes the rows of a node, of which none are left.
    pub fn take(&mut self, alloc: Global, node: u32) -> Relation<'p>
        ensures rows { relation_rows result ≡ rows_of self.old node }
        ensures none { rows_of self.new node ≡ [] }
        ensures left { IsLeft true node self.old self.new }
    {
        take_relation(alloc, &mut self.relations, node)
    }

    // Puts rows where those of a node were taken.
    fn put(&mut self, node: u32, rows: Rows)
        requires { AreRows (rows_tree rows) }
        ensures { self.new ≡ put_at node rows self.old }
    {
        put_rows(&mut self.relations, node, rows);
    }

    // Makes the rows of a node that do not stand yet.
    pub fn settle(&mut self, alloc: Global, node: u32) -> Result<(), AllocError>
        ensures rows { OnOk result (standing_rows self.new.relations node
            ≡ rows_of self.old node) }
        ensures left { OnOk result (IsLeft false node self.old self.new) }
    {
        self.are_values();
        let relation = self.take(alloc, node);
        let rows = relation.into_rows(alloc)?;
        self.put(node, rows);
        Ok(())
    }

    // Takes the walk of a node, and leaves rows that stand.
    fn take_walk(&mut self, alloc: Global, node: u32) -> Option<Walk<'p>>
        ensures rows { taken_rows result self.new.relations node ≡ rows_of self.old node }
        ensures left { IsLeft true node self.old self.new }
    {
        self.are_values();
        match self.take(alloc, node) {
            Relation::Standing(rows) => {
                self.put(node, rows);
                None
            }
            Relation::Coming(walk) => Some(walk),
        }
    }

    // The walk of a node, taken where this is its last use. Otherwise the rows stand from now on.
    pub fn take_coming(
        &mut self,
        alloc: Global,
        node: u32,
        last: bool,
    ) -> Result<Option<Walk<'p>>, AllocError>
        ensures rows { IfOk result (λ taken. taken_rows taken self.new.relations node
            ≡ rows_of self.old node) }
        ensures left { OnOk result (IsLeft last node self.old self.new) }
    {
        if last {
            return Ok(self.take_walk(alloc, node));
        }
        self.settle(alloc, node)?;
        Ok(None)
    }

    // The walk of a node whose last use this is. Of another node the rows stand from now on.
    pub fn take_input(&mut self, alloc: Global, node: u32) -> Result<Option<Walk<'p>>, AllocError>
        ensures rows { IfOk result (λ taken. taken_rows taken self.new.relations node
            ≡ rows_of self.old node) }
        ensures left { OnOk result (IsUsed self.old self.new) }
    {
        let last = self.is_last(node);
        self.take_coming(alloc, node, last)
    }

    // The rows of a node to keep: its own where this is their last use, and else copies.
    pub fn own_input(&mut self, alloc: Global, node: u32) -> Result<Relation<'p>, AllocError>
        ensures { IfOk result (HasFound (rows_of self.old node) self.old self.new) }
    {
        if self.is_last(node) {
            return Ok(self.take(alloc, node));
        }
        self.settle(alloc, node)?;
        let rows = copied(alloc, self.rows_at(node))?;
        Ok(Relation::Standing(rows))
    }

    // Lets go the rows of a node that no later node looks at.
    pub fn release(&mut self, alloc: Global, node: u32)
        ensures { IsUsed self.old self.new }
    {
        if !self.is_last(node) {
            return;
        }
        drop(self.take(alloc, node));
    }

    // Lets go the rows of an operator's inputs that no later node looks at.
    pub fn release_inputs(&mut self, alloc: Global, op: &NodeOp) -> Result<(), AllocError>
        ensures { OnOk result (IsUsed self.old self.new) }
    {
        let inputs = op.inputs(alloc)?;
        self.release_each(alloc, inputs.as_slice());
        Ok(())
    }

    fn release_each(&mut self, alloc: Global, nodes: &[u32])
        ensures { IsUsed self.old self.new }
    {
        let mut left = nodes;
        'nodes: while let [node, rest @ ..] = left {
            self.release(alloc, *node);
            left = rest;
        }
    }

    // Lets go the rows of inputs by key that no later node looks at.
    pub fn release_keyed(&mut self, alloc: Global, inputs: &[KeyedInput])
        ensures { IsUsed self.old self.new }
    {
        let mut left = inputs;
        'inputs: while let [input, rest @ ..] = left {
            self.release(alloc, input.input);
            left = rest;
        }
    }
}

fn is_end(ends: &[usize], node: u32, number: usize) -> bool
    ensures { result ≡ (get_or ends.now node 0 == number + 1) }
{
    match ends.get(node as usize) {
        Some(end) => *end > number && *end - 1 == number,
        None => false,
    }
}

fn rows_standing<'t>(relations: &'t [Relation], node: u32) -> &'t [Tuple]
    ensures { rows_tree result.now ≡ standing_rows relations.now node }
{
    match relations.get(node as usize) {
        Some(Relation::Standing(rows)) => rows.as_slice(),
        _ => &[],
    }
}

#[tactic(auto, using(crate::proofs::Tables::taken_is, crate::proofs::Tables::others_stand, crate::proofs::Tables::none_past, crate::proofs::Tables::values_stand))]
fn take_relation<'p>(alloc: Global, relations: &mut Vec<Relation<'p>>, node: u32) -> Relation<'p>
    ensures rows { relation_rows result ≡ table_rows relations.old.items node }
    ensures none { table_rows relations.new.items node ≡ [] }
    ensures size { length relations.new.items ≡ length relations.old.items }
    ensures others { (k : ℕ) → k ≢ node
        → table_rows relations.new.items k ≡ table_rows relations.old.items k }
    ensures values { AreValues relations.old.items → AreValues relations.new.items }
{
    let at = node as usize;
    if at >= relations.len() {
        return Relation::Standing(Rows::new(alloc));
    }
    mem::replace(&mut relations[at], Relation::Standing(Rows::new(alloc)))
}

fn put_rows(relations: &mut Vec<Relation>, node: u32, rows: Rows)
    ensures { relations.new.items ≡ slice_set relations.old.items node (Standing rows) }
{
    let at = node as usize;
    if at < relations.len() {
        drop(mem::replace(&mut relations[at], Relation::Standing(rows)));
    }
}
