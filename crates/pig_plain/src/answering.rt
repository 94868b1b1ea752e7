ghost use Rattle.std.specs.Prelude.{◌≡◌, ◌+◌, [], ◌∷◌, ◌++◌, true, false, map, Some, slice_get, IfOk, OnOk};
ghost use Rattle.pig_value.specs.Trees.{rows_tree};
ghost use Rattle.pig_value.specs.Valid.{AreRows, IsValue};
ghost use Rattle.pig_plan.specs.Laws.{AreOfBytes, PlanLiteralsAre};
ghost use Rattle.pig_plan.specs.Nodes.{is_live, sorted_marks};
ghost use Rattle.pig_plan.specs.Plans.{node_of, op_of, plan_of};
ghost use Rattle.pig_plan.specs.Results.{at_place};
ghost use Rattle.pig_plan.specs.Valid.{IsPlan};
ghost use Rattle.pig_plain.specs.Answering.{IsAnswer};
ghost use Rattle.pig_plain.specs.Coming.{relation_rows};
ghost use Rattle.pig_plain.specs.Operating.{no_rows};
ghost use Rattle.pig_plain.specs.SoFar.{IsSoFar};
ghost use Rattle.pig_plain.specs.Kinds.{kind_in, limit_kind};
ghost use Rattle.pig_plain.specs.Tables.{and_relation};
ghost use Rattle.pig_plain.specs.Uses.{AreMarked};

use crate::copies::copied;
use crate::laws::inputs_are_of_bytes;
use crate::operating::found;
use crate::relation::Relation;
use crate::table::Table;
use crate::uses::{Uses, is_live, uses_of};
use pig_plan::{Node, NodeOp, Plan, is_marked, sorted_marks};
use pig_value::{Input, Inputs, Kept, KeptList, Rows, Seq};
use std::alloc::{AllocError, Global};

/// Rows of several relations.
pub type Relations = Seq<Rows>;

/// What a plan means over inputs: the rows that each live bare LIMIT kept, and those of each STORE, in the order of the
/// plan's nodes.
#[derive(Debug, Drop)]
pub struct Answers {
    pub kept: KeptList,
    pub stores: Relations,
}

/// Runs a plan over inputs, one node after another; a LOAD of a path without an input has no rows.
///
/// Only live nodes are computed, each once, and rows are let go after their last use. A bare LIMIT keeps the first rows
/// as they come.
pub fn answer(alloc: Global, plan: &Plan, inputs: &Inputs) -> Result<Answers, AllocError>
    ensures { IfOk result (λ found. IsAnswer (plan_of plan.now) inputs.now
        found.kept (map rows_tree found.stores)) }
{
    let all = plan.nodes();
    let given = inputs.as_slice();
    inputs_are_of_bytes(given);
    let Uses { live, ends } = uses_of(alloc, plan)?;
    let nodes = all.as_slice();
    let sorted = sorted_marks(alloc, nodes)?;
    let mut so_far = Running {
        table: Table::new(alloc, ends),
        kept: KeptList::new(alloc),
        stores: Relations::new(alloc),
    };
    let mut number = 0;
    'nodes: while number < nodes.len() {
        so_far.run_node(
            alloc,
            plan,
            given,
            live.as_slice(),
            sorted.as_slice(),
            number,
            &nodes[number],
        )?;
        number += 1;
    }
    let Running { kept, stores, .. } = so_far;
    Ok(Answers { kept, stores })
}

// What stands after the nodes before one: their rows, what was kept, and what is stored.
#[derive(Drop)]
struct Running<'p> {
    table: Table<'p>,
    kept: KeptList,
    stores: Relations,
}

impl<'p> Running<'p> {
    // Goes on by one node.
    fn run_node(
        &mut self,
        alloc: Global,
        plan: &Plan,
        inputs: &'p [Input],
        live: &[bool],
        sorted: &[bool],
        number: usize,
        node: &'p Node,
    ) -> Result<(), AllocError>
        requires bytes { AreOfBytes inputs.now }
        requires valid { IsPlan (plan_of plan.now) }
        requires literals { PlanLiteralsAre IsValue (plan_of plan.now) }
        requires live { AreMarked (plan_of plan.now) live.now }
        requires sorted { sorted.now ≡ sorted_marks (plan_of plan.now) }
        requires node { slice_get (plan_of plan.now) number ≡ Some (node_of node.now) }
        requires so_far { IsSoFar (plan_of plan.now) inputs.now number
            self.old.table self.old.kept (map rows_tree self.old.stores) }
        ensures { OnOk result (IsSoFar (plan_of plan.now) inputs.now (number + 1)
            self.new.table self.new.kept (map rows_tree self.new.stores)) }
    {
        let lives = is_live(live, number);
        if lives {
            return self.run_live_node(alloc, plan, inputs, sorted, number, node);
        }
        self.put(Relation::Standing(Rows::new(alloc)))
    }

    // Goes on by a live node.
    fn run_live_node(
        &mut self,
        alloc: Global,
        plan: &Plan,
        inputs: &'p [Input],
        sorted: &[bool],
        number: usize,
        node: &'p Node,
    ) -> Result<(), AllocError>
        requires bytes { AreOfBytes inputs.now }
        requires valid { IsPlan (plan_of plan.now) }
        requires literals { PlanLiteralsAre IsValue (plan_of plan.now) }
        requires sorted { sorted.now ≡ sorted_marks (plan_of plan.now) }
        requires node { slice_get (plan_of plan.now) number ≡ Some (node_of node.now) }
        requires live { is_live (plan_of plan.now) number ≡ true }
        requires so_far { IsSoFar (plan_of plan.now) inputs.now number
            self.old.table self.old.kept (map rows_tree self.old.stores) }
        ensures { OnOk result (IsSoFar (plan_of plan.now) inputs.now (number + 1)
            self.new.table self.new.kept (map rows_tree self.new.stores)) }
    {
        let made = found(alloc, plan, inputs, &node.op, &mut self.table)?;
        self.table.release_inputs(alloc, &node.op)?;
        match kind_of(&node.op, sorted) {
            Kind::Stored => self.put_stored(alloc, made),
            Kind::Kept => self.put_kept(alloc, node.statement, made),
            Kind::Standing => self.put(made),
        }
    }

    // The rows stand for later nodes.
    fn put(&mut self, made: Relation<'p>) -> Result<(), AllocError>
        requires { AreRows (relation_rows made) }
        ensures table { OnOk result (self.new.table ≡ and_relation made.entry self.old.table) }
        ensures kept { self.new.kept ≡ self.old.kept }
        ensures stores { self.new.stores ≡ self.old.stores }
    {
        self.table.push(made)
    }

    // The rows of a STORE are looked at by no node.
    fn put_stored(&mut self, alloc: Global, made: Relation<'p>) -> Result<(), AllocError>
        ensures table { OnOk result (self.new.table ≡ and_relation no_rows self.old.table) }
        ensures kept { self.new.kept ≡ self.old.kept }
        ensures stores { OnOk result (map rows_tree self.new.stores
            ≡ map rows_tree self.old.stores ++ relation_rows made.entry ∷ []) }
    {
        let rows = made.into_rows(alloc)?;
        self.stores.push(rows)?;
        self.put(Relation::Standing(Rows::new(alloc)))
    }

    // The rows of a bare LIMIT stand, and copies are kept.
    fn put_kept(
        &mut self,
        alloc: Global,
        statement: u32,
        made: Relation<'p>,
    ) -> Result<(), AllocError>
        requires { AreRows (relation_rows made) }
        ensures table { OnOk result ((rows : Relation)
            × (relation_rows rows ≡ relation_rows made.entry)
            × (self.new.table ≡ and_relation rows self.old.table)) }
        ensures kept { OnOk result ((k : Kept) × (k.statement ≡ statement)
            × (rows_tree k.rows ≡ relation_rows made.entry)
            × (self.new.kept ≡ self.old.kept ++ k ∷ [])) }
        ensures stores { self.new.stores ≡ self.old.stores }
    {
        let rows = made.into_rows(alloc)?;
        let copies = copied(alloc, rows.as_slice())?;
        self.kept.push(Kept {
            statement,
            rows: copies,
        })?;
        self.put(Relation::Standing(rows))
    }
}

// What becomes of the rows of a live node.
enum Kind {
    /// A STORE's are stored.
    Stored,
    /// A bare LIMIT's are kept, and stand for later nodes.
    Kept,
    /// Others stand for later nodes.
    Standing,
}

fn kind_of(op: &NodeOp, sorted: &[bool]) -> Kind
    ensures { result ≡ kind_in (at_place false sorted.now) (op_of op.now) }
{
    match op {
        NodeOp::Store { .. } => Kind::Stored,
        NodeOp::Limit { input, .. } => kind_of_limit(sorted, *input),
        _ => Kind::Standing,
    }
}

// A LIMIT on no sorted node is bare.
fn kind_of_limit(sorted: &[bool], input: u32) -> Kind
    ensures { result ≡ limit_kind (at_place false sorted.now input) }
{
    if is_marked(sorted, input) {
        Kind::Standing
    } else {
        Kind::Kept
    }
}
