ghost use Rattle.std.specs.Prelude.{◌≡◌, ◌||◌, ◌++◌, [], false, get_or, length, List, IfOk, OnOk, IsFalse, replicate, slice_set};
ghost use Rattle.std.specs.List.{list_any};
ghost use Rattle.pig_value.specs.Trees.{Tree};
ghost use Rattle.pig_value.specs.Valid.{AreRows, IsValue};
ghost use Rattle.pig_plan.specs.Laws.{PlanLiteralsAre};
ghost use Rattle.pig_plan.specs.Plans.{op_of, plan_of};
ghost use Rattle.pig_plan.specs.Steps.{node_step, step_rows, through};
ghost use Rattle.pig_stream.specs.Stepping.{AreSameSteps, HaveNoted, folding_on, marked_folding, path_on, plan_on, put_through, unmet_by};
ghost use Rattle.pig_stream.specs.Unmet.{either_of, fails, fails_at, fails_on, is_assert, is_assert_at, marked, statement_of};

use crate::batch::Batch;
use crate::buffer::all_pass;
use pig_plan::{Node, NodeOp};
use pig_value::Numbers;
use std::alloc::{AllocError, Global};

/// The nodes of a plan that rows go through, one behind the other, and which of their ASSERTs some row did not meet.
#[derive(Drop)]
pub struct Steps<'p> {
    nodes: &'p [Node],
    /// The numbers of the nodes that the rows go through.
    path: &'p [u32],
    /// Which nodes of the plan fold, so that a FOREACH on one hands its rows on.
    folded: &'p [bool],
    /// For each node of the path, whether it is an ASSERT that some row did not meet.
    failed: Vec<bool>,
}

impl<'p> Steps<'p> {
    /// The steps through the nodes of these numbers, before any row. `folded` has, by number, which nodes fold; those
    /// behind its end don't.
    pub fn new(
        alloc: Global,
        nodes: &'p [Node],
        path: &'p [u32],
        folded: &'p [bool],
    ) -> Result<Steps<'p>, AllocError>
        ensures plan { IfOk result (λ steps. plan_on steps ≡ plan_of nodes.now) }
        ensures path { IfOk result (λ steps. path_on steps ≡ path.now) }
        ensures folding { IfOk result (λ steps. folding_on steps ≡ marked_folding folded.now) }
        ensures none { IfOk result (λ steps. HaveNoted steps []) }
    {
        let failed = no_marks(alloc, path.len())?;
        Ok(Steps {
            nodes,
            path,
            folded,
            failed,
        })
    }

    /// Takes a batch through the steps, and notes the ASSERTs that it doesn't meet.
    pub fn apply(&mut self, alloc: Global, batch: &mut Batch) -> Result<(), AllocError>
        ensures steps { AreSameSteps self.old self.new }
        ensures rows { OnOk result (batch.new ≡ put_through self.old batch.old) }
        ensures values { PlanLiteralsAre IsValue (plan_on self.old) → AreRows batch.old
            → OnOk result (AreRows batch.new) }
        ensures noted { (seen : List (List Tree)) → HaveNoted self.old seen
            → OnOk result (HaveNoted self.new (seen ++ batch.old)) }
    {
        take_through(
            alloc,
            self.nodes,
            self.path,
            self.folded,
            &mut self.failed,
            batch,
        )
    }

    /// Whether an ASSERT is among the steps. Where none is, no rows change what was noted.
    pub fn has_asserts(&self) -> bool
        ensures is { result ≡ list_any (is_assert_at (plan_on self.now)) (path_on self.now) }
        ensures none { IsFalse result → (seen rows : List (List Tree)) → HaveNoted self.now seen
            → HaveNoted self.now (seen ++ rows) }
    {
        asserts(self.nodes, self.path)
    }

    /// The statements of the ASSERTs that some row did not meet, in the order of the path.
    pub fn unmet(&self, alloc: Global) -> Result<Numbers, AllocError>
        ensures { (rows : List (List Tree)) → HaveNoted self.now rows
            → IfOk result (λ unmet. unmet ≡ unmet_by self.now rows) }
    {
        marked_of(alloc, self.nodes, self.path, self.failed.as_slice())
    }
}

fn asserts(nodes: &[Node], path: &[u32]) -> bool
    ensures { result ≡ list_any (is_assert_at (plan_of nodes.now)) path.now }
{
    let mut left = path;
    'nodes: while let [number, more @ ..] = left {
        if is_assert_at(nodes, *number) {
            return true;
        }
        left = more;
    }
    false
}

fn is_assert_at(nodes: &[Node], number: u32) -> bool
    ensures { result ≡ is_assert_at (plan_of nodes.now) number }
{
    match nodes.get(number as usize) {
        Some(node) => is_assert(&node.op),
        None => false,
    }
}

fn is_assert(op: &NodeOp) -> bool
    ensures { result ≡ is_assert (op_of op.now) }
{
    matches!(op, NodeOp::Assert { .. })
}

fn no_marks(alloc: Global, count: usize) -> Result<Vec<bool>, AllocError>
    ensures { IfOk result (λ marks. marks.items ≡ replicate count false) }
{
    let mut marks = Vec::new(alloc);
    marks.resize(count, false)?;
    Ok(marks)
}

fn take_through(
    alloc: Global,
    nodes: &[Node],
    path: &[u32],
    folded: &[bool],
    failed: &mut Vec<bool>,
    batch: &mut Batch,
) -> Result<(), AllocError>
    ensures rows { OnOk result (batch.new
        ≡ through (marked_folding folded.now) (plan_of nodes.now) path.now batch.old) }
    ensures marks { length failed.old.items ≡ length path.now
        → OnOk result (failed.new.items ≡ either_of failed.old.items
        (fails_on (marked_folding folded.now) (plan_of nodes.now) path.now batch.old)) }
{
    'path: for at in 0..path.len() {
        let known = is_marked(failed.as_slice(), at);
        let fails = step(alloc, nodes, path[at], folded, known, batch)?;
        mark(failed, at, fails);
    }
    Ok(())
}

fn is_marked(marks: &[bool], at: usize) -> bool
    ensures { result ≡ get_or marks.now at false }
{
    match marks.get(at) {
        Some(mark) => *mark,
        None => false,
    }
}

fn mark(marks: &mut Vec<bool>, at: usize, value: bool)
    ensures { marks.new.items ≡ slice_set marks.old.items at value }
{
    if at < marks.len() {
        marks[at] = value;
    }
}

// Takes a batch through a node, and answers whether that is an ASSERT which some row does not meet, of this batch or, where
// it is known, of one before.
fn step(
    alloc: Global,
    nodes: &[Node],
    number: u32,
    folded: &[bool],
    known: bool,
    batch: &mut Batch,
) -> Result<bool, AllocError>
    ensures rows { OnOk result (batch.new
        ≡ node_step (marked_folding folded.now) (plan_of nodes.now) number batch.old) }
    ensures fails { IfOk result (λ f. f
        ≡ (known || fails_at (plan_of nodes.now) number batch.old)) }
{
    match nodes.get(number as usize) {
        Some(node) => operate(alloc, &node.op, folded, known, batch),
        None => Ok(known),
    }
}

// Each operator stands here, so that a new one is thought of.
fn operate(
    alloc: Global,
    op: &NodeOp,
    folded: &[bool],
    known: bool,
    batch: &mut Batch,
) -> Result<bool, AllocError>
    ensures rows { OnOk result (batch.new
        ≡ step_rows (marked_folding folded.now) (op_of op.now) batch.old) }
    ensures fails { IfOk result (λ f. f ≡ (known || fails (op_of op.now) batch.old)) }
{
    match op {
        NodeOp::Filter { cond, .. } => {
            batch.keep(alloc, cond)?;
            Ok(known)
        }
        NodeOp::Foreach { input, block } => {
            if !is_marked(folded, *input as usize) {
                batch.generate(alloc, block)?;
            }
            Ok(known)
        }
        NodeOp::Assert { cond, .. } => {
            if known {
                return Ok(true);
            }
            let passes = all_pass(alloc, cond, batch.as_slice())?;
            Ok(!passes)
        }
        NodeOp::Load { .. }
        | NodeOp::GroupAll { .. }
        | NodeOp::Group { .. }
        | NodeOp::Join { .. }
        | NodeOp::Union { .. }
        | NodeOp::Distinct { .. }
        | NodeOp::Order { .. }
        | NodeOp::Limit { .. }
        | NodeOp::Store { .. }
        | NodeOp::Rank { .. } => Ok(known),
    }
}

// The statements of the nodes that are marked.
fn marked_of(
    alloc: Global,
    nodes: &[Node],
    path: &[u32],
    marks: &[bool],
) -> Result<Numbers, AllocError>
    ensures { IfOk result (λ found. found ≡ marked (plan_of nodes.now) path.now marks.now) }
{
    let mut found = Numbers::new(alloc);
    let mut left = path;
    let mut rest = marks;
    'nodes: while let [number, more @ ..] = left {
        let [mark, others @ ..] = rest else {
            return Ok(found);
        };
        if *mark {
            add_statement(nodes, *number, &mut found)?;
        }
        left = more;
        rest = others;
    }
    Ok(found)
}

fn add_statement(nodes: &[Node], number: u32, found: &mut Numbers) -> Result<(), AllocError>
    ensures { OnOk result (found.new ≡ found.old ++ statement_of (plan_of nodes.now) number) }
{
    match nodes.get(number as usize) {
        Some(node) => found.push(node.statement),
        None => Ok(()),
    }
}
