ghost use Rattle.std.specs.Prelude.{IfOk};
ghost use Rattle.pig_value.specs.Valid.{AreRows, IsValue};
ghost use Rattle.pig_plan.specs.Laws.{AreOfBytes, OpLiteralsAre};
ghost use Rattle.pig_plan.specs.Meaning.{width_at};
ghost use Rattle.pig_plan.specs.Plans.{op_of, plan_of};
ghost use Rattle.pig_plain.specs.Coming.{relation_rows};
ghost use Rattle.pig_plain.specs.Operating.{found_rows};
ghost use Rattle.pig_plain.specs.Tables.{HasFound, rows_of};

use crate::keyed::{group_all, grouped, joined};
use crate::loading::loaded;
use crate::ranking::ranked;
use crate::relation::Relation;
use crate::rowwise::{filtered, foreached, limited, united};
use crate::sorting::{each_once, in_order};
use crate::table::Table;
use pig_plan::{NodeOp, Plan};
use pig_value::Input;
use std::alloc::{AllocError, Global};

// What a node's operator gives of the rows of the nodes before it, as they come; a LIMIT gives the first of them.
//
// The rows of LOAD, GROUP, COGROUP, JOIN and ORDER, and of FILTER and FOREACH on them, are made where they are used. Rows
// that are used here for the last time are taken where that saves a copy.
pub fn found<'p>(
    alloc: Global,
    plan: &Plan,
    inputs: &'p [Input],
    op: &'p NodeOp,
    table: &mut Table<'p>,
) -> Result<Relation<'p>, AllocError>
    requires bytes { AreOfBytes inputs.now }
    requires literals { OpLiteralsAre IsValue (op_of op.now) }
    ensures found { IfOk result (HasFound (found_rows inputs.now (width_at (plan_of plan.now))
        (op_of op.now) (rows_of table.old)) table.old table.new) }
    ensures valid { IfOk result (λ made. AreRows (relation_rows made)) }
{
    table.are_values();
    made(alloc, plan, inputs, op, table)
}

fn made<'p>(
    alloc: Global,
    plan: &Plan,
    inputs: &'p [Input],
    op: &'p NodeOp,
    table: &mut Table<'p>,
) -> Result<Relation<'p>, AllocError>
    requires literals { OpLiteralsAre IsValue (op_of op.now) }
    ensures { IfOk result (HasFound (found_rows inputs.now (width_at (plan_of plan.now))
        (op_of op.now) (rows_of table.old)) table.old table.new) }
{
    match op {
        NodeOp::Load {
            path,
            delim,
            columns,
        } => Ok(Relation::Coming(loaded(alloc, inputs, path, *delim, columns))),
        NodeOp::Filter { input, cond } => filtered(alloc, cond, table, *input),
        NodeOp::Foreach { input, block } => { foreached(alloc, block, table, *input) },
        NodeOp::GroupAll { input } => group_all(alloc, table, *input),
        NodeOp::Group { inputs: keyed } => grouped(alloc, keyed.as_slice(), table),
        NodeOp::Join {
            inputs: keyed,
            side,
            ..
        } => joined(alloc, plan, keyed.as_slice(), *side, table),
        NodeOp::Union { inputs: numbers } => { united(alloc, table, numbers.as_slice()) }
        NodeOp::Distinct { input } => each_once(alloc, table, *input),
        NodeOp::Order { input, keys } => in_order(alloc, keys, table, *input),
        NodeOp::Limit { input, count } => { limited(alloc, table, *input, *count) },
        NodeOp::Store { input, .. } | NodeOp::Assert { input, .. } => {
            table.own_input(alloc, *input)
        }
        NodeOp::Rank { input, keys, dense } => { ranked(alloc, table, *input, keys, *dense) }
    }
}
