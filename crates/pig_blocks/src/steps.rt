ghost use Rattle.std.specs.Prelude.{◌≡◌, [], IfOk};
ghost use Rattle.pig_schema.specs.FieldTrees.{schema_tree};
ghost use Rattle.pig_syntax.specs.ExprTrees.{expr_form};
ghost use Rattle.pig_typed.specs.Typed.{s_distinct, s_filter, s_limit, s_order, s_take, typed};
ghost use Rattle.pig_typing.specs.Columns.{place_of};
ghost use Rattle.pig_typing.specs.Conditions.{condition_on};
ghost use Rattle.pig_typing.specs.Parts.{typed_column, typed_of};
ghost use Rattle.pig_typing.specs.Results.{Tells};
ghost use Rattle.pig_blocks.specs.SortKeys.{sorted_by};
ghost use Rattle.pig_blocks.specs.Steps.{made, made_of, one_more, place_behind, row_place, stepped, steps_of};
ghost use Rattle.pig_blocks.specs.Views.{bag_tree, made_tree, stepped_tree};

use crate::bags::{TypedBag, bag, inside};
use crate::keys::sort_keys;
use pig_schema::{Field, Schema};
use pig_syntax::{Expr, Nested, OrderKeys, Step};
use pig_typed::{BlockStep, BlockSteps, SortKeys, TExpr};
use pig_typing::{Local, Locals, Scope, TypeFault, type_condition};
use pig_value::{Boxed, Seq, Text};
use std::alloc::{AllocError, Global};

// A typed step, and the column that its bag has.
#[derive(Drop)]
pub struct Made {
    pub step: BlockStep,
    pub column: Boxed<Field>,
}

// The typed steps so far, and what stands behind them.
#[derive(Drop)]
pub struct Stepped<'a> {
    pub steps: BlockSteps,
    pub columns: &'a Schema,
    pub locals: Locals,
}

// The steps of a nested block over a row of these columns, in turn: each sees the row and the steps before it.
#[tactic(auto, unfolding(crate::specs::Steps::steps_of))]
pub fn all_steps<'a>(
    alloc: Global,
    steps: &[Step],
    columns: &'a Schema,
) -> Result<Stepped<'a>, TypeFault>
    ensures { Tells stepped_tree (steps_of (row_place (schema_tree columns.now)) steps.now) result }
{
    let mut so_far = before(alloc, columns);
    for step in steps {
        let alias = step.alias.copy(alloc)?;
        let made = next(alloc, &step.nested, &so_far)?;
        so_far = with_step(so_far, alias, made)?;
    }
    Ok(so_far)
}

fn before<'a>(alloc: Global, columns: &'a Schema) -> Stepped<'a>
    ensures { stepped_tree result ≡ stepped [] (row_place (schema_tree columns.now)) }
{
    Stepped {
        steps: Seq::new(alloc),
        columns,
        locals: Locals::new(alloc),
    }
}

fn with_step<'a>(so_far: Stepped<'a>, alias: Text, made: Made) -> Result<Stepped<'a>, AllocError>
    ensures { IfOk result (λ ss. stepped_tree ss
        ≡ one_more (stepped_tree so_far.entry) alias (made_tree made)) }
{
    let Stepped {
        steps,
        columns,
        locals,
    } = so_far;
    let Made { step, column } = made;
    let mut steps = steps;
    let mut locals = locals;
    steps.push(step)?;
    let column = column.into_inner();
    locals.push(Local { alias, column })?;
    Ok(Stepped {
        steps,
        columns,
        locals,
    })
}

// The next step, which sees the steps so far.
fn next(alloc: Global, nested: &Nested, so_far: &Stepped) -> Result<Made, TypeFault>
    ensures { Tells made_tree (made_of (place_behind (stepped_tree so_far.now)) nested.now) result }
{
    let scope = Scope {
        columns: so_far.columns,
        locals: &so_far.locals,
    };
    one(alloc, nested, &scope)
}

#[tactic(auto, unfolding(crate::specs::Steps::made_of))]
fn one(alloc: Global, nested: &Nested, scope: &Scope) -> Result<Made, TypeFault>
    ensures { Tells made_tree (made_of (place_of scope.now) nested.now) result }
{
    match nested {
        Nested::Filter { from, cond } => {
            let bag = bag(alloc, from, scope)?;
            let cond = condition(alloc, inside(&bag), cond)?;
            Ok(filter(bag, cond))
        }
        Nested::Distinct { from } => Ok(distinct(bag(alloc, from, scope)?)),
        Nested::Order { from, keys } => {
            let bag = bag(alloc, from, scope)?;
            let keys = keys_over(alloc, inside(&bag), keys)?;
            Ok(order(bag, keys))
        }
        Nested::Limit { from, count } => Ok(limit(bag(alloc, from, scope)?, *count)),
        Nested::Take { from } => Ok(take(bag(alloc, from, scope)?)),
    }
}

// A condition over a bag's tuples, which sees their fields alone.
fn condition(alloc: Global, columns: &Schema, cond: &Expr) -> Result<Boxed<TExpr>, TypeFault>
    ensures { Tells typed (condition_on (row_place (schema_tree columns.now))
        (expr_form cond.now)) result }
{
    let locals = Locals::new(alloc);
    let scope = Scope {
        columns,
        locals: &locals,
    };
    let cond = type_condition(alloc, cond, &scope)?;
    Ok(Boxed::new(alloc, cond)?)
}

fn keys_over(alloc: Global, columns: &Schema, keys: &OrderKeys) -> Result<SortKeys, TypeFault>
    ensures { Tells (λ ks. ks) (sorted_by (schema_tree columns.now) keys.now) result }
{
    sort_keys(alloc, keys, columns)
}

fn filter(bag: TypedBag, cond: Boxed<TExpr>) -> Made
    ensures { made_tree result
        ≡ made (s_filter (typed_of (bag_tree bag)) (typed cond)) (typed_column (bag_tree bag)) }
{
    let from = bag.expr.into_inner();
    let cond = cond.into_inner();
    Made {
        step: BlockStep::Filter { from, cond },
        column: bag.column,
    }
}

fn order(bag: TypedBag, keys: SortKeys) -> Made
    ensures { made_tree result
        ≡ made (s_order (typed_of (bag_tree bag)) keys) (typed_column (bag_tree bag)) }
{
    let from = bag.expr.into_inner();
    Made {
        step: BlockStep::Order { from, keys },
        column: bag.column,
    }
}

fn limit(bag: TypedBag, count: u64) -> Made
    ensures { made_tree result
        ≡ made (s_limit (typed_of (bag_tree bag)) count) (typed_column (bag_tree bag)) }
{
    let from = bag.expr.into_inner();
    Made {
        step: BlockStep::Limit { from, count },
        column: bag.column,
    }
}

fn distinct(bag: TypedBag) -> Made
    ensures { made_tree result
        ≡ made (s_distinct (typed_of (bag_tree bag))) (typed_column (bag_tree bag)) }
{
    let from = bag.expr.into_inner();
    Made {
        step: BlockStep::Distinct { from },
        column: bag.column,
    }
}

fn take(bag: TypedBag) -> Made
    ensures { made_tree result
        ≡ made (s_take (typed_of (bag_tree bag))) (typed_column (bag_tree bag)) }
{
    let from = bag.expr.into_inner();
    Made {
        step: BlockStep::Take { from },
        column: bag.column,
    }
}
