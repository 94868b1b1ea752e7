ghost use Rattle.std.specs.Prelude.{◌≡◌, IfOk};
ghost use Rattle.pig_typed.specs.Copying.{Copies};

use crate::{
    Block, BlockItem, BlockItems, BlockStep, BlockSteps, SortKeys, TExpr, TExprs, TLink, TLinks,
};
use pig_value::{Boxed, Kind, Positions, Rel, Seq, Text, copy_kind};
use std::alloc::{AllocError, Global};

// What stands inside an expression is copied by a function that copies the expressions there.
#[derive(Clone, Copy)]
struct Inside<F> {
    alloc: Global,
    copy: F,
}

impl<F: Fn(Global, &TExpr) -> Result<TExpr, AllocError>> Inside<F> {
    fn boxed(&self, e: &Boxed<TExpr>) -> Result<Boxed<TExpr>, AllocError>
        requires { Copies e.now (F.pre self.now.copy) (F.post self.now.copy) }
        ensures { IfOk result (λ c. c ≡ e.now) }
    {
        Boxed::new(self.alloc, (self.copy)(self.alloc, e.get())?)
    }

    fn chain(&self, first: &Boxed<TExpr>, rest: TLinks) -> Result<TExpr, AllocError>
        requires { Copies first.now (F.pre self.now.copy) (F.post self.now.copy) }
        ensures { IfOk result (λ c. c ≡ TExpr.Chain first.now rest) }
    {
        let first = self.boxed(first)?;
        Ok(TExpr::Chain { first, rest })
    }

    fn comparison(&self, op: Rel, a: &Boxed<TExpr>, b: &Boxed<TExpr>) -> Result<TExpr, AllocError>
        requires a { Copies a.now (F.pre self.now.copy) (F.post self.now.copy) }
        requires b { Copies b.now (F.pre self.now.copy) (F.post self.now.copy) }
        ensures { IfOk result (λ c. c ≡ TExpr.Compare op a.now b.now) }
    {
        let a = self.boxed(a)?;
        let b = self.boxed(b)?;
        Ok(TExpr::Compare { op, a, b })
    }

    fn null_test(&self, a: &Boxed<TExpr>, not: bool) -> Result<TExpr, AllocError>
        requires { Copies a.now (F.pre self.now.copy) (F.post self.now.copy) }
        ensures { IfOk result (λ c. c ≡ TExpr.IsNull a.now not) }
    {
        let a = self.boxed(a)?;
        Ok(TExpr::IsNull { a, not })
    }

    fn choice(
        &self,
        cond: &Boxed<TExpr>,
        yes: &Boxed<TExpr>,
        no: &Boxed<TExpr>,
    ) -> Result<TExpr, AllocError>
        requires cond { Copies cond.now (F.pre self.now.copy) (F.post self.now.copy) }
        requires yes { Copies yes.now (F.pre self.now.copy) (F.post self.now.copy) }
        requires no { Copies no.now (F.pre self.now.copy) (F.post self.now.copy) }
        ensures { IfOk result (λ c. c ≡ TExpr.Choose cond.now yes.now no.now) }
    {
        let cond = self.boxed(cond)?;
        let yes = self.boxed(yes)?;
        let no = self.boxed(no)?;
        Ok(TExpr::Choose { cond, yes, no })
    }

    fn cast(&self, to: &Kind, a: &Boxed<TExpr>) -> Result<TExpr, AllocError>
        requires { Copies a.now (F.pre self.now.copy) (F.post self.now.copy) }
        ensures { IfOk result (λ c. c ≡ TExpr.Cast to.now a.now) }
    {
        let a = self.boxed(a)?;
        let to = copy_kind(self.alloc, to)?;
        Ok(TExpr::Cast { to, a })
    }

    fn projection(
        &self,
        a: &Boxed<TExpr>,
        fields: &Positions,
        single: bool,
    ) -> Result<TExpr, AllocError>
        requires { Copies a.now (F.pre self.now.copy) (F.post self.now.copy) }
        ensures { IfOk result (λ c. c ≡ TExpr.Project a.now fields.now single) }
    {
        let a = self.boxed(a)?;
        let fields = copy_positions(self.alloc, fields)?;
        Ok(TExpr::Project { a, fields, single })
    }

    fn look_up(&self, a: &Boxed<TExpr>, key: &Text) -> Result<TExpr, AllocError>
        requires { Copies a.now (F.pre self.now.copy) (F.post self.now.copy) }
        ensures { IfOk result (λ c. c ≡ TExpr.Look a.now key.now) }
    {
        let a = self.boxed(a)?;
        let key = key.copy(self.alloc)?;
        Ok(TExpr::Look { a, key })
    }
}

/// A copy of an expression, which holds memory of its own.
#[cycle(copy_expr)]
pub fn copy_expr(alloc: Global, e: &TExpr) -> Result<TExpr, AllocError>
    ensures { IfOk result (λ c. c ≡ e.now) }
{
    let inside = Inside {
        alloc,
        copy: copy_expr,
    };
    match e {
        TExpr::Null => Ok(TExpr::Null),
        TExpr::Bool(b) => Ok(TExpr::Bool(*b)),
        TExpr::Int(n) => Ok(TExpr::Int(*n)),
        TExpr::Long(n) => Ok(TExpr::Long(*n)),
        TExpr::Chars(text) => Ok(TExpr::Chars(text.copy(alloc)?)),
        TExpr::Field(n) => Ok(TExpr::Field(*n)),
        TExpr::Local(n) => Ok(TExpr::Local(*n)),
        TExpr::Chain { first, rest } => inside.chain(first, copy_links(alloc, rest)?),
        TExpr::Compare { op, a, b } => inside.comparison(*op, a, b),
        TExpr::IsNull { a, not } => inside.null_test(a, *not),
        TExpr::Not(a) => Ok(TExpr::Not(inside.boxed(a)?)),
        TExpr::Minus(a) => Ok(TExpr::Minus(inside.boxed(a)?)),
        TExpr::Choose { cond, yes, no } => inside.choice(cond, yes, no),
        TExpr::Cast { to, a } => inside.cast(to, a),
        TExpr::Project { a, fields, single } => inside.projection(a, fields, *single),
        TExpr::Look { a, key } => inside.look_up(a, key),
        TExpr::Call { function, args } => Ok(TExpr::Call {
            function: *function,
            args: copy_exprs(alloc, args)?,
        }),
    }
}

#[cycle(copy_expr)]
fn copy_links(alloc: Global, links: &TLinks) -> Result<TLinks, AllocError>
    ensures { IfOk result (λ c. c ≡ links.now) }
{
    let links = links.as_slice();
    let mut made = Vec::with_capacity(alloc, links.len())?;
    for link in links {
        let a = copy_expr(alloc, &link.a)?;
        made.push(TLink { op: link.op, a })?;
    }
    Ok(Seq::from_vec(made))
}

/// Copies of expressions, in order.
#[cycle(copy_expr)]
pub fn copy_exprs(alloc: Global, exprs: &TExprs) -> Result<TExprs, AllocError>
    ensures { IfOk result (λ c. c ≡ exprs.now) }
{
    let exprs = exprs.as_slice();
    let mut made = Vec::with_capacity(alloc, exprs.len())?;
    for e in exprs {
        made.push(copy_expr(alloc, e)?)?;
    }
    Ok(Seq::from_vec(made))
}

/// A copy of positions.
pub fn copy_positions(alloc: Global, positions: &Positions) -> Result<Positions, AllocError>
    ensures { IfOk result (λ c. c ≡ positions.now) }
{
    let positions = positions.as_slice();
    let mut made = Vec::with_capacity(alloc, positions.len())?;
    for position in positions {
        made.push(*position)?;
    }
    Ok(Seq::from_vec(made))
}

/// A copy of sort keys.
pub fn copy_keys(alloc: Global, keys: &SortKeys) -> Result<SortKeys, AllocError>
    ensures { IfOk result (λ c. c ≡ keys.now) }
{
    let keys = keys.as_slice();
    let mut made = Vec::with_capacity(alloc, keys.len())?;
    for key in keys {
        made.push(*key)?;
    }
    Ok(Seq::from_vec(made))
}

/// A copy of a block, which holds memory of its own.
pub fn copy_block(alloc: Global, block: &Block) -> Result<Block, AllocError>
    ensures { IfOk result (λ c. c ≡ block.now) }
{
    let steps = copy_steps(alloc, &block.steps)?;
    let items = copy_items(alloc, &block.items)?;
    Ok(Block { steps, items })
}

fn copy_steps(alloc: Global, steps: &BlockSteps) -> Result<BlockSteps, AllocError>
    ensures { IfOk result (λ c. c ≡ steps.now) }
{
    let steps = steps.as_slice();
    let mut made = Vec::with_capacity(alloc, steps.len())?;
    for step in steps {
        made.push(copy_step(alloc, step)?)?;
    }
    Ok(Seq::from_vec(made))
}

fn copy_step(alloc: Global, step: &BlockStep) -> Result<BlockStep, AllocError>
    ensures { IfOk result (λ c. c ≡ step.now) }
{
    match step {
        BlockStep::Filter { from, cond } => {
            let from = copy_expr(alloc, from)?;
            let cond = copy_expr(alloc, cond)?;
            Ok(BlockStep::Filter { from, cond })
        }
        BlockStep::Order { from, keys } => {
            let from = copy_expr(alloc, from)?;
            let keys = copy_keys(alloc, keys)?;
            Ok(BlockStep::Order { from, keys })
        }
        BlockStep::Limit { from, count } => Ok(BlockStep::Limit {
            from: copy_expr(alloc, from)?,
            count: *count,
        }),
        BlockStep::Distinct { from } => Ok(BlockStep::Distinct {
            from: copy_expr(alloc, from)?,
        }),
        BlockStep::Take { from } => Ok(BlockStep::Take {
            from: copy_expr(alloc, from)?,
        }),
    }
}

fn copy_items(alloc: Global, items: &BlockItems) -> Result<BlockItems, AllocError>
    ensures { IfOk result (λ c. c ≡ items.now) }
{
    let items = items.as_slice();
    let mut made = Vec::with_capacity(alloc, items.len())?;
    for item in items {
        let value = copy_expr(alloc, &item.value)?;
        made.push(BlockItem {
            value,
            flatten: item.flatten,
            width: item.width,
        })?;
    }
    Ok(Seq::from_vec(made))
}
