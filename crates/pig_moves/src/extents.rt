ghost use Rattle.std.specs.Prelude.{◌≡◌, ◌+◌, IfOk, map, max};
ghost use Rattle.pig_typed.specs.Typed.{args_of, link_of, links_of, typed};
ghost use Rattle.pig_moves.specs.Depths.{arg_depth, arg_size, depth, link_depth, link_size, size};

use pig_typed::{TExpr, TLink};
use pig_value::Boxed;
use std::alloc::AllocError;

// How far an expression goes: the levels that it nests, and its nodes.
#[derive(Debug, Clone, Copy, Drop)]
pub struct Extent {
    pub levels: u32,
    pub nodes: u32,
}

// One node, with nothing in it.
const LEAF: Extent = Extent {
    levels: 0,
    nodes: 1,
};
// No node at all.
const NOTHING: Extent = Extent {
    levels: 0,
    nodes: 0,
};

impl Extent {
    // Both beside one another.
    fn beside(self, other: Extent) -> Result<Extent, AllocError>
        ensures levels { IfOk result (λ both. both.levels ≡ max self.levels other.levels) }
        ensures nodes { IfOk result (λ both. both.nodes ≡ self.nodes + other.nodes) }
    {
        let nodes = self.nodes.checked_add(other.nodes).ok_or(AllocError)?;
        Ok(Extent {
            levels: self.levels.max(other.levels),
            nodes,
        })
    }

    // This within one node more.
    fn within(self) -> Result<Extent, AllocError>
        ensures levels { IfOk result (λ all. all.levels ≡ self.levels + 1) }
        ensures nodes { IfOk result (λ all. all.nodes ≡ self.nodes + 1) }
    {
        let levels = self.levels.checked_add(1).ok_or(AllocError)?;
        let nodes = self.nodes.checked_add(1).ok_or(AllocError)?;
        Ok(Extent { levels, nodes })
    }
}

// How far an expression goes. One that goes further than is counted here has no memory.
#[cycle(extent_of)]
pub fn extent_of(e: &TExpr) -> Result<Extent, AllocError>
    ensures levels { IfOk result (λ x. x.levels ≡ depth (typed e.now)) }
    ensures nodes { IfOk result (λ x. x.nodes ≡ size (typed e.now)) }
{
    match e {
        TExpr::Null => Ok(LEAF),
        TExpr::Bool(_) => Ok(LEAF),
        TExpr::Int(_) => Ok(LEAF),
        TExpr::Long(_) => Ok(LEAF),
        TExpr::Chars(_) => Ok(LEAF),
        TExpr::Field(_) => Ok(LEAF),
        TExpr::Local(_) => Ok(LEAF),
        TExpr::Chain { first, rest } => {
            let rest = of_links(rest.as_slice())?;
            extent_of(first.get())?.beside(rest)?.within()
        }
        TExpr::Compare { op: _, a, b } => of_both(a, b)?.within(),
        TExpr::IsNull { a, not: _ } => extent_of(a.get())?.within(),
        TExpr::Not(a) => extent_of(a.get())?.within(),
        TExpr::Minus(a) => extent_of(a.get())?.within(),
        TExpr::Choose { cond, yes, no } => {
            let both = of_both(yes, no)?;
            extent_of(cond.get())?.beside(both)?.within()
        }
        TExpr::Cast { to: _, a } => extent_of(a.get())?.within(),
        TExpr::Project {
            a,
            fields: _,
            single: _,
        } => extent_of(a.get())?.within(),
        TExpr::Look { a, key: _ } => extent_of(a.get())?.within(),
        TExpr::Call { function: _, args } => of_args(args.as_slice())?.within(),
    }
}

#[cycle(extent_of)]
fn of_both(a: &Boxed<TExpr>, b: &Boxed<TExpr>) -> Result<Extent, AllocError>
    ensures levels { IfOk result (λ x. x.levels ≡ max (depth (typed a.now)) (depth (typed b.now))) }
    ensures nodes { IfOk result (λ x. x.nodes ≡ size (typed a.now) + size (typed b.now)) }
{
    let other = extent_of(b.get())?;
    extent_of(a.get())?.beside(other)
}

#[cycle(extent_of)]
fn of_link(link: &TLink) -> Result<Extent, AllocError>
    ensures levels { IfOk result (λ x. x.levels ≡ depth (link_of link.now).1) }
    ensures nodes { IfOk result (λ x. x.nodes ≡ size (link_of link.now).1) }
{
    extent_of(&link.a)
}

#[cycle(extent_of)]
fn of_links(links: &[TLink]) -> Result<Extent, AllocError>
    ensures levels { IfOk result (λ x. x.levels ≡ link_depth (links_of (map link_of links.now))) }
    ensures nodes { IfOk result (λ x. x.nodes ≡ link_size (links_of (map link_of links.now))) }
{
    let mut all = NOTHING;
    for link in links {
        let own = of_link(link)?;
        all = all.beside(own)?;
    }
    Ok(all)
}

#[cycle(extent_of)]
fn of_args(args: &[TExpr]) -> Result<Extent, AllocError>
    ensures levels { IfOk result (λ x. x.levels ≡ arg_depth (args_of (map typed args.now))) }
    ensures nodes { IfOk result (λ x. x.nodes ≡ arg_size (args_of (map typed args.now))) }
{
    let mut all = NOTHING;
    for e in args {
        let own = extent_of(e)?;
        all = all.beside(own)?;
    }
    Ok(all)
}
