ghost use Rattle.std.specs.Prelude.{◌≡◌, Some, map, IfOk};
ghost use Rattle.std.specs.Option.{option_and_then, option_map};
ghost use Rattle.pig_value.specs.FunctionKinds.{function_kind};
ghost use Rattle.pig_value.specs.Trees.{k_boolean, kind_tree, look_kind};
ghost use Rattle.pig_typed.specs.ExprKinds.{args_kinds, cast_kind, choose_kind, expr_kind, links_kind, minus_kind, not_kind, project_kind};
ghost use Rattle.pig_typed.specs.Looking.{Looks};
ghost use Rattle.pig_typed.specs.Seen.{seen_kind};
ghost use Rattle.pig_typed.specs.Typed.{args_of, link_of, links_of, typed, x_chain, x_choose, x_compare};

use crate::calls::called;
use crate::operators::{chained, compared, minus, negated};
use crate::projections::projected;
use crate::seen::{Scope, SeenKind, kind, kind_at, owned};
use crate::{TExpr, TExprs, TLinks};
use pig_value::{Boxed, Function, Kind, Kinds, Positions, Rel, Seq, casts_to, same_kind};
use std::alloc::{AllocError, Global};

/// The kind of an expression on rows and locals of these kinds: none exactly where the expression has no kind
/// on such rows.
pub fn kind_of(
    alloc: Global,
    e: &TExpr,
    row: &Kinds,
    locals: &Kinds,
) -> Result<Option<Kind>, AllocError>
    ensures { IfOk result (λ found. option_map kind_tree found
        ≡ expr_kind (typed e.now) (map kind_tree row.now) (map kind_tree locals.now)) }
{
    let scope = Scope { row, locals };
    match look(alloc, e, &scope)? {
        Some(seen) => Ok(Some(owned(alloc, seen)?)),
        None => Ok(None),
    }
}

// What stands inside an expression is looked at by a function that looks at the expressions there.
#[derive(Clone, Copy)]
struct Inside<'a, F> {
    alloc: Global,
    scope: &'a Scope<'a>,
    look: F,
}

impl<
    'a,
    F: Fn(Global, &'a TExpr, &'a Scope<'a>) -> Result<Option<SeenKind<'a>>, AllocError>,
> Inside<'a, F> {
    fn kind(&self, e: &'a TExpr) -> Result<Option<SeenKind<'a>>, AllocError>
        requires { Looks e.now (F.pre self.now.look) (F.post self.now.look) }
        ensures { IfOk result (λ found. option_map seen_kind found
            ≡ expr_kind (typed e.now) (map kind_tree self.now.scope.now.row.now)
            (map kind_tree self.now.scope.now.locals.now)) }
    {
        (self.look)(self.alloc, e, self.scope)
    }

    fn comparison(
        &self,
        op: Rel,
        a: &'a TExpr,
        b: &'a TExpr,
    ) -> Result<Option<SeenKind<'a>>, AllocError>
        requires a { Looks a.now (F.pre self.now.look) (F.post self.now.look) }
        requires b { Looks b.now (F.pre self.now.look) (F.post self.now.look) }
        ensures { IfOk result (λ found. option_map seen_kind found
            ≡ expr_kind (x_compare op (typed a.now) (typed b.now))
            (map kind_tree self.now.scope.now.row.now)
            (map kind_tree self.now.scope.now.locals.now)) }
    {
        let Some(a) = self.kind(a)? else {
            return Ok(None);
        };
        let Some(b) = self.kind(b)? else {
            return Ok(None);
        };
        Ok(made(compared(op, kind(&a), kind(&b))))
    }

    fn null_test(&self, a: &'a TExpr) -> Result<Option<SeenKind<'a>>, AllocError>
        requires { Looks a.now (F.pre self.now.look) (F.post self.now.look) }
        ensures { IfOk result (λ found. option_map seen_kind found
            ≡ option_and_then (λ k. Some k_boolean) (expr_kind (typed a.now)
            (map kind_tree self.now.scope.now.row.now)
            (map kind_tree self.now.scope.now.locals.now))) }
    {
        match self.kind(a)? {
            Some(_) => Ok(Some(SeenKind::Made(Kind::Boolean))),
            None => Ok(None),
        }
    }

    fn negation(&self, a: &'a TExpr) -> Result<Option<SeenKind<'a>>, AllocError>
        requires { Looks a.now (F.pre self.now.look) (F.post self.now.look) }
        ensures { IfOk result (λ found. option_map seen_kind found
            ≡ option_and_then not_kind (expr_kind (typed a.now)
            (map kind_tree self.now.scope.now.row.now)
            (map kind_tree self.now.scope.now.locals.now))) }
    {
        match self.kind(a)? {
            Some(a) => Ok(made(negated(kind(&a)))),
            None => Ok(None),
        }
    }

    fn negative(&self, a: &'a TExpr) -> Result<Option<SeenKind<'a>>, AllocError>
        requires { Looks a.now (F.pre self.now.look) (F.post self.now.look) }
        ensures { IfOk result (λ found. option_map seen_kind found
            ≡ option_and_then minus_kind (expr_kind (typed a.now)
            (map kind_tree self.now.scope.now.row.now)
            (map kind_tree self.now.scope.now.locals.now))) }
    {
        match self.kind(a)? {
            Some(a) => Ok(made(minus(kind(&a)))),
            None => Ok(None),
        }
    }

    fn choice(
        &self,
        cond: &'a TExpr,
        yes: &'a TExpr,
        no: &'a TExpr,
    ) -> Result<Option<SeenKind<'a>>, AllocError>
        requires cond { Looks cond.now (F.pre self.now.look) (F.post self.now.look) }
        requires yes { Looks yes.now (F.pre self.now.look) (F.post self.now.look) }
        requires no { Looks no.now (F.pre self.now.look) (F.post self.now.look) }
        ensures { IfOk result (λ found. option_map seen_kind found
            ≡ expr_kind (x_choose (typed cond.now) (typed yes.now) (typed no.now))
            (map kind_tree self.now.scope.now.row.now)
            (map kind_tree self.now.scope.now.locals.now)) }
    {
        let Some(cond) = self.kind(cond)? else {
            return Ok(None);
        };
        let Some(yes) = self.kind(yes)? else {
            return Ok(None);
        };
        let Some(no) = self.kind(no)? else {
            return Ok(None);
        };
        Ok(chosen(kind(&cond), yes, kind(&no)))
    }

    fn cast(&self, to: &'a Kind, a: &'a TExpr) -> Result<Option<SeenKind<'a>>, AllocError>
        requires { Looks a.now (F.pre self.now.look) (F.post self.now.look) }
        ensures { IfOk result (λ found. option_map seen_kind found
            ≡ option_and_then (cast_kind (kind_tree to.now)) (expr_kind (typed a.now)
            (map kind_tree self.now.scope.now.row.now)
            (map kind_tree self.now.scope.now.locals.now))) }
    {
        match self.kind(a)? {
            Some(a) => Ok(cast(to, kind(&a))),
            None => Ok(None),
        }
    }

    fn projection(
        &self,
        a: &'a TExpr,
        fields: &Positions,
        single: bool,
    ) -> Result<Option<SeenKind<'a>>, AllocError>
        requires { Looks a.now (F.pre self.now.look) (F.post self.now.look) }
        ensures { IfOk result (λ found. option_map seen_kind found
            ≡ option_and_then (project_kind fields.now single) (expr_kind (typed a.now)
            (map kind_tree self.now.scope.now.row.now)
            (map kind_tree self.now.scope.now.locals.now))) }
    {
        match self.kind(a)? {
            Some(a) => Ok(made(projected(self.alloc, kind(&a), fields, single)?)),
            None => Ok(None),
        }
    }

    fn look_up(&self, a: &'a TExpr) -> Result<Option<SeenKind<'a>>, AllocError>
        requires { Looks a.now (F.pre self.now.look) (F.post self.now.look) }
        ensures { IfOk result (λ found. option_map seen_kind found
            ≡ option_and_then look_kind (expr_kind (typed a.now)
            (map kind_tree self.now.scope.now.row.now)
            (map kind_tree self.now.scope.now.locals.now))) }
    {
        match self.kind(a)? {
            Some(a) => Ok(looked_up(a)),
            None => Ok(None),
        }
    }
}

#[cycle(kinds)]
fn look<'a>(
    alloc: Global,
    e: &'a TExpr,
    scope: &'a Scope<'a>,
) -> Result<Option<SeenKind<'a>>, AllocError>
    ensures { IfOk result (λ found. option_map seen_kind found
        ≡ expr_kind (typed e.now) (map kind_tree scope.now.row.now)
        (map kind_tree scope.now.locals.now)) }
{
    let inside = Inside { alloc, scope, look };
    match e {
        TExpr::Null => Ok(Some(SeenKind::Made(Kind::Bytearray))),
        TExpr::Bool(_) => Ok(Some(SeenKind::Made(Kind::Boolean))),
        TExpr::Int(_) => Ok(Some(SeenKind::Made(Kind::Int))),
        TExpr::Long(_) => Ok(Some(SeenKind::Made(Kind::Long))),
        TExpr::Chars(_) => Ok(Some(SeenKind::Made(Kind::Chararray))),
        TExpr::Field(n) => Ok(kind_at(scope.row, *n)),
        TExpr::Local(n) => Ok(kind_at(scope.locals, *n)),
        TExpr::Chain { first, rest } => chain(alloc, rest, first.get(), scope),
        TExpr::Compare { op, a, b } => inside.comparison(*op, a.get(), b.get()),
        TExpr::IsNull { a, .. } => inside.null_test(a.get()),
        TExpr::Not(a) => inside.negation(a.get()),
        TExpr::Minus(a) => inside.negative(a.get()),
        TExpr::Choose { cond, yes, no } => inside.choice(cond.get(), yes.get(), no.get()),
        TExpr::Cast { to, a } => inside.cast(to, a.get()),
        TExpr::Project { a, fields, single } => inside.projection(a.get(), fields, *single),
        TExpr::Look { a, .. } => inside.look_up(a.get()),
        TExpr::Call { function, args } => call(alloc, *function, args, scope),
    }
}

#[cycle(kinds)]
fn chain<'a>(
    alloc: Global,
    rest: &'a TLinks,
    first: &'a TExpr,
    scope: &'a Scope<'a>,
) -> Result<Option<SeenKind<'a>>, AllocError>
    ensures { IfOk result (λ found. option_map seen_kind found
        ≡ expr_kind (x_chain (typed first.now) (links_of (map link_of rest.now)))
        (map kind_tree scope.now.row.now) (map kind_tree scope.now.locals.now)) }
{
    match look(alloc, first, scope)? {
        Some(first) => links(alloc, first, rest, scope),
        None => Ok(None),
    }
}

#[cycle(kinds)]
fn call<'a>(
    alloc: Global,
    function: Function,
    args: &'a TExprs,
    scope: &'a Scope<'a>,
) -> Result<Option<SeenKind<'a>>, AllocError>
    ensures { IfOk result (λ found. option_map seen_kind found
        ≡ option_and_then (function_kind function) (args_kinds (args_of (map typed args.now))
        (map kind_tree scope.now.row.now) (map kind_tree scope.now.locals.now))) }
{
    match all_kinds(alloc, args, scope)? {
        Some(kinds) => Ok(made(called(alloc, function, kinds)?)),
        None => Ok(None),
    }
}

#[cycle(kinds)]
fn links<'a>(
    alloc: Global,
    first: SeenKind<'a>,
    links: &'a TLinks,
    scope: &'a Scope<'a>,
) -> Result<Option<SeenKind<'a>>, AllocError>
    ensures { IfOk result (λ found. option_map seen_kind found
        ≡ links_kind (seen_kind first.entry) (links_of (map link_of links.now))
        (map kind_tree scope.now.row.now) (map kind_tree scope.now.locals.now)) }
{
    let mut so_far = first;
    for link in links.as_slice() {
        let Some(a) = look(alloc, &link.a, scope)? else {
            return Ok(None);
        };
        match chained(link.op, kind(&so_far), kind(&a)) {
            Some(next) => so_far = SeenKind::Made(next),
            None => return Ok(None),
        }
    }
    Ok(Some(so_far))
}

#[cycle(kinds)]
fn all_kinds<'a>(
    alloc: Global,
    args: &'a TExprs,
    scope: &'a Scope<'a>,
) -> Result<Option<Kinds>, AllocError>
    ensures { IfOk result (λ found. option_map (map kind_tree) found
        ≡ args_kinds (args_of (map typed args.now)) (map kind_tree scope.now.row.now)
        (map kind_tree scope.now.locals.now)) }
{
    let args = args.as_slice();
    let mut kinds = Vec::with_capacity(alloc, args.len())?;
    for arg in args {
        let Some(a) = look(alloc, arg, scope)? else {
            return Ok(None);
        };
        kinds.push(owned(alloc, a)?)?;
    }
    Ok(Some(Seq::from_vec(kinds)))
}

fn made<'a>(kind: Option<Kind>) -> Option<SeenKind<'a>>
    ensures { option_map seen_kind result ≡ option_map kind_tree kind }
{
    match kind {
        Some(kind) => Some(SeenKind::Made(kind)),
        None => None,
    }
}

fn chosen<'a>(cond: &Kind, yes: SeenKind<'a>, no: &Kind) -> Option<SeenKind<'a>>
    ensures { option_map seen_kind result ≡ choose_kind (kind_tree cond.now) (seen_kind yes.entry)
        (kind_tree no.now) }
{
    match cond {
        Kind::Boolean => {
            if same_kind(kind(&yes), no) {
                Some(yes)
            } else {
                None
            }
        }
        _ => None,
    }
}

fn cast<'a>(to: &'a Kind, from: &Kind) -> Option<SeenKind<'a>>
    ensures { option_map seen_kind result ≡ cast_kind (kind_tree to.now) (kind_tree from.now) }
{
    if casts_to(from, to) {
        Some(SeenKind::Lent(to))
    } else {
        None
    }
}

fn looked_up<'a>(map: SeenKind<'a>) -> Option<SeenKind<'a>>
    ensures { option_map seen_kind result ≡ look_kind (seen_kind map.entry) }
{
    match map {
        SeenKind::Lent(Kind::Map(of)) => Some(SeenKind::Lent(of.get())),
        SeenKind::Lent(_) => None,
        SeenKind::Made(kind) => match kind.into_values() {
            Some(of) => Some(SeenKind::Made(of)),
            None => None,
        },
    }
}
