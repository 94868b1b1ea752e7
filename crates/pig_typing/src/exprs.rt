ghost use Rattle.std.specs.Prelude.{◌≡◌, IfOk, Ok, map, if◌then◌else◌};
ghost use Rattle.pig_value.specs.Trees.{k_boolean, k_chars, kind_tree};
ghost use Rattle.pig_schema.specs.FieldTrees.{inner_of, named_tree, schema_tree, tree_inner, tree_kind};
ghost use Rattle.pig_syntax.specs.ExprTrees.{e_cast, e_choose, e_compare, expr_form, expr_forms, link_form, link_forms, type_form};
ghost use Rattle.pig_typed.specs.Typed.{typed, x_cast, x_chars, x_compare, x_is_null, x_minus, x_not};
ghost use Rattle.pig_typing.specs.Columns.{place_of, unnamed};
ghost use Rattle.pig_typing.specs.Faults.{Faults};
ghost use Rattle.pig_typing.specs.Typers.{TypesInside};
ghost use Rattle.pig_typing.specs.Parts.{typed_of, typing};
ghost use Rattle.pig_typing.specs.Reader.{args_on, typed_cast, choose_of, compare_of, condition_of, function_of, typed_link, links_on, minus_of, type_of, type_of_cast, with_count};
ghost use Rattle.pig_typing.specs.Results.{checked_then, IfRefused, Tells};
ghost use Rattle.pig_typing.specs.Joins.{cast_if};
ghost use Rattle.pig_typing.specs.Typing.{Types, after, begun, chain_typing, choice, count};
ghost use Rattle.pig_typing.specs.Views.{chain_tree, column_seen, join_tree, typed_tree, typing_tree};

use crate::calls::{call, function, with_count};
use crate::columns::{Column, Typing, holding, kind, made, plain};
use crate::faults::{CheckKind, TypeFault, in_memory, refused};
use crate::joins::{
    Join, Operands, alike, cast_both, cast_if, chained, compared, condition, minus,
};
use crate::limits::within_limits;
use crate::names::named;
use crate::parts::walk;
use crate::scope::Scope;
use crate::written::written_type;
use pig_schema::{Field, Schema};
use pig_syntax::{Expr, Exprs, Links, TypeTree};
use pig_typed::{TExpr, TLink, TLinks};
use pig_value::{Boxed, ChainOp, Function, Kind, Rel, Seq, Text, beside, casts_to, copy_kind};
use std::alloc::{AllocError, Global};

/// A typed expression, and the column that it gives: its kind, the name that it keeps as an item, and the columns
/// inside it.
#[derive(Debug, Drop)]
pub struct TypedExpr {
    pub expr: TExpr,
    pub column: Field,
}

/// The typing of an expression over the columns of a row and the nested aliases so far.
///
/// # Errors
///
/// `Refused` exactly where the expression has no typing, with a kind whose condition holds of it or of an expression
/// inside it.
pub fn type_expr(alloc: Global, e: &Expr, scope: &Scope) -> Result<TypedExpr, TypeFault>
    ensures typed { IfOk result (λ t. Types (place_of scope.now) (expr_form e.now) (typed_tree t)) }
    ensures refused { IfRefused result (λ kind. Faults (place_of scope.now)
        (expr_form e.now) kind) }
    ensures told { Tells typed_tree (type_of (place_of scope.now) (expr_form e.now)) result }
{
    typed_expr(alloc, e, scope)
}

pub fn typed_expr(alloc: Global, e: &Expr, scope: &Scope) -> Result<TypedExpr, TypeFault>
    ensures { Tells typed_tree (type_of (place_of scope.now) (expr_form e.now)) result }
{
    let typing = type_in(alloc, e, scope)?;
    in_memory(kept(alloc, typing))
}

// A typing with memory of its own.
pub fn kept(alloc: Global, typing: Typing) -> Result<TypedExpr, AllocError>
    ensures { IfOk result (λ t. typed_tree t ≡ typing_tree typing.entry) }
{
    let Typing { expr, column } = typing;
    let column = column.owned(alloc)?;
    let expr = expr.into_inner();
    Ok(TypedExpr { expr, column })
}

// What stands inside an expression is typed by a function that types the expressions there.
#[derive(Clone, Copy)]
struct Inside<'a, F> {
    alloc: Global,
    scope: &'a Scope<'a>,
    typing: F,
}

impl<'a, F: Fn(Global, &'a Expr, &'a Scope<'a>) -> Result<Typing<'a>, TypeFault>> Inside<'a, F> {
    fn new(alloc: Global, scope: &'a Scope<'a>, typing: F) -> Inside<'a, F>
        ensures scope { result.scope ≡ scope.entry }
        ensures typing { result.typing ≡ typing }
    {
        Inside {
            alloc,
            scope,
            typing,
        }
    }

    fn typing(&self, e: &'a Expr) -> Result<Typing<'a>, TypeFault>
        requires { TypesInside e.now (F.pre self.now.typing) (F.post self.now.typing) }
        ensures { Tells typing_tree (type_of (place_of self.now.scope.now)
            (expr_form e.now)) result }
    {
        (self.typing)(self.alloc, e, self.scope)
    }

    #[tactic(auto, unfolding(crate::specs::Reader::type_of))]
    fn comparison(&self, op: Rel, a: &'a Expr, b: &'a Expr) -> Result<Typing<'a>, TypeFault>
        requires a { TypesInside a.now (F.pre self.now.typing) (F.post self.now.typing) }
        requires b { TypesInside b.now (F.pre self.now.typing) (F.post self.now.typing) }
        ensures { Tells typing_tree (type_of (place_of self.now.scope.now)
            (e_compare op (expr_form a.now) (expr_form b.now))) result }
    {
        let a = self.typing(a)?;
        let (a, b) = beside(a, self.typing(b))?;
        compare(self.alloc, op, a, b)
    }

    #[tactic(auto, unfolding(crate::specs::Reader::type_of))]
    fn cast(&self, to: &TypeTree, a: &'a Expr) -> Result<Typing<'a>, TypeFault>
        requires { TypesInside a.now (F.pre self.now.typing) (F.post self.now.typing) }
        ensures { Tells typing_tree (type_of (place_of self.now.scope.now)
            (e_cast to.now (expr_form a.now))) result }
    {
        let to = cast_type(self.alloc, to)?;
        let a = self.typing(a)?;
        converted(self.alloc, to, a)
    }

    #[tactic(auto, unfolding(crate::specs::Reader::type_of))]
    fn choice(&self, cond: &'a Expr, yes: &'a Expr, no: &'a Expr) -> Result<Typing<'a>, TypeFault>
        requires cond { TypesInside cond.now (F.pre self.now.typing) (F.post self.now.typing) }
        requires yes { TypesInside yes.now (F.pre self.now.typing) (F.post self.now.typing) }
        requires no { TypesInside no.now (F.pre self.now.typing) (F.post self.now.typing) }
        ensures { Tells typing_tree (type_of (place_of self.now.scope.now)
            (e_choose (expr_form cond.now) (expr_form yes.now) (expr_form no.now))) result }
    {
        let cond = self.typing(cond)?;
        let cond = as_condition(self.alloc, cond)?;
        let (cond, yes) = beside(cond, self.typing(yes))?;
        let ((cond, yes), no) = beside((cond, yes), self.typing(no))?;
        choose(self.alloc, cond, yes, no)
    }
}

#[cycle(typing)]
#[tactic(auto, unfolding(crate::specs::Reader::type_of))]
pub fn type_in<'a>(
    alloc: Global,
    e: &'a Expr,
    scope: &'a Scope<'a>,
) -> Result<Typing<'a>, TypeFault>
    ensures { Tells typing_tree (type_of (place_of scope.now) (expr_form e.now)) result }
{
    let inside = Inside::new(alloc, scope, type_in);
    match e {
        Expr::Int(z) => constant(alloc, TExpr::Int(*z), Kind::Int),
        Expr::Long(z) => constant(alloc, TExpr::Long(*z), Kind::Long),
        Expr::Float => Err(TypeFault::Refused(CheckKind::FloatType)),
        Expr::Text(text) => chars(alloc, text),
        Expr::Bool(b) => constant(alloc, TExpr::Bool(*b), Kind::Boolean),
        Expr::Null => constant(alloc, TExpr::Null, Kind::Bytearray),
        Expr::Field(field) => named(alloc, scope, field),
        Expr::Chain { first, rest } => {
            let first = type_in(alloc, first.get(), scope)?;
            chain(alloc, first, rest, scope)
        }
        Expr::Compare { op, a, b } => inside.comparison(*op, a.get(), b.get()),
        Expr::IsNull { a, not } => {
            let a = type_in(alloc, a.get(), scope)?;
            null_test(alloc, a, *not)
        }
        Expr::Not(a) => {
            let a = type_in(alloc, a.get(), scope)?;
            inverse(alloc, a)
        }
        Expr::Minus(a) => {
            let a = type_in(alloc, a.get(), scope)?;
            negative(alloc, a)
        }
        Expr::Cast { to, a } => inside.cast(to, a.get()),
        Expr::Post { a, steps } => {
            let a = type_in(alloc, a.get(), scope)?;
            walk(alloc, a, steps.as_slice())
        }
        Expr::Call { name, args } => {
            let function = callee(name.as_str(), args)?;
            let args = each(alloc, args, scope)?;
            call(alloc, function, args)
        }
        Expr::Choose { cond, yes, no } => inside.choice(cond.get(), yes.get(), no.get()),
    }
}

fn constant<'a>(alloc: Global, form: TExpr, kind: Kind) -> Result<Typing<'a>, TypeFault>
    ensures { Tells typing_tree (Ok (typing (typed form) (unnamed (kind_tree kind)))) result }
{
    in_memory(plain(alloc, form, kind))
}

fn chars<'a>(alloc: Global, text: &Text) -> Result<Typing<'a>, TypeFault>
    ensures { Tells typing_tree (Ok (typing (x_chars text.now) (unnamed k_chars))) result }
{
    let text = text.copy(alloc)?;
    constant(alloc, TExpr::Chars(text), Kind::Chararray)
}

// What is not, where the operand is a condition.
#[tactic(auto, unfolding(crate::specs::Reader::condition_of))]
fn inverse<'a>(alloc: Global, a: Typing<'a>) -> Result<Typing<'a>, TypeFault>
    ensures { Tells typing_tree (checked_then (λ t. Ok (typing (x_not t) (unnamed k_boolean)))
        (condition_of (typing_tree a.entry))) result }
{
    let a = as_condition(alloc, a)?;
    constant(alloc, TExpr::Not(a), Kind::Boolean)
}

// The part of a chain so far, and its kind.
#[derive(Drop)]
pub struct ChainSoFar {
    pub first: Boxed<TExpr>,
    pub links: TLinks,
    pub kind: Boxed<Kind>,
}

#[cycle(typing)]
#[tactic(auto, unfolding(crate::specs::Reader::links_on))]
fn chain<'a>(
    alloc: Global,
    first: Typing<'a>,
    links: &'a Links,
    scope: &'a Scope<'a>,
) -> Result<Typing<'a>, TypeFault>
    ensures { Tells typing_tree (checked_then (λ whole. Ok (chain_typing whole))
        (links_on (place_of scope.now) (begun (typing_tree first.entry))
        (link_forms (map link_form links.now)))) result }
{
    let mut so_far = begin(alloc, first)?;
    for link in links.as_slice() {
        let a = type_in(alloc, &link.a, scope)?;
        so_far = linked(alloc, so_far, link.op, a)?;
    }
    Ok(whole(alloc, so_far)?)
}

fn begin<'a>(alloc: Global, first: Typing<'a>) -> Result<ChainSoFar, AllocError>
    ensures { IfOk result (λ c. chain_tree c ≡ begun (typing_tree first.entry)) }
{
    let Typing { expr, column } = first;
    let kind = copy_kind(alloc, kind(&column))?;
    Ok(ChainSoFar {
        first: expr,
        links: Seq::new(alloc),
        kind: Boxed::new(alloc, kind)?,
    })
}

fn whole<'a>(alloc: Global, so_far: ChainSoFar) -> Result<Typing<'a>, AllocError>
    ensures { IfOk result (λ p. typing_tree p ≡ chain_typing (chain_tree so_far)) }
{
    let ChainSoFar { first, links, kind } = so_far;
    plain(
        alloc,
        TExpr::Chain { first, rest: links },
        kind.into_inner(),
    )
}

// One link more.
#[tactic(auto, unfolding(crate::specs::Reader::typed_link))]
fn linked<'a>(
    alloc: Global,
    so_far: ChainSoFar,
    op: ChainOp,
    a: Typing<'a>,
) -> Result<ChainSoFar, TypeFault>
    ensures { Tells chain_tree (typed_link (chain_tree so_far) op (typing_tree a.entry)) result }
{
    match chained(op, so_far.kind.get(), kind(&a.column)) {
        Some(join) => in_memory(longer(alloc, so_far, op, join, a.expr)),
        None => refused((so_far, a), CheckKind::TypeMismatch),
    }
}

fn longer(
    alloc: Global,
    so_far: ChainSoFar,
    op: ChainOp,
    join: Join,
    expr: Boxed<TExpr>,
) -> Result<ChainSoFar, AllocError>
    ensures { IfOk result (λ c. chain_tree c
        ≡ after (chain_tree so_far) op (join_tree join) (typed expr)) }
{
    let ChainSoFar { first, links, .. } = so_far;
    let Operands { kind, left, right } = cast_both(alloc, join, first, expr)?;
    let mut links = links;
    let a = right.into_inner();
    links.push(TLink { op, a })?;
    Ok(ChainSoFar {
        first: left,
        links,
        kind,
    })
}

#[cycle(typing)]
#[tactic(auto, unfolding(crate::specs::Reader::args_on))]
fn each<'a>(
    alloc: Global,
    args: &'a Exprs,
    scope: &'a Scope<'a>,
) -> Result<Seq<Typing<'a>>, TypeFault>
    ensures { Tells (map typing_tree) (args_on (place_of scope.now)
        (expr_forms (map expr_form args.now))) result }
{
    let args = args.as_slice();
    let mut typings = Seq::with_capacity(alloc, args.len())?;
    for arg in args {
        let typing = type_in(alloc, arg, scope)?;
        typings.push(typing)?;
    }
    Ok(typings)
}

// The function of a name, where it takes so many arguments.
fn callee(name: &str, args: &Exprs) -> Result<Function, TypeFault>
    ensures { Tells (λ f. f)
        (checked_then (with_count (count (expr_forms (map expr_form args.now))))
        (function_of name.now)) result }
{
    taking(args, function(name)?)
}

// The function, where it takes so many arguments.
fn taking(args: &Exprs, function: Function) -> Result<Function, TypeFault>
    ensures { Tells (λ f. f) (with_count (count (expr_forms (map expr_form args.now))) function)
        result }
{
    with_count(args.len(), function)
}

#[tactic(auto, unfolding(crate::specs::Reader::compare_of))]
fn compare<'a>(
    alloc: Global,
    op: Rel,
    a: Typing<'a>,
    b: Typing<'a>,
) -> Result<Typing<'a>, TypeFault>
    ensures { Tells typing_tree (compare_of op (typing_tree a.entry) (typing_tree b.entry)) result }
{
    let join = in_memory(compared(alloc, op, kind(&a.column), kind(&b.column)));
    let ((a, b), join) = beside((a, b), join)?;
    match join {
        Some(join) => in_memory(comparison(alloc, op, a.expr, b.expr, join)),
        None => refused((a, b), CheckKind::TypeMismatch),
    }
}

fn comparison<'a>(
    alloc: Global,
    op: Rel,
    a: Boxed<TExpr>,
    b: Boxed<TExpr>,
    join: Join,
) -> Result<Typing<'a>, AllocError>
    ensures { IfOk result (λ p. typing_tree p ≡ typing (x_compare op
        (cast_if join.left (kind_tree join.kind) (typed a))
        (cast_if join.right (kind_tree join.kind) (typed b))) (unnamed k_boolean)) }
{
    let Operands { left, right, .. } = cast_both(alloc, join, a, b)?;
    let form = TExpr::Compare {
        op,
        a: left,
        b: right,
    };
    plain(alloc, form, Kind::Boolean)
}

fn null_test<'a>(alloc: Global, a: Typing<'a>, not: bool) -> Result<Typing<'a>, TypeFault>
    ensures { Tells typing_tree (Ok (typing (x_is_null (typed_of (typing_tree a.entry)) not)
        (unnamed k_boolean))) result }
{
    constant(alloc, TExpr::IsNull { a: a.expr, not }, Kind::Boolean)
}

// An operand as a condition.
#[tactic(auto, unfolding(crate::specs::Reader::condition_of))]
pub fn as_condition<'a>(alloc: Global, a: Typing<'a>) -> Result<Boxed<TExpr>, TypeFault>
    ensures { Tells typed (condition_of (typing_tree a.entry)) result }
{
    match condition(kind(&a.column)) {
        Some(is_cast) => in_memory(cast_if(alloc, is_cast, &Kind::Boolean, a.expr)),
        None => refused(a, CheckKind::TypeMismatch),
    }
}

#[tactic(auto, unfolding(crate::specs::Reader::minus_of))]
fn negative<'a>(alloc: Global, a: Typing<'a>) -> Result<Typing<'a>, TypeFault>
    ensures { Tells typing_tree (minus_of (typing_tree a.entry)) result }
{
    match minus(kind(&a.column)) {
        Some(kind) => in_memory(opposite(alloc, a, kind)),
        None => refused(a, CheckKind::TypeMismatch),
    }
}

fn opposite<'a>(alloc: Global, a: Typing<'a>, kind: Kind) -> Result<Typing<'a>, AllocError>
    ensures { IfOk result (λ p. typing_tree p
        ≡ typing (x_minus (typed_of (typing_tree a.entry))) (unnamed (kind_tree kind))) }
{
    plain(alloc, TExpr::Minus(a.expr), kind)
}

/// The column that a written type gives, without a name, within the limits.
///
/// # Errors
///
/// FloatType where a word for floating numbers or dates stands within the type, TooWide or TooDeep where its kind is past
/// the limits.
#[tactic(auto, unfolding(crate::specs::Reader::type_of_cast))]
pub fn cast_type(alloc: Global, to: &TypeTree) -> Result<Boxed<Field>, TypeFault>
    ensures { Tells named_tree (type_of_cast (type_form to.now)) result }
{
    match written_type(alloc, to)? {
        Some(column) => {
            let limits = within_limits(&column.kind);
            let (column, _) = beside(column, limits)?;
            in_memory(Boxed::new(alloc, column))
        }
        None => Err(TypeFault::Refused(CheckKind::FloatType)),
    }
}

#[tactic(auto, unfolding(crate::specs::Reader::typed_cast))]
fn converted<'a>(alloc: Global, to: Boxed<Field>, a: Typing<'a>) -> Result<Typing<'a>, TypeFault>
    ensures { Tells typing_tree (typed_cast (named_tree to) (typing_tree a.entry)) result }
{
    if casts_to(kind(&a.column), &to.get().kind) {
        in_memory(cast(alloc, to.into_inner(), a.expr))
    } else {
        refused((to, a), CheckKind::TypeMismatch)
    }
}

fn cast<'a>(alloc: Global, column: Field, a: Boxed<TExpr>) -> Result<Typing<'a>, AllocError>
    ensures { IfOk result (λ p. typing_tree p
        ≡ typing (x_cast (tree_kind (named_tree column)) (typed a)) (named_tree column)) }
{
    let to = copy_kind(alloc, &column.kind);
    let ((column, a), to) = beside((column, a), to)?;
    made(alloc, TExpr::Cast { to, a }, column)
}

#[tactic(auto, unfolding(crate::specs::Reader::choose_of))]
fn choose<'a>(
    alloc: Global,
    cond: Boxed<TExpr>,
    yes: Typing<'a>,
    no: Typing<'a>,
) -> Result<Typing<'a>, TypeFault>
    ensures { Tells typing_tree (choose_of (typed cond) (typing_tree yes.entry)
        (typing_tree no.entry)) result }
{
    let join = in_memory(alike(alloc, kind(&yes.column), kind(&no.column)));
    let ((cond, yes, no), join) = beside((cond, yes, no), join)?;
    match join {
        Some(join) => in_memory(choice(alloc, cond, yes, no, join)),
        None => refused((cond, yes, no), CheckKind::TypeMismatch),
    }
}

fn choice<'a>(
    alloc: Global,
    cond: Boxed<TExpr>,
    yes: Typing<'a>,
    no: Typing<'a>,
    join: Join,
) -> Result<Typing<'a>, AllocError>
    ensures { IfOk result (λ p. typing_tree p ≡ choice (typed cond) (join_tree join)
        (typing_tree yes.entry) (typing_tree no.entry)) }
{
    let Typing {
        expr: a,
        column: first,
    } = yes;
    let Typing {
        expr: b,
        column: second,
    } = no;
    let inner = one_inside(alloc, join.left, first, second)?;
    let Operands { kind, left, right } = cast_both(alloc, join, a, b)?;
    let form = TExpr::Choose {
        cond,
        yes: left,
        no: right,
    };
    made(alloc, form, holding(kind.into_inner(), inner))
}

// What stands inside one of two columns.
fn one_inside<'a>(
    alloc: Global,
    is_second: bool,
    first: Column<'a>,
    second: Column<'a>,
) -> Result<Schema, AllocError>
    ensures { IfOk result (λ s. inner_of (schema_tree s)
        ≡ tree_inner (if is_second then column_seen second.entry else column_seen first.entry)) }
{
    if is_second {
        second.into_inner(alloc)
    } else {
        first.into_inner(alloc)
    }
}
