ghost use Rattle.std.specs.Prelude.{◌≡◌, [], ◌∷◌, false, map, not, IfOk, if◌then◌else◌};
ghost use Rattle.std.specs.Option.{option_map};
ghost use Rattle.pig_value.specs.Casts.{cast_of};
ghost use Rattle.pig_value.specs.Functions.{apply_tree};
ghost use Rattle.pig_value.specs.Trees.{kind_tree, row_tree, tree, v_bool, v_chars};
ghost use Rattle.pig_builtins.specs.Arities.{is_variadic as is_variadic_function};
ghost use Rattle.pig_typed.specs.Evaluation.{ev, ev_args, ev_links};
ghost use Rattle.pig_typed.specs.Operators.{chain_tree, minus_tree, null_test, project_tree, truth_of, truth_tree};
ghost use Rattle.pig_typed.specs.Typed.{args_of, link_of, links_of, typed, x_choose};
ghost use Rattle.pig_eval.specs.Looking.{Looks};
ghost use Rattle.pig_eval.specs.SeenValues.{seen_tree};
ghost use Rattle.pig_eval.specs.Truths.{begins_logical, chain_truth as chain_truth_of, compare_truth, links_truth};

use crate::columns::apply_projected;
use crate::comparing::{compare_beside, compare_peeked, compared};
use crate::operators::{boolean, is_logical, is_present, joined, minus, step, truth_value};
use crate::projecting::{look_up, project};
use crate::seen::{Seen, lent_or_null, owned, peek, value};
use pig_builtins::{apply, apply_one, apply_three, apply_two, is_variadic};
use pig_cast::cast;
use pig_typed::{TExpr, TExprs, TLinks};
use pig_value::{ChainOp, Function, Kind, Positions, Rel, Seq, Text, Tuple, Value, field_at};
use std::alloc::{AllocError, Global};

// What stands inside an expression is looked at by a function that looks at the expressions there.
#[derive(Clone, Copy)]
struct Inside<'a, F> {
    alloc: Global,
    row: &'a Tuple,
    locals: &'a Tuple,
    look: F,
}

impl<'a, F: Fn(Global, &'a TExpr, &'a Tuple, &'a Tuple) -> Result<Seen<'a>, AllocError>> Inside<
    'a,
    F,
> {
    fn seen(&self, e: &'a TExpr) -> Result<Seen<'a>, AllocError>
        requires { Looks e.now (F.pre self.now.look) (F.post self.now.look) }
        ensures { IfOk result (λ seen. seen_tree seen ≡ ev (typed e.now)
            (row_tree self.now.row.now) (row_tree self.now.locals.now)) }
    {
        (self.look)(self.alloc, e, self.row, self.locals)
    }

    // IS NULL, or negated IS NOT NULL.
    fn null_test(&self, e: &'a TExpr, negated: bool) -> Result<bool, AllocError>
        requires { Looks e.now (F.pre self.now.look) (F.post self.now.look) }
        ensures { IfOk result (λ met. v_bool met ≡ null_test (ev (typed e.now)
            (row_tree self.now.row.now) (row_tree self.now.locals.now)) negated) }
    {
        match peek(e, self.row, self.locals) {
            Some(v) => Ok(is_met(is_present(v), negated)),
            None => {
                let seen = self.seen(e)?;
                Ok(is_met(is_present(value(&seen)), negated))
            }
        }
    }

    fn comparison(&self, op: Rel, a: &'a TExpr, b: &'a TExpr) -> Result<Option<bool>, AllocError>
        requires a { Looks a.now (F.pre self.now.look) (F.post self.now.look) }
        requires b { Looks b.now (F.pre self.now.look) (F.post self.now.look) }
        ensures { IfOk result (λ t. t ≡ compare_truth op
            (ev (typed a.now) (row_tree self.now.row.now) (row_tree self.now.locals.now))
            (ev (typed b.now) (row_tree self.now.row.now) (row_tree self.now.locals.now))) }
    {
        if let Some(truth) = compare_peeked(op, a, b, self.row, self.locals) {
            return Ok(truth);
        }
        let a = self.seen(a)?;
        self.compare_right(op, a, b)
    }

    // A comparison whose left side is looked at.
    fn compare_right(&self, op: Rel, a: Seen<'a>, b: &'a TExpr) -> Result<Option<bool>, AllocError>
        requires { Looks b.now (F.pre self.now.look) (F.post self.now.look) }
        ensures { IfOk result (λ t. t ≡ compare_truth op (seen_tree a.entry)
            (ev (typed b.now) (row_tree self.now.row.now) (row_tree self.now.locals.now))) }
    {
        match compare_beside(op, value(&a), b, self.row, self.locals) {
            Some(truth) => Ok(truth),
            None => {
                let b = self.seen(b)?;
                Ok(compared(op, value(&a), value(&b)))
            }
        }
    }

    fn negative(&self, e: &'a TExpr) -> Result<Seen<'a>, AllocError>
        requires { Looks e.now (F.pre self.now.look) (F.post self.now.look) }
        ensures { IfOk result (λ seen. seen_tree seen ≡ minus_tree (ev (typed e.now)
            (row_tree self.now.row.now) (row_tree self.now.locals.now))) }
    {
        let seen = self.seen(e)?;
        Ok(Seen::Made(minus(value(&seen))))
    }

    fn cast_to(&self, e: &'a TExpr, to: &Kind) -> Result<Seen<'a>, AllocError>
        requires { Looks e.now (F.pre self.now.look) (F.post self.now.look) }
        ensures { IfOk result (λ seen. seen_tree seen ≡ cast_of (kind_tree to.now)
            (ev (typed e.now) (row_tree self.now.row.now) (row_tree self.now.locals.now))) }
    {
        let seen = self.seen(e)?;
        Ok(Seen::Made(cast(self.alloc, value(&seen), to)?))
    }

    fn call_two(
        &self,
        function: Function,
        a: &'a TExpr,
        b: &'a TExpr,
    ) -> Result<Seen<'a>, AllocError>
        requires fixed { is_variadic_function function ≡ false }
        requires a { Looks a.now (F.pre self.now.look) (F.post self.now.look) }
        requires b { Looks b.now (F.pre self.now.look) (F.post self.now.look) }
        ensures { IfOk result (λ seen. seen_tree seen ≡ apply_tree function
            (ev (typed a.now) (row_tree self.now.row.now) (row_tree self.now.locals.now)
            ∷ ev (typed b.now) (row_tree self.now.row.now) (row_tree self.now.locals.now) ∷ [])) }
    {
        let a = self.seen(a)?;
        let b = self.seen(b)?;
        Ok(Seen::Made(apply_two(function, value(&a), value(&b))))
    }

    fn call_three(
        &self,
        function: Function,
        a: &'a TExpr,
        b: &'a TExpr,
        c: &'a TExpr,
    ) -> Result<Seen<'a>, AllocError>
        requires fixed { is_variadic_function function ≡ false }
        requires a { Looks a.now (F.pre self.now.look) (F.post self.now.look) }
        requires b { Looks b.now (F.pre self.now.look) (F.post self.now.look) }
        requires c { Looks c.now (F.pre self.now.look) (F.post self.now.look) }
        ensures { IfOk result (λ seen. seen_tree seen ≡ apply_tree function
            (ev (typed a.now) (row_tree self.now.row.now) (row_tree self.now.locals.now)
            ∷ ev (typed b.now) (row_tree self.now.row.now) (row_tree self.now.locals.now)
            ∷ ev (typed c.now) (row_tree self.now.row.now) (row_tree self.now.locals.now) ∷ [])) }
    {
        let a = self.seen(a)?;
        let b = self.seen(b)?;
        let c = self.seen(c)?;
        Ok(Seen::Made(apply_three(self.alloc, function, value(&a), value(&b), value(&c))?))
    }
}

/// The value of an expression, lent where it stands in the row, the locals or a value within them.
///
/// A lent value takes no memory. A field, a local and their parts are lent, and so is what a bincond chooses.
#[cycle(look)]
pub fn look<'a>(
    alloc: Global,
    e: &'a TExpr,
    row: &'a Tuple,
    locals: &'a Tuple,
) -> Result<Seen<'a>, AllocError>
    ensures { IfOk result (λ seen. seen_tree seen
        ≡ ev (typed e.now) (row_tree row.now) (row_tree locals.now)) }
{
    let inside = Inside {
        alloc,
        row,
        locals,
        look,
    };
    match e {
        TExpr::Null => Ok(Seen::Made(Value::Null)),
        TExpr::Bool(b) => Ok(Seen::Made(Value::Bool(*b))),
        TExpr::Int(n) => Ok(Seen::Made(Value::Int(*n))),
        TExpr::Long(n) => Ok(Seen::Made(Value::Long(*n))),
        TExpr::Chars(text) => literal(alloc, text),
        TExpr::Field(n) => Ok(lent_or_null(field_at(row, *n))),
        TExpr::Local(n) => Ok(lent_or_null(field_at(locals, *n))),
        TExpr::Chain { first, rest } => {
            if is_condition(rest) {
                let first = truth(alloc, first.get(), row, locals)?;
                let truth = chain_truth(alloc, first, rest, row, locals)?;
                return Ok(answer(truth));
            }
            let first = look(alloc, first.get(), row, locals)?;
            chain_value(alloc, first, rest, row, locals)
        }
        TExpr::Compare { op, a, b } => Ok(answer(inside.comparison(*op, a.get(), b.get())?)),
        TExpr::IsNull { a, not } => Ok(answer(Some(inside.null_test(a.get(), *not)?))),
        TExpr::Not(a) => {
            let truth = truth(alloc, a.get(), row, locals)?;
            Ok(answer(negated(truth)))
        }
        TExpr::Minus(a) => inside.negative(a.get()),
        TExpr::Choose { cond, yes, no } => {
            choice(alloc, cond.get(), yes.get(), no.get(), row, locals)
        }
        TExpr::Cast { to, a } => inside.cast_to(a.get(), to),
        TExpr::Project { a, fields, single } => {
            project(alloc, inside.seen(a.get())?, fields, *single)
        }
        TExpr::Look { a, key } => look_up(alloc, inside.seen(a.get())?, key),
        TExpr::Call { function, args } => call(alloc, *function, args, row, locals),
    }
}

fn literal<'a>(alloc: Global, text: &Text) -> Result<Seen<'a>, AllocError>
    ensures { IfOk result (λ seen. seen_tree seen ≡ v_chars text.now) }
{
    Ok(Seen::Made(Value::Chars(text.copy(alloc)?)))
}

// The truth of an expression: none where it is null or no boolean.
//
// Comparisons, AND, OR and NOT make no value on the way, and AND and OR end where the answer is known.
#[cycle(look)]
pub fn truth<'a>(
    alloc: Global,
    e: &'a TExpr,
    row: &'a Tuple,
    locals: &'a Tuple,
) -> Result<Option<bool>, AllocError>
    ensures { IfOk result (λ t. t ≡ truth_of (ev (typed e.now) (row_tree row.now)
        (row_tree locals.now))) }
{
    let inside = Inside {
        alloc,
        row,
        locals,
        look,
    };
    match e {
        TExpr::Chain { first, rest } => {
            let first = truth(alloc, first.get(), row, locals)?;
            let truth = chain_truth(alloc, first, rest, row, locals)?;
            Ok(truth)
        }
        TExpr::Compare { op, a, b } => inside.comparison(*op, a.get(), b.get()),
        TExpr::IsNull { a, not } => Ok(Some(inside.null_test(a.get(), *not)?)),
        TExpr::Not(a) => {
            let truth = truth(alloc, a.get(), row, locals)?;
            Ok(negated(truth))
        }
        _ => {
            let seen = look(alloc, e, row, locals)?;
            Ok(truth_value(value(&seen)))
        }
    }
}

fn answer<'a>(truth: Option<bool>) -> Seen<'a>
    ensures { seen_tree result ≡ truth_tree truth }
{
    Seen::Made(boolean(truth))
}

fn negated(truth: Option<bool>) -> Option<bool>
    ensures { result ≡ option_map not truth }
{
    match truth {
        Some(b) => Some(!b),
        None => None,
    }
}

// IS NULL, or negated IS NOT NULL, of a value that is present or not.
fn is_met(present: bool, negated: bool) -> bool
    ensures { result ≡ (if negated then present else not present) }
{
    if negated { present } else { !present }
}

// Whether a chain begins with AND or OR.
fn is_condition(links: &TLinks) -> bool
    ensures { result ≡ begins_logical (links_of (map link_of links.now)) }
{
    match links.as_slice() {
        [link, ..] => is_logical(link.op),
        [] => false,
    }
}

#[cycle(look)]
fn chain_truth<'a>(
    alloc: Global,
    first: Option<bool>,
    rest: &'a TLinks,
    row: &'a Tuple,
    locals: &'a Tuple,
) -> Result<Option<bool>, AllocError>
    ensures { IfOk result (λ t. t ≡ links_truth first (links_of (map link_of rest.now))
        (row_tree row.now) (row_tree locals.now)) }
{
    let mut so_far = first;
    for link in rest.as_slice() {
        so_far = next_truth(alloc, link.op, so_far, &link.a, row, locals)?;
    }
    Ok(so_far)
}

// An operator of a chain on a truth; where the truth tells the answer, the right operand is not looked at.
#[cycle(look)]
fn next_truth<'a>(
    alloc: Global,
    op: ChainOp,
    so_far: Option<bool>,
    a: &'a TExpr,
    row: &'a Tuple,
    locals: &'a Tuple,
) -> Result<Option<bool>, AllocError>
    ensures { IfOk result (λ t. t ≡ chain_truth_of op so_far
        (truth_of (ev (typed a.now) (row_tree row.now) (row_tree locals.now)))) }
{
    match (op, so_far) {
        (ChainOp::Or, Some(true)) => Ok(so_far),
        (ChainOp::And, Some(false)) => Ok(so_far),
        _ => {
            let next = truth(alloc, a, row, locals)?;
            Ok(joined(op, so_far, next))
        }
    }
}

#[cycle(look)]
fn chain_value<'a>(
    alloc: Global,
    first: Seen<'a>,
    rest: &'a TLinks,
    row: &'a Tuple,
    locals: &'a Tuple,
) -> Result<Seen<'a>, AllocError>
    ensures { IfOk result (λ seen. seen_tree seen ≡ ev_links (seen_tree first.entry)
        (links_of (map link_of rest.now)) (row_tree row.now) (row_tree locals.now)) }
{
    let mut so_far = first;
    for link in rest.as_slice() {
        so_far = next_value(alloc, link.op, so_far, &link.a, row, locals)?;
    }
    Ok(so_far)
}

#[cycle(look)]
fn next_value<'a>(
    alloc: Global,
    op: ChainOp,
    so_far: Seen<'a>,
    a: &'a TExpr,
    row: &'a Tuple,
    locals: &'a Tuple,
) -> Result<Seen<'a>, AllocError>
    ensures { IfOk result (λ seen. seen_tree seen ≡ chain_tree op (seen_tree so_far.entry)
        (ev (typed a.now) (row_tree row.now) (row_tree locals.now))) }
{
    let next = look(alloc, a, row, locals)?;
    Ok(Seen::Made(step(op, value(&so_far), value(&next))))
}

#[cycle(look)]
fn choice<'a>(
    alloc: Global,
    cond: &'a TExpr,
    yes: &'a TExpr,
    no: &'a TExpr,
    row: &'a Tuple,
    locals: &'a Tuple,
) -> Result<Seen<'a>, AllocError>
    ensures { IfOk result (λ seen. seen_tree seen
        ≡ ev (x_choose (typed cond.now) (typed yes.now) (typed no.now))
        (row_tree row.now) (row_tree locals.now)) }
{
    match truth(alloc, cond, row, locals)? {
        Some(true) => look(alloc, yes, row, locals),
        Some(false) => otherwise(alloc, no, row, locals),
        None => Ok(Seen::Made(Value::Null)),
    }
}

// The last value of a bincond, which is gone into as long as it is a bincond itself.
#[cycle(look)]
fn otherwise<'a>(
    alloc: Global,
    e: &'a TExpr,
    row: &'a Tuple,
    locals: &'a Tuple,
) -> Result<Seen<'a>, AllocError>
    ensures { IfOk result (λ seen. seen_tree seen
        ≡ ev (typed e.now) (row_tree row.now) (row_tree locals.now)) }
{
    let mut rest = e;
    while let TExpr::Choose { cond, yes, no } = rest {
        match truth(alloc, cond.get(), row, locals)? {
            Some(true) => return look(alloc, yes.get(), row, locals),
            Some(false) => rest = no.get(),
            None => return Ok(Seen::Made(Value::Null)),
        }
    }
    look(alloc, rest, row, locals)
}

#[cycle(look)]
fn call<'a>(
    alloc: Global,
    function: Function,
    args: &'a TExprs,
    row: &'a Tuple,
    locals: &'a Tuple,
) -> Result<Seen<'a>, AllocError>
    ensures { IfOk result (λ seen. seen_tree seen ≡ apply_tree function
        (ev_args (args_of (map typed args.now)) (row_tree row.now) (row_tree locals.now))) }
{
    if is_variadic(function) {
        return call_all(alloc, function, args, row, locals);
    }
    let inside = Inside {
        alloc,
        row,
        locals,
        look,
    };
    match args.as_slice() {
        [a] => call_one(alloc, function, a, row, locals),
        [a, b] => inside.call_two(function, a, b),
        [a, b, c] => inside.call_three(function, a, b, c),
        _ => call_all(alloc, function, args, row, locals),
    }
}

#[cycle(look)]
fn call_all<'a>(
    alloc: Global,
    function: Function,
    args: &'a TExprs,
    row: &'a Tuple,
    locals: &'a Tuple,
) -> Result<Seen<'a>, AllocError>
    ensures { IfOk result (λ seen. seen_tree seen ≡ apply_tree function
        (ev_args (args_of (map typed args.now)) (row_tree row.now) (row_tree locals.now))) }
{
    let args = eval_all(alloc, args, row, locals)?;
    Ok(Seen::Made(apply(alloc, function, &args)?))
}

#[cycle(look)]
fn eval_all<'a>(
    alloc: Global,
    args: &'a TExprs,
    row: &'a Tuple,
    locals: &'a Tuple,
) -> Result<Tuple, AllocError>
    ensures { IfOk result (λ made. row_tree made
        ≡ ev_args (args_of (map typed args.now)) (row_tree row.now) (row_tree locals.now)) }
{
    let args = args.as_slice();
    let mut made = Vec::with_capacity(alloc, args.len())?;
    for arg in args {
        let seen = look(alloc, arg, row, locals)?;
        made.push(owned(alloc, seen)?)?;
    }
    Ok(Seq::from_vec(made))
}

#[cycle(look)]
fn call_one<'a>(
    alloc: Global,
    function: Function,
    a: &'a TExpr,
    row: &'a Tuple,
    locals: &'a Tuple,
) -> Result<Seen<'a>, AllocError>
    requires { is_variadic_function function ≡ false }
    ensures { IfOk result (λ seen. seen_tree seen
        ≡ apply_tree function (ev (typed a.now) (row_tree row.now) (row_tree locals.now) ∷ [])) }
{
    match a {
        TExpr::Project { a, fields, single } => {
            let a = look(alloc, a.get(), row, locals)?;
            call_part(alloc, function, a, fields, *single)
        }
        _ => {
            let a = look(alloc, a, row, locals)?;
            Ok(Seen::Made(apply_one(alloc, function, value(&a))?))
        }
    }
}

// A function of columns of a value.
fn call_part<'a>(
    alloc: Global,
    function: Function,
    a: Seen,
    fields: &Positions,
    single: bool,
) -> Result<Seen<'a>, AllocError>
    requires { is_variadic_function function ≡ false }
    ensures { IfOk result (λ seen. seen_tree seen
        ≡ apply_tree function (project_tree fields.now single (seen_tree a.entry) ∷ [])) }
{
    Ok(Seen::Made(apply_projected(alloc, function, value(&a), fields, single)?))
}
