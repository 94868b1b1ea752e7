ghost use Rattle.std.specs.Prelude.{◌≡◌, [], ◌∷◌, Some, length, map, option_map};
ghost use Rattle.pig_exprs.specs.declared.limits.TheConstants.{MOST_NESTED};
ghost use Rattle.pig_exprs.specs.Grammar.{Forms};
ghost use Rattle.pig_exprs.specs.Nests.{NestsWithin};
ghost use Rattle.pig_exprs.specs.Reader.{forms, Gives, GivesBeside};
ghost use Rattle.pig_exprs.specs.ExprReader.{both_at, paren_after, call_at, case_bare_at, case_of_at, case_at, primary_at, post_at, cast_at, casted_at, unary_at, term_at, sum_at, among_at, comparison_after, comparison_at, neg_at, and_chain_at, expr_with, expr_at};

use crate::cases::{Cases, Operand, choice};
use crate::chains::{Chain, chained};
use crate::comparing::{comparison_ahead, in_ahead, null_test};
use crate::limits::{Limits, MOST_NESTED};
use crate::operands::{Stepping, begins_type, simple};
use crate::reading::{
    ParseFault, Rule, before, behind_symbol, beside, close_paren, closed, listed, other_members,
};
use crate::trees::{choose, compare, is_null, post_of};
use crate::types::cast_type;
use crate::{form, symbol, word};
use pig_syntax::{Expr, Exprs, Keyword, PostSteps, Symbol, Token, TokenForm};
use pig_value::{Boxed, Text};
use std::alloc::Global;

// Expressions whose brackets nest less deep than `depth`, by a function that reads them.
#[derive(Clone, Copy)]
struct ExpressionsWithin<'l, F> {
    alloc: Global,
    limits: &'l Limits,
    depth: u32,
    function: F,
}

impl<
    F: for<'a> Fn(Global, &Limits, &'a [Token], u32) -> Result<(Expr, &'a [Token]), ParseFault>,
> Rule for ExpressionsWithin<'_, F> {
    type Tree = Expr;

    ghost ready = { λ r. NestsWithin (expr_at MOST_NESTED) r.depth
        (F.pre r.function) (F.post r.function) };

    ghost finds = { λ r. expr_at MOST_NESTED r.depth };

    fn read<'a>(&self, tokens: &'a [Token]) -> Result<(Expr, &'a [Token]), ParseFault> {
        (self.function)(self.alloc, self.limits, tokens, self.depth)
    }
}

// The rules of expressions, with the rule of the expressions inside brackets.
#[derive(Clone, Copy)]
struct Grammar<'l, R> {
    alloc: Global,
    limits: &'l Limits,
    inner: R,
}

// Operands of OR, as members of a list.
#[derive(Drop)]
struct Conjunctions<'g, 'l, R> {
    grammar: &'g Grammar<'l, R>,
}

impl<R: Rule<Tree = Expr>> Rule for Conjunctions<'_, '_, R> {
    type Tree = Expr;

    ghost ready = { λ r. R.ready r.grammar.now.inner };

    ghost finds = { λ r. and_chain_at MOST_NESTED (R.finds r.grammar.now.inner) };

    fn read<'a>(&self, tokens: &'a [Token]) -> Result<(Expr, &'a [Token]), ParseFault> {
        self.grammar.and_chain(tokens)
    }
}

// Operands of AND, as members of a list.
#[derive(Drop)]
struct Negations<'g, 'l, R> {
    grammar: &'g Grammar<'l, R>,
}

impl<R: Rule<Tree = Expr>> Rule for Negations<'_, '_, R> {
    type Tree = Expr;

    ghost ready = { λ r. R.ready r.grammar.now.inner };

    ghost finds = { λ r. neg_at MOST_NESTED (R.finds r.grammar.now.inner) };

    fn read<'a>(&self, tokens: &'a [Token]) -> Result<(Expr, &'a [Token]), ParseFault> {
        self.grammar.neg(tokens)
    }
}

// Operands of `+` and `-`, as members of a list.
#[derive(Drop)]
struct Products<'g, 'l, R> {
    grammar: &'g Grammar<'l, R>,
}

impl<R: Rule<Tree = Expr>> Rule for Products<'_, '_, R> {
    type Tree = Expr;

    ghost ready = { λ r. R.ready r.grammar.now.inner };

    ghost finds = { λ r. term_at MOST_NESTED (R.finds r.grammar.now.inner) };

    fn read<'a>(&self, tokens: &'a [Token]) -> Result<(Expr, &'a [Token]), ParseFault> {
        self.grammar.product(tokens)
    }
}

// Sums, as operands of IN.
#[derive(Drop)]
struct Sums<'g, 'l, R> {
    grammar: &'g Grammar<'l, R>,
}

impl<R: Rule<Tree = Expr>> Rule for Sums<'_, '_, R> {
    type Tree = Expr;

    ghost ready = { λ r. R.ready r.grammar.now.inner };

    ghost finds = { λ r. sum_at MOST_NESTED (R.finds r.grammar.now.inner) };

    fn read<'a>(&self, tokens: &'a [Token]) -> Result<(Expr, &'a [Token]), ParseFault> {
        self.grammar.sum(tokens)
    }
}

// Operands of `*`, `/` and `%`, as members of a list.
#[derive(Drop)]
struct Signed<'g, 'l, R> {
    grammar: &'g Grammar<'l, R>,
}

impl<R: Rule<Tree = Expr>> Rule for Signed<'_, '_, R> {
    type Tree = Expr;

    ghost ready = { λ r. R.ready r.grammar.now.inner };

    ghost finds = { λ r. unary_at MOST_NESTED (R.finds r.grammar.now.inner) };

    fn read<'a>(&self, tokens: &'a [Token]) -> Result<(Expr, &'a [Token]), ParseFault> {
        self.grammar.signed(tokens)
    }
}

impl<R: Rule<Tree = Expr>> Grammar<'_, R> {
    // What stands behind the `?` of a choice.
    #[tactic(auto, unfolding(crate::specs::ExprReader::both_at))]
    fn both<'a, K: Drop>(
        &self,
        kept: K,
        tokens: &'a [Token],
    ) -> Result<((K, (Expr, Expr)), &'a [Token]), ParseFault>
        requires { R.ready self.now.inner }
        ensures { GivesBeside kept (both_at (R.finds self.now.inner) (forms tokens.now)) result }
    {
        let (left, rest) = self.inner.read(tokens)?;
        let (left, rest) = behind_symbol(left, Symbol::Colon, rest)?;
        let (both, rest) = beside(left, &self.inner, rest)?;
        let (both, rest) = closed(both, rest)?;
        Ok(((kept, both), rest))
    }

    // What follows an expression behind `(`: a `)`, or a choice.
    #[tactic(auto, unfolding(crate::specs::ExprReader::paren_after))]
    fn paren<'a>(&self, first: Expr, tokens: &'a [Token]) -> Result<(Expr, &'a [Token]), ParseFault>
        requires { R.ready self.now.inner }
        ensures { Gives (paren_after (R.finds self.now.inner) first (forms tokens.now)) result }
    {
        match tokens {
            [symbol!(CloseParen), rest @ ..] => Ok((first, rest)),
            [symbol!(Question), rest @ ..] => {
                let ((first, (yes, no)), rest) = self.both(first, rest)?;
                let choice = choose(self.alloc, self.limits, first, yes, no)?;
                Ok((choice, rest))
            }
            _ => {
                drop(first);
                Err(ParseFault::Off)
            }
        }
    }

    // The arguments of a call, behind its `(`.
    #[tactic(auto, unfolding(crate::specs::ExprReader::call_at))]
    fn call<'a>(&self, name: &Text, tokens: &'a [Token]) -> Result<(Expr, &'a [Token]), ParseFault>
        requires { R.ready self.now.inner }
        ensures { Gives (call_at (R.finds self.now.inner) name.now (forms tokens.now)) result }
    {
        self.limits.node();
        match tokens {
            [symbol!(CloseParen), rest @ ..] => {
                let name = name.copy(self.alloc)?;
                let args = Exprs::new(self.alloc);
                Ok((Expr::Call { name, args }, rest))
            }
            _ => {
                let (args, rest) = listed(self.alloc, &self.inner, tokens)?;
                let rest = close_paren(rest)?;
                let name = name.copy(self.alloc)?;
                Ok((Expr::Call { name, args }, rest))
            }
        }
    }

    // A CASE of conditions, behind its word.
    #[tactic(auto, unfolding(crate::specs::ExprReader::case_bare_at))]
    fn case_bare<'a>(&self, tokens: &'a [Token]) -> Result<(Expr, &'a [Token]), ParseFault>
        requires { R.ready self.now.inner }
        ensures { Gives (case_bare_at (R.finds self.now.inner) (forms tokens.now)) result }
    {
        let (cases, rest) = self.cases().read(tokens)?;
        let ((first, others), default) = cases;
        let tree = choice(self.alloc, self.limits, first, others, default)?;
        Ok((tree, rest))
    }

    // A CASE of an operand, behind its word.
    #[tactic(auto, unfolding(crate::specs::ExprReader::case_of_at))]
    fn case_of<'a>(&self, tokens: &'a [Token]) -> Result<(Expr, &'a [Token]), ParseFault>
        requires { R.ready self.now.inner }
        ensures { Gives (case_of_at (R.finds self.now.inner) (forms tokens.now)) result }
    {
        let (tree, rest) = self.inner.read(tokens)?;
        let ((tree, cases), rest) = beside(tree, &self.cases(), rest)?;
        let ((first, others), default) = cases;
        let operand = Operand {
            alloc: self.alloc,
            limits: self.limits,
            rule: &self.inner,
            tokens,
            tree,
        };
        let tree = operand.choice(first, others, default)?;
        Ok((tree, rest))
    }

    // The rule of what stands in a CASE.
    fn cases(&self) -> Cases<'_, R>
        ensures { result.rule.now ≡ self.now.inner }
    {
        Cases {
            alloc: self.alloc,
            limits: self.limits,
            rule: &self.inner,
        }
    }

    // A CASE, behind its word.
    #[tactic(auto, unfolding(crate::specs::ExprReader::case_at))]
    fn case<'a>(&self, tokens: &'a [Token]) -> Result<(Expr, &'a [Token]), ParseFault>
        requires { R.ready self.now.inner }
        ensures { Gives (case_at (R.finds self.now.inner) (forms tokens.now)) result }
    {
        match tokens {
            [word!(When), ..] => self.case_bare(tokens),
            _ => self.case_of(tokens),
        }
    }

    // A literal, a field, a call, a CASE, or an expression or a choice in parentheses.
    #[tactic(auto, unfolding(crate::specs::ExprReader::primary_at))]
    fn primary<'a>(&self, tokens: &'a [Token]) -> Result<(Expr, &'a [Token]), ParseFault>
        requires { R.ready self.now.inner }
        ensures { Gives (primary_at (R.finds self.now.inner) (forms tokens.now)) result }
    {
        match tokens {
            [form!(Ident(name)), symbol!(OpenParen), rest @ ..] => self.call(name, rest),
            [word!(Case), rest @ ..] => self.case(rest),
            [symbol!(OpenParen), rest @ ..] => {
                let (first, rest) = self.inner.read(rest)?;
                self.paren(first, rest)
            }
            _ => simple(self.alloc, self.limits, tokens),
        }
    }

    // An expression with projections and look-ups behind it.
    #[tactic(auto, unfolding(crate::specs::ExprReader::post_at))]
    fn post<'a>(&self, tokens: &'a [Token]) -> Result<(Expr, &'a [Token]), ParseFault>
        requires { R.ready self.now.inner }
        ensures { Gives (post_at (R.finds self.now.inner) (forms tokens.now)) result }
    {
        let (first, rest) = self.primary(tokens)?;
        let stepping = Stepping {
            alloc: self.alloc,
            limits: self.limits,
        };
        let steps = PostSteps::new(self.alloc);
        let ((first, steps), rest) = before(first, &stepping, steps, rest)?;
        let whole = post_of(self.alloc, first, steps)?;
        Ok((whole, rest))
    }

    // What is kept, and an expression with projections and look-ups behind it.
    fn and_post<'a, K: Drop>(
        &self,
        kept: K,
        rest: &'a [Token],
    ) -> Result<((K, Boxed<Expr>), &'a [Token]), ParseFault>
        requires { R.ready self.now.inner }
        ensures { GivesBeside kept (post_at (R.finds self.now.inner) (forms rest.now)) result }
    {
        let (a, rest) = self.post(rest)?;
        let a = Boxed::new(self.alloc, a)?;
        Ok(((kept, a), rest))
    }

    // A cast, behind its `(`.
    #[tactic(auto, unfolding(crate::specs::ExprReader::cast_at))]
    fn cast<'a>(&self, tokens: &'a [Token]) -> Result<(Expr, &'a [Token]), ParseFault>
        requires { R.ready self.now.inner }
        ensures { Gives (cast_at MOST_NESTED (R.finds self.now.inner) (forms tokens.now)) result }
    {
        let (to, rest) = cast_type(self.alloc, tokens, MOST_NESTED)?;
        self.limits
            .nodes(tokens.len().saturating_sub(rest.len()).saturating_add(1));
        let (to, rest) = closed(to, rest)?;
        let ((to, a), rest) = self.and_post(to, rest)?;
        Ok((Expr::Cast { to, a }, rest))
    }

    // An expression with a cast before it, or with none.
    #[tactic(auto, unfolding(crate::specs::ExprReader::casted_at))]
    fn casted<'a>(&self, tokens: &'a [Token]) -> Result<(Expr, &'a [Token]), ParseFault>
        requires { R.ready self.now.inner }
        ensures { Gives (casted_at MOST_NESTED (R.finds self.now.inner) (forms tokens.now)) result }
    {
        match tokens {
            [symbol!(OpenParen), rest @ ..] => {
                if begins_type(rest) {
                    self.cast(rest)
                } else {
                    self.post(tokens)
                }
            }
            _ => self.post(tokens),
        }
    }

    // An expression with a minus before it, or with none.
    #[tactic(auto, unfolding(crate::specs::ExprReader::unary_at))]
    fn signed<'a>(&self, tokens: &'a [Token]) -> Result<(Expr, &'a [Token]), ParseFault>
        requires { R.ready self.now.inner }
        ensures { Gives (unary_at MOST_NESTED (R.finds self.now.inner) (forms tokens.now)) result }
    {
        match tokens {
            [symbol!(Minus), rest @ ..] => {
                self.limits.node();
                let (a, rest) = self.casted(rest)?;
                let a = Boxed::new(self.alloc, a)?;
                Ok((Expr::Minus(a), rest))
            }
            _ => self.casted(tokens),
        }
    }

    // Operands of `*`, `/` and `%`.
    #[tactic(auto, unfolding(crate::specs::ExprReader::term_at))]
    fn product<'a>(&self, tokens: &'a [Token]) -> Result<(Expr, &'a [Token]), ParseFault>
        requires { R.ready self.now.inner }
        ensures { Gives (term_at MOST_NESTED (R.finds self.now.inner) (forms tokens.now)) result }
    {
        chained(
            self.alloc,
            self.limits,
            Chain::Product,
            &Signed { grammar: self },
            tokens,
        )
    }

    // Operands of `+` and `-`.
    #[tactic(auto, unfolding(crate::specs::ExprReader::sum_at))]
    fn sum<'a>(&self, tokens: &'a [Token]) -> Result<(Expr, &'a [Token]), ParseFault>
        requires { R.ready self.now.inner }
        ensures { Gives (sum_at MOST_NESTED (R.finds self.now.inner) (forms tokens.now)) result }
    {
        chained(
            self.alloc,
            self.limits,
            Chain::Sum,
            &Products { grammar: self },
            tokens,
        )
    }

    // What is kept, and operands of `+` and `-`.
    fn and_sum<'a, K: Drop>(
        &self,
        kept: K,
        tokens: &'a [Token],
    ) -> Result<((K, Expr), &'a [Token]), ParseFault>
        requires { R.ready self.now.inner }
        ensures { GivesBeside kept
            (sum_at MOST_NESTED (R.finds self.now.inner) (forms tokens.now)) result }
    {
        let (sum, rest) = self.sum(tokens)?;
        Ok(((kept, sum), rest))
    }

    // The values that an operand is to be among, behind IN and its `(`. The operand was read from `read`.
    #[tactic(auto, unfolding(crate::specs::ExprReader::among_at))]
    fn among<'a>(
        &self,
        a: Expr,
        read: &[Token],
        tokens: &'a [Token],
    ) -> Result<(Expr, &'a [Token]), ParseFault>
        requires ready { R.ready self.now.inner }
        requires read { option_map (λ p. p.0)
            (sum_at MOST_NESTED (R.finds self.now.inner) (forms read.now)) ≡ Some a }
        ensures { Gives (among_at (R.finds self.now.inner) a (forms tokens.now)) result }
    {
        let ((a, first), rest) = beside(a, &self.inner, tokens)?;
        let ((first, others), rest) = other_members(self.alloc, first, &self.inner, rest)?;
        let (others, rest) = closed(others, rest)?;
        let operand = Operand {
            alloc: self.alloc,
            limits: self.limits,
            rule: &Sums { grammar: self },
            tokens: read,
            tree: a,
        };
        let tree = operand.is_among(first, others)?;
        Ok((tree, rest))
    }

    // What stands behind the first operand of a comparison, which was read from `read`; or nothing.
    #[tactic(auto, unfolding(crate::specs::ExprReader::comparison_after))]
    fn comparison_after<'a>(
        &self,
        a: Expr,
        read: &[Token],
        tokens: &'a [Token],
    ) -> Result<(Expr, &'a [Token]), ParseFault>
        requires ready { R.ready self.now.inner }
        requires read { option_map (λ p. p.0)
            (sum_at MOST_NESTED (R.finds self.now.inner) (forms read.now)) ≡ Some a }
        ensures { Gives
            (comparison_after MOST_NESTED (R.finds self.now.inner) a (forms tokens.now)) result }
    {
        match null_test(tokens) {
            Some((not, rest)) => {
                let test = is_null(self.alloc, self.limits, a, not)?;
                Ok((test, rest))
            }
            None => match comparison_ahead(tokens) {
                Some((op, rest)) => {
                    let ((a, b), rest) = self.and_sum(a, rest)?;
                    let whole = compare(self.alloc, self.limits, op, a, b)?;
                    Ok((whole, rest))
                }
                None => match in_ahead(tokens) {
                    Some(rest) => self.among(a, read, rest),
                    None => Ok((a, tokens)),
                },
            },
        }
    }

    // A comparison or a test for null.
    #[tactic(auto, unfolding(crate::specs::ExprReader::comparison_at))]
    fn comparison<'a>(&self, tokens: &'a [Token]) -> Result<(Expr, &'a [Token]), ParseFault>
        requires { R.ready self.now.inner }
        ensures { Gives
            (comparison_at MOST_NESTED (R.finds self.now.inner) (forms tokens.now)) result }
    {
        let (a, rest) = self.sum(tokens)?;
        self.comparison_after(a, tokens, rest)
    }

    // A comparison with NOT before it, or without.
    #[tactic(auto, unfolding(crate::specs::ExprReader::neg_at))]
    fn neg<'a>(&self, tokens: &'a [Token]) -> Result<(Expr, &'a [Token]), ParseFault>
        requires { R.ready self.now.inner }
        ensures { Gives (neg_at MOST_NESTED (R.finds self.now.inner) (forms tokens.now)) result }
    {
        match tokens {
            [word!(Not), rest @ ..] => {
                self.limits.node();
                let (a, rest) = self.comparison(rest)?;
                let a = Boxed::new(self.alloc, a)?;
                Ok((Expr::Not(a), rest))
            }
            _ => self.comparison(tokens),
        }
    }

    // Operands of AND.
    #[tactic(auto, unfolding(crate::specs::ExprReader::and_chain_at))]
    fn and_chain<'a>(&self, tokens: &'a [Token]) -> Result<(Expr, &'a [Token]), ParseFault>
        requires { R.ready self.now.inner }
        ensures { Gives
            (and_chain_at MOST_NESTED (R.finds self.now.inner) (forms tokens.now)) result }
    {
        chained(
            self.alloc,
            self.limits,
            Chain::And,
            &Negations { grammar: self },
            tokens,
        )
    }

    // Operands of OR.
    #[tactic(auto, unfolding(crate::specs::ExprReader::expr_with))]
    fn or_chain<'a>(&self, tokens: &'a [Token]) -> Result<(Expr, &'a [Token]), ParseFault>
        requires { R.ready self.now.inner }
        ensures { Gives (expr_with MOST_NESTED (R.finds self.now.inner) (forms tokens.now)) result }
    {
        chained(
            self.alloc,
            self.limits,
            Chain::Or,
            &Conjunctions { grammar: self },
            tokens,
        )
    }
}

// An expression whose brackets nest less deep than `depth`.
#[tactic(auto, unfolding(crate::specs::ExprReader::expr_at))]
fn expr<'a>(
    alloc: Global,
    limits: &Limits,
    tokens: &'a [Token],
    depth: u32,
) -> Result<(Expr, &'a [Token]), ParseFault>
    ensures { Gives (expr_at MOST_NESTED depth (forms tokens.now)) result }
{
    if depth == 0 {
        return Err(ParseFault::Off);
    }
    Grammar {
        alloc,
        limits,
        inner: ExpressionsWithin {
            alloc,
            limits,
            depth: depth - 1,
            function: expr,
        },
    }
    .or_chain(tokens)
}

/// An expression. Its steps that no bracket bounds, and the copies that it makes, are counted by the limits.
pub fn expression<'a>(
    alloc: Global,
    limits: &Limits,
    tokens: &'a [Token],
) -> Result<(Expr, &'a [Token]), ParseFault>
    ensures { Gives (expr_at MOST_NESTED MOST_NESTED (forms tokens.now)) result }
{
    limits.steps_from(0);
    expr(alloc, limits, tokens, MOST_NESTED)
}
