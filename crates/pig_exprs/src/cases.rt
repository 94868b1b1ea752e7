ghost use Rattle.std.specs.Prelude.{◌≡◌, [], ◌∷◌, ◌++◌, List, IfOk, Some, length, map};
ghost use Rattle.std.specs.Option.{option_map};
ghost use Rattle.pig_value.specs.declared.operators.ChainOp.TheVariants as operators;
ghost use Rattle.pig_exprs.specs.Grammar.{equals, is_among, choice_of, compared};
ghost use Rattle.pig_exprs.specs.Reader.{forms, Gives, repeat};
ghost use Rattle.pig_exprs.specs.ExprReader.{when_at, when_turn, first_when, last_at, cases_at};

use crate::limits::{Limits, TreeSize};
use crate::operands::bytes_of_texts;
use crate::reading::{ParseFault, Rule, Turning, before, behind_word, beside};
use crate::trees::{chain_of, choose, compare};
use crate::word;
use pig_syntax::{Expr, Exprs, Keyword, Link, Links, Token, TokenForm};
use pig_value::{ChainOp, Rel, Seq};
use std::alloc::{AllocError, Global};

// The condition and the value of a WHEN.
pub type When = (Expr, Expr);

pub type Whens = Seq<When>;

// A condition and its value, behind WHEN.
#[tactic(auto, unfolding(crate::specs::ExprReader::when_at))]
fn when<'a, R: Rule<Tree = Expr>>(
    limits: &Limits,
    rule: &R,
    tokens: &'a [Token],
) -> Result<(When, &'a [Token]), ParseFault>
    requires { R.ready rule.now }
    ensures { Gives (when_at (R.finds rule.now) (forms tokens.now)) result }
{
    limits.step()?;
    let (test, rest) = rule.read(tokens)?;
    let (test, rest) = behind_word(test, Keyword::Then, rest)?;
    let (both, rest) = beside(test, rule, rest)?;
    Ok((both, rest))
}

// The first WHEN of a CASE.
#[tactic(auto, unfolding(crate::specs::ExprReader::first_when))]
fn first_when<'a, R: Rule<Tree = Expr>>(
    limits: &Limits,
    rule: &R,
    tokens: &'a [Token],
) -> Result<(When, &'a [Token]), ParseFault>
    requires { R.ready rule.now }
    ensures { Gives (first_when (R.finds rule.now) (forms tokens.now)) result }
{
    match tokens {
        [word!(When), rest @ ..] => when(limits, rule, rest),
        _ => Err(ParseFault::Off),
    }
}

// The WHENs of a CASE behind the first.
#[derive(Drop)]
struct WhenTurns<'r, R> {
    limits: &'r Limits,
    rule: &'r R,
}

impl<R: Rule<Tree = Expr>> Turning for WhenTurns<'_, R> {
    type Tree = When;

    ghost ready = { λ w. R.ready w.rule.now };

    ghost finds = { λ w. when_turn (R.finds w.rule.now) };

    #[tactic(auto, unfolding(crate::specs::ExprReader::when_turn))]
    fn turn<'a>(&self, tokens: &'a [Token]) -> Result<Option<(When, &'a [Token])>, ParseFault> {
        match tokens {
            [word!(When), rest @ ..] => {
                let (when, rest) = when(self.limits, self.rule, rest)?;
                Ok(Some((when, rest)))
            }
            _ => Ok(None),
        }
    }
}

// The value behind ELSE, or NULL, and END.
#[derive(Drop)]
struct Last<'r, R> {
    limits: &'r Limits,
    rule: &'r R,
}

impl<R: Rule<Tree = Expr>> Rule for Last<'_, R> {
    type Tree = Expr;

    ghost ready = { λ l. R.ready l.rule.now };

    ghost finds = { λ l. last_at (R.finds l.rule.now) };

    #[tactic(auto, unfolding(crate::specs::ExprReader::last_at))]
    fn read<'a>(&self, tokens: &'a [Token]) -> Result<(Expr, &'a [Token]), ParseFault> {
        match tokens {
            [word!(End), rest @ ..] => {
                self.limits.node();
                Ok((Expr::Null, rest))
            }
            [word!(Else), rest @ ..] => {
                let (a, rest) = self.rule.read(rest)?;
                behind_word(a, Keyword::End, rest)
            }
            _ => Err(ParseFault::Off),
        }
    }
}

// The first WHEN of a CASE, the others, and the value where none holds, by the rule of what stands in them.
#[derive(Drop)]
pub struct Cases<'r, R> {
    pub alloc: Global,
    pub limits: &'r Limits,
    pub rule: &'r R,
}

impl<R: Rule<Tree = Expr>> Rule for Cases<'_, R> {
    type Tree = ((When, Whens), Expr);

    ghost ready = { λ c. R.ready c.rule.now };

    ghost finds = { λ c. cases_at (R.finds c.rule.now) };

    #[tactic(auto, unfolding(crate::specs::ExprReader::cases_at))]
    fn read<'a>(
        &self,
        tokens: &'a [Token],
    ) -> Result<(((When, Whens), Expr), &'a [Token]), ParseFault> {
        let (first, rest) = first_when(self.limits, self.rule, tokens)?;
        let turns = WhenTurns {
            limits: self.limits,
            rule: self.rule,
        };
        let ((first, others), rest) = before(first, &turns, Whens::new(self.alloc), rest)?;
        let last = Last {
            limits: self.limits,
            rule: self.rule,
        };
        let ((whens, default), rest) = beside((first, others), &last, rest)?;
        Ok(((whens, default), rest))
    }
}

// The choice of the first value whose condition holds, and of `default` where none does.
fn choice_of(
    alloc: Global,
    limits: &Limits,
    whens: Whens,
    default: Expr,
) -> Result<Expr, AllocError>
    ensures { IfOk result (λ e. e ≡ choice_of whens default) }
{
    let mut whens = whens;
    let mut tree = default;
    'whens: while let Some((test, value)) = whens.pop() {
        tree = choose(alloc, limits, test, value, tree)?;
    }
    Ok(tree)
}

// The choice of the first WHEN and the others.
#[tactic(auto, unfolding(crate::specs::Grammar::choice_of))]
pub fn choice(
    alloc: Global,
    limits: &Limits,
    first: When,
    others: Whens,
    default: Expr,
) -> Result<Expr, AllocError>
    ensures { IfOk result (λ e. e ≡ choice_of (first ∷ others) default) }
{
    let rest = choice_of(alloc, limits, others, default)?;
    let (test, value) = first;
    choose(alloc, limits, test, value, rest)
}

// An operand that several values are compared with, and the tokens that it was read from.
//
// It is read again for each of them but the first, so that no tree has to be copied.
#[derive(Drop)]
pub struct Operand<'r, 't, R> {
    pub alloc: Global,
    pub limits: &'r Limits,
    pub rule: &'r R,
    pub tokens: &'t [Token],
    pub tree: Expr,
}

impl<R: Rule<Tree = Expr>> Operand<'_, '_, R> {
    // The operand once more, whose steps stand only once in the expression. Copies within it are nodes of this one. That it
    // is not there can't be.
    fn again(&self) -> Result<Expr, AllocError>
        requires ready { R.ready self.now.rule.now }
        requires read { option_map (λ p. p.0)
            (R.finds self.now.rule.now (forms self.now.tokens.now)) ≡ Some self.now.tree }
        ensures { IfOk result (λ a. a ≡ self.now.tree) }
    {
        let steps = self.limits.steps_from(0);
        let copied = self.limits.copied();
        let made = self.limits.made();
        match self.rule.read(self.tokens) {
            Ok((again, rest)) => {
                self.limits.steps_from(steps);
                self.count(rest.len(), copied, made)?;
                Ok(again)
            }
            Err(_) => Err(AllocError),
        }
    }

    // Counts a copy behind which so many tokens are left. So much was copied before it, and made.
    fn count(&self, left: usize, copied: TreeSize, made: TreeSize) -> Result<(), AllocError> {
        let (read, _) = self.tokens.split_at(self.tokens.len().saturating_sub(left));
        self.limits.texts(bytes_of_texts(read));
        self.limits.forget_copies(copied);
        self.limits.copy(self.limits.made().since(made))
    }

    // The comparison with a value.
    fn equals(&self, value: Expr) -> Result<Expr, AllocError>
        requires ready { R.ready self.now.rule.now }
        requires read { option_map (λ p. p.0)
            (R.finds self.now.rule.now (forms self.now.tokens.now)) ≡ Some self.now.tree }
        ensures { IfOk result (λ a. a ≡ equals self.now.tree value) }
    {
        let again = self.again()?;
        compare(self.alloc, self.limits, Rel::Eq, again, value)
    }

    // The comparisons with each of the values, as links of a chain of OR.
    fn links(&self, values: Exprs) -> Result<Links, AllocError>
        requires ready { R.ready self.now.rule.now }
        requires read { option_map (λ p. p.0)
            (R.finds self.now.rule.now (forms self.now.tokens.now)) ≡ Some self.now.tree }
        ensures { IfOk result (λ links. links
            ≡ map (λ w. record { op = operators.Or; a = equals self.now.tree w }) values) }
    {
        let mut links = Links::new(self.alloc);
        for value in values.into_vec() {
            let a = self.equals(value)?;
            let op = ChainOp::Or;
            links.push(Link { op, a })?;
        }
        Ok(links)
    }

    // The WHENs with comparisons as their conditions.
    fn compared(&self, whens: Whens) -> Result<Whens, AllocError>
        requires ready { R.ready self.now.rule.now }
        requires read { option_map (λ p. p.0)
            (R.finds self.now.rule.now (forms self.now.tokens.now)) ≡ Some self.now.tree }
        ensures { IfOk result (λ tests. tests ≡ compared self.now.tree whens) }
    {
        let mut tests = Whens::new(self.alloc);
        for (value, result) in whens.into_vec() {
            let test = self.equals(value)?;
            tests.push((test, result))?;
        }
        Ok(tests)
    }

    // Whether the operand is the first value or one of the others.
    pub fn is_among(self, first: Expr, others: Exprs) -> Result<Expr, AllocError>
        requires ready { R.ready self.rule.now }
        requires read { option_map (λ p. p.0) (R.finds self.rule.now (forms self.tokens.now))
            ≡ Some self.tree }
        ensures { IfOk result (λ a. a ≡ is_among self.entry.tree first others) }
    {
        let links = self.links(others)?;
        let Operand {
            alloc,
            limits,
            tree,
            ..
        } = self;
        let first = compare(alloc, limits, Rel::Eq, tree, first)?;
        chain_of(alloc, limits, first, links)
    }

    // The choice of the first WHEN whose value the operand equals.
    pub fn choice(self, first: When, others: Whens, default: Expr) -> Result<Expr, AllocError>
        requires ready { R.ready self.rule.now }
        requires read { option_map (λ p. p.0) (R.finds self.rule.now (forms self.tokens.now))
            ≡ Some self.tree }
        ensures { IfOk result
            (λ a. a ≡ choice_of (compared self.entry.tree (first ∷ others)) default) }
    {
        let others = self.compared(others)?;
        let Operand {
            alloc,
            limits,
            tree,
            ..
        } = self;
        let (value, result) = first;
        let test = compare(alloc, limits, Rel::Eq, tree, value)?;
        choice(alloc, limits, (test, result), others, default)
    }
}
