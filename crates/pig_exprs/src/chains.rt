ghost use Rattle.std.specs.Prelude.{◌≡◌, [], ◌∷◌};
ghost use Rattle.pig_exprs.specs.Grammar.{Forms, chain_op};
ghost use Rattle.pig_exprs.specs.Reader.{forms, Gives};
ghost use Rattle.pig_exprs.specs.ExprReader.{level_of, link_turn, chain_at};

use crate::limits::Limits;
use crate::reading::{ParseFault, Rule, Turning, before};
use crate::trees::chain_of;
use pig_syntax::{Expr, Keyword, Link, Links, Symbol, Token, TokenForm};
use pig_value::ChainOp;
use std::alloc::Global;

// The chains of expressions, by what stands between their operands.
#[derive(Clone, Copy)]
pub enum Chain {
    // OR
    Or,
    // AND
    And,
    // `+` and `-`
    Sum,
    // `*`, `/` and `%`
    Product,
}

// The operator that a token is in a chain.
fn operator(chain: Chain, token: &Token) -> Option<ChainOp>
    ensures { result ≡ chain_op (level_of chain) token.now.form }
{
    match (chain, &token.form) {
        (Chain::Or, TokenForm::Keyword(Keyword::Or)) => Some(ChainOp::Or),
        (Chain::And, TokenForm::Keyword(Keyword::And)) => Some(ChainOp::And),
        (Chain::Sum, TokenForm::Symbol(Symbol::Plus)) => Some(ChainOp::Add),
        (Chain::Sum, TokenForm::Symbol(Symbol::Minus)) => Some(ChainOp::Sub),
        (Chain::Product, TokenForm::Symbol(Symbol::Star)) => Some(ChainOp::Mul),
        (Chain::Product, TokenForm::Symbol(Symbol::Slash)) => Some(ChainOp::Div),
        (Chain::Product, TokenForm::Symbol(Symbol::Percent)) => Some(ChainOp::Rem),
        _ => None,
    }
}

// The links of a chain over operands of a rule.
#[derive(Drop)]
struct Linking<'r, R> {
    chain: Chain,
    rule: &'r R,
}

impl<R: Rule<Tree = Expr>> Turning for Linking<'_, R> {
    type Tree = Link;

    ghost ready = { λ l. R.ready l.rule.now };

    ghost finds = { λ l. link_turn (level_of l.chain) (R.finds l.rule.now) };

    #[tactic(auto, unfolding(crate::specs::ExprReader::link_turn))]
    fn turn<'a>(&self, tokens: &'a [Token]) -> Result<Option<(Link, &'a [Token])>, ParseFault> {
        match tokens {
            [token, rest @ ..] => match operator(self.chain, token) {
                Some(op) => {
                    let (a, rest) = self.rule.read(rest)?;
                    Ok(Some((Link { op, a }, rest)))
                }
                None => Ok(None),
            },
            _ => Ok(None),
        }
    }
}

// Operands of a rule with the chain's operators between, taken from left to right.
#[tactic(auto, unfolding(crate::specs::ExprReader::chain_at))]
pub fn chained<'a, R: Rule<Tree = Expr>>(
    alloc: Global,
    limits: &Limits,
    chain: Chain,
    rule: &R,
    tokens: &'a [Token],
) -> Result<(Expr, &'a [Token]), ParseFault>
    requires { R.ready rule.now }
    ensures { Gives (chain_at (level_of chain) (R.finds rule.now) (forms tokens.now)) result }
{
    let (first, rest) = rule.read(tokens)?;
    let linking = Linking { chain, rule };
    let ((first, links), rest) = before(first, &linking, Links::new(alloc), rest)?;
    let whole = chain_of(alloc, limits, first, links)?;
    Ok((whole, rest))
}
