ghost use Rattle.std.specs.Prelude.{◌≡◌, [], ◌∷◌, option_map};
ghost use Rattle.pig_exprs.specs.Grammar.{Forms, rel_of};
ghost use Rattle.pig_exprs.specs.Reader.{forms};
ghost use Rattle.pig_exprs.specs.ExprReader.{null_test, rel_ahead, in_ahead};

use crate::{symbol, word};
use pig_syntax::{Keyword, Symbol, Token, TokenForm};
use pig_value::Rel;

// The comparison that a token is.
fn comparison(token: &Token) -> Option<Rel>
    ensures { result ≡ rel_of token.now.form }
{
    match &token.form {
        TokenForm::Symbol(Symbol::Equal) => Some(Rel::Eq),
        TokenForm::Symbol(Symbol::NotEqual) => Some(Rel::Ne),
        TokenForm::Symbol(Symbol::Less) => Some(Rel::Lt),
        TokenForm::Symbol(Symbol::LessEqual) => Some(Rel::Le),
        TokenForm::Symbol(Symbol::Greater) => Some(Rel::Gt),
        TokenForm::Symbol(Symbol::GreaterEqual) => Some(Rel::Ge),
        _ => None,
    }
}

// IS NULL or IS NOT NULL, and whether NOT stands in it.
#[tactic(auto, unfolding(crate::specs::ExprReader::null_test))]
pub fn null_test(tokens: &[Token]) -> Option<(bool, &[Token])>
    ensures { option_map (λ p. (p.0, forms p.1.now)) result ≡ null_test (forms tokens.now) }
{
    match tokens {
        [word!(Is), word!(Null), rest @ ..] => Some((false, rest)),
        [word!(Is), word!(Not), word!(Null), rest @ ..] => Some((true, rest)),
        _ => None,
    }
}

// The comparison whose sign stands there.
#[tactic(auto, unfolding(crate::specs::ExprReader::rel_ahead))]
pub fn comparison_ahead(tokens: &[Token]) -> Option<(Rel, &[Token])>
    ensures { option_map (λ p. (p.0, forms p.1.now)) result ≡ rel_ahead (forms tokens.now) }
{
    match tokens {
        [token, rest @ ..] => {
            let op = comparison(token)?;
            Some((op, rest))
        }
        _ => None,
    }
}

// The tokens behind IN and its `(`.
#[tactic(auto, unfolding(crate::specs::ExprReader::in_ahead))]
pub fn in_ahead(tokens: &[Token]) -> Option<&[Token]>
    ensures { option_map (λ rest. forms rest.now) result ≡ in_ahead (forms tokens.now) }
{
    match tokens {
        [word!(In), symbol!(OpenParen), rest @ ..] => Some(rest),
        _ => None,
    }
}
