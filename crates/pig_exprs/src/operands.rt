ghost use Rattle.std.specs.Prelude.{◌≡◌, [], ◌∷◌, IfOk, Some};
ghost use Rattle.pig_exprs.specs.Grammar.{Forms, token_literal};
ghost use Rattle.pig_exprs.specs.Reader.{forms, Gives};
ghost use Rattle.pig_exprs.specs.ExprReader.{post_turn, simple_at, begins_type, is_type_word};

use crate::limits::Limits;
use crate::names::{field_ref, selection};
use crate::reading::{ParseFault, Turning};
use crate::{form, symbol};
use pig_syntax::{Expr, Keyword, PostStep, Symbol, Token, TokenForm};
use std::alloc::{AllocError, Global};

// The literal that a token is.
fn literal(alloc: Global, token: &Token) -> Result<Option<Expr>, AllocError>
    ensures { IfOk result (λ found. found ≡ token_literal token.now.form) }
{
    match &token.form {
        TokenForm::Int(number) => Ok(Some(Expr::Int(*number))),
        TokenForm::Long(number) => Ok(Some(Expr::Long(*number))),
        TokenForm::Float => Ok(Some(Expr::Float)),
        TokenForm::Text(text) => Ok(Some(Expr::Text(text.copy(alloc)?))),
        TokenForm::Keyword(Keyword::True) => Ok(Some(Expr::Bool(true))),
        TokenForm::Keyword(Keyword::False) => Ok(Some(Expr::Bool(false))),
        TokenForm::Keyword(Keyword::Null) => Ok(Some(Expr::Null)),
        _ => Ok(None),
    }
}

// A literal or a field.
#[tactic(auto, unfolding(crate::specs::ExprReader::simple_at))]
pub fn simple<'a>(
    alloc: Global,
    limits: &Limits,
    tokens: &'a [Token],
) -> Result<(Expr, &'a [Token]), ParseFault>
    ensures { Gives (simple_at (forms tokens.now)) result }
{
    limits.node();
    match tokens {
        [first, rest @ ..] => match literal(alloc, first)? {
            Some(literal) => Ok((literal, rest)),
            None => {
                let (field, rest) = field_ref(alloc, tokens)?;
                Ok((Expr::Field(field), rest))
            }
        },
        _ => Err(ParseFault::Off),
    }
}

// The projections and look-ups behind an expression.
#[derive(Drop)]
pub struct Stepping<'l> {
    pub alloc: Global,
    pub limits: &'l Limits,
}

impl Turning for Stepping<'_> {
    type Tree = PostStep;

    ghost ready = { λ _. Unit {0} };

    ghost finds = { λ _. post_turn };

    #[tactic(auto, unfolding(crate::specs::ExprReader::post_turn))]
    fn turn<'a>(&self, tokens: &'a [Token]) -> Result<Option<(PostStep, &'a [Token])>, ParseFault> {
        match tokens {
            [symbol!(Dot), rest @ ..] => {
                self.limits.step()?;
                let (step, rest) = selection(self.alloc, rest)?;
                self.limits.nodes(fields_of(&step));
                Ok(Some((step, rest)))
            }
            [symbol!(Hash), form!(Text(key)), rest @ ..] => {
                self.limits.step()?;
                self.limits.node();
                let key = key.copy(self.alloc)?;
                Ok(Some((PostStep::Look(key), rest)))
            }
            _ => Ok(None),
        }
    }
}

// The number of fields that a projection takes.
fn fields_of(step: &PostStep) -> usize {
    match step {
        PostStep::Project { fields, .. } => fields.len(),
        PostStep::Look(_) => 0,
    }
}

// How long the texts and names among the tokens are together.
pub fn bytes_of_texts(tokens: &[Token]) -> usize {
    let mut bytes: usize = 0;
    for token in tokens {
        bytes = bytes.saturating_add(bytes_of_text(&token.form));
    }
    bytes
}

fn bytes_of_text(form: &TokenForm) -> usize {
    match form {
        TokenForm::Text(text) | TokenForm::Ident(text) => text.len(),
        _ => 0,
    }
}

// Whether a type that begins with a word stands there.
pub fn begins_type(tokens: &[Token]) -> bool
    ensures { result ≡ begins_type (forms tokens.now) }
{
    match tokens {
        [form!(Keyword(word)), ..] => is_type_word(*word),
        _ => false,
    }
}

// Whether a type begins with the word.
fn is_type_word(word: Keyword) -> bool
    ensures { result ≡ is_type_word word }
{
    matches!(
        word,
        Keyword::Tuple
            | Keyword::Bag
            | Keyword::Map
            | Keyword::Int
            | Keyword::Long
            | Keyword::Chararray
            | Keyword::Bytearray
            | Keyword::Boolean
            | Keyword::Float
            | Keyword::Double
            | Keyword::BigInteger
            | Keyword::BigDecimal
            | Keyword::DateTime
    )
}
