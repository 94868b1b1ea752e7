ghost use Rattle.std.specs.Prelude.{◌≡◌, ◌<◌, ◌≤◌, ◌-◌, ◌∷◌, length, option_map, All, IfOk, IfErr};
ghost use Rattle.pig_syntax.specs.Tokens.{AreTokens, HoldsNoLf, IsLexFault, is_number};
ghost use Rattle.pig_syntax.specs.Scanner.{form_at, standing, token_at};
ghost use Rattle.pig_syntax.specs.Steps.{IsAhead};

use crate::forms::{Found, number, position, symbol, text, word};
use crate::scanning::{after, after_gap, begins_as_word};
use crate::tokens::{Token, TokenForm, Tokens};
use pig_value::Seq;
use std::alloc::{AllocError, Global};
use thiserror::Error;

/// Why a script has no tokens.
#[derive(Debug, Drop, Error)]
pub enum LexFault {
    /// At this offset, the first such, neither white space nor a comment nor a token begins.
    #[error("no token begins at byte {offset}")]
    Bad { offset: u64 },
    #[error("out of memory")]
    OutOfMemory,
}

impl From<AllocError> for LexFault {
    ghost use Rattle.std.specs.Prelude.{◌≡◌};
    ghost use Rattle.pig_syntax.specs.declared.lexing.LexFault.TheVariants.{OutOfMemory};

    ghost from_gives = { λ _ e. e ≡ OutOfMemory };

    fn from(_: AllocError) -> Self {
        LexFault::OutOfMemory
    }
}

/// The tokens of a script, with their offsets. Where there are none, `Bad` has the first offset at which
/// no token begins.
pub fn lex(alloc: Global, script: &[u8]) -> Result<Tokens, LexFault>
    ensures tokens { IfOk result (AreTokens script.now) }
    ensures texts { IfOk result (All (λ token. HoldsNoLf token.form)) }
    ensures fault { IfErr result (IsLexFault script.now) }
{
    let mut tokens = Seq::new(alloc);
    let mut rest = script;
    while !rest.is_empty() {
        let offset = offset_of(script, rest);
        match front(alloc, rest)? {
            Ahead::Gap(behind) => rest = behind,
            Ahead::Token(form, behind) => {
                tokens.push(Token { form, from: offset })?;
                rest = behind;
            }
            Ahead::Nothing => return Err(LexFault::Bad { offset }),
        }
    }
    Ok(tokens)
}

// Where the rest of a script begins.
fn offset_of(script: &[u8], rest: &[u8]) -> u64
    requires { length rest.now ≤ length script.now }
    ensures { result ≡ length script.now - length rest.now }
{
    (script.len() - rest.len()) as u64
}

// What stands at the front of some bytes, and the bytes behind it.
#[derive(Drop)]
enum Ahead<'a> {
    Gap(&'a [u8]),
    Token(TokenForm, &'a [u8]),
    Nothing,
}

fn front(alloc: Global, bytes: &[u8]) -> Result<Ahead, AllocError>
    ensures { IfOk result (IsAhead bytes.now) }
{
    match after_gap(bytes) {
        Some(rest) => Ok(Ahead::Gap(rest)),
        None => match token(alloc, bytes)? {
            Some((form, rest)) => Ok(Ahead::Token(form, rest)),
            None => Ok(Ahead::Nothing),
        },
    }
}

// The token that begins the bytes, where no white space and no comment stands.
#[tactic(auto, unfolding(crate::specs::Scanner::token_at))]
fn token(alloc: Global, bytes: &[u8]) -> Result<Found, AllocError>
    ensures { IfOk result (λ found. option_map (λ p. (p.0, p.1.now)) found ≡ token_at bytes.now) }
{
    match after(bytes, b"/*") {
        Some(_) => Ok(None),
        None => match form(alloc, bytes)? {
            Some((form, rest)) => Ok(standing(form, rest)),
            None => Ok(None),
        },
    }
}

// A form that may stand where it ends: behind a number stands no byte of a word.
#[tactic(auto, unfolding(crate::specs::Scanner::standing))]
fn standing(form: TokenForm, rest: &[u8]) -> Found
    ensures { option_map (λ p. (p.0, p.1.now)) result ≡ standing (form, rest.now) }
{
    if is_number(&form) && begins_as_word(rest) {
        None
    } else {
        Some((form, rest))
    }
}

fn is_number(form: &TokenForm) -> bool
    ensures { result ≡ is_number form.now }
{
    match form {
        TokenForm::Int(_) | TokenForm::Long(_) | TokenForm::Float | TokenForm::Position(_) => true,
        TokenForm::Ident(_) | TokenForm::Keyword(_) | TokenForm::Text(_) | TokenForm::Symbol(_) =>
            false,
    }
}

// The longest form that begins the bytes, whatever follows it.
#[tactic(auto, unfolding(crate::specs::Scanner::form_at))]
fn form(alloc: Global, bytes: &[u8]) -> Result<Found, AllocError>
    ensures { IfOk result (λ found. option_map (λ p. (p.0, p.1.now)) found ≡ form_at bytes.now) }
{
    let [first, rest @ ..] = bytes else {
        return Ok(None);
    };
    if first.is_ascii_alphabetic() {
        word(alloc, bytes)
    } else if first.is_ascii_digit() {
        Ok(number(bytes))
    } else if *first == b'$' {
        Ok(position(rest))
    } else if *first == b'\'' {
        text(alloc, rest)
    } else {
        Ok(symbol(bytes))
    }
}
