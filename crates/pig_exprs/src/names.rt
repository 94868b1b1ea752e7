ghost use Rattle.std.specs.Prelude.{◌≡◌, [], ◌∷◌, ◌++◌, true, codes, IfOk, length, map, option_map, string_bytes};
ghost use Rattle.pig_exprs.specs.Grammar.{Forms, part_of};
ghost use Rattle.pig_exprs.specs.Reader.{forms, Gives, joined_name, part_turn, name_at, field_ref_at, selection_at, close_paren};

use crate::reading::{ParseFault, Rule, Turning, close_paren, listed, one, repeat};
use crate::{form, symbol};
use pig_syntax::{FieldRef, Keyword, PostStep, Symbol, Token, TokenForm};
use pig_value::{Seq, Text};
use std::alloc::{AllocError, Global};

// The text of a token that is a part of a name.
fn part(token: &Token) -> Option<&str>
    ensures { option_map (λ p. p.now) result ≡ part_of token.now.form }
{
    match &token.form {
        TokenForm::Ident(name) => Some(name.as_str()),
        TokenForm::Keyword(Keyword::Group) => Some("group"),
        TokenForm::Keyword(Keyword::Cube) => Some("cube"),
        _ => None,
    }
}

// The name with one more part.
fn with_part(name: String, part: &str) -> Result<String, AllocError>
    ensures { IfOk result (λ longer.
        string_bytes longer ≡ string_bytes name ++ codes "::" ++ part.now) }
{
    let mut name = name;
    name.push_str("::")?;
    name.push_str(part)?;
    Ok(name)
}

// The name of the parts.
#[tactic(auto, unfolding(crate::specs::Reader::joined_name))]
fn joined_name(name: String, parts: &[Text]) -> Result<Text, AllocError>
    ensures { IfOk result (λ whole. whole ≡ joined_name (string_bytes name) parts.now) }
{
    let mut name = name;
    let mut rest = parts;
    while let [part, others @ ..] = rest {
        name = with_part(name, part.as_str())?;
        rest = others;
    }
    Ok(Text::from_string(name))
}

// The parts that go on a name.
#[derive(Drop)]
struct Parting {
    alloc: Global,
}

impl Turning for Parting {
    type Tree = Text;

    ghost ready = { λ _. Unit {0} };

    ghost finds = { λ _. part_turn };

    #[tactic(auto, unfolding(crate::specs::Reader::part_turn))]
    fn turn<'a>(&self, tokens: &'a [Token]) -> Result<Option<(Text, &'a [Token])>, ParseFault> {
        match tokens {
            [symbol!(DoubleColon), next, rest @ ..] => match part(next) {
                Some(text) => {
                    let text = Text::from_str(self.alloc, text)?;
                    Ok(Some((text, rest)))
                }
                None => Err(ParseFault::Off),
            },
            _ => Ok(None),
        }
    }
}

// A name: parts with `::` between, where GROUP is the part `group` and CUBE the part `cube`.
#[tactic(auto, unfolding(crate::specs::Reader::name_at))]
pub fn name(alloc: Global, tokens: &[Token]) -> Result<(Text, &[Token]), ParseFault>
    ensures { Gives (name_at (forms tokens.now)) result }
{
    match tokens {
        [first, rest @ ..] => match part(first) {
            Some(text) => {
                let (parts, rest) = repeat(&Parting { alloc }, Seq::new(alloc), rest)?;
                let name = joined_name(String::from_str(alloc, text)?, parts.as_slice())?;
                Ok((name, rest))
            }
            None => Err(ParseFault::Off),
        },
        _ => Err(ParseFault::Off),
    }
}

/// A field by its name or its position.
#[tactic(auto, unfolding(crate::specs::Reader::field_ref_at))]
pub fn field_ref(alloc: Global, tokens: &[Token]) -> Result<(FieldRef, &[Token]), ParseFault>
    ensures { Gives (field_ref_at (forms tokens.now)) result }
{
    match tokens {
        [form!(Position(position)), rest @ ..] => Ok((FieldRef::Position(*position), rest)),
        _ => {
            let (name, rest) = name(alloc, tokens)?;
            Ok((FieldRef::Name(name), rest))
        }
    }
}

/// Fields as members of a list.
#[derive(Drop)]
pub struct FieldRefRule {
    pub alloc: Global,
}

impl Rule for FieldRefRule {
    type Tree = FieldRef;

    ghost ready = { λ _. Unit {0} };

    ghost finds = { λ _. field_ref_at };

    fn read<'a>(&self, tokens: &'a [Token]) -> Result<(FieldRef, &'a [Token]), ParseFault> {
        field_ref(self.alloc, tokens)
    }
}

/// What a projection takes: one field, or fields in parentheses.
#[tactic(auto, unfolding(crate::specs::Reader::selection_at))]
pub fn selection(alloc: Global, tokens: &[Token]) -> Result<(PostStep, &[Token]), ParseFault>
    ensures { Gives (selection_at (forms tokens.now)) result }
{
    match tokens {
        [symbol!(OpenParen), rest @ ..] => {
            let (fields, rest) = listed(alloc, &FieldRefRule { alloc }, rest)?;
            let rest = close_paren(rest)?;
            let single = false;
            Ok((PostStep::Project { fields, single }, rest))
        }
        _ => {
            let (field, rest) = field_ref(alloc, tokens)?;
            let fields = one(alloc, field)?;
            let single = true;
            Ok((PostStep::Project { fields, single }, rest))
        }
    }
}
