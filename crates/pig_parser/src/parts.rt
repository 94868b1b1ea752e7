ghost use Rattle.std.specs.Prelude.{◌≡◌, [], ◌∷◌, Some, length, map, option_map};
ghost use Rattle.pig_exprs.specs.declared.limits.TheConstants.{MOST_NESTED};
ghost use Rattle.pig_exprs.specs.Grammar.{Forms};
ghost use Rattle.pig_parser.specs.Statements.{count_of};
ghost use Rattle.pig_exprs.specs.Reader.{forms, Gives, GivesBeside};
ghost use Rattle.pig_exprs.specs.ExprReader.{expr_at};
ghost use Rattle.pig_parser.specs.StatementReader.{GivesFound, several, key_list_at, keys_at, dir_at, order_field_at, order_keys_at, text_at, ident_at, func_at, using_func_at, using_text_at, after_parallel, count_at};

use pig_exprs::{
    Limits, ParseFault, Rule, close_paren, closed, expression, field_ref, form, listed, one,
    symbol, word,
};
use pig_syntax::{
    Expr, Exprs, Func, Keyword, OrderField, OrderKeys, Symbol, Texts, Token, TokenForm,
};
use pig_value::{Dir, Seq, Text};
use std::alloc::Global;

// The members, where they are two at least.
#[tactic(auto, unfolding(crate::specs::StatementReader::several))]
pub fn several<T: Drop>(members: Seq<T>) -> Result<Seq<T>, ParseFault>
    ensures { GivesFound (several members) result }
{
    match members.as_slice() {
        [_first, _second, _others @ ..] => Ok(members),
        _ => Err(ParseFault::Off),
    }
}

// Expressions as members of a list.
#[derive(Drop)]
pub struct ExpressionRule<'l> {
    pub alloc: Global,
    pub limits: &'l Limits,
}

impl Rule for ExpressionRule<'_> {
    type Tree = Expr;

    ghost ready = { λ _. Unit {0} };

    ghost finds = { λ _. expr_at MOST_NESTED MOST_NESTED };

    fn read<'a>(&self, tokens: &'a [Token]) -> Result<(Expr, &'a [Token]), ParseFault> {
        expression(self.alloc, self.limits, tokens)
    }
}

// Two keys or more in parentheses.
#[tactic(auto, unfolding(crate::specs::StatementReader::key_list_at))]
fn key_list<'a>(
    alloc: Global,
    limits: &Limits,
    tokens: &'a [Token],
) -> Result<(Exprs, &'a [Token]), ParseFault>
    ensures { Gives (key_list_at MOST_NESTED (forms tokens.now)) result }
{
    match tokens {
        [symbol!(OpenParen), rest @ ..] => {
            let (keys, rest) = listed(alloc, &ExpressionRule { alloc, limits }, rest)?;
            let keys = several(keys)?;
            let (keys, rest) = closed(keys, rest)?;
            Ok((keys, rest))
        }
        _ => Err(ParseFault::Off),
    }
}

// Keys: one expression, or several in parentheses. Parentheses may also be those of the one expression,
// so it is tried first.
#[tactic(auto, unfolding(crate::specs::StatementReader::keys_at))]
pub fn keys<'a>(
    alloc: Global,
    limits: &Limits,
    tokens: &'a [Token],
) -> Result<(Exprs, &'a [Token]), ParseFault>
    ensures { Gives (keys_at MOST_NESTED (forms tokens.now)) result }
{
    let copied = limits.copied();
    match expression(alloc, limits, tokens) {
        Ok((key, rest)) => {
            let keys = one(alloc, key)?;
            Ok((keys, rest))
        }
        Err(ParseFault::Off) => {
            limits.forget_copies(copied);
            key_list(alloc, limits, tokens)
        }
        Err(ParseFault::OutOfMemory) => Err(ParseFault::OutOfMemory),
    }
}

// A direction, which is ascending where none is written.
#[tactic(auto, unfolding(crate::specs::StatementReader::dir_at))]
fn dir(tokens: &[Token]) -> (Dir, &[Token])
    ensures { dir_at (forms tokens.now) ≡ Some (result.0, forms result.1.now) }
{
    match tokens {
        [word!(Asc), rest @ ..] => (Dir::Asc, rest),
        [word!(Desc), rest @ ..] => (Dir::Desc, rest),
        _ => (Dir::Asc, tokens),
    }
}

// Fields with their directions as members of a list.
#[derive(Drop)]
struct OrderFieldRule {
    alloc: Global,
}

impl Rule for OrderFieldRule {
    type Tree = OrderField;

    ghost ready = { λ _. Unit {0} };

    ghost finds = { λ _. order_field_at };

    #[tactic(auto, unfolding(crate::specs::StatementReader::order_field_at))]
    fn read<'a>(&self, tokens: &'a [Token]) -> Result<(OrderField, &'a [Token]), ParseFault> {
        let (field, rest) = field_ref(self.alloc, tokens)?;
        let (dir, rest) = dir(rest);
        Ok((OrderField { field, dir }, rest))
    }
}

// What is kept, and the keys of an ORDER.
#[tactic(auto, unfolding(crate::specs::StatementReader::order_keys_at))]
pub fn order_keys<K: Drop>(
    alloc: Global,
    kept: K,
    tokens: &[Token],
) -> Result<((K, OrderKeys), &[Token]), ParseFault>
    ensures { GivesBeside kept (order_keys_at (forms tokens.now)) result }
{
    match tokens {
        [symbol!(Star), rest @ ..] => {
            let (dir, rest) = dir(rest);
            Ok(((kept, OrderKeys::All(dir)), rest))
        }
        _ => {
            let (fields, rest) = listed(alloc, &OrderFieldRule { alloc }, tokens)?;
            Ok(((kept, OrderKeys::Fields(fields)), rest))
        }
    }
}

// Texts as members of a list.
#[derive(Drop)]
struct TextRule {
    alloc: Global,
}

impl Rule for TextRule {
    type Tree = Text;

    ghost ready = { λ _. Unit {0} };

    ghost finds = { λ _. text_at };

    #[tactic(auto, unfolding(crate::specs::StatementReader::text_at))]
    fn read<'a>(&self, tokens: &'a [Token]) -> Result<(Text, &'a [Token]), ParseFault> {
        match tokens {
            [form!(Text(content)), rest @ ..] => {
                let content = content.copy(self.alloc)?;
                Ok((content, rest))
            }
            _ => Err(ParseFault::Off),
        }
    }
}

// Names of relations as members of a list.
#[derive(Drop)]
pub struct IdentRule {
    pub alloc: Global,
}

impl Rule for IdentRule {
    type Tree = Text;

    ghost ready = { λ _. Unit {0} };

    ghost finds = { λ _. ident_at };

    #[tactic(auto, unfolding(crate::specs::StatementReader::ident_at))]
    fn read<'a>(&self, tokens: &'a [Token]) -> Result<(Text, &'a [Token]), ParseFault> {
        match tokens {
            [form!(Ident(name)), rest @ ..] => {
                let name = name.copy(self.alloc)?;
                Ok((name, rest))
            }
            _ => Err(ParseFault::Off),
        }
    }
}

// A storage function with its arguments.
#[tactic(auto, unfolding(crate::specs::StatementReader::func_at))]
fn func(alloc: Global, tokens: &[Token]) -> Result<(Func, &[Token]), ParseFault>
    ensures { Gives (func_at (forms tokens.now)) result }
{
    match tokens {
        [
            form!(Ident(name)),
            symbol!(OpenParen),
            symbol!(CloseParen),
            rest @ ..,
        ] => {
            let name = name.copy(alloc)?;
            let args = Texts::new(alloc);
            Ok((Func { name, args }, rest))
        }
        [form!(Ident(name)), symbol!(OpenParen), rest @ ..] => {
            let name = name.copy(alloc)?;
            let (args, rest) = listed(alloc, &TextRule { alloc }, rest)?;
            let rest = close_paren(rest)?;
            Ok((Func { name, args }, rest))
        }
        _ => Err(ParseFault::Off),
    }
}

// The storage function behind USING, where one stands.
#[tactic(auto, unfolding(crate::specs::StatementReader::using_func_at))]
pub fn using_func(alloc: Global, tokens: &[Token]) -> Result<(Option<Func>, &[Token]), ParseFault>
    ensures { Gives (using_func_at (forms tokens.now)) result }
{
    match tokens {
        [word!(Using), rest @ ..] => {
            let (func, rest) = func(alloc, rest)?;
            Ok((Some(func), rest))
        }
        _ => Ok((None, tokens)),
    }
}

// The text behind USING, where one stands.
#[tactic(auto, unfolding(crate::specs::StatementReader::using_text_at))]
pub fn using_text(alloc: Global, tokens: &[Token]) -> Result<(Option<Text>, &[Token]), ParseFault>
    ensures { Gives (using_text_at (forms tokens.now)) result }
{
    match tokens {
        [word!(Using), form!(Text(content)), rest @ ..] => {
            let content = content.copy(alloc)?;
            Ok((Some(content), rest))
        }
        _ => Ok((None, tokens)),
    }
}

// The tokens behind PARALLEL and its number, where they stand.
#[tactic(auto, unfolding(crate::specs::StatementReader::after_parallel))]
pub fn after_parallel(tokens: &[Token]) -> &[Token]
    ensures { forms result.now ≡ after_parallel (forms tokens.now) }
{
    match tokens {
        [word!(Parallel), form!(Int(_)), rest @ ..] => rest,
        _ => tokens,
    }
}

// The count that a token is.
fn count_of(token: &Token) -> Option<u64>
    ensures { result ≡ count_of token.now.form }
{
    match &token.form {
        TokenForm::Int(count) => u64::try_from(*count).ok(),
        TokenForm::Long(count) => u64::try_from(*count).ok(),
        _ => None,
    }
}

// What is kept, and a count of tuples.
#[tactic(auto, unfolding(crate::specs::StatementReader::count_at))]
pub fn count<K: Drop>(kept: K, tokens: &[Token]) -> Result<((K, u64), &[Token]), ParseFault>
    ensures { GivesBeside kept (count_at (forms tokens.now)) result }
{
    match tokens {
        [first, rest @ ..] => match count_of(first) {
            Some(count) => Ok(((kept, count), rest)),
            None => Err(ParseFault::Off),
        },
        _ => Err(ParseFault::Off),
    }
}
