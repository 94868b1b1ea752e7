ghost use Rattle.std.specs.Prelude.{◌≡◌, [], ◌∷◌, Some, length, map};
ghost use Rattle.pig_exprs.specs.declared.limits.TheConstants.{MOST_NESTED};
ghost use Rattle.pig_exprs.specs.Grammar.{Forms};
ghost use Rattle.pig_parser.specs.Statements.{is_unsupported_word};
ghost use Rattle.pig_exprs.specs.Reader.{forms, Gives};
ghost use Rattle.pig_parser.specs.StatementReader.{GivesFound, branch_with, branch_at, branch_turn, branches_at, otherwise_at, split_at, store_at, message_at, assert_at, is_unsupported, assign_at, front_at, ended, statement_at};

use crate::operators::operator;
use crate::parts::using_func;
use pig_exprs::{Limits, ParseFault, Turning, expression, form, one, repeat, symbol, word};
use pig_syntax::{Branch, Branches, Keyword, Stmt, Symbol, Token, TokenForm};
use pig_value::Text;
use std::alloc::Global;

// A branch, behind its name and IF.
#[tactic(auto, unfolding(crate::specs::StatementReader::branch_with))]
fn branch_with<'a>(
    alloc: Global,
    limits: &Limits,
    name: &Text,
    tokens: &'a [Token],
) -> Result<(Branch, &'a [Token]), ParseFault>
    ensures { Gives (branch_with MOST_NESTED name.now (forms tokens.now)) result }
{
    let alias = name.copy(alloc)?;
    let (cond, rest) = expression(alloc, limits, tokens)?;
    Ok((Branch { alias, cond }, rest))
}

// A branch of a SPLIT.
#[tactic(auto, unfolding(crate::specs::StatementReader::branch_at))]
fn branch<'a>(
    alloc: Global,
    limits: &Limits,
    tokens: &'a [Token],
) -> Result<(Branch, &'a [Token]), ParseFault>
    ensures { Gives (branch_at MOST_NESTED (forms tokens.now)) result }
{
    match tokens {
        [form!(Ident(name)), word!(If), rest @ ..] => branch_with(alloc, limits, name, rest),
        _ => Err(ParseFault::Off),
    }
}

// The branches of a SPLIT behind the first.
#[derive(Drop)]
struct BranchTurns<'l> {
    alloc: Global,
    limits: &'l Limits,
}

impl Turning for BranchTurns<'_> {
    type Tree = Branch;

    ghost ready = { λ _. Unit {0} };

    ghost finds = { λ _. branch_turn MOST_NESTED };

    #[tactic(auto, unfolding(crate::specs::StatementReader::branch_turn))]
    fn turn<'a>(&self, tokens: &'a [Token]) -> Result<Option<(Branch, &'a [Token])>, ParseFault> {
        match tokens {
            [symbol!(Comma), form!(Ident(name)), word!(If), rest @ ..] => {
                let (branch, rest) = branch_with(self.alloc, self.limits, name, rest)?;
                Ok(Some((branch, rest)))
            }
            _ => Ok(None),
        }
    }
}

// The branches of a SPLIT.
#[tactic(auto, unfolding(crate::specs::StatementReader::branches_at))]
fn branches<'a>(
    alloc: Global,
    limits: &Limits,
    tokens: &'a [Token],
) -> Result<(Branches, &'a [Token]), ParseFault>
    ensures { Gives (branches_at MOST_NESTED (forms tokens.now)) result }
{
    let (first, rest) = branch(alloc, limits, tokens)?;
    let branches = one(alloc, first)?;
    repeat(&BranchTurns { alloc, limits }, branches, rest)
}

// The relation of the tuples that no branch takes, where there is one.
#[tactic(auto, unfolding(crate::specs::StatementReader::otherwise_at))]
fn otherwise(alloc: Global, tokens: &[Token]) -> Result<(Option<Text>, &[Token]), ParseFault>
    ensures { Gives (otherwise_at (forms tokens.now)) result }
{
    match tokens {
        [
            symbol!(Comma),
            form!(Ident(name)),
            word!(Otherwise),
            rest @ ..,
        ] => {
            let name = name.copy(alloc)?;
            Ok((Some(name), rest))
        }
        _ => Ok((None, tokens)),
    }
}

// A SPLIT, behind its word.
#[tactic(auto, unfolding(crate::specs::StatementReader::split_at))]
fn split<'a>(
    alloc: Global,
    limits: &Limits,
    tokens: &'a [Token],
) -> Result<(Stmt, &'a [Token]), ParseFault>
    ensures { Gives (split_at MOST_NESTED (forms tokens.now)) result }
{
    match tokens {
        [form!(Ident(name)), word!(Into), rest @ ..] => {
            let from = name.copy(alloc)?;
            let (branches, rest) = branches(alloc, limits, rest)?;
            let (otherwise, rest) = otherwise(alloc, rest)?;
            Ok((
                Stmt::Split {
                    from,
                    branches,
                    otherwise,
                },
                rest,
            ))
        }
        _ => Err(ParseFault::Off),
    }
}

// A STORE, behind its word.
#[tactic(auto, unfolding(crate::specs::StatementReader::store_at))]
fn store(alloc: Global, tokens: &[Token]) -> Result<(Stmt, &[Token]), ParseFault>
    ensures { Gives (store_at (forms tokens.now)) result }
{
    match tokens {
        [
            form!(Ident(name)),
            word!(Into),
            form!(Text(path)),
            rest @ ..,
        ] => {
            let from = name.copy(alloc)?;
            let path = path.copy(alloc)?;
            let (func, rest) = using_func(alloc, rest)?;
            Ok((Stmt::Store { from, path, func }, rest))
        }
        _ => Err(ParseFault::Off),
    }
}

// The message behind a condition, where one stands.
#[tactic(auto, unfolding(crate::specs::StatementReader::message_at))]
fn message(alloc: Global, tokens: &[Token]) -> Result<(Option<Text>, &[Token]), ParseFault>
    ensures { Gives (message_at (forms tokens.now)) result }
{
    match tokens {
        [symbol!(Comma), form!(Text(content)), rest @ ..] => {
            let content = content.copy(alloc)?;
            Ok((Some(content), rest))
        }
        _ => Ok((None, tokens)),
    }
}

// An ASSERT, behind its word.
#[tactic(auto, unfolding(crate::specs::StatementReader::assert_at))]
fn assertion<'a>(
    alloc: Global,
    limits: &Limits,
    tokens: &'a [Token],
) -> Result<(Stmt, &'a [Token]), ParseFault>
    ensures { Gives (assert_at MOST_NESTED (forms tokens.now)) result }
{
    match tokens {
        [form!(Ident(name)), word!(By), rest @ ..] => {
            let from = name.copy(alloc)?;
            let (cond, rest) = expression(alloc, limits, rest)?;
            let (message, rest) = message(alloc, rest)?;
            Ok((
                Stmt::Assert {
                    from,
                    cond,
                    message,
                },
                rest,
            ))
        }
        _ => Err(ParseFault::Off),
    }
}

// Whether a statement that is left out begins with the word.
fn is_unsupported_word(word: Keyword) -> bool
    ensures { result ≡ is_unsupported_word word }
{
    matches!(
        word,
        Keyword::Register
            | Keyword::Define
            | Keyword::Stream
            | Keyword::MapReduce
            | Keyword::Sample
            | Keyword::Cross
            | Keyword::Dump
            | Keyword::Illustrate
            | Keyword::Describe
            | Keyword::Explain
            | Keyword::Import
            | Keyword::Set
    )
}

// Whether a statement that is left out stands there.
#[tactic(auto, unfolding(crate::specs::StatementReader::is_unsupported))]
fn is_unsupported(tokens: &[Token]) -> bool
    ensures { result ≡ is_unsupported (forms tokens.now) }
{
    match tokens {
        [form!(Keyword(word)), ..] => is_unsupported_word(*word),
        _ => false,
    }
}

// What stands behind a name and `=`.
#[tactic(auto, unfolding(crate::specs::StatementReader::assign_at))]
fn assign<'a>(
    alloc: Global,
    limits: &Limits,
    name: &Text,
    tokens: &'a [Token],
) -> Result<(Stmt, &'a [Token]), ParseFault>
    ensures { Gives (assign_at MOST_NESTED name.now (forms tokens.now)) result }
{
    if is_unsupported(tokens) {
        return Ok((Stmt::Unsupported, &[]));
    }
    let alias = name.copy(alloc)?;
    let (op, rest) = operator(alloc, limits, tokens)?;
    Ok((Stmt::Assign { alias, op }, rest))
}

// A statement that isn't empty.
#[tactic(auto, unfolding(crate::specs::StatementReader::front_at))]
fn front<'a>(
    alloc: Global,
    limits: &Limits,
    tokens: &'a [Token],
) -> Result<(Stmt, &'a [Token]), ParseFault>
    ensures { Gives (front_at MOST_NESTED (forms tokens.now)) result }
{
    match tokens {
        [form!(Ident(name)), symbol!(Assign), rest @ ..] => assign(alloc, limits, name, rest),
        [word!(Split), rest @ ..] => split(alloc, limits, rest),
        [word!(Store), rest @ ..] => store(alloc, rest),
        [word!(Assert), rest @ ..] => assertion(alloc, limits, rest),
        _ => {
            if is_unsupported(tokens) {
                return Ok((Stmt::Unsupported, &[]));
            }
            Err(ParseFault::Off)
        }
    }
}

// The tree, where no token is left.
#[tactic(auto, unfolding(crate::specs::StatementReader::ended))]
fn ended(tree: Stmt, rest: &[Token]) -> Result<Stmt, ParseFault>
    ensures { GivesFound (ended tree (forms rest.now)) result }
{
    match rest {
        [] => Ok(tree),
        _ => {
            drop(tree);
            Err(ParseFault::Off)
        }
    }
}

// The tree of a statement's tokens.
#[tactic(auto, unfolding(crate::specs::StatementReader::statement_at))]
pub fn statement(alloc: Global, limits: &Limits, tokens: &[Token]) -> Result<Stmt, ParseFault>
    ensures { GivesFound (statement_at MOST_NESTED (forms tokens.now)) result }
{
    match tokens {
        [] => Ok(Stmt::Empty),
        _ => {
            let (tree, rest) = front(alloc, limits, tokens)?;
            ended(tree, rest)
        }
    }
}
