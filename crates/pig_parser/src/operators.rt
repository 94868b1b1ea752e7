ghost use Rattle.std.specs.Prelude.{◌≡◌, [], ◌∷◌, Some, IfOk, length, map};
ghost use Rattle.pig_syntax.specs.declared.tokens.TokenForm.TheVariants as f;
ghost use Rattle.pig_exprs.specs.declared.limits.TheConstants.{MOST_NESTED};
ghost use Rattle.pig_exprs.specs.Grammar.{Forms};
ghost use Rattle.pig_parser.specs.Statements.{side_of, rollup_of};
ghost use Rattle.pig_exprs.specs.Reader.{forms, Gives};
ghost use Rattle.pig_parser.specs.StatementReader.{GivesFound, inner_at, group_input_at, join_input_at, after_outer, side_at, on_schema_at, dense_at, load_at, filter_at, block_at, foreach_at, groups_at, group_at, join_at, union_at, distinct_at, order_at, limit_at, cube_at, rank_at, op_at};

use crate::blocks::{ItemRule, steps};
use crate::parts::{
    IdentRule, after_parallel, count, keys, order_keys, several, using_func, using_text,
};
use pig_exprs::{
    FieldRefRule, Limits, MOST_NESTED, ParseFault, Rule, after_symbol, after_word, close_paren,
    expression, form, listed, one, schema, symbol, word,
};
use pig_syntax::{GroupInput, JoinInput, Keyword, Op, Steps, Symbol, Token, TokenForm};
use pig_value::{Side, Text};
use std::alloc::Global;

// Whether groups without a tuple of an input are left out.
#[tactic(auto, unfolding(crate::specs::StatementReader::inner_at))]
fn inner(tokens: &[Token]) -> (bool, &[Token])
    ensures { inner_at (forms tokens.now) ≡ Some (result.0, forms result.1.now) }
{
    match tokens {
        [word!(Inner), rest @ ..] => (true, rest),
        [word!(Outer), rest @ ..] => (false, rest),
        _ => (false, tokens),
    }
}

// Inputs of a GROUP as members of a list.
#[derive(Drop)]
struct GroupInputRule<'l> {
    alloc: Global,
    limits: &'l Limits,
}

impl Rule for GroupInputRule<'_> {
    type Tree = GroupInput;

    ghost ready = { λ _. Unit {0} };

    ghost finds = { λ _. group_input_at MOST_NESTED };

    #[tactic(auto, unfolding(crate::specs::StatementReader::group_input_at))]
    fn read<'a>(&self, tokens: &'a [Token]) -> Result<(GroupInput, &'a [Token]), ParseFault> {
        match tokens {
            [form!(Ident(name)), word!(By), rest @ ..] => {
                let from = name.copy(self.alloc)?;
                let (keys, rest) = keys(self.alloc, self.limits, rest)?;
                let (inner, rest) = inner(rest);
                Ok((GroupInput { from, keys, inner }, rest))
            }
            _ => Err(ParseFault::Off),
        }
    }
}

// Inputs of a JOIN as members of a list.
#[derive(Drop)]
struct JoinInputRule<'l> {
    alloc: Global,
    limits: &'l Limits,
}

impl Rule for JoinInputRule<'_> {
    type Tree = JoinInput;

    ghost ready = { λ _. Unit {0} };

    ghost finds = { λ _. join_input_at MOST_NESTED };

    #[tactic(auto, unfolding(crate::specs::StatementReader::join_input_at))]
    fn read<'a>(&self, tokens: &'a [Token]) -> Result<(JoinInput, &'a [Token]), ParseFault> {
        match tokens {
            [form!(Ident(name)), word!(By), rest @ ..] => {
                let from = name.copy(self.alloc)?;
                let (keys, rest) = keys(self.alloc, self.limits, rest)?;
                Ok((JoinInput { from, keys }, rest))
            }
            _ => Err(ParseFault::Off),
        }
    }
}

// The tokens behind OUTER, where it stands.
#[tactic(auto, unfolding(crate::specs::StatementReader::after_outer))]
fn after_outer(tokens: &[Token]) -> &[Token]
    ensures { forms result.now ≡ after_outer (forms tokens.now) }
{
    match tokens {
        [word!(Outer), rest @ ..] => rest,
        _ => tokens,
    }
}

// The side that a token is.
fn side_of(token: &Token) -> Option<Side>
    ensures { result ≡ side_of token.now.form }
{
    match &token.form {
        TokenForm::Keyword(Keyword::Left) => Some(Side::Left),
        TokenForm::Keyword(Keyword::Right) => Some(Side::Right),
        TokenForm::Keyword(Keyword::Full) => Some(Side::Full),
        _ => None,
    }
}

// The side of a JOIN that keeps its tuples without a partner.
#[tactic(auto, unfolding(crate::specs::StatementReader::side_at))]
fn side(tokens: &[Token]) -> (Side, &[Token])
    ensures { side_at (forms tokens.now) ≡ Some (result.0, forms result.1.now) }
{
    match tokens {
        [first, rest @ ..] => match side_of(first) {
            Some(side) => (side, after_outer(rest)),
            None => (Side::Inner, tokens),
        },
        _ => (Side::Inner, tokens),
    }
}

// Whether ONSCHEMA stands there.
#[tactic(auto, unfolding(crate::specs::StatementReader::on_schema_at))]
fn on_schema(tokens: &[Token]) -> (bool, &[Token])
    ensures { on_schema_at (forms tokens.now) ≡ Some (result.0, forms result.1.now) }
{
    match tokens {
        [word!(OnSchema), rest @ ..] => (true, rest),
        _ => (false, tokens),
    }
}

// A LOAD, behind its word.
#[tactic(auto, unfolding(crate::specs::StatementReader::load_at))]
fn load(alloc: Global, tokens: &[Token]) -> Result<(Op, &[Token]), ParseFault>
    ensures { Gives (load_at MOST_NESTED (forms tokens.now)) result }
{
    match tokens {
        [form!(Text(path)), rest @ ..] => {
            let path = path.copy(alloc)?;
            let (func, rest) = using_func(alloc, rest)?;
            let rest = after_word(Keyword::As, rest)?;
            let (schema, rest) = schema(alloc, rest, MOST_NESTED)?;
            Ok((Op::Load { path, func, schema }, rest))
        }
        _ => Err(ParseFault::Off),
    }
}

// A FILTER, behind its word.
#[tactic(auto, unfolding(crate::specs::StatementReader::filter_at))]
fn filter<'a>(
    alloc: Global,
    limits: &Limits,
    tokens: &'a [Token],
) -> Result<(Op, &'a [Token]), ParseFault>
    ensures { Gives (filter_at MOST_NESTED (forms tokens.now)) result }
{
    match tokens {
        [form!(Ident(name)), word!(By), rest @ ..] => {
            let from = name.copy(alloc)?;
            let (cond, rest) = expression(alloc, limits, rest)?;
            Ok((Op::Filter { from, cond }, rest))
        }
        _ => Err(ParseFault::Off),
    }
}

// A nested block, behind its `{`.
#[tactic(auto, unfolding(crate::specs::StatementReader::block_at))]
fn block<'a>(
    alloc: Global,
    limits: &Limits,
    name: &Text,
    tokens: &'a [Token],
) -> Result<(Op, &'a [Token]), ParseFault>
    ensures { Gives (block_at MOST_NESTED name.now (forms tokens.now)) result }
{
    let from = name.copy(alloc)?;
    let (steps, rest) = steps(alloc, limits, tokens)?;
    let rest = after_word(Keyword::Generate, rest)?;
    let (items, rest) = listed(alloc, &ItemRule { alloc, limits }, rest)?;
    let rest = after_symbol(Symbol::Semicolon, rest)?;
    let rest = after_symbol(Symbol::CloseBrace, rest)?;
    Ok((Op::Foreach { from, steps, items }, rest))
}

// A FOREACH, behind its word.
#[tactic(auto, unfolding(crate::specs::StatementReader::foreach_at))]
fn foreach<'a>(
    alloc: Global,
    limits: &Limits,
    tokens: &'a [Token],
) -> Result<(Op, &'a [Token]), ParseFault>
    ensures { Gives (foreach_at MOST_NESTED (forms tokens.now)) result }
{
    match tokens {
        [form!(Ident(name)), word!(Generate), rest @ ..] => {
            let from = name.copy(alloc)?;
            let steps = Steps::new(alloc);
            let (items, rest) = listed(alloc, &ItemRule { alloc, limits }, rest)?;
            Ok((Op::Foreach { from, steps, items }, rest))
        }
        [form!(Ident(name)), symbol!(OpenBrace), rest @ ..] => block(alloc, limits, name, rest),
        _ => Err(ParseFault::Off),
    }
}

// The inputs of a GROUP, and what stands behind them.
#[tactic(auto, unfolding(crate::specs::StatementReader::groups_at))]
fn groups<'a>(
    alloc: Global,
    limits: &Limits,
    tokens: &'a [Token],
) -> Result<(Op, &'a [Token]), ParseFault>
    ensures { Gives (groups_at MOST_NESTED (forms tokens.now)) result }
{
    let (inputs, rest) = listed(alloc, &GroupInputRule { alloc, limits }, tokens)?;
    let (using, rest) = using_text(alloc, rest)?;
    Ok((Op::Group { inputs, using }, after_parallel(rest)))
}

// A GROUP or COGROUP, behind its word.
#[tactic(auto, unfolding(crate::specs::StatementReader::group_at))]
fn group<'a>(
    alloc: Global,
    limits: &Limits,
    tokens: &'a [Token],
) -> Result<(Op, &'a [Token]), ParseFault>
    ensures { Gives (group_at MOST_NESTED (forms tokens.now)) result }
{
    match tokens {
        [form!(Ident(name)), word!(All), rest @ ..] => {
            let from = name.copy(alloc)?;
            let (using, rest) = using_text(alloc, rest)?;
            Ok((Op::GroupAll { from, using }, after_parallel(rest)))
        }
        _ => groups(alloc, limits, tokens),
    }
}

// A JOIN, behind its word.
#[tactic(auto, unfolding(crate::specs::StatementReader::join_at))]
fn join<'a>(
    alloc: Global,
    limits: &Limits,
    tokens: &'a [Token],
) -> Result<(Op, &'a [Token]), ParseFault>
    ensures { Gives (join_at MOST_NESTED (forms tokens.now)) result }
{
    let (first, rest) = JoinInputRule { alloc, limits }.read(tokens)?;
    let mut inputs = one(alloc, first)?;
    let (side, rest) = side(rest);
    let rest = after_symbol(Symbol::Comma, rest)?;
    let (others, rest) = listed(alloc, &JoinInputRule { alloc, limits }, rest)?;
    inputs.extend(others)?;
    let (using, rest) = using_text(alloc, rest)?;
    Ok((
        Op::Join {
            inputs,
            side,
            using,
        },
        after_parallel(rest),
    ))
}

// A UNION, behind its word.
#[tactic(auto, unfolding(crate::specs::StatementReader::union_at))]
fn union(alloc: Global, tokens: &[Token]) -> Result<(Op, &[Token]), ParseFault>
    ensures { Gives (union_at (forms tokens.now)) result }
{
    let (onschema, rest) = on_schema(tokens);
    let (names, rest) = listed(alloc, &IdentRule { alloc }, rest)?;
    let from = several(names)?;
    Ok((Op::Union { onschema, from }, rest))
}

// A DISTINCT, behind its word.
#[tactic(auto, unfolding(crate::specs::StatementReader::distinct_at))]
fn distinct(alloc: Global, tokens: &[Token]) -> Result<(Op, &[Token]), ParseFault>
    ensures { Gives (distinct_at (forms tokens.now)) result }
{
    match tokens {
        [form!(Ident(name)), rest @ ..] => {
            let from = name.copy(alloc)?;
            Ok((Op::Distinct { from }, after_parallel(rest)))
        }
        _ => Err(ParseFault::Off),
    }
}

// An ORDER, behind its word.
#[tactic(auto, unfolding(crate::specs::StatementReader::order_at))]
fn order(alloc: Global, tokens: &[Token]) -> Result<(Op, &[Token]), ParseFault>
    ensures { Gives (order_at (forms tokens.now)) result }
{
    match tokens {
        [form!(Ident(name)), word!(By), rest @ ..] => {
            let from = name.copy(alloc)?;
            let ((from, keys), rest) = order_keys(alloc, from, rest)?;
            Ok((Op::Order { from, keys }, after_parallel(rest)))
        }
        _ => Err(ParseFault::Off),
    }
}

// A LIMIT, behind its word.
#[tactic(auto, unfolding(crate::specs::StatementReader::limit_at))]
fn limit(alloc: Global, tokens: &[Token]) -> Result<(Op, &[Token]), ParseFault>
    ensures { Gives (limit_at (forms tokens.now)) result }
{
    match tokens {
        [form!(Ident(name)), rest @ ..] => {
            let from = name.copy(alloc)?;
            let ((from, count), rest) = count(from, rest)?;
            Ok((Op::Limit { from, count }, rest))
        }
        _ => Err(ParseFault::Off),
    }
}

// Whether the word is ROLLUP, where it is that or CUBE.
fn rollup_of(word: Keyword) -> Result<bool, ParseFault>
    ensures { GivesFound (rollup_of word) result }
{
    match word {
        Keyword::Cube => Ok(false),
        Keyword::Rollup => Ok(true),
        _ => Err(ParseFault::Off),
    }
}

// A CUBE, behind its word.
#[tactic(auto, unfolding(crate::specs::StatementReader::cube_at))]
fn cube(alloc: Global, tokens: &[Token]) -> Result<(Op, &[Token]), ParseFault>
    ensures { Gives (cube_at (forms tokens.now)) result }
{
    match tokens {
        [
            form!(Ident(name)),
            word!(By),
            form!(Keyword(word)),
            symbol!(OpenParen),
            rest @ ..,
        ] => {
            let from = name.copy(alloc)?;
            let rollup = rollup_of(*word)?;
            let (dims, rest) = listed(alloc, &FieldRefRule { alloc }, rest)?;
            let rest = close_paren(rest)?;
            Ok((Op::Cube { from, rollup, dims }, after_parallel(rest)))
        }
        _ => Err(ParseFault::Off),
    }
}

// Whether DENSE stands there.
#[tactic(auto, unfolding(crate::specs::StatementReader::dense_at))]
fn dense(tokens: &[Token]) -> (bool, &[Token])
    ensures { dense_at (forms tokens.now) ≡ Some (result.0, forms result.1.now) }
{
    match tokens {
        [word!(Dense), rest @ ..] => (true, rest),
        _ => (false, tokens),
    }
}

// A RANK, behind its word.
#[tactic(auto, unfolding(crate::specs::StatementReader::rank_at))]
fn rank(alloc: Global, tokens: &[Token]) -> Result<(Op, &[Token]), ParseFault>
    ensures { Gives (rank_at (forms tokens.now)) result }
{
    match tokens {
        [form!(Ident(name)), word!(By), rest @ ..] => {
            let from = name.copy(alloc)?;
            let ((from, keys), rest) = order_keys(alloc, from, rest)?;
            let (dense, rest) = dense(rest);
            Ok((Op::Rank { from, keys, dense }, rest))
        }
        _ => Err(ParseFault::Off),
    }
}

// What a relation is made by.
#[tactic(auto, unfolding(crate::specs::StatementReader::op_at))]
pub fn operator<'a>(
    alloc: Global,
    limits: &Limits,
    tokens: &'a [Token],
) -> Result<(Op, &'a [Token]), ParseFault>
    ensures { Gives (op_at MOST_NESTED (forms tokens.now)) result }
{
    match tokens {
        [form!(Keyword(word)), rest @ ..] => operator_of(alloc, limits, *word, rest),
        _ => Err(ParseFault::Off),
    }
}

// The operator that begins with the word, behind it.
#[tactic(auto, unfolding(crate::specs::StatementReader::op_at))]
fn operator_of<'a>(
    alloc: Global,
    limits: &Limits,
    word: Keyword,
    tokens: &'a [Token],
) -> Result<(Op, &'a [Token]), ParseFault>
    ensures { Gives (op_at MOST_NESTED (f.Keyword word ∷ forms tokens.now)) result }
{
    match word {
        Keyword::Load => load(alloc, tokens),
        Keyword::Filter => filter(alloc, limits, tokens),
        Keyword::Foreach => foreach(alloc, limits, tokens),
        Keyword::Group | Keyword::Cogroup => group(alloc, limits, tokens),
        Keyword::Join => join(alloc, limits, tokens),
        Keyword::Union => union(alloc, tokens),
        Keyword::Distinct => distinct(alloc, tokens),
        Keyword::Order => order(alloc, tokens),
        Keyword::Limit => limit(alloc, tokens),
        Keyword::Cube => cube(alloc, tokens),
        Keyword::Rank => rank(alloc, tokens),
        _ => Err(ParseFault::Off),
    }
}
