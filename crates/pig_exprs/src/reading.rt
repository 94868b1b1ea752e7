ghost use Rattle.std.specs.Prelude.{◌≡◌, [], ◌∷◌, ◌++◌, ℕ, Option, IfOk, length};
ghost use Rattle.pig_exprs.specs.Grammar.{Forms};
ghost use Rattle.pig_exprs.specs.Reader.{FoundPart, Turn, forms, Gives, GivesBeside, GivesBehind, Turns, GivesRest, repeat, comma_turn, listed, is_symbol, is_word, after_symbol, after_word, close_paren};

use crate::symbol;
use pig_syntax::{Keyword, Symbol, Token, TokenForm};
use pig_value::Seq;
use std::alloc::{AllocError, Global};

/// Why a part is not read.
#[derive(Debug, Drop)]
pub enum ParseFault {
    /// The tokens are off the grammar.
    Off,
    OutOfMemory,
}

impl From<AllocError> for ParseFault {
    ghost use Rattle.std.specs.Prelude.{◌≡◌};
    ghost use Rattle.pig_exprs.specs.declared.reading.ParseFault.TheVariants.{OutOfMemory};

    ghost from_gives = { λ _ e. e ≡ OutOfMemory };

    fn from(_: AllocError) -> Self {
        ParseFault::OutOfMemory
    }
}

/// A rule of the grammar that the members of a list stand by.
pub trait Rule {
    /// What a member is read as.
    type Tree: Drop;

    /// What the rule needs of its parts.
    ghost ready: { Self → Type 0 };

    /// What it finds.
    ghost finds: { Self → Forms → FoundPart Self.Tree };

    /// Reads a tree from the front of the tokens.
    fn read<'a>(&self, tokens: &'a [Token]) -> Result<(Self::Tree, &'a [Token]), ParseFault>
        requires { ready self.now }
        ensures { Gives (finds self.now (forms tokens.now)) result };
}

/// The turns of a list: what goes on with it, and what ends it.
pub trait Turning {
    /// What a member is read as.
    type Tree: Drop;

    /// What a turn needs of its parts.
    ghost ready: { Self → Type 0 };

    /// What a turn finds.
    ghost finds: { Self → Forms → Turn Self.Tree };

    /// Reads the next element, or none where the list ends.
    fn turn<'a>(&self, tokens: &'a [Token]) -> Result<Option<(Self::Tree, &'a [Token])>, ParseFault>
        requires { ready self.now }
        ensures { Turns (finds self.now (forms tokens.now)) result };
}

/// A list of one.
pub fn one<T: Drop>(alloc: Global, first: T) -> Result<Seq<T>, AllocError>
    ensures { IfOk result (λ all. all ≡ first ∷ []) }
{
    let mut all = Seq::new(alloc);
    all.push(first)?;
    Ok(all)
}

// The turns of a list `{ ',' X }`.
#[derive(Drop)]
struct Commas<'r, R> {
    rule: &'r R,
}

impl<R: Rule> Turning for Commas<'_, R> {
    type Tree = R::Tree;

    ghost ready = { λ c. R.ready c.rule.now };

    ghost finds = { λ c. comma_turn (R.finds c.rule.now) };

    #[tactic(auto, unfolding(crate::specs::Reader::comma_turn))]
    fn turn<'a>(&self, tokens: &'a [Token]) -> Result<Option<(R::Tree, &'a [Token])>, ParseFault> {
        match tokens {
            [symbol!(Comma), rest @ ..] => {
                let (member, rest) = self.rule.read(rest)?;
                Ok(Some((member, rest)))
            }
            _ => Ok(None),
        }
    }
}

// The elements with one more behind them.
fn with_last<T: Drop>(elements: Seq<T>, last: T) -> Result<Seq<T>, AllocError>
    ensures { IfOk result (λ all. all ≡ elements ++ last ∷ []) }
{
    let mut all = elements;
    all.push(last)?;
    Ok(all)
}

/// Reads elements as long as there are some, behind those that are read.
pub fn repeat<'a, T: Turning>(
    turning: &T,
    found: Seq<T::Tree>,
    tokens: &'a [Token],
) -> Result<(Seq<T::Tree>, &'a [Token]), ParseFault>
    requires { T.ready turning.now }
    ensures { Gives
        (repeat (T.finds turning.now) (length tokens.now) found (forms tokens.now)) result }
{
    let mut found = found;
    let mut rest = tokens;
    for _turn in 0..tokens.len() {
        match turning.turn(rest) {
            Ok(Some((element, behind))) => {
                found = with_last(found, element)?;
                rest = behind;
            }
            Ok(None) => return Ok((found, rest)),
            Err(fault) => return Err(fault),
        }
    }
    Ok((found, rest))
}

/// Members with commas between.
#[tactic(auto, unfolding(crate::specs::Reader::listed))]
pub fn listed<'a, R: Rule>(
    alloc: Global,
    rule: &R,
    tokens: &'a [Token],
) -> Result<(Seq<R::Tree>, &'a [Token]), ParseFault>
    requires { R.ready rule.now }
    ensures { Gives (listed (R.finds rule.now) (forms tokens.now)) result }
{
    let (first, rest) = rule.read(tokens)?;
    let members = one(alloc, first)?;
    let (members, rest) = repeat(&Commas { rule }, members, rest)?;
    Ok((members, rest))
}

// Whether a token is the symbol.
fn is_symbol(symbol: Symbol, form: &TokenForm) -> bool
    ensures { result ≡ is_symbol symbol form.now }
{
    match form {
        TokenForm::Symbol(found) => symbol == *found,
        _ => false,
    }
}

// Whether a token is the keyword.
fn is_word(word: Keyword, form: &TokenForm) -> bool
    ensures { result ≡ is_word word form.now }
{
    match form {
        TokenForm::Keyword(found) => word == *found,
        _ => false,
    }
}

/// The tokens behind the symbol.
#[tactic(auto, unfolding(crate::specs::Reader::after_symbol))]
pub fn after_symbol(symbol: Symbol, tokens: &[Token]) -> Result<&[Token], ParseFault>
    ensures { GivesRest (after_symbol symbol (forms tokens.now)) result }
{
    match tokens {
        [first, rest @ ..] => {
            if is_symbol(symbol, &first.form) {
                Ok(rest)
            } else {
                Err(ParseFault::Off)
            }
        }
        _ => Err(ParseFault::Off),
    }
}

/// The tokens behind the keyword.
#[tactic(auto, unfolding(crate::specs::Reader::after_word))]
pub fn after_word(word: Keyword, tokens: &[Token]) -> Result<&[Token], ParseFault>
    ensures { GivesRest (after_word word (forms tokens.now)) result }
{
    match tokens {
        [first, rest @ ..] => {
            if is_word(word, &first.form) {
                Ok(rest)
            } else {
                Err(ParseFault::Off)
            }
        }
        _ => Err(ParseFault::Off),
    }
}

/// What is kept, where the symbol stands there.
pub fn behind_symbol<T: Drop>(
    kept: T,
    symbol: Symbol,
    tokens: &[Token],
) -> Result<(T, &[Token]), ParseFault>
    ensures { GivesBehind kept (after_symbol symbol (forms tokens.now)) result }
{
    let rest = after_symbol(symbol, tokens)?;
    Ok((kept, rest))
}

/// What is kept, where the keyword stands there.
pub fn behind_word<T: Drop>(
    kept: T,
    word: Keyword,
    tokens: &[Token],
) -> Result<(T, &[Token]), ParseFault>
    ensures { GivesBehind kept (after_word word (forms tokens.now)) result }
{
    let rest = after_word(word, tokens)?;
    Ok((kept, rest))
}

/// The tokens behind a `)`.
pub fn close_paren(tokens: &[Token]) -> Result<&[Token], ParseFault>
    ensures { GivesRest (close_paren (forms tokens.now)) result }
{
    after_symbol(Symbol::CloseParen, tokens)
}

/// What is kept, where a `)` stands there.
///
/// A reader of several parts hands on here what has to wait, so that it drops no tree itself: dropping one of
/// any type is cheap to prove, and dropping a tree is not.
pub fn closed<T: Drop>(kept: T, tokens: &[Token]) -> Result<(T, &[Token]), ParseFault>
    ensures { GivesBehind kept (close_paren (forms tokens.now)) result }
{
    behind_symbol(kept, Symbol::CloseParen, tokens)
}

/// What is kept, and what a rule reads.
pub fn beside<'a, T: Drop, R: Rule>(
    kept: T,
    rule: &R,
    tokens: &'a [Token],
) -> Result<((T, R::Tree), &'a [Token]), ParseFault>
    requires { R.ready rule.now }
    ensures { GivesBeside kept (R.finds rule.now (forms tokens.now)) result }
{
    let (next, rest) = rule.read(tokens)?;
    Ok(((kept, next), rest))
}

/// What is kept, and the elements of a list.
pub fn before<'a, K: Drop, T: Turning>(
    kept: K,
    turning: &T,
    found: Seq<T::Tree>,
    tokens: &'a [Token],
) -> Result<((K, Seq<T::Tree>), &'a [Token]), ParseFault>
    requires { T.ready turning.now }
    ensures { GivesBeside kept
        (repeat (T.finds turning.now) (length tokens.now) found (forms tokens.now)) result }
{
    let (elements, rest) = repeat(turning, found, tokens)?;
    Ok(((kept, elements), rest))
}

// What is kept, and the members of a list behind a first one, each behind a comma.
pub fn other_members<'a, K: Drop, R: Rule>(
    alloc: Global,
    kept: K,
    rule: &R,
    tokens: &'a [Token],
) -> Result<((K, Seq<R::Tree>), &'a [Token]), ParseFault>
    requires { R.ready rule.now }
    ensures { GivesBeside kept
        (repeat (comma_turn (R.finds rule.now)) (length tokens.now) [] (forms tokens.now)) result }
{
    before(kept, &Commas { rule }, Seq::new(alloc), tokens)
}
