ghost use Rattle.std.specs.Prelude.{◌≡◌, ◌<◌, ◌≤◌, ◌+◌, ◌-◌, ◌^◌, ◌↔◌, ℕ, max, true, if◌then◌else◌, List, [], ◌∷◌, ◌++◌, length, IsTrue, IfOk, IfSome, IfNone, OnOk, All};
ghost use Rattle.pig_syntax.specs.declared.tokens.Token.{Token};
ghost use Rattle.pig_syntax.specs.declared.cutting.Piece.{Piece};
ghost use Rattle.pig_syntax.specs.Cutting.{is_semicolon, is_open_brace, is_close_brace, IsCut, NoCut, AreStatements, IsWithin, piece_of, opens_bracket, closes_bracket, IsDepth};

use crate::{Keyword, Symbol, Token, TokenForm, Tokens};
use pig_value::Seq;
use std::alloc::{AllocError, Global};

/// The place of a statement among the tokens of its script: from one token up to another, which is the
/// `;` behind it or the end.
#[derive(Debug, Clone, Copy, PartialEq, Eq, Drop)]
pub struct Piece {
    pub from: usize,
    pub to: usize,
}

/// The statements of a script, in the order in which they stand.
pub type Pieces = Seq<Piece>;

/// The statements as ranges of tokens, without the `;` behind each.
///
/// The tokens are cut at each `;` where, since the statement's start, there are at most as many `{` as
/// `}`. Tokens behind the last cut are a last statement, whose end is that of the tokens.
pub fn cut(alloc: Global, tokens: &Tokens) -> Result<Pieces, AllocError>
    ensures { IfOk result (AreStatements tokens.now) }
{
    let tokens = tokens.as_slice();
    let mut pieces = Seq::new(alloc);
    let mut start = 0;
    while let Some(at) = next_cut(tokens, start) {
        add_statement(&mut pieces, start, at)?;
        start = at + 1;
    }
    add_tail(&mut pieces, start, tokens.len())?;
    Ok(pieces)
}

// Adds the statement from one token up to another.
fn add_statement(pieces: &mut Pieces, start: usize, to: usize) -> Result<(), AllocError>
    ensures { OnOk result (pieces.new ≡ pieces.old ++ record { «from» = start; to = to } ∷ []) }
{
    pieces.push(Piece { from: start, to })
}

// Adds the tokens behind the last cut, where there are some.
fn add_tail(pieces: &mut Pieces, start: usize, to: usize) -> Result<(), AllocError>
    ensures some { start < to → OnOk result (pieces.new
        ≡ pieces.old ++ record { «from» = start; to = to } ∷ []) }
    ensures none { to ≤ start → OnOk result (pieces.new ≡ pieces.old) }
{
    if start < to {
        return add_statement(pieces, start, to);
    }
    Ok(())
}

// The first place where the statement from `start` on is cut.
fn next_cut(tokens: &[Token], start: usize) -> Option<usize>
    requires { start ≤ length tokens.now }
    ensures found { IfSome result (λ at. IsCut tokens.now start at) }
    ensures within { IfSome result (λ at. at < length tokens.now) }
    ensures first { IfSome result (λ at. NoCut tokens.now start at) }
    ensures none { IfNone result (NoCut tokens.now start (length tokens.now)) }
{
    let mut opened: usize = 0;
    let mut closed: usize = 0;
    for at in start..tokens.len() {
        let token = &tokens[at];
        if ends_statement(token, opened, closed) {
            return Some(at);
        }
        opened += usize::from(is_open_brace(token));
        closed += usize::from(is_close_brace(token));
    }
    None
}

// Whether the token ends its statement, which has so many `{` and `}` before it.
fn ends_statement(token: &Token, opened: usize, closed: usize) -> bool
    ensures { IsTrue result ↔ ((is_semicolon token.now.form ≡ true) × (opened ≤ closed)) }
{
    is_semicolon(token) && opened <= closed
}

fn is_semicolon(token: &Token) -> bool
    ensures { result ≡ is_semicolon token.now.form }
{
    matches!(token.form, TokenForm::Symbol(Symbol::Semicolon))
}

fn is_open_brace(token: &Token) -> bool
    ensures { result ≡ is_open_brace token.now.form }
{
    matches!(token.form, TokenForm::Symbol(Symbol::OpenBrace))
}

fn is_close_brace(token: &Token) -> bool
    ensures { result ≡ is_close_brace token.now.form }
{
    matches!(token.form, TokenForm::Symbol(Symbol::CloseBrace))
}

/// How deep the brackets of a statement nest: the greatest number of opened minus closed brackets over
/// its prefixes, at least 0.
///
/// The brackets are `( )`, `{ }` and `[ ]`, and the keywords CASE and END count as a pair too.
pub fn depth(tokens: &Tokens, piece: &Piece) -> u32
    requires within { IsWithin tokens.now piece.now }
    requires few { length tokens.now < 2 ^ 32 }
    ensures { IsDepth (piece_of tokens.now piece.now) result }
{
    let statement = &tokens.as_slice()[piece.from..piece.to];
    let mut brackets = Brackets {
        opened: 0,
        closed: 0,
        deepest: 0,
    };
    for token in statement {
        brackets.read(token);
    }
    brackets.deepest
}

// The brackets of the tokens that are read, and how deep they nest.
#[derive(Clone, Copy, Drop)]
struct Brackets {
    opened: u32,
    closed: u32,
    deepest: u32,
}

impl Brackets {
    // Counts one more token.
    fn read(&mut self, token: &Token)
        requires room { self.old.opened + 1 < 2 ^ 32 }
        requires room_closed { self.old.closed + 1 < 2 ^ 32 }
        ensures opened { self.new.opened ≡ self.old.opened +
            (if opens_bracket token.now.form then 1 else 0) }
        ensures closed { self.new.closed ≡ self.old.closed +
            (if closes_bracket token.now.form then 1 else 0) }
        ensures deepest { self.new.deepest ≡ max self.old.deepest
            (self.new.opened - self.new.closed) }
    {
        self.opened += u32::from(opens_bracket(token));
        self.closed += u32::from(closes_bracket(token));
        self.deepest = self.deepest.max(self.opened.saturating_sub(self.closed));
    }
}

fn opens_bracket(token: &Token) -> bool
    ensures { result ≡ opens_bracket token.now.form }
{
    matches!(
        token.form,
        TokenForm::Symbol(Symbol::OpenParen | Symbol::OpenBrace | Symbol::OpenBracket)
            | TokenForm::Keyword(Keyword::Case)
    )
}

fn closes_bracket(token: &Token) -> bool
    ensures { result ≡ closes_bracket token.now.form }
{
    matches!(
        token.form,
        TokenForm::Symbol(Symbol::CloseParen | Symbol::CloseBrace | Symbol::CloseBracket)
            | TokenForm::Keyword(Keyword::End)
    )
}

/// Tokens have one list of statements and no other.
pub fn statements_are_one()
    ensures some { (ts : List Token) → (ps : List Piece) × AreStatements ts ps }
    ensures one { (ts : List Token) (ps qs : List Piece) → AreStatements ts ps → AreStatements ts qs
        → ps ≡ qs }
{}

/// The statements lie within the tokens, and there are at most as many of them as tokens.
pub fn statements_lie_within()
    ensures within { (ts : List Token) (ps : List Piece) → AreStatements ts ps
        → All (IsWithin ts) ps }
    ensures few { (ts : List Token) (ps : List Piece) → AreStatements ts ps
        → length ps ≤ length ts }
{}

/// A statement has one depth and no other.
pub fn depth_is_one()
    ensures some { (ts : List Token) → (depth : ℕ) × IsDepth ts depth }
    ensures one { (ts : List Token) (a b : ℕ) → IsDepth ts a → IsDepth ts b → a ≡ b }
{}
