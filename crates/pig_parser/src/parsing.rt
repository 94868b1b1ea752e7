ghost use Rattle.std.specs.Prelude.{◌≡◌, ◌<◌, ◌≤◌, ◌+◌, ◌^◌, ◌↔◌, ◌⊎◌, ℕ, true, List, length, slice_get, Some, IsTrue, IfOk, IfErr, All};
ghost use Rattle.std.specs.Option.{option_map};
ghost use Rattle.pig_syntax.specs.declared.cutting.Piece.{Piece};
ghost use Rattle.pig_syntax.specs.declared.tokens.Token.{Token};
ghost use Rattle.pig_syntax.specs.declared.trees.Stmt.{Stmt};
ghost use Rattle.pig_syntax.specs.Cutting.{is_semicolon, IsWithin, AreStatements};
ghost use Rattle.pig_syntax.specs.Formed.{StmtFormed};
ghost use Rattle.pig_syntax.specs.Tokens.{HoldsNoLf};
ghost use Rattle.pig_exprs.specs.Grammar.{Forms};
ghost use Rattle.pig_parser.specs.Statements.{IsStatement};
ghost use Rattle.pig_parser.specs.Parsing.{AreTrees, IsFirstOff, IsSyntaxFault, IsShallow, GivesTree};

use crate::statements::statement;
use pig_exprs::{Limits, ParseFault};
use pig_syntax::{
    Piece, Pieces, Stmt, Stmts, Symbol, Token, TokenForm, Tokens, statements_lie_within,
};
use pig_value::Seq;
use std::alloc::{AllocError, Global};
use thiserror::Error;

/// Why a script has no trees.
#[derive(Debug, Drop, Error)]
pub enum SyntaxFault {
    /// The statement of this number, counted from 1, is the first that is off the grammar.
    #[error("statement {statement} is off the grammar")]
    Syntax { statement: u32 },
    #[error("out of memory")]
    OutOfMemory,
}

impl From<AllocError> for SyntaxFault {
    ghost use Rattle.std.specs.Prelude.{◌≡◌};
    ghost use Rattle.pig_parser.specs.declared.parsing.SyntaxFault.TheVariants.{OutOfMemory};

    ghost from_gives = { λ _ e. e ≡ OutOfMemory };

    fn from(_: AllocError) -> Self {
        SyntaxFault::OutOfMemory
    }
}

/// The trees of a script's statements, one for each piece that [`cut`](pig_syntax::cut) gives of its
/// tokens.
///
/// Where a statement is off the grammar, `Syntax` has the number of the first such, counted from 1. The
/// tokens behind the last `;` are off the grammar too, whatever they are. The brackets of each statement
/// have to nest less deep than [`MOST_NESTED`](pig_exprs::MOST_NESTED), which [`depth`](pig_syntax::depth)
/// tells. An expression in which more than [`MOST_STEPS`](pig_exprs::MOST_STEPS) steps nest without a
/// bracket, and operands of IN and CASE that are copied more than [`MOST_COPIED`](pig_exprs::MOST_COPIED) and
/// [`MOST_COPIED_BYTES`](pig_exprs::MOST_COPIED_BYTES) let be, are want of memory.
///
/// Where the names and texts among the tokens hold no LF, as those of [`lex`](pig_syntax::lex) do, each tree
/// is as the grammar gives it (`specs/Formed` of pig_syntax).
pub fn parse(alloc: Global, tokens: &Tokens, pieces: &Pieces) -> Result<Stmts, SyntaxFault>
    requires statements { AreStatements tokens.now pieces.now }
    requires few { length tokens.now < 2 ^ 32 }
    requires few_statements { length pieces.now < 2 ^ 32 }
    requires shallow { All (IsShallow tokens.now) pieces.now }
    ensures trees { IfOk result (AreTrees tokens.now pieces.now) }
    ensures formed { All (λ token. HoldsNoLf token.form) tokens.now
        → IfOk result (All StmtFormed) }
    ensures fault { IfErr result (IsSyntaxFault tokens.now pieces.now) }
{
    statements_lie_within();
    let tokens = tokens.as_slice();
    let limits = Limits::new();
    let mut trees = Seq::new(alloc);
    for (index, piece) in pieces.as_slice().iter().enumerate() {
        match tree(alloc, &limits, tokens, piece) {
            Ok(tree) => trees.push(tree)?,
            Err(ParseFault::Off) => return Err(off(index)),
            Err(ParseFault::OutOfMemory) => return Err(SyntaxFault::OutOfMemory),
        }
    }
    Ok(trees)
}

// The fault of the statement at a place, counted from 0.
fn off(index: usize) -> SyntaxFault
    requires { index + 1 < 2 ^ 32 }
    ensures { result ≡ SyntaxFault.Syntax (index + 1) }
{
    SyntaxFault::Syntax {
        statement: index as u32 + 1,
    }
}

// The tree of a statement.
fn tree(alloc: Global, limits: &Limits, tokens: &[Token], piece: &Piece) -> Result<Stmt, ParseFault>
    requires within { IsWithin tokens.now piece.now }
    requires shallow { IsShallow tokens.now piece.now }
    ensures { GivesTree tokens.now piece.now result }
{
    if !is_ended(tokens, piece) {
        return Err(ParseFault::Off);
    }
    statement(alloc, limits, &tokens[piece.from..piece.to])
}

// Whether a `;` stands behind the statement.
fn is_ended(tokens: &[Token], piece: &Piece) -> bool
    ensures { IsTrue result
        ↔ (option_map (λ t. is_semicolon t.form) (slice_get tokens.now piece.now.to) ≡ Some true) }
{
    match tokens.get(piece.to) {
        Some(token) => matches!(token.form, TokenForm::Symbol(Symbol::Semicolon)),
        None => false,
    }
}

/// The same tokens stand for one tree alone.
pub fn a_statement_has_one_tree()
    ensures { (ts : Forms) (s u : Stmt) → IsStatement ts s → IsStatement ts u → s ≡ u }
{}

/// A script has one list of trees, or one first statement that is off the grammar, and not both, however
/// deep its brackets nest.
pub fn a_script_has_one_answer()
    ensures some { (ts : List Token) (ps : List Piece)
        → ((ss : List Stmt) × AreTrees ts ps ss) ⊎ ((n : ℕ) × IsFirstOff ts ps n) }
    ensures trees { (ts : List Token) (ps : List Piece) (ss us : List Stmt)
        → AreTrees ts ps ss → AreTrees ts ps us → ss ≡ us }
    ensures first { (ts : List Token) (ps : List Piece) (m n : ℕ)
        → IsFirstOff ts ps m → IsFirstOff ts ps n → m ≡ n }
    ensures not_both { (ts : List Token) (ps : List Piece) (ss : List Stmt) (n : ℕ)
        → AreTrees ts ps ss → IsFirstOff ts ps n → ⊥ }
{}
