//! A script as `parse` answers it with ample memory.
//!
//! Where memory is wanting the process ends: that drops nothing, so the proofs of the tests are short.
// Trees end by `drop`: one call is cheap to prove, and a tree that dies by name is taken apart variant by variant.
ghost use Rattle.std.specs.Prelude.{◌<◌, ◌^◌, IsTrue, All, length};
ghost use Rattle.pig_syntax.specs.Cutting.{IsWithin};
ghost use Rattle.pig_parser.specs.Parsing.{IsShallow};

use pig_parser::{SyntaxFault, parse};
use pig_syntax::{Pieces, Stmts, Tokens, cut, depth, lex, statements_lie_within};
use std::alloc::Global;
use std::process::Abort;

// The trees of a script, or why it has none.
#[derive(Drop)]
pub enum Answer {
    Trees(Stmts),
    SyntaxAt(u32),
    OutOfMemory,
    Other,
}

// Whether the brackets of no statement nest more than 64 deep.
fn shallow(tokens: &Tokens, pieces: &Pieces) -> bool
    requires within { All (IsWithin tokens.now) pieces.now }
    requires few { length tokens.now < 2 ^ 32 }
    ensures { IsTrue result → All (IsShallow tokens.now) pieces.now }
{
    for piece in pieces.as_slice() {
        if depth(tokens, piece) > 64 {
            return false;
        }
    }
    true
}

pub fn parsed<R: Abort>(rt: &R, alloc: Global, script: &str) -> Answer {
    statements_lie_within();
    let Ok(tokens) = lex(alloc, script.as_bytes()) else {
        return Answer::Other;
    };
    let pieces = cut(alloc, &tokens).expect(rt, "memory");
    if tokens.len() >= 1 << 32 || !shallow(&tokens, &pieces) {
        return Answer::Other;
    }
    match parse(alloc, &tokens, &pieces) {
        Ok(trees) => Answer::Trees(trees),
        Err(SyntaxFault::Syntax { statement }) => Answer::SyntaxAt(statement),
        Err(SyntaxFault::OutOfMemory) => Answer::OutOfMemory,
    }
}

// The number of a script's trees.
pub fn counted<R: Abort>(rt: &R, alloc: Global, script: &str) -> usize {
    let found = parsed(rt, alloc, script);
    let number = match &found {
        Answer::Trees(trees) => trees.len(),
        _ => 0,
    };
    drop(found);
    number
}
