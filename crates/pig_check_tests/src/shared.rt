//! The plan of a script's text, or why it has none; and trees as they are shown. Where memory is wanting the process ends:
//! that drops nothing, so its proof is short.
// Trees end by `drop`: one call is cheap to prove, and a tree that dies by name is taken apart variant by variant.
ghost use Rattle.std.specs.Prelude.{◌<◌, ◌^◌, IsTrue, length};
ghost use Rattle.std.specs.List.{All};
ghost use Rattle.pig_parser.specs.Parsing.{IsShallow};
ghost use Rattle.pig_syntax.specs.Cutting.{IsWithin};

use pig_check::{CheckFault, check};
use pig_parser::parse;
use pig_plan::{Node, Plan};
use pig_shown_tests::plain;
use pig_syntax::{Pieces, Tokens, cut, depth, lex, statements_lie_within};
use pig_typing::CheckKind;
use std::alloc::Global;
use std::process::Abort;

#[derive(Drop)]
pub enum Answer {
    Plan(Plan),
    Refused { statement: u32, kind: CheckKind },
    NoTree,
}

/// A text of its own.
pub fn copied<R: Abort>(rt: &R, alloc: Global, text: &str) -> String {
    String::from_str(alloc, text).expect(rt, "memory")
}

/// Adds to a text.
pub fn add<R: Abort>(rt: &R, into: &mut String, text: &str) {
    into.push_str(text).expect(rt, "memory");
}

// Whether the brackets of no statement nest more than 64 deep.
fn shallow(tokens: &Tokens, pieces: &Pieces) -> bool
    requires within { All (IsWithin tokens.now) pieces.now }
    requires few { length tokens.now < 2 ^ 32 }
    ensures { IsTrue result → All (IsShallow tokens.now) pieces.now }
{
    for piece in pieces.as_slice() {
        if depth(tokens, piece) > 64 {
            return false;
        }
    }
    true
}

pub fn checked<R: Abort>(rt: &R, alloc: Global, script: &str) -> Answer {
    statements_lie_within();
    let Ok(tokens) = lex(alloc, script.as_bytes()) else {
        return Answer::NoTree;
    };
    let Ok(pieces) = cut(alloc, &tokens) else {
        return Answer::NoTree;
    };
    if tokens.len() >= 1 << 32 || !shallow(&tokens, &pieces) {
        return Answer::NoTree;
    }
    match parse(alloc, &tokens, &pieces) {
        Ok(trees) => judged(rt, check(alloc, &trees)),
        Err(_) => Answer::NoTree,
    }
}

fn judged<R: Abort>(rt: &R, found: Result<Plan, CheckFault>) -> Answer {
    match found {
        Ok(plan) => Answer::Plan(plan),
        Err(CheckFault::Check { statement, kind }) => Answer::Refused { statement, kind },
        Err(CheckFault::OutOfMemory) => panic!(rt; "memory"),
    }
}

/// What is answered, as `fine`, or as the number of a statement and a kind.
pub fn told<R: Abort>(rt: &R, alloc: Global, script: &str) -> String {
    let found = checked(rt, alloc, script);
    let text = match &found {
        Answer::Plan(_) => copied(rt, alloc, "fine"),
        Answer::Refused { statement, kind } => refused(rt, alloc, *statement, *kind),
        Answer::NoTree => copied(rt, alloc, "no tree"),
    };
    drop(found);
    text
}

fn refused<R: Abort>(rt: &R, alloc: Global, statement: u32, kind: CheckKind) -> String {
    format!(in alloc; "{statement} {kind:?}").expect(rt, "memory")
}

/// Whether this is answered of a script's third statement, where those before it are typed: `fine`, or a kind.
pub fn third_is<R: Abort>(rt: &R, alloc: Global, script: &str, wanted: &str) -> bool {
    let found = told(rt, alloc, script);
    found.as_str() == wanted || found.as_str().strip_prefix("3 ") == Some(wanted)
}

/// The number of a node's statement, and its operator.
pub fn node_shown<R: Abort>(rt: &R, alloc: Global, node: &Node) -> String {
    let (statement, op) = (node.statement, &node.op);
    let shown = format!(in alloc; "{statement}: {op:?}").expect(rt, "memory");
    plain(alloc, shown.as_str()).expect(rt, "memory")
}
