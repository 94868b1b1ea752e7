// The plan of a script's text.
ghost use Rattle.std.specs.Prelude.{◌<◌, ◌^◌, IsTrue, length};
ghost use Rattle.std.specs.List.{All};
ghost use Rattle.pig_parser.specs.Parsing.{IsShallow};
ghost use Rattle.pig_syntax.specs.Cutting.{IsWithin};

use pig_check::check;
use pig_parser::parse;
use pig_plan::Plan;
use pig_syntax::{Pieces, Tokens, cut, depth, lex, statements_lie_within};
use std::alloc::Global;

/// Whether the brackets of no statement nest more than 64 deep.
fn shallow(tokens: &Tokens, pieces: &Pieces) -> bool
    requires within { All (IsWithin tokens.now) pieces.now }
    requires few { length tokens.now < 2 ^ 32 }
    ensures { IsTrue result → All (IsShallow tokens.now) pieces.now }
{
    for piece in pieces.as_slice() {
        if depth(tokens, piece) > 64 {
            return false;
        }
    }
    true
}

/// The plan of a script. None: it has none, or memory is wanting.
pub fn plan_of(alloc: Global, script: &str) -> Option<Plan> {
    statements_lie_within();
    let tokens = lex(alloc, script.as_bytes()).ok()?;
    let pieces = cut(alloc, &tokens).ok()?;
    if tokens.len() >= 1 << 32 || !shallow(&tokens, &pieces) {
        return None;
    }
    let trees = parse(alloc, &tokens, &pieces).ok()?;
    let found = check(alloc, &trees);
    drop(trees);
    found.ok()
}
