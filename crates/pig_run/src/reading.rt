ghost use Rattle.std.specs.Prelude.{◌<◌, ◌≤◌, ◌^◌, ◌↔◌, length, map, IsTrue, All};
ghost use Rattle.pig_syntax.specs.Cutting.{AreStatements, IsWithin};
ghost use Rattle.pig_parser.specs.Parsing.{IsShallow};
ghost use Rattle.pig_syntax.specs.Formed.{StmtFormed};
ghost use Rattle.pig_syntax.specs.Tokens.{HoldsNoLf};
ghost use Rattle.pig_run.specs.Limits.{most_script, most_statements};
ghost use Rattle.pig_run.specs.Reading.{IsChecked, IsParsed, IsMeasured, IsLexed, IsFilled, IsFound};
ghost use Rattle.pig_params.specs.Given.{named_of};
ghost use Rattle.pig_run.specs.Steps.{ReadsPlan};

use crate::{RunFault, TooLarge};
use pig_check::{CheckFault, check, plans_stand_in_order, stores_are_apart};
use pig_params::{ParamFault, Params, substitute};
use pig_parser::{SyntaxFault, parse};
use pig_plan::Plan;
use pig_syntax::{
    LexFault, Piece, Pieces, Stmts, Tokens, a_script_has_one_reading, cut, depth, lex,
    statements_lie_within,
};
use std::alloc::Global;

// The limit on the length of a script, in bytes.
pub const MOST_SCRIPT: u64 = 1_048_576;

// The limit on the number of its statements.
const MOST_STATEMENTS: usize = 4096;

// The limit on the number of brackets that are open at once.
const MOST_DEPTH: u32 = 64;

// The plan of a script, and the number of its statements.
#[derive(Drop)]
pub struct Checked {
    pub plan: Plan,
    pub statements: u64,
}

// The plan of trees.
fn plan_of_trees(alloc: Global, statements: &Stmts) -> Result<Checked, RunFault>
    requires { All StmtFormed statements.now }
    ensures { ReadsPlan (IsChecked statements.now) result }
{
    stores_are_apart();
    plans_stand_in_order();
    match check(alloc, statements) {
        Ok(plan) => Ok(Checked {
            plan,
            statements: statements.len() as u64,
        }),
        Err(CheckFault::Check { statement, kind }) => Err(RunFault::Check { statement, kind }),
        Err(CheckFault::OutOfMemory) => Err(RunFault::OutOfMemory),
    }
}

// The plan of the trees of statements.
fn plan_of_statements(alloc: Global, tokens: &Tokens, pieces: &Pieces) -> Result<Checked, RunFault>
    requires statements { AreStatements tokens.now pieces.now }
    requires few { length tokens.now < 2 ^ 32 }
    requires few_statements { length pieces.now ≤ most_statements }
    requires texts { All (λ token. HoldsNoLf token.form) tokens.now }
    requires shallow { All (IsShallow tokens.now) pieces.now }
    ensures { ReadsPlan (IsParsed tokens.now pieces.now) result }
{
    match parse(alloc, tokens, pieces) {
        Ok(trees) => plan_of_trees(alloc, &trees),
        Err(SyntaxFault::Syntax { statement }) => Err(RunFault::Syntax { statement }),
        Err(SyntaxFault::OutOfMemory) => Err(RunFault::OutOfMemory),
    }
}

// Whether the brackets of a statement nest at most 64 deep.
fn is_shallow(tokens: &Tokens, piece: &Piece) -> bool
    requires within { IsWithin tokens.now piece.now }
    requires few { length tokens.now < 2 ^ 32 }
    ensures { IsTrue result ↔ IsShallow tokens.now piece.now }
{
    depth(tokens, piece) <= MOST_DEPTH
}

// Whether the brackets of each statement nest at most 64 deep.
fn are_shallow(tokens: &Tokens, pieces: &Pieces) -> bool
    requires statements { AreStatements tokens.now pieces.now }
    requires few { length tokens.now < 2 ^ 32 }
    ensures { IsTrue result ↔ All (IsShallow tokens.now) pieces.now }
{
    statements_lie_within();
    let pieces = pieces.as_slice();
    for place in 0..pieces.len() {
        let piece = &pieces[place];
        if !is_shallow(tokens, piece) {
            return false;
        }
    }
    true
}

// The plan of the statements, where there are not too many and none nests too deep.
fn plan_of_pieces(alloc: Global, tokens: &Tokens, pieces: &Pieces) -> Result<Checked, RunFault>
    requires statements { AreStatements tokens.now pieces.now }
    requires few { length tokens.now < 2 ^ 32 }
    requires texts { All (λ token. HoldsNoLf token.form) tokens.now }
    ensures { ReadsPlan (IsMeasured tokens.now pieces.now) result }
{
    if pieces.len() > MOST_STATEMENTS {
        return Err(RunFault::TooLarge {
            which: TooLarge::Statements,
        });
    }
    if !are_shallow(tokens, pieces) {
        return Err(RunFault::TooLarge {
            which: TooLarge::Depth,
        });
    }
    plan_of_statements(alloc, tokens, pieces)
}

// The plan of a script in which all values stand.
fn plan_of_text(alloc: Global, script: &[u8]) -> Result<Checked, RunFault>
    requires { length script.now ≤ most_script }
    ensures { ReadsPlan (IsLexed script.now) result }
{
    a_script_has_one_reading();
    match lex(alloc, script) {
        Ok(tokens) => {
            let pieces = cut(alloc, &tokens)?;
            plan_of_pieces(alloc, &tokens, &pieces)
        }
        Err(LexFault::Bad { offset }) => Err(RunFault::Lex { offset }),
        Err(LexFault::OutOfMemory) => Err(RunFault::OutOfMemory),
    }
}

// The plan of a script in which the values of parameters are still to be put.
fn plan_of_unfilled(alloc: Global, script: &[u8], params: &Params) -> Result<Checked, RunFault>
    ensures { ReadsPlan (IsFilled (map named_of params.now) script.now) result }
{
    match substitute(alloc, script, params, MOST_SCRIPT) {
        Ok(text) => plan_of_text(alloc, text.as_slice()),
        Err(ParamFault::Missing { offset }) => Err(RunFault::Param { offset }),
        Err(ParamFault::TooLong) => Err(RunFault::TooLarge {
            which: TooLarge::Script,
        }),
        Err(ParamFault::OutOfMemory) => Err(RunFault::OutOfMemory),
    }
}

// The plan of a script with these parameters, or the first refusal that it meets.
pub fn read_script(alloc: Global, script: &[u8], params: &Params) -> Result<Checked, RunFault>
    ensures { ReadsPlan (IsFound (map named_of params.now) script.now) result }
{
    if script.len() as u64 > MOST_SCRIPT {
        return Err(RunFault::TooLarge {
            which: TooLarge::Script,
        });
    }
    plan_of_unfilled(alloc, script, params)
}
