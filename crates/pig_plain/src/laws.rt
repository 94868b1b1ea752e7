ghost use Rattle.std.specs.List.{AllByRecursion};
ghost use Rattle.pig_value.specs.Leaves.{AreBytes};
ghost use Rattle.pig_plan.specs.Laws.{AreOfBytes};
ghost use Rattle.pig_plain.specs.StoredLines.{AnswersAreStoredLines};

use pig_value::{Blob, Input};

/// The texts of rows that answer for a live node, each with an LF behind it, are a text whose lines are those of the node's
/// meaning: in its order where the node is a list, and else each as often. It holds of any valid plan over inputs of bytes.
pub fn answers_are_stored_lines()
    ensures { AnswersAreStoredLines }
{}

/// The pieces of inputs are of bytes, as their type says.
pub fn inputs_are_of_bytes(inputs: &[Input])
    ensures { AreOfBytes inputs.now }
{
    for input in inputs {
        pieces_are_of_bytes(input.pieces.as_slice());
    }
}

fn pieces_are_of_bytes(pieces: &[Blob])
    ensures { AllByRecursion AreBytes pieces.now }
{
    for piece in pieces {
        piece.as_slice();
    }
}
