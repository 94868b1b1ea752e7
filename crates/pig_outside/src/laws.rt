// What the types of inputs say.
ghost use Rattle.std.specs.List.{AllByRecursion};
ghost use Rattle.pig_value.specs.Leaves.{AreBytes};
ghost use Rattle.pig_outside.specs.Shelf.{AreOfBytes};

use pig_value::{Blob, Input};

/// The pieces of inputs are of bytes.
pub fn inputs_are_of_bytes(inputs: &[Input])
    ensures { AreOfBytes inputs.now }
{
    for input in inputs {
        pieces_are_of_bytes(input.pieces.as_slice());
    }
}

fn pieces_are_of_bytes(pieces: &[Blob])
    ensures { AllByRecursion AreBytes pieces.now }
{
    for piece in pieces {
        piece.as_slice();
    }
}
