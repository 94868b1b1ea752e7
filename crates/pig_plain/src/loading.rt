ghost use Rattle.std.specs.Prelude.{◌≡◌};
ghost use Rattle.std.specs.List.{find};
ghost use Rattle.std.specs.Option.{option_copied};
ghost use Rattle.std.specs.Str.{bytes_eq};
ghost use Rattle.pig_plan.specs.Operators.{load_rows, pieces_of as pieces_under};
ghost use Rattle.pig_plain.specs.Coming.{coming};

use crate::walking::Walk;
use pig_value::{Blob, Columns, Delim, Input, Text};
use std::alloc::Global;

// LOAD: the rows of all lines of all pieces of an input, in order. No line is read yet.
pub fn loaded<'p>(
    alloc: Global,
    inputs: &'p [Input],
    path: &Text,
    delim: Delim,
    columns: &'p Columns,
) -> Walk<'p>
    ensures { coming result ≡ load_rows inputs.now path.now delim columns.now }
{
    Walk::of(alloc, pieces_of(inputs, path.as_str()), delim, columns)
}

// The pieces of the input of a path, and none where there is no such input.
fn pieces_of<'a>(inputs: &'a [Input], path: &str) -> &'a [Blob]
    ensures { result.now ≡ pieces_under inputs.now path.now }
{
    match input_of(inputs, path) {
        Some(input) => input.pieces.as_slice(),
        None => &[],
    }
}

fn input_of<'a>(inputs: &'a [Input], path: &str) -> Option<&'a Input>
    ensures { option_copied result ≡ find (λ input. bytes_eq input.path path.now) inputs.now }
{
    inputs.iter().find(|input| input.path.as_str() == path)
}
