// The input of the demonstration.
ghost use Rattle.std.specs.Prelude.{◌≡◌, ◌<◌, ◌^◌, ◌++◌, IfOk, OnOk};
ghost use Rattle.pig_demo.specs.Scene.{demo_inputs, visit_field, visit_line, visit_lines};

use itoa::Buffer;
use pig_value::{Blob, Blobs, Input, Inputs, Text};
use std::alloc::{AllocError, Global};

// Adds a field: its letter, its number and the byte behind it.
fn add_field(out: &mut Vec<u8>, letter: &[u8], number: u64, behind: u8) -> Result<(), AllocError>
    ensures { OnOk result (out.new.items
        ≡ out.old.items ++ visit_field letter.now number behind) }
{
    let mut buffer = Buffer::new();
    out.extend_from_slice(letter)?;
    out.extend_from_slice(buffer.format(number).as_bytes())?;
    out.push(behind)?;
    Ok(())
}

// Adds the line of a visit, by its number.
fn add_visit(out: &mut Vec<u8>, number: u64) -> Result<(), AllocError>
    requires { number < 2 ^ 32 }
    ensures { OnOk result (out.new.items ≡ out.old.items ++ visit_line number) }
{
    add_field(out, b"u", number * 37 % 101, b'\t')?;
    add_field(out, b"p", number * 61 % 997, b'\t')?;
    add_field(out, b"", number % 86_400, b'\n')
}

// The lines of so many visits.
fn visit_lines(alloc: Global, count: u32) -> Result<Vec<u8>, AllocError>
    ensures { IfOk result (λ lines. lines.items ≡ visit_lines count) }
{
    let mut lines = Vec::new(alloc);
    for number in 0..u64::from(count) {
        add_visit(&mut lines, number)?;
    }
    Ok(lines)
}

// The input `visits`, in one piece of so many lines.
pub fn demo_inputs(alloc: Global, count: u32) -> Result<Inputs, AllocError>
    ensures { IfOk result (λ inputs. inputs ≡ demo_inputs count) }
{
    let mut pieces = Blobs::new(alloc);
    pieces.push(Blob::from_vec(visit_lines(alloc, count)?))?;
    let path = Text::from_str(alloc, "visits")?;
    let mut inputs = Inputs::new(alloc);
    inputs.push(Input { path, pieces })?;
    Ok(inputs)
}
