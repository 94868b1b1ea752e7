// Inputs in memory, with their sizes. Where memory is wanting the process ends.
use pig_physical::{Size, Sizes};
use pig_value::{Blob, Blobs, Input, Inputs, Lengths, Text};
use std::alloc::Global;
use std::process::Abort;

/// The bytes of a text in which `~` stands for an LF, `^` for a CR and `_` for a tab.
fn blob<R: Abort>(rt: &R, alloc: Global, text: &str) -> Blob {
    let mut bytes = Vec::new(alloc);
    for byte in text.as_bytes() {
        let byte = match *byte {
            b'~' => b'\n',
            b'^' => b'\r',
            b'_' => b'\t',
            other => other,
        };
        bytes.push(byte).expect(rt, "memory");
    }
    Blob::from_vec(bytes)
}

/// The input of a path, and of its pieces behind bars.
fn input<R: Abort>(rt: &R, alloc: Global, text: &str) -> Input {
    let mut parts = text.split('|');
    let path = Text::from_str(alloc, parts.next().unwrap_or("")).expect(rt, "memory");
    let mut pieces = Blobs::new(alloc);
    for piece in parts {
        pieces.push(blob(rt, alloc, piece)).expect(rt, "memory");
    }
    Input { path, pieces }
}

/// Inputs, each behind a semicolon but the first.
pub fn inputs<R: Abort>(rt: &R, alloc: Global, texts: &str) -> Inputs {
    let mut inputs = Inputs::new(alloc);
    for text in texts.split(';') {
        inputs.push(input(rt, alloc, text)).expect(rt, "memory");
    }
    inputs
}

/// The sizes of inputs.
pub fn sizes<R: Abort>(rt: &R, alloc: Global, inputs: &[Input]) -> Sizes {
    let mut sizes = Sizes::new(alloc);
    for input in inputs {
        sizes.push(size(rt, alloc, input)).expect(rt, "memory");
    }
    sizes
}

fn size<R: Abort>(rt: &R, alloc: Global, input: &Input) -> Size {
    Size {
        path: Text::from_str(alloc, input.path.as_str()).expect(rt, "memory"),
        lengths: lengths(rt, alloc, input.pieces.as_slice()),
    }
}

fn lengths<R: Abort>(rt: &R, alloc: Global, pieces: &[Blob]) -> Lengths {
    let mut lengths = Lengths::new(alloc);
    for piece in pieces {
        let length = piece.as_slice().len() as u64;
        lengths.push(length).expect(rt, "memory");
    }
    lengths
}
