//! How many lines stand in a directory, by hand. Where memory is wanting the process ends.
use pig_collect::stored_lines;
use pig_value::{Blob, Blobs};
use std::alloc::Global;
use std::process::Abort;

// The bytes of a text in which `~` stands for an LF.
fn blob<R: Abort>(rt: &R, alloc: Global, text: &str) -> Blob {
    let mut bytes = Vec::new(alloc);
    for byte in text.as_bytes() {
        let byte = if *byte == b'~' { b'\n' } else { *byte };
        bytes.push(byte).expect(rt, "memory");
    }
    Blob::from_vec(bytes)
}

// The number of lines of parts with bars between them.
fn count<R: Abort>(rt: &R, alloc: Global, texts: &str) -> u64 {
    let mut parts = Blobs::new(alloc);
    for text in texts.split('|') {
        parts.push(blob(rt, alloc, text)).expect(rt, "memory");
    }
    stored_lines(&parts).expect(rt, "memory")
}

#[test]
fn lines_of_parts_that_are_joined(rt: HostRuntime) {
    let rows = [
        ("", 0),
        ("|", 0),
        ("~", 1),
        ("a", 1),
        ("a~", 1),
        ("~~", 2),
        ("a~b", 2),
        ("a~b~", 2),
        ("a|b", 1),
        ("a|~", 1),
        ("a~|b~", 2),
        ("a~|b", 2),
        ("a||b", 1),
        ("a~||", 1),
        ("|~|a", 2),
    ];
    for (texts, lines) in rows {
        assert_eq!(rt; count(&rt, rt.alloc(), texts), lines, "of {texts}");
    }
}
