//! Kinds as texts: `b` boolean, `i` int, `l` long, `c` chararray, `y` bytearray, `(..)` a tuple, `{..}` a bag and
//! `[.]` a map.
use pig_value::Kind;
use std::process::Abort;

/// Adds to a text.
pub fn add<R: Abort>(rt: &R, into: &mut String, text: &str) {
    into.push_str(text).expect(rt, "memory");
}

#[cycle(show)]
pub fn show_all<R: Abort>(rt: &R, kinds: &[Kind], into: &mut String) {
    for kind in kinds {
        show(rt, kind, into);
    }
}

#[cycle(show)]
pub fn show<R: Abort>(rt: &R, kind: &Kind, into: &mut String) {
    match kind {
        Kind::Boolean => add(rt, into, "b"),
        Kind::Int => add(rt, into, "i"),
        Kind::Long => add(rt, into, "l"),
        Kind::Chararray => add(rt, into, "c"),
        Kind::Bytearray => add(rt, into, "y"),
        Kind::Tuple(kinds) => {
            add(rt, into, "(");
            show_all(rt, kinds.as_slice(), into);
            add(rt, into, ")");
        }
        Kind::Bag(kinds) => {
            add(rt, into, "{");
            show_all(rt, kinds.as_slice(), into);
            add(rt, into, "}");
        }
        Kind::Map(of) => {
            add(rt, into, "[");
            show(rt, of.get(), into);
            add(rt, into, "]");
        }
    }
}
