ghost use Rattle.std.specs.Prelude.{◌≡◌, ◌<◌, map};
ghost use Rattle.std.specs.List.{fold, join_with_byte};
ghost use Rattle.pig_value.specs.Texts.{text_of, tuple_text};
ghost use Rattle.pig_value.specs.Trees.{fields_of, row_tree, tree, v_tuple};
ghost use Rattle.pig_text.specs.Hash.{hash_of, hash_step};
ghost use Rattle.pig_runs.specs.Parts.{pn};

use pig_text::{TextHash, TextSink, tell_value, text_hash};
use pig_value::{Tuple, Value};

/// The part, of `n`, in which the entries of a key stand. It is the same for equal keys, and takes no memory.
pub fn part_of(key: &Value, n: u32) -> u32
    requires { 0 < n }
    ensures is { result ≡ pn (tree key.now) n }
    ensures within { result < n }
{
    text_hash(key) % n
}

/// The part, of `n`, of a row that is a key, the tuple of its fields.
pub fn part_of_row(row: &Tuple, n: u32) -> u32
    requires { 0 < n }
    ensures is { result ≡ pn (v_tuple (fields_of (row_tree row.now))) n }
    ensures within { result < n }
{
    row_hash(row.as_slice()) % n
}

// The hash of the text that a row has as a tuple.
fn row_hash(fields: &[Value]) -> u32
    ensures { result ≡ hash_of (tuple_text (map text_of (row_tree fields.now))) }
{
    let mut told = TextHash::new();
    told.put(b"(");
    tell_fields(fields, &mut told);
    told.put(b")");
    told.hash
}

// Tells the texts of fields with a comma between each two.
fn tell_fields(fields: &[Value], told: &mut TextHash)
    ensures { told.new.hash ≡ fold hash_step told.old.hash
        (join_with_byte 44 (map text_of (row_tree fields.now))) }
{
    let [first, others @ ..] = fields else {
        return;
    };
    tell_value(first, told);
    'others: for field in others {
        told.put(b",");
        tell_value(field, told);
    }
}
