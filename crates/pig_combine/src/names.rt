ghost use Rattle.std.specs.Prelude.{◌≡◌, None, is_some, IfSome};
ghost use Rattle.pig_value.specs.Trees.{tree};
ghost use Rattle.pig_keycode.specs.Codes.{code};
ghost use Rattle.pig_combine.specs.Names.{is_plain, name};

use pig_value::Value;

// The last byte that a code begins with.
const LAST_TAG: u8 = 9;

// The bytes that a key is found by, where they are those of its own text.
pub fn plain_text(key: &Value) -> Option<&[u8]>
    ensures found { IfSome result (λ text. text.now ≡ name (tree key.now)) }
    ensures none { result ≡ None → name (tree key.now) ≡ code (tree key.now) }
{
    match key {
        Value::Chars(text) => plain(text.as_bytes()),
        _ => None,
    }
}

fn plain(text: &[u8]) -> Option<&[u8]>
    ensures found { IfSome result (λ found. found.now ≡ text.now) }
    ensures test { is_some result ≡ is_plain text.now }
{
    if is_plain(text) { Some(text) } else { None }
}

fn is_plain(text: &[u8]) -> bool
    ensures { result ≡ is_plain text.now }
{
    match text {
        [first, ..] => *first > LAST_TAG,
        [] => false,
    }
}
