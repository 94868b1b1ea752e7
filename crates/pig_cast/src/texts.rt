ghost use Rattle.std.specs.Prelude.{◌≡◌, IfOk, string_bytes};
ghost use Rattle.std.specs.Str.Lossy.{utf8_lossy};

use bstr::ByteSlice;
use pig_value::Text;
use std::alloc::{AllocError, Global};

/// The bytes as text, with U+FFFD in the place of each maximal part that is no UTF-8.
pub(crate) fn lossy_text(alloc: Global, bytes: &[u8]) -> Result<String, AllocError>
    ensures { IfOk result (λ text. string_bytes text ≡ utf8_lossy bytes.now) }
{
    let mut text = String::new(alloc);
    bytes.to_str_lossy_into(&mut text)?;
    Ok(text)
}

/// The same, in the memory of a text that is there.
pub(crate) fn lossy_text_over(old: Text, bytes: &[u8]) -> Result<String, AllocError>
    ensures { IfOk result (λ text. string_bytes text ≡ utf8_lossy bytes.now) }
{
    let mut text = old.into_string();
    text.clear();
    bytes.to_str_lossy_into(&mut text)?;
    Ok(text)
}
