ghost use Rattle.std.specs.Prelude.{◌≡◌, refl};
ghost use Rattle.std.specs.List.{fold};
ghost use Rattle.pig_value.specs.Texts.{text_of};
ghost use Rattle.pig_value.specs.Trees.{tree};
ghost use Rattle.pig_text.specs.Hash.{hash_of, hash_step, hash_onwards};

use crate::{TextSink, tell_value};
use pig_value::Value;

/// A hash of the bytes that it takes: from 0, each takes it to 31 times what it was, and the byte, modulo 2 ^ 32.
#[derive(Debug, Clone, Copy, Drop)]
pub struct TextHash {
    pub hash: u32,
}

impl TextHash {
    /// The hash of no bytes.
    pub fn new() -> TextHash
        ensures { result.hash ≡ 0 }
    {
        TextHash { hash: 0 }
    }
}

impl TextSink for TextHash {
    ghost after = { λ a bytes b. b.hash ≡ fold hash_step a.hash bytes };

    ghost nothing = { λ a. refl };

    ghost onwards = { λ a b c xs ys h k. hash_onwards a.hash b.hash c.hash xs ys h k };

    fn put(&mut self, bytes: &[u8]) {
        let mut hash = self.hash;
        for byte in bytes {
            hash = after_byte(hash, *byte);
        }
        self.hash = hash;
    }
}

/// The hash of a value's text.
pub fn text_hash(value: &Value) -> u32
    ensures { result ≡ hash_of (text_of (tree value.now)) }
{
    let mut told = TextHash::new();
    tell_value(value, &mut told);
    told.hash
}

fn after_byte(hash: u32, byte: u8) -> u32
    ensures { result ≡ hash_step hash byte }
{
    ((31 * u64::from(hash) + u64::from(byte)) % 4_294_967_296) as u32
}
