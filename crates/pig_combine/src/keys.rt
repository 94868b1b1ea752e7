ghost use Rattle.std.proofs.Common.{ap};
ghost use Rattle.std.specs.Prelude.{◌≡◌, [], ◌∷◌, IfOk};
ghost use Rattle.std.specs.Cmp.{on_equiv, on_per, partial_equiv_from_equiv};
ghost use Rattle.std.specs.Cmp.Lexicographic.{bytes_decides, nat_list_eq_equiv};
ghost use Rattle.std.specs.Str.{bytes_eq};

use indexmap::Equivalent;
use smallvec::SmallVec;
use std::alloc::{AllocError, Global};
use std::hash::{Hash, Hasher};

// So many bytes of a name stand in the table itself.
const INLINE: usize = 24;

// What a key is found by, as a table keeps it: its text or its code.
#[derive(Debug, Drop)]
pub struct KeyName {
    pub bytes: SmallVec<u8, INLINE>,
}

// A name that is looked for among those.
#[derive(Clone, Copy, Drop)]
pub struct Sought<'c> {
    pub bytes: &'c [u8],
}

impl KeyName {
    pub fn copy(alloc: Global, bytes: &[u8]) -> Result<KeyName, AllocError>
        ensures { IfOk result (λ copied. copied.bytes.items ≡ bytes.now) }
    {
        let bytes = SmallVec::from_slice(alloc, bytes)?;
        Ok(KeyName { bytes })
    }
}

impl PartialEq for KeyName {
    ghost eq = { λ a b. bytes_eq a.bytes.items b.bytes.items };

    ghost laws = { on_per (λ c. c.bytes.items) (partial_equiv_from_equiv nat_list_eq_equiv) };

    fn eq(&self, other: &Self) -> bool {
        self.bytes.as_slice() == other.bytes.as_slice()
    }
}

impl Eq for KeyName {
    ghost laws = { on_equiv (λ c. c.bytes.items) nat_list_eq_equiv };
}

// All bytes are written at once, so that they are hashed many at a time.
impl Hash for KeyName {
    ghost hash_input = { λ c. c.bytes.items ∷ [] };

    ghost respects_eq = { λ a b same. ap (λ bytes. bytes ∷ [])
        ((bytes_decides a.bytes.items b.bytes.items).0 same) };

    fn hash<H: Hasher>(&self, state: &mut H) {
        state.write(self.bytes.as_slice());
    }
}

impl<'c> PartialEq for Sought<'c> {
    ghost eq = { λ a b. bytes_eq a.bytes.now b.bytes.now };

    ghost laws = { on_per (λ s. s.bytes.now) (partial_equiv_from_equiv nat_list_eq_equiv) };

    fn eq(&self, other: &Self) -> bool {
        self.bytes == other.bytes
    }
}

impl<'c> Eq for Sought<'c> {
    ghost laws = { on_equiv (λ s. s.bytes.now) nat_list_eq_equiv };
}

impl<'c> Hash for Sought<'c> {
    ghost hash_input = { λ s. s.bytes.now ∷ [] };

    ghost respects_eq = { λ a b same. ap (λ bytes. bytes ∷ [])
        ((bytes_decides a.bytes.now b.bytes.now).0 same) };

    fn hash<H: Hasher>(&self, state: &mut H) {
        state.write(self.bytes);
    }
}

impl<'c> Equivalent<KeyName> for Sought<'c> {
    ghost equivalent = { λ s c. bytes_eq s.bytes.now c.bytes.items };

    ghost respects_hash = { λ s c same. ap (λ bytes. bytes ∷ [])
        ((bytes_decides s.bytes.now c.bytes.items).0 same) };

    ghost respects_eq = { λ s a b. nat_list_eq_equiv.congr s.bytes.now a.bytes.items b.bytes.items };

    fn equivalent(&self, key: &KeyName) -> bool {
        self.bytes == key.bytes.as_slice()
    }
}
