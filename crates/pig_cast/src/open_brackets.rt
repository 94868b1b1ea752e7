ghost use Rattle.std.specs.Prelude.{◌≡◌, ◌<◌, ℕ, Bool, false, List, [], ◌∷◌, IsTrue, IsFalse, MatchOption, OnOk};
ghost use Rattle.pig_value.specs.Brackets.{closing_of, is_nothing, takes};
ghost use Rattle.pig_cast.specs.OpenBrackets.{bracket_of};

use std::alloc::{AllocError, Global};
use std::marker::Model;

/// The brackets that are open, as the closing ones that they want, the next of these first.
///
/// The first 31 are the digits of a number to the base 4, so that text takes memory only where it nests deeper; the
/// others stand in a list.
#[derive(Drop)]
pub(crate) struct OpenBrackets {
    digits: u64,
    deeper: Vec<u8>,
}

impl Model for OpenBrackets {
    ghost use Rattle.std.specs.Prelude.{List, ℕ, reverse, ◌++◌, ◌<◌, ◌^◌};
    ghost use Rattle.pig_cast.specs.OpenBrackets.{brackets};

    ghost Value = { List ℕ };

    ghost view = { λ w. reverse w.deeper.items ++ brackets 32 w.digits };

    ghost invariant = { λ w. w.digits < 2 ^ 64 };
}

// The digits have room for one more below this number, 4 to the power 31.
const FULL: u64 = 0x4000_0000_0000_0000;

impl OpenBrackets {
    /// No bracket, which takes no memory.
    pub(crate) fn new(alloc: Global) -> OpenBrackets
        ensures { result ≡ [] }
    {
        OpenBrackets {
            digits: 0,
            deeper: Vec::new(alloc),
        }
    }

    /// Whether no bracket is wanted.
    pub(crate) fn is_empty(&self) -> bool
        ensures { result ≡ is_nothing self.now }
    {
        self.deeper.is_empty() && self.digits == 0
    }

    /// The bracket that closes this one is wanted next.
    pub(crate) fn open(&mut self, opening: u8) -> Result<(), AllocError>
        ensures { OnOk result (self.new ≡ closing_of opening ∷ self.old) }
    {
        if self.deeper.is_empty() && self.digits < FULL {
            self.digits = self.digits * 4 + digit(opening);
            return Ok(());
        }
        self.deeper.push(closing(opening))?;
        Ok(())
    }

    /// Takes the bracket off that is wanted next, and tells whether it is this one.
    pub(crate) fn close(&mut self, closing: u8) -> bool
        ensures closed { IsTrue result → self.old ≡ closing ∷ self.new }
        ensures other { IsFalse result → (rest : List ℕ → Bool)
            → takes closing rest self.old ≡ false }
    {
        match self.pop() {
            Some(next) => next == closing,
            None => false,
        }
    }

    fn pop(&mut self) -> Option<u8>
        ensures { MatchOption result (self.old ≡ []) (λ next. self.old ≡ next ∷ self.new) }
    {
        if let Some(next) = self.deeper.pop() {
            return Some(next);
        }
        if self.digits == 0 {
            return None;
        }
        let next = bracket(self.digits % 4);
        self.digits /= 4;
        Some(next)
    }
}

// The bracket that closes an opening one.
fn closing(opening: u8) -> u8
    ensures { result ≡ closing_of opening }
{
    match opening {
        b'(' => b')',
        b'[' => b']',
        _ => b'}',
    }
}

// The digit of the bracket that closes an opening one.
fn digit(opening: u8) -> u64
    ensures bracket { bracket_of result ≡ closing_of opening }
    ensures some { (0 < result) × (result < 4) }
{
    match opening {
        b'(' => 1,
        b'[' => 2,
        _ => 3,
    }
}

fn bracket(digit: u64) -> u8
    ensures { result ≡ bracket_of digit }
{
    match digit {
        1 => b')',
        2 => b']',
        _ => b'}',
    }
}
