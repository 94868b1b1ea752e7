ghost use Rattle.std.specs.Prelude.{◌≡◌, ◌∷◌, ◌-◌, ◌<◌, ◌≤◌, [], ℕ, List, length, OnOk, IfOk, IfErr};
ghost use Rattle.pig_params.specs.Making.{IsMade, Puts};
ghost use Rattle.pig_params.specs.declared.faults.ParamFault.TheVariants as fault;

use crate::ParamFault;
use std::alloc::{AllocError, Global};

// The text that is being made. Once it is longer than it may be, nothing is added to it.
#[derive(Drop)]
pub(crate) struct Made {
    pub(crate) bytes: Vec<u8>,
    pub(crate) most: u64,
    pub(crate) over: bool,
}

impl Made {
    // No text, of at most so many bytes.
    pub(crate) fn new(alloc: Global, most: u64) -> Made
        ensures made { IsMade [] result }
        ensures most { result.most ≡ most }
    {
        Made {
            bytes: Vec::new(alloc),
            most,
            over: false,
        }
    }

    // Puts text behind what is made.
    pub(crate) fn put(&mut self, text: &[u8]) -> Result<(), AllocError>
        ensures puts { OnOk result (Puts text.now self.old self.new) }
        ensures most { self.new.most ≡ self.old.most }
    {
        if self.over {
            return Ok(());
        }
        if self.room() < text.len() as u64 {
            self.over = true;
            return Ok(());
        }
        self.bytes.extend_from_slice(text)?;
        Ok(())
    }

    // How many bytes more there may be.
    fn room(&self) -> u64
        ensures { result ≡ self.now.most - length self.now.bytes.items }
    {
        self.most.saturating_sub(self.bytes.len() as u64)
    }

    // The text, where it isn't too long.
    pub(crate) fn finish(self) -> Result<Vec<u8>, ParamFault>
        ensures text { IfOk result (λ made. (text : List ℕ) → IsMade text self
            → (made.items ≡ text) × (length text ≤ self.most)) }
        ensures fault { IfErr result (λ f. f ≡ fault.TooLong) }
        ensures over { IfErr result (λ f. (text : List ℕ) → IsMade text self
            → self.most < length text) }
    {
        let Made { bytes, over, .. } = self;
        if over {
            Err(ParamFault::TooLong)
        } else {
            Ok(bytes)
        }
    }
}
