//! A host over pieces in memory, which fails where it is told to.
ghost use Rattle.std.specs.Prelude.{◌≡◌, None};
ghost use Rattle.pig_outside.specs.Faults.{HasCause};

use pig_outside::{Failed, Host, OutsideError};

/// The bytes of an input `b` of one piece, and of any other, in which bars may part pieces.
#[derive(Clone, Copy, Drop)]
pub struct World<'b> {
    pub a: &'b [u8],
    pub b: &'b [u8],
    pub has_bars: bool,
}

#[derive(Drop)]
pub struct Pieces<'b> {
    pub world: World<'b>,
    /// It fails each read of more bytes.
    pub most: usize,
    /// It fails at this read, from 1; 0 is none.
    pub fails: u64,
    /// The byte that it gives in the place of each.
    pub other: Option<u8>,
    pub reads: u64,
    pub faults: u64,
}

/// The bytes of a piece, and none where there is no such piece.
fn piece<'b>(world: World<'b>, path: &str, number: u32) -> &'b [u8] {
    let whole = if path == "b" { world.b } else { world.a };
    if world.has_bars {
        let mut parts = whole.split(|b| *b == b'|');
        return parts.nth(number as usize).unwrap_or(&[]);
    }
    if number == 0 { whole } else { &[] }
}

impl Host for Pieces<'_> {
    ghost inputs = { λ h. None };

    ghost begun = { λ h. None };

    ghost faults = { λ h. h.faults };

    fn tells_bytes(&self) {}

    fn begin(&mut self, _wave: u32, _task: u32, _attempt: u32) -> Result<(), Failed> {
        Ok(())
    }

    fn read(
        &mut self,
        path: &str,
        number: u32,
        from: u64,
        into: &mut [u8],
    ) -> Result<(), OutsideError> {
        self.reads = u64::saturating_add(self.reads, 1);
        let bytes = piece(self.world, path, number);
        let left = bytes.get(from as usize..).unwrap_or(&[]);
        if self.reads == self.fails || into.len() > self.most || left.len() < into.len() {
            return self.fail();
        }
        into.copy_from_slice(&left[..into.len()]);
        if let Some(other) = self.other {
            into.fill(other);
        }
        Ok(())
    }
}

impl Pieces<'_> {
    fn fail(&mut self) -> Result<(), OutsideError>
        ensures cause { HasCause self.old.faults self.new.faults result }
    {
        let Some(faults) = self.faults.checked_add(1) else {
            return Err(OutsideError::OutOfMemory);
        };
        self.faults = faults;
        Err(OutsideError::Failed)
    }
}
