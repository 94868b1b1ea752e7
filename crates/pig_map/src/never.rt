//! A stop that never says that its task is won.
ghost use Rattle.std.specs.Prelude.{⊤};

use pig_outside::Stop;

/// It never says so: for an attempt that nothing ends before its time.
#[derive(Drop)]
pub struct Never;

impl Stop for Never {
    ghost Kept = { ⊤ };

    ghost kept = { λ s. tt };

    ghost won = { λ s. ⊥ };

    fn is_won(&mut self) -> bool {
        false
    }
}
