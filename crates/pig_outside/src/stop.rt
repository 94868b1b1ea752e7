// What an attempt may ask of its task.
ghost use Rattle.std.specs.Prelude.{◌≡◌, IsTrue};

/// Whether a task is won already. An attempt at it may then end without an output.
pub trait Stop {
    /// What an attempt may not change of a stop, however often it asks.
    ghost Kept: { Type 0 };

    /// What a stop has of this.
    ghost kept: { Self → Kept };

    /// Its task is won.
    ghost won: { Self → Type 0 };

    /// Whether the task is won. False may be late.
    fn is_won(&mut self) -> bool
        ensures kept { kept self.new ≡ kept self.old }
        ensures later { won self.old → won self.new }
        ensures seen { IsTrue result → won self.new };
}
