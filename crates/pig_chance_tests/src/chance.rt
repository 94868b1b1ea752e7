// A generator of numbers.
ghost use Rattle.std.specs.Prelude.{◌<◌};

/// A linear congruential generator.
#[derive(Drop)]
pub struct Chance {
    state: u64,
}

impl Chance {
    /// The generator that begins with this number.
    pub fn new(seed: u64) -> Chance {
        Chance { state: seed }
    }

    /// The next number, below a bound; 0 where there is none below.
    pub fn below(&mut self, bound: u32) -> u32
        ensures { 0 < bound → result < bound }
    {
        self.state = self
            .state
            .wrapping_mul(6_364_136_223_846_793_005)
            .wrapping_add(1_442_695_040_888_963_407);
        let high = (self.state >> 33) as u32;
        if bound == 0 { 0 } else { high % bound }
    }
}
