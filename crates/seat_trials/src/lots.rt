//! Numbers by lot.
ghost use Rattle.std.specs.Prelude.{◌<◌, ◌≤◌};

/// Numbers that are the same for the same seed (Knuth's linear congruential generator).
#[derive(Drop)]
pub struct Lots {
    state: u64,
}

impl Lots {
    pub fn new(seed: u64) -> Lots {
        Lots { state: seed }
    }

    pub fn below(&mut self, n: u32) -> u32
        requires { 1 ≤ n }
        ensures { result < n }
    {
        self.state = self
            .state
            .wrapping_mul(6_364_136_223_846_793_005)
            .wrapping_add(1_442_695_040_888_963_407);
        (self.state >> 33) as u32 % n
    }
}
