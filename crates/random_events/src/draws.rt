// Numbers that look random, the same in each run.
ghost use Rattle.std.specs.Prelude.{◌<◌};

/// The state of Knuth's generator of MMIX.
#[derive(Drop)]
pub struct Draws {
    state: u64,
}

impl Draws {
    /// The numbers that follow from this one.
    pub fn new(seed: u64) -> Draws {
        Draws { state: seed }
    }

    /// A number below a limit.
    pub fn below(&mut self, limit: u64) -> u64
        requires { 0 < limit }
        ensures { result < limit }
    {
        self.state = self
            .state
            .wrapping_mul(6_364_136_223_846_793_005)
            .wrapping_add(1_442_695_040_888_963_407);
        (self.state >> 33) % limit
    }

    /// Whether one of so many draws comes out.
    pub fn one_in(&mut self, limit: u64) -> bool
        requires { 0 < limit }
    {
        self.below(limit) == 0
    }
}
