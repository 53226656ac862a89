// Numbers that are drawn one after the other.
ghost use Rattle.std.specs.Prelude.{◌≡◌, ◌<◌};
ghost use Rattle.jr_gen.specs.Draws.{draw, next};

// A linear congruential generator modulo 2^64.
pub(crate) struct Draws {
    pub(crate) state: u64,
}

// By hand, so that its parts are let go in one call.
impl Drop for Draws {
    fn drop(self) {
        let Draws { state: _ } = self;
    }
}

impl Draws {
    pub(crate) fn from(seed: u64) -> Draws
        ensures { result.state ≡ seed }
    {
        Draws { state: seed }
    }

    // Draws a number below n.
    pub(crate) fn below(&mut self, n: u64) -> u64
        requires { 0 < n }
        ensures drawn { result ≡ draw 1 n self.old.state }
        ensures state { self.new.state ≡ next self.old.state }
        ensures below { result < n }
    {
        self.state = self
            .state
            .wrapping_mul(6_364_136_223_846_793_005)
            .wrapping_add(1_442_695_040_888_963_407);
        (self.state >> 33) % n
    }
}
