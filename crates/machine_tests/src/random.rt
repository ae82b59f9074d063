//! Numbers that look random.

ghost use Rattle.std.specs.Prelude.{◌<◌};

/// A linear congruence.
#[derive(Drop)]
pub(crate) struct Random {
    state: u32,
}

impl Random {
    pub(crate) fn new(seed: u32) -> Random {
        Random { state: seed }
    }

    /// A number below a bound.
    pub(crate) fn below(&mut self, bound: u32) -> u32
        requires { 0 < bound }
        ensures { result < bound }
    {
        self.state = self
            .state
            .wrapping_mul(1_664_525)
            .wrapping_add(1_013_904_223);
        (self.state / 8) % bound
    }
}
