//! Numbers that are drawn one after the other.

ghost use Rattle.std.specs.Prelude.{◌≡◌, ◌<◌, ◌≤◌, ◌^◌};
ghost use Rattle.vh_gen.specs.Draws.{next_state, behind, draw, drawn_value, drawn_sample};

/// The state that a draw leaves.
fn next_state(state: u32) -> u32
    ensures { result ≡ next_state state }
{
    ((u64::from(state) * 1_664_525 + 1_013_904_223) % 0x1_0000_0000) as u32
}

/// What the next draw comes from.
#[derive(Drop)]
pub(crate) struct Draws {
    pub(crate) state: u32,
}

impl Draws {
    /// A number below `most`.
    pub(crate) fn below(&mut self, most: u32) -> u32
        requires { 0 < most }
        ensures value { result ≡ draw self.old.state 0 most }
        ensures within { result < most }
        ensures state { self.new.state ≡ behind 1 self.old.state }
    {
        self.state = next_state(self.state);
        self.state / 65_536 % most
    }

    /// A normalised value below 1.0.
    pub(crate) fn value(&mut self) -> u32
        ensures value { result ≡ drawn_value self.old.state 0 }
        ensures within { result ≤ 2 ^ 24 }
        ensures state { self.new.state ≡ behind 1 self.old.state }
    {
        self.below(65_536) * 256
    }

    /// A sample, 2^-23 of full scale.
    pub(crate) fn sample(&mut self) -> i32
        ensures value { result ≡ drawn_sample self.old.state 0 }
        ensures state { self.new.state ≡ behind 1 self.old.state }
    {
        (self.below(65_536) as i32 - 32_768) * 256
    }
}
