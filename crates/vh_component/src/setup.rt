//! What a component is set up to, and where it stands.

ghost use Rattle.std.specs.Prelude.{◌≤◌};

/// What a component is set up to before it is activated (the SDK's `ProcessSetup`): its channels, 1 or 2,
/// and the most samples of a block, 1 to 8192.
#[derive(Clone, Copy, Debug, PartialEq, Eq)]
pub struct Setup {
    pub channels: u16,
    pub max: u32,
    ghost some_channels: { 1 ≤ channels },
    ghost most_channels: { channels ≤ 2 },
    ghost some_samples: { 1 ≤ max },
    ghost most_samples: { max ≤ 8192 },
}

/// Where a component stands in its life.
#[derive(Clone, Copy, Debug, PartialEq, Eq)]
pub enum Phase {
    Created,
    Initialized,
    Ready,
    Active,
    Processing,
}
