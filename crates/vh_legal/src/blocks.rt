//! The samples at which blocks begin.

ghost use Rattle.std.specs.Prelude.{◌≡◌, ◌<◌, ◌^◌, ◌↔◌, IsTrue, sum};
ghost use Rattle.vh_cut.specs.Cut.{IsPattern};
ghost use Rattle.vh_legal.specs.Blocks.{IsAtBlock, IsTurn};

/// Whether a block of a rendering of so many samples begins at a sample, where nothing stops one, or the rendering
/// ends there.
pub(crate) fn is_at_block(samples: u32, pattern: &[u32], sample: u32) -> bool
    requires { IsPattern pattern.now }
    ensures { IsTrue result ↔ IsAtBlock samples pattern.now sample }
{
    if sample >= samples {
        return sample == samples;
    }
    is_turn(pattern, sample % total(pattern))
}

/// The sizes together.
fn total(sizes: &[u32]) -> u32
    requires { sum sizes.now < 2 ^ 32 }
    ensures { result ≡ sum sizes.now }
{
    sizes.iter().sum()
}

/// Whether one of these sizes begins at a sample, where the first begins at 0 and each where the one before ends.
fn is_turn(pattern: &[u32], sample: u32) -> bool
    requires { IsPattern pattern.now }
    ensures { IsTrue result ↔ IsTurn pattern.now sample }
{
    let mut at = 0;
    for size in pattern {
        if at == sample {
            return true;
        }
        at += *size;
    }
    false
}
