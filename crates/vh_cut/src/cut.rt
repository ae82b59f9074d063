//! The cutting of a rendering.

ghost use Rattle.std.specs.Prelude.{◌≡◌};
ghost use Rattle.std.specs.List.Sorted.{IsNonDecreasing};
ghost use Rattle.vh_cut.specs.Cut.{IsPattern, pieces_of};
ghost use Rattle.vh_cut.specs.Pieces.{left};

use crate::piece::Pieces;

/// The pieces of a rendering of so many samples. The pattern has 1 to 16 sizes from 1 to 8192, which take
/// turns; a piece also ends where the samples do, and at each stop. The stops don't fall.
pub fn pieces<'a>(samples: u32, pattern: &'a [u32], stops: &'a [u32]) -> Pieces<'a>
    requires pattern { IsPattern pattern.now }
    requires stops { IsNonDecreasing stops.now }
    ensures { left result ≡ pieces_of samples pattern.now stops.now }
{
    Pieces::new(samples, pattern, stops)
}
