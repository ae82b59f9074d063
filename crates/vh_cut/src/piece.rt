//! Pieces, and the iterator over them.

ghost use Rattle.std.specs.Prelude.{◌≡◌, ◌≤◌, ◌<◌, ◌-◌};
ghost use Rattle.std.specs.List.Sorted.{IsNonDecreasing};
ghost use Rattle.std.specs.Iterator.{YieldsFirst, item_count};
ghost use Rattle.vh_cut.specs.Cut.{IsPattern, AreLater, pieces_of, piece_length, later_stops};

/// A piece of a rendering: the sample that it begins at, and its samples.
#[derive(Clone, Copy, Debug, PartialEq, Eq)]
pub struct Piece {
    pub start: u32,
    pub length: u32,
}

/// The pieces of a rendering, in order.
#[derive(Drop)]
pub struct Pieces<'a> {
    samples: u32,
    pattern: &'a [u32],
    stops: &'a [u32],
    at: u32,
    number: u32,
    ghost sizes: { IsPattern pattern.now },
    ghost rising: { IsNonDecreasing stops.now },
    ghost within: { at ≤ samples },
    ghost counted: { number ≤ at },
}

impl<'a> Pieces<'a> {
    ghost use Rattle.vh_cut.specs.Pieces.{left};

    /// The pieces of so many samples.
    pub(crate) fn new(samples: u32, pattern: &'a [u32], stops: &'a [u32]) -> Pieces<'a>
        requires pattern { IsPattern pattern.now }
        requires stops { IsNonDecreasing stops.now }
        ensures { left result ≡ pieces_of samples pattern.now stops.now }
    {
        Pieces {
            samples,
            pattern,
            stops,
            at: 0,
            number: 0,
        }
    }

    /// The length of the next piece, where the stops are those after its start.
    #[tactic(auto, using(crate::proofs::Lengths::nearest_is_first))]
    fn length(&self) -> u32
        requires some { self.now.at < self.now.samples }
        requires later { AreLater self.now.at self.now.stops.now }
        ensures length { result ≡ piece_length self.now.samples self.now.pattern.now self.now.stops.now self.now.number self.now.at }
        ensures some { 1 ≤ result }
        ensures most { result ≤ self.now.samples - self.now.at }
    {
        let turn = self.number as usize % self.pattern.len();
        let size = self.pattern[turn].min(self.samples - self.at);
        match self.stops.first() {
            Some(stop) => size.min(*stop - self.at),
            None => size,
        }
    }
}

impl<'a> Iterator for Pieces<'a> {
    ghost use Rattle.vh_cut.specs.Pieces.{left};

    type Item = Piece;

    ghost next_gives = { YieldsFirst left };

    ghost remaining = { item_count left };

    #[tactic(auto, using(crate::proofs::Lengths::first_piece))]
    fn next(&mut self) -> Option<Piece> {
        if self.at == self.samples {
            return None;
        }
        let start = self.at;
        self.stops = later(self.stops, start);
        let length = self.length();
        self.at += length;
        self.number += 1;
        Some(Piece { start, length })
    }
}

/// The stops after a sample.
fn later(stops: &[u32], at: u32) -> &[u32]
    requires { IsNonDecreasing stops.now }
    ensures later { result.now ≡ later_stops at stops.now }
    ensures after { AreLater at result.now }
    ensures rising { IsNonDecreasing result.now }
{
    for i in 0..stops.len() {
        if stops[i] > at {
            return &stops[i..];
        }
    }
    &stops[stops.len()..]
}
